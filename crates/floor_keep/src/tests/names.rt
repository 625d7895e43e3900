//! The names of a folder's files.

use crate::listing::listing_of;
use crate::naming::{Named, ended_name, journal_name, kind_of_name};
use std::test::Fail;

#[test]
fn a_name_says_what_a_file_is(rt: HostRuntime) -> Result<(), Fail> {
    let alloc = rt.alloc();
    let cases = [
        ("7.journal", Named::Journal(7)),
        ("0.journal", Named::Journal(0)),
        ("4294967295.journal", Named::Journal(4_294_967_295)),
        ("4294967296.journal", Named::Other),
        ("07.journal", Named::Other),
        ("+7.journal", Named::Other),
        ("7.journal~", Named::Other),
        ("7.JOURNAL", Named::Other),
        ("a7.journal", Named::Other),
        (".journal", Named::Other),
        ("7.new", Named::Other),
        ("7.1796652000.closed", Named::Closed(7)),
        ("7.0.closed", Named::Closed(7)),
        ("7.1796652000.closed.2", Named::Closed(7)),
        ("7.1796652000.closed.12", Named::Closed(7)),
        ("7.1796652000.closed.1", Named::Other),
        ("7.1796652000.closed.02", Named::Other),
        ("7.1796652000.closed.", Named::Other),
        ("7.1796652000.closed.x", Named::Other),
        ("7..closed", Named::Other),
        ("7.closed", Named::Other),
        ("7.1796652000.unkept", Named::Unkept(7)),
        ("7.1796652000.unkept.3", Named::Unkept(7)),
        ("lock", Named::Other),
        ("epoch", Named::Other),
        ("", Named::Other),
        (".", Named::Other),
        ("..", Named::Other),
    ];
    for (name, wanted) in cases {
        assert_eq!(rt; kind_of_name(alloc, name)?, wanted, "{name}");
    }
    Ok(())
}

#[test]
fn each_name_that_is_given_is_read_back(rt: HostRuntime) -> Result<(), Fail> {
    let alloc = rt.alloc();
    for conference in [0u32, 1, 9, 10, 4_294_967_295] {
        let name = journal_name(alloc, conference)?;
        assert_eq!(rt;
            kind_of_name(alloc, name.as_str())?,
            Named::Journal(conference)
        );
        for count in [1u32, 2, 3, 1_000] {
            let name = ended_name(alloc, conference, 1_796_652_000, "closed", count)?;
            assert_eq!(rt;
                kind_of_name(alloc, name.as_str())?,
                Named::Closed(conference)
            );
            let name = ended_name(alloc, conference, 1_796_652_000, "unkept", count)?;
            assert_eq!(rt;
                kind_of_name(alloc, name.as_str())?,
                Named::Unkept(conference)
            );
        }
    }
    Ok(())
}

#[test]
fn a_listing_has_each_conference_in_order(rt: HostRuntime) -> Result<(), Fail> {
    let alloc = rt.alloc();
    let names =
        b"10.journal\0lock\09.journal\0\xff.journal\07.5.closed\07.6.closed\08.5.unkept\0epoch\0";
    let listing = listing_of(alloc, names)?;
    assert_eq!(rt; listing.journals(), &[9u32, 10][..]);
    assert!(rt; listing.has_journal(9) && listing.has_journal(10));
    assert!(rt; !listing.has_journal(7) && !listing.has_journal(8));
    assert!(rt; listing.is_closed(7) && !listing.is_closed(8) && !listing.is_closed(9));
    let none = listing_of(alloc, b"")?;
    assert!(rt; none.journals().is_empty());
    Ok(())
}
