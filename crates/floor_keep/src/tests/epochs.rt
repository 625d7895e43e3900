//! The epoch of a folder, as it is read.

use crate::epoch::{Epoch, confirm, epoch_of, first_epoch};
use crate::fault::{KeepFault, fault_of};
use std::io;
use std::test::Fail;

/// A folder whose epoch is another one at each look, from this one on.
#[derive(Drop)]
struct Turning {
    next: u64,
}

impl Epoch for Turning {
    ghost is_now = { λ _ _. Unit {0} };

    fn read_epoch(&mut self) -> Result<u64, KeepFault> {
        let now = self.next;
        self.next = now.saturating_add(1);
        Ok(now)
    }
}

/// A folder whose epoch can't be read, since the system says so.
#[derive(Drop)]
struct Unreadable {
    code: i32,
}

impl Epoch for Unreadable {
    ghost is_now = { λ _ _. Unit {0} };

    fn read_epoch(&mut self) -> Result<u64, KeepFault> {
        Err(fault_of(&io::Error::from_raw_os_error(self.code)))
    }
}

#[test]
fn an_epoch_is_a_number(rt: HostRuntime) -> Result<(), Fail> {
    let cases: [(&[u8], Option<u64>); 13] = [
        (b"0", Some(0)),
        (b"7\n", Some(7)),
        (b"18446744073709551615\n", Some(18_446_744_073_709_551_615)),
        (b"18446744073709551616\n", None),
        (b"", None),
        (b"\n", None),
        (b"7\n\n", None),
        (b"7 ", None),
        (b"-1", None),
        (b"+5", None),
        (b"+5\n", None),
        (b"++5", None),
        (b"\xff", None),
    ];
    for (bytes, wanted) in cases {
        assert_eq!(rt; epoch_of(bytes), wanted, "{bytes:?}");
    }
    Ok(())
}

#[test]
fn an_epoch_is_read_at_each_look(rt: HostRuntime) -> Result<(), Fail> {
    let mut folder = Turning { next: 5 };
    assert_eq!(rt; first_epoch(&mut folder, None), Ok(5));
    assert_eq!(rt; first_epoch(&mut folder, Some(6)), Ok(6));
    assert_eq!(rt; first_epoch(&mut folder, Some(6)), Err(KeepFault::Lost));
    assert_eq!(rt; confirm(&mut folder, 8), Ok(()));
    assert_eq!(rt; confirm(&mut folder, 8), Err(KeepFault::Lost));
    Ok(())
}

/// Only another number is a fence.
#[test]
fn what_the_system_refuses_is_no_other_epoch(rt: HostRuntime) -> Result<(), Fail> {
    let cases = [
        ("EMFILE", 24, KeepFault::Descriptors),
        ("ENFILE", 23, KeepFault::Descriptors),
        ("EINTR", 4, KeepFault::CannotKeep),
        ("EIO", 5, KeepFault::CannotKeep),
        ("ENOMEM", 12, KeepFault::Memory),
        ("EACCES", 13, KeepFault::CannotKeep),
    ];
    for (name, code, wanted) in cases {
        let mut folder = Unreadable { code };
        assert_eq!(rt; first_epoch(&mut folder, None), Err(wanted), "{name}");
        assert_eq!(rt; first_epoch(&mut folder, Some(0)), Err(wanted), "{name}");
        assert_eq!(rt; confirm(&mut folder, 0), Err(wanted), "{name}");
    }
    Ok(())
}
