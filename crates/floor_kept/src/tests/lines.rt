//! Lines by hand, each with what is read of it.

use crate::printing::entry_line;
use crate::reading::read_entry;
use std::alloc::{AllocError, Global};
use std::fmt::Write;

/// Places, `+` for a line that is an entry's there and `-` for one that is none, and the line.
const LINES: &str = "1 + 1 join 10
2 + 2 leave 4294967295
3 + 3 revoke 65535
4 + 4 took 1 2
5 + 5 close
6 + 6 message 3 200100000000000100010001
7 + 7 user 11 1 416e6e -
8 + 8 user 12 0 - 7369703a61
9 + 9 floor 2 255 -
10 + 10 floor 3 1 10
11 + 11 chair 3 -
12 + 12 chair 3 0
13 + 13 say 65535 200100000000000100010001
2000000 + 2000000 join 0
2000001 - 2000001 join 0
2000001 + end 2000000
4294967295 - 4294967295 join 0
13 + # port 11 7011
13 + # word a.b 00ff
13 + # word é -
13 + end 12
1 + end 0
1 - 1 join 65536
1 - 1 join 010
1 - 1 join +10
1 - 1  join 10
1 - 1 join 10 
1 -  1 join 10
1 - 1 Join 10
1 - 2 join 10
1 - 01 join 10
1 - # 1 join 10
1 - 1 leave 4294967296
1 - 1 took 1
1 - 1 took 1 2 3
1 - 1 message 3 20010000000000010001000
1 - 1 message 3 2001000000000001000100
1 - 1 message 3 20010000000000010001000A
1 - 1 message 3 200100000000000100010001ff
1 - 1 message 3 20010000 0000000100010001
1 - 1 message 3 -
1 - 1 user 11 2 - -
1 - 1 user 11 1 ff -
1 - 1 user 11 1  -
1 - 1 user 11 1 4E -
1 - 1 floor 2 255
1 - 1 chair 3 --
1 - 1 say 65536 200100000000000100010001
1 - 1 say 10
1 - 1 say 10 20010000000000010001000
1 - 1 say 10 200100000000000100010001ff
1 - 1 say 10 20010000000000010001000A
1 - end 1
2 - end 0
1 - End 0
1 - end 00
1 - #port 11 7011
1 - # port 11
1 - # port 11 70110
1 - # port 11  7011
1 - # word a 0F
1 - # word a  00
1 - # wort a 00
1 - # 
1 - 
1 - floorhub journal 1";

/// The lines of which something else is found than stands in the table, and how many lines there are.
fn differing(alloc: Global) -> Result<String, AllocError> {
    let mut found = String::new(alloc);
    let mut count = 0u32;
    for line in LINES.split('\n') {
        let (place, rest) = line.split_once(' ').unwrap_or((line, ""));
        let (mark, text) = rest.split_once(' ').unwrap_or((rest, ""));
        let place = place.parse::<u32>().unwrap_or(0);
        let is_bad = mark == "-";
        match read_entry(alloc, place, text)? {
            None => {
                if !is_bad {
                    write!(found, "refused {text}\n")?;
                }
            }
            Some(entry) => {
                let printed = entry_line(alloc, place as usize, &entry)?;
                let again = printed
                    .as_str()
                    .strip_suffix('\n')
                    .unwrap_or("no line feed");
                if is_bad || again != text {
                    write!(found, "read {text} as {}\n", printed.as_str())?;
                }
            }
        }
        count = count.saturating_add(1);
    }
    write!(found, "{count} lines")?;
    Ok(found)
}

#[test]
fn a_line_has_one_spelling(rt: HostRuntime) -> Result<(), AllocError> {
    let found = differing(rt.alloc())?;
    assert_eq!(rt; found.as_str(), "66 lines");
    Ok(())
}
