//! Messages that are as long or as deep as a message can be.

use crate::scripts::Scripts;
use std::alloc::Global;
use test_cases::{Case, Fault};

fn check_longest(alloc: Global) -> Result<(), Fault> {
    let payload = "28040000".repeat(alloc, 65_535)?;
    let text = format!(in alloc;
        "> attach 1 10\n\
         < attached 1\n\
         > send 1 200bffff 00000001 0001 000a {payload}\n\
         < 1 HelloAck(0001, 000a)\n\
         > send 1 200bffff 00000001 0001 000b {payload}\n\
         < 1 200d0001 00000001 0001 000b 0c030500\n\
         > send 1 200bffff 00000001 0001 0063 {payload}\n\
         < 1 200d0001 00000001 0001 0063 0c030200"
    )?;
    let mut case = Case::new(alloc, "")?;
    case.extend(alloc, text.as_str())?;
    case.check(&mut Scripts, alloc, "65,535 words")
}

/// The words of groups that are inside one another, 63 deep: the Length of each is 4 less.
fn nested_groups(alloc: Global) -> Result<String, Fault> {
    let mut words = String::new(alloc);
    for depth in 0..63u8 {
        let word = format!(in alloc; " 1e{:02x}0000", 252u8.wrapping_sub(depth.wrapping_mul(4)))?;
        words.push_str(word.as_str())?;
    }
    Ok(words)
}

fn check_deepest(alloc: Global) -> Result<(), Fault> {
    let groups = nested_groups(alloc)?;
    let mut unknown = String::from_str(alloc, "01040000")?;
    let mut details = String::from_str(alloc, "00")?;
    for kind in 19..128u8 {
        let word = format!(in alloc; " {:02x}040000", kind.wrapping_mul(2).wrapping_add(1))?;
        unknown.push_str(word.as_str())?;
        let detail = format!(in alloc; " {:02x}", kind.wrapping_mul(2))?;
        details.push_str(detail.as_str())?;
    }
    let text = format!(in alloc;
        "> attach 1 10\n\
         < attached 1\n\
         > send 1 200b003f 00000001 0001 000a{groups}\n\
         < 1 HelloAck(0001, 000a)\n\
         > send 1 200b006e 00000001 0001 000a {unknown}\n\
         < 1 200d001d 00000001 0001 000a 0c7104 {details} 000000"
    )?;
    let mut case = Case::new(alloc, "")?;
    case.extend(alloc, text.as_str())?;
    case.check(&mut Scripts, alloc, "deep groups")
}

/// The longest message, and the deepest beside one with all types that are unknown.
pub fn run(alloc: Global) -> Result<usize, Fault> {
    check_longest(alloc)?;
    check_deepest(alloc)?;
    Ok(2)
}
