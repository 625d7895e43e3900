//! What each line asks for, and its tag, as one table.

use crate::cases::{assert_told, differing};
use floor_control::{Asking, Line, read_line};
use std::alloc::{AllocError, Global};

/// A line, and what it asks for behind its tag and a bar, or what is wrong with it.
const LINES: &str = "=Command
@a =a|UnknownCommand
@a=a|UnknownCommand
@a  =a|UnknownCommand
@=UnknownCommand
@ list=UnknownCommand
@a-B_9.z list=a-B_9.z|List
@12345678901234567890123456789012 list=12345678901234567890123456789012|List
@123456789012345678901234567890123 list=UnknownCommand
@a/b list=UnknownCommand
@\u{e4} list=UnknownCommand
@a\tlist=UnknownCommand
@a @b list=a|UnknownCommand
@a  list=a|List
 @a list=UnknownCommand
list=List
 list =List
list 1=UnknownCommand
List=UnknownCommand
lists=UnknownCommand
open .=OpenHere
 open  . =OpenHere
open ./=Command
open . .=UnknownCommand
open=UnknownCommand
users 7=Users 7
users 4294967295=Users 4294967295
users 4294967296=BadNumber
users=UnknownCommand
users 1 2=UnknownCommand
users x=BadNumber
members 7=Members 7
floors 7=Floors 7
leave 7 3=Leave 7 3
leave 7 4294967295=Leave 7 4294967295
leave 7 4294967296=BadNumber
leave 7=UnknownCommand
leave x=UnknownCommand
leave x y=BadNumber
forget 7=Forget 7
journal 7=Journal 7 -
journal 7 from 3=Journal 7 3
journal 7 from 9999999999=Journal 7 9999999999
journal 7 from 10000000000=BadNumber
journal 7 3=UnknownCommand
journal 7 from=UnknownCommand
journal 7 From 3=UnknownCommand
journal x=BadNumber
watch 7=Watch 7 -
watch 7 from 0=Watch 7 0
watch 7 from -1=BadNumber
unwatch 7=Unwatch 7
word 7 title 48692e=Word 7 title 48692e
word 7 title 48692E=Word 7 title 48692e
word 7 title -=Word 7 title -
word 7 - -=Word 7 - -
word 7 title 486=BadHex
word 7 title 4g=BadHex
word x title 4g=BadNumber
word 7 title=UnknownCommand
word 7 title 48 69=UnknownCommand
words 7=Words 7
metrics=Metrics
metrics 1=UnknownCommand
drain=Drain
drain 7=UnknownCommand
close 7=Command
@x close 7=x|Command
close x=BadNumber
user 1 2 name A  B=Command
stop=Command
status 7=Command
frob 7=UnknownCommand
list\r=UnknownCommand";

#[test]
fn each_line_asks_for_one_thing(rt: HostRuntime) {
    let told = differing(rt.alloc(), LINES, "\n", "=", asked);
    assert_told(&rt, told, "74 cases");
}

fn asked(alloc: Global, line: &str) -> Result<String, AllocError> {
    let Asking { tag, line } = read_line(alloc, line)?;
    let mut text = String::new(alloc);
    if let Some(tag) = &tag {
        text.push_str(tag.as_str())?;
        text.push_str("|")?;
    }
    let told = match line {
        Ok(line) => shown(alloc, &line)?,
        Err(fault) => String::from_str(alloc, fault.name())?,
    };
    text.push_str(told.as_str())?;
    Ok(text)
}

fn shown(alloc: Global, line: &Line) -> Result<String, AllocError> {
    match line {
        Line::Command(_) => String::from_str(alloc, "Command"),
        Line::OpenHere => String::from_str(alloc, "OpenHere"),
        Line::List => String::from_str(alloc, "List"),
        Line::Users { conference } => format!(in alloc; "Users {conference}"),
        Line::Members { conference } => format!(in alloc; "Members {conference}"),
        Line::Floors { conference } => format!(in alloc; "Floors {conference}"),
        Line::Leave { conference, n } => format!(in alloc; "Leave {conference} {n}"),
        Line::Forget { conference } => format!(in alloc; "Forget {conference}"),
        Line::Journal { conference, from } => shown_from(alloc, "Journal", *conference, *from),
        Line::Watch { conference, from } => shown_from(alloc, "Watch", *conference, *from),
        Line::Unwatch { conference } => format!(in alloc; "Unwatch {conference}"),
        Line::Word {
            conference,
            key,
            value,
        } => {
            let key = key.as_str();
            match value {
                None => format!(in alloc; "Word {conference} {key} -"),
                Some(value) => {
                    let value = hex::encode(alloc, value.as_slice())?;
                    format!(in alloc; "Word {conference} {key} {value}")
                }
            }
        }
        Line::Words { conference } => format!(in alloc; "Words {conference}"),
        Line::Metrics => String::from_str(alloc, "Metrics"),
        Line::Drain => String::from_str(alloc, "Drain"),
    }
}

fn shown_from(
    alloc: Global,
    name: &str,
    conference: u32,
    from: Option<u64>,
) -> Result<String, AllocError> {
    match from {
        None => format!(in alloc; "{name} {conference} -"),
        Some(place) => format!(in alloc; "{name} {conference} {place}"),
    }
}
