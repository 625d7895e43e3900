//! What each line asks for, as one table.

use crate::cases::{assert_told, differing};
use floor_console::{Command, ConsoleFault, User, parse_line};
use std::alloc::{AllocError, Global};

/// A line, and its command or what is wrong with it.
const LINES: &str = "=Empty
 =UnknownCommand
   =UnknownCommand
open a.toml=Open a.toml
  open   /etc/floord/conferences.toml  =Open /etc/floord/conferences.toml
open a\\b=Open a\\b
open 7=Open 7
open \"a=Open \"a
open=UnknownCommand
open a b=UnknownCommand
open a b c=UnknownCommand
Open a=UnknownCommand
opens a=UnknownCommand
ope a=UnknownCommand
open\ta=UnknownCommand
close 1=Close 1
close 0=Close 0
close 007=Close 7
close 0000000001=Close 1
close 00000000001=BadNumber
close 4294967295=Close 4294967295
close 4294967296=BadNumber
close 9999999999=BadNumber
close 10000000000=BadNumber
close +1=BadNumber
close -1=BadNumber
close 1.0=BadNumber
close 0x1=BadNumber
close x=BadNumber
close 1\r=BadNumber
close \u{661}=BadNumber
close=UnknownCommand
close 1 2=UnknownCommand
close x y=UnknownCommand
CLOSE 1=UnknownCommand
closed 1=UnknownCommand
 close  1 =Close 1
revoke 1 1=Revoke 1 1
revoke 4294967295 65535=Revoke 4294967295 65535
revoke 4294967296 1=BadNumber
revoke 1 65536=BadNumber
revoke 1 0000065535=Revoke 1 65535
revoke 1 00000065535=BadNumber
revoke 1 4294967295=BadNumber
revoke x 1=BadNumber
revoke 1 x=BadNumber
revoke x y=BadNumber
revoke=UnknownCommand
revoke 1=UnknownCommand
revoke x=UnknownCommand
revoke 1 1 1=UnknownCommand
   revoke 2   3   =Revoke 2 3
user 1 13=AddUser 1 13
user 1 13 proxy=AddUser 1 13 proxy
user 1 13 port 7010=AddUser 1 13 port 7010
user 1 13 proxy port 65535 name Ann=AddUser 1 13 proxy port 65535 name Ann
  user  1   13  proxy  port  7  name  Ann  Lee  =AddUser 1 13 proxy port 7 name Ann  Lee__
user 1 13 name name=AddUser 1 13 name name
user 1 13 name proxy port 5=AddUser 1 13 name proxy port 5
user 1 13 name J\u{fc}rgen=AddUser 1 13 name J\u{fc}rgen
user 1 13 name 0123456789012345678901234567890=AddUser 1 13 name 0123456789012345678901234567890
user=UnknownCommand
user 1=UnknownCommand
user 1 13 name=UnknownCommand
user 1 13 name =UnknownCommand
user 1 13 port=UnknownCommand
user 1 13 port 5 proxy=UnknownCommand
user 1 13 proxy proxy=UnknownCommand
user x 13 uri a=UnknownCommand
user 1 13 Ann=UnknownCommand
User 1 13=UnknownCommand
user 1 13 port 0=BadNumber
user 1 13 port 65536=BadNumber
user 1 13 port name=BadNumber
user name 13=BadNumber
user name 13 name x=BadNumber
user 1 x=BadNumber
user 1 65536=BadNumber
user 4294967296 13=BadNumber
floor 1 5=AddFloor 1 5 room 1 chair none
floor 1 5 room 2=AddFloor 1 5 room 2 chair none
floor 1 5 chair 12=AddFloor 1 5 room 1 chair 12
floor 1 5 room 2 chair 12=AddFloor 1 5 room 2 chair 12
floor 1 5 room 65535=AddFloor 1 5 room 65535 chair none
floor 1 5 room 0=AddFloor 1 5 room 0 chair none
 floor  1 65535  chair  0 =AddFloor 1 65535 room 1 chair 0
floor=UnknownCommand
floor 1=UnknownCommand
floor 1 5 chair 10 room 1=UnknownCommand
floor 1 5 room=UnknownCommand
floor 1 5 room chair 10=UnknownCommand
floor 1 5 2=UnknownCommand
floor 1 5 room 2 chair=UnknownCommand
floor 1 5 room 2 chair 12 x=UnknownCommand
floor 1 70000=BadNumber
floor 1 5 room 70000=BadNumber
floor 1 5 room chair=BadNumber
floor 1 5 chair -=BadNumber
chair 1 5=SetChair 1 5 none
chair 1 5 12=SetChair 1 5 12
 chair  4294967295  65535  65535 =SetChair 4294967295 65535 65535
chair=UnknownCommand
chair 1=UnknownCommand
chair 1 5 12 x=UnknownCommand
chair 1 1 -=BadNumber
chair 1 70000=BadNumber
status 1=Status 1
status 4294967295=Status 4294967295
status 4294967296=BadNumber
status all=BadNumber
status=UnknownCommand
status 1 1=UnknownCommand
stat 1=UnknownCommand
journal 1=Journal 1
journal 00=Journal 0
journal -=BadNumber
journal=UnknownCommand
journal 1 1=UnknownCommand
journals 1=UnknownCommand
stop=Stop
 stop =Stop
stop 1=UnknownCommand
stop now please=UnknownCommand
Stop=UnknownCommand
halt=UnknownCommand
# close 1=UnknownCommand
#=UnknownCommand
1=UnknownCommand
\u{a0}stop=UnknownCommand";

#[test]
fn each_line_asks_for_one_command(rt: HostRuntime) {
    let told = differing(rt.alloc(), LINES, "\n", "=", parsed);
    assert_told(&rt, told, "129 cases");
    assert!(rt; ConsoleFault::Memory.name() == "Memory");
}

fn parsed(alloc: Global, line: &str) -> Result<String, AllocError> {
    match parse_line(alloc, line) {
        Ok(command) => shown(alloc, &command),
        Err(fault) => String::from_str(alloc, fault.name()),
    }
}

fn shown(alloc: Global, command: &Command) -> Result<String, AllocError> {
    match command {
        Command::Empty => String::from_str(alloc, "Empty"),
        Command::Open { path } => {
            let path = path.as_str();
            format!(in alloc; "Open {path}")
        }
        Command::Close { conference } => format!(in alloc; "Close {conference}"),
        Command::Revoke {
            conference,
            request,
        } => format!(in alloc; "Revoke {conference} {request}"),
        Command::AddUser { conference, user } => shown_user(alloc, *conference, user),
        Command::AddFloor { conference, floor } => {
            let chair = shown_chair(alloc, floor.chair)?;
            format!(in alloc;
                "AddFloor {conference} {} room {} chair {chair}",
                floor.id, floor.room
            )
        }
        Command::SetChair {
            conference,
            floor,
            chair,
        } => {
            let chair = shown_chair(alloc, *chair)?;
            format!(in alloc; "SetChair {conference} {floor} {chair}")
        }
        Command::Status { conference } => format!(in alloc; "Status {conference}"),
        Command::Journal { conference } => format!(in alloc; "Journal {conference}"),
        Command::Stop => String::from_str(alloc, "Stop"),
    }
}

/// A user, with a low line for each space at the end of the name.
fn shown_user(alloc: Global, conference: u32, user: &User) -> Result<String, AllocError> {
    let mut text = format!(in alloc; "AddUser {conference} {}", user.id)?;
    if user.proxy {
        text.push_str(" proxy")?;
    }
    if let Some(port) = user.port {
        text.push_str(format!(in alloc; " port {port}")?.as_str())?;
    }
    if let Some(name) = &user.name {
        text.push_str(" name ")?;
        let front = name.as_str().trim_end();
        text.push_str(front)?;
        for _ in front.len()..name.as_str().len() {
            text.push('_')?;
        }
    }
    Ok(text)
}

fn shown_chair(alloc: Global, chair: Option<u16>) -> Result<String, AllocError> {
    match chair {
        None => String::from_str(alloc, "none"),
        Some(user) => format!(in alloc; "{user}"),
    }
}
