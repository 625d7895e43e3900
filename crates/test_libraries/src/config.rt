//! Texts and values that make configurations, and their fields.

mod faults;
mod order;

use crate::cases::{assert_told, differing, number, part, push_shown};
use floor_config::*;
use floor_words::read_u16;
use std::alloc::{AllocError, Global};
use std::fmt::Write;

/// A configuration with every key.
const EVERY_KEY: &str =
    "[[conference]]\nid = 1\nlimit = 4\n[[conference.user]]\nid = 10\nname = \"Ann\"\nuri = \"sip:ann@example.com\"\nproxy = true\nport = 7010\n[[conference.floor]]\nid = 1\nroom = 1\nchair = 10\n";

/// Appends the fields of a configuration: `conference limit (id name uri proxy port) [id room
/// chair];`, with `-` for what is absent.
fn push_fields(fields: &mut String, config: &Config) -> Result<(), AllocError> {
    write!(fields, " {} {}", config.conference(), config.limit())?;
    for user in config.users() {
        push_user(fields, user)?;
    }
    for floor in config.floors() {
        write!(fields, " [{} {}", floor.id, floor.room)?;
        push_shown(fields, floor.chair)?;
        fields.push(']')?;
    }
    fields.push(';')
}

fn push_user(fields: &mut String, user: &User) -> Result<(), AllocError> {
    write!(fields, " ({}", user.id)?;
    push_text(fields, &user.name)?;
    push_text(fields, &user.uri)?;
    write!(fields, " {}", user.proxy)?;
    push_shown(fields, user.port)?;
    fields.push(')')
}

fn push_text(fields: &mut String, text: &Option<Text>) -> Result<(), AllocError> {
    match text {
        None => push_shown(fields, None::<&str>),
        Some(text) => push_shown(fields, Some(text.as_str())),
    }
}

/// What is read of a text: the fields of its configurations, or the name of its fault.
fn told_of(alloc: Global, text: &str) -> Result<String, AllocError> {
    let mut told = String::new(alloc);
    match read_configs(alloc, text) {
        Ok(configs) => {
            for config in &configs {
                push_fields(&mut told, config)?;
            }
        }
        Err(fault) => write!(told, " {fault}")?,
    }
    Ok(told)
}

/// What is read of a case's text, which stands behind the line of its name.
fn told_of_case(alloc: Global, case: &str) -> Result<String, AllocError> {
    match case.split_once('\n') {
        Some((_name, text)) => told_of(alloc, text),
        None => String::from_str(alloc, "no text"),
    }
}

/// Texts and the fields that they give.
const READ: &str = r#"== every key
[[conference]]
id = 1
limit = 4
[[conference.user]]
id = 10
name = "Ann"
uri = "sip:ann@example.com"
proxy = true
port = 7010
[[conference.floor]]
id = 1
room = 1
chair = 10
=> 1 4 (10 Ann sip:ann@example.com true 7010) [1 1 10];
== no conferences
conference = []
=>
== keys that may be absent
conference = [{id = 7}]
=> 7 4;
== the least conference and limit
conference = [{id = 0, limit = 1}]
=> 0 1;
== the greatest conference and limit
conference = [{id = 4294967295, limit = 16}]
=> 4294967295 16;
== a user with its id alone
conference = [{id = 1, user = [{id = 10}]}]
=> 1 4 (10 - - false -);
== the least id and port
conference = [{id = 1, user = [{id = 0, port = 1}]}]
=> 1 4 (0 - - false 1);
== the greatest id and port
conference = [{id = 1, user = [{id = 65535, port = 65535}]}]
=> 1 4 (65535 - - false 65535);
== no proxy mark
conference = [{id = 1, user = [{id = 10, proxy = false}]}]
=> 1 4 (10 - - false -);
== empty texts
conference = [{id = 1, user = [{id = 10, name = "", uri = ""}]}]
=> 1 4 (10 - - false -);
== a text of a blank
conference = [{id = 1, user = [{id = 10, name = " "}]}]
=> 1 4 (10   - false -);
== a name of 30 bytes
conference = [{id = 1, user = [{id = 10, name = "nnnnnnnnnnnnnnnnnnnnnnnnnnnnnn"}]}]
=> 1 4 (10 nnnnnnnnnnnnnnnnnnnnnnnnnnnnnn - false -);
== a name of 30 bytes in 15 characters
conference = [{id = 1, user = [{id = 10, name = "ééééééééééééééé"}]}]
=> 1 4 (10 ééééééééééééééé - false -);
== a name of 30 bytes after escapes
conference = [{id = 1, user = [{id = 10, name = "\u20ac\u20ac\u20ac\u20ac\u20ac\u20ac\u20ac\u20ac\u20ac\u20ac"}]}]
=> 1 4 (10 €€€€€€€€€€ - false -);
== a URI of 62 bytes
conference = [{id = 1, user = [{id = 10, uri = "uuuuuuuuuuuuuuuuuuuuuuuuuuuuuuuuuuuuuuuuuuuuuuuuuuuuuuuuuuuuuu"}]}]
=> 1 4 (10 - uuuuuuuuuuuuuuuuuuuuuuuuuuuuuuuuuuuuuuuuuuuuuuuuuuuuuuuuuuuuuu false -);
== a URI of 62 bytes in 17 characters
conference = [{id = 1, user = [{id = 10, uri = "𝄞𝄞𝄞𝄞𝄞𝄞𝄞𝄞𝄞𝄞𝄞𝄞𝄞𝄞𝄞uu"}]}]
=> 1 4 (10 - 𝄞𝄞𝄞𝄞𝄞𝄞𝄞𝄞𝄞𝄞𝄞𝄞𝄞𝄞𝄞uu false -);
== a floor with its id alone
conference = [{id = 1, user = [{id = 10}], floor = [{id = 1}]}]
=> 1 4 (10 - - false -) [1 1 -];
== the least floor and room
conference = [{id = 1, user = [{id = 10}], floor = [{id = 0, room = 1}]}]
=> 1 4 (10 - - false -) [0 1 -];
== the greatest floor and room
conference = [{id = 1, user = [{id = 10}], floor = [{id = 65535, room = 255}]}]
=> 1 4 (10 - - false -) [65535 255 -];
== a floor with the id of a user
conference = [{id = 1, user = [{id = 10}], floor = [{id = 10, chair = 10}]}]
=> 1 4 (10 - - false -) [10 1 10];
== chairs with the least and the greatest id
conference = [{id = 1, floor = [{id = 1, chair = 65535}, {id = 2, chair = 0}], user = [{id = 0}, {id = 65535}]}]
=> 1 4 (0 - - false -) (65535 - - false -) [1 1 65535] [2 1 0];
== one chair of two floors
conference = [{id = 1, user = [{id = 10}], floor = [{id = 2, chair = 10}, {id = 1, chair = 10}]}]
=> 1 4 (10 - - false -) [2 1 10] [1 1 10];
== empty arrays
conference = [{id = 1, user = [], floor = []}]
=> 1 4;
== unknown keys
title = 1.5
conference = [{id = 1, x = 2024-01-01, user = [{id = 10, id2 = {}}], floor = [{id = 1, rooms = [0]}]}]
=> 1 4 (10 - - false -) [1 1 -];
== one user in two conferences
conference = [{id = 2, user = [{id = 10, port = 7010}]}, {id = 1, user = [{id = 10, port = 7011}], floor = [{id = 1}]}]
=> 2 4 (10 - - false 7010); 1 4 (10 - - false 7011) [1 1 -];"#;

#[test]
fn a_text_gives_its_fields(rt: HostRuntime) {
    let told = differing(rt.alloc(), READ, "\n== ", "\n=>", told_of_case);
    assert_told(&rt, told, "25 cases");
}

/// Each line: the name of a case, the limit, the ids of the users, the name, the URI and the port of
/// the first of them, the room and the chair of floor 1, and the id of another floor. Behind `=>`
/// what `Config::build` makes of them.
const BUILT: &str = "\
values within their ranges | 4 | 10 11 | n | | 7010 | 1 | 10 | 2 => 1 4 (10 n - false 7010) (11 - - false -) [1 1 10] [2 1 -];
the least values and empty texts | 1 | 10 11 | | | 1 | 1 | - | 2 => 1 1 (10 - - false 1) (11 - - false -) [1 1 -] [2 1 -];
the greatest values | 16 | 10 11 | nnnnnnnnnnnnnnnnnnnnnnnnnnnnnn | uuuuuuuuuuuuuuuuuuuuuuuuuuuuuuuuuuuuuuuuuuuuuuuuuuuuuuuuuuuuuu | 65535 | 255 | 11 | 65535 => 1 16 (10 nnnnnnnnnnnnnnnnnnnnnnnnnnnnnn uuuuuuuuuuuuuuuuuuuuuuuuuuuuuuuuuuuuuuuuuuuuuuuuuuuuuuuuuuuuuu false 65535) (11 - - false -) [1 255 11] [65535 1 -];
a limit of 0 | 0 | 10 11 10 | n | | 0 | 0 | 9 | 1 => OutOfRange
a limit of 17 | 17 | 10 11 | n | | 7010 | 1 | - | 2 => OutOfRange
a name of 31 bytes | 4 | 10 11 | nnnnnnnnnnnnnnnnnnnnnnnnnnnnnnn | | 7010 | 1 | - | 2 => OutOfRange
a URI of 63 bytes | 4 | 10 11 | n | uuuuuuuuuuuuuuuuuuuuuuuuuuuuuuuuuuuuuuuuuuuuuuuuuuuuuuuuuuuuuuu | 7010 | 1 | - | 2 => OutOfRange
port 0 | 4 | 10 11 | n | | 0 | 1 | - | 2 => OutOfRange
two users with one id before a room | 4 | 10 11 10 | n | | 7010 | 0 | 9 | 1 => DoubleUser
a room of 0 before two floors with one id | 4 | 10 11 | n | | 7010 | 0 | 9 | 1 => OutOfRange
a room of 256 | 4 | 10 11 | n | | 7010 | 256 | - | 2 => OutOfRange
two floors with one id before a chair | 4 | 10 11 | n | | 7010 | 1 | 9 | 1 => DoubleFloor
a chair that is no user | 4 | 10 11 | n | | 7010 | 1 | 9 | 2 => UnknownChair";

#[test]
fn values_make_a_configuration_or_a_fault(rt: HostRuntime) {
    let told = differing(rt.alloc(), BUILT, "\n", " =>", built);
    assert_told(&rt, told, "13 cases");
}

/// What `Config::build` answers of a case: the fields, or the name of the fault.
fn built(alloc: Global, case: &str) -> Result<String, AllocError> {
    let first = Floor {
        id: 1,
        room: number(part(case, 6)),
        chair: read_u16(part(case, 7)),
    };
    let second = Floor {
        id: number(part(case, 8)),
        room: 1,
        chair: None,
    };
    let floors = Floors::from_vec(vec![in alloc; first, second]?);
    let limit = number(part(case, 1));
    let mut told = String::new(alloc);
    match Config::build(alloc, 1, limit, 64, users_of(alloc, case)?, floors) {
        Ok(config) => push_fields(&mut told, &config)?,
        Err(fault) => write!(told, " {fault}")?,
    }
    Ok(told)
}

/// The users of a case, the first of whom has a name, a URI and a port.
fn users_of(alloc: Global, case: &str) -> Result<Users, AllocError> {
    let mut users = Vec::new(alloc);
    for id in part(case, 2).split(' ') {
        let mut user = User {
            id: number(id),
            name: None,
            uri: None,
            proxy: false,
            port: None,
        };
        if users.is_empty() {
            user.name = Some(Text::from_string(String::from_str(alloc, part(case, 3))?));
            user.uri = Some(Text::from_string(String::from_str(alloc, part(case, 4))?));
            user.port = Some(number(part(case, 5)));
        }
        users.push(user)?;
    }
    Ok(Users::from_vec(users))
}

#[test]
fn a_copy_has_the_fields_of_its_source(rt: HostRuntime) {
    assert_told(
        &rt,
        copied(rt.alloc()),
        " 1 4 (10 Ann sip:ann@example.com true 7010) [1 1 10]; (10 Ann sip:ann@example.com true 7010)",
    );
}

/// The fields of a copied configuration, and those of its copied users.
fn copied(alloc: Global) -> Result<String, AllocError> {
    let mut fields = String::new(alloc);
    if let Ok(configs) = read_configs(alloc, EVERY_KEY) {
        for config in &configs {
            push_copied(alloc, &mut fields, &config.copy(alloc)?)?;
        }
    }
    Ok(fields)
}

fn push_copied(alloc: Global, fields: &mut String, copy: &Config) -> Result<(), AllocError> {
    push_fields(fields, copy)?;
    for user in copy.users() {
        push_user(fields, &user.copy(alloc)?)?;
    }
    Ok(())
}

#[test]
fn the_demonstration_has_three_bare_users_and_a_floor(rt: HostRuntime) {
    let wanted = " 1 4 (10 - - false -) (11 - - false -) (12 - - false -) [1 1 -];";
    assert_told(&rt, demonstration_fields(rt.alloc()), wanted);
}

fn demonstration_fields(alloc: Global) -> Result<String, AllocError> {
    let mut fields = String::new(alloc);
    push_fields(&mut fields, &Config::demonstration(alloc)?)?;
    Ok(fields)
}

#[test]
fn a_fault_is_printed_by_its_name(rt: HostRuntime) {
    let wanted =
        " Syntax MissingKey WrongType OutOfRange DoubleUser DoubleFloor NoFloor UnknownChair \
        DoubleConference DoublePort Memory";
    assert_told(&rt, faults_printed(rt.alloc()), wanted);
}

/// Each fault as it is printed, with a blank before it.
fn faults_printed(alloc: Global) -> Result<String, AllocError> {
    let mut printed = String::new(alloc);
    for fault in [
        ConfigFault::Syntax,
        ConfigFault::MissingKey,
        ConfigFault::WrongType,
        ConfigFault::OutOfRange,
        ConfigFault::DoubleUser,
        ConfigFault::DoubleFloor,
        ConfigFault::NoFloor,
        ConfigFault::UnknownChair,
        ConfigFault::DoubleConference,
        ConfigFault::DoublePort,
        ConfigFault::Memory,
    ] {
        push_shown(&mut printed, Some(fault))?;
    }
    Ok(printed)
}
