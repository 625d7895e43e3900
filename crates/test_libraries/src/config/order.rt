//! The order of faults, and counts.

use super::told_of_case;
use crate::cases::{assert_told, differing, number, part};
use floor_config::{Config, read_configs};
use std::alloc::{AllocError, Global};
use std::fmt::Write;

/// Texts with two faults, and the one that comes first.
const ORDER: &str = r#"== kinds of conferences before their keys
conference = [{}, 1]
=> WrongType
== a conference's id before its limit
conference = [{limit = 0}]
=> MissingKey
== an id's kind before a limit's range
conference = [{id = "1", limit = 0}]
=> WrongType
== an id's range before a limit's kind
conference = [{id = -1, limit = "4"}]
=> OutOfRange
== a limit's range before the kind of the users
conference = [{id = 1, limit = 0, user = 1}]
=> OutOfRange
== a limit's kind before the keys of a user
conference = [{id = 1, limit = true, user = [{}]}]
=> WrongType
== kinds of users before their keys
conference = [{id = 1, user = [{}, 1]}]
=> WrongType
== a user's id before its name
conference = [{id = 1, user = [{name = 1}]}]
=> MissingKey
== a name's range before a URI's kind
conference = [{id = 1, user = [{id = 10, name = "nnnnnnnnnnnnnnnnnnnnnnnnnnnnnnn", uri = 1}]}]
=> OutOfRange
== a name's kind before a URI's range
conference = [{id = 1, user = [{id = 10, name = 1, uri = "uuuuuuuuuuuuuuuuuuuuuuuuuuuuuuuuuuuuuuuuuuuuuuuuuuuuuuuuuuuuuuu"}]}]
=> WrongType
== a URI's range before a proxy mark's kind
conference = [{id = 1, user = [{id = 10, uri = "uuuuuuuuuuuuuuuuuuuuuuuuuuuuuuuuuuuuuuuuuuuuuuuuuuuuuuuuuuuuuuu", proxy = 1}]}]
=> OutOfRange
== a proxy mark's kind before a port's range
conference = [{id = 1, user = [{id = 10, proxy = 1, port = 0}]}]
=> WrongType
== a port's range before the next user's id
conference = [{id = 1, user = [{id = 10, port = 0}, {}]}]
=> OutOfRange
== a later user's keys before two users with one id
conference = [{id = 1, user = [{id = 10}, {id = 10}, {}]}]
=> MissingKey
== two users with one id before the kind of the floors
conference = [{id = 1, user = [{id = 10}, {id = 10}], floor = 1}]
=> DoubleUser
== two users with one id before the keys of a floor
conference = [{id = 1, user = [{id = 10}, {id = 10}], floor = [{}]}]
=> DoubleUser
== kinds of floors before their keys
conference = [{id = 1, user = [{id = 10}], floor = [{}, 1]}]
=> WrongType
== a floor's id before its room
conference = [{id = 1, user = [{id = 10}], floor = [{room = 0}]}]
=> MissingKey
== a room's range before a chair's kind
conference = [{id = 1, user = [{id = 10}], floor = [{id = 1, room = 0, chair = "10"}]}]
=> OutOfRange
== a room's kind before a chair's range
conference = [{id = 1, user = [{id = 10}], floor = [{id = 1, room = "1", chair = -1}]}]
=> WrongType
== a chair's range before the next floor's id
conference = [{id = 1, user = [{id = 10}], floor = [{id = 1, chair = 65536}, {}]}]
=> OutOfRange
== a later floor's keys before two floors with one id
conference = [{id = 1, user = [{id = 10}], floor = [{id = 1}, {id = 1}, {}]}]
=> MissingKey
== a chair's range before two floors with one id
conference = [{id = 1, user = [{id = 10}], floor = [{id = 1}, {id = 1, chair = 65536}]}]
=> OutOfRange
== two floors with one id before a chair that is no user
conference = [{id = 1, user = [{id = 10}], floor = [{id = 1, chair = 11}, {id = 1}]}]
=> DoubleFloor
== a chair that is no user before the next conference
conference = [{id = 1, floor = [{id = 1, chair = 10}]}, {}]
=> UnknownChair
== a later conference's keys before two conferences with one id
conference = [{id = 1}, {id = 1}, {}]
=> MissingKey
== two conferences with one id before two users with one port
conference = [{id = 1, user = [{id = 10, port = 7010}]}, {id = 1, user = [{id = 10, port = 7010}]}]
=> DoubleConference"#;

#[test]
fn of_two_faults_the_first_in_order_is_told(rt: HostRuntime) {
    let told = differing(rt.alloc(), ORDER, "\n== ", "\n=>", told_of_case);
    assert_told(&rt, told, "27 cases");
}

/// Each line: the name of a case, a key, how many items of ascending ids from 0 a conference has at
/// it, and one item more. Behind `=>` the fault.
const MANY: &str = "\
256 users | user | 255 | {id = 999} => none
257 users | user | 256 | {id = 999} => OutOfRange
257 users, the last without an id | user | 256 | {} => OutOfRange
257 users, the last of them a number | user | 256 | 1 => WrongType
256 users, the last without an id | user | 255 | {} => MissingKey
256 users, the last with the id of the first | user | 255 | {id = 0} => DoubleUser
32 floors | floor | 31 | {id = 999} => none
33 floors | floor | 32 | {id = 999} => OutOfRange
33 floors, the last without an id | floor | 32 | {} => OutOfRange
33 floors, the last of them a number | floor | 32 | 1 => WrongType
32 floors, the last with the id of the first | floor | 31 | {id = 0} => DoubleFloor";

#[test]
fn a_conference_has_at_most_256_users_and_32_floors(rt: HostRuntime) {
    let told = differing(rt.alloc(), MANY, "\n", " => ", fault_of_many);
    assert_told(&rt, told, "11 cases");
}

/// The fault of a case's conference.
fn fault_of_many(alloc: Global, case: &str) -> Result<String, AllocError> {
    let mut text = String::new(alloc);
    write!(text, "conference = [{{id = 1, {} = [", part(case, 1))?;
    for id in 0..number(part(case, 2)) {
        write!(text, "{{id = {id}}}, ")?;
    }
    write!(text, "{}]}}]", part(case, 3))?;
    fault_of(alloc, &text)
}

/// The fault of a text, or `none`.
fn fault_of(alloc: Global, text: &str) -> Result<String, AllocError> {
    match read_configs(alloc, text) {
        Ok(_) => String::from_str(alloc, "none"),
        Err(fault) => fault.to_string(alloc),
    }
}

/// Each line: the name of a case, how many conferences of how many users each with a port of its own a
/// text has, and what stands behind them. Behind `=>` what is read.
const PORTS: &str = "\
272 ports | 16 | 17 | => 16 conferences, 17 users in a copy of the last
128 users | 1 | 128 | => 1 conferences, 128 users in a copy of the last
a bracket behind 4,096 bytes and more | 16 | 17 | [ => Syntax, and more than 4096 bytes";

#[test]
fn a_text_may_have_sixteen_conferences_and_many_ports(rt: HostRuntime) {
    let told = differing(rt.alloc(), PORTS, "\n", " => ", told_of_ports);
    assert_told(&rt, told, "3 cases");
}

fn told_of_ports(alloc: Global, case: &str) -> Result<String, AllocError> {
    let text = text_of_ports(alloc, case)?;
    match read_configs(alloc, &text) {
        Ok(configs) => {
            let users = users_copied(alloc, configs.last())?;
            let conferences = configs.len();
            format!(in alloc; "{conferences} conferences, {users} users in a copy of the last")
        }
        Err(fault) if text.len() > 4096 => format!(in alloc; "{fault}, and more than 4096 bytes"),
        Err(fault) => fault.to_string(alloc),
    }
}

/// How many users a copy of a configuration has.
fn users_copied(alloc: Global, config: Option<&Config>) -> Result<usize, AllocError> {
    match config {
        Some(config) => Ok(config.copy(alloc)?.users().len()),
        None => Ok(0),
    }
}

fn text_of_ports(alloc: Global, case: &str) -> Result<String, AllocError> {
    let mut text = String::new(alloc);
    let mut ports = 0;
    for conference in 0..number(part(case, 1)) {
        push_conference(&mut text, conference, number(part(case, 2)), &mut ports)?;
    }
    text.push_str(part(case, 3))?;
    Ok(text)
}

/// Adds a conference of so many users, each with a port of its own.
fn push_conference(
    text: &mut String,
    conference: u16,
    users: u16,
    ports: &mut u16,
) -> Result<(), AllocError> {
    write!(text, "[[conference]]\nid = {conference}\n")?;
    for user in 0..users {
        *ports = ports.wrapping_add(1);
        let port = *ports;
        write!(text, "[[conference.user]]\nid = {user}\nport = {port}\n")?;
    }
    Ok(())
}
