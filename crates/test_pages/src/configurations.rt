//! Configurations: the fields that a text or values give, or the fault, and where it stands.

use floor_config::{Config, ConfigFault, Floor, Floors, Text, User, Users, read_configs};
use floor_diagnosis::{diagnose, unknown_keys};
use floor_words::{read_u16, read_u32};
use std::alloc::{AllocError, Global};
use std::fmt::Write;

/// The fields of the configurations of a text, each copied, or the name of its fault. `faults` alone
/// stands for the names of all faults, and `demonstration` for the demonstration configuration.
pub fn read(alloc: Global, text: &str) -> Result<String, AllocError> {
    let mut told = String::new(alloc);
    match text {
        "faults\n" => push_faults(&mut told)?,
        "demonstration\n" => push_fields(alloc, &mut told, &Config::demonstration(alloc)?)?,
        text => push_read(alloc, &mut told, text)?,
    }
    Ok(told)
}

/// Appends each fault as it is printed.
fn push_faults(told: &mut String) -> Result<(), AllocError> {
    for fault in [
        ConfigFault::Syntax,
        ConfigFault::MissingKey,
        ConfigFault::WrongType,
        ConfigFault::OutOfRange,
        ConfigFault::DoubleUser,
        ConfigFault::DoubleFloor,
        ConfigFault::NoFloor,
        ConfigFault::UnknownChair,
        ConfigFault::DoubleConference,
        ConfigFault::DoublePort,
        ConfigFault::Memory,
    ] {
        write!(told, "{fault}\n")?;
    }
    Ok(())
}

fn push_read(alloc: Global, told: &mut String, text: &str) -> Result<(), AllocError> {
    match read_configs(alloc, text) {
        Ok(configs) => {
            for config in &configs {
                push_fields(alloc, told, &config.copy(alloc)?)?;
            }
            Ok(())
        }
        Err(fault) => write!(told, "{fault}\n"),
    }
}

/// Appends the fields of a configuration.
fn push_fields(alloc: Global, told: &mut String, config: &Config) -> Result<(), AllocError> {
    write!(
        told,
        "conference {} limit {} connections {}\n",
        config.conference(),
        config.limit(),
        config.connections()
    )?;
    for user in config.users() {
        push_user(told, &user.copy(alloc)?)?;
    }
    for floor in config.floors() {
        push_floor(told, floor)?;
    }
    Ok(())
}

/// Appends the fields of a user.
fn push_user(told: &mut String, user: &User) -> Result<(), AllocError> {
    let proxy = if user.proxy { " proxy" } else { "" };
    write!(told, "user {}{proxy}", user.id)?;
    push_number(told, " port ", user.port)?;
    push_text(told, " name ", &user.name)?;
    push_text(told, " uri ", &user.uri)?;
    told.push('\n')
}

/// Appends the fields of a floor.
fn push_floor(told: &mut String, floor: &Floor) -> Result<(), AllocError> {
    write!(told, "floor {} room {}", floor.id, floor.room)?;
    push_number(told, " chair ", floor.chair)?;
    told.push('\n')
}

/// Appends a number behind a word, where there is one.
fn push_number(told: &mut String, word: &str, number: Option<u16>) -> Result<(), AllocError> {
    match number {
        None => Ok(()),
        Some(number) => write!(told, "{word}{number}"),
    }
}

/// Appends a text behind a word, where there is one.
fn push_text(told: &mut String, word: &str, text: &Option<Text>) -> Result<(), AllocError> {
    match text {
        None => Ok(()),
        Some(text) => write!(told, "{word}{}", text.as_str()),
    }
}

/// A text in which `* 255 words` stands for the words 255 times, with their place from 0 for `#`.
pub fn with_items(alloc: Global, text: &str) -> Result<String, AllocError> {
    let mut out = String::new(alloc);
    for line in text.lines() {
        match line
            .strip_prefix("* ")
            .and_then(|line| line.split_once(' '))
        {
            None => {
                out.push_str(line)?;
                out.push('\n')?;
            }
            Some((count, words)) => push_items(&mut out, read_u32(count).unwrap_or(0), words)?,
        }
    }
    Ok(out)
}

fn push_items(out: &mut String, count: u32, words: &str) -> Result<(), AllocError> {
    for place in 0..count {
        for (piece, part) in words.split('#').enumerate() {
            if piece != 0 {
                write!(out, "{place}")?;
            }
            out.push_str(part)?;
        }
        out.push('\n')?;
    }
    Ok(())
}

/// What `Config::build` makes of each line's values: the limit, the connections, the ids of the users,
/// the name, the URI and the port of the first of them, the room and the chair of floor 1, and the id of another floor.
pub fn built(alloc: Global, text: &str) -> Result<String, AllocError> {
    let mut told = String::new(alloc);
    for line in text.lines() {
        push_built(alloc, &mut told, line)?;
    }
    Ok(told)
}

fn push_built(alloc: Global, told: &mut String, line: &str) -> Result<(), AllocError> {
    let (users, floors) = (users_of(alloc, line)?, floors_of(alloc, line)?);
    let (limit, connections) = (number(part(line, 0)), number(part(line, 1)));
    match Config::build(alloc, 1, limit, connections, users, floors) {
        Ok(config) => push_fields(alloc, told, &config),
        Err(fault) => write!(told, "{fault}\n"),
    }
}

fn floors_of(alloc: Global, line: &str) -> Result<Floors, AllocError> {
    let first = Floor {
        id: 1,
        room: number(part(line, 6)),
        chair: read_u16(part(line, 7)),
    };
    let second = Floor {
        id: number(part(line, 8)),
        room: 1,
        chair: None,
    };
    Ok(Floors::from_vec(vec![in alloc; first, second]?))
}

/// The users of a line, the first of whom has a name, a URI and a port.
fn users_of(alloc: Global, line: &str) -> Result<Users, AllocError> {
    let mut users = Vec::new(alloc);
    for id in part(line, 2).split(' ') {
        let mut user = User {
            id: number(id),
            name: None,
            uri: None,
            proxy: false,
            port: None,
        };
        if users.is_empty() {
            user.name = Some(Text::from_string(String::from_str(alloc, part(line, 3))?));
            user.uri = Some(Text::from_string(String::from_str(alloc, part(line, 4))?));
            user.port = Some(number(part(line, 5)));
        }
        users.push(user)?;
    }
    Ok(Users::from_vec(users))
}

/// What stands between the bars of a line, at this place from 0.
fn part(line: &str, place: usize) -> &str {
    line.split('|').nth(place).unwrap_or("").trim()
}

/// The number that a word writes, or 0.
fn number(word: &str) -> u16 {
    read_u16(word).unwrap_or(0)
}

/// The fault of a text and the place that is told of it.
pub fn diagnosed(alloc: Global, text: &str) -> Result<String, AllocError> {
    let fault = fault_of(alloc, text);
    match diagnose(alloc, text)? {
        None => format!(in alloc; "{fault}\n"),
        Some(found) if found.fault.name() == fault => {
            format!(in alloc; "{fault}: {}\n", found.line.as_str())
        }
        Some(found) => format!(in alloc; "{fault}, and {} is told\n", found.fault),
    }
}

/// The name of the fault that a text is refused by.
fn fault_of(alloc: Global, text: &str) -> &'static str {
    match read_configs(alloc, text) {
        Ok(_) => "no fault",
        Err(fault) => fault.name(),
    }
}

/// The keys that say nothing, in the order of their lines.
pub fn keys(alloc: Global, text: &str) -> Result<String, AllocError> {
    let mut told = String::new(alloc);
    let mut keys = unknown_keys(alloc, text)?;
    keys.sort_by_key(|key| key.line)?;
    for key in keys {
        let line = key.line.unwrap_or(0);
        write!(told, "line {line}: {}\n", key.place.as_str())?;
    }
    Ok(told)
}
