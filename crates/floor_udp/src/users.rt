//! The users of a server's configuration who may come over UDP, and from where.
//!
//! ```toml
//! [[conference.user]]
//! id = 10
//! udp = "192.0.2.7:50000"
//! ```
//!
//! The file is the floor control server's own, which ignores `udp`. It is refused here for whatever the server
//! refuses it for.

use crate::fault::UdpFault;
use crate::origin::{Origin, read_origin};
use floor_config::{Config, ConfigFault, read_configs};
use floor_sessions::User;
use std::alloc::{AllocError, AllocFailed, Global};
use toml::{Table, Value};

/// How many connections a user has at least who comes over UDP: one, and another while it comes from another
/// port.
const LEAST_CONNECTIONS: u16 = 2;

/// Why a configuration has no users for the gateway.
#[derive(Debug, Drop)]
pub struct Refused {
    pub fault: UdpFault,
    /// What a person is told, without a line feed; nothing where memory was refused.
    pub line: String,
}

/// The users who may come over UDP, in the order of the file. Refused for the configuration's own fault, else
/// for the first user's whose `udp` is no address, or who may have one connection only.
pub fn read_users(alloc: Global, path: &str, text: &str) -> Result<Vec<User>, Refused> {
    let found = match toml::table_from_str(alloc, text) {
        Ok(table) => match read_configs(alloc, text) {
            Ok(configs) => users_of(alloc, configs.as_slice(), &table),
            Err(fault) => Err(Fault::Config(fault)),
        },
        Err(error) if error.is_memory() => Err(Fault::Config(ConfigFault::Memory)),
        Err(_) => Err(Fault::Config(ConfigFault::Syntax)),
    };
    match found {
        Ok(users) => Ok(users),
        Err(fault) => Err(refusal_of(alloc, path, text, fault)),
    }
}

/// The first fault of a configuration.
#[derive(Clone, Copy, Debug)]
enum Fault {
    Config(ConfigFault),
    BadAddress { conference: u32, user: u16 },
    OneConnection { conference: u32, user: u16 },
}

impl Fault {
    /// The fault that ends the gateway.
    fn named(self) -> UdpFault {
        match self {
            Fault::Config(ConfigFault::Memory) => UdpFault::Memory,
            Fault::Config(fault) => UdpFault::Config(fault),
            Fault::BadAddress { .. } => UdpFault::BadAddress,
            Fault::OneConnection { .. } => UdpFault::OneConnection,
        }
    }
}

impl From<AllocError> for Fault {
    fn from(_e: AllocError) -> Fault {
        Fault::Config(ConfigFault::Memory)
    }
}

impl<T: Drop> From<AllocFailed<T>> for Fault {
    fn from(_e: AllocFailed<T>) -> Fault {
        Fault::Config(ConfigFault::Memory)
    }
}

/// The users of these conferences, whose tables stand in the document.
fn users_of(alloc: Global, configs: &[Config], table: &Table) -> Result<Vec<User>, Fault> {
    let mut users = Vec::new(alloc);
    let tables = items_of(table.get("conference"));
    for (config, table) in configs.iter().zip(tables) {
        add_conference(&mut users, config, table)?;
    }
    Ok(users)
}

/// Adds the users of a conference who may come over UDP.
fn add_conference(users: &mut Vec<User>, config: &Config, table: &Value) -> Result<(), Fault> {
    let conference = config.conference();
    for (user, table) in config.users().iter().zip(items_of(table.get("user"))) {
        let user = user.id;
        if let Some(value) = table.get("udp") {
            let Some(origin) = origin_of(value) else {
                return Err(Fault::BadAddress { conference, user });
            };
            if config.connections() < LEAST_CONNECTIONS {
                return Err(Fault::OneConnection { conference, user });
            }
            users.push(origin.user(conference, user))?;
        }
    }
    Ok(())
}

/// What the value of `udp` says.
fn origin_of(value: &Value) -> Option<Origin> {
    match value.as_str() {
        Some(text) => read_origin(text),
        None => None,
    }
}

/// The fault, and what a person is told of it.
fn refusal_of(alloc: Global, path: &str, text: &str, fault: Fault) -> Refused {
    match line_of(alloc, path, text, fault) {
        Ok(line) => Refused {
            fault: fault.named(),
            line,
        },
        Err(AllocError) => Refused {
            fault: UdpFault::Memory,
            line: String::new(alloc),
        },
    }
}

/// What a person is told of a fault.
fn line_of(alloc: Global, path: &str, text: &str, fault: Fault) -> Result<String, AllocError> {
    match fault {
        Fault::Config(ConfigFault::Memory) => Ok(String::new(alloc)),
        Fault::Config(_) => format!(in alloc; "{path}: the floor control server refuses it, too"),
        Fault::BadAddress { conference, user } => match line_of_fault(alloc, text) {
            Some(line) => format!(in alloc;
                "{path}: line {line}: conference {conference}, user {user}: udp is no address, and no address and port"
            ),
            None => format!(in alloc;
                "{path}: conference {conference}, user {user}: udp is no address, and no address and port"
            ),
        },
        Fault::OneConnection { conference, user } => format!(in alloc;
            "{path}: conference {conference}, user {user}: who has udp needs connections of at least 2"
        ),
    }
}

/// The line, counted from 1, of the first `udp` that is no address: the reader of TOML keeps no places, so it is
/// the first line up to which the text has one. `None` where it isn't found, as in a table over several lines.
fn line_of_fault(alloc: Global, text: &str) -> Option<usize> {
    let mut end = 0usize;
    for (index, line) in text.split_inclusive('\n').enumerate() {
        end = end.saturating_add(line.len());
        if line.contains("udp") && is_faulty(alloc, text.get(..end).unwrap_or("")) {
            return Some(index.saturating_add(1));
        }
    }
    None
}

/// Whether a text has a `udp` that is no address.
fn is_faulty(alloc: Global, text: &str) -> bool {
    let Ok(table) = toml::table_from_str(alloc, text) else {
        return false;
    };
    items_of(table.get("conference"))
        .iter()
        .any(|conference| has_faulty_user(conference))
}

/// Whether a user of a conference has a `udp` that is no address.
fn has_faulty_user(conference: &Value) -> bool {
    items_of(conference.get("user"))
        .iter()
        .any(|user| is_faulty_user(user))
}

fn is_faulty_user(user: &Value) -> bool {
    match user.get("udp") {
        Some(value) => origin_of(value).is_none(),
        None => false,
    }
}

/// The items of an array; none where there is no array.
fn items_of(value: Option<&Value>) -> &[Value] {
    match value.and_then(Value::as_array) {
        Some(array) => array.as_slice(),
        None => &[],
    }
}
