//! The words that the program is called with.

use clap::builder::ValueParser;
use clap::error::ErrorKind;
use clap::{Arg, ArgAction, ArgMatches, Command, Error};
use std::alloc::Global;

/// The version, and the logic that the program is proved with.
const VERSION: &str = "0.2.0 (logic dac8208d650f15bf)";

/// How many connections there may be at once where no word says it: each may have two threads and two
/// descriptors.
const CONNECTIONS: u16 = 1_024;

/// What the words say.
#[derive(Debug, Drop)]
pub struct Words {
    /// Where to listen.
    pub address: String,
    /// The server's configuration.
    pub config: String,
    /// The page's folder.
    pub folder: String,
    /// The origins that are allowed by name.
    pub origins: Vec<String>,
    /// The server's door by id, where all are to come by it; else each comes by the user's own port.
    pub door: Option<u16>,
    /// The server's control socket, where it is followed.
    pub control: Option<String>,
    /// The server's socket that tells no word, where somebody may call by it.
    pub observe: Option<String>,
    /// The file that has the tokens of those who administer the server, where somebody may.
    pub roles: Option<String>,
    /// How many connections of pages there may be at once.
    pub connections: u16,
    /// The field of a request's head in which a proxy names the client's address.
    pub client_address: Option<String>,
    /// Whether each connection that joins, is refused or leaves is told.
    pub has_log: bool,
}

/// Why the words say nothing.
#[derive(Debug, Drop)]
pub enum WordsFault {
    /// The text of the help or of the version, which they ask for.
    Help(String),
    /// The text that says what is wrong.
    Refused(String),
    /// Memory was refused.
    Memory,
}

/// What the words say; the first of them is the program's own name.
pub fn parse_words(alloc: Global, words: &[String]) -> Result<Words, WordsFault> {
    match parsed(alloc, words) {
        Ok(words) => Ok(words),
        Err(error) => Err(fault_of(alloc, error)),
    }
}

fn parsed(alloc: Global, words: &[String]) -> Result<Words, Error> {
    let matches = command(alloc)?.try_get_matches_from(words)?;
    let mut origins = Vec::new(alloc);
    if let Some(listed) = matches.get_strs("origin") {
        for origin in listed {
            origins.push(String::from_str(alloc, *origin)?)?;
        }
    }
    Ok(Words {
        address: text(alloc, &matches, "address")?,
        config: text(alloc, &matches, "config")?,
        folder: text(alloc, &matches, "folder")?,
        origins,
        door: matches.get_one::<u16>("door-by-id"),
        control: optional_text(alloc, &matches, "control")?,
        observe: optional_text(alloc, &matches, "observe")?,
        roles: optional_text(alloc, &matches, "roles")?,
        client_address: optional_text(alloc, &matches, "client-address")?,
        connections: matches.get_one::<u16>("connections").unwrap_or(CONNECTIONS),
        has_log: matches.get_flag("log"),
    })
}

fn command<'a>(alloc: Global) -> Result<Command<'a>, Error> {
    let command = Command::new(alloc, "floorweb")
        .about("Lets browsers take part in the conferences of a floor control server (RFC 8857).")
        .version(VERSION)
        .arg(required(alloc, "address", "Where to listen, as 127.0.0.1:7080."))?
        .arg(required(
            alloc,
            "config",
            "The server's configuration (TOML); a user's token stands beside the port.",
        ))?
        .arg(required(alloc, "folder", "The folder of the page."))?
        .arg(
            Arg::new(alloc, "origin")
                .long("origin")
                .action(ArgAction::Append)
                .help("An origin whose pages may connect, as https://meet.example.com."),
        )?
        .arg(
            Arg::new(alloc, "door-by-id")
                .long("door-by-id")
                .value_name("port")
                .action(ArgAction::Set)
                .value_parser(ValueParser::unsigned(1, u64::from(u16::MAX)))
                .help(
                    "The server's door by id: all users come by it, and need no port of their own.",
                ),
        )?
        .arg(
            Arg::new(alloc, "control")
                .long("control")
                .value_name("path")
                .action(ArgAction::Set)
                .help(
                    "The server's control socket: who takes part, and in what, is what it tells.",
                ),
        )?
        .arg(
            Arg::new(alloc, "observe")
                .long("observe")
                .value_name("path")
                .action(ArgAction::Set)
                .help("The server's socket that tells no word, for the roles observe and operate."),
        )?
        .arg(
            Arg::new(alloc, "roles")
                .long("roles")
                .value_name("file")
                .action(ArgAction::Set)
                .help(
                    "A file with a line ROLE TOKEN for each who may call at /rpc: observe, operate or bridge.",
                ),
        )?
        .arg(
            Arg::new(alloc, "connections")
                .long("connections")
                .value_name("count")
                .action(ArgAction::Set)
                .value_parser(ValueParser::unsigned(1, u64::from(u16::MAX)))
                .help("How many connections of pages there may be at once, if not 1024."),
        )?
        .arg(
            Arg::new(alloc, "client-address")
                .long("client-address")
                .value_name("field")
                .action(ArgAction::Set)
                .help(
                    "The field of a request in which a proxy names its client's address, as X-Real-IP.",
                ),
        )?
        .arg(
            Arg::new(alloc, "log")
                .long("log")
                .action(ArgAction::SetTrue)
                .help("Tells on standard error who joins, is refused and leaves."),
        )?;
    Ok(command)
}

/// A word that has to be there.
fn required<'a>(alloc: Global, id: &'a str, help: &'a str) -> Arg<'a> {
    Arg::new(alloc, id).required(true).help(help)
}

fn text(alloc: Global, matches: &ArgMatches<'_>, id: &str) -> Result<String, Error> {
    Ok(String::from_str(alloc, matches.get_str(id).unwrap_or(""))?)
}

fn optional_text(
    alloc: Global,
    matches: &ArgMatches<'_>,
    id: &str,
) -> Result<Option<String>, Error> {
    match matches.get_str(id) {
        Some(text) => Ok(Some(String::from_str(alloc, text)?)),
        None => Ok(None),
    }
}

fn fault_of(alloc: Global, error: Error) -> WordsFault {
    let kind = error.kind();
    let Ok(text) = error.to_string(alloc) else {
        return WordsFault::Memory;
    };
    match kind {
        ErrorKind::DisplayHelp | ErrorKind::DisplayVersion => WordsFault::Help(text),
        ErrorKind::OutOfMemory => WordsFault::Memory,
        _ => WordsFault::Refused(text),
    }
}
