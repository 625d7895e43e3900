//! The words that the program is called with.

use clap::builder::ValueParser;
use clap::error::ErrorKind;
use clap::{Arg, ArgAction, ArgMatches, Command, Error};
use std::alloc::Global;

/// The version, and the logic that the program is proved with.
const VERSION: &str = "0.2.0 (logic dac8208d650f15bf)";

/// How many bytes a datagram that is sent has at least and at most, and where no word says it: what a network
/// of IPv4 takes whole at least, what libre takes at most, and what leaves room for headers and a tunnel's.
const MIN_DATAGRAM: u16 = 576;

const MAX_DATAGRAM: u16 = 8_192;

const DATAGRAM: u16 = 1_200;

/// After how many seconds of silence a peer that holds something is asked, at least and at most, and where no
/// word says it.
const MIN_PROBE: u16 = 5;

const MAX_PROBE: u16 = 3_600;

const PROBE: u16 = 10;

/// What the words say.
#[derive(Debug, Drop)]
pub struct Words {
    /// Where to listen.
    pub address: String,
    /// The server's configuration.
    pub config: String,
    /// The server's door by id.
    pub door: u16,
    /// The server's control socket, where it is followed.
    pub control: Option<String>,
    /// How many bytes a datagram has at most that is sent.
    pub datagram: u16,
    /// After how many seconds of silence a peer that holds something is asked.
    pub probe: u16,
    /// Whether the words and the configuration are checked, and nothing is served.
    pub is_check: bool,
    /// Whether each session that begins or ends is told.
    pub has_log: bool,
}

/// Why the words say nothing.
#[derive(Debug, Drop)]
pub enum WordsFault {
    /// The text of the help or of the version, which they ask for.
    Help(String),
    /// The text that says what is wrong.
    Refused(String),
    /// Memory was refused.
    Memory,
}

/// What the words say; the first of them is the program's own name.
pub fn parse_words(alloc: Global, words: &[String]) -> Result<Words, WordsFault> {
    match parsed(alloc, words) {
        Ok(words) => Ok(words),
        Err(error) => Err(fault_of(alloc, error)),
    }
}

fn parsed(alloc: Global, words: &[String]) -> Result<Words, Error> {
    let matches = command(alloc)?.try_get_matches_from(words)?;
    Ok(Words {
        address: text(alloc, &matches, "address")?,
        config: text(alloc, &matches, "config")?,
        door: matches.get_one::<u16>("door-by-id").unwrap_or(0),
        control: optional_text(alloc, &matches, "control")?,
        datagram: matches.get_one::<u16>("datagram").unwrap_or(DATAGRAM),
        probe: matches.get_one::<u16>("probe").unwrap_or(PROBE),
        is_check: matches.get_flag("check"),
        has_log: matches.get_flag("log"),
    })
}

fn command<'a>(alloc: Global) -> Result<Command<'a>, Error> {
    let command = Command::new(alloc, "floorudp")
        .about(
            "Lets room systems take part in the conferences of a floor control server over UDP (RFC 8855, version 2).",
        )
        .version(VERSION)
        .arg(required(
            alloc,
            "address",
            "Where to listen, as 192.0.2.1:5070 or [2001:db8::1]:5070.",
        ))?
        .arg(required(
            alloc,
            "config",
            "The server's configuration (TOML); from where a user may come stands there as udp.",
        ))?
        .arg(
            Arg::new(alloc, "door-by-id")
                .long("door-by-id")
                .value_name("port")
                .required(true)
                .action(ArgAction::Set)
                .value_parser(ValueParser::unsigned(1, u64::from(u16::MAX)))
                .help("The server's door by id, by which all users come."),
        )?
        .arg(
            Arg::new(alloc, "control")
                .long("control")
                .value_name("path")
                .action(ArgAction::Set)
                .help(
                    "The server's control socket: a word udp.<user> of a conference says from where a user may come.",
                ),
        )?
        .arg(number(
            alloc,
            "datagram",
            "bytes",
            (MIN_DATAGRAM, MAX_DATAGRAM),
            "How long a datagram is at most that is sent, if not 1200.",
        ))?
        .arg(number(
            alloc,
            "probe",
            "seconds",
            (MIN_PROBE, MAX_PROBE),
            "After how much silence a peer that holds something is asked, if not 10.",
        ))?
        .arg(flag(
            alloc,
            "check",
            "Checks the words and the configuration, and serves nothing.",
        ))?
        .arg(flag(
            alloc,
            "log",
            "Tells on standard error who joins and leaves.",
        ))?;
    Ok(command)
}

/// A word that has to be there.
fn required<'a>(alloc: Global, id: &'a str, help: &'a str) -> Arg<'a> {
    Arg::new(alloc, id).required(true).help(help)
}

/// A word that is there or isn't.
fn flag<'a>(alloc: Global, id: &'a str, help: &'a str) -> Arg<'a> {
    Arg::new(alloc, id)
        .long(id)
        .action(ArgAction::SetTrue)
        .help(help)
}

/// A word with a number between two others.
fn number<'a>(
    alloc: Global,
    id: &'a str,
    unit: &'a str,
    range: (u16, u16),
    help: &'a str,
) -> Arg<'a> {
    let (least, most) = range;
    Arg::new(alloc, id)
        .long(id)
        .value_name(unit)
        .action(ArgAction::Set)
        .value_parser(ValueParser::unsigned(u64::from(least), u64::from(most)))
        .help(help)
}

fn text(alloc: Global, matches: &ArgMatches<'_>, id: &str) -> Result<String, Error> {
    Ok(String::from_str(alloc, matches.get_str(id).unwrap_or(""))?)
}

fn optional_text(
    alloc: Global,
    matches: &ArgMatches<'_>,
    id: &str,
) -> Result<Option<String>, Error> {
    match matches.get_str(id) {
        Some(text) => Ok(Some(String::from_str(alloc, text)?)),
        None => Ok(None),
    }
}

fn fault_of(alloc: Global, error: Error) -> WordsFault {
    let kind = error.kind();
    let Ok(text) = error.to_string(alloc) else {
        return WordsFault::Memory;
    };
    match kind {
        ErrorKind::DisplayHelp | ErrorKind::DisplayVersion => WordsFault::Help(text),
        ErrorKind::OutOfMemory => WordsFault::Memory,
        _ => WordsFault::Refused(text),
    }
}
