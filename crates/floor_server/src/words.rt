//! The words that a program is called with.

ghost use Rattle.std.specs.Prelude.{◌≡◌};
ghost use Rattle.floor_server.specs.Keeping.{syncing_of};

use crate::entry::{Door, Entrance};
use clap::builder::ValueParser;
use clap::error::ErrorKind;
use clap::{Arg, ArgAction, ArgMatches, Command, Error};
use floor_keep::{Keeping, Syncing};
use std::alloc::{AllocError, Global};

/// The version, and the logic that the programs are proved with.
pub const VERSION: &str = "0.2.0 (logic dac8208d650f15bf)";

/// What the administrator's lines are, below the help of the words.
const LINES: &str = "\
Lines of standard input, each with its answer:
  open <path>                                  opens the conferences of a file
      ok opened <count>
  close <conference>                           closes a conference
      ok closed <conference>
  revoke <conference> <request>                revokes a floor request
      ok revoked <conference> <request>
  user <conference> <id> [proxy] [port <port>] [name <text to the end>]
                                               adds a user
      ok user <conference> <id>
  floor <conference> <id> [room <room>] [chair <user>]
                                               adds a floor
      ok floor <conference> <id>
  chair <conference> <floor> [<user>]          gives a floor this chair, or none
      ok chair <conference> <floor>
  status <conference>                          tells how a conference stands
      conference <id> members <m> ongoing <k> events <e> <open, ended or broken>
  journal <conference>                         tells what happened, a line for each event
      end <events>
  stop                                         stops all, as the end of the input does
      ok stopped seats <s> events <e>
A line that is refused is answered by error and the name of the refusal.

Exit status:
  0  after a stop where all was in order, or where a check finds no fault
  1  after a fault, whose name is the last line of standard error
  2  where the words are refused";

/// How many event loops a program has at most: more than machines have processors for them.
pub const MAX_LOOPS: u8 = 64;

/// How many bytes a message has at least: those of its header (RFC 8855, section 5.1).
const MIN_LONGEST: u32 = 12;

/// How many bytes a message has at most: those of its header, and 65,535 times 4.
pub const MAX_LONGEST: u32 = 262_152;

/// How many seconds a member outlives its connection at most: whoever comes back later has been given up.
pub const MAX_GRACE: u64 = 600;

/// Whom the grace is for, where that is said.
const GRACE_FOR: &[&str] = &["all"];

/// Who may open a socket's file, as its mode in octal digits: its owner, its group too, or everybody.
const MODES: &[&str] = &["600", "660", "666"];

/// When the disk is asked for what was written.
const SYNC_NAMES: &[&str] = &["second", "turn", "never"];

/// A program whose words are read.
#[derive(Clone, Copy, Debug)]
pub struct Program {
    /// Its name.
    pub name: &'static str,
    /// What it does, a sentence of its help.
    pub about: &'static str,
    /// Whether it serves by event loops, so that `--loops`, `--longest`, `--door`, `--door-by-id`, `--health`,
    /// `--control`, `--grace`, `--keep` and what goes with these are of its words, and goes by `conference.connections`.
    pub by_loops: bool,
    /// Whether control clients ask it by JSON-RPC, so that `--control-mode`, `--observe`, `--observe-mode` and `--http`
    /// are of its words.
    pub by_json: bool,
}

/// What the program is to do with a configuration.
#[derive(Clone, Copy, Debug, PartialEq, Eq)]
pub enum Task {
    /// To serve it.
    Serve,
    /// To say what is wrong with it.
    Check,
}

/// What the words say.
#[derive(Debug, Drop)]
pub struct Words {
    pub task: Task,
    /// The path of the configuration's file.
    pub path: String,
    /// Whether a log is asked for.
    pub has_log: bool,
    /// How many event loops are asked for, 1 to 64; `None` where nothing is said of them, or the program has
    /// no such word.
    pub loops: Option<u8>,
    /// How many bytes a message may have, 12 to 262,152; 262,152 where nothing is said of that, or the program has no
    /// such word.
    pub longest: u32,
    /// The doors that are asked for.
    pub doors: Vec<Door>,
    /// The path of the control socket, where one is asked for.
    pub control: Option<String>,
    /// Who may open its file, as the system's mode: its owner alone where nothing is said of that.
    pub control_mode: u32,
    /// The path of the socket of those that read alone, where one is asked for.
    pub observe: Option<String>,
    /// Who may open its file.
    pub observe_mode: u32,
    /// The port at which is answered by HTTP, where one is asked for.
    pub http: Option<u16>,
    /// How many seconds a member outlives its connection, 0 to 600; 0 where nothing is said of them, or the
    /// program has no such word.
    pub grace: u64,
    /// Whether also a member does whose connection ended in order.
    pub grace_for_all: bool,
    /// How conferences are kept, where they are.
    pub keep: Option<Keeping>,
}

/// Why the words ask for nothing.
#[derive(Debug, Drop)]
pub enum WordsFault {
    /// The text of the help or of the version, which they ask for.
    Help(String),
    /// The text that says what is wrong.
    Refused(String),
    /// Memory was refused.
    Memory,
}

/// What the words of a program say; the first of them is its own name.
pub fn read_words(alloc: Global, words: &[String], program: &Program) -> Result<Words, WordsFault> {
    match parsed(alloc, words, program) {
        Ok(found) => Ok(found),
        Err(error) => Err(fault_of(alloc, error)),
    }
}

fn parsed(alloc: Global, words: &[String], program: &Program) -> Result<Words, Error> {
    let matches = command(alloc, program)?.try_get_matches_from(words)?;
    let path = matches.get_str("config").unwrap_or("");
    Ok(Words {
        task: task_of(matches.get_flag("check")),
        path: String::from_str(alloc, path)?,
        has_log: matches.get_flag("log"),
        loops: matches.get_one::<u8>("loops"),
        longest: matches.get_one::<u32>("longest").unwrap_or(MAX_LONGEST),
        doors: doors_of(alloc, &matches)?,
        control: path_of(alloc, &matches, "control")?,
        control_mode: mode_of(&matches, "control-mode"),
        observe: path_of(alloc, &matches, "observe")?,
        observe_mode: mode_of(&matches, "observe-mode"),
        http: matches.get_one::<u16>("http"),
        grace: matches.get_one::<u64>("grace").unwrap_or(0),
        grace_for_all: matches.get_str("grace-for").is_some(),
        keep: keeping_of(alloc, &matches)?,
    })
}

/// The path behind a word that asks for a socket.
fn path_of(alloc: Global, matches: &ArgMatches, name: &str) -> Result<Option<String>, AllocError> {
    match matches.get_str(name) {
        Some(path) => Ok(Some(String::from_str(alloc, path)?)),
        None => Ok(None),
    }
}

/// The mode of a socket's file, by its word.
fn mode_of(matches: &ArgMatches, name: &str) -> u32 {
    match matches.get_str(name) {
        Some("660") => 0o660,
        Some("666") => 0o666,
        _ => 0o600,
    }
}

/// How conferences are to be kept, where the words ask for that.
fn keeping_of(alloc: Global, matches: &ArgMatches) -> Result<Option<Keeping>, AllocError> {
    let Some(folder) = matches.get_str("keep") else {
        return Ok(None);
    };
    Ok(Some(Keeping {
        folder: String::from_str(alloc, folder)?,
        or_stop: matches.get_flag("keep-or-stop"),
        syncing: match matches.get_str("sync") {
            Some(word) => syncing_of(word),
            None => Syncing::Second,
        },
        epoch: matches.get_one::<u64>("epoch"),
    }))
}

/// When the disk is asked, by its word.
fn syncing_of(word: &str) -> Syncing
    ensures value { result ≡ syncing_of word.now }
{
    match word {
        "turn" => Syncing::Turn,
        "never" => Syncing::Never,
        _ => Syncing::Second,
    }
}

/// The doors that the words ask for.
fn doors_of(alloc: Global, matches: &ArgMatches) -> Result<Vec<Door>, AllocError> {
    let mut doors = Vec::with_capacity(alloc, 3)?;
    for (name, entry) in [
        ("door", Entrance::ByCertificate),
        ("door-by-id", Entrance::ById),
        ("health", Entrance::Health),
    ] {
        if let Some(port) = matches.get_one::<u16>(name) {
            doors.push(Door { entry, port })?;
        }
    }
    Ok(doors)
}

/// The words that a program has.
fn command<'a>(alloc: Global, program: &Program) -> Result<Command<'a>, Error> {
    let config = Arg::new(alloc, "config")
        .required(true)
        .action(ArgAction::Set)
        .help("The file with the configuration of the conferences (TOML).");
    let check = Arg::new(alloc, "check")
        .long("check")
        .action(ArgAction::SetTrue)
        .help("Says what is wrong with the configuration and its ports, and ends");
    let log = Arg::new(alloc, "log")
        .long("log")
        .action(ArgAction::SetTrue)
        .help("Tells standard error what becomes of connections, conferences and ports");
    let command = Command::new(alloc, program.name)
        .about(program.about)
        .version(VERSION)
        .after_help(LINES)
        .arg(check)?
        .arg(log)?;
    let command = if program.by_loops {
        let command = command.arg(loops(alloc))?.arg(longest(alloc))?;
        let command = with_doors(alloc, command)?;
        let command = if program.by_json {
            with_modes(alloc, command)?
        } else {
            command
        };
        with_keeping(alloc, with_grace(alloc, command)?)?
    } else {
        command
    };
    Ok(command.arg(config)?)
}

/// The words of a program that has doors.
fn with_doors<'a>(alloc: Global, command: Command<'a>) -> Result<Command<'a>, Error> {
    let by_certificate = port(alloc, "door").help(
        "A port for all users: a proxy says in front of the first message whose certificate it has checked",
    );
    let by_id = port(alloc, "door-by-id").help(
        "A port for all users: a proxy or a gateway says in front of the first message who it is by a unique-id",
    );
    let health = port(alloc, "health").help(
        "A port at which whoever connects is let go at once: it says that the server lives",
    );
    let command = command.arg(by_certificate)?.arg(by_id)?.arg(health)?;
    Ok(command.arg(control(alloc))?)
}

/// The words of a program that control clients ask by JSON-RPC.
fn with_modes<'a>(alloc: Global, command: Command<'a>) -> Result<Command<'a>, Error> {
    let http = port(alloc, "http").help(
        "A port at which is answered by HTTP: /healthz, /readyz, and /metrics for Prometheus",
    );
    let observe = Arg::new(alloc, "observe")
        .long("observe")
        .value_name("path")
        .action(ArgAction::Set)
        .help("A Unix socket at which programs look at all and change nothing");
    Ok(
        command
            .arg(mode(alloc, "control-mode", "control")?)?
            .arg(observe)?
            .arg(mode(alloc, "observe-mode", "observe")?)?
            .arg(http)?,
    )
}

/// Who may open the file of a socket.
fn mode<'a>(alloc: Global, name: &'a str, of: &'a str) -> Result<Arg<'a>, Error> {
    Ok(
        Arg::new(alloc, name)
            .long(name)
            .value_name("mode")
            .action(ArgAction::Set)
            .value_parser(MODES)
            .requires_arg(of)?
            .help(
                "Who may connect there: its owner (600), its group too (660), or everybody (666); else its owner",
            ),
    )
}

/// The words of a program whose members outlive their connections.
fn with_grace<'a>(alloc: Global, command: Command<'a>) -> Result<Command<'a>, Error> {
    let grace = Arg::new(alloc, "grace")
        .long("grace")
        .value_name("seconds")
        .action(ArgAction::Set)
        .value_parser(ValueParser::unsigned(0, MAX_GRACE))
        .help(
            "How long a member whose connection is lost stays for its user to come back, 0 to 600; else it leaves at once",
        );
    let grace_for = Arg::new(alloc, "grace-for")
        .long("grace-for")
        .value_name("whom")
        .action(ArgAction::Set)
        .value_parser(GRACE_FOR)
        .requires_arg("grace")?
        .help(
            "Has a member stay also whose connection ends in order, as a proxy ends what it has lost",
        );
    Ok(command.arg(grace)?.arg(grace_for)?)
}

/// The words of a program that keeps its conferences.
fn with_keeping<'a>(alloc: Global, command: Command<'a>) -> Result<Command<'a>, Error> {
    let keep = Arg::new(alloc, "keep")
        .long("keep")
        .value_name("folder")
        .action(ArgAction::Set)
        .help(
            "A folder in which each conference has a file, from which it goes on at the next start",
        );
    let or_stop = Arg::new(alloc, "keep-or-stop")
        .long("keep-or-stop")
        .action(ArgAction::SetTrue)
        .requires_arg("keep")?
        .help("Breaks a conference off whose file can't be written; else it goes on unkept");
    let sync = Arg::new(alloc, "sync")
        .long("sync")
        .value_name("when")
        .action(ArgAction::Set)
        .value_parser(SYNC_NAMES)
        .requires_arg("keep")?
        .help(
            "When the disk is asked for what was written: once a second, in each turn, or never; else once a second",
        );
    let epoch = Arg::new(alloc, "epoch")
        .long("epoch")
        .value_name("n")
        .action(ArgAction::Set)
        .value_parser(ValueParser::unsigned(0, u64::MAX))
        .requires_arg("keep")?
        .help("The epoch that the folder has to have; else the one that it has at the start");
    Ok(command.arg(keep)?.arg(or_stop)?.arg(sync)?.arg(epoch)?)
}

/// The control socket.
fn control<'a>(alloc: Global) -> Arg<'a> {
    Arg::new(alloc, "control")
        .long("control")
        .value_name("path")
        .action(ArgAction::Set)
        .help(
            "A Unix socket at which programs administer, for its owner alone; the end of standard input stops nothing then",
        )
}

/// A port.
fn port<'a>(alloc: Global, name: &'a str) -> Arg<'a> {
    Arg::new(alloc, name)
        .long(name)
        .value_name("port")
        .action(ArgAction::Set)
        .value_parser(ValueParser::unsigned(1, u64::from(u16::MAX)))
}

/// How many loops there are.
fn loops<'a>(alloc: Global) -> Arg<'a> {
    Arg::new(alloc, "loops")
        .long("loops")
        .value_name("n")
        .action(ArgAction::Set)
        .value_parser(ValueParser::unsigned(1, u64::from(MAX_LOOPS)))
        .help("How many event loops serve, 1 to 64; else one for each processor, at most 4")
}

/// How long a message may be.
fn longest<'a>(alloc: Global) -> Arg<'a> {
    Arg::new(alloc, "longest")
        .long("longest")
        .value_name("bytes")
        .action(ArgAction::Set)
        .value_parser(ValueParser::unsigned(u64::from(MIN_LONGEST), u64::from(MAX_LONGEST)))
        .help(
            "How many bytes a message may have, 12 to 262152; a longer one ends its connection; else all that the protocol has",
        )
}

/// The task of a run that is a check, or isn't.
fn task_of(is_check: bool) -> Task {
    if is_check { Task::Check } else { Task::Serve }
}

fn fault_of(alloc: Global, error: Error) -> WordsFault {
    let kind = error.kind();
    let Ok(text) = error.to_string(alloc) else {
        return WordsFault::Memory;
    };
    match kind {
        ErrorKind::DisplayHelp | ErrorKind::DisplayVersion => WordsFault::Help(text),
        ErrorKind::OutOfMemory => WordsFault::Memory,
        _ => WordsFault::Refused(text),
    }
}
