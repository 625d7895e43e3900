//! The words that the program is started with.

use clap::{Arg, Command, Error};
use floor_words::{read_u16, read_u32};
use std::alloc::{AllocError, Global};
use std::convert::AsStr;

/// The version, and the logic that the program is proved with.
const VERSION: &str = "0.2.0 (logic dac8208d650f15bf)";

/// What the lines are, and what is printed, below the help of the words.
const LINES: &str = "\
Lines of standard input, each with an example:
  hello                                        what the server supports
      hello
  request <floor>.. [for <user>] [priority <0 to 4>] [info <text>]
                                               asks for floors
      request 1 2 for 11 priority 3 info my turn
  release <request>                            gives a floor request up
      release 1
  query <request>                              how a floor request stands
      query 1
  user [<user>]                                a user and its floor requests
      user 11
  watch [<floor>..]                            how floors stand, and what changes
      watch 1 2
  chair <request> <floor> <verdict> [reason <text>]
                                               accept, grant, deny or revoke, and why
      chair 1 2 grant
      chair 1 2 deny reason the agenda is full
  listen <count>                               prints so many further messages
      listen 3
  quit                                         ends
      quit

What is printed, a line for each message that is heard:
  reply <transaction> <message>                a response
  notice <message>                             what the server starts
  stray                                        what is another's
  bad                                          what can't be read
  error BadLine                                a line that asks for nothing

Error codes, as in reply 2 Error 5:
   1  Conference Does Not Exist
   2  User Does Not Exist
   3  Unknown Primitive
   4  Unknown Mandatory Attribute
   5  Unauthorized Operation
   6  Invalid Floor ID
   7  Floor Request ID Does Not Exist
   8  You have Already Reached the Maximum Number of Ongoing Floor Requests for This Floor
   9  Use TLS
  10  Unable to Parse Message
  11  Use DTLS
  12  Unsupported Version
  13  Incorrect Message Length
  14  Generic Error

Exit status:
  0  at the end of the lines
  1  after a fault, whose name is the last line of standard error
  2  where the words are refused";

/// Where to connect to, and as whom.
#[derive(Clone, Copy, Debug)]
pub struct Arguments<'a> {
    /// An address and a port.
    pub address: &'a str,
    /// The conference.
    pub conference: u32,
    /// The user.
    pub user: u16,
}

/// Why the words are refused.
#[derive(Debug, Drop)]
pub enum ArgumentFault {
    /// They aren't three words, or ask for help.
    Words(Error),
    /// The conference or the user is no number that fits.
    BadNumber,
}

impl From<Error> for ArgumentFault {
    fn from(error: Error) -> ArgumentFault {
        ArgumentFault::Words(error)
    }
}

impl From<AllocError> for ArgumentFault {
    fn from(error: AllocError) -> ArgumentFault {
        ArgumentFault::Words(Error::from(error))
    }
}

/// What the words say; the first of them is the program's own name.
pub fn parse_arguments<'a, S: AsStr>(
    alloc: Global,
    words: &'a [S],
) -> Result<Arguments<'a>, ArgumentFault> {
    let command = Command::new(alloc, "floorc")
        .about("A client of a floor control server")
        .version(VERSION)
        .after_help(LINES)
        .arg(required(
            alloc,
            "address",
            "Where the server listens, as 127.0.0.1:7010",
        ))?
        .arg(required(alloc, "conference", "The number of the conference, as 1"))?
        .arg(required(alloc, "user", "The number of the user, as 10"))?;
    let matches = command.try_get_matches_from(words)?;
    let address = matches.get_str("address").unwrap_or("");
    let conference = matches
        .get_str("conference")
        .and_then(|word| read_u32(word));
    let user = matches.get_str("user").and_then(|word| read_u16(word));
    match (conference, user) {
        (Some(conference), Some(user)) => Ok(Arguments {
            address,
            conference,
            user,
        }),
        _ => Err(ArgumentFault::BadNumber),
    }
}

/// A word that has to be there.
fn required<'a>(alloc: Global, id: &'a str, help: &'a str) -> Arg<'a> {
    Arg::new(alloc, id).required(true).help(help)
}
