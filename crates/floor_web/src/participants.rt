//! The users of a server's configuration who may take part by a browser: each has a token, and
//! whoever has the token is that user.
//!
//! ```toml
//! [[conference.user]]
//! id = 10
//! port = 7010
//! token = "Vn3p0DJm6Qb1xYyZk2aW8g"
//! ```
//!
//! The file is the floor control server's own, which ignores `token`, and `title` of a floor and of
//! a conference. It is refused here for whatever the server refuses it for.

ghost use Rattle.std.specs.Prelude.{◌≡◌, ◌<◌, ◌==◌, [], All, IfOk, Ok, bytes_eq, find, is_none, length, option_and_then, option_map, string_bytes};
ghost use Rattle.std.specs.List.{list_any};
ghost use Rattle.std.specs.Option.{option_copied};
ghost use Rattle.floor_web.specs.Participants as spec;
ghost use Rattle.floor_web.specs.Participants.{bearer, bearers};
ghost use Rattle.floor_web.specs.steps.Reading.{Adds, strong};
ghost use Rattle.floor_web.specs.declared.participants.ParticipantsFault.TheVariants.{Memory};
ghost use Rattle.toml.specs.Data.{as_str, get_member};
ghost use Rattle.toml.specs.View.{items_view, table_view, view};

use crate::meeting::meeting_text;
use floor_config::{Config, ConfigFault, User, read_configs};
use std::alloc::{AllocError, AllocFailed, Global};
use std::marker::Model;
use toml::{Table, Value};

/// The shortest token that is taken: 22 characters of base64url hold 128 bits.
const MIN_TOKEN_LEN: usize = 22;

/// A user who has a token.
#[derive(Debug, Drop)]
pub struct Participant {
    /// What proves who it is.
    pub token: String,
    /// The conference of the user.
    pub conference: u32,
    /// The User ID.
    pub user: u16,
    /// The user's port of the floor control server, where the user has one.
    pub port: Option<u16>,
    /// What the user's page is told of the meeting, as JSON.
    pub meeting: String,
}

/// Why no participants are read. The first that applies is told: the configuration's own fault; then
/// the first user's whose token is weak; then a token that stands twice.
#[derive(Clone, Copy, Debug, PartialEq, Eq)]
pub enum ParticipantsFault {
    /// The server refuses the configuration.
    Config(ConfigFault),
    /// The token of this user is no text, shorter than 22 characters, or has others than letters,
    /// digits, `-` and `_`.
    WeakToken { conference: u32, user: u16 },
    /// A user behind this one has the same token.
    DoubleToken { conference: u32, user: u16 },
    /// No user has a token.
    NoToken,
    /// Memory was refused.
    Memory,
}

impl ParticipantsFault {
    /// Its name.
    pub fn name(self) -> &'static str
        ensures value { result.now ≡ spec.name_of self }
    {
        match self {
            ParticipantsFault::Config(fault) => fault.name(),
            ParticipantsFault::WeakToken { .. } => "WeakToken",
            ParticipantsFault::DoubleToken { .. } => "DoubleToken",
            ParticipantsFault::NoToken => "NoToken",
            ParticipantsFault::Memory => "Memory",
        }
    }
}

impl From<AllocError> for ParticipantsFault {
    ghost from_gives = { λ _ e. e ≡ Memory };

    fn from(_e: AllocError) -> ParticipantsFault {
        ParticipantsFault::Memory
    }
}

impl<T: Drop> From<AllocFailed<T>> for ParticipantsFault {
    ghost from_gives = { λ _ e. e ≡ Memory };

    fn from(_e: AllocFailed<T>) -> ParticipantsFault {
        ParticipantsFault::Memory
    }
}

/// The users who have a token, in the order of the file. Each has another one.
#[derive(Debug, Drop)]
pub struct Participants {
    participants: Vec<Participant>,
}

impl Model for Participants {
    ghost use Rattle.std.specs.Prelude.{List};
    ghost use Rattle.floor_web.specs.declared.participants.Participant.{Participant};

    ghost Value = { List Participant };

    ghost view = { λ p. p.participants.items };
}

impl Participants {
    /// Nobody. Takes no memory.
    pub fn none(alloc: Global) -> Participants
        ensures value { result ≡ [] }
    {
        Participants {
            participants: Vec::new(alloc),
        }
    }

    /// Whom a token stands for.
    pub fn find(&self, token: &[u8]) -> Option<&Participant>
        ensures found { option_copied result
            ≡ find (λ p. bytes_eq (string_bytes p.token) token.now) self.now }
    {
        self.participants
            .iter()
            .find(|participant| participant.token.as_bytes() == token)
    }

    /// The first who has no port.
    pub fn first_without_port(&self) -> Option<&Participant>
        ensures found { option_copied result ≡ find (λ p. is_none p.port) self.now }
    {
        self.participants
            .iter()
            .find(|participant| participant.port.is_none())
    }

    /// How many there are.
    pub fn len(&self) -> usize
        ensures value { result ≡ length self.now }
    {
        self.participants.len()
    }

    /// Whether there is none.
    pub fn is_empty(&self) -> bool
        ensures value { result ≡ (length self.now == 0) }
    {
        self.participants.is_empty()
    }
}

/// The users of a configuration who have a token. Else `Config` with the configuration's own fault;
/// `WeakToken` of the first such user; `DoubleToken`; `NoToken` where none has one.
#[tactic(auto, unfolding(crate::specs::Participants::reading))]
pub fn read_participants(alloc: Global, text: &str) -> Result<Participants, ParticipantsFault>
    ensures value { spec.Gives result (spec.reading text.now) }

    ensures some { IfOk result (λ found. 0 < length found) }
    ensures users { IfOk result (λ found. All (spec.IsUserOf text.now) (bearers found)) }
    ensures strong { IfOk result (λ found. All spec.HasStrongToken (bearers found)) }
    ensures differ { IfOk result (λ found. spec.AllDiffer (bearers found)) }
{
    let table = match toml::table_from_str(alloc, text) {
        Ok(table) => table,
        Err(error) if error.is_memory() => return Err(ParticipantsFault::Memory),
        Err(_) => return Err(ParticipantsFault::Config(ConfigFault::Syntax)),
    };
    let configs = match read_configs(alloc, text) {
        Ok(configs) => configs,
        Err(ConfigFault::Memory) => return Err(ParticipantsFault::Memory),
        Err(fault) => return Err(ParticipantsFault::Config(fault)),
    };
    let mut participants = Vec::new(alloc);
    let tables = items_of(value_at(&table, "conference"));
    add_conferences(alloc, &mut participants, configs.as_slice(), tables)?;
    differing(participants)
}

/// Adds the users of these conferences who have a token.
fn add_conferences(
    alloc: Global,
    participants: &mut Vec<Participant>,
    configs: &[Config],
    tables: &[Value],
) -> Result<(), ParticipantsFault>
    ensures value { Adds participants.old.items participants.new.items result
        (spec.each spec.of_conference configs.now (items_view tables.now)) }
{
    let mut rest = configs;
    for table in tables {
        match rest.split_first() {
            None => return Ok(()),
            Some((config, others)) => {
                add_conference(alloc, participants, config, table)?;
                rest = others;
            }
        }
    }
    Ok(())
}

/// Adds the users of a conference who have a token.
fn add_conference(
    alloc: Global,
    participants: &mut Vec<Participant>,
    config: &Config,
    conference: &Value,
) -> Result<(), ParticipantsFault>
    ensures value { Adds participants.old.items participants.new.items result
        (spec.of_conference config.now (view conference.now)) }
{
    let tables = items_of(conference.get("user"));
    let mut rest = config.users();
    for table in tables {
        match rest.split_first() {
            None => return Ok(()),
            Some((user, others)) => {
                add_user(alloc, participants, config, user, conference, table)?;
                rest = others;
            }
        }
    }
    Ok(())
}

/// Adds a user who has a token.
fn add_user(
    alloc: Global,
    participants: &mut Vec<Participant>,
    config: &Config,
    user: &User,
    conference: &Value,
    table: &Value,
) -> Result<(), ParticipantsFault>
    ensures value { Adds participants.old.items participants.new.items result
        (spec.of_user config.now.conference user.now (view table.now)) }
{
    let Some(token) = table.get("token") else {
        return Ok(());
    };
    let number = config.conference();
    let Some(token) = strong_token(token) else {
        return Err(ParticipantsFault::WeakToken {
            conference: number,
            user: user.id,
        });
    };
    let floors = items_of(conference.get("floor"));
    let meeting = meeting_text(alloc, config, user, conference, floors)?;
    participants.push(Participant {
        token: String::from_str(alloc, token)?,
        conference: number,
        user: user.id,
        port: user.port,
        meeting,
    })?;
    Ok(())
}

/// The text of a value that is a strong token.
fn strong_token(value: &Value) -> Option<&str>
    ensures value { option_copied result
        ≡ option_and_then strong (as_str (view value.now)) }
{
    match value.as_str() {
        Some(token) if is_strong_token(token.as_bytes()) => Some(token),
        _ => None,
    }
}

/// Whether a token can't be guessed, as far as its form tells: it has 22 letters, digits, `-` and `_` at least,
/// and nothing else.
pub fn is_strong_token(token: &[u8]) -> bool
    ensures value { result ≡ spec.is_strong token.now }
{
    token.len() >= MIN_TOKEN_LEN && has_token_bytes_alone(token)
}

fn has_token_bytes_alone(token: &[u8]) -> bool
    ensures value { result ≡ spec.has_token_bytes_alone token.now }
{
    token
        .iter()
        .all(|b| b.is_ascii_alphanumeric() || *b == b'-' || *b == b'_')
}

/// The participants, unless there is none or two have one token.
fn differing(participants: Vec<Participant>) -> Result<Participants, ParticipantsFault>
    ensures value { spec.Gives result (spec.checked (Ok (bearers participants.items))) }
{
    match first_double(participants.as_slice()) {
        Some(first) => Err(ParticipantsFault::DoubleToken {
            conference: first.conference,
            user: first.user,
        }),
        None if participants.is_empty() => Err(ParticipantsFault::NoToken),
        None => Ok(Participants { participants }),
    }
}

/// The first whose token another has behind it.
fn first_double(participants: &[Participant]) -> Option<&Participant>
    ensures found { option_map (λ p. bearer p.now) result
        ≡ spec.first_double (bearers participants.now) }
{
    let mut rest = participants;
    while let Some((first, others)) = rest.split_first() {
        if is_taken(others, first.token.as_bytes()) {
            return Some(first);
        }
        rest = others;
    }
    None
}

/// Whether one of them has the token.
fn is_taken(participants: &[Participant], token: &[u8]) -> bool
    ensures value { result
        ≡ list_any (λ p. bytes_eq (string_bytes p.token) token.now) participants.now }
{
    participants
        .iter()
        .any(|participant| participant.token.as_bytes() == token)
}

/// The value at a key of a table.
fn value_at<'a>(table: &'a Table, key: &str) -> Option<&'a Value>
    ensures found { option_map (λ v. view v.now) result
        ≡ get_member key.now (table_view table.now) }
{
    table.get(key)
}

/// The items of an array; none where there is no array.
fn items_of(value: Option<&Value>) -> &[Value]
    ensures value { items_view result.now
        ≡ spec.items_of (option_map (λ v. view v.now) value.entry) }
{
    match value.and_then(Value::as_array) {
        Some(array) => array.as_slice(),
        None => &[],
    }
}
