//! The lines that an event shows to whoever watches its conference: what the event says of itself, each
//! floor request that is shown otherwise, each member that it cut, and the end of its place.

ghost use Rattle.std.specs.Prelude.{◌≡◌, ◌++◌, ℕ, [], OnOk, codes, if◌then◌else◌, map, not, string_bytes};
ghost use Rattle.std.specs.List.{flat_map};
ghost use Rattle.floor_machine.specs.Conference.{Conference};
ghost use Rattle.floor_machine.specs.Next.{is_nothing};
ghost use Rattle.floor_room.specs.Text.{text_word};
ghost use Rattle.floor_control.specs.Floors.{floor_words};
ghost use Rattle.floor_control.specs.Watch as spec;

use crate::floors::add_floor_words;
use crate::people::add_name;
use floor_config::{Floor, User};
use floor_machine::{Event, Machine};
use floor_message::{Info, SharedInfo, Who};
use floor_wire::Octets;
use std::alloc::AllocError;
use std::fmt::Write;

/// A place in the journal of a conference.
#[derive(Clone, Copy, Debug)]
pub(crate) struct At {
    /// The conference.
    pub conference: u32,
    /// The place, from 1.
    pub place: u32,
}

impl At {
    /// Adds what an event says of itself, where a member who joins gets this number, and one who leaves
    /// was of this user.
    pub(crate) fn add_own(
        self,
        out: &mut String,
        event: &Event,
        number: u32,
        leaver: u16,
    ) -> Result<(), AllocError>
        ensures { OnOk result (string_bytes out.new ≡ string_bytes out.old
            ++ flat_map (spec.line self.conference self.place)
            (spec.said number leaver event.now)) }
    {
        match event {
            Event::Join { user } => self.add_member(out, "joined", number, *user),
            Event::Message { .. } => Ok(()),
            Event::Took { .. } => Ok(()),
            Event::Leave { n } => self.add_member(out, "left", *n, leaver),
            Event::Revoke { .. } => Ok(()),
            Event::Close => self.add_word(out, "closed"),
            Event::AddUser { user } => self.add_user(out, user.as_user()),
            Event::AddFloor { floor } => self.add_floor(out, floor),
            Event::SetChair { floor, chair } => self.add_chair(out, *floor, *chair),
            Event::Say { .. } => Ok(()),
        }
    }

    /// Adds what each line of the place begins with.
    fn begin(self, out: &mut String) -> Result<(), AllocError>
        ensures { OnOk result (string_bytes out.new ≡ string_bytes out.old
            ++ spec.line_head self.conference self.place) }
    {
        let At { conference, place } = self;
        write!(out, "! {conference} {place} ")
    }

    /// Adds the line of one word.
    fn add_word(self, out: &mut String, word: &str) -> Result<(), AllocError>
        ensures { OnOk result (string_bytes out.new ≡ string_bytes out.old
            ++ spec.line self.conference self.place word.now) }
    {
        self.begin(out)?;
        write!(out, "{word}\n")
    }

    /// Adds the line of a member, behind this word.
    pub(crate) fn add_member(
        self,
        out: &mut String,
        word: &str,
        n: u32,
        user: u16,
    ) -> Result<(), AllocError>
        ensures { OnOk result (string_bytes out.new ≡ string_bytes out.old
            ++ spec.line self.conference self.place (spec.member_text word.now n user)) }
    {
        self.begin(out)?;
        write!(out, "{word} {n} user {user}\n")
    }

    /// Adds the line of a user who was added.
    fn add_user(self, out: &mut String, user: &User) -> Result<(), AllocError>
        ensures { OnOk result (string_bytes out.new ≡ string_bytes out.old
            ++ spec.line self.conference self.place (spec.user_text user.now)) }
    {
        self.begin(out)?;
        let id = user.id;
        let proxy = if user.proxy { " proxy" } else { "" };
        write!(out, "user {id}{proxy}")?;
        add_name(out, &user.name)?;
        out.push_str("\n")
    }

    /// Adds the line of a floor that was added.
    fn add_floor(self, out: &mut String, floor: &Floor) -> Result<(), AllocError>
        ensures { OnOk result (string_bytes out.new ≡ string_bytes out.old
            ++ spec.line self.conference self.place (floor_words floor.now)) }
    {
        self.begin(out)?;
        add_floor_words(out, floor)?;
        out.push_str("\n")
    }

    /// Adds the line of a floor's chair that was set, or taken away.
    fn add_chair(self, out: &mut String, floor: u16, chair: Option<u16>) -> Result<(), AllocError>
        ensures { OnOk result (string_bytes out.new ≡ string_bytes out.old
            ++ spec.line self.conference self.place (spec.chair_text floor chair)) }
    {
        self.begin(out)?;
        match chair {
            Some(user) => write!(out, "chair {floor} {user}\n"),
            None => write!(out, "chair {floor} -\n"),
        }
    }

    /// Adds the line of a floor request as it is shown.
    pub(crate) fn add_request(self, out: &mut String, info: &Info) -> Result<(), AllocError>
        ensures { OnOk result (string_bytes out.new ≡ string_bytes out.old
            ++ spec.line self.conference self.place (spec.request_text info.now)) }
    {
        self.begin(out)?;
        add_request(out, info)?;
        out.push_str("\n")
    }

    /// Adds the end of a place, where anything was shown there.
    pub(crate) fn add_end(self, out: &mut String, is_shown: bool) -> Result<(), AllocError>
        ensures { OnOk result (string_bytes out.new ≡ string_bytes out.old
            ++ (if is_shown then spec.line self.conference self.place (codes ".") else [])) }
    {
        if is_shown {
            self.add_word(out, ".")?;
        }
        Ok(())
    }
}

/// What an event shows: the event, the number that a member gets who joins by it, the user of a member who
/// leaves by it, the requests that it changed, and the members that it cut.
#[derive(Clone, Copy, Debug)]
pub(crate) struct Shown<'a> {
    /// The event.
    pub event: &'a Event,
    /// The number that a member gets who joins.
    pub number: u32,
    /// The user of a member who leaves.
    pub leaver: u16,
    /// What is shown of the requests that it changed.
    pub changed: &'a [SharedInfo],
    /// The numbers of the members that it cut.
    pub cut: &'a [u32],
}

impl Shown<'_> {
    /// Adds all lines of the place, where there are any: of the members it is the machine that knows the users.
    pub(crate) fn add(&self, out: &mut String, at: At, machine: &Machine) -> Result<(), AllocError>
        ensures { OnOk result (string_bytes out.new ≡ string_bytes out.old
            ++ spec.lines at.conference at.place
            (spec.said self.now.number self.now.leaver self.now.event.now
            ++ map spec.request_text self.now.changed.now
            ++ map (spec.cut_text machine.now.conference) self.now.cut.now)) }
    {
        at.add_own(out, self.event, self.number, self.leaver)?;
        add_requests(out, at, self.changed)?;
        add_cut(out, at, machine, self.cut)?;
        at.add_end(out, self.is_any())
    }

    /// Whether it is anything.
    fn is_any(&self) -> bool
        ensures { (s : Conference) → result ≡ not (is_nothing
            (spec.said self.now.number self.now.leaver self.now.event.now
            ++ map spec.request_text self.now.changed.now
            ++ map (spec.cut_text s) self.now.cut.now)) }
    {
        if says(self.event) {
            return true;
        }
        match self.changed.first() {
            Some(_info) => true,
            None => match self.cut.first() {
                Some(_n) => true,
                None => false,
            },
        }
    }
}

/// Adds the lines of requests.
fn add_requests(out: &mut String, at: At, changed: &[SharedInfo]) -> Result<(), AllocError>
    ensures { OnOk result (string_bytes out.new ≡ string_bytes out.old
        ++ flat_map (spec.request_line at.conference at.place) changed.now) }
{
    for info in changed {
        at.add_request(out, info.as_info())?;
    }
    Ok(())
}

/// Adds the lines of members that are cut.
fn add_cut(out: &mut String, at: At, machine: &Machine, cut: &[u32]) -> Result<(), AllocError>
    ensures { OnOk result (string_bytes out.new ≡ string_bytes out.old
        ++ flat_map (spec.cut_line at.conference at.place machine.now.conference) cut.now) }
{
    for n in cut {
        at.add_member(out, "cut", *n, machine.user_of(*n))?;
    }
    Ok(())
}

/// Whether an event says something of itself.
fn says(event: &Event) -> bool
    ensures { (number leaver : ℕ)
        → result ≡ not (is_nothing (spec.said number leaver event.now)) }
{
    match event {
        Event::Join { .. } => true,
        Event::Message { .. } => false,
        Event::Took { .. } => false,
        Event::Leave { .. } => true,
        Event::Revoke { .. } => false,
        Event::Close => true,
        Event::AddUser { .. } => true,
        Event::AddFloor { .. } => true,
        Event::SetChair { .. } => true,
        Event::Say { .. } => false,
    }
}

/// Adds a text in hexadecimal, lower case, and `-` for an absent or empty one.
fn add_text_word(out: &mut String, text: &Option<Octets>) -> Result<(), AllocError>
    ensures { OnOk result (string_bytes out.new ≡ string_bytes out.old ++ text_word text.now) }
{
    match text {
        Some(text) if !text.as_slice().is_empty() => {
            let word = hex::encode(*out.allocator(), text.as_slice())?;
            out.push_str(word.as_str())
        }
        _ => out.push_str("-"),
    }
}

/// Adds the name of a status, and a number that is none's.
fn add_status_name(out: &mut String, status: u8) -> Result<(), AllocError>
    ensures { OnOk result (string_bytes out.new
        ≡ string_bytes out.old ++ spec.status_name status) }
{
    match status {
        1 => out.push_str("Pending"),
        2 => out.push_str("Accepted"),
        3 => out.push_str("Granted"),
        4 => out.push_str("Denied"),
        5 => out.push_str("Cancelled"),
        6 => out.push_str("Released"),
        7 => out.push_str("Revoked"),
        _ => write!(out, "{status}"),
    }
}

/// Adds a status and its queue position, where there is one.
fn add_status(out: &mut String, status: Option<(u8, u8)>) -> Result<(), AllocError>
    ensures { OnOk result (string_bytes out.new
        ≡ string_bytes out.old ++ spec.optional spec.status_text status) }
{
    match status {
        Some((status, position)) => {
            add_status_name(out, status)?;
            write!(out, ":{position}")
        }
        None => Ok(()),
    }
}

/// Adds a floor's status, where it is another than that of the whole request.
fn add_other_status(
    out: &mut String,
    overall: u8,
    status: Option<(u8, u8)>,
) -> Result<(), AllocError>
    ensures { OnOk result (string_bytes out.new
        ≡ string_bytes out.old ++ spec.optional (spec.other_status overall) status) }
{
    match status {
        Some((status, _position)) => {
            if status == overall {
                return Ok(());
            }
            out.push_str(":")?;
            add_status_name(out, status)
        }
        None => Ok(()),
    }
}

/// Adds a floor of a request.
fn add_floor(
    out: &mut String,
    overall: u8,
    floor: &(u16, Option<(u8, u8)>),
) -> Result<(), AllocError>
    ensures { OnOk result (string_bytes out.new
        ≡ string_bytes out.old ++ spec.floor_text overall floor.now) }
{
    let (number, status) = *floor;
    write!(out, " {number}")?;
    add_other_status(out, overall, status)
}

/// Adds the floors of a request.
fn add_floors(
    out: &mut String,
    overall: u8,
    floors: &[(u16, Option<(u8, u8)>)],
) -> Result<(), AllocError>
    ensures { OnOk result (string_bytes out.new
        ≡ string_bytes out.old ++ flat_map (spec.floor_text overall) floors.now) }
{
    for floor in floors {
        add_floor(out, overall, floor)?;
    }
    Ok(())
}

/// The number of a status, and 0 for none.
fn number_of(status: Option<(u8, u8)>) -> u8
    ensures { result ≡ spec.number_of status }
{
    match status {
        Some(status) => status.0,
        None => 0,
    }
}

/// The user of a request, its beneficiary.
fn user_number(who: &Option<Who>) -> u16
    ensures { result ≡ spec.user_number who.now }
{
    match who {
        Some(who) => who.user,
        None => 0,
    }
}

/// Adds the requester, where it is another than the beneficiary.
fn add_requester(out: &mut String, who: &Option<Who>) -> Result<(), AllocError>
    ensures { OnOk result (string_bytes out.new
        ≡ string_bytes out.old ++ spec.optional spec.requester_text who.now) }
{
    match who {
        Some(who) => {
            let user = who.user;
            write!(out, " by {user}")
        }
        None => Ok(()),
    }
}

/// Adds whose a request is, and its status.
fn add_head(out: &mut String, info: &Info) -> Result<(), AllocError>
    ensures { OnOk result (string_bytes out.new
        ≡ string_bytes out.old ++ spec.request_head info.now) }
{
    let request = info.request;
    let user = user_number(&info.beneficiary);
    write!(out, "request {request} user {user}")?;
    add_requester(out, &info.requester)?;
    out.push_str(" ")?;
    add_status(out, info.overall)
}

/// Adds a request as it is shown.
fn add_request(out: &mut String, info: &Info) -> Result<(), AllocError>
    ensures { OnOk result (string_bytes out.new
        ≡ string_bytes out.old ++ spec.request_text info.now) }
{
    add_head(out, info)?;
    out.push_str(" floors")?;
    add_floors(out, number_of(info.overall), info.floors.as_slice())?;
    out.push_str(" reason ")?;
    add_text_word(out, &info.reason)
}
