//! What a client hears, as a line of text: the primitives and statuses by their names (RFC 8855,
//! sections 5.1 and 5.2.5), numbers in decimal, texts in double quotes.

ghost use Rattle.std.specs.Prelude.{◌≡◌, ◌++◌, OnOk, IfOk};
ghost use Rattle.std.specs.String.{string_bytes};
ghost use Rattle.std.specs.List.{flat_map};
ghost use Rattle.floor_client.specs.Rendered as spec;

use crate::heard::Heard;
use crate::pieces::{put_hex_digits, put_number, put_quoted};
use floor_message::{FloorStatuses, Info, Octets, Tell, Who};
use std::alloc::{AllocError, Global};

/// The line of what is heard, without a line feed: `bad`, `stray`, or `reply` with its number or
/// `notice`, then the primitive and its fields.
pub fn render(alloc: Global, heard: &Heard) -> Result<String, AllocError>
    ensures value { IfOk result (λ line. string_bytes line ≡ spec.rendered heard.now) }
{
    let mut out = String::new(alloc);
    put_heard(&mut out, heard)?;
    Ok(out)
}

fn put_heard(out: &mut String, heard: &Heard) -> Result<(), AllocError>
    ensures { OnOk result (string_bytes out.new ≡ string_bytes out.old ++ spec.rendered heard.now) }
{
    match heard {
        Heard::BadMessage => out.push_str("bad"),
        Heard::Stray => out.push_str("stray"),
        Heard::Reply(number, tell) => {
            out.push_str("reply ")?;
            put_number(out, u32::from(*number))?;
            out.push_str(" ")?;
            put_tell(out, tell)
        }
        Heard::Notice(tell) => {
            out.push_str("notice ")?;
            put_tell(out, tell)
        }
    }
}

fn put_tell(out: &mut String, tell: &Tell) -> Result<(), AllocError>
    ensures { OnOk result (string_bytes out.new ≡ string_bytes out.old ++ spec.tell_text tell.now) }
{
    match tell {
        Tell::FloorRequestStatus { info } => put_floor_request_status(out, info),
        Tell::UserStatus { who, infos } => put_user_status(out, who, infos.as_slice()),
        Tell::FloorStatus { floor, infos } => put_floor_status(out, *floor, infos.as_slice()),
        Tell::ChairActionAck => out.push_str("ChairActionAck"),
        Tell::HelloAck { .. } => out.push_str("HelloAck"),
        Tell::Error { code, details } => put_error(out, *code, details.as_slice()),
    }
}

fn put_floor_request_status(out: &mut String, info: &Info) -> Result<(), AllocError>
    ensures { OnOk result (string_bytes out.new
        ≡ string_bytes out.old ++ spec.floor_request_status info.now) }
{
    out.push_str("FloorRequestStatus ")?;
    put_info(out, info)
}

fn put_user_status(out: &mut String, who: &Option<Who>, infos: &[Info]) -> Result<(), AllocError>
    ensures { OnOk result (string_bytes out.new
        ≡ string_bytes out.old ++ spec.user_status who.now infos.now) }
{
    out.push_str("UserStatus")?;
    put_user(out, who)?;
    put_infos(out, infos)
}

fn put_floor_status(out: &mut String, floor: Option<u16>, infos: &[Info]) -> Result<(), AllocError>
    ensures { OnOk result (string_bytes out.new
        ≡ string_bytes out.old ++ spec.floor_status floor infos.now) }
{
    out.push_str("FloorStatus")?;
    put_floor(out, floor)?;
    put_infos(out, infos)
}

fn put_error(out: &mut String, code: u8, details: &[u8]) -> Result<(), AllocError>
    ensures { OnOk result (string_bytes out.new
        ≡ string_bytes out.old ++ spec.error code details.now) }
{
    out.push_str("Error ")?;
    put_number(out, u32::from(code))?;
    put_details(out, details)
}

fn put_details(out: &mut String, details: &[u8]) -> Result<(), AllocError>
    ensures { OnOk result (string_bytes out.new
        ≡ string_bytes out.old ++ spec.details_text details.now) }
{
    if details.is_empty() {
        return Ok(());
    }
    out.push_str(" ")?;
    put_hex_digits(out, details)
}

fn put_floor(out: &mut String, floor: Option<u16>) -> Result<(), AllocError>
    ensures { OnOk result (string_bytes out.new
        ≡ string_bytes out.old ++ spec.optional spec.floor_number floor) }
{
    match floor {
        Some(floor) => {
            out.push_str(" floor ")?;
            put_number(out, u32::from(floor))
        }
        None => Ok(()),
    }
}

fn put_user(out: &mut String, who: &Option<Who>) -> Result<(), AllocError>
    ensures { OnOk result (string_bytes out.new
        ≡ string_bytes out.old ++ spec.optional spec.user_text who.now) }
{
    match who {
        Some(who) => {
            out.push_str(" user ")?;
            put_number(out, u32::from(who.user))?;
            put_text(out, " name ", &who.name)?;
            put_text(out, " uri ", &who.uri)
        }
        None => Ok(()),
    }
}

/// Appends a text in double quotes behind these words, where there is one.
fn put_text(out: &mut String, words: &str, text: &Option<Octets>) -> Result<(), AllocError>
    ensures { OnOk result (string_bytes out.new
        ≡ string_bytes out.old ++ spec.optional (spec.text_behind words.now) text.now) }
{
    match text {
        Some(text) => {
            out.push_str(words)?;
            put_quoted(out, text.as_slice())
        }
        None => Ok(()),
    }
}

fn put_infos(out: &mut String, infos: &[Info]) -> Result<(), AllocError>
    ensures { OnOk result (string_bytes out.new
        ≡ string_bytes out.old ++ flat_map spec.bracketed infos.now) }
{
    for info in infos {
        put_bracketed(out, info)?;
    }
    Ok(())
}

fn put_bracketed(out: &mut String, info: &Info) -> Result<(), AllocError>
    ensures { OnOk result (string_bytes out.new ≡ string_bytes out.old ++ spec.bracketed info.now) }
{
    out.push_str(" [")?;
    put_info(out, info)?;
    out.push_str("]")
}

fn put_info(out: &mut String, info: &Info) -> Result<(), AllocError>
    ensures { OnOk result (string_bytes out.new ≡ string_bytes out.old ++ spec.info_text info.now) }
{
    put_statuses(out, info)?;
    put_named_user(out, " for ", &info.beneficiary)?;
    put_named_user(out, " by ", &info.requester)?;
    put_priority(out, info.priority)?;
    put_text(out, " info ", &info.info)
}

/// Appends the number of a floor request, its overall status, the reason for it and its floors.
fn put_statuses(out: &mut String, info: &Info) -> Result<(), AllocError>
    ensures { OnOk result (string_bytes out.new
        ≡ string_bytes out.old ++ spec.statuses_text info.now) }
{
    out.push_str("request ")?;
    put_number(out, u32::from(info.request))?;
    put_status(out, " overall ", info.overall)?;
    put_text(out, " reason ", &info.reason)?;
    put_floors(out, &info.floors)
}

fn put_floors(out: &mut String, floors: &FloorStatuses) -> Result<(), AllocError>
    ensures { OnOk result (string_bytes out.new
        ≡ string_bytes out.old ++ flat_map spec.floor_text floors.now) }
{
    for (floor, status) in floors.as_slice() {
        put_requested_floor(out, *floor, *status)?;
    }
    Ok(())
}

fn put_requested_floor(
    out: &mut String,
    floor: u16,
    status: Option<(u8, u8)>,
) -> Result<(), AllocError>
    ensures { OnOk result (string_bytes out.new
        ≡ string_bytes out.old ++ spec.floor_text (floor, status)) }
{
    out.push_str(" floor ")?;
    put_number(out, u32::from(floor))?;
    put_status(out, ":", status)
}

/// Appends a status and its queue position behind these words, where there is one.
fn put_status(out: &mut String, words: &str, status: Option<(u8, u8)>) -> Result<(), AllocError>
    ensures { OnOk result (string_bytes out.new
        ≡ string_bytes out.old ++ spec.optional (spec.status_behind words.now) status) }
{
    match status {
        Some((status, position)) => {
            out.push_str(words)?;
            put_status_name(out, status)?;
            out.push_str(":")?;
            put_number(out, u32::from(position))
        }
        None => Ok(()),
    }
}

fn put_status_name(out: &mut String, status: u8) -> Result<(), AllocError>
    ensures { OnOk result (string_bytes out.new ≡ string_bytes out.old ++ spec.status_name status) }
{
    match status {
        1 => out.push_str("Pending"),
        2 => out.push_str("Accepted"),
        3 => out.push_str("Granted"),
        4 => out.push_str("Denied"),
        5 => out.push_str("Cancelled"),
        6 => out.push_str("Released"),
        7 => out.push_str("Revoked"),
        _ => put_number(out, u32::from(status)),
    }
}

/// Appends a user with its name behind these words, where there is one.
fn put_named_user(out: &mut String, words: &str, who: &Option<Who>) -> Result<(), AllocError>
    ensures { OnOk result (string_bytes out.new
        ≡ string_bytes out.old ++ spec.optional (spec.user_behind words.now) who.now) }
{
    match who {
        Some(who) => {
            out.push_str(words)?;
            put_number(out, u32::from(who.user))?;
            put_text(out, " ", &who.name)
        }
        None => Ok(()),
    }
}

fn put_priority(out: &mut String, priority: Option<u8>) -> Result<(), AllocError>
    ensures { OnOk result (string_bytes out.new
        ≡ string_bytes out.old ++ spec.optional spec.priority_text priority) }
{
    match priority {
        Some(priority) => {
            out.push_str(" priority ")?;
            put_number(out, u32::from(priority))
        }
        None => Ok(()),
    }
}
