//! Messages from a client as bytes (RFC 8855, sections 5.3.1 to 5.3.11).

ghost use Rattle.std.specs.Prelude.{◌≡◌, ◌≤◌, IfOk, OnOk, length};
ghost use Rattle.floor_message.specs.Fits.{AskFits};
ghost use Rattle.floor_message.specs.Written as spec;
ghost use Rattle.floor_message.specs.steps.Writing.{with_attrs};
ghost use Rattle.floor_wire.specs.Spelling.{IsWritable, canon};
ghost use Rattle.floor_wire.specs.View.{attributes_of};

use crate::ask::Ask;
use crate::fits::ask_len;
use crate::format::floors::put_floors;
use crate::format::number::put_number;
use crate::format::octets::put_octets;
use crate::format::priority::put_priority;
use crate::format::verdicts::put_chair_action;
use crate::head::Head;
use crate::kind::{BENEFICIARY_ID, FLOOR_REQUEST_ID, PARTICIPANT_PROVIDED_INFO};
use crate::primitive::Primitive;
use floor_wire::{Frame, FrameBuilder, Octets, what_is_written_is_a_message};
use std::alloc::{AllocError, Global};

/// The message from a client, under this head.
pub fn write_ask(alloc: Global, head: &Head, ask: &Ask) -> Result<Frame, AllocError>
    requires { AskFits ask.now }
    ensures { IfOk result (λ frame. frame ≡ spec.ask_bytes head.now ask.now) }
{
    what_is_written_is_a_message();
    let len = ask_len(ask);
    let mut out = FrameBuilder::new(
        alloc,
        ask_primitive(ask).number(),
        head.conference,
        head.transaction,
        head.user,
        len,
    )?;
    put_ask(&mut out, ask)?;
    out.finish()
}

fn ask_primitive(ask: &Ask) -> Primitive
    ensures { result ≡ spec.ask_primitive ask.now }
{
    match ask {
        Ask::FloorRequest { .. } => Primitive::FloorRequest,
        Ask::FloorRelease { .. } => Primitive::FloorRelease,
        Ask::FloorRequestQuery { .. } => Primitive::FloorRequestQuery,
        Ask::UserQuery { .. } => Primitive::UserQuery,
        Ask::FloorQuery { .. } => Primitive::FloorQuery,
        Ask::ChairAction { .. } => Primitive::ChairAction,
        Ask::Hello => Primitive::Hello,
    }
}

/// Adds the attributes of the message.
fn put_ask(out: &mut FrameBuilder, ask: &Ask) -> Result<(), AllocError>
    requires { AskFits ask.now }
    ensures { OnOk result (out.new ≡ with_attrs out.old (spec.ask_attrs ask.now)) }
{
    match ask {
        Ask::FloorRequest {
            beneficiary,
            floors,
            priority,
            info,
        } => put_floor_request(out, *beneficiary, floors.as_slice(), *priority, info),
        Ask::FloorRelease { request } | Ask::FloorRequestQuery { request } => {
            out.put_number(FLOOR_REQUEST_ID, *request)
        }
        Ask::UserQuery { beneficiary } => put_number(out, BENEFICIARY_ID, *beneficiary),
        Ask::FloorQuery { floors } => put_floors(out, floors.as_slice()),
        Ask::ChairAction {
            request,
            verdicts,
            reason,
        } => put_chair_action(out, *request, verdicts.as_slice(), reason),
        Ask::Hello => Ok(()),
    }
}

fn put_floor_request(
    out: &mut FrameBuilder,
    beneficiary: Option<u16>,
    floors: &[u16],
    priority: u8,
    info: &Option<Octets>,
) -> Result<(), AllocError>
    requires priority { priority ≤ 4 }
    requires writable { IsWritable (attributes_of
        (spec.ask_attrs (Ask.FloorRequest beneficiary floors.now priority info.now))) }
    ensures { OnOk result (out.new ≡ with_attrs out.old
        (spec.ask_attrs (Ask.FloorRequest beneficiary floors.now priority info.now))) }
{
    put_floors(out, floors)?;
    put_number(out, BENEFICIARY_ID, beneficiary)?;
    put_octets(out, PARTICIPANT_PROVIDED_INFO, info)?;
    put_priority(out, Some(priority))
}
