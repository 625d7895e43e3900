//! Messages from the server as bytes (RFC 8855, sections 5.3.4 to 5.3.13).

ghost use Rattle.std.specs.List.{list_any};
ghost use Rattle.std.specs.Prelude.{◌≡◌, ◌==◌, IfOk, OnOk, Some, filter, length};
ghost use Rattle.floor_message.specs.Fits.{TellFits};
ghost use Rattle.floor_message.specs.Written as spec;
ghost use Rattle.floor_message.specs.steps.Writing.{with_attrs};
ghost use Rattle.floor_wire.specs.Message.{IsMessage};
ghost use Rattle.floor_wire.specs.Spelling.{canon};
ghost use Rattle.floor_wire.specs.View.{attributes_of};

use crate::fits::{floor_status_len, request_status_len, tell_len};
use crate::format::error_code::put_error;
use crate::format::floor_request_information::{put_info, put_infos, put_infos_on};
use crate::format::number::put_number;
use crate::format::supported::put_supported;
use crate::format::user_information::put_who;
use crate::head::Head;
use crate::information::Info;
use crate::kind::{BENEFICIARY_INFORMATION, FLOOR_ID};
use crate::primitive::Primitive;
use crate::shared_info::SharedInfo;
use crate::tell::Tell;
use floor_wire::{Frame, FrameBuilder, SharedFrame, what_is_written_is_a_message};
use std::alloc::{AllocError, Global};

/// The message from the server, under this head.
pub fn write_tell(alloc: Global, head: &Head, tell: &Tell) -> Result<Frame, AllocError>
    requires { TellFits tell.now }
    ensures { IfOk result (λ frame. frame ≡ spec.tell_bytes head.now tell.now) }
{
    build_tell(alloc, head, tell)?.finish()
}

/// The message from the server, under this head, for its user alone: it has its bytes to itself.
pub fn write_tell_alone(alloc: Global, head: &Head, tell: &Tell) -> Result<SharedFrame, AllocError>
    requires { TellFits tell.now }
    ensures { IfOk result (λ message. message ≡ spec.tell_bytes head.now tell.now) }
{
    Ok(build_tell(alloc, head, tell)?.finish_alone())
}

/// The message from the server, under this head, as it is built.
fn build_tell(alloc: Global, head: &Head, tell: &Tell) -> Result<FrameBuilder, AllocError>
    requires { TellFits tell.now }
    ensures value { IfOk result (λ out. out ≡ spec.tell_bytes head.now tell.now) }
    ensures whole { IfOk result IsMessage }
{
    what_is_written_is_a_message();
    let len = tell_len(tell);
    let mut out = FrameBuilder::new(
        alloc,
        tell_primitive(tell).number(),
        head.conference,
        head.transaction,
        head.user,
        len,
    )?;
    put_tell(&mut out, tell)?;
    Ok(out)
}

/// How a floor request stands, under this head, for its user alone: the message of a
/// FloorRequestStatus, which has its bytes to itself.
pub fn write_request_status(
    alloc: Global,
    head: &Head,
    info: &Info,
) -> Result<SharedFrame, AllocError>
    requires { TellFits (Tell.FloorRequestStatus info.now) }
    ensures { IfOk result (λ message. message
        ≡ spec.tell_bytes head.now (Tell.FloorRequestStatus info.now)) }
{
    what_is_written_is_a_message();
    let len = request_status_len(info);
    let mut out = FrameBuilder::new(
        alloc,
        Primitive::FloorRequestStatus.number(),
        head.conference,
        head.transaction,
        head.user,
        len,
    )?;
    put_info(&mut out, info)?;
    Ok(out.finish_alone())
}

/// The status of a floor, under this head: the message of a FloorStatus with those of these floor
/// requests that name the floor.
pub fn write_floor_status(
    alloc: Global,
    head: &Head,
    floor: u16,
    infos: &[SharedInfo],
) -> Result<Frame, AllocError>
    requires { TellFits (Tell.FloorStatus (Some floor)
        (filter (λ i. list_any (λ f. f.0 == floor) i.floors) infos.now)) }
    ensures { IfOk result (λ frame. frame
        ≡ spec.tell_bytes head.now (Tell.FloorStatus (Some floor)
        (filter (λ i. list_any (λ f. f.0 == floor) i.floors) infos.now))) }
{
    what_is_written_is_a_message();
    let len = floor_status_len(floor, infos);
    let mut out = FrameBuilder::new(
        alloc,
        Primitive::FloorStatus.number(),
        head.conference,
        head.transaction,
        head.user,
        len,
    )?;
    put_floor_status(&mut out, floor, infos)?;
    out.finish()
}

/// Adds the attributes of the status of a floor.
fn put_floor_status(
    out: &mut FrameBuilder,
    floor: u16,
    infos: &[SharedInfo],
) -> Result<(), AllocError>
    requires { TellFits (Tell.FloorStatus (Some floor)
        (filter (λ i. list_any (λ f. f.0 == floor) i.floors) infos.now)) }
    ensures { OnOk result (out.new ≡ with_attrs out.old (spec.tell_attrs
        (Tell.FloorStatus (Some floor)
        (filter (λ i. list_any (λ f. f.0 == floor) i.floors) infos.now)))) }
{
    put_number(out, FLOOR_ID, Some(floor))?;
    put_infos_on(out, floor, infos)
}

fn tell_primitive(tell: &Tell) -> Primitive
    ensures { result ≡ spec.tell_primitive tell.now }
{
    match tell {
        Tell::FloorRequestStatus { .. } => Primitive::FloorRequestStatus,
        Tell::UserStatus { .. } => Primitive::UserStatus,
        Tell::FloorStatus { .. } => Primitive::FloorStatus,
        Tell::ChairActionAck => Primitive::ChairActionAck,
        Tell::HelloAck { .. } => Primitive::HelloAck,
        Tell::Error { .. } => Primitive::Error,
    }
}

/// Adds the attributes of the message.
fn put_tell(out: &mut FrameBuilder, tell: &Tell) -> Result<(), AllocError>
    requires { TellFits tell.now }
    ensures { OnOk result (out.new ≡ with_attrs out.old (spec.tell_attrs tell.now)) }
{
    match tell {
        Tell::FloorRequestStatus { info } => put_info(out, info),
        Tell::UserStatus { who, infos } => {
            put_who(out, BENEFICIARY_INFORMATION, who)?;
            put_infos(out, infos.as_slice())
        }
        Tell::FloorStatus { floor, infos } => {
            put_number(out, FLOOR_ID, *floor)?;
            put_infos(out, infos.as_slice())
        }
        Tell::ChairActionAck => Ok(()),
        Tell::HelloAck {
            primitives,
            attributes,
        } => put_supported(out, primitives.as_slice(), attributes.as_slice()),
        Tell::Error { code, details } => put_error(out, *code, details.as_slice()),
    }
}
