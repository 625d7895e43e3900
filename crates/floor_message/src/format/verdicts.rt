//! The verdicts of a ChairAction: a FLOOR-REQUEST-INFORMATION with a FLOOR-REQUEST-STATUS for each
//! floor, behind the reason for them (RFC 8855, sections 5.2.15, 5.2.17 and 5.3.9).

ghost use Rattle.std.specs.Prelude.{◌≡◌, ◌==◌, ◌≤◌, ◌↔◌, ℕ, length, option_and_then, option_map, map, IfOk, IfSome, IsTrue, OnOk};
ghost use Rattle.std.specs.List.{list_any};
ghost use Rattle.floor_message.specs.Fields.{fields, floors_judged, given, status_for, verdict_of};
ghost use Rattle.floor_message.specs.Fits.{ChairActionFits, VerdictsFit, most_verdicts};
ghost use Rattle.floor_message.specs.Picked.{IsOnceBy};
ghost use Rattle.floor_message.specs.Written as spec;
ghost use Rattle.floor_message.specs.declared.primitive.Primitive.TheVariants as primitive;
ghost use Rattle.floor_message.specs.steps.Adding.{add_new};
ghost use Rattle.floor_message.specs.steps.Writing.{with_attrs};
ghost use Rattle.floor_wire.specs.Bytes.{IsBytes};
ghost use Rattle.floor_wire.specs.Spelling.{IsWritable, canon};
ghost use Rattle.floor_wire.specs.View.{attributes_of};

use crate::ask::Ask;
use crate::format::attributes::SHORT_ATTRIBUTE;
use crate::format::floor_request_status::put_floor_status;
use crate::format::group::{GROUP_HEAD, first_group, group_of};
use crate::format::overall_request_status::{overall_len, overall_status, put_overall};
use crate::format::request_status::status_in;
use crate::format::status_info::reason_kept;
use crate::format::text::{LONGEST_REASON, optional_text_fits};
use crate::kind::{FLOOR_REQUEST_INFORMATION, FLOOR_REQUEST_STATUS};
use crate::verdicts::{Verdict, Verdicts};
use floor_wire::{AttrsView, FrameBuilder, Octets};
use std::alloc::{AllocError, Global};

/// The most verdicts of a ChairAction without a reason: with them its group fits its Length.
const MOST_VERDICTS: usize = 31;

/// The most verdicts of a ChairAction with a reason: with them and the longest its group fits its
/// Length.
const MOST_VERDICTS_BESIDE_A_REASON: usize = 26;

/// What a ChairAction asks.
pub(crate) fn chair_action(alloc: Global, attrs: &AttrsView) -> Result<Option<Ask>, AllocError>
    ensures { IfOk result (λ ask. ask ≡ fields primitive.ChairAction attrs.now) }
{
    let Some((request, inside)) = first_group(attrs, FLOOR_REQUEST_INFORMATION) else {
        return Ok(None);
    };
    let judged = floors_judged(alloc, &inside)?;
    let Some(verdicts) = given(alloc, &judged)? else {
        return Ok(None);
    };
    if verdicts.is_empty() {
        return Ok(None);
    }
    let Some(reason) = reason_kept(alloc, &inside)? else {
        return Ok(None);
    };
    Ok(Some(Ask::ChairAction {
        request,
        verdicts: Verdicts::from_vec(verdicts),
        reason,
    }))
}

/// The floors that a ChairAction names, each once, with the verdicts on them.
fn floors_judged(
    alloc: Global,
    inside: &AttrsView,
) -> Result<Vec<(u16, Option<Verdict>)>, AllocError>
    ensures { IfOk result (λ v. v.items ≡ floors_judged inside.now) }
{
    let overall = overall_status(inside);
    let mut found = Vec::new(alloc);
    let mut rest = inside.copy();
    while let Some(attr) = rest.next() {
        if let Some((floor, within)) = group_of(&attr, FLOOR_REQUEST_STATUS) {
            add_floor(&mut found, floor, verdict_on(overall, status_in(&within)))?;
        }
    }
    Ok(found)
}

/// Adds the floor, unless it is there.
fn add_floor(
    found: &mut Vec<(u16, Option<Verdict>)>,
    floor: u16,
    verdict: Option<Verdict>,
) -> Result<(), AllocError>
    ensures { OnOk result (found.new.items ≡ add_new (λ v. v.0) found.old.items (floor, verdict)) }
{
    for (known, _) in found.as_slice() {
        if floor == *known {
            return Ok(());
        }
    }
    found.push((floor, verdict))?;
    Ok(())
}

/// The verdict of a floor: by its own status, else by the overall one. Our choice, since the RFC
/// tells a chair's decision in neither place alone.
fn verdict_on(overall: Option<u8>, own: Option<u8>) -> Option<Verdict>
    ensures { result ≡ option_and_then verdict_of (status_for overall own) }
{
    let status = match own {
        Some(own) => Some(own),
        None => overall,
    };
    verdict_of(status?)
}

fn verdict_of(status: u8) -> Option<Verdict>
    ensures { result ≡ verdict_of status }
{
    match status {
        2 => Some(Verdict::Accepted),
        3 => Some(Verdict::Granted),
        4 => Some(Verdict::Denied),
        7 => Some(Verdict::Revoked),
        _ => None,
    }
}

/// The floors with their verdicts, where each has one.
fn given(
    alloc: Global,
    judged: &[(u16, Option<Verdict>)],
) -> Result<Option<Vec<(u16, Verdict)>>, AllocError>
    ensures { IfOk result (λ o. option_map (λ v. v.items) o ≡ given judged.now) }
{
    let mut verdicts = Vec::new(alloc);
    for (floor, verdict) in judged {
        let Some(verdict) = verdict else {
            return Ok(None);
        };
        verdicts.push((*floor, *verdict))?;
    }
    Ok(Some(verdicts))
}

/// Adds FLOOR-REQUEST-INFORMATION as a ChairAction holds it.
pub(crate) fn put_chair_action(
    out: &mut FrameBuilder,
    request: u16,
    verdicts: &[(u16, Verdict)],
    reason: &Option<Octets>,
) -> Result<(), AllocError>
    requires { IsWritable (attributes_of
        (spec.ask_attrs (Ask.ChairAction request verdicts.now reason.now))) }
    ensures { OnOk result (out.new ≡ with_attrs out.old
        (spec.ask_attrs (Ask.ChairAction request verdicts.now reason.now))) }
{
    let start = out.begin_group(FLOOR_REQUEST_INFORMATION, request)?;
    put_overall(out, request, None, reason)?;
    put_verdicts(out, verdicts)?;
    out.end_group(start);
    Ok(())
}

/// Adds a FLOOR-REQUEST-STATUS for each verdict.
fn put_verdicts(out: &mut FrameBuilder, verdicts: &[(u16, Verdict)]) -> Result<(), AllocError>
    ensures { OnOk result (out.new ≡ with_attrs out.old (map spec.verdict_attr verdicts.now)) }
{
    for (floor, verdict) in verdicts {
        put_floor_status(out, *floor, Some((status_of(*verdict), 0)))?;
    }
    Ok(())
}

fn status_of(verdict: Verdict) -> u8
    ensures { result ≡ spec.status_of verdict }
{
    match verdict {
        Verdict::Accepted => 2,
        Verdict::Granted => 3,
        Verdict::Denied => 4,
        Verdict::Revoked => 7,
    }
}

/// How many bytes a ChairAction takes behind its header.
pub(crate) fn chair_action_len(verdicts: &[(u16, Verdict)], reason: &Option<Octets>) -> usize
    requires few { length verdicts.now ≤ 31 }
    requires text { IfSome reason.now (λ text. length text ≤ 253) }
    ensures { (request : ℕ) → result ≡ length (canon (attributes_of
        (spec.ask_attrs (Ask.ChairAction request verdicts.now reason.now)))) }
{
    GROUP_HEAD + overall_len(reason) + (GROUP_HEAD + SHORT_ATTRIBUTE) * verdicts.len()
}

/// Whether the verdicts and the reason can be written: 1 to 31 verdicts, or to 26 beside a reason,
/// each on a floor of its own, and a reason, where there is one, that is UTF-8 of 1 to 30 bytes.
pub(crate) fn chair_action_fits(verdicts: &[(u16, Verdict)], reason: &Option<Octets>) -> bool
    ensures value { IsTrue result ↔ ChairActionFits verdicts.now reason.now }
    ensures bytes { IsTrue result → IfSome reason.now IsBytes }
{
    verdicts_fit(verdicts, most_verdicts(reason)) && optional_text_fits(reason, LONGEST_REASON)
}

fn most_verdicts(reason: &Option<Octets>) -> usize
    ensures { result ≡ most_verdicts reason.now }
{
    match reason {
        Some(_) => MOST_VERDICTS_BESIDE_A_REASON,
        None => MOST_VERDICTS,
    }
}

/// Whether there is a verdict, and at most so many, each on a floor of its own.
fn verdicts_fit(verdicts: &[(u16, Verdict)], most: usize) -> bool
    ensures { IsTrue result ↔ VerdictsFit most verdicts.now }
{
    !verdicts.is_empty() && verdicts.len() <= most && is_each_judged_once(verdicts)
}

/// Whether no floor stands twice.
fn is_each_judged_once(verdicts: &[(u16, Verdict)]) -> bool
    ensures { IsTrue result ↔ IsOnceBy (λ v. v.0) verdicts.now }
{
    let mut rest = verdicts;
    while let [(first, _), others @ ..] = rest {
        if is_judged(others, *first) {
            return false;
        }
        rest = others;
    }
    true
}

fn is_judged(verdicts: &[(u16, Verdict)], floor: u16) -> bool
    ensures { result ≡ list_any (λ v. v.0 == floor) verdicts.now }
{
    for (judged, _) in verdicts {
        if *judged == floor {
            return true;
        }
    }
    false
}
