//! A value as one line.

ghost use Rattle.std.specs.Prelude.{◌≡◌, ◌++◌, ◌≤◌, IfOk, List, OnErr, OnOk, Some, length, take, ℕ};
ghost use Rattle.json.specs.Json.{document, max_depth};
ghost use Rattle.json.specs.Lex.{tokens};
ghost use Rattle.json.specs.Print.{print};
ghost use Rattle.json.specs.Tree.{depth, json_tokens};
ghost use Rattle.floor_rpc.specs.Json.{line_of};

use crate::value::ToJson;
use json::Writer;
use std::alloc::{AllocError, Global};
use std::mem::replace;

/// Writes a value as one line behind what `out` holds, and tells how many bytes the line has, its line feed
/// among them. The line without it is read as that value again. Where memory is refused `out` holds what it
/// held.
#[tactic(auto, using(crate::proofs::Document::document_tokens))]
pub fn write_line<T: ToJson>(
    alloc: Global,
    out: &mut Vec<u8>,
    value: &T,
) -> Result<usize, AllocError>
    ensures out { OnOk result (out.new.items ≡ out.old.items ++ line_of (T.json value.now)) }
    ensures count { IfOk result (λ n. n ≡ length (line_of (T.json value.now))) }
    ensures reads_back { OnOk result (depth (T.json value.now) ≤ max_depth
        → document (print (json_tokens (T.json value.now))) ≡ Some (T.json value.now)) }

    ensures left { OnErr result (out.new.items ≡ out.old.items) }
{
    let before = out.len();
    match write_behind(alloc, out, value) {
        Ok(()) => match out.push(b'\n') {
            Ok(()) => Ok(out.len() - before),
            Err(_) => {
                out.truncate(before);
                Err(AllocError)
            }
        },
        Err(_) => {
            out.truncate(before);
            Err(AllocError)
        }
    }
}

/// Writes a value behind what `out` holds. Where memory is refused a part of it may stand there.
fn write_behind<T: ToJson>(alloc: Global, out: &mut Vec<u8>, value: &T) -> Result<(), AllocError>
    ensures took { OnOk result (out.new.items
        ≡ out.old.items ++ print (json_tokens (T.json value.now))) }
    ensures read { OnOk result
        (tokens (print (json_tokens (T.json value.now))) ≡ json_tokens (T.json value.now)) }
    ensures front { take (length out.old.items) out.new.items ≡ out.old.items }
{
    let mut writer = Writer::new(replace(out, Vec::new(alloc)));
    let written = value.write(&mut writer);
    *out = writer.into_inner();
    written
}
