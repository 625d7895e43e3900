//! Answers with their ids, written as JSON.

ghost use Rattle.std.specs.Prelude.{◌≡◌};
ghost use Rattle.json.specs.Tree.{json_tokens};
ghost use Rattle.floor_rpc.specs.Failures.{about_json, answered, error_json, failure_json, response_json};
ghost use Rattle.floor_rpc.specs.Ids.{id_json};
ghost use Rattle.floor_rpc.specs.Json.{Adds};

use crate::error::ErrorName;
use crate::failure::{About, Failure};
use crate::id::Id;
use crate::response::Response;
use crate::value::{ToJson, member, text_member, write_one};
use json::Writer;
use std::alloc::AllocError;

impl ToJson for About {
    ghost json = { about_json };

    fn write(&self, writer: &mut Writer) -> Result<(), AllocError> {
        match self {
            About::All => writer.null(),
            About::Param { param, why } => {
                writer.begin_object()?;
                member(writer, "param", param)?;
                text_member(writer, "why", why.name())?;
                writer.end_object()
            }
            About::Conference(number) => write_one(writer, "conference", number),
            About::User(number) => write_one(writer, "user", number),
            About::Member(number) => write_one(writer, "member", number),
            About::Floor(number) => write_one(writer, "floor", number),
            About::Request(number) => write_one(writer, "request", number),
            About::Place(number) => write_one(writer, "place", number),
            About::Line(number) => write_one(writer, "line", number),
        }
    }
}

/// The number of an error.
impl ToJson for ErrorName {
    ghost json = { error_json };

    fn write(&self, writer: &mut Writer) -> Result<(), AllocError> {
        let name = *self;
        writer.i64(name.number())
    }
}

impl ToJson for Failure {
    ghost json = { failure_json };

    fn write(&self, writer: &mut Writer) -> Result<(), AllocError> {
        writer.begin_object()?;
        member(writer, "code", &self.name)?;
        text_member(writer, "message", self.name.name())?;
        member(writer, "data", &self.about)?;
        writer.end_object()
    }
}

/// Writes an answer's id, and what its request came to.
fn write_answered<T: ToJson>(
    writer: &mut Writer,
    id: &Id,
    key: &str,
    outcome: &T,
) -> Result<(), AllocError>
    ensures { Adds result writer.old writer.new
        (json_tokens (answered (id_json id.now) key.now (T.json outcome.now))) }
{
    writer.begin_object()?;
    text_member(writer, "jsonrpc", "2.0")?;
    member(writer, "id", id)?;
    member(writer, key, outcome)?;
    writer.end_object()
}

impl ToJson for Response {
    ghost json = { response_json };

    fn write(&self, writer: &mut Writer) -> Result<(), AllocError> {
        match &self.outcome {
            Ok(answer) => write_answered(writer, &self.id, "result", answer),
            Err(failure) => write_answered(writer, &self.id, "error", failure),
        }
    }
}
