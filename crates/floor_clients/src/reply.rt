//! What follows from a line.

ghost use Rattle.std.specs.Prelude.{◌≡◌, IfOk, OnErr, OnOk};
ghost use Rattle.floor_rpc.specs.Failures.{response_json};
ghost use Rattle.floor_rpc.specs.Json.{line_of};
ghost use Rattle.floor_clients.specs.Outgoing.{answered};
ghost use Rattle.floor_clients.specs.Replies.{IsReplyTo, refused, reply_of, shown_to, without_words};

use crate::mode::{Mode, refusal_of};
use crate::outgoing::Outgoing;
use crate::workspace::Workspace;
use floor_rpc::{
    Answer, Call, Failure, Id, List, Picture, Received, Response, read_request, write_line,
};
use std::alloc::{AllocError, Global};

/// What follows from a line.
#[derive(Drop)]
pub enum Reply {
    /// Nothing: it is empty, or refused without an id to answer.
    Silent,
    /// It is answered at once.
    Answer(Response),
    /// It is to be carried out, and then answered where it has an id.
    Task(Option<Id>, Call),
}

/// What follows from a line. Where memory is refused nothing is known of it.
pub(crate) fn read_reply(
    alloc: Global,
    work: &mut Workspace,
    mode: Mode,
    is_draining: bool,
    line: &[u8],
) -> Result<Reply, AllocError>
    ensures value { IfOk result (IsReplyTo mode is_draining line.now) }
{
    match read_request(alloc, &mut work.scratch, line)? {
        None => Ok(Reply::Silent),
        Some(received) => Ok(reply_of(mode, is_draining, received)),
    }
}

fn reply_of(mode: Mode, is_draining: bool, received: Received) -> Reply
    ensures value { result ≡ reply_of mode is_draining received }
{
    let Received { id, call } = received;
    match call {
        Err(fault) => refused(id, Failure::of_fault(fault)),
        Ok(call) => match refusal_of(mode, is_draining, &call) {
            Some(name) => refused(id, Failure::whole(name)),
            None => Reply::Task(id, call),
        },
    }
}

/// What is refused is answered where it has an id.
fn refused(id: Option<Id>, failure: Failure) -> Reply
    ensures value { result ≡ refused id failure }
{
    match id {
        Some(id) => Reply::Answer(Response {
            id,
            outcome: Err(failure),
        }),
        None => Reply::Silent,
    }
}

/// What a client is told of what its request came to: an observer no word.
pub(crate) fn shown_to(
    alloc: Global,
    mode: Mode,
    outcome: Result<Answer, Failure>,
) -> Result<Answer, Failure>
    ensures value { result ≡ shown_to mode outcome }
{
    match mode {
        Mode::Control => outcome,
        Mode::Observer => match outcome {
            Ok(Answer::Picture(picture)) => Ok(Answer::Picture(without_words(alloc, picture))),
            other => other,
        },
    }
}

fn without_words(alloc: Global, picture: Picture) -> Picture
    ensures value { result ≡ without_words picture }
{
    Picture {
        words: List::from_vec(Vec::new(alloc)),
        ..picture
    }
}

/// Writes an answer behind what waits. After an error nothing has changed of that.
pub(crate) fn write_answer(
    alloc: Global,
    work: &mut Workspace,
    outgoing: &mut Outgoing,
    response: &Response,
) -> Result<(), AllocError>
    ensures took { OnOk result
        (outgoing.new ≡ answered (line_of (response_json response.now)) outgoing.old) }
    ensures left { OnErr result (outgoing.new ≡ outgoing.old) }
{
    work.line.clear();
    let _count = write_line(alloc, &mut work.line, response)?;
    outgoing.answer(work.line.as_slice())
}
