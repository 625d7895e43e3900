//! What a line asks of a conference.

ghost use Rattle.std.specs.Prelude.{◌≡◌, Ok, map};
ghost use Rattle.floor_acts.specs.Acts.{act_of, close_line, floor_line, of_name, revoke_line, some, user_line};
ghost use Rattle.floor_acts.specs.Numbers.{Reads};

use crate::fault::ActFault;
use crate::floor::{chair_line, floor_act, floor_words};
use crate::number::{conference_of, number_of};
use crate::user::{user_act, user_words};
use floor_machine::Act;
use floor_words::{cut_word, words};
use std::alloc::{AllocError, Global};

/// An act upon a conference.
#[derive(Debug, Drop)]
pub struct ActLine {
    /// The number of the conference.
    pub conference: u32,
    /// What is done to it. A user that is added bears the port that its line gives.
    pub act: Act,
}

/// The act that a line asks for; `None` where its first word is no act's name, whatever stands behind.
///
/// Words are parted by spaces, and stand in the order of the line's form, which is looked at first:
/// refused by `UnknownCommand` where the line has no form of its act. Then come the numbers, from left
/// to right, by `BadNumber`. The text behind `name` begins with the next word and goes to the end of the
/// line.
pub fn read_act(alloc: Global, line: &str) -> Result<Option<ActLine>, ActFault>
    ensures { Reads (act_of line.now) result }
{
    match cut_word(line) {
        None => Ok(None),
        Some(cut) => of_name(alloc, cut.word, cut.rest),
    }
}

/// The act of a line, of which the first word and the text behind it are given.
fn of_name(alloc: Global, name: &str, rest: &str) -> Result<Option<ActLine>, ActFault>
    ensures { Reads (of_name name.now rest.now) result }
{
    if name == "close" {
        let words = words(alloc, rest)?;
        return some(close_line(&words));
    }
    if name == "revoke" {
        let words = words(alloc, rest)?;
        return some(revoke_line(&words));
    }
    if name == "user" {
        return some(user_line(alloc, rest));
    }
    if name == "floor" {
        let words = words(alloc, rest)?;
        return some(floor_line(&words));
    }
    if name == "chair" {
        let words = words(alloc, rest)?;
        return some(chair_line(&words));
    }
    Ok(None)
}

fn some(line: Result<ActLine, ActFault>) -> Result<Option<ActLine>, ActFault>
    ensures { result ≡ some line }
{
    Ok(Some(line?))
}

/// `close <conference>`
fn close_line(words: &[&str]) -> Result<ActLine, ActFault>
    ensures { result ≡ close_line (map (λ w. w.now) words.now) }
{
    let [conference] = words else {
        return Err(ActFault::UnknownCommand);
    };
    let conference = conference_of(conference)?;
    Ok(ActLine {
        conference,
        act: Act::Close,
    })
}

/// `revoke <conference> <request>`
fn revoke_line(words: &[&str]) -> Result<ActLine, ActFault>
    ensures { result ≡ revoke_line (map (λ w. w.now) words.now) }
{
    let [conference, request] = words else {
        return Err(ActFault::UnknownCommand);
    };
    let conference = conference_of(conference)?;
    let request = number_of(request)?;
    Ok(ActLine {
        conference,
        act: Act::Revoke(request),
    })
}

/// `user <conference> <id> [proxy] [port <port>] [name <text to the end>]`
fn user_line(alloc: Global, rest: &str) -> Result<ActLine, ActFault>
    ensures { Reads (user_line rest.now) result }
{
    match user_words(rest) {
        None => Err(ActFault::UnknownCommand),
        Some(words) => user_act(alloc, words),
    }
}

/// `floor <conference> <id> [room <room>] [chair <user>]`
fn floor_line(words: &[&str]) -> Result<ActLine, ActFault>
    ensures { result ≡ floor_line (map (λ w. w.now) words.now) }
{
    match floor_words(words) {
        None => Err(ActFault::UnknownCommand),
        Some(words) => floor_act(words),
    }
}
