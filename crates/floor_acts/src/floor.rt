//! The line that adds a floor, `floor <conference> <id> [room <room>] [chair <user>]`, and the one that
//! gives a floor a chair or takes it away, `chair <conference> <floor> [<user>]`.

ghost use Rattle.std.specs.Prelude.{◌≡◌, map};
ghost use Rattle.std.specs.Option.{option_map};
ghost use Rattle.floor_acts.specs.Forms.{floor_form, option_form, options_form};
ghost use Rattle.floor_acts.specs.Acts.{chair_line, floor_act, set_chair};

use crate::act::ActLine;
use crate::fault::ActFault;
use crate::number::{conference_of, number_of, number_where};
use floor_machine::{Act, Floor};
use std::marker::Model;

/// The words of the line that adds a floor, by their places.
#[derive(Debug, Drop)]
pub struct FloorWords<'a> {
    conference: &'a str,
    id: &'a str,
    room: Option<&'a str>,
    chair: Option<&'a str>,
}

impl<'a> Model for FloorWords<'a> {
    ghost use Rattle.std.specs.Option.{option_map};
    ghost use Rattle.floor_acts.specs.Forms.{FloorForm};

    ghost Value = { FloorForm };

    ghost view = { λ w. record {
      conference = w.conference.now;
      id = w.id.now;
      room = option_map (λ r. r.now) w.room;
      chair = option_map (λ c. c.now) w.chair;
    } };
}

/// The words of a line, of which those behind its first are given; `None` where the line hasn't the
/// form.
pub fn floor_words<'a>(words: &[&'a str]) -> Option<FloorWords<'a>>
    ensures { result ≡ floor_form (map (λ w. w.now) words.now) }
{
    match words {
        [conference, id] => Some(FloorWords {
            conference,
            id,
            room: None,
            chair: None,
        }),
        [conference, id, name, word] => with_option(conference, id, name, word),
        [conference, id, first, room, second, chair] => {
            with_options(conference, id, first, room, second, chair)
        }
        _ => None,
    }
}

/// With one option.
fn with_option<'a>(
    conference: &'a str,
    id: &'a str,
    name: &str,
    word: &'a str,
) -> Option<FloorWords<'a>>
    ensures { result ≡ option_form conference.now id.now name.now word.now }
{
    if name == "room" {
        return Some(FloorWords {
            conference,
            id,
            room: Some(word),
            chair: None,
        });
    }
    if name == "chair" {
        return Some(FloorWords {
            conference,
            id,
            room: None,
            chair: Some(word),
        });
    }
    None
}

/// With both options.
fn with_options<'a>(
    conference: &'a str,
    id: &'a str,
    first: &str,
    room: &'a str,
    second: &str,
    chair: &'a str,
) -> Option<FloorWords<'a>>
    ensures { result ≡ options_form conference.now id.now first.now room.now second.now chair.now }
{
    if first == "room" && second == "chair" {
        return Some(FloorWords {
            conference,
            id,
            room: Some(room),
            chair: Some(chair),
        });
    }
    None
}

/// The act of the words. A floor without a room has room for one.
pub fn floor_act(words: FloorWords) -> Result<ActLine, ActFault>
    ensures { result ≡ floor_act words.entry }
{
    let conference = conference_of(words.conference)?;
    let id = number_of(words.id)?;
    let room = number_where(words.room)?;
    let chair = number_where(words.chair)?;
    let floor = Floor {
        id,
        room: room.unwrap_or(1),
        chair,
    };
    Ok(ActLine {
        conference,
        act: Act::AddFloor(floor),
    })
}

/// What the words behind `chair` ask for: a floor's chair, or without a user that it has none.
pub fn chair_line(words: &[&str]) -> Result<ActLine, ActFault>
    ensures { result ≡ chair_line (map (λ w. w.now) words.now) }
{
    match words {
        [conference, floor] => set_chair(conference, floor, None),
        [conference, floor, user] => set_chair(conference, floor, Some(user)),
        _ => Err(ActFault::UnknownCommand),
    }
}

fn set_chair(conference: &str, floor: &str, user: Option<&str>) -> Result<ActLine, ActFault>
    ensures { result ≡ set_chair conference.now floor.now (option_map (λ w. w.now) user.entry) }
{
    let conference = conference_of(conference)?;
    let floor = number_of(floor)?;
    let chair = number_where(user)?;
    Ok(ActLine {
        conference,
        act: Act::SetChair(floor, chair),
    })
}
