//! The words of a run.

use floor_words::read_u32;

/// What a run does.
#[derive(Clone, Copy, Debug)]
pub struct Run {
    pub members: u32,
    /// How many of them watch floor 1, the first of them aside.
    pub watching: u32,
    /// How many messages come at a time.
    pub depth: u32,
    /// How many turns there are.
    pub turns: u32,
    pub turn: Turn,
    /// Whether what the events change is gathered, and cleared once it was told.
    pub is_watched: bool,
}

/// What the first member does in a turn.
#[derive(Clone, Copy, Debug)]
pub enum Turn {
    /// A Hello.
    Hello,
    /// A FloorRequest and its FloorRelease.
    Pair,
    /// A connection that comes, says Hello and leaves.
    Coming,
}

impl Run {
    /// How many messages come in all.
    pub fn messages(&self) -> u32 {
        match self.turn {
            Turn::Hello | Turn::Coming => self.turns,
            Turn::Pair => self.turns.saturating_mul(2),
        }
    }
}

/// The run that the words ask for.
pub fn read_run(words: &[String]) -> Option<Run> {
    match words {
        [members, watching, depth, turns, turn] => run_of(
            members, watching, depth, turns, turn, false,
        ),
        [members, watching, depth, turns, turn, watched] if watched.as_str() == "watched" => {
            run_of(members, watching, depth, turns, turn, true)
        }
        _ => None,
    }
}

fn run_of(
    members: &String,
    watching: &String,
    depth: &String,
    turns: &String,
    turn: &String,
    is_watched: bool,
) -> Option<Run> {
    Some(Run {
        members: read_u32(members.as_str())?,
        watching: read_u32(watching.as_str())?,
        depth: read_u32(depth.as_str())?,
        turns: read_u32(turns.as_str())?,
        turn: read_turn(turn.as_str())?,
        is_watched,
    })
}

fn read_turn(word: &str) -> Option<Turn> {
    if word == "hellos" {
        return Some(Turn::Hello);
    }
    if word == "pairs" {
        return Some(Turn::Pair);
    }
    if word == "comings" {
        return Some(Turn::Coming);
    }
    None
}
