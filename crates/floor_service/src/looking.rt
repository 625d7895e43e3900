//! The requests that look: at conferences, at one, at its words and at its journal.

use floor_desk::Desk;
use floor_loop::Loop;
use floor_rpc::{
    Answer, ConferenceStanding, Conferences, JournalFrom, List, Listing, OfConference, WordsOf,
    WordsTold,
};
use floor_shown::{Refused, journal_of, picture_of, standing_of};

/// How many conferences are listed at once at most: our choice.
const MAX_LISTED: usize = 1_000;

/// `conference.list`: one conference, or the first thousand, ascending, or those behind one.
pub(crate) fn list(desk: &Desk, hub: &Loop, listing: &Listing) -> Result<Answer, Refused> {
    let conferences = match listing {
        Listing::Only(conference) => list_one(desk, hub, *conference)?,
        Listing::First => list_from(desk, hub, 0)?,
        Listing::After(conference) => list_behind(desk, hub, *conference)?,
    };
    Ok(Answer::Conferences(conferences))
}

fn list_one(desk: &Desk, hub: &Loop, conference: u32) -> Result<Conferences, Refused> {
    let mut one = Vec::new(desk.alloc);
    one.push(standing(desk, hub, conference)?)?;
    Ok(Conferences {
        conferences: List::from_vec(one),
        more: false,
    })
}

fn list_behind(desk: &Desk, hub: &Loop, conference: u32) -> Result<Conferences, Refused> {
    match conference.checked_add(1) {
        Some(from) => list_from(desk, hub, from),
        None => Ok(Conferences {
            conferences: List::from_vec(Vec::new(desk.alloc)),
            more: false,
        }),
    }
}

/// The conferences from this number on, and whether there are more behind them.
fn list_from(desk: &Desk, hub: &Loop, from: u32) -> Result<Conferences, Refused> {
    let mut conferences = Vec::new(desk.alloc);
    for (conference, _meeting) in desk.meetings.range(from..) {
        if MAX_LISTED <= conferences.len() {
            return Ok(Conferences {
                conferences: List::from_vec(conferences),
                more: true,
            });
        }
        conferences.push(standing(desk, hub, *conference)?)?;
    }
    Ok(Conferences {
        conferences: List::from_vec(conferences),
        more: false,
    })
}

/// How a conference stands.
fn standing(desk: &Desk, hub: &Loop, conference: u32) -> Result<ConferenceStanding, Refused> {
    let known = &desk.known(hub, conference)?.known;
    standing_of(desk.alloc, hub, conference, &known.words, known.is_kept)
}

/// `conference.get`: a conference as it stands. Whoever comes as one of the users that are removed isn't let in.
pub(crate) fn get(
    desk: &Desk,
    hub: &Loop,
    of: &OfConference,
    removed: &[u16],
) -> Result<Answer, Refused> {
    let known = &desk.known(hub, of.conference)?.known;
    let millis = desk.now.micros / 1_000;
    let picture = picture_of(desk.alloc, hub, of.conference, known, removed, millis)?;
    Ok(Answer::Picture(picture))
}

/// `word.get`: the words beside a conference, or the one of a key.
pub(crate) fn words(desk: &Desk, hub: &Loop, of: &WordsOf) -> Result<Answer, Refused> {
    let words = &desk.known(hub, of.conference)?.known.words;
    let key = match &of.key {
        Some(key) => Some(key.as_str()),
        None => None,
    };
    let words = List::from_vec(words.copies(desk.alloc, key)?);
    Ok(Answer::Words(WordsTold { words }))
}

/// `journal`: what happened in a conference, from a place on.
pub(crate) fn journal(desk: &Desk, hub: &Loop, asked: &JournalFrom) -> Result<Answer, Refused> {
    let known = &desk.known(hub, asked.conference)?.known;
    Ok(Answer::Journal(journal_of(desk.alloc, hub, known, asked)?))
}
