//! Words are kept beside conferences.
#![tactic(auto, using(crate::proofs::Attended::attends_same, crate::proofs::Attended::attends_then))]

ghost use Rattle.floor_desk.specs.Attending.{Attends, beside};

use crate::desk::Desk;
use crate::telling::tell_happened;
use floor_loop::Loop;
use floor_rpc::{About, Answer, ErrorName, Happened, Text, Why, WordSetting, WordTold};
use floor_shown::Refused;

/// `word.set`: keeps a word beside a conference, or takes it away.
pub fn set_word(desk: &mut Desk, hub: &Loop, setting: WordSetting) -> Result<Answer, Refused>
    ensures attends { Attends beside desk.old.callers desk.new.callers }
{
    let WordSetting {
        conference,
        key,
        text,
    } = setting;
    let _known = desk.known(hub, conference)?;
    // A key that begins with a point is the server's own.
    if key.as_str().is_empty() || key.as_str().starts_with(".") {
        return Err(Refused::param(desk.alloc, "key", Why::OutOfRange));
    }
    keep(desk, conference, &key, &text)?;
    tell_happened(desk, conference, Happened::Word(WordTold { key, text }));
    Ok(Answer::Done)
}

fn keep(desk: &mut Desk, conference: u32, key: &Text, text: &Option<Text>) -> Result<(), Refused>
    ensures attends { Attends beside desk.old.callers desk.new.callers }
{
    let Some(meeting) = desk.meetings.get_mut(&conference) else {
        return Err(Refused::of(ErrorName::NoConference, About::Conference(conference)));
    };
    let words = &mut meeting.known.words;
    let Some(text) = text else {
        words.remove(key.as_str());
        return Ok(());
    };
    if !words.fits(key.as_str(), text.as_str()) {
        return Err(Refused::of(ErrorName::Full, About::Conference(conference)));
    }
    words.keep(key.copy(desk.alloc)?, text.copy(desk.alloc)?)?;
    Ok(())
}
