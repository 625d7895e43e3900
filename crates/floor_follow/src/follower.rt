//! The picture of all conferences, and what is asked for it.

ghost use Rattle.std.specs.Prelude.{◌≡◌, ◌⊎◌, ◌==◌, ◌++◌, ◌∷◌, [], Ok, Err, IfErr, OnOk, filter, find, map, not, option_copied, position};
ghost use Rattle.std.specs.List.{list_all};
ghost use Rattle.floor_follow.specs.Conference.{answered, changed, due, is_followed};
ghost use Rattle.floor_follow.specs.Following as spec;
ghost use Rattle.floor_follow.specs.declared.fault.FollowFault.TheVariants.{Memory, Unasked};

use crate::change::Change;
use crate::conference::{Conference, Stage};
use crate::fact::Facts;
use crate::fault::FollowFault;
use crate::question::Question;
use crate::told::{Listed, Told};
use std::alloc::{AllocError, AllocFailed, Global};
use std::marker::Model;

/// What is known of all conferences, and what is asked.
///
/// `ask` gives what is to be asked next, and `hear` takes what a line tells; `begin_round` has the list of the
/// conferences and their words asked for again, of which no live line tells. A fault of `hear` is the end: it
/// is followed anew by a new `Follower`.
#[derive(Drop)]
pub struct Follower {
    alloc: Global,
    conferences: Vec<Conference>,
    asked: Option<Question>,
    rows: Facts,
    is_list_due: bool,
    has_list: bool,
}

impl Model for Follower {
    ghost use Rattle.floor_follow.specs.Following.{Following};

    ghost Value = { Following };

    ghost view = { λ f. record {
      conferences = f.conferences.items;
      asked = f.asked;
      rows = f.rows;
      is_list_due = f.is_list_due;
      has_list = f.has_list;
    } };
}

impl Follower {
    /// Nothing was asked, and nothing is known. Takes no memory.
    pub fn new(alloc: Global) -> Follower
        ensures value { result ≡ spec.nothing_known }
    {
        Follower {
            alloc,
            conferences: Vec::new(alloc),
            asked: None,
            rows: Facts::new(alloc),
            is_list_due: true,
            has_list: false,
        }
    }

    /// The conferences, in the order in which they were listed first.
    pub fn conferences(&self) -> &[Conference]
        ensures value { result.now ≡ self.now.conferences }
    {
        self.conferences.as_slice()
    }

    /// The conference with this number.
    pub fn conference(&self, number: u32) -> Option<&Conference>
        ensures found { option_copied result ≡ find (spec.is_number number) self.now.conferences }
    {
        self.conferences
            .iter()
            .find(|conference| conference.number == number)
    }

    /// Whether all was told that is asked first: the list, and of each conference what it has.
    pub fn is_whole(&self) -> bool
        ensures value { result ≡ spec.is_whole self.now }
    {
        self.has_list && all_followed(self.conferences.as_slice())
    }

    /// Has the list of the conferences and their words asked for again.
    pub fn begin_round(&mut self)
        ensures next { self.new ≡ spec.round_begun self.old }
    {
        self.is_list_due = true;
        begin_rounds(&mut self.conferences);
    }

    /// What is to be asked next, which is then taken as asked; nothing while an answer is awaited.
    pub fn ask(&mut self) -> Option<Question>
        ensures value { result ≡ spec.question self.old }
        ensures next { self.new ≡ spec.with_asked self.old }
    {
        if self.asked.is_some() {
            return None;
        }
        if self.is_list_due {
            self.is_list_due = false;
            begin_list(&mut self.conferences);
            self.asked = Some(Question::List);
            return self.asked;
        }
        self.asked = first_question(self.conferences.as_slice());
        self.asked
    }

    /// Takes what a line tells. `Unasked` where the line belongs to no answer of what was asked.
    pub fn hear(&mut self, told: Told) -> Result<(), FollowFault>
        ensures took { OnOk result (spec.heard self.old told ≡ Ok self.new) }
        ensures refused { IfErr result (λ fault. (fault ≡ Memory)
            ⊎ (spec.heard self.old told ≡ Err fault)) }
        ensures left { result ≡ Err Unasked → self.new ≡ self.old }
    {
        match told {
            Told::Live { conference, change } => {
                change_in(&mut self.conferences, conference, change)?;
                Ok(())
            }
            Told::Row(facts) => self.take_row(facts),
            Told::Listed(listed) => self.list(listed),
            Told::End { next } => self.end(next),
            Told::Done => self.done(),
            Told::Refused => self.refused(),
        }
    }

    /// Takes a line of an answer.
    fn take_row(&mut self, facts: Facts) -> Result<(), FollowFault>
        ensures took { OnOk result (spec.with_row facts self.old ≡ Ok self.new) }
        ensures refused { IfErr result (λ fault. (fault ≡ Memory)
            ⊎ (spec.with_row facts self.old ≡ Err fault)) }
        ensures left { result ≡ Err Unasked → self.new ≡ self.old }
    {
        match self.asked {
            None | Some(Question::List) | Some(Question::Watch { .. }) => Err(FollowFault::Unasked),
            Some(_) => {
                self.rows.extend(facts)?;
                Ok(())
            }
        }
    }

    /// Takes a line of the list.
    fn list(&mut self, listed: Listed) -> Result<(), FollowFault>
        ensures took { OnOk result (spec.with_listed listed self.old ≡ Ok self.new) }
        ensures refused { IfErr result (λ fault. (fault ≡ Memory)
            ⊎ (spec.with_listed listed self.old ≡ Err fault)) }
        ensures left { result ≡ Err Unasked → self.new ≡ self.old }
    {
        match self.asked {
            Some(Question::List) => {
                list_in(self.alloc, &mut self.conferences, listed)?;
                Ok(())
            }
            _ => Err(FollowFault::Unasked),
        }
    }

    /// Takes the end of an answer.
    fn end(&mut self, next: Option<u64>) -> Result<(), FollowFault>
        ensures took { OnOk result (spec.with_end next self.old ≡ Ok self.new) }
        ensures refused { IfErr result (λ fault. (fault ≡ Memory)
            ⊎ (spec.with_end next self.old ≡ Err fault)) }
        ensures left { result ≡ Err Unasked → self.new ≡ self.old }
    {
        match self.asked {
            None | Some(Question::Watch { .. }) => Err(FollowFault::Unasked),
            Some(Question::List) => {
                end_list(&mut self.conferences);
                self.has_list = true;
                self.asked = None;
                Ok(())
            }
            Some(
                Question::Floors(conference)
                | Question::Users(conference)
                | Question::Members(conference)
                | Question::Words(conference),
            ) => {
                self.answer(conference, next)?;
                Ok(())
            }
        }
    }

    /// Takes it that what was asked is done.
    fn done(&mut self) -> Result<(), FollowFault>
        ensures took { OnOk result (spec.with_done self.old ≡ Ok self.new) }
        ensures refused { IfErr result (λ fault. (fault ≡ Memory)
            ⊎ (spec.with_done self.old ≡ Err fault)) }
        ensures left { result ≡ Err Unasked → self.new ≡ self.old }
    {
        match self.asked {
            Some(Question::Watch { conference, .. }) => {
                self.answer(conference, None)?;
                Ok(())
            }
            _ => Err(FollowFault::Unasked),
        }
    }

    /// Takes the rows that were told as the whole answer about a conference.
    fn answer(&mut self, conference: u32, next: Option<u64>) -> Result<(), AllocError>
        ensures took { OnOk result (self.new ≡ spec.with_answer conference next self.old) }
    {
        let rows = std::mem::replace(&mut self.rows, Facts::new(self.alloc));
        answer_in(&mut self.conferences, conference, rows, next)?;
        self.asked = None;
        Ok(())
    }

    /// Takes it that what was asked isn't done: the conference is asked for anew, where it is listed again.
    fn refused(&mut self) -> Result<(), FollowFault>
        ensures took { OnOk result (spec.with_refusal self.old ≡ Ok self.new) }
        ensures refused { IfErr result (λ fault. (fault ≡ Memory)
            ⊎ (spec.with_refusal self.old ≡ Err fault)) }
        ensures left { result ≡ Err Unasked → self.new ≡ self.old }
    {
        match self.asked {
            None | Some(Question::List) => Err(FollowFault::Unasked),
            Some(
                Question::Floors(conference)
                | Question::Users(conference)
                | Question::Members(conference)
                | Question::Words(conference)
                | Question::Watch { conference, .. },
            ) => {
                self.asked = None;
                self.rows = Facts::new(self.alloc);
                drop_conference(&mut self.conferences, conference);
                Ok(())
            }
        }
    }
}

/// Whether of each conference all was told that is asked first.
fn all_followed(conferences: &[Conference]) -> bool
    ensures value { result ≡ list_all is_followed conferences.now }
{
    conferences
        .iter()
        .all(|conference| conference.is_followed())
}

/// A new round begins for each conference.
fn begin_rounds(conferences: &mut Vec<Conference>)
    ensures next { conferences.new.items ≡ map due conferences.old.items }
{
    for conference in conferences.iter_mut() {
        conference.begin_round();
    }
}

/// No conference is listed yet.
fn begin_list(conferences: &mut Vec<Conference>)
    ensures next { conferences.new.items ≡ map spec.unlisted conferences.old.items }
{
    for conference in conferences.iter_mut() {
        unlist(conference);
    }
}

fn unlist(conference: &mut Conference)
    ensures next { conference.new ≡ spec.unlisted conference.old }
{
    conference.is_listed = false;
}

/// The list has ended: a conference that isn't in it was forgotten.
fn end_list(conferences: &mut Vec<Conference>)
    ensures next { conferences.new.items ≡ filter (λ k. k.is_listed) conferences.old.items }
{
    conferences.retain(|conference| conference.is_listed);
}

/// The question of the first conference of which something is to be asked.
fn first_question(conferences: &[Conference]) -> Option<Question>
    ensures value { result ≡ spec.first_question conferences.now }
{
    match first_due(conferences) {
        None => None,
        Some(conference) => question_of(conference),
    }
}

fn first_due(conferences: &[Conference]) -> Option<&Conference>
    ensures found { option_copied result ≡ find spec.is_due conferences.now }
{
    conferences.iter().find(|conference| is_due(conference))
}

/// Whether something is to be asked of a conference.
fn is_due(conference: &Conference) -> bool
    ensures value { result ≡ spec.is_due conference.now }
{
    !matches!(conference.stage, Stage::Followed)
}

/// What is to be asked of a conference.
fn question_of(conference: &Conference) -> Option<Question>
    ensures value { result ≡ spec.question_of conference.now }
{
    let number = conference.number;
    match conference.stage {
        Stage::Floors => Some(Question::Floors(number)),
        Stage::Users => Some(Question::Users(number)),
        Stage::Members => Some(Question::Members(number)),
        Stage::Words | Stage::Again => Some(Question::Words(number)),
        Stage::Watch => Some(Question::Watch {
            conference: number,
            from: conference.from,
        }),
        Stage::Followed => None,
    }
}

/// Where the first conference with the number stands.
fn place_of(conferences: &[Conference], number: u32) -> Option<usize>
    ensures found { result ≡ position (spec.is_number number) conferences.now }
{
    conferences
        .iter()
        .position(|conference| conference.number == number)
}

/// Takes what a live line changes in its conference. What is told of one that isn't known changes nothing.
fn change_in(
    conferences: &mut Vec<Conference>,
    number: u32,
    change: Change,
) -> Result<(), AllocError>
    ensures next { OnOk result (conferences.new.items
        ≡ spec.over_first (spec.is_number number) (changed change) conferences.old.items) }
{
    match place_of(conferences, number) {
        None => Ok(()),
        Some(place) => conferences[place].change(change),
    }
}

/// Takes the answer of what was asked of a conference.
fn answer_in(
    conferences: &mut Vec<Conference>,
    number: u32,
    rows: Facts,
    next: Option<u64>,
) -> Result<(), AllocError>
    ensures next { OnOk result (conferences.new.items
        ≡ spec.over_first (spec.is_number number) (answered rows next) conferences.old.items) }
{
    match place_of(conferences, number) {
        None => Ok(()),
        Some(place) => conferences[place].take_answer(rows, next),
    }
}

/// Takes it that a conference is listed.
fn list_in(
    alloc: Global,
    conferences: &mut Vec<Conference>,
    listed: Listed,
) -> Result<(), AllocError>
    ensures next { OnOk result (conferences.new.items
        ≡ spec.listed_in listed conferences.old.items) }
{
    let Listed {
        conference,
        phase,
        events,
    } = listed;
    match place_of(conferences, conference) {
        None => push(
            conferences,
            Conference::new(alloc, conference, phase, events),
        ),
        Some(place) => {
            conferences[place].list(phase, events);
            Ok(())
        }
    }
}

fn push(conferences: &mut Vec<Conference>, conference: Conference) -> Result<(), AllocError>
    ensures next { OnOk result (conferences.new.items ≡ conferences.old.items ++ conference ∷ []) }
{
    match conferences.push(conference) {
        Ok(()) => Ok(()),
        Err(AllocFailed { value: _ }) => Err(AllocError),
    }
}

/// Drops a conference: where it is listed again it is asked for from the beginning.
fn drop_conference(conferences: &mut Vec<Conference>, number: u32)
    ensures next { conferences.new.items
        ≡ filter (λ k. not (k.number == number)) conferences.old.items }
{
    conferences.retain(|conference| conference.number != number);
}
