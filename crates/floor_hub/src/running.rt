//! Whole runs: a list of steps, from an empty hub on.

ghost use Rattle.std.specs.Prelude.{◌≡◌, ℕ, List, IfOk, MatchResult, OnErr};
ghost use Rattle.floor_hub.specs.declared.connection.Place.{Place as Placed};
ghost use Rattle.floor_hub.specs.declared.step.Answer.TheVariants.{Done, Refused, Said as HasSaid};
ghost use Rattle.floor_hub.specs.declared.step.Step.TheVariants.{Admin, Attach, Leave, Open, Piece, Say, Serve, Took};
ghost use Rattle.floor_hub.specs.Runs.{IsRunOf, queues_from};
ghost use Rattle.floor_hub.specs.steps.Running.{Goes, IsRunning, IsRunOn, StopsRun};
ghost use Rattle.floor_hub.specs.Calls.{answer_of};
ghost use Rattle.floor_hub.specs.World.{World};

use crate::connection::{ConnNo, Place};
use crate::hub::Hub;
use crate::refusal::HubRefusal;
use crate::step::{Answer, Served, Step};
use crate::transcript::{Answers, Queued, Queues, Transcript};
use floor_room::{Act, Config, Refusal, RoomRefusal, Said};
use std::alloc::{AllocError, Global};

/// A call of the run met want of memory.
#[derive(Clone, Copy, Debug, PartialEq, Eq)]
pub struct Memory;

impl From<AllocError> for Memory {
    fn from(_: AllocError) -> Self {
        Memory
    }
}

/// Runs the steps, one after another, from an empty hub: the answer to each, and all that was
/// queued to each arrival, also to one that left. `Memory` where any call inside met it.
pub fn run(alloc: Global, steps: &[Step]) -> Result<Transcript, Memory>
    ensures value { IfOk result (IsRunOf steps.now) }
{
    let mut hub = Hub::new(alloc);
    let mut answers = Vec::new(alloc);
    let mut places = Vec::new(alloc);
    for item in steps {
        let answer = step(&mut hub, alloc, item, &mut places)?;
        match answers.push(answer) {
            Ok(()) => {}
            Err(_) => return Err(Memory),
        }
    }
    match entries(&hub, alloc, &places) {
        Ok(queued) => Ok(Transcript {
            answers: Answers::from_vec(answers),
            queued: Queues::from_vec(queued),
        }),
        Err(_) => Err(Memory),
    }
}

/// An entry for each of these places, with all that waits for it.
fn entries(hub: &Hub, alloc: Global, places: &[Place]) -> Result<Vec<Queued>, AllocError>
    ensures value { (w : World) → IsRunning hub.now places.now w
        → IfOk result (λ v. v.items ≡ queues_from w.parts 1 w.places) }
{
    let mut entries = Vec::new(alloc);
    for place in places {
        let bytes = hub.queued_to(alloc, place.conference, place.n)?;
        let number = entries.len() as u64 + 1;
        entries.push(Queued {
            number,
            conference: place.conference,
            n: place.n,
            bytes,
        })?;
    }
    Ok(entries)
}

/// Does one step.
fn step(
    hub: &mut Hub,
    alloc: Global,
    step: &Step,
    places: &mut Vec<Place>,
) -> Result<Answer, Memory>
    ensures { Goes hub.old hub.new places.old.items places.new.items step.now result }
{
    match step {
        Step::Open(config) => open(hub, alloc, config),
        Step::Attach { conference, user } => attach(hub, alloc, *conference, *user, places),
        Step::Piece { number, bytes } => piece(hub, *number, bytes.as_slice()),
        Step::Serve(number) => serve(hub, *number),
        Step::Took { number, k } => took(hub, *number, *k),
        Step::Leave(number) => leave(hub, *number),
        Step::Admin { conference, act } => admin(hub, alloc, *conference, act),
        Step::Say {
            conference,
            user,
            message,
        } => say(hub, alloc, *conference, *user, message.as_slice()),
    }
}

fn open(hub: &mut Hub, alloc: Global, config: &Config) -> Result<Answer, Memory>
    ensures { (places : List Placed) → Goes hub.old hub.new places places (Open config.now) result }
{
    match config.copy(alloc) {
        Ok(copy) => done(hub.open(alloc, copy)),
        Err(_) => Err(Memory),
    }
}

fn attach(
    hub: &mut Hub,
    alloc: Global,
    conference: u32,
    user: u16,
    places: &mut Vec<Place>,
) -> Result<Answer, Memory>
    ensures { Goes hub.old hub.new places.old.items places.new.items (Attach conference user)
        result }
{
    match hub.attach(alloc, conference, user) {
        Ok(number) => match hub.place(number) {
            Some(place) => match places.push(place) {
                Ok(()) => Ok(Answer::Attached(number)),
                Err(_) => Err(Memory),
            },
            None => unreachable!(),
        },
        Err(refusal) => refused(refusal),
    }
}

fn piece(hub: &mut Hub, number: ConnNo, bytes: &[u8]) -> Result<Answer, Memory>
    ensures { (places : List Placed)
        → Goes hub.old hub.new places places (Piece number bytes.now) result }
{
    done(hub.piece(number, bytes))
}

fn serve(hub: &mut Hub, number: ConnNo) -> Result<Answer, Memory>
    ensures { (places : List Placed) → Goes hub.old hub.new places places (Serve number) result }
{
    served(hub.serve(number))
}

fn took(hub: &mut Hub, number: ConnNo, k: u32) -> Result<Answer, Memory>
    ensures { (places : List Placed) → Goes hub.old hub.new places places (Took number k) result }
{
    done(hub.took(number, k))
}

fn leave(hub: &mut Hub, number: ConnNo) -> Result<Answer, Memory>
    ensures { (places : List Placed) → Goes hub.old hub.new places places (Leave number) result }
{
    done(hub.leave(number))
}

fn admin(hub: &mut Hub, alloc: Global, conference: u32, act: &Act) -> Result<Answer, Memory>
    ensures { (places : List Placed)
        → Goes hub.old hub.new places places (Admin conference act.now) result }
{
    match act.copy(alloc) {
        Ok(copy) => done(hub.admin(conference, copy)),
        Err(_) => Err(Memory),
    }
}

fn say(
    hub: &mut Hub,
    alloc: Global,
    conference: u32,
    user: u16,
    message: &[u8],
) -> Result<Answer, Memory>
    ensures { (places : List Placed)
        → Goes hub.old hub.new places places (Say conference user message.now) result }
{
    said(hub.say(alloc, conference, user, message))
}

/// The answer that a refusal is, unless it is want of memory, now or before.
fn refused(refusal: HubRefusal) -> Result<Answer, Memory>
    ensures value { IfOk result (λ a. (a ≡ Refused refusal) × IsRunOn refusal) }
    ensures memory { OnErr result (StopsRun refusal) }
{
    match refusal {
        HubRefusal::Memory => Err(Memory),
        HubRefusal::ByRoom(RoomRefusal::Refused(Refusal::Memory)) => Err(Memory),
        HubRefusal::ByRoom(RoomRefusal::Refused(Refusal::Broken)) => Err(Memory),
        refusal => Ok(Answer::Refused(refusal)),
    }
}

fn done(outcome: Result<(), HubRefusal>) -> Result<Answer, Memory>
    ensures value { IfOk result (λ a. MatchResult outcome (λ _. a ≡ Done)
        (λ r. (a ≡ Refused r) × IsRunOn r)) }
    ensures memory { OnErr result (MatchResult outcome (λ _. ⊥) StopsRun) }
{
    match outcome {
        Ok(()) => Ok(Answer::Done),
        Err(refusal) => refused(refusal),
    }
}

fn served(outcome: Result<Served, HubRefusal>) -> Result<Answer, Memory>
    ensures value { IfOk result (λ a. MatchResult outcome (λ found. a ≡ answer_of found)
        (λ r. (a ≡ Refused r) × IsRunOn r)) }
    ensures memory { OnErr result (MatchResult outcome (λ _. ⊥) StopsRun) }
{
    match outcome {
        Ok(Served::Nothing) => Ok(Answer::Nothing),
        Ok(Served::Message) => Ok(Answer::Served),
        Err(refusal) => refused(refusal),
    }
}

fn said(outcome: Result<Said, HubRefusal>) -> Result<Answer, Memory>
    ensures value { IfOk result (λ a. MatchResult outcome (λ said. a ≡ HasSaid said)
        (λ r. (a ≡ Refused r) × IsRunOn r)) }
    ensures memory { OnErr result (MatchResult outcome (λ _. ⊥) StopsRun) }
{
    match outcome {
        Ok(said) => Ok(Answer::Said(said)),
        Err(refusal) => refused(refusal),
    }
}
