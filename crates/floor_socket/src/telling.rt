//! What the loops answer, and what follows for the line that asked.

ghost use Rattle.std.specs.Prelude.{◌≡◌, ◌≤◌, ◌<◌, ◌+◌, ◌==◌, ℕ, Err, None, Ok, Some, if◌then◌else◌, length};
ghost use Rattle.floor_control.specs.declared.refusal.ControlRefusal.TheVariants.{BadPlace};
ghost use Rattle.floor_socket.specs.Counting.{counted};

use crate::desk::{CONSOLE, Desk};
use crate::forgetting::check_over;
use crate::lines::refused;
use crate::task::{Journal, List, Step, Task, Then, Went};
use floor_control::{
    ControlRefusal, Metrics, Standing, Status, add_done, add_end, add_forgotten, add_metrics,
    add_standing, add_watching,
};
use floor_poll::{Answer, Asked, Asker, Lines, Question, both};
use std::alloc::AllocError;
use std::fs::File;
use std::mem;
use std::net::Net;
use std::rt::Files;
use std::sync::Wait;
use std::thread::Threads;
use std::time::Clock;

/// How long lines at work are answered once none of the conferences is open, in milliseconds.
const ANSWER_MILLIS: u64 = 1_000;

/// How many conferences are listed at a time.
const MAX_LISTED: usize = 256;

impl<R> Desk<R>
where
    R: Net
        + Files<File = File>
        + AllocGlobal
        + Clock
        + Threads
        + Wait
        + Copy
        + Drop
        + Send
        + 'static,
{
    /// Takes what a loop answers.
    pub fn take_answer(&mut self, asker: Asker, answer: Answer) {
        match asker {
            Asker::Line { client } => self.take_for(client, answer),
            Asker::Opening { client, conference } => {
                self.settle_opening(conference, &answer);
                self.take_for(client, answer);
            }
            Asker::Forgetting { client, conference } => {
                self.settle_forgetting(conference, &answer);
                self.take_for(client, answer);
            }
            Asker::Behind { client, number } => self.take_behind(client, number, answer),
            Asker::Followers { conference, number } => {
                self.take_events(conference, number, answer);
            }
            Asker::Drain => self.take_drained(),
        }
    }

    /// Takes what a loop answers to the line that a client has at work.
    fn take_for(&mut self, number: u64, answer: Answer) {
        let Some(seat) = self.clients.get_mut(&number) else {
            return;
        };
        let Some(task) = seat.task.take() else {
            return;
        };
        let went = self.answered(number, task, answer);
        let _moved = self.put_back(number, went);
        self.queue(number);
    }

    /// What follows from an answer.
    fn answered(
        &mut self,
        number: u64,
        mut task: Task,
        answer: Answer,
    ) -> Result<Went, AllocError> {
        let step = mem::replace(&mut task.step, Step::End);
        let next = match answer {
            Answer::Done(done) => self.done(number, &mut task, step, done),
            Answer::Stands(status, is_unkept) => {
                self.stood(number, &mut task, step, status, is_unkept)
            }
            Answer::Lines(lines) => listed(&mut task, step, lines),
            Answer::Standings(found) => stood_together(step, found),
            Answer::Counts(counts) => Ok(counted(step, counts)),
            Answer::Events(_piece) => Ok(step),
            Answer::Drained => Ok(step),
            Answer::Stopped(_report) => Ok(step),
            Answer::Resumed(_outcome) => Ok(step),
            Answer::Lost(_fault) => Ok(step),
        };
        match next {
            Ok(step) => {
                task.step = step;
                Ok(Went::On(task))
            }
            Err(refusal) => refused(task, refusal),
        }
    }

    /// What follows where something was done to a conference, whose place in the journal this is.
    fn done(
        &mut self,
        number: u64,
        task: &mut Task,
        step: Step,
        done: Result<u32, ControlRefusal>,
    ) -> Result<Step, ControlRefusal> {
        let place = done?;
        match step {
            Step::Opening { configs, count } => Ok(Step::Open {
                configs,
                count: count.saturating_add(1),
            }),
            Step::Acting { conference, done } => {
                let told = place_told(number, place);
                add_done(&mut task.text, conference, done, told)?;
                Ok(Step::Hold {
                    conference,
                    place: u64::from(place),
                })
            }
            Step::Wording {
                conference,
                key,
                value,
            } => self.take_word(task, conference, key, value),
            Step::Forgetting { conference } => {
                add_forgotten(&mut task.text, conference)?;
                Ok(Step::End)
            }
            other => Ok(other),
        }
    }

    /// What follows where it is known how a conference stands.
    fn stood(
        &mut self,
        number: u64,
        task: &mut Task,
        step: Step,
        status: Result<Status, ControlRefusal>,
        is_unkept: bool,
    ) -> Result<Step, ControlRefusal> {
        let status = status?;
        let Step::Standing { conference, then } = step else {
            return Ok(step);
        };
        match then {
            Then::Status => {
                let standing = Standing {
                    conference,
                    status,
                    is_unkept,
                };
                add_standing(&mut task.text, standing)?;
                Ok(Step::End)
            }
            Then::Journal { from } => {
                let from = place_within(from.or(Some(1)), status)?;
                Ok(Step::Journal(Journal {
                    conference,
                    done: from.saturating_sub(1) as usize,
                    until: status.events as usize,
                }))
            }
            Then::Watch { from } => {
                let from = place_within(from, status)?;
                self.reserve_watch(number)?;
                add_watching(&mut task.text, conference, status.events.saturating_add(1))?;
                Ok(Step::Watch { conference, from })
            }
            Then::Forget => {
                check_over(status.phase)?;
                Ok(Step::Forget {
                    conference,
                    place: u64::from(status.events),
                })
            }
        }
    }

    /// Goes on with a journal: the next lines are asked for, and behind the last comes their number.
    pub fn journal_on(
        &mut self,
        number: u64,
        mut task: Task,
        journal: Journal,
    ) -> Result<Went, AllocError> {
        if journal.until <= journal.done {
            add_end(&mut task.text, journal.until)?;
            return Ok(Went::On(task));
        }
        let question = Question::Journal {
            conference: journal.conference,
            done: journal.done,
            until: journal.until,
        };
        match self.ask(number, journal.conference, Asked::Tell(question)) {
            Ok(()) => {
                task.step = Step::Listing(journal);
                Ok(Went::Waits(task))
            }
            Err(refusal) => refused(task, refusal),
        }
    }

    /// Goes on with the list: how the next conferences stand is asked of one loop after another.
    pub fn list_on(
        &mut self,
        number: u64,
        mut task: Task,
        mut list: List,
    ) -> Result<Went, AllocError> {
        if list.conferences.len() <= list.at {
            add_end(&mut task.text, list.count)?;
            return Ok(Went::On(task));
        }
        if self.server.loops() <= list.place {
            list.print(&mut task.text)?;
            task.step = Step::List(list);
            return Ok(Went::On(task));
        }
        let conferences = self.of_loop(&list)?;
        let place = list.place;
        list.place = place.saturating_add(1);
        let asked = Asked::Tell(Question::Standings { conferences });
        match self.send(place, Asker::Line { client: number }, asked) {
            Ok(()) => {
                task.step = Step::ListPart(list);
                Ok(Went::Waits(task))
            }
            Err(refusal) => refused(task, refusal),
        }
    }

    /// Those of the conferences that are listed next that the next loop has.
    fn of_loop(&self, list: &List) -> Result<Vec<u32>, AllocError> {
        let mut found = Vec::new(self.alloc);
        for conference in list.next() {
            if self.server.owner(*conference) == Some(list.place) {
                found.push(*conference)?;
            }
        }
        Ok(found)
    }

    /// Goes on with what was counted: one loop after another is asked.
    pub fn count_on(
        &mut self,
        number: u64,
        mut task: Task,
        place: usize,
        counts: Metrics,
    ) -> Result<Went, AllocError> {
        if self.server.loops() <= place {
            let refused = counts.refused.with(self.server.refused_at_doors());
            add_metrics(&mut task.text, Metrics { refused, ..counts })?;
            return Ok(Went::On(task));
        }
        let asked = Asked::Tell(Question::Counts);
        match self.send(place, Asker::Line { client: number }, asked) {
            Ok(()) => {
                task.step = Step::Counting { place, counts };
                Ok(Went::Waits(task))
            }
            Err(refusal) => refused(task, refusal),
        }
    }

    /// Takes it that none of a loop's conferences is open any more. Once that is so of all loops the server stops,
    /// a second later at most.
    fn take_drained(&mut self) {
        self.drained = self.drained.saturating_add(1);
        if self.server.loops() <= self.drained {
            self.stops_by = Some(self.now.saturating_add(ANSWER_MILLIS));
        }
    }
}

/// The place in a journal that a client is told; the console isn't.
fn place_told(number: u64, place: u32) -> Option<u32>
    ensures value { result ≡ (if number == CONSOLE then None else Some place) }
{
    if number == CONSOLE { None } else { Some(place) }
}

/// The place from which a journal is told: 1 at least and the next one at most; the next one where nothing is said.
fn place_within(from: Option<u64>, status: Status) -> Result<u64, ControlRefusal>
    ensures next { from ≡ None → result ≡ Ok (status.events + 1) }
    ensures from { (place : ℕ) → from ≡ Some place → 1 ≤ place → place ≤ status.events + 1
        → result ≡ Ok place }
    ensures none { from ≡ Some 0 → result ≡ Err BadPlace }
    ensures behind { (place : ℕ) → from ≡ Some place → status.events + 1 < place
        → result ≡ Err BadPlace }
{
    let next = u64::from(status.events).saturating_add(1);
    match from {
        None => Ok(next),
        Some(from) if 1 <= from && from <= next => Ok(from),
        Some(_) => Err(ControlRefusal::BadPlace),
    }
}

/// What follows where a loop has told lines.
fn listed(
    task: &mut Task,
    step: Step,
    lines: Result<Lines, ControlRefusal>,
) -> Result<Step, ControlRefusal> {
    let lines = lines?;
    task.text.push_str(lines.text.as_str())?;
    match step {
        Step::Listing(journal) => Ok(Step::Journal(Journal {
            done: journal.done.saturating_add(lines.added),
            ..journal
        })),
        Step::Lines => Ok(Step::End),
        other => Ok(other),
    }
}

/// What follows where a loop has told how some of its conferences stand.
fn stood_together(
    step: Step,
    found: Result<Vec<Standing>, ControlRefusal>,
) -> Result<Step, ControlRefusal> {
    let found = found?;
    match step {
        Step::ListPart(mut list) => {
            list.found.extend_from_slice(found.as_slice())?;
            Ok(Step::List(list))
        }
        other => Ok(other),
    }
}

/// What follows where a loop has told what it counted.
fn counted(step: Step, counts: Metrics) -> Step
    ensures value { result ≡ counted counts step }
{
    match step {
        Step::Counting {
            place,
            counts: before,
        } => Step::Count {
            place: place.saturating_add(1),
            counts: both(before, counts),
        },
        other => other,
    }
}

impl List {
    /// The conferences that are listed next.
    pub fn next(&self) -> &[u32]
        ensures few { length result.now ≤ 256 }
    {
        let rest = self.conferences.as_slice().get(self.at..).unwrap_or(&[]);
        rest.get(..MAX_LISTED).unwrap_or(rest)
    }

    /// Prints those that were found, in ascending order, and goes on behind them.
    fn print(&mut self, text: &mut String) -> Result<(), AllocError> {
        let len = self.next().len();
        for conference in self.next() {
            if let Some(one) = self.found.iter().find(|one| one.conference == *conference) {
                add_standing(text, *one)?;
            }
        }
        self.count = self.count.saturating_add(self.found.len());
        self.found.clear();
        self.at = self.at.saturating_add(len);
        self.place = 0;
        Ok(())
    }
}
