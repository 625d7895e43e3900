//! The conferences of a script, and what its lines are answered.

ghost use Rattle.std.specs.Prelude.{◌≡◌, ◌++◌, [], false, IfOk, MatchResult, OnOk, Ok, string_bytes};
ghost use Rattle.floor_hub.specs.Names.{is_memory};
ghost use Rattle.floor_hub.specs.World.{turn};
ghost use Rattle.floor_hub.specs.declared.step.Answer.TheVariants.{Done, Refused};
ghost use Rattle.floor_hub.specs.declared.step.Step.TheVariants as step;
ghost use Rattle.floor_script.specs.Answered.{answer_line, said_line, serve_all};
ghost use Rattle.floor_script.specs.State.{most_at_once};
ghost use Rattle.floor_script.specs.steps.Holding.{Acknowledges, AcknowledgesOne, Answers, IsOpened};

use crate::attached::{Attached, Pace};
use crate::line::Command;
use crate::script::MAX_TURNS;
use crate::waiting::{Taken, take_all};
use floor_hub::{Act, Answer, Config, Hub, HubRefusal, Said, Served};
use std::alloc::{AllocError, Global};

/// The conferences of a script. Between two lines nothing waits for a live connection that isn't slow,
/// and all that was taken is acknowledged.
#[derive(Drop)]
pub struct Conferences {
    alloc: Global,
    hub: Hub,
    attached: Attached,
}

impl Conferences {
    ghost use Rattle.floor_script.specs.Answered.{conference_of, told};
    ghost use Rattle.floor_script.specs.State.{State, begun};
    ghost use Rattle.floor_script.specs.declared.line.Command.TheVariants as commands;
    ghost use Rattle.floor_script.specs.steps.Standing.{Carries, Does, Leads, Prints, SetsPace, Stands, opened};

    pub fn new(alloc: Global) -> Conferences
        ensures value { Stands result (begun []) }
    {
        Conferences {
            alloc,
            hub: Hub::new(alloc),
            attached: Attached::new(alloc),
        }
    }

    /// Opens a conference. Nothing changes where another has its number.
    pub fn open(&mut self, config: Config) -> Result<(), AllocError>
        ensures took { OnOk result (Leads (opened config) self.old self.new) }
    {
        open_in(self.alloc, &mut self.hub, config)
    }

    /// Does what a line asks for, and gives what it prints: its answer, and then what waits for the live
    /// connections that aren't slow, of which so much is acknowledged. A refusal of the line is printed,
    /// one of an acknowledgement isn't, and want of memory of either is an error, after which nothing is
    /// said of the conferences.
    pub fn answer(&mut self, command: Command) -> Result<String, AllocError>
        ensures took { IfOk result
            (λ text. Does command self.old self.new (string_bytes text)) }
    {
        let conference = self.conference_of(&command);
        let answer = self.carry_out(command)?;
        let mut text = answer_line(self.alloc, answer)?;
        let taken = self.take_waiting(conference, &mut text)?;
        self.acknowledge(taken.as_slice())?;
        Ok(text)
    }

    /// The conference that a line is about: no other one's connections are sent anything.
    fn conference_of(&self, command: &Command) -> Option<u32>
        ensures value { (s : State) → Stands self.now s → result ≡ conference_of s command.now }
    {
        match command {
            Command::Attach { conference, .. }
            | Command::Admin { conference, .. }
            | Command::Say { conference, .. } => Some(*conference),
            Command::Piece { connection, .. }
            | Command::Serve { connection }
            | Command::Send { connection, .. }
            | Command::Leave { connection }
            | Command::Slow { connection }
            | Command::Fast { connection } => self.attached.conference_of(*connection),
        }
    }

    /// Does what a line asks for.
    fn carry_out(&mut self, command: Command) -> Result<Answer, AllocError>
        ensures took { IfOk result (λ answer. Carries command answer self.old self.new) }
    {
        match command {
            Command::Attach { conference, user } => self.attach(conference, user),
            Command::Piece { connection, bytes } => self.piece(connection, bytes.as_slice()),
            Command::Serve { connection } => self.serve(connection),
            Command::Send { connection, bytes } => self.send(connection, bytes.as_slice()),
            Command::Leave { connection } => self.leave(connection),
            Command::Slow { connection } => Ok(self.set_pace(connection, Pace::Slow)),
            Command::Fast { connection } => Ok(self.set_pace(connection, Pace::Fast)),
            Command::Admin { conference, act } => self.admin(conference, act),
            Command::Say {
                conference,
                user,
                message,
            } => self.say(conference, user, message.as_slice()),
        }
    }

    fn attach(&mut self, conference: u32, user: u16) -> Result<Answer, AllocError>
        ensures took { IfOk result
            (λ answer. Carries (commands.Attach conference user) answer self.old self.new) }
    {
        match attach_in(self.alloc, &mut self.hub, conference, user)? {
            Answer::Attached(connection) => {
                self.attached.add(conference, connection)?;
                Ok(Answer::Attached(connection))
            }
            answer => Ok(answer),
        }
    }

    fn piece(&mut self, connection: u64, bytes: &[u8]) -> Result<Answer, AllocError>
        ensures took { IfOk result
            (λ answer. Carries (commands.Piece connection bytes.now) answer self.old self.new) }
    {
        piece_in(&mut self.hub, connection, bytes)
    }

    fn serve(&mut self, connection: u64) -> Result<Answer, AllocError>
        ensures took { IfOk result
            (λ answer. Carries (commands.Serve connection) answer self.old self.new) }
    {
        serve_in(&mut self.hub, connection)
    }

    /// Hands bytes in, and serves the messages that are whole with them.
    fn send(&mut self, connection: u64, bytes: &[u8]) -> Result<Answer, AllocError>
        ensures took { IfOk result
            (λ answer. Carries (commands.Send connection bytes.now) answer self.old self.new) }
    {
        match piece_in(&mut self.hub, connection, bytes)? {
            Answer::Done => serve_all(&mut self.hub, connection),
            answer => Ok(answer),
        }
    }

    fn leave(&mut self, connection: u64) -> Result<Answer, AllocError>
        ensures took { IfOk result
            (λ answer. Carries (commands.Leave connection) answer self.old self.new) }
    {
        match leave_in(&mut self.hub, connection)? {
            Answer::Done => {
                self.attached.forget(connection);
                Ok(Answer::Done)
            }
            answer => Ok(answer),
        }
    }

    fn admin(&mut self, conference: u32, act: Act) -> Result<Answer, AllocError>
        ensures took { IfOk result
            (λ answer. Carries (commands.Admin conference act) answer self.old self.new) }
    {
        admin_in(&mut self.hub, conference, act)
    }

    fn say(&mut self, conference: u32, user: u16, message: &[u8]) -> Result<Answer, AllocError>
        ensures took { IfOk result
            (λ answer. Carries (commands.Say conference user message.now) answer self.old self.new) }
    {
        say_in(self.alloc, &mut self.hub, conference, user, message)
    }

    /// Says whether what a connection is sent waits. Refused by `NoConnection`.
    fn set_pace(&mut self, connection: u64, pace: Pace) -> Answer
        ensures took { SetsPace connection pace result self.old self.new }
    {
        if self.attached.set_pace(connection, pace) {
            Answer::Done
        } else {
            Answer::Refused(HubRefusal::NoConnection)
        }
    }

    /// Takes what waits in a conference for connections that aren't slow, those of each together, by
    /// ascending number, and adds its lines to the text. Gives how many parcels it took of each
    /// connection that had any.
    fn take_waiting(
        &mut self,
        conference: Option<u32>,
        text: &mut String,
    ) -> Result<Vec<Taken>, AllocError>
        ensures took { IfOk result (λ taken. Prints conference self.old self.new taken.items
            (string_bytes text.old) (string_bytes text.new)) }
    {
        let mut taken = Vec::new(self.alloc);
        match conference {
            None => Ok(taken),
            Some(conference) => {
                let lives = self.attached.live_in(conference);
                take_all(
                    self.alloc,
                    &mut self.hub,
                    conference,
                    lives,
                    &mut taken,
                    text,
                )?;
                Ok(taken)
            }
        }
    }

    /// Acknowledges what was taken.
    fn acknowledge(&mut self, taken: &[Taken]) -> Result<(), AllocError>
        ensures took { OnOk result (Leads (told taken.now) self.old self.new) }
    {
        acknowledge_in(&mut self.hub, taken)
    }
}

/// Opens a conference. Nothing changes where another has its number.
fn open_in(alloc: Global, hub: &mut Hub, config: Config) -> Result<(), AllocError>
    ensures took { OnOk result (IsOpened config hub.old hub.new) }
{
    match hub.open(alloc, config) {
        Ok(()) => Ok(()),
        Err(refusal) => {
            if refusal.is_memory() {
                return Err(AllocError);
            }
            Ok(())
        }
    }
}

fn attach_in(alloc: Global, hub: &mut Hub, conference: u32, user: u16) -> Result<Answer, AllocError>
    ensures took { IfOk result (λ answer.
        Answers (λ w. turn w (step.Attach conference user)) answer hub.old hub.new) }
{
    match hub.attach(alloc, conference, user) {
        Ok(connection) => Ok(Answer::Attached(connection)),
        Err(refusal) => refused(refusal),
    }
}

fn piece_in(hub: &mut Hub, connection: u64, bytes: &[u8]) -> Result<Answer, AllocError>
    ensures took { IfOk result (λ answer.
        Answers (λ w. turn w (step.Piece connection bytes.now)) answer hub.old hub.new) }
{
    match hub.piece(connection, bytes) {
        Ok(()) => Ok(Answer::Done),
        Err(refusal) => refused(refusal),
    }
}

fn serve_in(hub: &mut Hub, connection: u64) -> Result<Answer, AllocError>
    ensures took { IfOk result (λ answer.
        Answers (λ w. turn w (step.Serve connection)) answer hub.old hub.new) }
{
    match hub.serve(connection) {
        Ok(Served::Message) => Ok(Answer::Served),
        Ok(Served::Nothing) => Ok(Answer::Nothing),
        Err(refusal) => refused(refusal),
    }
}

/// Serves messages until none is whole or one is refused.
fn serve_all(hub: &mut Hub, connection: u64) -> Result<Answer, AllocError>
    ensures took { IfOk result (λ answer.
        Answers (serve_all most_at_once connection) answer hub.old hub.new) }
{
    for served in 0..MAX_TURNS {
        match serve_in(hub, connection)? {
            Answer::Served => {}
            Answer::Refused(refusal) => return Ok(Answer::Refused(refusal)),
            Answer::Nothing | Answer::Done | Answer::Attached(_) | Answer::Said(_) => {
                return Ok(Answer::Done);
            }
        }
    }
    Ok(Answer::Done)
}

fn leave_in(hub: &mut Hub, connection: u64) -> Result<Answer, AllocError>
    ensures took { IfOk result (λ answer.
        Answers (λ w. turn w (step.Leave connection)) answer hub.old hub.new) }
{
    match hub.leave(connection) {
        Ok(()) => Ok(Answer::Done),
        Err(refusal) => refused(refusal),
    }
}

fn admin_in(hub: &mut Hub, conference: u32, act: Act) -> Result<Answer, AllocError>
    ensures took { IfOk result (λ answer.
        Answers (λ w. turn w (step.Admin conference act)) answer hub.old hub.new) }
{
    match hub.admin(conference, act) {
        Ok(()) => Ok(Answer::Done),
        Err(refusal) => refused(refusal),
    }
}

fn say_in(
    alloc: Global,
    hub: &mut Hub,
    conference: u32,
    user: u16,
    message: &[u8],
) -> Result<Answer, AllocError>
    ensures took { IfOk result (λ answer.
        Answers (λ w. turn w (step.Say conference user message.now)) answer hub.old hub.new) }
{
    match hub.say(alloc, conference, user, message) {
        Ok(said) => Ok(Answer::Said(said)),
        Err(refusal) => refused(refusal),
    }
}

/// Acknowledges what was taken of connections, one after another. A conference that has ended or
/// whose journal is full takes no acknowledgement, and needs none, since it tells nobody anything more.
fn acknowledge_in(hub: &mut Hub, taken: &[Taken]) -> Result<(), AllocError>
    ensures took { OnOk result (Acknowledges taken.now hub.old hub.new) }
{
    for one in taken {
        acknowledge_one(hub, *one)?;
    }
    Ok(())
}

fn acknowledge_one(hub: &mut Hub, taken: Taken) -> Result<Answer, AllocError>
    ensures took { IfOk result (λ _. AcknowledgesOne taken hub.old hub.new) }
{
    match hub.took(taken.connection, taken.parcels) {
        Ok(()) => Ok(Answer::Done),
        Err(refusal) => refused(refusal),
    }
}

/// The answer of a call that was refused. Want of memory is an error.
fn refused(refusal: HubRefusal) -> Result<Answer, AllocError>
    ensures took { IfOk result (λ answer. (answer ≡ Refused refusal)
        × (is_memory refusal ≡ false)) }
{
    if refusal.is_memory() {
        return Err(AllocError);
    }
    Ok(Answer::Refused(refusal))
}

/// The line of an answer, where it has one.
fn answer_line(alloc: Global, answer: Answer) -> Result<String, AllocError>
    ensures { IfOk result (λ text. string_bytes text ≡ answer_line answer) }
{
    match answer {
        Answer::Attached(connection) => format!(in alloc; "attached {connection}\n"),
        Answer::Nothing => String::from_str(alloc, "nothing\n"),
        Answer::Refused(refusal) => {
            let name = refusal.name();
            format!(in alloc; "refused {name}\n")
        }
        Answer::Said(said) => said_line(alloc, &said),
        Answer::Done | Answer::Served => Ok(String::new(alloc)),
    }
}

/// The line of a message that was said, where something answers it.
fn said_line(alloc: Global, said: &Said) -> Result<String, AllocError>
    ensures { IfOk result (λ text. string_bytes text ≡ said_line said.now.reply) }
{
    match &said.reply {
        Some(reply) => {
            let header = hex::encode(alloc, reply.header())?;
            let payload = hex::encode(alloc, reply.payload())?;
            format!(in alloc; "said {header}{payload}\n")
        }
        None => Ok(String::new(alloc)),
    }
}
