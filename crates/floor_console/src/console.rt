//! A line is carried out, and answered.

ghost use Rattle.std.specs.Prelude.{◌≡◌, ◌≢◌, ◌⊎◌, Err, IfOk, Ok, OnErr, Result, string_bytes};
ghost use Rattle.floor_console.specs.declared.command.ConsoleFault.TheVariants.{Memory};
ghost use Rattle.floor_console.specs.declared.board.StopRefusal.{StopRefusal};
ghost use Rattle.floor_console.specs.declared.board.Stopped.{Stopped};
ghost use Rattle.floor_console.specs.Answer.{Answers, Did, Gave, Tells, chair_set, closed, floor_added, listed, opened, revoked, stands, stopped, user_added};
ghost use Rattle.floor_console.specs.Command.{command_of};

use crate::answer;
use crate::board::{Board, BoardRefusal};
use crate::command::{Command, ConsoleFault, parse_line};
use floor_config::{Floor, Text, User};
use std::alloc::{AllocError, Global};

/// Carries out a line, which has no line feed, and gives the text that answers it: lines that each
/// end with a line feed, none for an empty line.
///
/// A refusal is part of the text. `Err` is want of memory, here or on the board: the line is
/// carried out or not, and its answer is lost.
pub fn run_line<B: Board>(alloc: Global, board: &mut B, line: &str) -> Result<String, AllocError>
    ensures value { IfOk result (λ text. Answers B.opens B.closes B.revokes B.adds_user B.adds_floor B.sets_chair
        B.stands B.lists B.stops
        (command_of line.now) board.old (string_bytes text) board.new) }
    ensures left { OnErr result ((board.new ≡ board.old)
        ⊎ Did B.opens B.closes B.revokes B.adds_user B.adds_floor B.sets_chair
        B.stands B.lists B.stops
        (command_of line.now) board.old board.new) }
{
    let command = parse_line(alloc, line);
    run_command(alloc, board, command)
}

/// Carries out what `parse_line` gave for a line, and gives the text that answers the line, as `run_line`
/// does. With it a board that has to do something ahead of a command reads the line but once.
pub fn run_command<B: Board>(
    alloc: Global,
    board: &mut B,
    command: Result<Command, ConsoleFault>,
) -> Result<String, AllocError>
    ensures read { IfOk result (λ _. command ≢ Err Memory) }
    ensures value { IfOk result (λ text. Answers B.opens B.closes B.revokes B.adds_user B.adds_floor B.sets_chair
        B.stands B.lists B.stops
        command board.old (string_bytes text) board.new) }
    ensures left { OnErr result ((board.new ≡ board.old)
        ⊎ Did B.opens B.closes B.revokes B.adds_user B.adds_floor B.sets_chair
        B.stands B.lists B.stops
        command board.old board.new) }
{
    match command {
        Ok(command) => carry_out(alloc, board, command),
        Err(ConsoleFault::Memory) => Err(AllocError),
        Err(fault) => answer::faulty(alloc, fault),
    }
}

fn carry_out<B: Board>(alloc: Global, board: &mut B, command: Command) -> Result<String, AllocError>
    ensures value { IfOk result (λ text. Answers B.opens B.closes B.revokes B.adds_user B.adds_floor B.sets_chair
        B.stands B.lists B.stops
        (Ok command) board.old (string_bytes text) board.new) }
    ensures left { OnErr result
        (Did B.opens B.closes B.revokes B.adds_user B.adds_floor B.sets_chair
        B.stands B.lists B.stops
        (Ok command) board.old board.new) }
{
    match command {
        Command::Empty => Ok(String::new(alloc)),
        Command::Open { path } => open(alloc, board, &path),
        Command::Close { conference } => close(alloc, board, conference),
        Command::Revoke {
            conference,
            request,
        } => revoke(alloc, board, conference, request),
        Command::AddUser { conference, user } => add_user(alloc, board, conference, user),
        Command::AddFloor { conference, floor } => add_floor(alloc, board, conference, floor),
        Command::SetChair {
            conference,
            floor,
            chair,
        } => set_chair(alloc, board, conference, floor, chair),
        Command::Status { conference } => status(alloc, board, conference),
        Command::Journal { conference } => journal(alloc, board, conference),
        Command::Stop => stop(alloc, board),
    }
}

fn open<B: Board>(alloc: Global, board: &mut B, path: &Text) -> Result<String, AllocError>
    ensures value { IfOk result (λ text.
        Tells (λ a. B.opens board.old path.now a board.new) opened (string_bytes text)) }
    ensures left { OnErr result (Gave (λ a. B.opens board.old path.now a board.new)) }
{
    match board.open(path.as_str()) {
        Ok(count) => answer::opened(alloc, count),
        Err(refusal) => answer::refused(alloc, refusal),
    }
}

fn close<B: Board>(alloc: Global, board: &mut B, conference: u32) -> Result<String, AllocError>
    ensures value { IfOk result (λ text.
        Tells (λ a. B.closes board.old conference a board.new)
        (closed conference) (string_bytes text)) }
    ensures left { OnErr result (Gave (λ a. B.closes board.old conference a board.new)) }
{
    match board.close(conference) {
        Ok(()) => answer::closed(alloc, conference),
        Err(refusal) => answer::refused(alloc, refusal),
    }
}

fn revoke<B: Board>(
    alloc: Global,
    board: &mut B,
    conference: u32,
    request: u16,
) -> Result<String, AllocError>
    ensures value { IfOk result (λ text.
        Tells (λ a. B.revokes board.old conference request a board.new)
        (revoked conference request) (string_bytes text)) }
    ensures left { OnErr result (Gave (λ a. B.revokes board.old conference request a board.new)) }
{
    match board.revoke(conference, request) {
        Ok(()) => answer::revoked(alloc, conference, request),
        Err(refusal) => answer::refused(alloc, refusal),
    }
}

fn add_user<B: Board>(
    alloc: Global,
    board: &mut B,
    conference: u32,
    user: User,
) -> Result<String, AllocError>
    ensures value { IfOk result (λ text.
        Tells (λ a. B.adds_user board.old conference user a board.new)
        (user_added conference user.id) (string_bytes text)) }
    ensures left { OnErr result (Gave (λ a. B.adds_user board.old conference user a board.new)) }
{
    let id = user.id;
    match board.add_user(conference, user) {
        Ok(()) => answer::user_added(alloc, conference, id),
        Err(refusal) => answer::refused(alloc, refusal),
    }
}

fn add_floor<B: Board>(
    alloc: Global,
    board: &mut B,
    conference: u32,
    floor: Floor,
) -> Result<String, AllocError>
    ensures value { IfOk result (λ text.
        Tells (λ a. B.adds_floor board.old conference floor a board.new)
        (floor_added conference floor.id) (string_bytes text)) }
    ensures left { OnErr result (Gave (λ a. B.adds_floor board.old conference floor a board.new)) }
{
    match board.add_floor(conference, floor) {
        Ok(()) => answer::floor_added(alloc, conference, floor.id),
        Err(refusal) => answer::refused(alloc, refusal),
    }
}

fn set_chair<B: Board>(
    alloc: Global,
    board: &mut B,
    conference: u32,
    floor: u16,
    chair: Option<u16>,
) -> Result<String, AllocError>
    ensures value { IfOk result (λ text.
        Tells (λ a. B.sets_chair board.old conference floor chair a board.new)
        (chair_set conference floor) (string_bytes text)) }
    ensures left { OnErr result
        (Gave (λ a. B.sets_chair board.old conference floor chair a board.new)) }
{
    match board.set_chair(conference, floor, chair) {
        Ok(()) => answer::chair_set(alloc, conference, floor),
        Err(refusal) => answer::refused(alloc, refusal),
    }
}

fn status<B: Board>(alloc: Global, board: &mut B, conference: u32) -> Result<String, AllocError>
    ensures value { IfOk result (λ text.
        Tells (λ a. B.stands board.old conference a board.new)
        (stands conference) (string_bytes text)) }
    ensures left { OnErr result (Gave (λ a. B.stands board.old conference a board.new)) }
{
    match board.status(conference) {
        Ok(status) => answer::standing(alloc, conference, status),
        Err(refusal) => answer::refused(alloc, refusal),
    }
}

fn journal<B: Board>(alloc: Global, board: &mut B, conference: u32) -> Result<String, AllocError>
    ensures value { IfOk result (λ text.
        Tells (λ a. B.lists board.old conference a board.new) listed (string_bytes text)) }
    ensures left { OnErr result (Gave (λ a. B.lists board.old conference a board.new)) }
{
    match board.journal(conference) {
        Ok(text) => String::from_str(alloc, text.as_str()),
        Err(refusal) => answer::refused(alloc, refusal),
    }
}

fn stop<B: Board>(alloc: Global, board: &mut B) -> Result<String, AllocError>
    ensures value { IfOk result (λ text. (a : Result Stopped StopRefusal)
        × B.stops board.old a board.new × (string_bytes text ≡ stopped a)) }
    ensures left { OnErr result (Gave (λ a. B.stops board.old a board.new)) }
{
    match board.stop() {
        Ok(outcome) => answer::stopped(alloc, outcome),
        Err(refusal) => answer::stop_refused(alloc, refusal),
    }
}
