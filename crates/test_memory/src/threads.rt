//! The calls that a server's threads make in two conferences, one after another: with threads of their
//! own the Nth allocation would be another one each time.

use crate::run::{Ended, TRIES, allocate, print_bytes};
use crate::step::{CONFERENCES, CONFIGURATION, STEPS, Step, StepRefusal, message_in};
use floor_config::read_configs;
use floor_serve::{
    Act, Config, FinishFault, FreePass, Marked, MemberTaker, Registry, Report, Seat, Taken, finish,
    read_loop,
};
use std::alloc::Global;
use std::io::Write;
use std::sync::Wait;

/// How many members join, and how many parcels wait for one of them, at most.
const MAX_MEMBERS: usize = 6;

const MAX_PARCELS: u32 = 64;

/// Two conferences, and the seats of all that joined, with what takes the parcels of each at the same
/// place.
#[derive(Drop)]
struct Server {
    alloc: Global,
    configs: Vec<Config>,
    registry: Registry,
    seats: Vec<Seat>,
    takers: Vec<MemberTaker>,
}

/// Makes so many allocations, does each step in each conference, and prints behind it how the conference
/// stands, how many messages each seat has, what each member takes and what the end would find; and what
/// is refused.
pub fn run<R: Wait, W: Write, E: Write>(
    rt: &R,
    alloc: Global,
    ahead: u32,
    output: &mut W,
    errors: &mut E,
) -> Result<(), Ended> {
    let mut server = Server::new(alloc)?;
    allocate(alloc, ahead)?;
    for step in STEPS {
        server.go_on(rt, step, output, errors)?;
        server.print_end(rt, output)?;
    }
    Ok(())
}

impl Server {
    /// The server that has opened nothing yet.
    fn new(alloc: Global) -> Result<Server, Ended> {
        let mut configs = Vec::new(alloc);
        for conference in CONFERENCES {
            configs.push(config(alloc, conference)?)?;
        }
        Ok(Server {
            alloc,
            configs,
            registry: Registry::new(alloc),
            seats: Vec::with_capacity(alloc, MAX_MEMBERS)?,
            takers: Vec::with_capacity(alloc, MAX_MEMBERS)?,
        })
    }

    /// Does the step in each conference.
    fn go_on<R: Wait, W: Write, E: Write>(
        &mut self,
        rt: &R,
        step: Step,
        output: &mut W,
        errors: &mut E,
    ) -> Result<(), Ended> {
        for conference in CONFERENCES {
            for _ in 0..step.times() {
                self.play_twice(rt, conference, step, errors)?;
            }
            self.print(rt, conference, output)?;
        }
        Ok(())
    }

    /// Does a step, once more where it is refused: what memory was refused to has left the conference
    /// as it was, and is done then, or has broken it off.
    fn play_twice<R: Wait, E: Write>(
        &mut self,
        rt: &R,
        conference: u32,
        step: Step,
        errors: &mut E,
    ) -> Result<(), Ended> {
        for _ in 0..TRIES {
            match self.play(rt, conference, step) {
                Ok(()) => return Ok(()),
                Err(refusal) => {
                    writeln!(errors, "refused {} threads {conference}", refusal.name())?;
                }
            }
        }
        Ok(())
    }

    fn play<R: Wait>(&mut self, rt: &R, conference: u32, step: Step) -> Result<(), StepRefusal> {
        match step {
            Step::Open => self.open(rt, conference),
            Step::Join(user) => self.join(rt, conference, user),
            Step::Send(n, message, _) => match seat_of(&mut self.seats, conference, n) {
                Some(seat) => send(rt, &self.registry, seat, &message_in(conference, message)),
                None => Ok(()),
            },
            Step::Leave(n) => match seat_of(&mut self.seats, conference, n) {
                Some(seat) => leave(rt, &self.registry, seat),
                None => Ok(()),
            },
            Step::Took(n, parcels) => match taker_of(&self.takers, conference, n) {
                Some(taker) => Ok(taker.acknowledge(rt, parcels)?),
                None => Ok(()),
            },
            Step::Revoke(request) => self.admin(rt, conference, Act::Revoke(request)),
            Step::Close => self.admin(rt, conference, Act::Close),
        }
    }

    fn open<R: Wait>(&self, rt: &R, conference: u32) -> Result<(), StepRefusal> {
        for config in &self.configs {
            if config.conference() == conference {
                let config = config.copy(self.alloc)?;
                return Ok(self.registry.open(rt, config)?);
            }
        }
        Ok(())
    }

    fn join<R: Wait>(&mut self, rt: &R, conference: u32, user: u16) -> Result<(), StepRefusal> {
        let desk = self.registry.desk(rt, conference)?;
        let (seat, taker) = desk.join(rt, user)?;
        self.seats.push(seat)?;
        self.takers.push(taker)?;
        Ok(())
    }

    fn admin<R: Wait>(&self, rt: &R, conference: u32, act: Act) -> Result<(), StepRefusal> {
        let desk = self.registry.desk(rt, conference)?;
        Ok(desk.admin(rt, act)?)
    }

    /// Prints how a conference stands, and of each of its members the messages that its seat has and
    /// what it takes.
    fn print<R: Wait, W: Write>(
        &mut self,
        rt: &R,
        conference: u32,
        output: &mut W,
    ) -> Result<(), Ended> {
        write!(output, "threads {conference}")?;
        match self.registry.desk(rt, conference) {
            Ok(desk) => {
                let status = desk.status(rt);
                let (members, ongoing) = (status.members, status.ongoing);
                let (events, phase) = (status.events, status.phase.name());
                write!(output, " {phase} {members} {ongoing} {events}")?;
            }
            Err(refusal) => write!(output, " {}", refusal.name())?,
        }
        for (seat, taker) in self.seats.iter().zip(&mut self.takers) {
            if seat.conference() == conference {
                write!(output, " | {} {} ", seat.n(), seat.sent().len())?;
                print_taken(rt, taker, output)?;
            }
        }
        writeln!(output)?;
        Ok(())
    }

    /// Prints what the end would find.
    fn print_end<R: Wait, W: Write>(&self, rt: &R, output: &mut W) -> Result<(), Ended> {
        match finish(rt, &self.registry, &self.seats) {
            Ok(Report { seats, events }) => {
                writeln!(output, "threads end {seats} seats {events} events")?;
            }
            Err(FinishFault::Broken { conference }) => {
                writeln!(output, "threads end Broken {conference}")?;
            }
            Err(FinishFault::Mismatch { conference, n }) => {
                writeln!(output, "threads end Mismatch {conference} {n}")?;
            }
        }
        Ok(())
    }
}

/// The configuration of a conference.
fn config(alloc: Global, conference: u32) -> Result<Config, Ended> {
    let text = format!(in alloc; "[[conference]]\nid = {conference}\n{CONFIGURATION}")?;
    match read_configs(alloc, text.as_str()) {
        Ok(mut configs) => configs.pop().ok_or(Ended),
        Err(_) => Err(Ended),
    }
}

/// The seat of a member, if it has joined.
fn seat_of(seats: &mut Vec<Seat>, conference: u32, n: u32) -> Option<&mut Seat> {
    for seat in seats {
        if seat.conference() == conference && seat.n() == n {
            return Some(seat);
        }
    }
    None
}

/// What takes the parcels of a member, if it has joined.
fn taker_of(takers: &[MemberTaker], conference: u32, n: u32) -> Option<&MemberTaker> {
    takers
        .iter()
        .find(|taker| taker.conference() == conference && taker.n() == n)
}

/// Has a member send a message, which its reader reads and submits.
fn send<R: Wait>(
    rt: &R,
    registry: &Registry,
    seat: &mut Seat,
    message: &[u8],
) -> Result<(), StepRefusal> {
    let desk = registry.desk(rt, seat.conference())?;
    let mut source = Marked::new(message);
    let _end = read_loop(rt, &mut source, &desk, seat, &FreePass)?;
    Ok(())
}

fn leave<R: Wait>(rt: &R, registry: &Registry, seat: &mut Seat) -> Result<(), StepRefusal> {
    let desk = registry.desk(rt, seat.conference())?;
    Ok(desk.leave(rt, seat)?)
}

/// Prints what waits for a member, and whether more may come.
fn print_taken<R: Wait, W: Write>(
    rt: &R,
    taker: &mut MemberTaker,
    output: &mut W,
) -> Result<(), Ended> {
    for _ in 0..MAX_PARCELS {
        match taker.take(rt) {
            Taken::Parcel(parcel) => {
                print_bytes(parcel.header(), output)?;
                print_bytes(parcel.payload(), output)?;
            }
            Taken::Empty => {
                write!(output, ".")?;
                return Ok(());
            }
            Taken::Closed => {
                write!(output, ".closed")?;
                return Ok(());
            }
        }
    }
    Ok(())
}
