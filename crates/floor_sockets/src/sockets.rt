//! The table of sockets.

ghost use Rattle.std.specs.Prelude.{◌≡◌, ◌≤◌, ◌<◌, ◌⊎◌, ℕ, All, Contains, IfNone, IfOk, IfSome, None, OnErr, OnOk, false, max, option_map, true, []};
ghost use Rattle.floor_sockets.specs.Life.{came, held, is_shutting, lent, none_came, one_came, over, put_off, served, taken, unblocked, worded};
ghost use Rattle.floor_sockets.specs.Sockets.{Changed, Closed, IsBounded, IsDone, IsDueOf, IsTurnOf, Left, Opens, Rests, accepts, goes_on, is_there, later, life_at, renamed_due, renamed_life, with_due};
ghost use Rattle.floor_sockets.specs.declared.deadlines.Deadline.{Deadline as Due};
ghost use Rattle.floor_sockets.specs.declared.life.Life.{Life as Known};

use crate::deadlines::Deadlines;
use crate::life::{Deed, Life};
use crate::role::Role;
use crate::rounds::Rounds;
use crate::turn::{due_in, next_in, set_in};
use slab::Slab;
use std::alloc::{AllocError, Global};
use std::marker::Model;

/// How long a socket that is to be shut down has to take what was lent to it, in microseconds: our choice.
pub const MAX_SHUT_MICROS: u64 = 10_000_000;

/// How long somebody at a door has to say who it is, in microseconds: our choice.
pub const MAX_HEADER_MICROS: u64 = 5_000_000;

/// How long a listener waits where an accept failed, as it does without a descriptor left, in microseconds.
pub const ACCEPT_AGAIN_MICROS: u64 = 100_000;

/// The sockets of a server, by slot, from their accept until they are shut.
///
/// - `open` gives a slot, and `shut` frees it.
/// - `readable` and `writable` are the poll's words; `lend`, `hold` and `become_role` what else is told of a socket.
/// - `next` says what is to be done; each deed is done at once, and its answer handed in by the call that `Deed` names,
///   before the next one is asked for.
/// - `end` has a socket shut once its time is over, `fail` at once; `time` is the clock, and `due` says when it is
///   wanted.
///
/// A slot without a socket, and an answer to what wasn't asked, change nothing. `open` alone may be refused memory, and
/// then nothing has changed: where the line of turns is refused it, the next turn behind those in line is anybody's of
/// whom anything is to be asked, until nothing is of any. Each slot waits for one turn, and has one deadline, at most.
#[derive(Drop)]
pub struct Sockets {
    lives: Slab<Life>,
    line: Rounds,
    deadlines: Deadlines,
    time: u64,
    /// Whether the line was refused memory, so that somebody may wait beside it.
    is_short: bool,
}

impl Model for Sockets {
    ghost use Rattle.floor_sockets.specs.Sockets.{Sockets};
    ghost use Rattle.floor_sockets.specs.steps.Listed.{IsSound};

    ghost Value = { Sockets };

    ghost view = { λ s. record {
      lives = s.lives.slots;
      line = s.line;
      deadlines = s.deadlines.items;
      time = s.time;
      is_short = s.is_short;
    } };

    ghost invariant = { λ s. IsSound s.lives s.line s.is_short s.deadlines };
}

impl Sockets {
    /// No socket. Takes no memory.
    pub fn new(alloc: Global) -> Sockets
        ensures lives { (slot : ℕ) → life_at result slot ≡ None }
        ensures deadlines { result.deadlines ≡ [] }
        ensures time { result.time ≡ 0 }
        ensures whole { result.is_short ≡ false }
    {
        Sockets {
            lives: Slab::new(alloc),
            line: Rounds::new(alloc),
            deadlines: Deadlines::new(alloc),
            time: 0,
            is_short: false,
        }
    }

    /// It is so late, in microseconds, unless it was later before.
    pub fn time(&mut self, now: u64)
        ensures next { self.new ≡ record self.old { time = max self.old.time now } }
    {
        self.time = self.time.max(now);
    }

    /// When the time is wanted next, in microseconds.
    pub fn due(&self) -> Option<u64>
        ensures found { IfSome result (λ until. (d : Due) × Contains self.now.deadlines d × (d.until ≡ until)) }
        ensures first { IfSome result (λ until. All (λ d. until ≤ d.until) self.now.deadlines) }
        ensures none { IfNone result (self.now.deadlines ≡ []) }

        ensures kept { IsBounded self.now }
    {
        self.deadlines.soonest()
    }

    /// What is known of the socket in this slot.
    pub fn get(&self, slot: usize) -> Option<Life>
        ensures value { result ≡ life_at self.now slot }
    {
        self.lives.get(slot).copied()
    }

    /// A socket that was accepted or listened on, for this, which shares its turns with these. Gives its slot, which
    /// no other has. Somebody at a door has five seconds.
    pub fn open(&mut self, role: Role, group: usize) -> Result<usize, AllocError>
        ensures took { IfOk result (Opens role group self.old self.new) }
        ensures left { OnErr result (Left self.old self.new) }
    {
        self.lives.reserve(1)?;
        self.deadlines.reserve(self.lives.len())?;
        let slot = self.lives.insert_reserved(Life::new(role, group));
        let until = self.time.saturating_add(MAX_HEADER_MICROS);
        self.deadlines.put(role.is_at_door(), slot, until);
        Ok(slot)
    }

    /// The poll told that something may be read, or somebody accepted, and whether the stream ends.
    pub fn readable(&mut self, slot: usize, ends: bool)
        ensures took { Changed (worded ends) slot self.old.deadlines self.old self.new }
    {
        match self.get(slot) {
            Some(life) => set_in(
                &mut self.lives,
                &mut self.line,
                &mut self.is_short,
                slot,
                life.worded(ends),
            ),
            None => {}
        }
    }

    /// The poll told that the socket takes bytes.
    pub fn writable(&mut self, slot: usize)
        ensures took { Changed unblocked slot self.old.deadlines self.old self.new }
    {
        match self.get(slot) {
            Some(life) => set_in(
                &mut self.lives,
                &mut self.line,
                &mut self.is_short,
                slot,
                life.unblocked(),
            ),
            None => {}
        }
    }

    /// Bytes are lent to be written to it from now on, or none.
    pub fn lend(&mut self, slot: usize, has_bytes: bool)
        ensures took { Changed (lent has_bytes) slot self.old.deadlines self.old self.new }
    {
        match self.get(slot) {
            Some(life) => set_in(
                &mut self.lives,
                &mut self.line,
                &mut self.is_short,
                slot,
                life.lent(has_bytes),
            ),
            None => {}
        }
    }

    /// It is neither read nor served from now on, as a client with an answer under way, or is again.
    pub fn hold(&mut self, slot: usize, is_held: bool)
        ensures took { Changed (held is_held) slot self.old.deadlines self.old self.new }
    {
        match self.get(slot) {
            Some(life) => set_in(
                &mut self.lives,
                &mut self.line,
                &mut self.is_short,
                slot,
                life.held(is_held),
            ),
            None => {}
        }
    }

    /// It is for something else from now on, and shares its turns with these; unless it is to be shut down. Who was at
    /// a door has its five seconds no more.
    pub fn become_role(&mut self, slot: usize, role: Role, group: usize)
        ensures took { Changed (renamed_life role group) slot
            (renamed_due slot (life_at self.old slot) self.old.deadlines) self.old self.new }
    {
        let Some(life) = self.get(slot) else {
            return;
        };
        if life.is_over {
            return;
        }
        set_in(
            &mut self.lives,
            &mut self.line,
            &mut self.is_short,
            slot,
            life.renamed(role, group),
        );
        self.deadlines.cancel_where(life.role.is_at_door(), slot);
    }

    /// A read found so many bytes, of which a turn has left messages over or hasn't.
    pub fn came(&mut self, slot: usize, count: usize, has_more: bool)
        ensures took { Changed (came count has_more) slot self.old.deadlines self.old self.new }
    {
        match self.get(slot) {
            Some(life) => set_in(
                &mut self.lives,
                &mut self.line,
                &mut self.is_short,
                slot,
                life.came(count, has_more),
            ),
            None => {}
        }
    }

    /// A read found nothing, or nobody waits to be accepted.
    pub fn nothing(&mut self, slot: usize)
        ensures took { Changed none_came slot self.old.deadlines self.old self.new }
    {
        match self.get(slot) {
            Some(life) => set_in(
                &mut self.lives,
                &mut self.line,
                &mut self.is_short,
                slot,
                life.none_came(),
            ),
            None => {}
        }
    }

    /// One was accepted at this listener: others may wait.
    pub fn accepted(&mut self, slot: usize)
        ensures took { Changed one_came slot self.old.deadlines self.old self.new }
    {
        match self.get(slot) {
            Some(life) => set_in(
                &mut self.lives,
                &mut self.line,
                &mut self.is_short,
                slot,
                life.one_came(),
            ),
            None => {}
        }
    }

    /// An accept failed at this listener, as it does without a descriptor left: it accepts again 100 milliseconds
    /// later.
    pub fn unaccepted(&mut self, slot: usize)
        ensures took { Changed put_off slot
            (with_due (accepts (life_at self.old slot)) slot (later self.old.time ACCEPT_AGAIN_MICROS)
            self.old.deadlines) self.old self.new }
    {
        let Some(life) = self.get(slot) else {
            return;
        };
        set_in(
            &mut self.lives,
            &mut self.line,
            &mut self.is_short,
            slot,
            life.put_off(),
        );
        let until = self.time.saturating_add(ACCEPT_AGAIN_MICROS);
        self.deadlines.put(life.is_accepting(), slot, until);
    }

    /// What a turn had left over was served, but for what it has left over.
    pub fn served(&mut self, slot: usize, has_more: bool)
        ensures took { Changed (served has_more) slot self.old.deadlines self.old self.new }
    {
        match self.get(slot) {
            Some(life) => set_in(
                &mut self.lives,
                &mut self.line,
                &mut self.is_short,
                slot,
                life.served(has_more),
            ),
            None => {}
        }
    }

    /// The socket took so many of the bytes that were lent. A count above what was lent counts as all of it. A write
    /// that fails takes none, and ends nothing.
    pub fn took(&mut self, slot: usize, count: usize, lent: usize)
        ensures took { Changed (taken count lent) slot self.old.deadlines self.old self.new }
    {
        match self.get(slot) {
            Some(life) => set_in(
                &mut self.lives,
                &mut self.line,
                &mut self.is_short,
                slot,
                life.taken(count, lent),
            ),
            None => {}
        }
    }

    /// It is to be shut down ten seconds later: until then what is lent is written, and nothing is read.
    pub fn end(&mut self, slot: usize)
        ensures took { Changed over slot
            (with_due (goes_on (life_at self.old slot)) slot (later self.old.time MAX_SHUT_MICROS)
            self.old.deadlines) self.old self.new }
    {
        let Some(life) = self.get(slot) else {
            return;
        };
        set_in(
            &mut self.lives,
            &mut self.line,
            &mut self.is_short,
            slot,
            life.over(),
        );
        let until = self.time.saturating_add(MAX_SHUT_MICROS);
        self.deadlines.put(!life.is_over, slot, until);
    }

    /// It is to be shut down at once: it has failed, or nothing is left to be written.
    pub fn fail(&mut self, slot: usize)
        ensures took { Changed over slot
            (with_due (is_there (life_at self.old slot)) slot self.old.time self.old.deadlines)
            self.old self.new }
    {
        let Some(life) = self.get(slot) else {
            return;
        };
        set_in(
            &mut self.lives,
            &mut self.line,
            &mut self.is_short,
            slot,
            life.over(),
        );
        self.deadlines.put(!life.is_shutting(), slot, self.time);
    }

    /// It was shut, as was asked: its slot is free.
    pub fn shut(&mut self, slot: usize)
        ensures took { (l : Known) → life_at self.old slot ≡ Some l → is_shutting l.asked ≡ true
            → Closed slot self.old self.new }
        ensures not_asked { (l : Known) → life_at self.old slot ≡ Some l
            → is_shutting l.asked ≡ false → Left self.old self.new }
        ensures none { life_at self.old slot ≡ None → Left self.old self.new }
    {
        let Some(life) = self.get(slot) else {
            return;
        };
        if life.is_shutting() {
            let _life = self.lives.try_remove(slot);
            self.deadlines.cancel(slot);
        }
    }

    /// What is to be done next: whoever's time has come first, then whose turn it is. Turns go round the groups, and in
    /// each round one socket of each has one. Where nothing is given nobody waits.
    pub fn next(&mut self) -> Option<Deed>
        ensures asked { IfSome result (λ deed. IsDueOf self.old self.new deed
            ⊎ IsTurnOf self.old self.new deed) }
        ensures done { IfNone result (IsDone self.old) }
        ensures left { IfNone result (Rests self.old self.new) }
    {
        match due_in(&mut self.lives, &mut self.deadlines, self.time) {
            Some(deed) => return Some(deed),
            None => {}
        }
        next_in(&mut self.lives, &mut self.line, &mut self.is_short)
    }
}
