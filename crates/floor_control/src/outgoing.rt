//! The texts that go out to a client, in order.

ghost use Rattle.std.specs.Prelude.{◌≡◌, ◌≤◌, [], false, length, OnErr, OnOk};
ghost use Rattle.floor_control.specs.Outgoing.{answered, ended_answer, first_bytes, is_full, is_idle, is_live, is_over, put, told, written, wrote};

use bytes::BytesMut;
use std::alloc::{AllocError, Global};
use std::collections::VecDeque;
use std::marker::Model;

/// Behind so many bytes of answers that wait no text of an answer is taken: our choice, so that an answer
/// is made as the client takes it.
pub const MAX_ANSWERS: usize = 262_144;

/// A client for whom so many bytes of live text wait is to be closed: our choice, so that a client that
/// never reads has an end.
pub const MAX_LIVE: usize = 1_048_576;

/// A text that waits to be written, or what is left of it.
#[derive(Drop)]
struct Piece {
    is_live: bool,
    bytes: BytesMut,
}

impl Model for Piece {
    ghost use Rattle.floor_control.specs.Outgoing.{Piece};

    ghost Value = { Piece };

    ghost view = { λ p. record { is_live = p.is_live; bytes = p.bytes.items } };
}

/// What waits to be written, and live text that waits for the end of an answer.
#[derive(Drop)]
pub(crate) struct Outgoing {
    pieces: VecDeque<Piece>,
    /// How many bytes of answers are in the pieces.
    answers: usize,
    /// How many bytes of live text are in the pieces.
    live: usize,
    is_answering: bool,
    held_back: Vec<u8>,
}

impl Model for Outgoing {
    ghost use Rattle.floor_control.specs.Outgoing.{Outgoing};
    ghost use Rattle.floor_control.specs.steps.Counted.{IsCounted};

    ghost Value = { Outgoing };

    ghost view = { λ o. record {
      waiting = o.pieces.items;
      is_answering = o.is_answering;
      held_back = o.held_back.items;
    } };

    ghost invariant = { λ o. IsCounted o.pieces.items o.answers o.live o.held_back.items };
}

impl Outgoing {
    /// Nothing waits. Takes no memory.
    pub(crate) fn new(alloc: Global) -> Outgoing
        ensures value { result ≡ record { waiting = []; is_answering = false; held_back = [] } }
    {
        Outgoing {
            pieces: VecDeque::new(alloc),
            answers: 0,
            live: 0,
            is_answering: false,
            held_back: Vec::new(alloc),
        }
    }

    /// Whether so many bytes of answers wait that no more is taken.
    pub(crate) fn is_full(&self) -> bool
        ensures value { result ≡ is_full self.now }
    {
        MAX_ANSWERS <= self.answers
    }

    /// Whether too many bytes of live text wait.
    pub(crate) fn is_over(&self) -> bool
        ensures value { result ≡ is_over self.now }
    {
        MAX_LIVE <= self.live + self.held_back.len()
    }

    /// Whether nothing waits, and no answer was begun.
    pub(crate) fn is_idle(&self) -> bool
        ensures value { result ≡ is_idle self.now }
    {
        self.pieces.is_empty() && self.held_back.is_empty() && !self.is_answering
    }

    /// Begins an answer with this text, or goes on with it. After an error nothing has changed.
    pub(crate) fn answer(&mut self, text: &str) -> Result<(), AllocError>
        requires { is_full self.old ≡ false }
        ensures took { OnOk result (self.new ≡ answered text.now self.old) }
        ensures left { OnErr result (self.new ≡ self.old) }
    {
        let bytes = text.as_bytes();
        put(&mut self.pieces, false, bytes)?;
        self.answers += bytes.len();
        self.is_answering = true;
        Ok(())
    }

    /// Ends the answer, and puts what was held back behind it. After an error nothing has changed.
    pub(crate) fn end_answer(&mut self) -> Result<(), AllocError>
        ensures took { OnOk result (self.new ≡ ended_answer self.old) }
        ensures left { OnErr result (self.new ≡ self.old) }
    {
        let bytes = self.held_back.as_slice();
        put(&mut self.pieces, true, bytes)?;
        self.live += bytes.len();
        self.held_back.clear();
        self.is_answering = false;
        Ok(())
    }

    /// Takes live text. After an error nothing has changed.
    pub(crate) fn tell(&mut self, text: &str) -> Result<(), AllocError>
        ensures took { OnOk result (self.new ≡ told text.now self.old) }
        ensures left { OnErr result (self.new ≡ self.old) }
    {
        let bytes = text.as_bytes();
        if self.is_over() {
            return Ok(());
        }
        if self.is_answering {
            return self.held_back.extend_from_slice(bytes);
        }
        put(&mut self.pieces, true, bytes)?;
        self.live += bytes.len();
        Ok(())
    }

    /// The bytes that are to be written next: none where nothing waits.
    pub(crate) fn writing(&self) -> &[u8]
        ensures value { result.now ≡ first_bytes self.now.waiting }
        ensures none { result.now ≡ [] → self.now.waiting ≡ [] }
    {
        match self.pieces.front() {
            Some(piece) => piece.bytes.as_slice(),
            None => &[],
        }
    }

    /// Takes it that so many of the bytes that were to be written next are written.
    pub(crate) fn wrote(&mut self, count: usize)
        requires { count ≤ length (first_bytes self.old.waiting) }
        ensures value { self.new ≡ wrote count self.old }
    {
        let is_live = is_live(&self.pieces);
        drop_front(&mut self.pieces, count);
        if is_live {
            self.live -= count;
            return;
        }
        self.answers -= count;
    }
}

/// Whether the first text is live.
fn is_live(pieces: &VecDeque<Piece>) -> bool
    ensures value { result ≡ is_live pieces.now.items }
{
    match pieces.front() {
        Some(piece) => piece.is_live,
        None => false,
    }
}

/// Drops so many bytes of the first text, and the text once it is empty.
fn drop_front(pieces: &mut VecDeque<Piece>, count: usize)
    requires { count ≤ length (first_bytes pieces.old.items) }
    ensures value { pieces.new.items ≡ written count pieces.old.items }
{
    let Some(mut piece) = pieces.pop_front() else {
        return;
    };
    piece.bytes.advance(count);
    if !piece.bytes.is_empty() {
        pieces.push_front_reserved(piece);
    }
}

/// Puts a text behind the others, unless it is empty.
fn put(pieces: &mut VecDeque<Piece>, is_live: bool, text: &[u8]) -> Result<(), AllocError>
    ensures took { OnOk result (pieces.new.items ≡ put is_live text.now pieces.old.items) }
    ensures left { OnErr result (pieces.new.items ≡ pieces.old.items) }
{
    if text.is_empty() {
        return Ok(());
    }
    let bytes = BytesMut::copy_from_slice(*pieces.allocator(), text)?;
    pieces.push_back(Piece { is_live, bytes })?;
    Ok(())
}
