//! What is carried between a browser's WebSocket and a floor control server (RFC 8857, section 4.2).
//!
//! ```text
//!  browser's stream    unread           to the server
//!  ── browser(piece) ─▶ frames ─ judged ─▶ messages, as they are
//!
//!  to the browser                       held          server's stream
//!  frames, each whole ◀─ one a message ─ messages ◀── server(piece) ──
//! ```

ghost use Rattle.std.specs.Prelude.{◌≡◌, ◌++◌, [], None, IsSome, IsTrue, IsFalse, is_some};
ghost use Rattle.floor_web.specs.Frames.{data_frame, frame_of, start};
ghost use Rattle.floor_web.specs.Relay as spec;
ghost use Rattle.floor_web.specs.steps.Telling.{PassesOn};

use crate::end::End;
use crate::hear::{close, hear_all};
use bytes::BytesMut;
use floor_wire::Framer;
use std::alloc::Global;
use std::marker::Model;
use websocket::protocol::{Message, NoMask, Role, WebSocketConfig, WebSocketContext};

/// The longest message that a browser may send, in bytes: a header of 12, and 65,535 units of 4
/// (RFC 8855, section 5.1).
pub const MAX_MESSAGE_LEN: usize = 262_152;

/// A side of a relay.
#[derive(Clone, Copy, Debug, PartialEq, Eq)]
pub enum Side {
    /// The browser.
    Browser,
    /// The floor control server.
    Server,
}

/// What stands between a browser's WebSocket, whose handshake is done, and the stream of a floor
/// control server.
///
/// `browser` and `server` take a piece of what a side sends, `close` says that a side's stream ended,
/// `lack_server` that there is no server, `refuse` that the server said nothing before its stream ended,
/// and `ping` asks the browser for a sign of life. Each adds what is to be sent to the server to `up`, and
/// to the browser to `down`; the caller sends both in that order, whole. Once `end` tells an end nothing is
/// carried any more: what `down` holds by then is still to be sent, and then the browser's socket is
/// closed. It holds what no whole frame and no whole message is yet, and nothing by what a peer announces;
/// of a browser's message that was carried no buffer stays.
#[derive(Drop)]
pub struct Relay {
    alloc: Global,
    context: WebSocketContext,
    unread: BytesMut,
    held: Framer,
    end: Option<End>,
}

impl Model for Relay {
    ghost use Rattle.std.specs.Prelude.{◌≡◌, None};
    ghost use Rattle.floor_web.specs.Frames.{start};
    ghost use Rattle.floor_web.specs.Relay.{Relay};

    ghost Value = { Relay };

    ghost view = { λ r. record { end = r.end; unread = r.unread.items; held = r.held } };

    ghost invariant = { λ r. r.end ≡ None → r.context ≡ start };
}

impl Relay {
    /// A relay that has carried nothing. Takes no memory.
    pub fn new(alloc: Global) -> Relay
        ensures value { result ≡ record { end = None; unread = []; held = [] } }
        ensures carried { spec.Relayed [] [] [] [] result }
    {
        let limits = WebSocketConfig {
            max_message_size: Some(MAX_MESSAGE_LEN),
            max_frame_size: Some(MAX_MESSAGE_LEN),
            accept_unmasked_frames: false,
        };
        Relay {
            alloc,
            context: WebSocketContext::new(alloc, Role::Server, limits),
            unread: BytesMut::new(alloc),
            held: Framer::new(alloc),
            end: None,
        }
    }

    /// How it ended, if it has.
    pub fn end(&self) -> Option<End>
        ensures value { result ≡ self.now.end }
    {
        self.end
    }

    /// Takes a piece of the browser's stream. What the browser sent behind an end is not looked at.
    pub fn browser(&mut self, piece: &[u8], up: &mut Vec<u8>, down: &mut Vec<u8>)
        ensures took { self.old.end ≡ None → spec.Hears self.old piece.now self.new
            up.old.items up.new.items down.old.items down.new.items }
        ensures ended { IsSome self.old.end → spec.Silent self.old self.new
            up.old.items up.new.items down.old.items down.new.items }
        ensures carried { spec.KeepsRelayed piece.now [] self.old self.new
            up.old.items up.new.items down.old.items down.new.items }
    {
        if self.is_over() {
            return;
        }
        match self.unread.extend_from_slice(piece) {
            Ok(()) => self.hear(up, down),
            Err(_) => self.finish(End::Memory, down),
        }
    }

    /// Takes the frames of the unread bytes.
    fn hear(&mut self, up: &mut Vec<u8>, down: &mut Vec<u8>)
        requires { self.old.end ≡ None }
        ensures { spec.Hears self.old [] self.new
            up.old.items up.new.items down.old.items down.new.items }
    {
        match hear_all(self.alloc, &mut self.context, &mut self.unread, up, down) {
            None => self.settle(),
            Some(end) => {
                self.end = Some(end);
                self.let_go();
            }
        }
    }

    /// Moves what is unread to a buffer of its own size: of a long message that was carried no memory
    /// stays. Where there is none for that the buffer stays.
    fn settle(&mut self)
        ensures { self.new ≡ self.old }
    {
        let mut left = BytesMut::new(self.alloc);
        match left.extend_from_slice(self.unread.as_slice()) {
            Ok(()) => self.unread = left,
            Err(_) => {}
        }
    }

    /// Takes a piece of the server's stream.
    pub fn server(&mut self, piece: &[u8], down: &mut Vec<u8>)
        ensures took { self.old.end ≡ None → spec.Tells self.old piece.now self.new
            down.old.items down.new.items }
        ensures ended { IsSome self.old.end → spec.Silent self.old self.new
            [] [] down.old.items down.new.items }
        ensures carried { spec.KeepsRelayed [] piece.now self.old self.new
            [] [] down.old.items down.new.items }
    {
        if self.is_over() {
            return;
        }
        match self.held.push(piece) {
            Ok(()) => {
                if !pass_on(&mut self.context, &mut self.held, down) {
                    self.finish(End::Memory, down);
                }
            }
            Err(_) => self.finish(End::Memory, down),
        }
    }

    /// Says that a side's stream ended, or failed. The browser is told by a close where it was the
    /// server's; no close goes to a browser that is gone.
    pub fn close(&mut self, side: Side, down: &mut Vec<u8>)
        ensures took { self.old.end ≡ None → spec.Closes self.old side self.new
            down.old.items down.new.items }
        ensures ended { IsSome self.old.end → spec.Silent self.old self.new
            [] [] down.old.items down.new.items }
        ensures carried { spec.KeepsRelayed [] [] self.old self.new
            [] [] down.old.items down.new.items }
    {
        if self.is_over() {
            return;
        }
        match side {
            Side::Browser => self.finish(End::Gone, down),
            Side::Server => self.finish(End::ServerGone, down),
        }
    }

    /// Says that no server listens at the participant's port. The browser is told by a close of its own: the
    /// status of a handshake, which could say it too, is kept from a page.
    pub fn lack_server(&mut self, down: &mut Vec<u8>)
        ensures took { self.old.end ≡ None → spec.Finishes End.NoServer self.new
            down.old.items down.new.items }
        ensures ended { IsSome self.old.end → spec.Silent self.old self.new
            [] [] down.old.items down.new.items }
        ensures carried { spec.KeepsRelayed [] [] self.old self.new
            [] [] down.old.items down.new.items }
    {
        if self.is_over() {
            return;
        }
        self.finish(End::NoServer, down);
    }

    /// Says that the server ended its stream before it said anything: it takes no connection of the
    /// participant's now. The browser is told by a close of its own, since it may come again in vain.
    pub fn refuse(&mut self, down: &mut Vec<u8>)
        ensures took { self.old.end ≡ None → spec.Finishes End.Refused self.new
            down.old.items down.new.items }
        ensures ended { IsSome self.old.end → spec.Silent self.old self.new
            [] [] down.old.items down.new.items }
        ensures carried { spec.KeepsRelayed [] [] self.old self.new
            [] [] down.old.items down.new.items }
    {
        if self.is_over() {
            return;
        }
        self.finish(End::Refused, down);
    }

    /// Asks the browser for a sign of life.
    pub fn ping(&mut self, down: &mut Vec<u8>)
        ensures took { self.old.end ≡ None → spec.Pings self.old self.new
            down.old.items down.new.items }
        ensures ended { IsSome self.old.end → spec.Silent self.old self.new
            [] [] down.old.items down.new.items }
        ensures carried { spec.KeepsRelayed [] [] self.old self.new
            [] [] down.old.items down.new.items }
    {
        if self.is_over() {
            return;
        }
        match self.context.write(Message::Ping(&[]), down, &mut NoMask) {
            Ok(()) => {}
            Err(_) => self.finish(End::Memory, down),
        }
    }

    /// Whether it has ended.
    fn is_over(&self) -> bool
        ensures { result ≡ is_some self.now.end }
    {
        self.end.is_some()
    }

    /// Ends it, and sends the close that the end has.
    fn finish(&mut self, end: End, down: &mut Vec<u8>)
        requires { self.old.end ≡ None }
        ensures { spec.Finishes end self.new down.old.items down.new.items }
    {
        let end = close(&mut self.context, end, down);
        self.end = Some(end);
        self.let_go();
    }

    /// Lets go of what is held: it is carried no more.
    fn let_go(&mut self)
        ensures { self.new ≡ record self.old { unread = []; held = [] } }
    {
        self.unread = BytesMut::new(self.alloc);
        self.held = Framer::new(self.alloc);
    }
}

/// Sends each message that is held whole, as one binary frame. Tells whether memory was granted.
fn pass_on(context: &mut WebSocketContext, held: &mut Framer, down: &mut Vec<u8>) -> bool
    requires { context.old ≡ start }
    ensures { PassesOn context.new held.old held.new down.old.items down.new.items result }
{
    loop {
        match held.next() {
            Ok(Some(message)) => {
                if !pass_one(context, message.bytes(), down) {
                    return false;
                }
            }
            Ok(None) => return true,
            Err(_) => return false,
        }
    }
}

/// Sends a message as one binary frame. Tells whether memory was granted.
fn pass_one(context: &mut WebSocketContext, message: &[u8], down: &mut Vec<u8>) -> bool
    requires { context.old ≡ start }
    ensures context { context.new ≡ start }
    ensures sent { IsTrue result → down.new.items
        ≡ down.old.items ++ frame_of (data_frame message.now) }
    ensures left { IsFalse result → down.new.items ≡ down.old.items }
{
    match context.write(Message::Binary(message), down, &mut NoMask) {
        Ok(()) => true,
        Err(_) => false,
    }
}
