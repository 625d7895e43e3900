//! One connection: its reader's thread and its writer's thread.

ghost use Rattle.std.specs.Prelude.{◌≡◌, false, is_some, true};

use crate::binding::Binding;
use crate::departure::{departure_of, refused_by_desk};
use crate::socket::{Outgoing, Socket};
use floor_listen::{Begun, Gone, Member, Unserved};
use floor_serve::{
    ClosedMark, Desk, Gate, Marked, MemberTaker, ReadEnd, ReadFault, Seat, read_loop, write_loop,
};
use floor_server::{Departure, Entry, Peer, Refused};
use std::alloc::{AllocError, Global};
use std::net::TcpStream;
use std::sync::{Arc, Wait};
use std::thread;
use std::thread::{SpawnError, Threads};
use std::time::Clock;

/// Starts the thread of a connection, which is nobody's to join: the table of connections has it
/// until it ends. Where it isn't served, the socket is closed.
pub fn start<G, R>(
    rt: R,
    alloc: Global,
    binding: &Arc<Binding<G>, Global>,
    stream: TcpStream,
) -> Result<(), Unserved>
where
    G: Gate + Send + Sync + Drop + 'static,
    R: Clock + Threads + Wait + Copy + Drop + Send + 'static,
{
    let peer = peer_of(binding, &stream);
    match begin(&rt, alloc, binding, stream) {
        Ok(starting) => start_thread(rt, alloc, starting, peer),
        Err(unserved) => {
            let cause = Refused::by_table(unserved);
            binding.tell(&rt, &Entry::Refused { peer, cause });
            Err(unserved)
        }
    }
}

/// Who has connected, where there is a log to tell it.
fn peer_of<G>(binding: &Binding<G>, stream: &TcpStream) -> Peer {
    let port = match binding.log() {
        None => 0,
        Some(_) => stream.peer_addr().map_or(0, |address| address.port()),
    };
    Peer {
        to: binding.place(),
        port,
    }
}

/// A connection whose thread is to be started.
#[derive(Drop)]
struct Starting<G> {
    socket: Socket,
    /// The same socket, for whoever finds that there is no thread for it.
    ours: Socket,
    binding: Arc<Binding<G>, Global>,
    begun: Begun,
}

/// Takes up a connection, in the table of connections too.
fn begin<G: Drop, R: Wait>(
    rt: &R,
    alloc: Global,
    binding: &Arc<Binding<G>, Global>,
    stream: TcpStream,
) -> Result<Starting<G>, Unserved> {
    let socket = Socket::new(alloc, stream)?;
    let shared = socket.share()?;
    let ours = socket.share()?;
    let theirs = Arc::try_clone(binding)?;
    let begun = theirs.begin(rt, shared)?;
    Ok(Starting {
        socket,
        ours,
        binding: theirs,
        begun,
    })
}

/// Starts the thread.
fn start_thread<G, R>(
    rt: R,
    alloc: Global,
    starting: Starting<G>,
    peer: Peer,
) -> Result<(), Unserved>
where
    G: Gate + Send + Sync + Drop + 'static,
    R: Clock + Threads + Wait + Copy + Drop + Send + 'static,
{
    let Starting {
        socket,
        ours,
        binding,
        begun,
    } = starting;
    match thread::spawn(&rt, move || run(rt, alloc, socket, begun, &binding, peer)) {
        Ok(_handle) => Ok(()),
        Err(SpawnError { value: work }) => {
            // What its thread would do is done here, and is no more than to end it.
            ours.set_lacks_thread();
            work();
            Err(Unserved::Memory)
        }
    }
}

/// What the reader's thread does.
fn run<G, R>(rt: R, alloc: Global, socket: Socket, begun: Begun, binding: &Binding<G>, peer: Peer)
where
    G: Gate + Send + Sync + Drop + 'static,
    R: Clock + Threads + Wait + Copy + Drop + Send + 'static,
{
    let (gone, seat) = match begun.may_join(socket.has_thread()) {
        Ok(begun) => serve(rt, alloc, binding, &socket, begun, peer),
        Err(gone) => {
            let cause = Refused::NoThread;
            binding.tell(&rt, &Entry::Refused { peer, cause });
            (gone, None)
        }
    };
    socket.shut_down();
    drop(socket);
    binding.end(&rt, gone, seat);
}

/// Joins the conference, and serves the connection until its stream ends.
fn serve<G, R>(
    rt: R,
    alloc: Global,
    binding: &Binding<G>,
    socket: &Socket,
    begun: Begun,
    peer: Peer,
) -> (Gone, Option<Seat>)
where
    G: Gate,
    R: Clock + Threads + Wait + Copy + Drop + Send + 'static,
    ensures { is_some result.1 ≡ result.0.has_joined }
{
    let desk = match binding.desk(&rt) {
        Ok(desk) => desk,
        Err(refusal) => {
            let cause = refused_by_desk(refusal);
            return (refuse(&rt, binding, begun, peer, cause), None);
        }
    };
    match desk.join(&rt, binding.user()) {
        Ok((mut seat, taker)) => {
            let member = begun.joined();
            binding.tell(&rt, &Entry::Joined { peer, n: seat.n() });
            let gone = attend(
                rt, alloc, &desk, &mut seat, taker, binding, socket, member, peer,
            );
            (gone, Some(seat))
        }
        Err(refusal) => {
            let cause = Refused::ByRoom(refusal);
            (refuse(&rt, binding, begun, peer, cause), None)
        }
    }
}

/// Tells the log why a connection can't join, and ends it.
fn refuse<G, R: Clock + Wait>(
    rt: &R,
    binding: &Binding<G>,
    begun: Begun,
    peer: Peer,
    cause: Refused,
) -> Gone
    ensures { result.has_joined ≡ false }
{
    binding.tell(rt, &Entry::Refused { peer, cause });
    begun.refused()
}

/// Serves a member until the stream ends, and takes it that the member has left. Without a thread for
/// its writer it isn't served.
fn attend<G, R>(
    rt: R,
    alloc: Global,
    desk: &Desk,
    seat: &mut Seat,
    taker: MemberTaker,
    binding: &Binding<G>,
    socket: &Socket,
    member: Member,
    peer: Peer,
) -> Gone
where
    G: Gate,
    R: Clock + Threads + Wait + Copy + Drop + Send + 'static,
    requires seat { seat.old.conference ≡ desk.now.conference }
    requires taker { (taker.conference ≡ seat.old.conference) × (taker.n ≡ seat.old.n) }
    ensures joined { result.has_joined ≡ true }
{
    let n = seat.n();
    let mark = taker.mark().ok();
    if let (Ok(source), Ok(sink)) = (socket.share(), outgoing(socket, &taker)) {
        if let Ok(writer) = thread::spawn(&rt, move || write_all(&rt, alloc, sink, taker)) {
            let mut source = Marked::new(source);
            let end = read_loop(&rt, &mut source, desk, seat, binding.gate());
            tell_left(&rt, desk, binding, peer, n, mark, end);
            let gone = leave(&rt, desk, seat, member);
            writer.join(&rt);
            return gone;
        }
    }
    tell_unserved(&rt, binding, peer, n);
    leave(&rt, desk, seat, member)
}

/// Tells the log, where there is one, why a member leaves whose reading ended so.
fn tell_left<G, R: Clock + Wait>(
    rt: &R,
    desk: &Desk,
    binding: &Binding<G>,
    peer: Peer,
    n: u32,
    mark: Option<ClosedMark>,
    end: Result<ReadEnd, ReadFault>,
) {
    match binding.log() {
        None => {}
        Some(log) => {
            let is_closed = mark.as_ref().map_or(false, |mark| mark.is_set());
            let phase = desk.status(rt).phase;
            let departure = departure_of(end, is_closed, phase, binding.is_ending());
            log.tell_left(rt, peer, n, departure);
        }
    }
}

/// Tells the log of a member for whose writer there is no thread or no memory.
fn tell_unserved<G, R: Clock + Wait>(rt: &R, binding: &Binding<G>, peer: Peer, n: u32) {
    match binding.log() {
        None => {}
        Some(log) => log.tell_left(rt, peer, n, Departure::NoThread),
    }
}

/// Leaves the conference. Also where it is refused the member's writer ends.
fn leave<R: Wait>(rt: &R, desk: &Desk, seat: &mut Seat, member: Member) -> Gone
    requires { seat.old.conference ≡ desk.now.conference }
    ensures { result.has_joined ≡ true }
{
    let _outcome = desk.leave(rt, seat);
    member.left()
}

/// The sending side of a member's connection.
fn outgoing(socket: &Socket, taker: &MemberTaker) -> Result<Outgoing, AllocError> {
    Ok(Outgoing {
        socket: socket.share()?,
        mark: taker.mark()?,
    })
}

/// Writes what the member is sent, and acknowledges it. At the end it shuts the socket down, so that the
/// reader of a member that was cut ends too: also where the peer takes nothing any more of what waits
/// behind the closed mark.
fn write_all<R: Wait>(rt: &R, alloc: Global, outgoing: Outgoing, mut taker: MemberTaker) {
    let mut sink = Marked::new(outgoing);
    let _written = write_loop(rt, alloc, &mut sink, &mut taker);
    sink.into_inner().socket.shut_down();
}
