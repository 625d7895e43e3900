//! What is told to whoever watches.

ghost use Rattle.std.specs.Prelude.{◌≡◌, ◌<◌, IfOk};
ghost use Rattle.floor_rpc.specs.Json.{line_of};
ghost use Rattle.floor_rpc.specs.Notifications.{notification_json};
ghost use Rattle.floor_rpc.specs.declared.notification.Notification.TheVariants.{Event, Server};
ghost use Rattle.floor_clients.specs.Wanted.{conference_of, hears, is_event, is_wanted, is_wanted_of};

use crate::mode::Mode;
use crate::watched::Watched;
use floor_rpc::{EventTold, Happened, Notification, ServerTold, write_line};
use std::alloc::{AllocError, Global};
use std::marker::Model;

/// A notification with its line, which is written once for all who watch, and the place that whoever is told it is told
/// next.
#[derive(Drop)]
pub struct Told {
    what: Notification,
    place: u64,
    line: Vec<u8>,
}

impl Model for Told {
    ghost use Rattle.std.specs.Prelude.{◌≡◌, ◌<◌};
    ghost use Rattle.floor_rpc.specs.Json.{line_of};
    ghost use Rattle.floor_rpc.specs.Notifications.{notification_json};
    ghost use Rattle.floor_clients.specs.Wanted.{Told};

    ghost Value = { Told };

    ghost view = { λ t. record { what = t.what; place = t.place } };

    ghost invariant = { λ t. (t.line.items ≡ line_of (notification_json t.what))
        × (t.place < 18446744073709551615) };
}

impl Told {
    /// What an event shows: whoever is told its place next is told it.
    pub fn of_event(alloc: Global, event: EventTold) -> Result<Told, AllocError>
        requires { event.place < 18446744073709551615 }
        ensures value { IfOk result
            (λ t. t ≡ record { what = Event event; place = event.place }) }
    {
        let place = event.place;
        Told::new(alloc, Notification::Event(event), place)
    }

    /// What happened beside the events of a conference, whose next event has this place: whoever is told that place next
    /// is told it, so that it stands behind all events before it.
    pub fn of_server(alloc: Global, told: ServerTold, next: u64) -> Result<Told, AllocError>
        requires { next < 18446744073709551615 }
        ensures value { IfOk result (λ t. t ≡ record { what = Server told; place = next }) }
    {
        Told::new(alloc, Notification::Server(told), next)
    }

    fn new(alloc: Global, what: Notification, place: u64) -> Result<Told, AllocError>
        requires { place < 18446744073709551615 }
        ensures value { IfOk result (λ t. t ≡ record { what = what; place = place }) }
    {
        let mut line = Vec::new(alloc);
        let _count = write_line(alloc, &mut line, &what)?;
        Ok(Told { what, place, line })
    }

    /// Its line.
    pub(crate) fn line(&self) -> &[u8]
        ensures value { result.now ≡ line_of (notification_json self.now.what) }
    {
        self.line.as_slice()
    }

    /// The conference that it is of.
    pub fn conference(&self) -> u32
        ensures value { result ≡ conference_of self.now.what }
    {
        match &self.what {
            Notification::Event(event) => event.conference,
            Notification::Server(server) => server.conference,
        }
    }

    /// The place that whoever is told it is told next.
    pub(crate) fn place(&self) -> u64
        ensures value { result ≡ self.now.place }
        ensures range { result < 18446744073709551615 }
    {
        self.place
    }

    /// Whether it is what an event shows.
    pub(crate) fn is_event(&self) -> bool
        ensures value { result ≡ is_event self.now.what }
    {
        matches!(&self.what, Notification::Event(_))
    }

    /// Whether a client that watches this is told it.
    pub(crate) fn is_wanted(&self, mode: Mode, watched: &Watched) -> bool
        ensures value { result ≡ is_wanted mode watched.now self.now }
    {
        let hears = hears(watched, self.conference(), self.place);
        match &self.what {
            Notification::Event(_) => hears,
            Notification::Server(server) => is_wanted_of(
                mode,
                watched.has_all(),
                hears,
                &server.what,
            ),
        }
    }
}

/// Whether what happened is told to a client of this mode that watches all, or hears of the conference.
fn is_wanted_of(mode: Mode, all: bool, hears: bool, what: &Happened) -> bool
    ensures value { result ≡ is_wanted_of mode all hears what.now }
{
    match what {
        Happened::Opened | Happened::Forgotten => all,
        Happened::Word(_) => match mode {
            Mode::Control => hears,
            Mode::Observer => false,
        },
        Happened::Broken
        | Happened::Unkept
        | Happened::Away(_)
        | Happened::Back(_)
        | Happened::Removed(_)
        | Happened::Admitted(_) => hears,
    }
}

/// Whether whoever watches this is told that place of a conference next.
fn hears(watched: &Watched, conference: u32, place: u64) -> bool
    ensures value { result ≡ hears watched.now conference place }
{
    match watched.next_of(conference) {
        Some(next) => next == place,
        None => watched.has_all(),
    }
}
