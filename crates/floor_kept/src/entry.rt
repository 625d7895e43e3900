//! The lines of the file in which a conference is kept, behind its head.

use floor_config::Text;
use floor_machine::Event;
use floor_wire::Octets;

/// What a line says. The line of an event is a journal's, as the console prints it; the others stand
/// beside the journal.
#[derive(Debug, Drop)]
pub enum Entry {
    /// `<place> ..`: what happened at that place.
    Happened(Event),
    /// `# port <user> <port>`: a user who was added is whoever connects to this port.
    Port {
        /// The User ID.
        user: u16,
        /// The TCP port.
        port: u16,
    },
    /// `# word <key> <octets>`: what is kept beside the conference, and not read.
    Word {
        /// What it is kept by.
        key: Text,
        /// The octets; `None` takes away what is kept by the key.
        value: Option<Octets>,
    },
    /// `end <count>`: the journal has as many events, and no line stands behind this one.
    End,
}
