//! The control socket's lines: what a line of a program asks for, the text that answers it, and a
//! client's buffers without its socket.
//!
//! A program asks by lines that may bear a tag, and each line of the answer bears the same. The console's
//! lines are read by floor_console, and answered by the same texts; the others are the socket's own. The
//! lines and their answers are our choice: RFC 8855 leaves open how a server is administered (section
//! 3.1). The crate reads no input and writes no output: whoever has the socket hands a `Client` the bytes
//! that came, and writes the bytes that it lends.
#![tactic(auto)]

mod answer;
mod client;
mod floors;
mod incoming;
mod laws;
mod line;
mod metrics;
mod opening;
mod outgoing;
mod people;
mod reading;
mod refusal;
mod refused;
mod tag;
mod watch;
mod watcher;
mod watching;

pub use answer::{
    Done, Notice, Standing, add_done, add_draining, add_end, add_end_at, add_faulty_at,
    add_forgotten, add_notice, add_opened, add_refused, add_standing, add_stopped, add_unread,
    add_unwatched, add_watching, add_word, add_word_kept,
};
pub use client::Client;
pub use floor_config::{Config, ConfigFault, Floor, Text, User};
pub use floor_console::{BoardRefusal, Command, ConsoleFault, StopRefusal, Stopped};
pub use floor_machine::{Event, Refusal};
pub use floor_message::SharedInfo;
pub use floor_room::{Phase, Place, RoomRefusal, Status};
pub use floor_wire::Octets;
pub use floors::add_floor;
pub use incoming::{MAX_LINE, MAX_READ, Next};
pub use laws::{
    answers_are_the_consoles, lines_are_read_back, lines_stay, tags_stand_before_lines,
    texts_go_out_in_order,
};
pub use line::{Asking, Line, LineFault};
pub use metrics::{EventTimes, Metrics, add_metrics};
pub use opening::{MAX_CONFIGURATION, Opening, Sent};
pub use outgoing::{MAX_ANSWERS, MAX_LIVE};
pub use people::{MemberLine, add_member, add_user};
pub use reading::read_line;
pub use refusal::ControlRefusal;
pub use refused::RefusedCounts;
pub use tag::{MAX_TAG, Tag, add_tagged};
pub use watcher::Watcher;
pub use watching::{a_run_is_watched, nothing_shown_has_no_line, watched_goes_on};
