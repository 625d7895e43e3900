//! What is to be done.

use floor_config::{Config, ConfigFault};
use floor_desk::Act;
use floor_shown::Words;

/// What is to be done next: as `floor_turn` says it, and what the control clients' requests need besides.
#[derive(Clone, Copy, Debug, PartialEq, Eq)]
pub enum Deed {
    /// What the server has to be done.
    Of(floor_turn::Deed),
    /// Read the text that `configuration` lends for this number as a configuration. Answered by `configured`, whenever it
    /// is read.
    Configure(u64),
    /// Listen on each port that `ports` lends for this number, or on none where one can't be had. Answered at once by `had`;
    /// they are listened on then for who asks for one by `Listen`, until `next` gives nothing.
    Ports(u64),
    /// Find out how much memory the process has. Answered by `figures`.
    Figures,
    /// Tell the log what a client had done. Not answered.
    Tell(Act),
}

/// What a configuration's text is.
#[derive(Drop)]
pub enum Configured {
    /// It has this conference, and no other, and gives it and its floors these titles, which `titles_of` finds.
    One { config: Config, titles: Words },
    /// It has no conference, or several, or more titles than there is room for.
    Unfit,
    /// It is no configuration: why, and at which line, from 1 on.
    Faulty { fault: ConfigFault, line: u64 },
    /// Memory was refused.
    Memory,
}
