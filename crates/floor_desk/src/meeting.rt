//! A conference, as the clients' requests know it.

use floor_clients::Told;
use floor_config::Config;
use floor_shown::{Known, Showing, Words};
use std::alloc::Global;

/// A conference: what is known of it besides its room, and what is told to those who watch it.
#[derive(Drop)]
pub struct Meeting {
    /// How it was opened: whoever follows its events begins there.
    pub opening: Config,
    pub known: Known,
    /// What its next event is shown by, where somebody watches it.
    pub showing: Option<Showing>,
    /// What happened beside its events since somebody lacks some of them, each with the place of the next event then.
    pub untold: Vec<(u64, Told)>,
    pub is_open: bool,
    pub is_broken: bool,
}

impl Meeting {
    /// A conference that is opened so, with these words. Takes no memory.
    pub fn new(alloc: Global, opening: Config, words: Words) -> Meeting {
        Meeting {
            opening,
            known: Known::new(alloc, words),
            showing: None,
            untold: Vec::new(alloc),
            is_open: true,
            is_broken: false,
        }
    }
}
