//! How long a message may be, how long members outlive their connections, and where conferences are kept.

ghost use Rattle.std.specs.Prelude.{◌≡◌, ◌||◌, IfOk, None, false, is_some, nat_lt};

use floor_keep::Folder;
use floor_loop::Grace;
use floor_server::MAX_LONGEST;
use std::alloc::AllocError;

/// How long a message may be, how long members outlive their connections, and where conferences are kept.
#[derive(Drop)]
pub struct Lasting {
    /// How many bytes a message has at most, with its header.
    pub longest: u32,
    pub grace: Grace,
    /// Whether a connection that ended in order is lost too.
    pub is_for_all: bool,
    /// The folder of the kept conferences, where they are kept.
    pub folder: Option<Folder>,
}

impl Lasting {
    /// Every message may come, every member leaves as its connection ends, and no conference is kept.
    pub fn never() -> Lasting
        ensures value { result ≡ record {
          longest = MAX_LONGEST;
          grace = record { lost = 0; resumed = 0 };
          is_for_all = false;
          folder = None;
        } }
    {
        Lasting {
            longest: MAX_LONGEST,
            grace: Grace {
                lost: 0,
                resumed: 0,
            },
            is_for_all: false,
            folder: None,
        }
    }

    /// The same for another loop.
    pub fn copy(&self) -> Result<Lasting, AllocError>
        ensures longest { IfOk result (λ other. other.longest ≡ self.now.longest) }
        ensures grace { IfOk result (λ other. other.grace ≡ self.now.grace) }
        ensures for_all { IfOk result (λ other. other.is_for_all ≡ self.now.is_for_all) }
        ensures folder { IfOk result (λ other. is_some other.folder ≡ is_some self.now.folder) }
    {
        let folder = match &self.folder {
            Some(folder) => Some(folder.copy()?),
            None => None,
        };
        Ok(Lasting {
            longest: self.longest,
            grace: self.grace,
            is_for_all: self.is_for_all,
            folder,
        })
    }

    /// Whether the last place of a conference is kept for who comes back.
    pub fn is_asked(&self) -> bool
        ensures value { result ≡ (is_some self.now.folder || nat_lt 0 self.now.grace.lost) }
    {
        self.folder.is_some() || 0 < self.grace.lost
    }
}
