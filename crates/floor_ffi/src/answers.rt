//! What the calls from C answer that is more than a number.

/// What opening has answered.
#[repr(C)]
#[derive(Clone, Copy)]
pub struct FloorOpened {
    /// The outcome's number.
    pub result: u32,
    /// How many conferences were opened.
    pub opened: usize,
}

/// A text that was written for the caller.
#[repr(C)]
#[derive(Clone, Copy)]
pub struct FloorText {
    /// The outcome's number.
    pub result: u32,
    /// How many bytes it has, without the zero behind it.
    pub len: usize,
}

/// What attaching has answered.
#[repr(C)]
#[derive(Clone, Copy)]
pub struct FloorAttached {
    /// The outcome's number.
    pub result: u32,
    /// The connection's number, where it was attached, else 0.
    pub connection: u64,
}

/// What serving has answered.
#[repr(C)]
#[derive(Clone, Copy)]
pub struct FloorServed {
    /// The outcome's number.
    pub result: u32,
    /// How many messages were served.
    pub served: u32,
}

/// What taking has answered.
#[repr(C)]
#[derive(Clone, Copy)]
pub struct FloorTaken {
    /// The outcome's number.
    pub result: u32,
    /// How many parcels were taken.
    pub parcels: u32,
    /// How many bytes they have; where the room is too short, how many the first one has.
    pub len: usize,
}

/// What saying a message for a user has answered.
#[repr(C)]
#[derive(Clone, Copy)]
pub struct FloorSaid {
    /// The outcome's number.
    pub result: u32,
    /// The message's place in the journal, where it was said, else 0.
    pub place: u32,
    /// How many bytes what answers it has: 0 where nothing does.
    pub len: usize,
}

/// Whom the last call concerned.
#[repr(C)]
#[derive(Clone, Copy)]
pub struct FloorNamed {
    /// The outcome's number.
    pub result: u32,
    /// How many connections they are.
    pub count: usize,
}

/// How a conference stands.
#[repr(C)]
#[derive(Clone, Copy)]
pub struct FloorState {
    /// The outcome's number.
    pub result: u32,
    /// How many members are live.
    pub members: u32,
    /// How many floor requests are ongoing.
    pub ongoing: u32,
    /// How many events there were.
    pub events: u32,
    /// 0 where it takes more, 1 where it has ended, 2 where it is broken off.
    pub phase: u32,
}

/// Lines of a journal.
#[repr(C)]
#[derive(Clone, Copy)]
pub struct FloorLines {
    /// The outcome's number.
    pub result: u32,
    /// How many events they are of.
    pub events: usize,
    /// How many bytes they have; where the room is too short, how many the first one has.
    pub len: usize,
}
