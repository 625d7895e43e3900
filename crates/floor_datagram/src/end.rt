//! How a session ends.

/// How a session ended. Each has a name in the log.
#[derive(Clone, Copy, Debug, PartialEq, Eq)]
pub enum End {
    /// The peer said Goodbye.
    Goodbye,
    /// The peer acknowledged nothing.
    Lost,
    /// The user came by another port.
    Moved,
    /// The peer began anew.
    Anew,
    /// The server ended its stream.
    ServerGone,
    /// The server couldn't be reached, or ended its stream before it said anything.
    NoServer,
    /// The user may not come from there any more.
    ShutOut,
    /// The program ends.
    Stopped,
    /// Memory ran out.
    Memory,
}

impl End {
    /// The name of the reason, as the log has it.
    pub fn name(self) -> &'static str {
        match self {
            End::Goodbye => "Goodbye",
            End::Lost => "Lost",
            End::Moved => "Moved",
            End::Anew => "Anew",
            End::ServerGone => "ServerGone",
            End::NoServer => "NoServer",
            End::ShutOut => "ShutOut",
            End::Stopped => "Stopped",
            End::Memory => "Memory",
        }
    }
}
