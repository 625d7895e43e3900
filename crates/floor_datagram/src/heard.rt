//! What a datagram of a peer's was.

/// What a datagram was, for the session that it belongs to.
#[derive(Clone, Copy, Debug, PartialEq, Eq)]
pub(crate) enum Heard {
    /// Nothing that goes on.
    Nothing,
    /// It acknowledges the notice with this Transaction ID, if that is out.
    Acknowledgement(u16),
    /// A request of this primitive, which was taken.
    Request(u8),
    /// A Goodbye, which was taken and answered.
    Goodbye,
}
