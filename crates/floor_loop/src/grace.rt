//! How long members outlive their connections (RFC 8855, section 6.1).

/// How long members outlive their connections, in milliseconds.
#[derive(Clone, Copy, Debug, PartialEq, Eq)]
pub struct Grace {
    /// How long a member stays whose connection was lost; at 0 it leaves at once.
    pub lost: u64,
    /// How long each member stays of a conference that is resumed.
    pub resumed: u64,
}
