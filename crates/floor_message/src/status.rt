//! The statuses of a floor request (RFC 8855, section 5.2.5).
//!
//! ```text
//! Pending ---- each chair ----> Accepted -- each floor has room -> Granted
//!   |          accepted it,        |        after those ahead         |
//!   |          or was taken away   |                                  |
//!   +-- given back --> Cancelled <-+         Released <- given back --+
//!   |                              |                                  |
//!   +-- said no -----> Denied <----+          Revoked <- taken away --+
//! ```
//!
//! A floor request begins Accepted where none of its floors has a chair. Cancelled, Denied, Released and
//! Revoked end it. Those of a beneficiary whose last connection leaves are given back. A conference that is
//! closed ends all of them, and tells nobody.

ghost use Rattle.std.specs.Prelude.{◌≡◌};
ghost use Rattle.floor_message.specs.Status.{status_number};

/// The status of a floor request, or of one of its floors.
#[derive(Clone, Copy, Debug, PartialEq, Eq)]
pub enum RequestStatus {
    /// A chair hasn't decided yet.
    Pending,
    /// It waits for its floors.
    Accepted,
    /// It holds its floors.
    Granted,
    /// A chair, or the administrator, said no.
    Denied,
    /// It was given back before it was Granted.
    Cancelled,
    /// It was given back after it was Granted.
    Released,
    /// A chair, or the administrator, took the floors away.
    Revoked,
}

impl RequestStatus {
    /// The number that REQUEST-STATUS tells it by.
    pub fn number(self) -> u8
        ensures { result ≡ status_number self }
    {
        match self {
            RequestStatus::Pending => 1,
            RequestStatus::Accepted => 2,
            RequestStatus::Granted => 3,
            RequestStatus::Denied => 4,
            RequestStatus::Cancelled => 5,
            RequestStatus::Released => 6,
            RequestStatus::Revoked => 7,
        }
    }
}
