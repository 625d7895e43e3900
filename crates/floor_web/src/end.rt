//! Why a relay ended, and the code that its WebSocket is closed by (RFC 6455, section 7.4.1).

ghost use Rattle.std.specs.Prelude.{◌≡◌};
ghost use Rattle.websocket.specs.Content.{close_content};
ghost use Rattle.floor_web.specs.End as spec;

use websocket::error::Error;
use websocket::protocol::{CloseCode, CloseFrame};

/// Why a relay carries nothing any more.
#[derive(Clone, Copy, Debug, PartialEq, Eq)]
pub enum End {
    /// The page closed the WebSocket by code 1000, or without a code: it says that its user leaves.
    /// Its close is answered.
    Closed,
    /// The browser closed the WebSocket by another code, as by 1001 where its page is loaded anew or its
    /// window is closed. Its close is answered.
    GoingAway,
    /// The browser's stream ended without a close.
    Gone,
    /// The floor control server's stream ended, or it refused the connection. Code 1001.
    ServerGone,
    /// No floor control server listens at the participant's port. Code 4404.
    NoServer,
    /// The floor control server ended the connection before it said anything, as floorhub's door does
    /// where it refuses the user. Code 4403.
    Refused,
    /// The browser broke the protocol of WebSocket (RFC 6455). Code 1002.
    Broken,
    /// The browser sent a message in fragments (RFC 8857, section 4.2). Code 1002.
    Fragment,
    /// The browser sent a text: BFCP is carried in binary messages alone (RFC 8857, section 4.2).
    /// Code 1003.
    Text,
    /// The browser sent a text, or the reason of a close, that is no UTF-8. Code 1007.
    NoUtf8,
    /// The browser sent a binary message that isn't exactly one BFCP message. Code 1007.
    NoMessage,
    /// The browser sent a frame that is longer than any BFCP message. Code 1009.
    TooLong,
    /// Memory was refused. Code 1011, where there is memory for it.
    Memory,
}

impl End {
    /// Its name.
    pub fn name(self) -> &'static str
        ensures value { result.now ≡ spec.name_of self }
    {
        match self {
            End::Closed => "Closed",
            End::GoingAway => "GoingAway",
            End::Gone => "Gone",
            End::ServerGone => "ServerGone",
            End::NoServer => "NoServer",
            End::Refused => "Refused",
            End::Broken => "Broken",
            End::Fragment => "Fragment",
            End::Text => "Text",
            End::NoUtf8 => "NoUtf8",
            End::NoMessage => "NoMessage",
            End::TooLong => "TooLong",
            End::Memory => "Memory",
        }
    }

    /// The code of the close that the browser is sent for it; none where the browser's own close is
    /// answered, or nothing reaches the browser any more.
    pub fn code(self) -> Option<CloseCode>
        ensures value { result ≡ spec.code_of self }
    {
        match self {
            End::Closed | End::GoingAway | End::Gone => None,
            End::ServerGone => Some(CloseCode::Away),
            // Codes from 4000 on are an application's own.
            End::NoServer => Some(CloseCode::Library(4_404)),
            End::Refused => Some(CloseCode::Library(4_403)),
            End::Broken | End::Fragment => Some(CloseCode::Protocol),
            End::Text => Some(CloseCode::Unsupported),
            End::NoUtf8 | End::NoMessage => Some(CloseCode::Invalid),
            End::TooLong => Some(CloseCode::Size),
            End::Memory => Some(CloseCode::Error),
        }
    }

    /// Whether the participant leaves the conference by it. By any other end the participant may come
    /// again, and the server is to be told that the connection is lost.
    pub fn is_leave(self) -> bool
        ensures value { result ≡ spec.is_leave self }
    {
        match self {
            End::Closed => true,
            End::GoingAway
            | End::Gone
            | End::ServerGone
            | End::NoServer
            | End::Refused
            | End::Broken
            | End::Fragment
            | End::Text
            | End::NoUtf8
            | End::NoMessage
            | End::TooLong
            | End::Memory => false,
        }
    }
}

/// The end that a browser's close is.
pub(crate) fn end_of_close(frame: Option<CloseFrame<'_>>) -> End
    ensures value { result ≡ spec.end_of_close (close_content frame.entry) }
{
    match frame {
        None => End::Closed,
        Some(frame) => end_of_code(frame.code),
    }
}

fn end_of_code(code: CloseCode) -> End
    ensures value { result ≡ spec.end_of_code code }
{
    if u16::from(code) == 1_000 {
        End::Closed
    } else {
        End::GoingAway
    }
}

/// The end that an error of the WebSocket is.
pub(crate) fn end_of_error(error: Error) -> End
    ensures value { result ≡ spec.end_of_error error }
{
    match error {
        Error::Capacity(_) => End::TooLong,
        Error::Utf8 => End::NoUtf8,
        Error::OutOfMemory => End::Memory,
        Error::Protocol(_) | Error::ConnectionClosed | Error::AlreadyClosed => End::Broken,
    }
}
