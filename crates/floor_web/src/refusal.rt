//! Why a request isn't served.

ghost use Rattle.std.specs.Prelude.{◌≡◌};
ghost use Rattle.floor_web.specs.Refusal as spec;

/// Why a request isn't served, by the status of HTTP that answers it.
#[derive(Clone, Copy, Debug, PartialEq, Eq)]
pub enum Refusal {
    /// 400: it is no request of HTTP/1.1, or no handshake for `bfcp`.
    BadRequest,
    /// 403: a page of an origin that isn't allowed asks for it, or whoever may only see orders something.
    Forbidden,
    /// 404: nothing has the path, or nobody the token.
    NotFound,
    /// 405: it is neither GET nor HEAD.
    MethodNotAllowed,
    /// 408: its head didn't come in time.
    TooSlow,
    /// 426: the path is served as a WebSocket of version 13 alone.
    UpgradeRequired,
    /// 429: its user, or the network that it comes from, has as many connections as one may.
    TooMany,
    /// 431: its head is too long, or has too many fields.
    TooLarge,
    /// 502: the floor control server doesn't take the connection.
    BadGateway,
    /// 503: there are too many connections.
    Unavailable,
}

impl Refusal {
    /// Its status, with the phrase.
    pub fn status(self) -> &'static str
        ensures value { result.now ≡ spec.status self }
    {
        match self {
            Refusal::BadRequest => "400 Bad Request",
            Refusal::Forbidden => "403 Forbidden",
            Refusal::NotFound => "404 Not Found",
            Refusal::MethodNotAllowed => "405 Method Not Allowed",
            Refusal::TooSlow => "408 Request Timeout",
            Refusal::UpgradeRequired => "426 Upgrade Required",
            Refusal::TooMany => "429 Too Many Requests",
            Refusal::TooLarge => "431 Request Header Fields Too Large",
            Refusal::BadGateway => "502 Bad Gateway",
            Refusal::Unavailable => "503 Service Unavailable",
        }
    }

    /// The fields that its status asks for.
    pub fn fields(self) -> &'static str
        ensures value { result.now ≡ spec.fields self }
    {
        match self {
            Refusal::MethodNotAllowed => "Allow: GET, HEAD\r\n",
            Refusal::UpgradeRequired => "Upgrade: websocket\r\nSec-WebSocket-Version: 13\r\n",
            Refusal::TooMany | Refusal::Unavailable => "Retry-After: 10\r\n",
            Refusal::BadRequest
            | Refusal::Forbidden
            | Refusal::NotFound
            | Refusal::TooSlow
            | Refusal::TooLarge
            | Refusal::BadGateway => "",
        }
    }
}
