//! Why a connection of a proxy is refused.

ghost use Rattle.std.specs.Prelude.{◌≡◌};

use std::fmt;

/// Why a connection is refused by its header. The first that applies, in this order, is answered.
#[derive(Clone, Copy, Debug, PartialEq, Eq)]
pub enum ProxyRefusal {
    /// No header begins so, or it is whole and its parts pass its end.
    BadHeader,
    /// No certificate came over TLS.
    NoCertificate,
    /// A certificate came that no authority of the proxy's vouches for.
    NotVerified,
    /// Nothing says who has connected.
    NoName,
    /// What says it isn't `CONFERENCE.USER`.
    BadName,
}

impl ProxyRefusal {
    ghost use Rattle.floor_proxy.specs.Names.{name_of};

    /// The name of the variant. Takes no memory.
    pub fn name(self) -> &'static str
        ensures value { result.now ≡ name_of self }
    {
        match self {
            ProxyRefusal::BadHeader => "BadHeader",
            ProxyRefusal::NoCertificate => "NoCertificate",
            ProxyRefusal::NotVerified => "NotVerified",
            ProxyRefusal::NoName => "NoName",
            ProxyRefusal::BadName => "BadName",
        }
    }
}

/// Writes the name of the variant.
impl fmt::Display for ProxyRefusal {
    ghost use Rattle.std.specs.Prelude.{Some};
    ghost use Rattle.floor_proxy.specs.Names.{name_of};

    ghost output = { λ refusal. Some (name_of refusal) };

    fn fmt<W: fmt::Write>(&self, f: &mut fmt::Formatter<W>) -> fmt::Result {
        f.write_str(self.name())
    }
}
