//! Why a line is no request.

ghost use Rattle.std.specs.Prelude.{◌≡◌};

use floor_config::Text;
use std::alloc::AllocError;

/// What is wrong with a parameter.
#[derive(Clone, Copy, Debug, PartialEq, Eq)]
pub enum Why {
    /// It isn't there.
    Missing,
    /// The method has none of the name, or none beside the others that are there.
    Unknown,
    /// It is a value of another type.
    WrongType,
    /// It is a number that isn't whole, below 0 or too large.
    OutOfRange,
    /// The parameters have no names: they are no object.
    Unnamed,
}

impl Why {
    ghost use Rattle.floor_rpc.specs.Faults.{why_name};

    /// The name of the variant. Takes no memory.
    pub fn name(&self) -> &'static str
        ensures value { result.now ≡ why_name self.now }
    {
        match self {
            Why::Missing => "Missing",
            Why::Unknown => "Unknown",
            Why::WrongType => "WrongType",
            Why::OutOfRange => "OutOfRange",
            Why::Unnamed => "Unnamed",
        }
    }
}

/// Why a line is no request. The first that applies is answered.
#[derive(Debug, Drop)]
pub enum RequestFault {
    /// The line has more than `MAX_LINE` bytes.
    TooLong,
    /// The line isn't UTF-8, or is no JSON.
    NotJson,
    /// It is JSON, and no request: no object, a key that stands twice or isn't a request's, an `id` or
    /// a `jsonrpc` that can't be, or no `method`.
    NotRequest,
    /// No method has the name.
    NoMethod,
    /// A parameter can't be taken.
    BadParam {
        /// Its name; `None` for the parameters as a whole.
        param: Option<Text>,
        why: Why,
    },
    /// Memory was refused.
    Memory,
}

impl From<AllocError> for RequestFault {
    ghost use Rattle.std.specs.Prelude.{◌≡◌};
    ghost use Rattle.floor_rpc.specs.declared.fault.RequestFault.TheVariants.{Memory};

    ghost from_gives = { λ _ e. e ≡ Memory };

    fn from(_e: AllocError) -> RequestFault {
        RequestFault::Memory
    }
}
