//! Names as JSON.

ghost use Rattle.std.specs.Prelude.{◌≡◌};
ghost use Rattle.floor_rpc.specs.Ids.{id_json};
ghost use Rattle.floor_rpc.specs.Names.{method_json, primitive_name, status_json, status_name};

use crate::id::Id;
use crate::method::Method;
use crate::value::ToJson;
use floor_message::{Primitive, RequestStatus};
use json::Writer;
use std::alloc::AllocError;

impl ToJson for Id {
    ghost json = { id_json };

    fn write(&self, writer: &mut Writer) -> Result<(), AllocError> {
        match self {
            Id::Null => writer.null(),
            Id::Number(numeral) => writer.number(numeral.as_str()),
            Id::Text(text) => writer.string(text.as_str()),
        }
    }
}

impl ToJson for Method {
    ghost json = { method_json };

    fn write(&self, writer: &mut Writer) -> Result<(), AllocError> {
        writer.string(self.name())
    }
}

impl ToJson for RequestStatus {
    ghost json = { status_json };

    fn write(&self, writer: &mut Writer) -> Result<(), AllocError> {
        writer.string(status_name(self))
    }
}

/// The name of a status (RFC 8855, section 5.2.5).
fn status_name(status: &RequestStatus) -> &'static str
    ensures { result.now ≡ status_name status.now }
{
    match status {
        RequestStatus::Pending => "Pending",
        RequestStatus::Accepted => "Accepted",
        RequestStatus::Granted => "Granted",
        RequestStatus::Denied => "Denied",
        RequestStatus::Cancelled => "Cancelled",
        RequestStatus::Released => "Released",
        RequestStatus::Revoked => "Revoked",
    }
}

/// The name of a primitive (RFC 8855, section 5.1).
pub(crate) fn primitive_name(primitive: &Primitive) -> &'static str
    ensures { result.now ≡ primitive_name primitive.now }
{
    match primitive {
        Primitive::FloorRequest => "FloorRequest",
        Primitive::FloorRelease => "FloorRelease",
        Primitive::FloorRequestQuery => "FloorRequestQuery",
        Primitive::FloorRequestStatus => "FloorRequestStatus",
        Primitive::UserQuery => "UserQuery",
        Primitive::UserStatus => "UserStatus",
        Primitive::FloorQuery => "FloorQuery",
        Primitive::FloorStatus => "FloorStatus",
        Primitive::ChairAction => "ChairAction",
        Primitive::ChairActionAck => "ChairActionAck",
        Primitive::Hello => "Hello",
        Primitive::HelloAck => "HelloAck",
        Primitive::Error => "Error",
    }
}
