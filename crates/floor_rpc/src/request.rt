//! What a line of a program is.

ghost use Rattle.std.specs.Prelude.{◌≡◌, ◌⊎◌, [], Err, IfOk, Ok, None, MatchOption, Some, option_map, IsTrue};
ghost use Rattle.std.specs.Str.{IsUtf8};
ghost use Rattle.json.specs.Json.{document};
ghost use Rattle.json.specs.Tree.{HasNumbers};
ghost use Rattle.json.specs.Value.{value_view};
ghost use Rattle.floor_rpc.specs.Params.{Reads};
ghost use Rattle.floor_rpc.specs.declared.fault.RequestFault.TheVariants.{BadParam};
ghost use Rattle.floor_rpc.specs.declared.fault.Why.TheVariants.{Unnamed};
ghost use Rattle.floor_rpc.specs.Requests.{IsReceived, Says, id_of, id_in, may_be_version, method_in, received, refused, request_call, with_params};

use crate::call::Call;
use crate::fault::{RequestFault, Why};
use crate::id::{Id, Numeral};
use crate::method::{Method, method_named};
use crate::params::first_unknown;
use crate::reading::call_of;
use floor_config::Text;
use json::{Error, Scratch, Value};
use std::alloc::{AllocError, Global};

/// How many bytes a line has at most, without its line feed.
pub const MAX_LINE: usize = 1_048_576;

/// How many bytes the text of an `id` has at most.
pub const MAX_ID: usize = 64;

/// What a line of a program is: a request, or why it is none.
#[derive(Drop)]
pub struct Received {
    /// What the answer bears; `None` where none is to be given, neither a result nor an error.
    pub id: Option<Id>,
    /// What is called, or why nothing is.
    pub call: Result<Call, RequestFault>,
}

/// A request, as a program writes it.
#[derive(Drop)]
pub struct Request {
    /// What the answer is to bear; without it none is given.
    pub id: Option<Id>,
    pub call: Call,
}

/// What a line is, which has no line feed; `None` where it is empty, and says nothing.
///
/// It is refused by the first that applies: `TooLong`, `NotJson`, `NotRequest`, `NoMethod`, and then what
/// is wrong with its parameters: one that the method doesn't know, and then the others in the order in which
/// the method has them. `scratch` is room that is kept from line to line. Where memory is refused nothing is
/// known of the line.
pub fn read_request(
    alloc: Global,
    scratch: &mut Scratch,
    line: &[u8],
) -> Result<Option<Received>, AllocError>
    ensures value { IfOk result
        (λ received. MatchOption received (line.now ≡ []) (IsReceived line.now)) }
{
    if line.is_empty() {
        return Ok(None);
    }
    if MAX_LINE < line.len() {
        return Ok(Some(refused(RequestFault::TooLong)));
    }
    match std::str::from_utf8(line) {
        Err(_) => Ok(Some(refused(RequestFault::NotJson))),
        Ok(text) => Ok(Some(read_text(alloc, scratch, text)?)),
    }
}

/// What a text is.
fn read_text(alloc: Global, scratch: &mut Scratch, text: &str) -> Result<Received, AllocError>
    ensures { IfOk result (Says (document text.now)) }
{
    match Value::parse_strict(alloc, text, scratch) {
        Ok(value) => read_value(alloc, &value),
        Err(Error::OutOfMemory) => Err(AllocError),
        Err(Error::DuplicateKey) => Ok(refused(RequestFault::NotRequest)),
        Err(Error::Invalid | Error::TooLong) => Ok(refused(RequestFault::NotJson)),
    }
}

/// What is refused before an id is known.
fn refused(fault: RequestFault) -> Received
    ensures { result ≡ refused fault }
{
    Received {
        id: Some(Id::Null),
        call: Err(fault),
    }
}

/// What a value is.
fn read_value(alloc: Global, value: &Value<'_>) -> Result<Received, AllocError>
    requires { HasNumbers (value_view value.now) }
    ensures { IfOk result (λ r. r ≡ received (value_view value.now)) }
{
    match id_of(alloc, value) {
        Err(RequestFault::Memory) => Err(AllocError),
        Err(_) => Ok(refused(RequestFault::NotRequest)),
        Ok(id) => match request_call(alloc, value) {
            Err(RequestFault::Memory) => Err(AllocError),
            Err(RequestFault::NotRequest) => Ok(Received {
                id: Some(id.unwrap_or(Id::Null)),
                call: Err(RequestFault::NotRequest),
            }),
            call => Ok(Received { id, call }),
        },
    }
}

/// The id of a request, where it has one.
fn id_of(alloc: Global, value: &Value<'_>) -> Result<Option<Id>, RequestFault>
    requires { HasNumbers (value_view value.now) }
    ensures { Reads (id_of (value_view value.now)) result }
{
    match value {
        Value::Object(_) => match value.get("id") {
            None => Ok(None),
            Some(id) => Ok(Some(read_id(alloc, id)?)),
        },
        _ => Err(RequestFault::NotRequest),
    }
}

fn read_id(alloc: Global, value: &Value<'_>) -> Result<Id, RequestFault>
    requires { HasNumbers (value_view value.now) }
    ensures { Reads (id_in (value_view value.now)) result }
{
    match value {
        Value::Null => Ok(Id::Null),
        Value::Number(text) if text.len() <= MAX_ID => {
            Ok(Id::Number(Numeral::of_number(alloc, text)?))
        }
        Value::String(text) if text.len() <= MAX_ID => {
            Ok(Id::Text(Text::from_string(String::from_str(alloc, text)?)))
        }
        _ => Err(RequestFault::NotRequest),
    }
}

/// What a request calls.
fn request_call(alloc: Global, value: &Value<'_>) -> Result<Call, RequestFault>
    ensures { Reads (request_call (value_view value.now)) result }
{
    if !may_be_version(value.get("jsonrpc")) {
        return Err(RequestFault::NotRequest);
    }
    match first_unknown(value, &["jsonrpc", "id", "method", "params"]) {
        Some(_) => Err(RequestFault::NotRequest),
        None => {
            let method = method_in(value.get("method"))?;
            call_with(alloc, method, value.get("params"))
        }
    }
}

/// Whether a request is of the version 2.0, or doesn't say of which.
fn may_be_version(version: Option<&Value<'_>>) -> bool
    ensures { result ≡ may_be_version (option_map (λ v. value_view v.now) version.entry) }
{
    match version {
        None => true,
        Some(value) => match value.as_str() {
            None => false,
            Some(text) => text == "2.0",
        },
    }
}

fn method_in(name: Option<&Value<'_>>) -> Result<Method, RequestFault>
    ensures { result ≡ method_in (option_map (λ v. value_view v.now) name.entry) }
{
    match name {
        None => Err(RequestFault::NotRequest),
        Some(value) => match value.as_str() {
            None => Err(RequestFault::NotRequest),
            Some(text) => match method_named(text) {
                None => Err(RequestFault::NoMethod),
                Some(method) => Ok(method),
            },
        },
    }
}

/// The call of a method: without parameters, or with those of an object.
fn call_with(
    alloc: Global,
    method: Method,
    params: Option<&Value<'_>>,
) -> Result<Call, RequestFault>
    ensures { Reads (with_params method (option_map (λ v. value_view v.now) params.entry)) result }
{
    match params {
        None => call_of(alloc, method, &Value::Object(Vec::new(alloc))),
        Some(value) => match value {
            Value::Object(_) => call_of(alloc, method, value),
            Value::Array(_) => match value.at(0) {
                None => call_of(alloc, method, &Value::Object(Vec::new(alloc))),
                Some(_) => Err(RequestFault::BadParam {
                    param: None,
                    why: Why::Unnamed,
                }),
            },
            _ => Err(RequestFault::BadParam {
                param: None,
                why: Why::Unnamed,
            }),
        },
    }
}
