//! Values as JSON, written a token at a time.

ghost use Rattle.std.specs.Prelude.{◌≡◌, ◌∷◌, [], option_map};
ghost use Rattle.json.specs.Token as token;
ghost use Rattle.json.specs.Json as json;
ghost use Rattle.json.specs.Tree.{json_tokens};
ghost use Rattle.floor_rpc.specs.Json.{Adds, list_json, number_json, object_of, one_member, option_json, two_members, value_tokens};

use crate::list::List;
use floor_config::Text;
use json::Writer;
use std::alloc::AllocError;

/// A value that has one spelling as JSON.
pub trait ToJson {
    ghost use Rattle.json.specs.Json.{Json};

    ghost json: { Self → Json };

    /// Writes the value behind what was written.
    fn write(&self, writer: &mut Writer) -> Result<(), AllocError>
        ensures { Adds result writer.old writer.new (json_tokens (json self.now)) };
}

impl ToJson for u16 {
    ghost json = { number_json };

    fn write(&self, writer: &mut Writer) -> Result<(), AllocError> {
        let number = *self;
        writer.u64(u64::from(number))
    }
}

impl ToJson for u32 {
    ghost json = { number_json };

    fn write(&self, writer: &mut Writer) -> Result<(), AllocError> {
        let number = *self;
        writer.u64(u64::from(number))
    }
}

impl ToJson for u64 {
    ghost json = { number_json };

    fn write(&self, writer: &mut Writer) -> Result<(), AllocError> {
        let number = *self;
        writer.u64(number)
    }
}

impl ToJson for bool {
    ghost json = { json.boolean };

    fn write(&self, writer: &mut Writer) -> Result<(), AllocError> {
        writer.boolean(*self)
    }
}

impl ToJson for Text {
    ghost json = { json.string };

    fn write(&self, writer: &mut Writer) -> Result<(), AllocError> {
        writer.string(self.as_str())
    }
}

impl<T: ToJson> ToJson for Option<T> {
    ghost json = { option_json T.json };

    fn write(&self, writer: &mut Writer) -> Result<(), AllocError> {
        match self {
            Some(value) => value.write(writer),
            None => writer.null(),
        }
    }
}

impl<T: ToJson> ToJson for List<T> {
    ghost json = { list_json T.json };

    fn write(&self, writer: &mut Writer) -> Result<(), AllocError> {
        write_items(writer, self.as_slice())
    }
}

/// Writes values as an array.
pub(crate) fn write_items<T: ToJson>(writer: &mut Writer, items: &[T]) -> Result<(), AllocError>
    ensures { Adds result writer.old writer.new (json_tokens (list_json T.json items.now)) }
{
    writer.begin_array()?;
    for item in items {
        item.write(writer)?;
    }
    writer.end_array()
}

/// Writes a member of an object.
pub(crate) fn member<T: ToJson>(writer: &mut Writer, key: &str, value: &T) -> Result<(), AllocError>
    ensures { Adds result writer.old writer.new (token.key key.now ∷ json_tokens (T.json value.now)) }
{
    writer.key(key)?;
    value.write(writer)
}

/// Writes a member of an object that is a text.
pub(crate) fn text_member(writer: &mut Writer, key: &str, text: &str) -> Result<(), AllocError>
    ensures { Adds result writer.old writer.new (token.key key.now ∷ token.string text.now ∷ []) }
{
    writer.key(key)?;
    writer.string(text)
}

/// Writes a member of an object, or nothing where its value isn't there.
pub(crate) fn optional_member<T: ToJson>(
    writer: &mut Writer,
    key: &str,
    value: &Option<T>,
) -> Result<(), AllocError>
    ensures { Adds result writer.old writer.new
        (value_tokens key.now (option_map T.json value.now)) }
{
    match value {
        Some(value) => member(writer, key, value),
        None => Ok(()),
    }
}

/// Writes an object without members.
pub(crate) fn write_nothing(writer: &mut Writer) -> Result<(), AllocError>
    ensures { Adds result writer.old writer.new (json_tokens (object_of [])) }
{
    writer.begin_object()?;
    writer.end_object()
}

/// Writes an object of one member.
pub(crate) fn write_one<T: ToJson>(
    writer: &mut Writer,
    key: &str,
    value: &T,
) -> Result<(), AllocError>
    ensures { Adds result writer.old writer.new
        (json_tokens (one_member key.now (T.json value.now))) }
{
    writer.begin_object()?;
    member(writer, key, value)?;
    writer.end_object()
}

/// Writes an object of two members.
pub(crate) fn write_two<A: ToJson, B: ToJson>(
    writer: &mut Writer,
    key: &str,
    value: &A,
    other_key: &str,
    other: &B,
) -> Result<(), AllocError>
    ensures { Adds result writer.old writer.new
        (json_tokens (two_members key.now (A.json value.now) other_key.now (B.json other.now))) }
{
    writer.begin_object()?;
    member(writer, key, value)?;
    member(writer, other_key, other)?;
    writer.end_object()
}
