//! What a command's words ask for: a request's line.

use floor_rpc::{Method, method_named};
use json::Writer;
use std::alloc::{AllocError, AllocFailed, Global};

/// The commands: a line each, its name, its method, and the parameters that its words are in order. Behind these, or in
/// their place, stand the names of parameters, each with its value. A part of what a conference is shown by is behind `=`.
const COMMANDS: &str = "\
list conference.list
show conference.get conference
people conference.get conference =users
floors conference.get conference =floors
requests conference.get conference =requests
words word.get conference
journal journal conference
watch watch conference
status server.status
methods help
open conference.open toml
close conference.close conference
forget conference.forget conference
user user.add conference
floor floor.add conference
chair floor.chair conference floor chair
remove member.remove conference user
admit user.admit conference user
ask request.create conference for floors
release request.release conference request
accept request.accept conference request
grant request.grant conference request
deny request.deny conference request
revoke request.revoke conference request
word word.set conference key text
drain server.drain
stop server.stop
";

/// Why words ask for nothing.
#[derive(Drop)]
pub enum WordsFault<'a> {
    /// No command has this name.
    NoCommand(&'a str),
    /// The command has no place for this word.
    Unknown(&'a str),
    /// Nothing stands behind this name.
    NoValue(&'a str),
    /// This isn't a number, or a list of them.
    NoNumber(&'a str),
    /// Memory was refused.
    Memory,
}

impl<'a, T: Drop> From<AllocFailed<T>> for WordsFault<'a> {
    fn from(_e: AllocFailed<T>) -> WordsFault<'a> {
        WordsFault::Memory
    }
}

impl<'a> From<AllocError> for WordsFault<'a> {
    fn from(_e: AllocError) -> WordsFault<'a> {
        WordsFault::Memory
    }
}

/// A command, and what its words say.
#[derive(Drop)]
pub struct Order<'a> {
    pub method: Method,
    /// The part of a conference that is shown; none for all of it.
    pub part: &'static str,
    /// The parameters, in the order of the words, with their words.
    pub given: Vec<(&'a str, &'a str)>,
}

/// What the words of a command ask for.
pub fn order_of<'a>(alloc: Global, words: &'a [String]) -> Result<Order<'a>, WordsFault<'a>> {
    let Some(name) = words.first() else {
        return Err(WordsFault::NoCommand(""));
    };
    let Some((method, rest)) = command_named(name.as_str()) else {
        return Err(WordsFault::NoCommand(name.as_str()));
    };
    let mut order = Order {
        method,
        part: "",
        given: Vec::new(alloc),
    };
    let mut left = words.iter().skip(1);
    let mut next = left.next();
    for place in rest.split_whitespace() {
        if let Some(part) = place.strip_prefix("=") {
            order.part = part;
        } else if let Some(word) = next {
            if is_parameter(&method, word.as_str()) {
                break;
            }
            order.given.push((place, word.as_str()))?;
            next = left.next();
        }
    }
    // What stands behind: names, each with its value.
    for _ in 0..words.len() {
        let Some(name) = next else {
            break;
        };
        if !is_parameter(&method, name.as_str()) {
            return Err(WordsFault::Unknown(name.as_str()));
        }
        let Some(value) = left.next() else {
            return Err(WordsFault::NoValue(name.as_str()));
        };
        order.given.push((name.as_str(), value.as_str()))?;
        next = left.next();
    }
    Ok(order)
}

/// The method of a command, and what stands behind it in the table.
fn command_named(name: &str) -> Option<(Method, &'static str)> {
    for line in COMMANDS.lines() {
        let (found, rest) = line.split_once(' ').unwrap_or((line, ""));
        if found == name {
            let (method, rest) = rest.split_once(' ').unwrap_or((rest, ""));
            return method_named(method).map(|method| (method, rest));
        }
    }
    None
}

/// Whether a word is the name of one of the method's parameters, or of an item's that it has.
fn is_parameter(method: &Method, word: &str) -> bool {
    match method {
        Method::Watch => word == "from",
        Method::ConferenceOpen => method.parameters().iter().any(|name| *name == word)
            && word != "users"
            && word != "floors",
        _ => method.parameters().iter().any(|name| *name == word),
    }
}

/// Writes the line of a request by which the order is asked for; the text of a file is in place of its path.
pub fn line_of<'a>(
    alloc: Global,
    order: &Order<'a>,
    text: &str,
) -> Result<Vec<u8>, WordsFault<'a>> {
    let mut writer = Writer::new(Vec::new(alloc));
    writer.begin_object()?;
    writer.key("id")?;
    writer.u64(1)?;
    writer.key("method")?;
    writer.string(order.method.name())?;
    writer.key("params")?;
    writer.begin_object()?;
    match order.method {
        Method::Watch => write_watching(&mut writer, &order.given)?,
        Method::ConferenceOpen => write_opening(&mut writer, &order.given, text)?,
        _ => write_given(&mut writer, &order.given)?,
    }
    writer.end_object()?;
    writer.end_object()?;
    let mut line = writer.into_inner();
    line.push(b'\n')?;
    Ok(line)
}

fn write_given<'a>(
    writer: &mut Writer,
    given: &[(&'a str, &'a str)],
) -> Result<(), WordsFault<'a>> {
    for (name, value) in given {
        writer.key(name)?;
        write_value(writer, name, value)?;
    }
    Ok(())
}

/// The conference that is watched, or all.
fn write_watching<'a>(
    writer: &mut Writer,
    given: &[(&'a str, &'a str)],
) -> Result<(), WordsFault<'a>> {
    if given.is_empty() {
        writer.key("all")?;
        writer.boolean(true)?;
        return Ok(());
    }
    writer.key("conferences")?;
    writer.begin_array()?;
    writer.begin_object()?;
    write_given(writer, given)?;
    writer.end_object()?;
    writer.end_array()?;
    Ok(())
}

/// The text of a file, or the parts of a conference that has no users and floors yet.
fn write_opening<'a>(
    writer: &mut Writer,
    given: &[(&'a str, &'a str)],
    text: &str,
) -> Result<(), WordsFault<'a>> {
    if given.iter().any(|(name, _)| *name == "toml") {
        writer.key("toml")?;
        writer.string(text)?;
        return Ok(());
    }
    write_given(writer, given)?;
    for name in ["users", "floors"] {
        writer.key(name)?;
        writer.begin_array()?;
        writer.end_array()?;
    }
    Ok(())
}

/// Writes a word as the value of the parameter of this name.
fn write_value<'a>(writer: &mut Writer, name: &str, value: &'a str) -> Result<(), WordsFault<'a>> {
    match name {
        "text" | "chair" if value == "-" => writer.null()?,
        "title" | "name" | "uri" | "info" | "reason" | "key" | "text" => writer.string(value)?,
        "proxy" => match value {
            "yes" => writer.boolean(true)?,
            "no" => writer.boolean(false)?,
            _ => return Err(WordsFault::Unknown(value)),
        },
        "floors" => {
            writer.begin_array()?;
            for number in value.split(',') {
                write_number(writer, number)?;
            }
            writer.end_array()?;
        }
        _ => write_number(writer, value)?,
    }
    Ok(())
}

fn write_number<'a>(writer: &mut Writer, value: &'a str) -> Result<(), WordsFault<'a>> {
    match value.parse() {
        Ok(number) => {
            writer.u64(number)?;
            Ok(())
        }
        Err(_) => Err(WordsFault::NoNumber(value)),
    }
}
