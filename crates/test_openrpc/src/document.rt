//! The document: the table and the shapes as OpenRPC has them, a method a line. No text of theirs has a quote or a
//! backslash.

use crate::shapes::{EVENTS, SHAPES};
use crate::table::{OBJECTS, Parameter, line_of, most_of, parameters};
use floor_rpc::{ERRORS, ErrorName, METHODS, Method};
use std::alloc::{AllocError, Global};

/// What refuses any request.
static COMMON: [ErrorName; 6] = [
    ErrorName::NotJson,
    ErrorName::NotRequest,
    ErrorName::NoMethod,
    ErrorName::BadParams,
    ErrorName::TooLong,
    ErrorName::Memory,
];

/// Writes the whole document.
pub fn write_document(alloc: Global, text: &mut String) -> Result<(), AllocError> {
    text.push_str("{\"openrpc\":\"1.2.6\",\"info\":{\"title\":\"floorhub\",\"version\":\"1\",")?;
    text.push_str(
        "\"description\":\"Requests of programs to a floor control server (BFCP, RFC 8855), a line each at its control socket. Methods with the tag observe may be called at the socket of those that look alone.\"},\n",
    )?;
    text.push_str("\"methods\":[")?;
    for (index, method) in METHODS.iter().enumerate() {
        text.push_str(if index == 0 { "\n" } else { ",\n" })?;
        write_method(alloc, text, method)?;
    }
    text.push_str("],\n\"x-notifications\":[\n")?;
    text.push_str(
        "{\"name\":\"event\",\"summary\":\"An event of a conference shows something.\",\"schema\":{\"$ref\":\"#/components/schemas/EventTold\"}},\n",
    )?;
    text.push_str(
        "{\"name\":\"server\",\"summary\":\"Something happened beside the events of a conference.\",\"schema\":{\"$ref\":\"#/components/schemas/ServerTold\"}}],\n",
    )?;
    text.push_str("\"components\":{\"errors\":{")?;
    for (index, error) in ERRORS.iter().enumerate() {
        let name = *error;
        text.push_str(if index == 0 { "\n" } else { ",\n" })?;
        write!(text, "\"{}\":", name.number())?;
        write_error(text, name)?;
    }
    text.push_str("},\n\"schemas\":{")?;
    write_inputs(alloc, text)?;
    write_shapes(text)?;
    write_events(text)?;
    text.push_str("}}}\n")
}

fn write_method(alloc: Global, text: &mut String, method: &Method) -> Result<(), AllocError> {
    let (forms, result) = (line_of(method.name(), 1), line_of(method.name(), 2));
    let (errors, summary) = (line_of(method.name(), 3), line_of(method.name(), 4));
    write!(
        text,
        "{{\"name\":\"{}\",\"summary\":\"{summary}\",",
        method.name()
    )?;
    if method.is_observing() {
        text.push_str("\"tags\":[{\"name\":\"observe\"}],")?;
    }
    text.push_str("\"paramStructure\":\"by-name\",\"params\":[")?;
    for (index, name) in method.parameters().iter().enumerate() {
        if 0 < index {
            text.push_str(",")?;
        }
        write_parameter(alloc, text, forms, name)?;
    }
    write!(
        text,
        "],\"result\":{{\"name\":\"result\",\"schema\":{{\"$ref\":\"#/components/schemas/{result}\"}}}},\"errors\":["
    )?;
    for (index, error) in ERRORS.iter().enumerate() {
        let name = *error;
        let is_forbidden = name == ErrorName::Forbidden && !method.is_observing();
        if COMMON.contains(&name) || is_forbidden || errors.split(' ').any(|it| it == name.name()) {
            let comma = if index == 0 { "" } else { "," };
            write!(
                text,
                "{comma}{{\"$ref\":\"#/components/errors/{}\"}}",
                name.number()
            )?;
        }
    }
    text.push_str("]}")
}

/// A parameter of a method, which is needed where each form needs it.
fn write_parameter(
    alloc: Global,
    text: &mut String,
    forms: &str,
    name: &str,
) -> Result<(), AllocError> {
    let mut is_needed = true;
    let mut kind = "text";
    for form in forms.split('/') {
        match parameters(alloc, form)?
            .iter()
            .find(|parameter| parameter.name == name)
        {
            Some(parameter) => {
                kind = parameter.kind;
                is_needed = is_needed && parameter.is_needed;
            }
            None => is_needed = false,
        }
    }
    write!(
        text,
        "{{\"name\":\"{name}\",\"required\":{is_needed},\"schema\":"
    )?;
    write_kind(text, kind)?;
    text.push_str("}")
}

fn write_kind(text: &mut String, kind: &str) -> Result<(), AllocError> {
    if let Some(kind) = kind.strip_suffix("?") {
        text.push_str("{\"oneOf\":[")?;
        write_one_kind(text, kind)?;
        return text.push_str(",{\"type\":\"null\"}]}");
    }
    if let Some(kind) = kind.strip_suffix("[]") {
        text.push_str("{\"type\":\"array\",\"items\":")?;
        write_one_kind(text, kind)?;
        return text.push_str("}");
    }
    write_one_kind(text, kind)
}

fn write_one_kind(text: &mut String, kind: &str) -> Result<(), AllocError> {
    match (most_of(kind), kind) {
        (Some(most), _) => {
            write!(
                text,
                "{{\"type\":\"integer\",\"minimum\":0,\"maximum\":{most}}}"
            )
        }
        (None, "flag") => text.push_str("{\"type\":\"boolean\"}"),
        (None, "text") => text.push_str("{\"type\":\"string\"}"),
        (None, name) => write!(text, "{{\"$ref\":\"#/components/schemas/{name}\"}}"),
    }
}

fn write_error(text: &mut String, error: ErrorName) -> Result<(), AllocError> {
    write!(
        text,
        "{{\"code\":{},\"message\":\"{}\"}}",
        error.number(),
        error.name()
    )
}

/// Writes the objects among the parameters.
fn write_inputs(alloc: Global, text: &mut String) -> Result<(), AllocError> {
    for (index, line) in OBJECTS.lines().enumerate() {
        let (name, members) = line.split_once(' ').unwrap_or((line, ""));
        text.push_str(if index == 0 { "\n" } else { ",\n" })?;
        write!(
            text,
            "\"{name}\":{{\"type\":\"object\",\"additionalProperties\":false,\"required\":["
        )?;
        let members: Vec<Parameter<'_>> = parameters(alloc, members)?;
        let mut count = 0u32;
        for member in &members {
            if member.is_needed {
                let comma = if count == 0 { "" } else { "," };
                write!(text, "{comma}\"{}\"", member.name)?;
                count = count.saturating_add(1);
            }
        }
        text.push_str("],\"properties\":{")?;
        for (index, member) in members.iter().enumerate() {
            let comma = if index == 0 { "" } else { "," };
            write!(text, "{comma}\"{}\":", member.name)?;
            write_kind(text, member.kind)?;
        }
        text.push_str("}}")?;
    }
    Ok(())
}

fn write_shapes(text: &mut String) -> Result<(), AllocError> {
    for line in SHAPES.lines() {
        let (name, members) = line.split_once(' ').unwrap_or((line, ""));
        write!(text, ",\n\"{name}\":")?;
        write_object(text, members, "")?;
    }
    Ok(())
}

/// What an event is: one of these.
fn write_events(text: &mut String) -> Result<(), AllocError> {
    text.push_str(",\n\"What\":{\"oneOf\":[")?;
    for (index, line) in EVENTS.lines().enumerate() {
        text.push_str(if index == 0 { "\n" } else { ",\n" })?;
        let (name, members) = line.split_once(' ').unwrap_or((line, ""));
        write_object(text, members, name)?;
    }
    text.push_str("]}")
}

/// An object with these members, in this order, behind the name of an event where it is one.
fn write_object(text: &mut String, members: &str, event: &str) -> Result<(), AllocError> {
    text.push_str("{\"type\":\"object\",\"additionalProperties\":false,\"required\":[")?;
    if !event.is_empty() {
        text.push_str("\"event\"")?;
    }
    for (index, member) in members.split_whitespace().enumerate() {
        let (name, _) = member.split_once(':').unwrap_or((member, ""));
        let comma = if index == 0 && event.is_empty() {
            ""
        } else {
            ","
        };
        write!(text, "{comma}\"{name}\"")?;
    }
    text.push_str("],\"properties\":{")?;
    if !event.is_empty() {
        write!(text, "\"event\":{{\"const\":\"{event}\"}}")?;
    }
    for (index, member) in members.split_whitespace().enumerate() {
        let (name, kind) = member.split_once(':').unwrap_or((member, ""));
        let comma = if index == 0 && event.is_empty() {
            ""
        } else {
            ","
        };
        write!(text, "{comma}\"{name}\":")?;
        write_shape(text, kind)?;
    }
    text.push_str("}}")
}

fn write_shape(text: &mut String, kind: &str) -> Result<(), AllocError> {
    match kind {
        "number" => return text.push_str("{\"type\":\"integer\"}"),
        "flag" => return text.push_str("{\"type\":\"boolean\"}"),
        "text" => return text.push_str("{\"type\":\"string\"}"),
        "number?" => return text.push_str("{\"type\":[\"integer\",\"null\"]}"),
        "text?" => return text.push_str("{\"type\":[\"string\",\"null\"]}"),
        "number[]" => {
            return text.push_str("{\"type\":\"array\",\"items\":{\"type\":\"integer\"}}");
        }
        "text[]" => return text.push_str("{\"type\":\"array\",\"items\":{\"type\":\"string\"}}"),
        "text{}" => {
            return text.push_str(
                "{\"type\":\"object\",\"additionalProperties\":{\"type\":\"string\"}}",
            );
        }
        _ => {}
    }
    match kind.strip_suffix("[]") {
        Some(name) => write!(
            text,
            "{{\"type\":\"array\",\"items\":{{\"$ref\":\"#/components/schemas/{name}\"}}}}"
        ),
        None => write!(text, "{{\"$ref\":\"#/components/schemas/{kind}\"}}"),
    }
}
