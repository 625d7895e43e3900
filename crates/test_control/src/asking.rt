//! What clients ask, as lines.

use crate::happening::{Ask, port_of};
use std::alloc::{AllocError, Global};

/// The word that observers aren't told.
pub const SECRET: &str = "a-word-for-one-alone";

/// The line of a request: with this id, where it has one.
pub fn line_of(alloc: Global, ask: Ask, id: Option<u32>) -> Result<String, AllocError> {
    if ask == Ask::NoJson {
        return String::from_str(alloc, "{\"id\":7,\n");
    }
    let mut line = match id {
        Some(id) => format!(in alloc;
            "{{\"id\":{id},\"method\":\"{}\",\"params\":",
            method_of(ask)
        )?,
        None => format!(in alloc; "{{\"method\":\"{}\",\"params\":", method_of(ask))?,
    };
    line.push_str(params_of(alloc, ask)?.as_str())?;
    line.push_str("}\n")?;
    Ok(line)
}

fn method_of(ask: Ask) -> &'static str {
    match ask {
        Ask::Open(_) | Ask::OpenText(_) | Ask::NoParams => "conference.open",
        Ask::List => "conference.list",
        Ask::Get(_) => "conference.get",
        Ask::Close(_) => "conference.close",
        Ask::Forget(_) => "conference.forget",
        Ask::AddUser(_) | Ask::AddPort { .. } => "user.add",
        Ask::AddFloor(_) => "floor.add",
        Ask::SetChair { .. } => "floor.chair",
        Ask::Remove { .. } | Ask::RemoveMember { .. } => "member.remove",
        Ask::Admit { .. } => "user.admit",
        Ask::Create { .. } => "request.create",
        Ask::Release { .. } => "request.release",
        Ask::Accept { .. } => "request.accept",
        Ask::Grant { .. } => "request.grant",
        Ask::Deny { .. } => "request.deny",
        Ask::Revoke { .. } => "request.revoke",
        Ask::SetWord { .. } => "word.set",
        Ask::Words(_) => "word.get",
        Ask::Watch { .. } | Ask::WatchAll => "watch",
        Ask::Unwatch(_) | Ask::UnwatchAll => "unwatch",
        Ask::Journal { .. } => "journal",
        Ask::Status => "server.status",
        Ask::Help => "help",
        Ask::NoJson | Ask::NoMethod => "conference.sing",
    }
}

fn params_of(alloc: Global, ask: Ask) -> Result<String, AllocError> {
    match ask {
        Ask::Open(c) => parts_of(alloc, c),
        Ask::OpenText(c) => text_of(alloc, c),
        Ask::Get(c) | Ask::Close(c) | Ask::Forget(c) | Ask::Words(c) => {
            format!(in alloc; "{{\"conference\":{c}}}")
        }
        Ask::AddUser(c) => format!(in alloc; "{{\"conference\":{c},\"name\":\"Late\"}}"),
        Ask::AddPort {
            conference: c,
            user,
        } => {
            let port = port_of(c, user);
            format!(in alloc; "{{\"conference\":{c},\"id\":{user},\"port\":{port}}}")
        }
        Ask::AddFloor(c) => {
            format!(in alloc; "{{\"conference\":{c},\"chair\":1,\"title\":\"Extra\"}}")
        }
        Ask::SetChair {
            conference: c,
            floor,
            user,
        } => set_chair(alloc, c, floor, user),
        Ask::Remove {
            conference: c,
            user,
        }
        | Ask::Admit {
            conference: c,
            user,
        } => { format!(in alloc; "{{\"conference\":{c},\"user\":{user}}}") }
        Ask::RemoveMember { conference: c, n } => {
            format!(in alloc; "{{\"conference\":{c},\"member\":{n}}}")
        }
        Ask::Create {
            conference: c,
            user,
            floor,
        } => format!(in alloc;
            "{{\"conference\":{c},\"for\":{user},\"floors\":[{floor}],\"info\":\"please\"}}"
        ),
        Ask::Release {
            conference: c,
            request,
        }
        | Ask::Revoke {
            conference: c,
            request,
        } => { format!(in alloc; "{{\"conference\":{c},\"request\":{request}}}") }
        Ask::Accept {
            conference: c,
            request,
        }
        | Ask::Grant {
            conference: c,
            request,
        }
        | Ask::Deny {
            conference: c,
            request,
        } => { format!(in alloc; "{{\"conference\":{c},\"request\":{request},\"reason\":\"so\"}}") }
        Ask::SetWord {
            conference: c,
            user,
        } => {
            format!(in alloc;
                "{{\"conference\":{c},\"key\":\"token.{user}\",\"text\":\"{SECRET}\"}}"
            )
        }
        Ask::Watch { .. } | Ask::Unwatch(_) | Ask::Journal { .. } => watching(alloc, ask),
        Ask::WatchAll | Ask::UnwatchAll => String::from_str(alloc, "{\"all\":true}"),
        Ask::NoParams => String::from_str(alloc, "{\"users\":[]}"),
        _ => String::from_str(alloc, "{}"),
    }
}

fn watching(alloc: Global, ask: Ask) -> Result<String, AllocError> {
    match ask {
        Ask::Watch {
            conference,
            from: Some(from),
        } => format!(in alloc;
            "{{\"conferences\":[{{\"conference\":{conference},\"from\":{from}}}]}}"
        ),
        Ask::Watch { conference, .. } | Ask::Unwatch(conference) => {
            format!(in alloc; "{{\"conferences\":[{{\"conference\":{conference}}}]}}")
        }
        Ask::Journal { conference, from } => {
            format!(in alloc; "{{\"conference\":{conference},\"from\":{from},\"count\":20}}")
        }
        _ => String::from_str(alloc, "{}"),
    }
}

fn set_chair(alloc: Global, c: u32, floor: u16, user: u16) -> Result<String, AllocError> {
    if user == 0 {
        format!(in alloc; "{{\"conference\":{c},\"floor\":{floor},\"chair\":null}}")
    } else {
        format!(in alloc; "{{\"conference\":{c},\"floor\":{floor},\"chair\":{user}}}")
    }
}

/// Users 1, 10, 11 and 12, of whom 12 is a proxy and two have ports, and floors 1 to 3, of which 1 has no chair.
fn parts_of(alloc: Global, c: u32) -> Result<String, AllocError> {
    let (ten, eleven) = (port_of(c, 10), port_of(c, 11));
    let users = format!(in alloc;
        "{{\"id\":1,\"name\":\"Chair\"}},{{\"id\":10,\"port\":{ten}}},{{\"id\":11,\"port\":{eleven}}},{{\"id\":12,\"proxy\":true}}"
    )?;
    let floors = "{\"id\":1},{\"id\":2,\"chair\":1},{\"id\":3,\"room\":2,\"chair\":10}";
    format!(in alloc;
        "{{\"id\":{c},\"title\":\"Board {c}\",\"users\":[{users}],\"floors\":[{floors}]}}"
    )
}

/// A conference of user 10 and floor 1, as the text of a configuration.
fn text_of(alloc: Global, c: u32) -> Result<String, AllocError> {
    let ten = port_of(c, 10);
    let users = format!(in alloc; "user = [{{ id = 10, port = {ten} }}]\\n")?;
    format!(in alloc;
        "{{\"toml\":\"[[conference]]\\nid = {c}\\n{users}floor = [{{ id = 1 }}]\\n\"}}"
    )
}
