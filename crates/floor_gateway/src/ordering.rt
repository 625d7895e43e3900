//! What pages have done: an operator's orders, a chair's, and how somebody joins who has the link for guests.
//!
//! Whatever is ordered comes to lines of the server's control socket, asked by a client of its own, and is told to the
//! log with who gave it and what was answered. No token is.

use crate::entry::{Entry, Orderer, Place};
use crate::gateway::{Gateway, Role, Seat, Whom};
use crate::order;
use floor_web::{
    Joining, Order, OrderFault, Refusal, guest_line, line_of, read_joining, read_name, read_order,
    token_line,
};
use std::alloc::{AllocError, Global};
use std::net::{Net, TcpListener, TcpStream};
use std::sync::Wait;
use std::time::Clock;

/// How many User IDs are tried for a guest: a conference has no more users.
const MAX_TRIES: u16 = 256;

/// What answers an order.
#[derive(Drop)]
pub enum Answer {
    /// It is none, or whoever gives it may give none.
    Refused(Refusal),
    /// What the server answered, or `error` with the name of the fault.
    Says(String),
}

/// Has done what the operator's page orders, by the server's line for it.
pub fn obey_operator<R>(
    rt: &R,
    alloc: Global,
    gateway: &Gateway,
    token: &[u8],
    order: &[u8],
) -> Result<Answer, AllocError>
where
    R: Net<Listener = TcpListener, Stream = TcpStream> + Clock + Wait,
{
    let Some(path) = &gateway.control else {
        return Ok(Answer::Refused(Refusal::NotFound));
    };
    let Some(role) = gateway.role(token) else {
        return Ok(Answer::Refused(Refusal::NotFound));
    };
    let order = std::str::from_utf8(order).unwrap_or("");
    let line = order::line_of(alloc, order)?;
    if role == Role::Observes {
        if line.is_some() {
            let who = Orderer::Observer;
            tell(rt, gateway, who, order, Refusal::Forbidden.status());
        }
        return Ok(Answer::Refused(Refusal::Forbidden));
    }
    let Some(line) = line else {
        return Ok(Answer::Refused(Refusal::BadRequest));
    };
    let Some(granted) = gateway.enter_operator(rt) else {
        return Ok(Answer::Refused(Refusal::Unavailable));
    };
    let place = granted.taken();
    let answered = order::asked(rt, alloc, path.as_str(), line.as_str());
    gateway.leave_operator(rt, place);
    let answer = match &answered {
        Ok(Some(text)) => text.as_str().trim(),
        Ok(None) | Err(_) => "no answer",
    };
    tell(rt, gateway, Orderer::Operator, order, answer);
    match answered? {
        Some(text) => Ok(Answer::Says(text)),
        None => Ok(Answer::Refused(Refusal::BadGateway)),
    }
}

/// Has done what a user orders, who has to be a chair; or has somebody join.
pub fn obey_user<R>(
    rt: &R,
    alloc: Global,
    gateway: &Gateway,
    whom: Option<Whom>,
    order: &[u8],
) -> Result<Answer, AllocError>
where
    R: Net<Listener = TcpListener, Stream = TcpStream> + Clock + Wait,
{
    let (Some(path), Some(whom)) = (&gateway.control, whom) else {
        return Ok(Answer::Refused(Refusal::NotFound));
    };
    let Some(granted) = gateway.enter_order(rt) else {
        return Ok(Answer::Refused(Refusal::Unavailable));
    };
    let place = granted.taken();
    let order = std::str::from_utf8(order).unwrap_or("");
    let answer = match whom {
        Whom::User(seat) => obey_chair(rt, alloc, gateway, path.as_str(), &seat, order),
        Whom::Guest(conference) => let_join(rt, alloc, gateway, path.as_str(), conference, order),
    };
    gateway.leave_order(rt, place);
    answer
}

fn obey_chair<R>(
    rt: &R,
    alloc: Global,
    gateway: &Gateway,
    path: &str,
    seat: &Seat,
    order: &str,
) -> Result<Answer, AllocError>
where
    R: Net<Listener = TcpListener, Stream = TcpStream> + Clock + Wait,
{
    let Some(order) = read_order(alloc, order)? else {
        return Ok(Answer::Refused(Refusal::BadRequest));
    };
    let text = match fault_of(rt, gateway, seat, order) {
        Some(fault) => error_text(alloc, fault)?,
        None => {
            let line = line_of(alloc, seat.conference, order)?;
            asked(rt, alloc, path, line.as_str())?
        }
    };
    let what = what_of(alloc, order)?;
    let who = Orderer::User(Place::of(seat));
    tell(rt, gateway, who, what.as_str(), text.as_str());
    Ok(Answer::Says(text))
}

/// Why a user's order isn't followed. A token that stands for somebody opens no other way in.
fn fault_of<R: Wait>(
    rt: &R,
    gateway: &Gateway,
    seat: &Seat,
    order: Order<'_>,
) -> Option<OrderFault> {
    let fault = gateway.refusal(rt, seat, order);
    match order {
        Order::Invite(token) if fault.is_none() => {
            if gateway.door.is_none() {
                Some(OrderFault::NoDoor)
            } else if gateway.is_taken(rt, token.as_bytes()) {
                Some(OrderFault::Taken)
            } else {
                None
            }
        }
        _ => fault,
    }
}

/// What the log says of an order.
fn what_of(alloc: Global, order: Order<'_>) -> Result<String, AllocError> {
    match order {
        Order::ShowOut(user) => format!(in alloc; "out {user}"),
        Order::LetIn(user) => format!(in alloc; "in {user}"),
        Order::Lock => String::from_str(alloc, "lock"),
        Order::Unlock => String::from_str(alloc, "unlock"),
        Order::Invite(_) => String::from_str(alloc, "guests"),
        Order::InviteNobody => String::from_str(alloc, "guests -"),
        Order::Limit { floor, seconds } => format!(in alloc; "limit {floor} {seconds}"),
    }
}

/// Has somebody join who has the link for guests of this conference.
fn let_join<R>(
    rt: &R,
    alloc: Global,
    gateway: &Gateway,
    path: &str,
    conference: u32,
    order: &str,
) -> Result<Answer, AllocError>
where
    R: Net<Listener = TcpListener, Stream = TcpStream> + Clock + Wait,
{
    let Some(joining) = read_joining(alloc, order)? else {
        return Ok(Answer::Refused(Refusal::BadRequest));
    };
    let text = match guest_of(rt, alloc, gateway, conference, &joining) {
        Ok(guest) => add_guest(rt, alloc, path, conference, &guest)?,
        Err(OrderFault::Memory) => return Err(AllocError),
        Err(fault) => error_text(alloc, fault)?,
    };
    tell(
        rt,
        gateway,
        Orderer::Guest(conference),
        "join",
        text.as_str(),
    );
    Ok(Answer::Says(text))
}

/// Somebody who may join.
#[derive(Drop)]
struct Guest<'a> {
    first: u16,
    token: &'a str,
    name: String,
}

fn guest_of<'a, R: Wait>(
    rt: &R,
    alloc: Global,
    gateway: &Gateway,
    conference: u32,
    joining: &Joining<'a>,
) -> Result<Guest<'a>, OrderFault> {
    let token = joining.token;
    let first = gateway.first_guest(rt, conference, token.as_bytes())?;
    // Else a link for all could be made one person's.
    if gateway.is_taken(rt, token.as_bytes()) {
        return Err(OrderFault::Taken);
    }
    let name = read_name(alloc, joining.name)?;
    Ok(Guest { first, token, name })
}

/// Adds a guest, and then says the token of whoever was added: never that of a user who was there before.
fn add_guest<R>(
    rt: &R,
    alloc: Global,
    path: &str,
    conference: u32,
    guest: &Guest<'_>,
) -> Result<String, AllocError>
where
    R: Net<Listener = TcpListener, Stream = TcpStream>,
{
    for more in 0..MAX_TRIES {
        let user = guest.first.saturating_add(more);
        let line = guest_line(alloc, conference, user, guest.name.as_str())?;
        let answer = asked(rt, alloc, path, line.as_str())?;
        if answer.as_str().starts_with("ok ") {
            let line = token_line(alloc, conference, user, guest.token)?;
            let answer = asked(rt, alloc, path, line.as_str())?;
            if answer.as_str().starts_with("ok ") {
                return format!(in alloc; "ok guest {user}");
            }
            return Ok(answer);
        }
        if answer.as_str() != "error DoubleUser" {
            return Ok(answer);
        }
    }
    error_text(alloc, OrderFault::Full)
}

/// What the server answers to a line.
fn asked<R>(rt: &R, alloc: Global, path: &str, line: &str) -> Result<String, AllocError>
where
    R: Net<Listener = TcpListener, Stream = TcpStream>,
{
    match order::asked(rt, alloc, path, line)? {
        Some(text) => String::from_str(alloc, text.as_str().trim()),
        None => error_text(alloc, OrderFault::NoAnswer),
    }
}

fn error_text(alloc: Global, fault: OrderFault) -> Result<String, AllocError> {
    format!(in alloc; "error {}", fault.name())
}

fn tell<R: Clock + Wait>(rt: &R, gateway: &Gateway, who: Orderer, what: &str, answer: &str) {
    gateway.tell(rt, &Entry::Ordered { who, what, answer });
}
