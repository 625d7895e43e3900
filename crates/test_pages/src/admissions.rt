//! Who is let into a meeting, and what a chair orders, by what the control socket tells of a conference.

use floor_follow::{Conference, FollowFault, Follower, read_line};
use floor_web::{
    Admission, Joining, Order, Titles, admission_of, bearer, guest_line, guest_of, is_invitation,
    join, let_in_line, line_of, meeting_of, put_out, read_joining, read_name, read_order,
    refusal_of, show_out_line, token_line,
};
use floor_words::read_u16;
use std::alloc::{AllocError, Global};
use std::fmt::Write;

/// What is told of a conference by the control socket's lines, and behind a line `---` what is asked of it:
///
/// - `admission USER`, `meeting USER`, `guest`: whether a user is let in, and what pages are told.
/// - `order USER TEXT`: the line that the order comes to, or why it is refused.
/// - `join TEXT`: the first User ID and the two lines, or why nobody joins; `token TEXT` whose it is.
/// - `out`: the connections that are to be ended. `operator USER`: the lines for the operator's orders.
pub fn admitted(alloc: Global, text: &str) -> Result<String, AllocError> {
    let (lines, questions) = text.split_once("---\n").unwrap_or((text, ""));
    let mut told = String::new(alloc);
    let mut follower = Follower::new(alloc);
    if follow(alloc, &mut follower, lines).is_err() {
        return String::from_str(alloc, "lines that can't be followed\n");
    }
    let Some(conference) = follower.conference(1) else {
        return String::from_str(alloc, "no conference 1\n");
    };
    for question in questions.lines() {
        push_answer(alloc, &mut told, conference, question)?;
        told.push('\n')?;
    }
    Ok(told)
}

fn follow(alloc: Global, follower: &mut Follower, lines: &str) -> Result<(), FollowFault> {
    let _question = follower.ask();
    for line in lines.lines() {
        follower.hear(read_line(alloc, line)?)?;
        let _question = follower.ask();
    }
    Ok(())
}

fn push_answer(
    alloc: Global,
    told: &mut String,
    conference: &Conference,
    question: &str,
) -> Result<(), AllocError> {
    let (word, rest) = question.split_once(' ').unwrap_or((question, ""));
    match word {
        "admission" => told.push_str(name_of(admission_of(conference, user_in(rest)))),
        "meeting" => {
            match meeting_of(alloc, conference, user_in(rest), &Titles::new(alloc))? {
                Some(text) => told.push_str(text.as_str()),
                None => told.push_str("nobody"),
            }
        }
        "guest" => {
            let text = guest_of(alloc, conference, &Titles::new(alloc))?;
            told.push_str(text.as_str())
        }
        "order" => {
            let (user, text) = rest.split_once(' ').unwrap_or((rest, ""));
            push_order(alloc, told, conference, user_in(user), text)
        }
        "operator" => {
            let user = user_in(rest);
            push_line(told, show_out_line(alloc, 1, user)?.as_str())?;
            push_line(told, let_in_line(alloc, 1, user)?.as_str())
        }
        "join" => push_joining(alloc, told, conference, question),
        "token" => match bearer(conference, rest.as_bytes()) {
            Some(user) => write!(told, "user {user}"),
            None if is_invitation(conference, rest.as_bytes()) => told.push_str("guests"),
            None => told.push_str("nobody"),
        },
        "out" => {
            for fact in conference.facts.as_slice() {
                if let Some(n) = put_out(conference, fact) {
                    write!(told, "{n}|")?;
                }
            }
            Ok(())
        }
        _ => told.push_str("no question"),
    }
}

fn user_in(text: &str) -> u16 {
    read_u16(text).unwrap_or(0)
}

fn name_of(admission: Admission) -> &'static str {
    match admission {
        Admission::Admitted => "Admitted",
        Admission::ShownOut => "ShownOut",
        Admission::Locked => "Locked",
    }
}

/// Appends a line, and a bar where it ends.
fn push_line(told: &mut String, line: &str) -> Result<(), AllocError> {
    for part in line.split('\n') {
        told.push_str(part)?;
        told.push('|')?;
    }
    Ok(())
}

fn push_order(
    alloc: Global,
    told: &mut String,
    conference: &Conference,
    user: u16,
    text: &str,
) -> Result<(), AllocError> {
    let order: Order = match read_order(alloc, text)? {
        Some(order) => order,
        None => return told.push_str("no order"),
    };
    match refusal_of(conference, user, order) {
        Some(fault) => told.push_str(fault.name()),
        None => push_line(told, line_of(alloc, conference.number, order)?.as_str()),
    }
}

fn push_joining(
    alloc: Global,
    told: &mut String,
    conference: &Conference,
    text: &str,
) -> Result<(), AllocError> {
    let joining: Joining = match read_joining(alloc, text)? {
        Some(joining) => joining,
        None => return told.push_str("no order"),
    };
    let user = match join(conference, joining.token.as_bytes()) {
        Ok(user) => user,
        Err(fault) => return told.push_str(fault.name()),
    };
    match read_name(alloc, joining.name) {
        Ok(name) => {
            push_line(told, guest_line(alloc, 1, user, name.as_str())?.as_str())?;
            push_line(told, token_line(alloc, 1, user, joining.token)?.as_str())
        }
        Err(fault) => told.push_str(fault.name()),
    }
}
