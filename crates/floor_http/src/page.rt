//! A connection, without its socket.

ghost use Rattle.std.specs.Prelude.{◌≡◌, ◌++◌, ◌<◌, ◌≤◌, ◌↔◌, [], length, true, IsTrue, IfOk, OnErr, OnOk, string_bytes};
ghost use Rattle.floor_http.specs.Exchanges as spec;

use crate::head::{Asked, Unasked, read_head};
use std::alloc::{AllocError, Global};
use std::marker::Model;

/// What is answered where all is well.
const DONE: &str = "200 OK";

const PLAIN: &str = "text/plain; charset=utf-8";

/// The type of Prometheus' text.
const FIGURES: &str = "text/plain; version=0.0.4; charset=utf-8";

/// A connection: a head in, one answer out.
///
/// `came` takes bytes, and gives what is asked once, when its head is whole; one that asks for nothing is answered there.
/// `tell_health`, `tell_ready` and `tell_metrics` answer it. `lent` lends what is to be written, `took` takes it that so much
/// was taken; once `is_done` the socket is to be shut.
#[derive(Drop)]
pub struct Page {
    head: Vec<u8>,
    is_asked: bool,
    answer: Vec<u8>,
    taken: usize,
}

impl Model for Page {
    ghost use Rattle.std.specs.Prelude.{◌≤◌, length};
    ghost use Rattle.floor_http.specs.Exchanges.{Exchange};

    ghost Value = { Exchange };

    ghost view = { λ p. record {
      came = p.head.items;
      is_asked = p.is_asked;
      answer = p.answer.items;
      taken = p.taken;
    } };

    ghost invariant = { λ p. p.taken ≤ length p.answer.items };
}

impl Page {
    /// A connection of which nothing came. Takes no memory.
    pub fn new(alloc: Global) -> Page
        ensures value { result ≡ spec.fresh }
    {
        Page {
            head: Vec::new(alloc),
            is_asked: false,
            answer: Vec::new(alloc),
            taken: 0,
        }
    }

    /// Takes bytes that came. What comes behind a whole head is dropped.
    pub fn came(&mut self, bytes: &[u8]) -> Result<Option<Asked>, AllocError>
        ensures took { IfOk result (λ asked. spec.Came self.old bytes.now asked self.new) }
        ensures unanswered { OnErr result (self.new.answer ≡ self.old.answer) }
    {
        if self.is_asked {
            return Ok(None);
        }
        self.head.extend_from_slice(bytes)?;
        match read_head(&self.head) {
            None => Ok(None),
            Some(Ok(asked)) => {
                self.is_asked = true;
                Ok(Some(asked))
            }
            Some(Err(why)) => {
                self.answer(status_of(why), PLAIN, "")?;
                self.is_asked = true;
                Ok(None)
            }
        }
    }

    /// Whether something was asked, or refused.
    pub fn is_asked(&self) -> bool
        ensures value { result ≡ self.now.is_asked }
    {
        self.is_asked
    }

    /// Whether what was asked isn't answered yet.
    pub fn awaits(&self) -> bool
        ensures value { IsTrue result ↔ ((self.now.is_asked ≡ true) × (self.now.answer ≡ [])) }
    {
        self.is_asked && self.answer.is_empty()
    }

    /// It lives.
    pub fn tell_health(&mut self) -> Result<(), AllocError>
        ensures told { OnOk result (self.new ≡ spec.answered self.old spec.health) }
        ensures left { OnErr result (self.new ≡ self.old) }
    {
        self.answer(DONE, PLAIN, "ok\n")
    }

    /// New meetings may be sent to it, or not, since it drains.
    pub fn tell_ready(&mut self, is_draining: bool) -> Result<(), AllocError>
        ensures told { OnOk result (self.new ≡ spec.answered self.old (spec.ready is_draining)) }
        ensures left { OnErr result (self.new ≡ self.old) }
    {
        if is_draining {
            return self.answer("503 Service Unavailable", PLAIN, "draining\n");
        }
        self.answer(DONE, PLAIN, "ok\n")
    }

    /// These are its figures.
    pub fn tell_metrics(&mut self, text: &str) -> Result<(), AllocError>
        ensures told { OnOk result (self.new ≡ spec.answered self.old (spec.told text.now)) }
        ensures left { OnErr result (self.new ≡ self.old) }
    {
        self.answer(DONE, FIGURES, text)
    }

    fn answer(&mut self, status: &str, kind: &str, body: &str) -> Result<(), AllocError>
        ensures told { OnOk result (self.new
            ≡ spec.answered self.old (spec.reply status.now kind.now body.now)) }
        ensures left { OnErr result (self.new ≡ self.old) }
    {
        let mut text = String::new(*self.head.allocator());
        put_reply(&mut text, status, kind, body)?;
        self.answer.extend_from_slice(text.as_bytes())
    }

    /// What is to be written.
    pub fn lent(&self) -> &[u8]
        ensures value { result.now ≡ spec.lent self.now }
    {
        &self.answer[self.taken..]
    }

    /// So many of the bytes that are lent were taken, or all.
    pub fn took(&mut self, count: usize)
        ensures next { self.new ≡ spec.taken_by self.old count }
    {
        self.taken = self.taken.saturating_add(count).min(self.answer.len());
    }

    /// Whether an answer was given, and all of it is taken.
    pub fn is_done(&self) -> bool
        ensures value { IsTrue result
            ↔ ((0 < length self.now.answer) × (length self.now.answer ≤ self.now.taken)) }
    {
        !self.answer.is_empty() && self.answer.len() <= self.taken
    }
}

/// Appends an answer that ends its connection.
fn put_reply(out: &mut String, status: &str, kind: &str, body: &str) -> Result<(), AllocError>
    ensures { OnOk result (string_bytes out.new
        ≡ string_bytes out.old ++ spec.reply status.now kind.now body.now) }
{
    put_line(out, "HTTP/1.1 ", status)?;
    put_line(out, "Content-Type: ", kind)?;
    put_length(out, body.len())?;
    put_end(out, body)
}

/// Appends a line.
fn put_line(out: &mut String, name: &str, value: &str) -> Result<(), AllocError>
    ensures { OnOk result (string_bytes out.new
        ≡ string_bytes out.old ++ spec.line name.now value.now) }
{
    out.push_str(name)?;
    out.push_str(value)?;
    out.push_str("\r\n")
}

/// Appends the line that tells how long the body is, in bytes.
fn put_length(out: &mut String, len: usize) -> Result<(), AllocError>
    ensures { OnOk result (string_bytes out.new ≡ string_bytes out.old ++ spec.length_line len) }
{
    write!(out, "Content-Length: {len}\r\n")
}

/// Appends what ends a head, and the body.
fn put_end(out: &mut String, body: &str) -> Result<(), AllocError>
    ensures { OnOk result (string_bytes out.new ≡ string_bytes out.old ++ spec.end body.now) }
{
    out.push_str("Connection: close\r\nCache-Control: no-store\r\n\r\n")?;
    out.push_str(body)
}

/// What is answered where nothing is asked.
fn status_of(why: Unasked) -> &'static str
    ensures value { result.now ≡ spec.status_of why }
{
    match why {
        Unasked::TooLong => "431 Request Header Fields Too Large",
        Unasked::Bad => "400 Bad Request",
        // What is allowed has to be said (RFC 9110, section 15.5.6).
        Unasked::NotGet => "405 Method Not Allowed\r\nAllow: GET",
        Unasked::Nothing => "404 Not Found",
    }
}
