//! The line that adds a user: `user <conference> <id> [proxy] [port <port>] [name <text to the end>]`.

ghost use Rattle.std.specs.Prelude.{◌≡◌, IfOk};
ghost use Rattle.std.specs.Option.{option_map};
ghost use Rattle.floor_acts.specs.Forms.{name_form, port_form, proxy_form, user_form};
ghost use Rattle.floor_acts.specs.Acts.{user_act};
ghost use Rattle.floor_acts.specs.Numbers.{Reads};

use crate::act::ActLine;
use crate::fault::ActFault;
use crate::number::{conference_of, number_of, port_where};
use floor_config::Text;
use floor_machine::{Act, AddedUser, User};
use floor_words::{cut_word, from_first_word};
use std::alloc::{AllocError, Global};
use std::marker::Model;

/// The words of the line by their places, and the text that is the user's name.
#[derive(Debug, Drop)]
pub struct UserWords<'a> {
    conference: &'a str,
    id: &'a str,
    proxy: bool,
    port: Option<&'a str>,
    name: Option<&'a str>,
}

impl<'a> Model for UserWords<'a> {
    ghost use Rattle.std.specs.Option.{option_map};
    ghost use Rattle.floor_acts.specs.Forms.{UserForm};

    ghost Value = { UserForm };

    ghost view = { λ w. record {
      conference = w.conference.now;
      id = w.id.now;
      proxy = w.proxy;
      port = option_map (λ p. p.now) w.port;
      name = option_map (λ n. n.now) w.name;
    } };
}

/// The words of a line, of which the text behind its first word is given; `None` where the line hasn't
/// the form.
pub fn user_words<'a>(text: &'a str) -> Option<UserWords<'a>>
    ensures { result ≡ user_form text.now }
{
    let conference = cut_word(text)?;
    let id = cut_word(conference.rest)?;
    let (proxy, rest) = cut_proxy(id.rest);
    let (port, rest) = cut_port(rest)?;
    let name = name_of(rest)?;
    Some(UserWords {
        conference: conference.word,
        id: id.word,
        proxy,
        port,
        name,
    })
}

/// Whether the text begins with `proxy`, and the text behind it.
fn cut_proxy(text: &str) -> (bool, &str)
    ensures { (result.0, result.1.now) ≡ proxy_form text.now }
{
    match cut_word(text) {
        Some(cut) if cut.word == "proxy" => (true, cut.rest),
        _ => (false, text),
    }
}

/// The word behind `port`, where the text begins with that, and the text behind it; `None` where `port`
/// is the last word.
fn cut_port(text: &str) -> Option<(Option<&str>, &str)>
    ensures { option_map (λ p. (option_map (λ w. w.now) p.0, p.1.now)) result ≡ port_form text.now }
{
    match cut_word(text) {
        Some(cut) if cut.word == "port" => {
            let port = cut_word(cut.rest)?;
            Some((Some(port.word), port.rest))
        }
        _ => Some((None, text)),
    }
}

/// The text behind `name`, where there is that; `None` where it is empty, or where another word stands
/// there.
fn name_of(text: &str) -> Option<Option<&str>>
    ensures { option_map (λ n. option_map (λ w. w.now) n) result ≡ name_form text.now }
{
    let Some(cut) = cut_word(text) else {
        return Some(None);
    };
    let name = from_first_word(cut.rest);
    if cut.word != "name" || name.is_empty() {
        return None;
    }
    Some(Some(name))
}

/// The act of the words. The name is taken as it stands: whether it is too long the act says.
pub fn user_act(alloc: Global, words: UserWords) -> Result<ActLine, ActFault>
    ensures { Reads (user_act words.entry) result }
{
    let conference = conference_of(words.conference)?;
    let id = number_of(words.id)?;
    let port = port_where(words.port)?;
    let name = text_of(alloc, words.name)?;
    let user = User {
        id,
        name,
        uri: None,
        proxy: words.proxy,
        port,
    };
    let added = AddedUser::new(alloc, user)?;
    Ok(ActLine {
        conference,
        act: Act::AddUser(added),
    })
}

/// The text, where there is one.
fn text_of(alloc: Global, text: Option<&str>) -> Result<Option<Text>, AllocError>
    ensures { IfOk result (λ copy. copy ≡ option_map (λ w. w.now) text.entry) }
{
    match text {
        None => Ok(None),
        Some(text) => {
            let string = String::from_str(alloc, text)?;
            Ok(Some(Text::from_string(string)))
        }
    }
}
