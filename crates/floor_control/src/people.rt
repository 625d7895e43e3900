//! The lines of a conference's users and of its members.

ghost use Rattle.std.specs.Prelude.{◌≡◌, ◌++◌, OnOk, string_bytes};
ghost use Rattle.floor_control.specs.People.{member_line, name_words, some_name_words, user_line};

use floor_config::{Text, User};
use std::alloc::AllocError;
use std::fmt::Write;

/// A live member of a conference.
#[derive(Clone, Copy, Debug, PartialEq, Eq)]
pub struct MemberLine {
    /// The number of the member.
    pub n: u32,
    /// The User ID.
    pub user: u16,
    /// How many messages were told to it and not acknowledged.
    pub behind: u32,
    /// Whether it is told nothing more.
    pub is_cut: bool,
    /// For how many whole seconds its connection has been lost, where it is.
    pub away: Option<u64>,
}

/// Adds the line of a user, with the port that leads to it now, if one does: that isn't always the one
/// that the user has in the configuration. After an error the text may have a part of it.
pub fn add_user(out: &mut String, user: &User, port: Option<u16>) -> Result<(), AllocError>
    ensures { OnOk result (string_bytes out.new ≡ string_bytes out.old ++ user_line user.now port) }
{
    let id = user.id;
    let proxy = if user.proxy { " proxy" } else { "" };
    write!(out, "user {id}{proxy}")?;
    if let Some(port) = port {
        write!(out, " port {port}")?;
    }
    add_name(out, &user.name)?;
    out.push_str("\n")
}

/// Adds a user's name in hexadecimal, behind a space and `name`, unless it is absent or empty.
pub(crate) fn add_name(out: &mut String, name: &Option<Text>) -> Result<(), AllocError>
    ensures { OnOk result (string_bytes out.new ≡ string_bytes out.old ++ name_words name.now) }
{
    match name {
        Some(name) => add_some_name(out, name.as_str()),
        None => Ok(()),
    }
}

fn add_some_name(out: &mut String, name: &str) -> Result<(), AllocError>
    ensures { OnOk result (string_bytes out.new ≡ string_bytes out.old ++ some_name_words name.now) }
{
    if name.is_empty() {
        return Ok(());
    }
    let name = hex::encode(*out.allocator(), name.as_bytes())?;
    write!(out, " name {name}")
}

/// Adds the line of a member. After an error the text may have a part of it.
pub fn add_member(out: &mut String, member: MemberLine) -> Result<(), AllocError>
    ensures { OnOk result (string_bytes out.new ≡ string_bytes out.old ++ member_line member) }
{
    let MemberLine {
        n,
        user,
        behind,
        is_cut,
        away,
    } = member;
    let cut = if is_cut { " cut" } else { "" };
    write!(out, "member {n} user {user} behind {behind}{cut}")?;
    if let Some(seconds) = away {
        write!(out, " away {seconds}")?;
    }
    out.push_str("\n")
}
