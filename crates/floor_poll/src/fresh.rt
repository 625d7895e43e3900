//! A conference that is to be opened.

ghost use Rattle.std.specs.Prelude.{◌≡◌, IfOk, None, Ok, map};
ghost use Rattle.floor_poll.specs.Fresh.{AreFresh, config_of};
ghost use Rattle.floor_poll.specs.declared.fresh.Fresh.TheVariants.{Kept, Unkept};
ghost use Rattle.floor_poll.specs.Refusals.{refusal_of_head};

use floor_config::Config;
use floor_console::BoardRefusal;
use floor_keep::{HeadFault, NewHead, heads_of};
use floor_server::{Reason, configurations};
use std::alloc::{AllocError, Global};

/// A conference that is to be opened. Where it is kept it is opened by the configuration of its file's head, so that
/// none is kept under another's.
#[derive(Drop)]
pub enum Fresh {
    /// It isn't kept, and has this configuration.
    Unkept(Config),
    /// It is kept, and its file begins with this head.
    Kept(NewHead),
}

impl Fresh {
    /// Its configuration. Takes no memory.
    pub fn config(&self) -> &Config
        ensures value { result.now ≡ config_of self.now }
    {
        match self {
            Fresh::Unkept(config) => config,
            Fresh::Kept(head) => &head.config,
        }
    }
}

/// The conferences of a configuration's text, which a person knows by this path; with heads where they are kept.
pub fn fresh_of(alloc: Global, path: &str, text: &str, is_kept: bool) -> Result<Vec<Fresh>, Reason>
    ensures each { IfOk result (λ all. AreFresh is_kept text.now all.items) }
{
    let configs = configurations(alloc, path, text)?;
    if !is_kept {
        return or_reason(all_unkept(alloc, configs));
    }
    match heads_of(alloc, text) {
        Ok(heads) => or_reason(all_kept(alloc, heads)),
        Err(fault) => Err(reason_of(fault)),
    }
}

/// The conferences, or why there are none where memory was refused.
fn or_reason(all: Result<Vec<Fresh>, AllocError>) -> Result<Vec<Fresh>, Reason>
    ensures same { IfOk result (λ fresh. all ≡ Ok fresh) }
{
    match all {
        Ok(all) => Ok(all),
        Err(_) => Err(reason_of(HeadFault::Memory)),
    }
}

/// A conference for each configuration, none of which is kept.
fn all_unkept(alloc: Global, configs: Vec<Config>) -> Result<Vec<Fresh>, AllocError>
    ensures configs { IfOk result (λ all. all.items ≡ map Unkept configs.items) }
{
    let mut all = Vec::with_capacity(alloc, configs.len())?;
    for config in configs {
        all.push(Fresh::Unkept(config))?;
    }
    Ok(all)
}

/// A conference for each head, all of which are kept.
fn all_kept(alloc: Global, heads: Vec<NewHead>) -> Result<Vec<Fresh>, AllocError>
    ensures heads { IfOk result (λ all. all.items ≡ map Kept heads.items) }
{
    let mut all = Vec::with_capacity(alloc, heads.len())?;
    for head in heads {
        all.push(Fresh::Kept(head))?;
    }
    Ok(all)
}

/// Why a conference has no head.
fn reason_of(fault: HeadFault) -> Reason
    ensures refusal { result.refusal ≡ refusal_of_head fault }
    ensures line { result.line ≡ None }
{
    Reason {
        refusal: refusal_of_head(fault),
        line: None,
    }
}

/// What is answered where a conference has no head.
fn refusal_of_head(fault: HeadFault) -> BoardRefusal
    ensures value { result ≡ refusal_of_head fault }
{
    match fault {
        HeadFault::Refused(fault) => BoardRefusal::ByConfiguration(fault),
        HeadFault::Memory => BoardRefusal::Memory,
        HeadFault::FirstLine | HeadFault::Divider | HeadFault::Conferences => {
            BoardRefusal::CannotRead
        }
    }
}
