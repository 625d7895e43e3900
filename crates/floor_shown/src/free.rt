//! Numbers of users and floors that aren't given: the lowest free ones from 1 on.

ghost use Rattle.std.specs.Prelude.{◌≡◌, IfOk, map};
ghost use Rattle.floor_shown.specs.Numbers.{IsLowestFree};

use floor_config::Config;
use std::alloc::{AllocError, Global};

/// The lowest number from 1 on that is no user's of a conference.
pub fn free_user(alloc: Global, config: &Config) -> Result<u16, AllocError>
    ensures value { IfOk result (IsLowestFree (map (λ user. user.id) config.now.users)) }
{
    let used: Vec<u16> = config.users().iter().map(|user| user.id).collect(alloc)?;
    Ok(lowest_free(&used))
}

/// The lowest number from 1 on that is no floor's of a conference.
pub fn free_floor(alloc: Global, config: &Config) -> Result<u16, AllocError>
    ensures value { IfOk result (IsLowestFree (map (λ floor. floor.id) config.now.floors)) }
{
    let used: Vec<u16> = config.floors().iter().map(|floor| floor.id).collect(alloc)?;
    Ok(lowest_free(&used))
}

/// The numbers of some, in their order: those that are given, and for the others the lowest from 1 on that are none's.
pub(crate) fn numbered(alloc: Global, given: &[Option<u16>]) -> Result<Vec<u16>, AllocError> {
    let mut used = Vec::new(alloc);
    for one in given {
        if let Some(number) = one {
            used.push(*number)?;
        }
    }
    let mut numbers = Vec::new(alloc);
    for one in given {
        numbers.push(number_of(&mut used, *one)?)?;
    }
    Ok(numbers)
}

/// The number of one: the one that is given, or the lowest that isn't used, which is used then.
fn number_of(used: &mut Vec<u16>, given: Option<u16>) -> Result<u16, AllocError> {
    match given {
        Some(number) => Ok(number),
        None => {
            let free = lowest_free(used);
            used.push(free)?;
            Ok(free)
        }
    }
}

/// The lowest number from 1 on that is none of these; 65,535 where all are.
fn lowest_free(used: &[u16]) -> u16
    ensures value { IsLowestFree used.now result }
{
    for number in 1..u16::MAX {
        if !used.contains(&number) {
            return number;
        }
    }
    u16::MAX
}
