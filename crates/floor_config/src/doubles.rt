//! Whether a number stands twice: ids of users, floors and conferences, and ports.

ghost use Rattle.std.specs.Prelude.{◌≡◌, ◌≢◌, ℕ, ◌+◌, ◌<◌, ◌++◌, true, false, length, filter_map, slice_index, IfOk, OnOk};
ghost use Rattle.floor_config.specs.Doubles.{has_double, AllDiffer};
ghost use Rattle.floor_config.specs.Configuration.{user_ids, floor_ids};
ghost use Rattle.floor_config.specs.Reading.{conference_ids, ports};

use crate::config::Config;
use crate::floors::Floor;
use crate::users::User;
use std::alloc::{AllocError, Global};

/// Whether one of the numbers stands twice. Takes no memory.
pub fn has_double(numbers: Vec<u32>) -> bool
    ensures value { result ≡ has_double numbers.items }
    ensures differ { result ≡ false → AllDiffer numbers.items }
{
    // Sorted, equal numbers are neighbours: the ports of a large text are too many for each pair.
    let mut sorted = numbers;
    sorted.sort_unstable();
    has_equal_neighbours(&sorted)
}

/// Whether two neighbours are equal.
fn has_equal_neighbours(numbers: &[u32]) -> bool
    ensures found { result ≡ true → (k : ℕ) × (k + 1 < length numbers.now)
        × (slice_index numbers.now k ≡ slice_index numbers.now (k + 1)) }
    ensures none { result ≡ false → (k : ℕ) → k + 1 < length numbers.now
        → slice_index numbers.now k ≢ slice_index numbers.now (k + 1) }
{
    for at in 1..numbers.len() {
        if numbers[at - 1] == numbers[at] {
            return true;
        }
    }
    false
}

/// Whether two users have one id.
pub fn has_double_user(alloc: Global, users: &[User]) -> Result<bool, AllocError>
    ensures value { IfOk result (λ double. double ≡ has_double (user_ids users.now)) }
    ensures differ { IfOk result (λ double. double ≡ false → AllDiffer (user_ids users.now)) }
{
    let ids = ids_of_users(alloc, users)?;
    Ok(has_double(ids))
}

fn ids_of_users(alloc: Global, users: &[User]) -> Result<Vec<u32>, AllocError>
    ensures { IfOk result (λ ids. ids.items ≡ user_ids users.now) }
{
    users.iter().map(|user| u32::from(user.id)).collect(alloc)
}

/// Whether two floors have one id.
pub fn has_double_floor(alloc: Global, floors: &[Floor]) -> Result<bool, AllocError>
    ensures value { IfOk result (λ double. double ≡ has_double (floor_ids floors.now)) }
    ensures differ { IfOk result (λ double. double ≡ false → AllDiffer (floor_ids floors.now)) }
{
    let ids = ids_of_floors(alloc, floors)?;
    Ok(has_double(ids))
}

fn ids_of_floors(alloc: Global, floors: &[Floor]) -> Result<Vec<u32>, AllocError>
    ensures { IfOk result (λ ids. ids.items ≡ floor_ids floors.now) }
{
    floors
        .iter()
        .map(|floor| u32::from(floor.id))
        .collect(alloc)
}

/// Whether two conferences have one id.
pub fn has_double_conference(alloc: Global, configs: &[Config]) -> Result<bool, AllocError>
    ensures value { IfOk result (λ double. double ≡ has_double (conference_ids configs.now)) }
    ensures differ { IfOk result
        (λ double. double ≡ false → AllDiffer (conference_ids configs.now)) }
{
    let ids = ids_of_conferences(alloc, configs)?;
    Ok(has_double(ids))
}

fn ids_of_conferences(alloc: Global, configs: &[Config]) -> Result<Vec<u32>, AllocError>
    ensures { IfOk result (λ ids. ids.items ≡ conference_ids configs.now) }
{
    configs
        .iter()
        .map(|config| config.conference())
        .collect(alloc)
}

/// Whether two users of all the conferences have one port.
pub fn has_double_port(alloc: Global, configs: &[Config]) -> Result<bool, AllocError>
    ensures value { IfOk result (λ double. double ≡ has_double (ports configs.now)) }
    ensures differ { IfOk result (λ double. double ≡ false → AllDiffer (ports configs.now)) }
{
    let ports = ports_of_conferences(alloc, configs)?;
    Ok(has_double(ports))
}

fn ports_of_conferences(alloc: Global, configs: &[Config]) -> Result<Vec<u32>, AllocError>
    ensures { IfOk result (λ found. found.items ≡ ports configs.now) }
{
    let mut found = Vec::new(alloc);
    for config in configs {
        push_ports(config.users(), &mut found)?;
    }
    Ok(found)
}

/// Appends the ports of these users.
fn push_ports(users: &[User], found: &mut Vec<u32>) -> Result<(), AllocError>
    ensures { OnOk result
        (found.new.items ≡ found.old.items ++ filter_map (λ u. u.port) users.now) }
{
    for user in users {
        if let Some(port) = user.port {
            found.push(u32::from(port))?;
        }
    }
    Ok(())
}
