//! What becomes of a conference's file, by each policy.

use super::page::difference;
use crate::{Policy, Syncing};
use std::alloc::{AllocError, Global};

const TURN: Policy = Policy {
    syncing: Syncing::Turn,
    or_stop: false,
};

const SECOND: Policy = Policy {
    syncing: Syncing::Second,
    or_stop: false,
};

const NEVER: Policy = Policy {
    syncing: Syncing::Never,
    or_stop: false,
};

const OR_STOP: Policy = Policy {
    syncing: Syncing::Turn,
    or_stop: true,
};

/// The folder is locked and empty.
const START: &str = "\
> time 0
< lock
< .
> locked
< epoch
< . 30000
> epoch 3
< find
< .
> found
< .
";

/// Where a page behind that start and what it printed differ.
fn behind_start(alloc: Global, policy: Policy, page: &str) -> Result<String, AllocError> {
    let whole = format!(in alloc; "{START}{page}")?;
    difference(alloc, policy, None, whole.as_str())
}

const APPENDED: &str = "\
> begin 1
< epoch
< . 30000
> begin 1
= used
< . 30000
> epoch 3
< begin 1 true
< .
# What comes meanwhile waits; what nobody waits for changes nothing.
> put 1 2
< .
> appended 1
< .
> begun 1
< epoch
< . 30000
> epoch 3
< append 1 1 join 10 | 2 leave 1 |
< .
> put 1 3 port
< .
> put 1 1
= shorter
< .
# In one turn the epoch is read once.
>> appended 1
> epoch 3
< epoch
< . 30000
> epoch 3
< kept 1 2
< append 1 3 join 10 | # port 10 7010 |
< .
> appended 1
< epoch
< . 30000
> epoch 3
< kept 1 3
< .
> appended 1
< .
# Nothing new is no text.
> put 1 3
< .
> close 1 103
< epoch
< . 30000
> epoch 3
< append 1 4 close | end 4 |
< .
> appended 1
< epoch
< . 30000
> epoch 3
< kept 1 4
< rename 1 closed
< .
> put 1 5
= not kept
< .
> renamed 1
< epoch
< . 30000
> epoch 3
< over 1 closed
< .
";

#[test]
fn what_happens_is_appended_and_told(rt: HostRuntime) -> Result<(), AllocError> {
    let found = behind_start(rt.alloc(), NEVER, APPENDED)?;
    assert_eq!(rt; found.as_str(), "");
    Ok(())
}

const SYNCED: &str = "\
>> begin 1
> put 1 1
< epoch
< . 30000
> epoch 3
< begin 1 true
< .
> begun 1
< epoch
< . 30000
> epoch 3
< append 1 1 join 10 |
< .
# What was appended isn't kept before the disk has it.
> appended 1
< epoch
< . 30000
> epoch 3
< sync 1
< .
> put 1 2
< epoch
< . 30000
> epoch 3
< append 1 2 leave 1 |
< .
> appended 1
< .
> synced 1
< epoch
< . 30000
> epoch 3
< kept 1 1
< sync 1
< .
> synced 1
< epoch
< . 30000
> epoch 3
< kept 1 2
< .
# The disk doesn't take it: the conference goes on unkept.
> put 1 3
< epoch
< . 30000
> epoch 3
< append 1 3 join 10 |
< .
> appended 1
< epoch
< . 30000
> epoch 3
< sync 1
< .
> synced 1 failed
< epoch
< . 30000
> epoch 3
< rename 1 unkept
< .
> renamed 1
< epoch
< . 30000
> epoch 3
< over 1 unkept CannotSync renamed
< .
";

#[test]
fn with_the_disk_asked_in_each_turn_nothing_is_kept_before(
    rt: HostRuntime,
) -> Result<(), AllocError> {
    let found = behind_start(rt.alloc(), TURN, SYNCED)?;
    assert_eq!(rt; found.as_str(), "");
    Ok(())
}

const ONCE_A_SECOND: &str = "\
>> begin 1
> put 1 1
< epoch
< . 30000
> epoch 3
< begin 1 true
< .
> begun 1
< epoch
< . 30000
> epoch 3
< append 1 1 join 10 |
< .
> appended 1
< epoch
< . 1000
> epoch 3
< kept 1 1
< . 1000
> time 999
< . 1000
>> put 1 2
> time 999
< epoch
< . 1000
> epoch 3
< append 1 2 leave 1 |
< . 1000
> appended 1
< epoch
< . 1000
> epoch 3
< kept 1 2
< . 1000
> time 1000
< epoch
< . 31000
> epoch 3
< sync 1
< .
# A second later than the first that was appended since.
> time 1500
< .
> put 1 3
< epoch
< . 31500
> epoch 3
< append 1 3 join 10 |
< .
> appended 1
< epoch
< . 2500
> epoch 3
< kept 1 3
< . 2500
> time 2500
< .
> synced 1
< epoch
< . 32500
> epoch 3
< sync 1
< .
# What was closed is on the disk before it gets its last name.
>> synced 1
> close 1 103
< epoch
< . 32500
> epoch 3
< append 1 4 close | end 4 |
< .
> appended 1
< epoch
< . 3500
> epoch 3
< kept 1 4
< sync 1
< . 3500
> synced 1
< epoch
< . 3500
> epoch 3
< rename 1 closed
< . 3500
> renamed 1 failed
< epoch
< . 3500
> epoch 3
< rename 1 unkept
< . 3500
> renamed 1
< epoch
< . 3500
> epoch 3
< over 1 unkept CannotWrite renamed
< . 3500
";

#[test]
fn the_disk_is_asked_once_a_second(rt: HostRuntime) -> Result<(), AllocError> {
    let found = behind_start(rt.alloc(), SECOND, ONCE_A_SECOND)?;
    assert_eq!(rt; found.as_str(), "");
    Ok(())
}

const LAST: &str = "\
>> begin 1
> put 1 1
< epoch
< . 30000
> epoch 3
< begin 1 true
< .
> begun 1
< epoch
< . 30000
> epoch 3
< append 1 1 join 10 |
< .
> appended 1
< epoch
< . 1000
> epoch 3
< kept 1 1
< . 1000
# The server ends: no second is waited for, neither for what was appended nor for what is from now on.
> sync_all
< epoch
< . 30000
> epoch 3
< sync 1
< .
> put 1 2
< epoch
< . 30000
> epoch 3
< append 1 2 leave 1 |
< .
> appended 1
< epoch
< . 30000
> epoch 3
< kept 1 2
< .
> synced 1
< epoch
< . 30000
> epoch 3
< sync 1
< .
> synced 1
< .
";

#[test]
fn at_the_end_the_disk_is_asked_for_all(rt: HostRuntime) -> Result<(), AllocError> {
    let found = behind_start(rt.alloc(), SECOND, LAST)?;
    assert_eq!(rt; found.as_str(), "");
    Ok(())
}

const FAILED: &str = "\
>> begin 1
>> begin 2
> begin 3
< epoch
< . 30000
> epoch 3
< begin 1 true
< begin 2 true
< begin 3 true
< .
# One can't be made: there is none.
>> begun 1
>> begun 2 failed
> begun 3
< epoch
< . 30000
> epoch 3
< over 2 unkept CannotWrite missing
< .
>> put 1 1
> put 3 1
< epoch
< . 30000
> epoch 3
< append 1 1 join 10 |
< append 3 1 join 10 |
< .
# One is full, can't be renamed, and can't be written over; nothing more is put to it.
>> appended 1 failed
> appended 3
< epoch
< . 30000
> epoch 3
< rename 1 unkept
< kept 3 1
< .
> put 1 2
= not kept
< .
> renamed 1 failed
< epoch
< . 30000
> epoch 3
< spoil 1
< .
> spoiled 1 failed
< epoch
< . 30000
> epoch 3
< empty 1
< .
> emptied 1 failed
< epoch
< . 30000
> epoch 3
< over 1 unkept CannotWrite stands
< .
# Memory was refused for what an event of the other told.
> give_up 3
< epoch
< . 30000
> epoch 3
< rename 3 unkept
< .
> renamed 3
< epoch
< . 30000
# Another server has the folder.
> epoch 4
< . Lost
> renamed 3
< . Lost
";

#[test]
fn a_file_that_fails_is_left_to_no_restart(rt: HostRuntime) -> Result<(), AllocError> {
    let found = behind_start(rt.alloc(), NEVER, FAILED)?;
    assert_eq!(rt; found.as_str(), "");
    Ok(())
}

const BROKEN_OFF: &str = "\
>> begin 1
> put 1 1
< epoch
< . 30000
> epoch 3
< begin 1 true
< .
> begun 1
< epoch
< . 30000
> epoch 3
< append 1 1 join 10 |
< .
> appended 1 failed
< epoch
< . 30000
> epoch 3
< over 1 unkept CannotWrite resumes
< .
> put 1 2
= not kept
< .
";

#[test]
fn where_that_is_asked_for_a_conference_is_broken_off(rt: HostRuntime) -> Result<(), AllocError> {
    let found = behind_start(rt.alloc(), OR_STOP, BROKEN_OFF)?;
    assert_eq!(rt; found.as_str(), "");
    Ok(())
}

const GIVEN_UP: &str = "\
>> begin 1
> put 1 1
< epoch
< . 30000
> epoch 3
< begin 1 true
< .
# While its file is made it can't be kept any more: the file gets its last name once it is there.
> give_up 1
< .
> put 1 2
= not kept
< .
> begun 1
< epoch
< . 30000
> epoch 3
< rename 1 unkept
< .
";

#[test]
fn a_file_is_given_up_once_it_is_answered(rt: HostRuntime) -> Result<(), AllocError> {
    let found = behind_start(rt.alloc(), NEVER, GIVEN_UP)?;
    assert_eq!(rt; found.as_str(), "");
    Ok(())
}

const BESIDE_A_SYNC: &str = "\
>> begin 1
> put 1 1
< epoch
< . 30000
> epoch 3
< begin 1 true
< .
> begun 1
< epoch
< . 30000
> epoch 3
< append 1 1 join 10 |
< .
> appended 1
< epoch
< . 30000
> epoch 3
< sync 1
< .
> put 1 2
< epoch
< . 30000
> epoch 3
< append 1 2 leave 1 |
< .
# Nothing is said of a file that has failed before the disk has answered.
> appended 1 failed
< .
> synced 1
< epoch
< . 30000
> epoch 3
< kept 1 1
< over 1 unkept CannotWrite resumes
< .
";

#[test]
fn a_file_that_fails_beside_a_sync_waits_for_it(rt: HostRuntime) -> Result<(), AllocError> {
    let found = behind_start(rt.alloc(), OR_STOP, BESIDE_A_SYNC)?;
    assert_eq!(rt; found.as_str(), "");
    Ok(())
}
