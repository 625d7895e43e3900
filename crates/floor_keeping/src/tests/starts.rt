//! The folder's start, its epoch, and the files that stand there.

use super::page::difference;
use crate::{Policy, Syncing};
use std::alloc::AllocError;

const POLICY: Policy = Policy {
    syncing: Syncing::Never,
    or_stop: false,
};

const START: &str = "\
> time 0
< lock
< .
# Nothing is asked before the folder is locked, and the epoch is read before anything is looked at.
> found 7
< .
> locked
< epoch
< . 30000
> epoch 5
< find
< .
# Two files go on, of which one is torn, two were closed, one of them without its end; and one is no journal.
> found 1 2 3 4 5
< epoch
< . 30000
> epoch 5
< read 1
< .
> read 2 1/join/10|
= nobody waits
< .
> read 1 1/join/10|
= goes on with 1
< epoch
< . 30000
> epoch 5
< read 2
< .
> read 2 1/join/10|2/lea
= no journal at 0
< epoch
< . 30000
> epoch 5
< read 3
< .
";

#[test]
fn the_folder_is_locked_and_looked_at(rt: HostRuntime) -> Result<(), AllocError> {
    let found = difference(rt.alloc(), POLICY, None, START)?;
    assert_eq!(rt; found.as_str(), "");
    Ok(())
}

const TORN: &str = "\
> time 0
< lock
< .
>> locked
>> time 0
> time 0
< epoch
< . 30000
> epoch 0
< find
< .
> found 1
< epoch
< . 30000
> epoch 0
< read 1
< .
# The last line lacks its end: it is cut off before anything is appended.
>> read 1 1/join/10|2/lea
= goes on with 1
> put 1 2
< epoch
< . 30000
> epoch 0
< cut 1 113
< .
> cut 1
< epoch
< . 30000
> epoch 0
< append 1 2 leave 1 |
< .
>> appended 1
> time 1
< epoch
< . 30001
> epoch 0
< kept 1 2
< .
";

#[test]
fn what_is_torn_is_cut_off_first(rt: HostRuntime) -> Result<(), AllocError> {
    let found = difference(rt.alloc(), POLICY, None, TORN)?;
    assert_eq!(rt; found.as_str(), "");
    Ok(())
}

const CLOSED: &str = "\
> time 0
< lock
< .
>> locked
> time 0
< epoch
< . 30000
> epoch 0
< find
< .
>> found 1
> time 0
< epoch
< . 30000
> epoch 0
< read 1
< .
# It was closed, and the end is missing.
>> read 1 1/join/10|2/close|
= closed with 2
> put 1 3
= not kept
< epoch
< . 30000
> epoch 0
< append 1 end 2 |
< .
>> appended 1
> time 0
< epoch
< . 30000
> epoch 0
< rename 1 closed
< .
>> renamed 1
> time 0
< epoch
< . 30000
> epoch 0
< over 1 closed
< .
> put 1 3
= not kept
< .
";

#[test]
fn a_file_that_was_closed_gets_its_end(rt: HostRuntime) -> Result<(), AllocError> {
    let found = difference(rt.alloc(), POLICY, None, CLOSED)?;
    assert_eq!(rt; found.as_str(), "");
    Ok(())
}

const UNREAD: &str = "\
> time 0
< lock
< .
> locked
< epoch
< . 30000
# It can't be read: nothing is asked, and it is read again after 100 ms.
> epoch none
< . 100
> time 99
< . 100
> time 100
< epoch
< . 30000
> epoch none
< . 200
# An answer that nobody waits for.
> epoch 5
< . 200
> time 29999
< epoch
< . 30000
> epoch 5
< find
< .
>> found
> begin 1
< epoch
< . 59999
> epoch none
< . 30099
# Behind 30 s nothing is asked any more, whatever is answered.
> time 59999
< . CannotKeep
> epoch 5
< . CannotKeep
> begin 2
< . CannotKeep
";

#[test]
fn an_epoch_that_cannot_be_read_is_read_again(rt: HostRuntime) -> Result<(), AllocError> {
    let found = difference(rt.alloc(), POLICY, None, UNREAD)?;
    assert_eq!(rt; found.as_str(), "");
    Ok(())
}

const SAID: &str = "\
> time 0
< lock
< .
> locked
< epoch
< . 30000
> epoch 6
< . Lost
> time 1
< . Lost
";

#[test]
fn an_epoch_that_is_said_has_to_be_there(rt: HostRuntime) -> Result<(), AllocError> {
    let found = difference(rt.alloc(), POLICY, Some(5), SAID)?;
    assert_eq!(rt; found.as_str(), "");
    Ok(())
}

const NO_FOLDER: &str = "\
> time 0
< lock
< .
> locked failed
< . CannotKeep
> locked
< . CannotKeep
";

#[test]
fn a_folder_that_cannot_be_locked_ends_all(rt: HostRuntime) -> Result<(), AllocError> {
    let found = difference(rt.alloc(), POLICY, None, NO_FOLDER)?;
    assert_eq!(rt; found.as_str(), "");
    Ok(())
}
