//! What no clause says: each call with ample memory, and with none.

use crate::Numbered;
use std::alloc::AllocError;

#[test]
fn values_come_go_and_are_found(rt: HostRuntime) {
    let mut squares = Numbered::new(rt.alloc());
    for number in 1u64..=100 {
        assert_eq!(rt; squares.insert(number, number * number), Ok(None));
    }
    for number in [1u64, 64, 65, 100] {
        assert_eq!(rt;
            squares.swap_remove(number),
            Some(number * number),
            "{number}"
        );
        assert_eq!(rt; squares.swap_remove(number), None, "{number}");
    }
    // It shares the place of 2.
    assert_eq!(rt; squares.insert(258, 0), Ok(None));
    assert_eq!(rt; squares.get(2), Some(&4));
    assert_eq!(rt; squares.get(258), Some(&0));
    match squares.get_mut(2) {
        Some(square) => *square = 5,
        None => {}
    }
    assert_eq!(rt; squares.insert(2, 6), Ok(Some(5)));
    assert!(rt; squares.contains_key(2) && !squares.contains_key(1));
    assert_eq!(rt; squares.len(), 97);
    assert_eq!(rt; squares.reserve(1_000), Ok(()));
}
