//! Numbers that stand twice.

use std::alloc::{AllocError, Global};

/// The places, counted from 0, of the first number that stands a second time, where one does: its first
/// place, its second.
pub fn double_of(alloc: Global, numbers: &[i64]) -> Result<Option<(usize, usize)>, AllocError> {
    let mut placed = Vec::new(alloc);
    for (place, number) in numbers.iter().enumerate() {
        placed.push((*number, place))?;
    }
    placed.sort()?;
    let mut found: Option<(usize, usize)> = None;
    let mut last: Option<(i64, usize)> = None;
    for (number, place) in placed.iter() {
        match last {
            Some((earlier, first)) if earlier == *number => {
                if is_before(*place, found) {
                    found = Some((first, *place));
                }
            }
            _ => last = Some((*number, *place)),
        }
    }
    Ok(found)
}

/// Whether a second place stands before the one that was found.
fn is_before(place: usize, found: Option<(usize, usize)>) -> bool {
    match found {
        None => true,
        Some((_, second)) => place < second,
    }
}
