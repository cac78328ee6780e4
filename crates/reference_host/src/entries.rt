//! Entries by number, of which some are taken: a tenant's maps and its programs.

use std::alloc::{AllocError, Global};

/// Entries, none of them taken.
pub(crate) fn none<T: Drop>(alloc: Global, count: usize) -> Result<Vec<Option<T>>, AllocError> {
    let mut entries = Vec::new(alloc);
    for _ in 0..count {
        entries.push(None)?;
    }
    Ok(entries)
}

/// The entry of a number, if it is taken.
pub(crate) fn at<T>(entries: &[Option<T>], number: usize) -> Option<&T> {
    match entries.get(number) {
        Some(Some(taken)) => Some(taken),
        _ => None,
    }
}

/// The first entry that isn't taken.
pub(crate) fn first_free<T>(entries: &[Option<T>]) -> Option<usize> {
    for (number, entry) in entries.iter().enumerate() {
        if entry.is_none() {
            return Some(number);
        }
    }
    None
}
