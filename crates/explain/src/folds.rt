//! The copies of loops that a listing leaves out.

use lowered_text::{Copies, Loop, loops_of};
use std::alloc::{AllocError, Global};

/// Which slots of a lowered text are left out: of the copies of a loop that stand one after the other all but the first,
/// the second and the last.
pub fn folded(alloc: Global, copies: &Copies<'_>) -> Result<Vec<bool>, AllocError> {
    let mut folded = Vec::new(alloc);
    for _ in 0..copies.lowered.origins.len() {
        folded.push(false)?;
    }
    for found in &loops_of(alloc, copies.text)? {
        fold_loop(alloc, copies, *found, &mut folded)?;
    }
    Ok(folded)
}

/// Leaves out copies of one loop. Copies stand one after the other where no slot between them stands for one outside of
/// the loop.
fn fold_loop(
    alloc: Global,
    copies: &Copies<'_>,
    found: Loop,
    folded: &mut Vec<bool>,
) -> Result<(), AllocError> {
    let mut starts = Vec::new(alloc);
    for at in 0..copies.lowered.origins.len() {
        let Some(slot) = copies.origin(at) else {
            continue;
        };
        if slot == found.first {
            starts.push(at)?;
        } else if slot < found.first || slot > found.last {
            fold_between(&starts, folded);
            starts = Vec::new(alloc);
        }
    }
    fold_between(&starts, folded);
    Ok(())
}

/// Leaves out what stands from the third of these slots to the last.
fn fold_between(starts: &[usize], folded: &mut Vec<bool>) {
    if let (Some(third), Some(last)) = (starts.get(2), starts.last()) {
        for at in *third..*last {
            if let Some(flag) = folded.get_mut(at) {
                *flag = true;
            }
        }
    }
}
