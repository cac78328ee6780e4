ghost use Rattle.std.specs.Prelude.{◌≡◌};

use atomic_table::{Play, Table, TableRule};
use std::alloc::{AllocError, Global};
use std::sync::Wait;

/// Nobody sleeps, or somebody was woken who will set the word again before it gives or sleeps.
const QUIET: u64 = 0;

/// Somebody sleeps, or is about to.
const WANTED: u64 = 1;

/// The bell's word may have any value after any step: it says of sleepers, and no contract speaks of it.
struct Free;

impl TableRule<(), (), ()> for Free {
    ghost holds = { λ key state. Unit {0} };

    ghost first = { λ key. tt };
}

impl Play<(), ()> for Free {
    ghost then = { λ step before found after. Unit {0} };
}

/// A word on which the losers of a turn sleep.
///
/// A loser sets it, tries once more, and sleeps while it is set. Whoever gave the memory back unsets it
/// and wakes one of them. That one sets it again before it gives or sleeps, since others may sleep. So a sleep
/// costs one wake, however many turns others have before the woken thread runs.
#[derive(Drop)]
pub(crate) struct Bell {
    table: Table<(), (), (), Free, Global>,
    ghost one: { table.shared.table_id.words ≡ 1 },
}

impl Bell {
    pub(crate) fn new(alloc: Global) -> Result<Bell, AllocError> {
        let (table, _seat) = Table::of_words(alloc, &[QUIET], &())?;
        Ok(Bell { table })
    }

    /// Asks for a ring, before the last try and the sleep.
    pub(crate) fn ask(&self) {
        let _found = self.table.shared.swap_new_seat::<Free>(0, WANTED);
    }

    /// Sleeps until a ring. Returns at once where one came after `ask`.
    pub(crate) fn sleep(&self, rt: &impl Wait) {
        self.table.shared.park(rt, 0, WANTED as u32);
    }

    /// Wakes one of those who sleep, where a ring was asked for.
    pub(crate) fn ring(&self) {
        let shared = &self.table.shared;
        if shared.peek(0) == QUIET {
            return;
        }
        let (found, _seat) = shared.swap_new_seat::<Free>(0, QUIET);
        if found == WANTED {
            shared.wake_one(0);
        }
    }
}
