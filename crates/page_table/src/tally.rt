//! How many pages are as the counters give, kept as numbers while pages change.
ghost use Rattle.std.specs.Prelude.{◌≡◌, ◌+◌, ◌-◌, ◌<◌, ◌≤◌, option_map};
ghost use Rattle.host_types.specs.Counters.{unshared_at, volatile_at};
ghost use Rattle.page_table.specs.Table.{state_of};
ghost use Rattle.page_table.specs.Tallies.{shared_at};

use crate::entry::Entry;
use host_types::Status;

/// How many pages wait, changed, or share a frame.
#[derive(Clone, Copy)]
pub(crate) struct Tally {
    /// How many pages wait.
    pub unshared: u32,
    /// How many pages changed.
    pub volatile: u32,
    /// How many pages share a frame.
    pub shared: u32,
}

impl Tally {
    /// There is no such page.
    pub(crate) const NONE: Tally = Tally {
        unshared: 0,
        volatile: 0,
        shared: 0,
    };

    /// The tally of one index.
    pub(crate) fn of(page: Option<Entry>) -> Tally
        ensures unshared { result.unshared ≡ unshared_at (option_map state_of page) }
        ensures volatile { result.volatile ≡ volatile_at (option_map state_of page) }
        ensures shared { result.shared ≡ shared_at (option_map state_of page) }
    {
        let Some(entry) = page else {
            return Tally::NONE;
        };
        match entry.status {
            Status::New => Tally::NONE,
            Status::Waiting => Tally {
                unshared: 1,
                ..Tally::NONE
            },
            Status::Volatile => Tally {
                volatile: 1,
                ..Tally::NONE
            },
            Status::Grouped | Status::Zero => Tally {
                shared: 1,
                ..Tally::NONE
            },
        }
    }

    /// The same after one index, which had the tally `before`, has the tally `after`.
    pub(crate) fn moved(self, before: Tally, after: Tally) -> Tally
        requires unshared { (before.unshared ≤ self.unshared) × (self.unshared + after.unshared < 4294967296) }
        requires volatile { (before.volatile ≤ self.volatile) × (self.volatile + after.volatile < 4294967296) }
        requires shared { (before.shared ≤ self.shared) × (self.shared + after.shared < 4294967296) }
        ensures { result ≡ record {
          unshared = self.unshared - before.unshared + after.unshared;
          volatile = self.volatile - before.volatile + after.volatile;
          shared = self.shared - before.shared + after.shared;
        } }
    {
        Tally {
            unshared: self.unshared - before.unshared + after.unshared,
            volatile: self.volatile - before.volatile + after.volatile,
            shared: self.shared - before.shared + after.shared,
        }
    }
}
