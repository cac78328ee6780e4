use bpf_decode::Size;
use host_types::MapNo;

/// What a run needs after a step.
#[derive(Clone, Copy, PartialEq, Eq)]
pub enum Need {
    /// Nothing: the step was made in the run's own registers, stack and context.
    Private,
    /// The number of the bytes of a map from `at` on.
    Load {
        map: MapNo,
        at: u32,
        size: Size,
    },
    /// That the low bytes of `value` are written to a map from `at` on.
    Store {
        map: MapNo,
        at: u32,
        size: Size,
        value: u64,
    },
    /// The answer of the helper `lookup`.
    Lookup {
        map: MapNo,
        key: u32,
    },
    /// The answer of the helper `update`, with the value that the run lends.
    Update {
        map: MapNo,
        key: u32,
        flags: u64,
    },
    /// The answer of the helper `delete`.
    Delete {
        map: MapNo,
        key: u32,
    },
    /// Nothing any more: the program returned this number.
    Ended(u64),
}
