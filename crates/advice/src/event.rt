//! What is said of a refusal where it is known what was refused: a host, a program or an event.

use crate::Advice;
use host_types::Opt;
use host_types::limits::{MAX_FRAMES, MAX_TENANTS};

/// A host of so many frames or tenants as none has.
pub fn on_host_size(frames: u32, tenants: u32) -> Advice {
    let has_frames = (2..=MAX_FRAMES).contains(&frames);
    let has_tenants = (1..=MAX_TENANTS).contains(&tenants);
    let wrong = match (has_frames, has_tenants) {
        (false, true) => "`frames` isn't in the range 2 to 4096",
        (true, false) => "`tenants` isn't in the range 1 to 16",
        _ => "`frames` isn't in the range 2 to 4096, and `tenants` isn't in the range 1 to 16",
    };
    Advice {
        wrong,
        fix: "correct the top of the host file",
    }
}

/// A shape that no map has.
pub fn on_shape() -> Advice {
    Advice {
        wrong: "a map can't have this value size and number of elements",
        fix: "use values of 1 to 4096 bytes, 1 to 65536 elements, and at most 256 pages of 4096 \
            bytes; each element takes its value's size, rounded up to a multiple of 8",
    }
}

/// A value of another size than the values of its map.
pub fn on_value_size() -> Advice {
    Advice {
        wrong: "the value's size differs from the map's `value_size`",
        fix: "give exactly `value_size` bytes",
    }
}

/// A map more than a tenant can have.
pub fn on_map_count() -> Advice {
    Advice {
        wrong: "the tenant already has eight maps, which is the limit",
        fix: "use fewer maps, with more elements or larger values; or drop one first, after \
            unloading the programs that use it",
    }
}

/// More shapes than a program can have maps.
pub fn on_shape_count() -> Advice {
    Advice {
        wrong: "more than eight V:E arguments are given",
        fix: "give one for each map that the program uses, at most eight",
    }
}

/// A map that has more pages than frames are there.
pub fn on_frames_for_map() -> Advice {
    Advice {
        wrong: "the map needs one frame for each of its pages, and fewer are free, not counting \
            those reserved for open runs",
        fix: "make the map smaller, finish open runs, let the scanner make more visits, which may \
            merge pages, or give the host more `frames`",
    }
}

/// A run that has a larger reserve than frames are there.
pub fn on_frames_for_run() -> Advice {
    Advice {
        wrong: "the run needs its program's reserve of frames, and fewer are free, not counting \
            those reserved for open runs",
        fix: "finish open runs of other tenants, let the scanner make more visits, which may \
            merge pages, or give the host more `frames`",
    }
}

/// An update that may take more frames than are there.
pub fn on_frames_for_update() -> Advice {
    Advice {
        wrong: "an update needs 1 frame, or 2 if the map's `value_size`, rounded up to a multiple \
            of 8, doesn't divide 4096, and fewer are free, not counting those reserved for open \
            runs",
        fix: "finish open runs, let the scanner make more visits, which may merge pages, or give \
            the host more `frames`",
    }
}

/// An unmerging that takes more frames than are there.
pub fn on_frames_for_unmerging() -> Advice {
    Advice {
        wrong: "unmerging needs one frame for each page that has to leave a shared frame, and \
            fewer are free, not counting those reserved for open runs",
        fix: "finish open runs, or give the host more `frames`",
    }
}

/// A size of contexts that no program can be loaded with.
pub fn on_context_size() -> Advice {
    Advice {
        wrong: "the context size is above 256 or isn't a multiple of 8",
        fix: "give a multiple of 8 up to 256",
    }
}

/// A context of another length than its program's.
pub fn on_context_length() -> Advice {
    Advice {
        wrong: "the context doesn't have the size that its program was loaded with",
        fix: "give a context of exactly that size",
    }
}

/// An option with a value that it can't have.
pub fn on_option(option: Opt) -> Advice {
    let (wrong, fix) = match option {
        Opt::PagesToScan => ("`pages_to_scan` can't have this value", "use 1 to 100000"),
        Opt::Run => (
            "`run` can't be set to this value",
            "use 0 or 1; for what 2 does in Linux, use the event `unmerge`",
        ),
        Opt::UseZeroPages => ("`use_zero_pages` can't have this value", "use 0 or 1"),
        Opt::MaxPageSharing => ("`max_page_sharing` can't have this value", "use 2 to 65535"),
    };
    Advice { wrong, fix }
}
