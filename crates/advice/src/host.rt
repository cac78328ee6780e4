//! The refusals of a host. Each function has those of one kind, and answers `None` for others.

ghost use Rattle.std.specs.Prelude.{◌↔◌, IsSome, IsTrue};
ghost use Rattle.advice.specs.Answered.{is_of_frames, is_of_limits, is_of_tenants};

use crate::Advice;

/// What the shapes of a host and of maps, options, sizes and memory may be.
pub fn on_limits(number: u32) -> Option<Advice>
    ensures { IsSome result ↔ IsTrue (is_of_limits number) }
{
    let (wrong, fix) = match number {
        32 => (
            "a tenant would have more than eight maps, or `check` is given more than eight V:E \
                arguments",
            "use fewer maps, with more elements or larger values; or drop one first, after \
                unloading the programs that use it",
        ),
        33 => (
            "`frames` isn't in the range 2 to 4096, `tenants` isn't in the range 1 to 16, a map \
                can't have this value size and number of elements, or a value's size differs from \
                its map's `value_size`",
            "correct the top of the host file; or use values of 1 to 4096 bytes, 1 to 65536 \
                elements, and at most 256 pages; or give exactly `value_size` bytes",
        ),
        39 => (
            "a context size is above 256 or isn't a multiple of 8, or a context doesn't have the \
                size that its program was loaded with",
            "use a context size that is a multiple of 8 up to 256, and give each run a context of \
                exactly the size that its program was loaded with",
        ),
        40 => (
            "an option can't have this value",
            "use 1 to 100000 for `pages_to_scan`, 0 or 1 for `run` and `use_zero_pages`, and 2 to \
                65535 for `max_page_sharing`; for what `run` 2 does in Linux, use the event \
                `unmerge`",
        ),
        41 => ("memory ran out", "give the process more memory"),
        _ => return None,
    };
    Some(Advice { wrong, fix })
}

/// Which frames are free, and which pages share one.
pub fn on_frames(number: u32) -> Option<Advice>
    ensures { IsSome result ↔ IsTrue (is_of_frames number) }
{
    let (wrong, fix) = match number {
        31 => (
            "fewer frames are free, not counting those reserved for open runs, than are needed: \
                for a map as many as it has pages, for a run its program's reserve, for an update \
                1 or 2, and for unmerging one for each page that has to leave a shared frame",
            "finish open runs, or give the host more `frames`; except for unmerging, more visits \
                of the scanner may free frames too, by merging pages",
        ),
        44 => (
            "`max_page_sharing` can't be set while there is a group of merged pages",
            "set it at the top of the host file; or unmerge, set it, and start the scanner again \
                by setting `run` to 1",
        ),
        _ => return None,
    };
    Some(Advice { wrong, fix })
}

/// Which tenants, maps, elements, programs and runs there are.
pub fn on_tenants(number: u32) -> Option<Advice>
    ensures { IsSome result ↔ IsTrue (is_of_tenants number) }
{
    let (wrong, fix) = match number {
        34 => (
            "the tenant has no map with this number",
            "count maps from 0: each new map gets the lowest free number, also that of a dropped \
                map; a refused one gets none",
        ),
        35 => (
            "the map has no element with this key",
            "use keys from 0 to one less than the map's `entries`",
        ),
        36 => (
            "the tenant has an open run: until it ends, no map can be made or dropped, no program \
                loaded or unloaded, no other run begun and no value written",
            "finish the run first",
        ),
        37 => ("there is no open run to step", "begin a run first"),
        38 => (
            "the tenant has no program with this number",
            "count programs from 0: each load gets the lowest free number, also that of an \
                unloaded program; a refused one gets none",
        ),
        42 => (
            "there is no such tenant",
            "use tenants from 0 to one less than `tenants`",
        ),
        43 => (
            "the map can't be dropped while a loaded program of the tenant refers to it, even if \
                only in an instruction that is never reached",
            "first unload the programs that refer to it, then drop it",
        ),
        45 => (
            "the tenant already has eight programs, which is the limit",
            "load fewer, or first unload one that is no longer needed",
        ),
        _ => return None,
    };
    Some(Advice { wrong, fix })
}
