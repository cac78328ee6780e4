//! What is there in a memory.

ghost use Rattle.std.specs.Prelude.{◌+◌, ◌≤◌, IsTrue, length};
ghost use Rattle.page_table.specs.State.{part, map_bytes};
ghost use Rattle.page_table.specs.Changes.{IsPageOf};

use host_types::{MapNo, Page};
use page_table::Memory;

/// Whether some bytes are in a tenant's map.
pub(crate) fn has(memory: &Memory, tenant: u32, map: MapNo, at: u32, len: u32) -> bool
    ensures { IsTrue result → at + len ≤ length (map_bytes (part memory.now tenant) map) }
{
    let whole = memory.byte_len(tenant, map);
    at <= whole && len <= whole - at
}

/// Whether the page is there.
pub(crate) fn is_there(memory: &Memory, page: Page) -> bool
    ensures { IsTrue result → IsPageOf memory.now page }
{
    page.number < memory.byte_len(page.tenant, page.map).div_ceil(4096)
}
