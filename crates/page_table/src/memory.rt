ghost use Rattle.std.specs.Prelude.{◌≡◌, ◌<◌, ◌↔◌, IsTrue, ℕ, length, Some, None, IfOk, OnOk, IfErr, IfSome, option_map, slice_index_or};
ghost use Rattle.host_types.specs.Memory.{FlatMap, map_at};
ghost use Rattle.host_types.specs.OptionTable.{AreOptions};
ghost use Rattle.host_types.specs.Pages.{map_index_of, page_index_of, page_bytes};
ghost use Rattle.host_types.specs.Shapes.{IsShape};
ghost use Rattle.host_types.specs.Sharing.{state_at, is_shared};
ghost use Rattle.host_types.specs.Tenant.{IsFlatMap, AreFlatMaps};
ghost use Rattle.frame_arena.specs.Pages.{page_at};
ghost use Rattle.page_table.specs.Limits.{AreLimits, page_count};
ghost use Rattle.page_table.specs.State.{part, map_bytes, bytes_of_map, new_memory, free_of, have_of, frame_at};
ghost use Rattle.page_table.specs.Reads.{ReadsAs};
ghost use Rattle.page_table.specs.Changes.{contents_now, IsPageOf, RefusesMemory};
ghost use Rattle.page_table.specs.Table.{state_of};

use crate::entry::Entry;
use crate::pass::Pass;
use crate::table::Table;
use crate::tenant::Tenant;
use frame_arena::FrameArena;
use host_types::limits::{MAX_FRAMES, MAX_MAPS, MAX_PAGES, MAX_TENANTS, PAGE_SIZE};
use host_types::{Fault, MapNo, Options, Page, Shape};
use std::alloc::{AllocError, Global};
use std::marker::Model;

/// The array maps of all tenants, in frames that several pages may share. Contracts see each
/// tenant's part, which pages share frames, the frames' pages, and the frame of each page.
#[derive(Drop)]
pub struct Memory {
    pub(crate) table: Table,
    /// By the maps' indices.
    pub(crate) shapes: Vec<Option<Shape>>,
    pub(crate) tenants: Vec<Tenant>,
    /// The sum of the tenants' reserves.
    pub(crate) reserved: u32,
    pub(crate) pass: Pass,
}

impl Model for Memory {
    ghost use Rattle.page_table.specs.State.{MemoryState};
    ghost use Rattle.page_table.specs.Table.{states_of};
    ghost use Rattle.page_table.specs.View.{view_of, IsMemory, IsPass, IsAhead, OnlyRunsPin};

    ghost Value = { MemoryState };

    ghost view = { λ m. view_of m.table m.shapes.items m.tenants.items m.pass };

    ghost invariant = { λ m.
        IsMemory m.table m.shapes.items m.tenants.items m.reserved
        × IsPass m.table m.pass
        × IsAhead (states_of m.table.entries) m.pass.cursor
        × OnlyRunsPin m.tenants.items m.pass.pins };
}

/// Whether a memory may have this size.
fn is_size(frames: u32, tenants: u32) -> bool
    ensures { IsTrue result ↔ AreLimits frames tenants }
{
    let has_frames = 2 <= frames && frames <= MAX_FRAMES;
    let has_tenants = 1 <= tenants && tenants <= MAX_TENANTS;
    has_frames && has_tenants
}

/// The pages that a map needs.
pub(crate) fn pages(shape: &Shape) -> u32
    requires { IsShape shape.now }
    ensures { result ≡ page_count shape.now }
{
    shape.byte_len().div_ceil(PAGE_SIZE)
}

/// The index of a tenant's map among all maps.
pub(crate) fn map_index(tenant: u32, map: MapNo) -> usize
    requires tenant { tenant < 4294967296 }
    requires map { map < 4294967296 }
    ensures { result ≡ map_index_of tenant map }
{
    tenant as usize * MAX_MAPS + map as usize
}

/// The page at an index.
pub(crate) fn page_at(page_index: usize) -> Page
    requires { page_index < 32768 }
    ensures page_index { page_index_of result ≡ page_index }
    ensures map { result.map < 8 }
    ensures number { result.number < 256 }
{
    let index = page_index / MAX_PAGES;
    Page {
        tenant: (index / MAX_MAPS) as u32,
        map: (index % MAX_MAPS) as MapNo,
        number: (page_index % MAX_PAGES) as u32,
    }
}

/// The index of a page among all pages.
pub(crate) fn index_of_page(page: Page) -> usize
    ensures { result ≡ page_index_of page }
{
    map_index(page.tenant, page.map) * MAX_PAGES + page.number as usize
}

impl Memory {
    /// A memory without maps, of 2 to 4096 frames, one of them the zero frame, and 1 to 16 tenants.
    ///
    /// Refusals in their order: `BadShape` where a limit is broken, `BadOption` where an option can't have
    /// its value, `OutOfMemory` where memory ran out.
    pub fn new(alloc: Global, frames: u32, tenants: u32, options: Options) -> Result<Self, Fault>
        ensures ok { IfOk result (λ memory. memory ≡ new_memory frames tenants options) }
        ensures limits { OnOk result (AreLimits frames tenants × AreOptions options) }
        ensures err { IfErr result (RefusesMemory frames tenants options) }
    {
        if !is_size(frames, tenants) {
            return Err(Fault::BadShape);
        }
        if !options.is_valid() {
            return Err(Fault::BadOption);
        }
        match Memory::without_maps(alloc, frames, tenants, options) {
            Ok(memory) => Ok(memory),
            Err(AllocError) => Err(Fault::OutOfMemory),
        }
    }

    fn without_maps(
        alloc: Global,
        frames: u32,
        tenants: u32,
        options: Options,
    ) -> Result<Self, AllocError>
        requires { AreLimits frames tenants }
        ensures { IfOk result (λ memory. memory ≡ new_memory frames tenants options) }
    {
        let page_indices = tenants * (MAX_MAPS * MAX_PAGES) as u32;
        let shapes = vec![in alloc; None; tenants as usize * MAX_MAPS]?;
        let pass = Pass::new(alloc, frames, tenants * 8, options)?;
        let tenants = vec![in alloc; Tenant::NO_RUN; tenants as usize]?;
        // Last, since each way out before it would drop it, and its drop is the one that is dear to prove.
        let table = Table::new(alloc, frames, page_indices)?;
        Ok(Memory {
            table,
            shapes,
            tenants,
            reserved: 0,
            pass,
        })
    }

    /// How many tenants there are.
    #[tactic(auto, unfolding(crate::specs::View::view_of))]
    pub fn tenants(&self) -> u32
        ensures { result ≡ length self.now.tenants }
    {
        self.tenants.len() as u32
    }

    /// The options.
    #[tactic(auto, unfolding(crate::specs::View::view_of))]
    pub fn options(&self) -> Options
        ensures { result ≡ self.now.sharing.options }
    {
        self.pass.options
    }

    /// How many frames no page has, the zero frame aside.
    #[tactic(auto, unfolding(crate::specs::View::view_of, host_types::specs::Sharing::frames_free))]
    pub fn free(&self) -> u32
        ensures { result ≡ free_of self.now }
    {
        self.table.free()
    }

    /// How many frames new pages may have: the free ones, less those reserved for open runs.
    #[tactic(auto, unfolding(crate::specs::View::view_of, host_types::specs::Sharing::frames_free))]
    pub fn have(&self) -> u32
        ensures { result ≡ have_of self.now }
    {
        self.free() - self.reserved
    }

    /// The shape of a tenant's map, if there is such a map.
    pub fn shape(&self, tenant: u32, map: MapNo) -> Option<Shape>
        ensures shape { result ≡ option_map (λ (flat : FlatMap). flat.shape) (map_at (part self.now tenant).maps map) }
        ensures valid { IfSome (map_at (part self.now tenant).maps map) IsFlatMap }
    {
        if map as usize >= MAX_MAPS {
            return None;
        }
        self.table.pages_are_bytes();
        shape_at(&self.shapes, map_index(tenant, map))
    }

    /// The bytes of a tenant's map; none where there is no such map.
    pub fn byte_len(&self, tenant: u32, map: MapNo) -> u32
        ensures { result ≡ length (map_bytes (part self.now tenant) map) }
    {
        match self.shape(tenant, map) {
            Some(shape) => shape.byte_len(),
            None => 0,
        }
    }

    /// What is kept of a page.
    pub fn entry(&self, page: Page) -> Entry
        requires { IsPageOf self.now page }
        ensures state { state_at self.now.sharing (page_index_of page) ≡ Some (state_of result) }
        ensures frame { frame_at self.now (page_index_of page) ≡ Some result.frame }
        ensures there { result.frame < length self.now.arena }
        ensures protection { result.protected ≡ is_shared result.status }
        ensures content { page_at self.now.arena result.frame ≡ page_bytes (bytes_of_map self.now page) page.number }
        ensures bytes { page_at self.now.arena result.frame ≡ contents_now self.now (page_index_of page) }
    {
        let Some(entry) = self.table.entry(index_of_page(page)) else {
            unreachable!()
        };
        entry
    }

    /// The frames' pages.
    #[tactic(auto, unfolding(crate::specs::View::view_of))]
    pub fn arena(&self) -> &FrameArena
        ensures { result.now ≡ self.now.arena }
    {
        self.table.arena()
    }

    /// What holds of each memory: how its frames and its shared pages read together. The function does
    /// nothing.
    pub fn facts(&self)
        ensures { ReadsAs self.now }
    {
        self.table.facts();
    }

    /// What holds of each memory's maps: each tenant has eight entries for them, and the maps that are
    /// there have as many bytes as their shapes say. The function does nothing.
    pub fn maps_are_flat(&self)
        ensures there { (t : ℕ) → t < length self.now.tenants → length (part self.now t).maps ≡ 8 }
        ensures flat { (t : ℕ) → length (part self.now t).maps ≡ 8 → AreFlatMaps (part self.now t).maps }
    {
        self.table.pages_are_bytes();
    }
}

/// The shape at an index, if there is one.
fn shape_at(shapes: &[Option<Shape>], index: usize) -> Option<Shape>
    ensures { result ≡ slice_index_or shapes.now index None }
{
    match shapes.get(index) {
        Some(shape) => *shape,
        None => None,
    }
}
