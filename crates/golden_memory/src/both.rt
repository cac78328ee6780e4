//! A memory and the plain program, to which the same is done.

ghost use Rattle.std.specs.Prelude.{◌<◌, ◌≤◌, length};

use crate::there::{has, is_there};
use host_types::limits::{self, MAX_MAPS, MAX_PAGES};
use host_types::{Fault, MapNo, Opt, Options, Page, Status, Visited};
use ksm_counters::counters;
use page_table::{Entry, Memory};
use reference_sharing::{PlainPage, PlainSharing};
use scanner::{set, unmerge_all, visit};
use std::alloc::{AllocError, Global};
use write_break::{needs, store, store_bytes};

/// How many tenants there are.
pub(crate) const TENANTS: u32 = 2;

/// How many map numbers a tenant has.
pub(crate) const MAPS: u32 = MAX_MAPS as u32;

/// How many indices there are.
const PAGE_INDICES: usize = 4096;

/// How many indices the maps of a tenant have.
const MAP_PAGE_INDICES: usize = MAX_MAPS * MAX_PAGES;

/// The bytes of a page.
const PAGE_SIZE: usize = limits::PAGE_SIZE as usize;

/// A memory, the plain program's view of it, the bytes of the page at each index, and for each tenant
/// the frames reserved for its open run, if it has one.
#[derive(Drop)]
pub(crate) struct Both {
    memory: Memory,
    plain: PlainSharing,
    contents: Vec<Vec<u8>>,
    runs: [Option<u32>; 2],
    frames: u32,
}

/// The page at an index.
fn page_at(page_index: usize) -> Page
    requires { page_index < 4096 }
{
    let map = page_index / MAX_PAGES;
    Page {
        tenant: (map / 8) as u32,
        map: (map % 8) as u32,
        number: (page_index % MAX_PAGES) as u32,
    }
}

/// The index of the first page of a tenant's map.
fn first_page_index(tenant: u32, map: MapNo) -> usize
    requires tenant { tenant < 4294967296 }
    requires map { map < 4294967296 }
    ensures { result ≤ 17592186044416 }
{
    (tenant as usize * MAX_MAPS + map as usize) * MAX_PAGES
}

/// What the memory keeps of the page at an index.
fn entry_at(memory: &Memory, page_index: usize) -> Option<Entry> {
    if page_index >= PAGE_INDICES {
        return None;
    }
    let page = page_at(page_index);
    if !is_there(memory, page) {
        return None;
    }
    Some(memory.entry(page))
}

/// Whether the memory says that the page at an index is pinned.
fn is_pinned_at(memory: &Memory, page_index: usize) -> bool {
    if page_index >= PAGE_INDICES {
        return false;
    }
    let page = page_at(page_index);
    is_there(memory, page) && memory.is_pinned(page)
}

/// Whether the memory and the plain program give the same of a page.
fn is_same_page(entry: Option<Entry>, page: Option<PlainPage>) -> bool {
    match (entry, page) {
        (None, None) => true,
        (Some(entry), Some(page)) => {
            entry.protected == page.status.is_shared()
                && entry.mergeable == page.mergeable
                && entry.status == page.status
                && entry.last == page.last
        }
        _ => false,
    }
}

/// Writes a byte at an index's page.
fn put(contents: &mut [Vec<u8>], page_index: usize, at: usize, byte: u8) {
    if let Some(page) = contents.get_mut(page_index) {
        if let Some(old) = page.get_mut(at) {
            *old = byte;
        }
    }
}

/// Marks a frame that was not marked before. It answers whether there is such a frame.
fn mark(marks: &mut [bool], frame: u32) -> bool {
    match marks.get_mut(frame as usize) {
        Some(marked) if !*marked => {
            *marked = true;
            true
        }
        _ => false,
    }
}

/// How many frames aren't marked.
fn unmarked(marks: &[bool]) -> usize {
    let mut count = 0usize;
    for marked in marks {
        if !*marked {
            count = count.saturating_add(1);
        }
    }
    count
}

/// A page without bytes at each index.
fn no_pages(alloc: Global) -> Result<Vec<Vec<u8>>, AllocError> {
    let mut pages = Vec::new(alloc);
    for _ in 0..PAGE_INDICES {
        pages.push(Vec::new(alloc))?;
    }
    Ok(pages)
}

impl Both {
    /// Both without maps; none where there is no memory of so many frames.
    pub(crate) fn new(
        alloc: Global,
        frames: u32,
        options: Options,
    ) -> Result<Option<Both>, AllocError> {
        let plain = PlainSharing::new(alloc, PAGE_INDICES, options)?;
        let contents = no_pages(alloc)?;
        match Memory::new(alloc, frames, TENANTS, options) {
            Ok(memory) => Ok(Some(Both {
                memory,
                plain,
                contents,
                runs: [None; 2],
                frames,
            })),
            Err(_) => Ok(None),
        }
    }

    /// Makes a map of zeros. It answers whether a refusal for want of frames gives as many as the plain
    /// program.
    pub(crate) fn create_map(
        &mut self,
        alloc: Global,
        tenant: u32,
        value_size: u32,
        entries: u32,
        mergeable: bool,
    ) -> Result<bool, AllocError> {
        let map = match self
            .memory
            .create_map(tenant, value_size, entries, mergeable)
        {
            Ok(map) => map,
            Err(Fault::NoFrames { have, .. }) => {
                return Ok(have as usize == self.plain_have());
            }
            Err(_) => return Ok(true),
        };
        let pages = self.memory.byte_len(tenant, map).div_ceil(4096);
        for number in 0..pages {
            let page_index = first_page_index(tenant, map) + number as usize;
            self.plain.add(page_index, mergeable);
            if let Some(content) = self.contents.get_mut(page_index) {
                *content = vec![in alloc; 0; PAGE_SIZE]?;
            }
        }
        Ok(true)
    }

    /// Drops a map. It answers whether that was refused exactly where the tenant or its map isn't there.
    pub(crate) fn drop_map(&mut self, tenant: u32, map: MapNo) -> bool {
        let pages = self.memory.byte_len(tenant, map).div_ceil(4096);
        match self.memory.drop_map(tenant, map) {
            Ok(()) => {
                self.forget(first_page_index(tenant, map), pages);
                pages > 0
            }
            Err(Fault::BadTenant) => tenant >= TENANTS,
            Err(Fault::NoMap) => tenant < TENANTS && pages == 0,
            Err(_) => false,
        }
    }

    /// Takes a map's pages from the plain program, and their bytes.
    fn forget(&mut self, first: usize, pages: u32)
        requires { first ≤ 17592186044416 }
    {
        self.plain.drop_pages(first, pages);
        for number in 0..pages {
            if let Some(content) = self.contents.get_mut(first + number as usize) {
                content.clear();
            }
        }
    }

    /// Visits a page. It answers whether both did the same.
    pub(crate) fn visit(&mut self, alloc: Global) -> Result<(Visited, bool), AllocError> {
        let answered = visit(&mut self.memory);
        let plain = self.plain.visit(alloc, &self.contents)?;
        Ok((answered, answered == plain))
    }

    /// Sets an option. It answers whether both did, or gave the same refusal.
    pub(crate) fn set(&mut self, option: Opt, value: u32) -> bool {
        set(&mut self.memory, option, value) == self.plain.set(option, value)
    }

    /// Gives each page a frame. It answers whether both did, or wanted for the same.
    pub(crate) fn unmerge(&mut self) -> bool {
        let plain_need = self.plain.unmerge_need();
        let plain_have = self.plain_have() as u128;
        match unmerge_all(&mut self.memory) {
            Ok(()) => {
                self.plain.unmerge();
                plain_need <= plain_have
            }
            Err(Fault::NoFrames { need, have }) => {
                have < need && u128::from(need) == plain_need && u128::from(have) == plain_have
            }
            Err(_) => false,
        }
    }

    /// Stores bytes from a byte of a page on, where they are in the map and there are frames for them.
    /// It answers whether that took as many frames as the plain program says.
    pub(crate) fn store(&mut self, tenant: u32, map: MapNo, at: u32, bytes: &[u8]) -> bool
        requires some { 0 < length bytes.now }
        requires few { length bytes.now ≤ 16 }
    {
        let len = bytes.len() as u32;
        if !has(&self.memory, tenant, map, at, len) {
            return true;
        }
        let wanted = needs(&self.memory, tenant, map, at, len);
        self.make_room(tenant, wanted);
        if !has(&self.memory, tenant, map, at, len) {
            return false;
        }
        let cost = needs(&self.memory, tenant, map, at, len);
        if cost > self.memory.have() {
            return cost == wanted;
        }
        store_bytes(&mut self.memory, tenant, map, at, bytes);
        self.stored(tenant, map, at, bytes) == cost
    }

    /// Stores a number of one byte as eight bytes, as `store` does.
    pub(crate) fn store_number(&mut self, tenant: u32, map: MapNo, at: u32, byte: u8) -> bool {
        if at % 8 != 0 || !has(&self.memory, tenant, map, at, 8) {
            return true;
        }
        let wanted = needs(&self.memory, tenant, map, at, 8);
        self.make_room(tenant, wanted);
        if !has(&self.memory, tenant, map, at, 8) {
            return false;
        }
        let cost = needs(&self.memory, tenant, map, at, 8);
        if cost > self.memory.have() {
            return cost == wanted;
        }
        store(&mut self.memory, tenant, map, at, 8, u64::from(byte));
        self.stored(tenant, map, at, &[byte, 0, 0, 0, 0, 0, 0, 0]) == cost
    }

    /// Breaks the pages of some bytes in the plain program, and writes the bytes. It answers how many
    /// frames that took.
    fn stored(&mut self, tenant: u32, map: MapNo, at: u32, bytes: &[u8]) -> u32
        requires some { 0 < length bytes.now }
        requires few { length bytes.now ≤ 16 }
    {
        let first = first_page_index(tenant, map);
        let mut byte_page_index = at as usize;
        for byte in bytes {
            let page_index = first + byte_page_index / PAGE_SIZE;
            put(
                &mut self.contents,
                page_index,
                byte_page_index % PAGE_SIZE,
                *byte,
            );
            byte_page_index = byte_page_index.saturating_add(1);
        }
        let last = (at as usize + bytes.len() - 1) / PAGE_SIZE;
        let number = at as usize / PAGE_SIZE;
        let count = if last == number { 1 } else { 2 };
        let running = self.has_run(tenant);
        self.plain.break_pages(running, first + number, count)
    }

    /// Opens a run of a tenant that has none, and reserves frames for it, where they are there.
    pub(crate) fn begin(&mut self, tenant: u32, reserve: u32) {
        self.memory.maps_are_flat();
        if tenant >= self.memory.tenants() || reserve > self.memory.have() {
            return;
        }
        if let Some(run) = self.runs.get_mut(tenant as usize) {
            if run.is_none() {
                self.memory.begin_run(tenant, reserve);
                *run = Some(reserve);
            }
        }
    }

    /// Ends a tenant's run, and its pins, where it has one.
    pub(crate) fn end(&mut self, tenant: u32) {
        self.memory.maps_are_flat();
        if tenant >= self.memory.tenants() || !self.has_run(tenant) {
            return;
        }
        self.memory.end_run(tenant);
        if let Some(run) = self.runs.get_mut(tenant as usize) {
            *run = None;
        }
        let first = first_page_index(tenant, 0);
        if first + MAP_PAGE_INDICES <= self.plain.pin_page_indices() {
            self.plain.release(first, MAP_PAGE_INDICES);
        }
    }

    /// Whether a tenant has an open run.
    fn has_run(&self, tenant: u32) -> bool {
        match self.runs.get(tenant as usize) {
            Some(run) => run.is_some(),
            None => false,
        }
    }

    /// Takes frames from those that are reserved for a tenant's run, where others aren't there and these
    /// are enough.
    fn make_room(&mut self, tenant: u32, cost: u32) {
        self.memory.maps_are_flat();
        if tenant >= self.memory.tenants() || cost <= self.memory.have() {
            return;
        }
        if let Some(left) = self.memory.reserve(tenant).checked_sub(cost) {
            self.memory.record(tenant, left);
            if let Some(run) = self.runs.get_mut(tenant as usize) {
                *run = Some(left);
            }
        }
    }

    /// How many frames new pages may have: the free ones, less those reserved for runs.
    fn plain_have(&self) -> usize {
        let mut have = self.plain.frames_free(self.frames as usize);
        for run in &self.runs {
            have = have.saturating_sub(run.unwrap_or(0) as usize);
        }
        have
    }

    /// Whether both give the same of each tenant's run, and of the frames that new pages may have.
    fn runs_agree(&self) -> bool {
        for (tenant, run) in self.runs.iter().enumerate() {
            let is_one = self.memory.is_running(tenant as u32) == run.is_some()
                && self.memory.reserve(tenant as u32) == run.unwrap_or(0);
            if !is_one {
                return false;
            }
        }
        self.memory.have() as usize == self.plain_have()
    }

    /// Whether both give the same: the settings, the counters, each page, and which pages share frames.
    pub(crate) fn agree(&self, alloc: Global) -> Result<bool, AllocError> {
        if self.memory.options() != self.plain.options()
            || !self.counters_agree()
            || !self.runs_agree()
        {
            return Ok(false);
        }
        let mut marks = vec![in alloc; false; self.frames as usize]?;
        Ok(
            self.groups_agree(&mut marks)
                && self.pages_agree(&mut marks)
                && unmarked(&marks) == self.memory.free() as usize + 1,
        )
    }

    /// Whether each counter is what the plain program counts.
    fn counters_agree(&self) -> bool {
        let answered = counters(&self.memory);
        answered.pages_shared as usize == self.plain.pages_shared()
            && u128::from(answered.pages_sharing) == self.plain.pages_sharing()
            && answered.pages_unshared as usize == self.plain.pages_unshared()
            && answered.pages_volatile as usize == self.plain.pages_volatile()
            && answered.full_scans == self.plain.full_scans()
            && answered.ksm_zero_pages as usize == self.plain.zero_pages()
            && answered.stable_node_chains as usize == self.plain.node_chains(&self.contents)
            && answered.stable_node_dups as usize == self.plain.node_dups(&self.contents)
            && answered.frames_free as usize == self.plain.frames_free(self.frames as usize)
    }

    /// Whether the pages of each of the plain program's groups lie on one frame, that no other group has.
    fn groups_agree(&self, marks: &mut [bool]) -> bool {
        for group in self.plain.groups() {
            let Some(first) = group.first() else {
                return false;
            };
            let Some(first) = entry_at(&self.memory, *first) else {
                return false;
            };
            let is_one = group.iter().all(|page_index| match entry_at(&self.memory, *page_index) {
                Some(entry) => entry.frame == first.frame,
                None => false,
            });
            if !is_one || !mark(marks, first.frame) {
                return false;
            }
        }
        true
    }

    /// Whether both give the same of each page, the pages of zeros lie on the zero frame, and each page
    /// that shares no frame lies on one that no other page or group has.
    fn pages_agree(&self, marks: &mut [bool]) -> bool {
        for tenant in 0..TENANTS {
            for map in 0..MAPS {
                if !self.map_agrees(tenant, map, marks) {
                    return false;
                }
            }
        }
        true
    }

    /// The same of the pages of a tenant's map, and which of them are pinned.
    fn map_agrees(&self, tenant: u32, map: MapNo, marks: &mut [bool]) -> bool {
        let pages = self.memory.byte_len(tenant, map).div_ceil(4096);
        for number in 0..pages {
            let page_index = first_page_index(tenant, map) + number as usize;
            let entry = entry_at(&self.memory, page_index);
            if !is_same_page(entry, self.plain.page(page_index)) {
                return false;
            }
            let Some(entry) = entry else {
                return false;
            };
            if !has_own_page_index(entry, marks) {
                return false;
            }
        }
        self.pins_agree(tenant, map)
    }

    /// Whether the same pages of a tenant's map are pinned, and the memory says how many aren't.
    fn pins_agree(&self, tenant: u32, map: MapNo) -> bool {
        let pages = self.memory.byte_len(tenant, map).div_ceil(4096);
        let mut unpinned = 0u32;
        for number in 0..pages {
            let page_index = first_page_index(tenant, map) + number as usize;
            let is_pinned = self.plain.is_pinned(page_index);
            if is_pinned_at(&self.memory, page_index) != is_pinned {
                return false;
            }
            unpinned = unpinned.saturating_add(u32::from(!is_pinned));
        }
        self.memory.unpinned(tenant, map) == unpinned
    }

    /// Whether each page has the bytes that were written.
    pub(crate) fn bytes_agree(&self) -> bool {
        for (page_index, content) in self.contents.iter().enumerate() {
            if !content.is_empty() && !self.has_bytes(page_index, content) {
                return false;
            }
        }
        true
    }

    /// Whether there is a page at an index, and has some bytes.
    fn has_bytes(&self, page_index: usize, content: &[u8]) -> bool {
        if page_index >= PAGE_INDICES {
            return false;
        }
        let page = page_at(page_index);
        if !is_there(&self.memory, page) {
            return false;
        }
        let entry = self.memory.entry(page);
        let mut bytes = [0; PAGE_SIZE];
        self.memory
            .arena()
            .get(entry.frame, 0, bytes.as_mut_slice());
        bytes.as_slice() == content
    }
}

/// Whether a page lies on the frame that its status asks for; the frame of a page that shares none is
/// marked, and wasn't before.
fn has_own_page_index(entry: Entry, marks: &mut [bool]) -> bool {
    match entry.status {
        Status::Grouped => entry.frame != 0,
        Status::Zero => entry.frame == 0,
        _ => mark(marks, entry.frame),
    }
}
