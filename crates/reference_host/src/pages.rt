//! The pages of all tenants' maps: which share frames, and the bytes of each.

ghost use Rattle.std.specs.Prelude.{◌<◌};

use crate::maps::{PageRange, count_of};
use host_core::{Event, Reply};
use host_types::limits::{MAX_MAPS, MAX_PAGES, PAGE_SIZE};
use host_types::{Fault, MapNo, Options};
use ksm_counters::Counters;
use reference_sharing::{PlainSharing, page_content};
use std::alloc::{AllocError, Global};

/// Which pages share frames, the bytes of the page at each index, and how many frames there are.
#[derive(Drop)]
pub(crate) struct Pages {
    alloc: Global,
    sharing: PlainSharing,
    contents: Vec<Vec<u8>>,
    frames: u32,
    most_pages: u32,
}

/// The index of the first page of a tenant's map, where each map has as many indices.
fn page_index_of(tenant: u32, map: usize, most_pages: u32) -> usize {
    let maps = (tenant as usize)
        .saturating_mul(MAX_MAPS)
        .saturating_add(map);
    maps.saturating_mul(most_pages as usize)
}

/// Writes the bytes of a map's page to its index.
fn refresh(contents: &mut [Vec<u8>], page_index: usize, bytes: &[u8], number: usize) {
    if number >= MAX_PAGES {
        return;
    }
    if let Some(page) = contents.get_mut(page_index) {
        if page.len() == PAGE_SIZE as usize {
            page_content(bytes, number, page);
        }
    }
}

impl Pages {
    pub(crate) fn new(
        alloc: Global,
        frames: u32,
        tenants: u32,
        most_pages: u32,
        options: Options,
    ) -> Result<Pages, AllocError> {
        let page_indices = page_index_of(tenants, 0, most_pages);
        let mut contents = Vec::new(alloc);
        for _ in 0..page_indices {
            contents.push(Vec::new(alloc))?;
        }
        Ok(Pages {
            alloc,
            sharing: PlainSharing::new(alloc, page_indices, options)?,
            contents,
            frames,
            most_pages,
        })
    }

    /// The index of the first page of a tenant's map.
    fn first_page_index(&self, tenant: u32, map: usize) -> usize {
        page_index_of(tenant, map, self.most_pages)
    }

    /// How many frames are free.
    pub(crate) fn free(&self) -> u32 {
        count_of(self.sharing.frames_free(self.frames as usize))
    }

    /// Adds the pages of a new map of zeros, which there is no room for where they are too many.
    pub(crate) fn add(
        &mut self,
        tenant: u32,
        map: usize,
        count: u32,
        mergeable: bool,
    ) -> Result<(), AllocError> {
        let first = self.first_page_index(tenant, map);
        if count > self.most_pages {
            return Err(AllocError);
        }
        for number in 0..count {
            let page_index = first.saturating_add(number as usize);
            let page = vec![in self.alloc; 0; PAGE_SIZE as usize]?;
            if let Some(content) = self.contents.get_mut(page_index) {
                *content = page;
            }
            self.sharing.add(page_index, mergeable);
        }
        Ok(())
    }

    /// Takes the pages of a map away.
    pub(crate) fn remove(&mut self, tenant: u32, map: usize, count: u32) {
        let first = self.first_page_index(tenant, map);
        if first.checked_add(count as usize).is_none() {
            return;
        }
        self.sharing.drop_pages(first, count);
        for content in self.contents.iter_mut().skip(first).take(count as usize) {
            content.clear();
        }
    }

    /// Bytes of a tenant's map were written, which are these now: each page that they lie in is broken, and
    /// is pinned if the tenant's open run took it out.
    pub(crate) fn written(
        &mut self,
        tenant: u32,
        running: bool,
        map: usize,
        range: PageRange,
        bytes: &[u8],
    ) {
        let first = self.first_page_index(tenant, map);
        for page in 0..range.count {
            let number = range.first.saturating_add(page as usize);
            let page_index = first.saturating_add(number);
            refresh(&mut self.contents, page_index, bytes, number);
            self.sharing.break_by(running, page_index);
        }
    }

    /// How many of a map's pages aren't pinned.
    pub(crate) fn unpinned(&self, tenant: u32, map: usize, count: u32) -> u32 {
        let first = self.first_page_index(tenant, map);
        let mut unpinned = 0u32;
        for number in 0..count {
            if !self
                .sharing
                .is_pinned(first.saturating_add(number as usize))
            {
                unpinned = unpinned.saturating_add(1);
            }
        }
        unpinned
    }

    /// None of a tenant's pages is pinned any more, as its run ended.
    pub(crate) fn release(&mut self, tenant: u32) {
        let first = self.first_page_index(tenant, 0);
        let end = self.first_page_index(tenant, MAX_MAPS);
        if first <= end && end <= self.sharing.pin_page_indices() {
            self.sharing.release(first, end - first);
        }
    }

    /// Lets an event that names no tenant happen, where so many frames may be had.
    pub(crate) fn serve(&mut self, event: &Event, have: u32) -> Result<Reply, Fault> {
        match event {
            Event::Visit => self.visit(),
            Event::Set { option, value } => {
                self.sharing.set(*option, *value)?;
                Ok(Reply::Done)
            }
            Event::Unmerge => self.unmerge(have),
            _ => Ok(Reply::Counters(self.counters())),
        }
    }

    /// Visits a page.
    fn visit(&mut self) -> Result<Reply, Fault> {
        match self.sharing.visit(self.alloc, &self.contents) {
            Ok(visited) => Ok(Reply::Visited(visited)),
            Err(AllocError) => Err(Fault::OutOfMemory),
        }
    }

    /// Gives each page that shares a frame one of its own, where there are as many.
    fn unmerge(&mut self, have: u32) -> Result<Reply, Fault> {
        let need = u32::try_from(self.sharing.unmerge_need()).unwrap_or(u32::MAX);
        if have < need {
            return Err(Fault::NoFrames { need, have });
        }
        self.sharing.unmerge();
        Ok(Reply::Done)
    }

    /// The counters.
    fn counters(&self) -> Counters {
        let sharing = &self.sharing;
        Counters {
            pages_shared: count_of(sharing.pages_shared()),
            pages_sharing: u32::try_from(sharing.pages_sharing()).unwrap_or(u32::MAX),
            pages_unshared: count_of(sharing.pages_unshared()),
            pages_volatile: count_of(sharing.pages_volatile()),
            full_scans: sharing.full_scans(),
            ksm_zero_pages: count_of(sharing.zero_pages()),
            stable_node_chains: count_of(sharing.node_chains(&self.contents)),
            stable_node_dups: count_of(sharing.node_dups(&self.contents)),
            frames_free: self.free(),
        }
    }
}
