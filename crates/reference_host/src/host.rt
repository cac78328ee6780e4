use crate::pages::Pages;
use crate::tenant::PlainTenant;
use host_core::{Event, Reply, into_reply};
use host_types::{Fault, Options};
use std::alloc::{AllocError, Global};

/// Several tenants with private memories, and which of their pages share frames. A refusal for want of
/// memory says nothing of the definitions.
#[derive(Drop)]
pub struct PlainHost {
    alloc: Global,
    tenants: Vec<PlainTenant>,
    pages: Pages,
}

/// Tenants by number without maps, programs and runs.
fn new_tenants(alloc: Global, tenants: u32) -> Result<Vec<PlainTenant>, AllocError> {
    let mut all = Vec::new(alloc);
    for number in 0..tenants {
        all.push(PlainTenant::new(alloc, number)?)?;
    }
    Ok(all)
}

impl PlainHost {
    /// The definitions' host of 2 to 4096 frames and 1 to 16 tenants, none of which has a map, a program or
    /// a run. No map is going to have more pages than `most_pages`, so that lists of pages are short. The error
    /// is want of memory.
    pub fn new(
        alloc: Global,
        frames: u32,
        tenants: u32,
        most_pages: u32,
        options: Options,
    ) -> Result<PlainHost, AllocError> {
        Ok(PlainHost {
            alloc,
            tenants: new_tenants(alloc, tenants)?,
            pages: Pages::new(alloc, frames, tenants, most_pages, options)?,
        })
    }

    /// How many frames all open runs together may need.
    pub fn reserved(&self) -> u32 {
        let mut sum = 0u32;
        for tenant in &self.tenants {
            sum = sum.saturating_add(tenant.reserve(&self.pages));
        }
        sum
    }

    /// Whether no more frames may be needed than are free.
    pub fn is_covered(&self) -> bool {
        self.reserved() <= self.pages.free()
    }

    /// Lets an event happen.
    pub fn apply(&mut self, event: &Event) -> Reply {
        let have = self.pages.free().saturating_sub(self.reserved());
        let Some(number) = event.tenant() else {
            return into_reply(self.pages.serve(event, have));
        };
        match self.tenants.get_mut(number as usize) {
            Some(tenant) => into_reply(tenant.serve(self.alloc, &mut self.pages, event, have)),
            None => Reply::Refused(Fault::BadTenant),
        }
    }
}
