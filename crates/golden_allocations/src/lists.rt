//! Lists of events of two tenants, which share pages while frames are few.

use host_core::{Bytes, Event};
use host_types::MapNo;
use std::alloc::{AllocError, Global};
use tests_inputs::texts::{COUNTER, UPDATE};

/// A list of events that is made.
#[derive(Drop)]
pub(crate) struct List {
    alloc: Global,
    pub(crate) events: Vec<Event>,
}

/// A text that updates element `key` with flags.
fn update_text(alloc: Global, key: u8, flags: u8) -> Result<Vec<u8>, AllocError> {
    let mut text = UPDATE;
    text[4] = key;
    text[68] = flags;
    let text = text.to_vec(alloc)?;
    Ok(text)
}

impl List {
    pub(crate) fn new(alloc: Global) -> List {
        List {
            alloc,
            events: Vec::new(alloc),
        }
    }

    /// Puts an event after the others.
    fn add(&mut self, event: Event) -> Result<(), AllocError> {
        self.events.push(event)?;
        Ok(())
    }

    /// A map of each tenant.
    fn maps(&mut self, value_size: u32, entries: u32) -> Result<(), AllocError> {
        self.map(0, value_size, entries)?;
        self.map(1, value_size, entries)
    }

    /// A map of a tenant.
    fn map(&mut self, tenant: u32, value_size: u32, entries: u32) -> Result<(), AllocError> {
        self.add(Event::CreateMap {
            tenant,
            value_size,
            entries,
            mergeable: true,
        })
    }

    /// Visits, and then the counters.
    fn visits(&mut self, count: u32) -> Result<(), AllocError> {
        for _ in 0..count {
            self.add(Event::Visit)?;
        }
        self.add(Event::Counters)
    }

    /// A program of a tenant.
    fn load(&mut self, tenant: u32, text: Bytes) -> Result<(), AllocError> {
        self.add(Event::Load {
            tenant,
            text,
            context_size: 0,
        })
    }

    /// A tenant's program that counts in map 0.
    fn load_counter(&mut self, tenant: u32) -> Result<(), AllocError> {
        let text = COUNTER.to_vec(self.alloc)?;
        self.load(tenant, text.into())
    }

    /// A run of a tenant's program on no context, and then the counters.
    fn run(&mut self, tenant: u32, program: u32, steps: u32) -> Result<(), AllocError> {
        self.add(Event::Begin {
            tenant,
            program,
            context: Vec::new(self.alloc).into(),
        })?;
        for _ in 0..steps {
            self.add(Event::Step { tenant })?;
        }
        self.add(Event::Counters)
    }

    /// A value of a tenant's map 0 is read.
    fn lookup(&mut self, tenant: u32, key: u32) -> Result<(), AllocError> {
        self.add(Event::HostLookup {
            tenant,
            map: 0,
            key,
        })
    }

    /// A value of each tenant's map 0 is read.
    fn lookups(&mut self, key: u32) -> Result<(), AllocError> {
        self.lookup(0, key)?;
        self.lookup(1, key)
    }

    /// A value of 24 bytes is written to element 0 of a tenant's map 0.
    fn update(&mut self, tenant: u32) -> Result<(), AllocError> {
        let mut value = [0; 24];
        value[0] = 1;
        let value = value.to_vec(self.alloc)?;
        self.add(Event::HostUpdate {
            tenant,
            map: 0,
            key: 0,
            value: value.into(),
        })
    }

    /// Loads an update of an element, and runs it.
    fn update_by_run(&mut self, program: u32, key: u8, flags: u8) -> Result<(), AllocError> {
        let text = update_text(self.alloc, key, flags)?;
        self.load(0, text.into())?;
        self.run(0, program, 12)
    }

    /// A tenant's program is unloaded.
    fn unload(&mut self, tenant: u32, program: u32) -> Result<(), AllocError> {
        self.add(Event::Unload { tenant, program })
    }

    /// A tenant's map is dropped, and then the counters.
    fn drop_map(&mut self, tenant: u32, map: MapNo) -> Result<(), AllocError> {
        self.add(Event::DropMap { tenant, map })?;
        self.add(Event::Counters)
    }

    /// Two tenants share a page, and part again, each by a run.
    pub(crate) fn parting(&mut self) -> Result<(), AllocError> {
        self.maps(8, 1)?;
        self.load_counter(0)?;
        self.load_counter(1)?;
        self.visits(2)?;
        self.visits(2)?;
        self.run(0, 0, 11)?;
        self.run(1, 0, 11)?;
        self.lookups(0)
    }

    /// Two tenants share a page. One of them gives its program and its map back, and makes them anew.
    pub(crate) fn returning(&mut self) -> Result<(), AllocError> {
        self.maps(8, 1)?;
        self.load_counter(0)?;
        self.visits(4)?;
        self.unload(0, 0)?;
        self.drop_map(0, 0)?;
        self.map(0, 8, 1)?;
        self.load_counter(0)?;
        self.run(0, 0, 11)?;
        self.lookup(0, 0)?;
        self.unload(0, 0)?;
        self.drop_map(0, 0)?;
        self.drop_map(1, 0)
    }

    /// Updates of a value that lies in two pages, each of which two tenants share, and of none.
    pub(crate) fn updating(&mut self) -> Result<(), AllocError> {
        self.maps(24, 200)?;
        self.update(0)?;
        self.update(1)?;
        self.visits(8)?;
        self.update_by_run(0, 170, 0)?;
        self.lookups(170)?;
        self.update_by_run(1, 170, 1)?;
        self.update_by_run(2, 170, 3)?;
        self.update_by_run(3, 200, 0)?;
        self.update_by_run(4, 200, 3)
    }

    /// Four pages come to lie in two frames beside the frame of zeros.
    pub(crate) fn crowding(&mut self) -> Result<(), AllocError> {
        self.maps(8, 1)?;
        self.visits(4)?;
        self.map(0, 8, 1)?;
        self.visits(6)?;
        self.map(1, 8, 1)?;
        self.visits(8)
    }
}
