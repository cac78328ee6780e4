//! Events as the generator draws them. Tenants have maps of mostly one shape, and write few values, so that
//! pages of several tenants are often alike.

use host_core::Event;
use host_types::{Opt, Options, Shape};
use std::alloc::{AllocError, Global};
use tests_inputs::texts::{COUNTER, GUARDED, MASKED, RETURN, STORES, UPDATE};
use tests_inputs::{BITS, Draws, flip};

/// One more than the most steps that are drawn together.
const STEPS: u32 = 14;

/// One more than the most visits that are drawn together.
const VISITS: u32 = 24;

/// One more than the most loads that follow one: a tenant has room for eight programs.
const LOADS: u32 = 12;

/// One more than the most events that follow one with which a tenant begins to give back what it has.
const RETURNS: u32 = 5;

/// The shape with a number: four that most maps of a list may have, and then a large one and a wrong one.
fn shape_of(number: u32) -> Shape {
    let (value_size, entries) = match number {
        0 => (24, 200),
        1 => (64, 1),
        2 => (8, 512),
        4 => (4096, 2),
        5 => (7, 0),
        _ => (8, 1),
    };
    Shape {
        value_size,
        entries,
    }
}

/// The text with a number.
fn text_of(number: u32) -> &'static [u8] {
    match number {
        0..=2 => &RETURN,
        3 => &MASKED,
        4 => &GUARDED,
        5 | 6 => &UPDATE,
        // Its stores may take more frames than its map has pages.
        7 | 8 => &STORES,
        _ => &COUNTER,
    }
}

/// How many bytes the context of the text with a number has.
fn context_of(number: u32) -> u32 {
    match number {
        3 | 4 => 8,
        _ => 0,
    }
}

/// Bytes, each the same.
fn bytes_of(alloc: Global, len: u32, byte: u8) -> Result<Vec<u8>, AllocError> {
    let bytes = vec![in alloc; byte; len as usize]?;
    Ok(bytes)
}

/// Draws the events of a list: how many maps and programs were drawn first, and how many steps of a tenant, visits,
/// loads of a tenant, and unloads and drops of a tenant are left of those that are drawn together.
#[derive(Drop)]
pub(crate) struct Events {
    draws: Draws,
    list: u32,
    tenants: u32,
    opened: u32,
    stepped: u32,
    steps: u32,
    visits: u32,
    loading: u32,
    loads: u32,
    returning: u32,
    returns: u32,
}

impl Events {
    /// The events of the list with a number, for so many tenants.
    pub(crate) fn new(seed: u64, list: u32, tenants: u32) -> Events {
        Events {
            draws: Draws::new(seed),
            list,
            tenants,
            opened: 0,
            stepped: 0,
            steps: 0,
            visits: 0,
            loading: 0,
            loads: 0,
            returning: 0,
            returns: 0,
        }
    }

    /// Options that let few pages share a frame.
    pub(crate) fn options(&mut self) -> Options {
        Options {
            use_zero_pages: self.list % 2,
            max_page_sharing: self.draws.below(3) + 2,
            ..Options::standard()
        }
    }

    /// A tenant, the first ones more often, and rarely one that isn't there.
    fn tenant(&mut self) -> u32 {
        let limit = self.tenants.saturating_mul(16).saturating_add(1);
        let last = self.draws.below(limit) / 16;
        self.draws.below(last.saturating_add(1))
    }

    /// The next event: first each tenant gets a map and a program. No steps follow an event that was refused.
    pub(crate) fn next(&mut self, alloc: Global, was_refused: bool) -> Result<Event, AllocError> {
        if was_refused {
            self.steps = 0;
        }
        if self.visits > 0 {
            self.visits -= 1;
            return Ok(Event::Visit);
        }
        if self.steps > 0 {
            return Ok(self.between_steps());
        }
        if self.loads > 0 {
            self.loads -= 1;
            return self.load(alloc, self.loading);
        }
        if self.returns > 0 {
            self.returns -= 1;
            return Ok(self.give_back());
        }
        let tenant = self.opened / 2;
        if tenant < self.tenants {
            self.opened = self.opened.saturating_add(1);
            return self.opening(alloc, tenant);
        }
        self.drawn(alloc)
    }

    /// A step of those that are left, or a visit before it.
    fn between_steps(&mut self) -> Event {
        if self.draws.below(4) == 0 {
            return Event::Visit;
        }
        self.steps = self.steps.saturating_sub(1);
        Event::Step {
            tenant: self.stepped,
        }
    }

    /// A map or a program of a tenant. Some visits are to follow it.
    fn opening(&mut self, alloc: Global, tenant: u32) -> Result<Event, AllocError> {
        self.visits = self.draws.below(4);
        if self.opened % 2 == 1 {
            Ok(self.create_map(tenant))
        } else {
            self.load(alloc, tenant)
        }
    }

    /// Any event.
    fn drawn(&mut self, alloc: Global) -> Result<Event, AllocError> {
        let tenant = self.tenant();
        match self.draws.below(64) {
            0..=2 => Ok(self.create_map(tenant)),
            3..=4 => self.loads(alloc, tenant),
            5..=15 => self.begin(alloc, tenant),
            16..=18 => Ok(self.steps()),
            19..=35 => self.update(alloc, tenant),
            36..=37 => Ok(self.lookup(tenant)),
            38..=39 => Ok(self.set()),
            40 => Ok(Event::Unmerge),
            41..=53 => Ok(self.returns()),
            _ => Ok(self.visits()),
        }
    }

    /// The first of some events in which a tenant gives back what it has.
    fn returns(&mut self) -> Event {
        self.returning = self.tenant();
        self.returns = self.draws.below(RETURNS);
        self.give_back()
    }

    /// Programs that are unloaded, the first one last, then a map that is dropped, and mostly a new one.
    fn give_back(&mut self) -> Event {
        let tenant = self.returning;
        match self.returns {
            0 if self.draws.below(3) > 0 => self.create_map(tenant),
            0 | 1 => Event::DropMap {
                tenant,
                map: self.draws.below(8) / 6,
            },
            left => Event::Unload {
                tenant,
                program: left.saturating_sub(2),
            },
        }
    }

    /// The number of the shape that most maps have, or of any shape.
    fn shape_number(&mut self) -> u32 {
        if self.draws.below(4) == 0 {
            self.draws.below(8)
        } else {
            self.list / 2 % 4
        }
    }

    /// A new map.
    fn create_map(&mut self, tenant: u32) -> Event {
        let shape = shape_of(self.shape_number());
        Event::CreateMap {
            tenant,
            value_size: shape.value_size,
            entries: shape.entries,
            mergeable: self.draws.below(8) > 0,
        }
    }

    /// The first of some loads.
    fn loads(&mut self, alloc: Global, tenant: u32) -> Result<Event, AllocError> {
        self.loading = tenant;
        self.loads = self.draws.below(LOADS);
        self.load(alloc, tenant)
    }

    /// A text for its context, rarely for another one or with a bit flipped.
    fn load(&mut self, alloc: Global, tenant: u32) -> Result<Event, AllocError> {
        let number = self.draws.below(12);
        let mut text = text_of(number).to_vec(alloc)?;
        if self.draws.below(8) == 0 {
            let at = self.draws.below(112);
            let bit = self.draws.below(8);
            flip(&mut text, at as usize, BITS[bit as usize]);
        }
        let context_size = if self.draws.below(16) == 0 {
            self.draws.below(300)
        } else {
            context_of(number)
        };
        Ok(Event::Load {
            tenant,
            text: text.into(),
            context_size,
        })
    }

    /// The beginning of a run, mostly on no context. Some steps are to follow it.
    fn begin(&mut self, alloc: Global, tenant: u32) -> Result<Event, AllocError> {
        self.stepped = tenant;
        self.steps = self.draws.below(STEPS);
        let len = if self.draws.below(6) == 0 { 8 } else { 0 };
        let byte = self.draws.below(64) as u8;
        Ok(Event::Begin {
            tenant,
            program: self.draws.below(12) / 10,
            context: bytes_of(alloc, len, byte)?.into(),
        })
    }

    /// The first of some steps, mostly of the tenant that made the last ones.
    fn steps(&mut self) -> Event {
        if self.draws.below(3) == 0 {
            self.stepped = self.tenant();
        }
        self.steps = self.draws.below(STEPS);
        Event::Step {
            tenant: self.stepped,
        }
    }

    /// The first of some visits, or that the scanner runs again before them, since an unmerging stops it.
    fn visits(&mut self) -> Event {
        self.visits = self.draws.below(VISITS);
        if self.draws.below(4) == 0 {
            Event::Set {
                option: Opt::Run,
                value: 1,
            }
        } else {
            Event::Visit
        }
    }

    /// A value of zeros or ones, mostly to a first map of the shape that most maps have.
    fn update(&mut self, alloc: Global, tenant: u32) -> Result<Event, AllocError> {
        let shape = shape_of(self.shape_number());
        let byte = self.draws.below(2) as u8;
        let value = bytes_of(alloc, shape.value_size, byte)?;
        Ok(Event::HostUpdate {
            tenant,
            map: self.draws.below(8) / 6,
            key: self.key(),
            value: value.into(),
        })
    }

    /// The key of one of the first elements, or of one that lies in two pages.
    fn key(&mut self) -> u32 {
        match self.draws.below(8) {
            0 => 170,
            1 => 1,
            2 => 2,
            _ => 0,
        }
    }

    /// A read of a value.
    fn lookup(&mut self, tenant: u32) -> Event {
        Event::HostLookup {
            tenant,
            map: self.draws.below(3),
            key: self.key(),
        }
    }

    /// An option that is set, mostly so that the scanner runs.
    fn set(&mut self) -> Event {
        let (option, value) = self.draws.option();
        Event::Set { option, value }
    }
}
