//! A tenant's private maps, its programs and its open run, and the events that name it.

use crate::entries;
use crate::maps::{
    Maps, PageRange, copies_of, copy_of, count_of, element_at, page_count, value_of,
};
use crate::pages::Pages;
use crate::programs::{PlainProgram, Programs, decode_and_verify, names_map};
use crate::runs::{PlainRun, Written, next_written, start, step};
use host_core::{Event, Reply};
use host_types::limits::{MAX_CONTEXT, MAX_MAPS, MAX_PROGRAMS};
use host_types::{Fault, MapNo, Shape};
use reference_machine::{ArrayMap, Machine, Made};
use std::alloc::{AllocError, Global};

#[derive(Drop)]
pub(crate) struct PlainTenant {
    number: u32,
    maps: Maps,
    programs: Programs,
    run: Option<PlainRun>,
}

/// Writes a value to an element of a map. A value of another size than the map's isn't written.
fn put(map: Option<&mut Option<ArrayMap>>, key: u32, value: &[u8]) {
    if let Some(Some(map)) = map {
        if value.len() == map.shape().value_size as usize {
            map.update(key, value, 0);
        }
    }
}

impl PlainTenant {
    pub(crate) fn new(alloc: Global, number: u32) -> Result<PlainTenant, AllocError> {
        Ok(PlainTenant {
            number,
            maps: entries::none(alloc, MAX_MAPS)?,
            programs: entries::none(alloc, MAX_PROGRAMS)?,
            run: None,
        })
    }

    /// What the rest of the open run may need of frames.
    pub(crate) fn reserve(&self, pages: &Pages) -> u32 {
        match &self.run {
            Some(run) => match entries::at(&self.programs, run.program) {
                Some(program) => self.needed(pages, program, run.machine.slot()),
                None => 0,
            },
            None => 0,
        }
    }

    /// What a run of a program may need of frames from a slot on: no more than its stores may take, and no more
    /// than the pages that aren't pinned in the maps that it may write.
    fn needed(&self, pages: &Pages, program: &PlainProgram, slot: usize) -> u32 {
        let mut unpinned = 0u32;
        for map in 0..MAX_MAPS {
            if program.writes(slot, map) {
                unpinned = unpinned.saturating_add(self.unpinned(pages, map));
            }
        }
        program.total(slot).min(unpinned)
    }

    /// How many pages of a map aren't pinned, none where there is no such map.
    fn unpinned(&self, pages: &Pages, map: usize) -> u32 {
        match self.shape(map) {
            Ok(shape) if shape.is_valid() => pages.unpinned(self.number, map, page_count(shape)),
            _ => 0,
        }
    }

    /// Lets an event of the tenant happen, where so many frames may be had.
    pub(crate) fn serve(
        &mut self,
        alloc: Global,
        pages: &mut Pages,
        event: &Event,
        have: u32,
    ) -> Result<Reply, Fault> {
        match event {
            Event::Step { .. } => return self.step(alloc, pages),
            Event::HostLookup { map, key, .. } => return self.lookup(alloc, *map as usize, *key),
            _ => {}
        }
        if self.run.is_some() {
            return Err(Fault::Busy);
        }
        match event {
            Event::CreateMap {
                value_size,
                entries,
                mergeable,
                ..
            } => {
                let shape = Shape {
                    value_size: *value_size,
                    entries: *entries,
                };
                self.create_map(alloc, pages, shape, *mergeable, have)
            }
            Event::Load {
                text,
                context_size,
                ..
            } => self.load(alloc, text.as_slice(), *context_size),
            Event::Begin {
                program,
                context,
                ..
            } => self.begin(alloc, pages, *program as usize, context.as_slice(), have),
            Event::HostUpdate {
                map,
                key,
                value,
                ..
            } => self.update(pages, *map as usize, *key, value.as_slice(), have),
            Event::Unload { program, .. } => self.unload(*program as usize),
            Event::DropMap { map, .. } => self.drop_map(pages, *map),
            _ => Err(Fault::BadTenant),
        }
    }

    /// Makes a map of zeros at the first free number.
    fn create_map(
        &mut self,
        alloc: Global,
        pages: &mut Pages,
        shape: Shape,
        mergeable: bool,
        have: u32,
    ) -> Result<Reply, Fault> {
        let Some(number) = entries::first_free(&self.maps) else {
            return Err(Fault::TooManyMaps);
        };
        if !shape.is_valid() {
            return Err(Fault::BadShape);
        }
        let need = page_count(shape);
        if have < need {
            return Err(Fault::NoFrames { need, have });
        }
        let Ok(map) = ArrayMap::of_zeros(alloc, shape) else {
            return Err(Fault::OutOfMemory);
        };
        let Ok(()) = pages.add(self.number, number, need, mergeable) else {
            return Err(Fault::OutOfMemory);
        };
        if let Some(entry) = self.maps.get_mut(number) {
            *entry = Some(map);
        }
        Ok(Reply::Map(count_of(number)))
    }

    /// Loads a text to the first free entry.
    fn load(&mut self, alloc: Global, text: &[u8], context_size: u32) -> Result<Reply, Fault> {
        let Some(number) = entries::first_free(&self.programs) else {
            return Err(Fault::TooManyPrograms);
        };
        if context_size > MAX_CONTEXT || context_size % 8 != 0 {
            return Err(Fault::BadContext);
        }
        let program = decode_and_verify(alloc, &self.maps, text, context_size)?;
        if let Some(entry) = self.programs.get_mut(number) {
            *entry = Some(program);
        }
        Ok(Reply::Program(count_of(number)))
    }

    /// Opens a run of a program, where there are frames for all that it may need.
    fn begin(
        &mut self,
        alloc: Global,
        pages: &Pages,
        program: usize,
        context: &[u8],
        have: u32,
    ) -> Result<Reply, Fault> {
        let need = match entries::at(&self.programs, program) {
            None => return Err(Fault::NoProgram),
            Some(program) if program.context_size != context.len() => {
                return Err(Fault::BadContext);
            }
            Some(program) => self.needed(pages, program, 0),
        };
        if have < need {
            return Err(Fault::NoFrames { need, have });
        }
        let Ok(Some(machine)) = self.machine(alloc, context) else {
            return Err(Fault::OutOfMemory);
        };
        self.run = Some(PlainRun {
            program,
            machine,
            steps: 0,
        });
        Ok(Reply::Begun)
    }

    /// The machine where a run on a context begins.
    fn machine(&self, alloc: Global, context: &[u8]) -> Result<Option<Machine>, AllocError> {
        let maps = copies_of(alloc, &self.maps)?;
        let context = context.to_vec(alloc)?;
        Ok(start(context, maps))
    }

    /// Makes a step of the open run: what it writes to a map is in the tenant's maps then. At the end none of the
    /// tenant's pages is pinned any more.
    fn step(&mut self, alloc: Global, pages: &mut Pages) -> Result<Reply, Fault> {
        let Some(run) = &mut self.run else {
            return Err(Fault::NoRun);
        };
        let Some(program) = entries::at(&self.programs, run.program) else {
            return Err(Fault::NoProgram);
        };
        let writes = next_written(&run.machine, &program.text);
        let made = step(&mut run.machine, &program.text);
        run.steps = run.steps.saturating_add(1);
        let steps = run.steps;
        match made {
            Made::Next => {
                if let Some(writes) = writes {
                    self.take_over(alloc, pages, writes)?;
                }
                Ok(Reply::Stepped)
            }
            Made::Exits(ret) => {
                self.run = None;
                pages.release(self.number);
                Ok(Reply::Ended { ret, steps })
            }
            Made::Fault => Err(Fault::NoProgram),
        }
    }

    /// Takes over a map of the machine, of which bytes were written.
    fn take_over(
        &mut self,
        alloc: Global,
        pages: &mut Pages,
        writes: Written,
    ) -> Result<(), Fault> {
        let Some(run) = &self.run else {
            return Ok(());
        };
        let Ok(copy) = copy_of(alloc, entries::at(run.machine.maps(), writes.map)) else {
            return Err(Fault::OutOfMemory);
        };
        if let Some(map) = &copy {
            pages.written(self.number, true, writes.map, writes.range, map.bytes());
        }
        if let Some(entry) = self.maps.get_mut(writes.map) {
            *entry = copy;
        }
        Ok(())
    }

    /// Writes a value to an element, as the update helper does without a flag.
    fn update(
        &mut self,
        pages: &mut Pages,
        map: usize,
        key: u32,
        value: &[u8],
        have: u32,
    ) -> Result<Reply, Fault> {
        let shape = self.shape(map)?;
        if key >= shape.entries {
            return Err(Fault::NoElement);
        }
        if value.len() != shape.value_size as usize {
            return Err(Fault::BadShape);
        }
        if !shape.is_valid() {
            return Err(Fault::BadShape);
        }
        let need = shape.update_charge();
        if have < need {
            return Err(Fault::NoFrames { need, have });
        }
        put(self.maps.get_mut(map), key, value);
        let at = element_at(shape, key);
        if let Some(now) = entries::at(&self.maps, map) {
            pages.written(
                self.number,
                false,
                map,
                PageRange::of(at, value.len()),
                now.bytes(),
            );
        }
        Ok(Reply::Done)
    }

    /// Takes a program from its index.
    fn unload(&mut self, program: usize) -> Result<Reply, Fault> {
        match self.programs.get_mut(program) {
            Some(entry) if entry.is_some() => *entry = None,
            _ => return Err(Fault::NoProgram),
        }
        Ok(Reply::Done)
    }

    /// Takes a map away that no program names.
    fn drop_map(&mut self, pages: &mut Pages, number: MapNo) -> Result<Reply, Fault> {
        let map = number as usize;
        let shape = self.shape(map)?;
        if names_map(&self.programs, number) {
            return Err(Fault::InUse);
        }
        if !shape.is_valid() {
            return Err(Fault::NoMap);
        }
        pages.remove(self.number, map, page_count(shape));
        if let Some(entry) = self.maps.get_mut(map) {
            *entry = None;
        }
        Ok(Reply::Done)
    }

    /// The shape of a map.
    fn shape(&self, map: usize) -> Result<Shape, Fault> {
        match entries::at(&self.maps, map) {
            Some(map) => Ok(map.shape()),
            None => Err(Fault::NoMap),
        }
    }

    /// Reads the value of an element.
    fn lookup(&self, alloc: Global, map: usize, key: u32) -> Result<Reply, Fault> {
        let Some(map) = entries::at(&self.maps, map) else {
            return Err(Fault::NoMap);
        };
        if key >= map.shape().entries {
            return Err(Fault::NoElement);
        }
        match value_of(alloc, map, key) {
            Ok(value) => Ok(Reply::Value(value.into())),
            Err(AllocError) => Err(Fault::OutOfMemory),
        }
    }
}
