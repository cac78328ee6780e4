//! The maps of an object file, and which addresses of its sections are in them.

ghost use Rattle.std.specs.Prelude.{◌≡◌, ◌+◌, ◌<◌, ◌≤◌, IfOk, All, vec_len, ◌⊎◌, [], length};
ghost use Rattle.object_file.specs.Maps.{AreShapedMaps, IsMap};

use host_types::Shape;
use host_types::limits::MAX_MAPS;
use object_error::{Cause, ObjectError, named};
use std::alloc::{AllocError, Global};

/// A map that a program uses: a name, escaped for a terminal where it is none of C, its shape, and the bytes of its one value at the start, which
/// `first` has where they aren't all zero.
#[derive(Drop)]
pub struct Map {
    pub name: String,
    pub shape: Shape,
    pub first: Vec<u8>,
    /// Whether its value is the read-only data of the file. Its name doesn't say it: a map that the file defines may be named `.rodata` too.
    pub is_read_only: bool,
}

/// What stands at an address of a section: a map, by its number, or bytes of its first value from `base` on.
#[derive(Clone, Copy)]
pub(crate) struct Target {
    pub section: usize,
    pub reach: Reach,
    pub map: u32,
}

/// How much of a section a target is.
#[derive(Clone, Copy)]
pub(crate) enum Reach {
    /// The map that is defined at an offset.
    Definition(usize),
    /// The whole section, which is part of the first value from an offset of it on.
    Value(u32),
}

/// The maps of an object file in the order of their numbers, and what addresses stand for them.
#[derive(Drop)]
pub(crate) struct Maps {
    pub maps: Vec<Map>,
    pub targets: Vec<Target>,
}

impl Maps {
    pub fn new(alloc: Global) -> Self
        ensures { AreShapedMaps result.maps.items }
    {
        Maps {
            maps: Vec::new(alloc),
            targets: Vec::new(alloc),
        }
    }

    /// Adds a map, of which the first bytes are given, or which begins as zeros. Answers its number.
    pub fn add(
        &mut self,
        alloc: Global,
        section: usize,
        name: &[u8],
        shape: Shape,
        first: &[u8],
        is_read_only: bool,
    ) -> Result<u32, ObjectError>
        requires { (first.now ≡ []) ⊎ (length first.now ≡ shape.value_size) }
        ensures kept { AreShapedMaps self.old.maps.items → AreShapedMaps self.new.maps.items }
    {
        if self.maps.len() >= MAX_MAPS {
            return Err(ObjectError::at(section, 0, Cause::TooManyMaps));
        }
        let name = named(alloc, name)?;
        if !shape.is_valid() {
            return Err(ObjectError::at(section, 0, Cause::MapShape(name, shape)));
        }
        let number = self.maps.len() as u32;
        let first = unless_zeros(alloc, first)?;
        self.maps.push(Map {
            name,
            shape,
            first,
            is_read_only,
        })?;
        Ok(number)
    }

    /// The number of the map that is added next.
    pub fn next(&self) -> u32 {
        u32::try_from(self.maps.len()).unwrap_or(u32::MAX)
    }

    /// Adds what addresses of a section stand for.
    pub fn aim(&mut self, section: usize, reach: Reach, map: u32) -> Result<(), ObjectError>
        ensures { AreShapedMaps self.old.maps.items → AreShapedMaps self.new.maps.items }
    {
        self.targets.push(Target {
            section,
            reach,
            map,
        })?;
        Ok(())
    }

    /// What an address of a section stands for.
    pub fn target(&self, section: usize, offset: usize) -> Option<Target> {
        for target in &self.targets {
            if target.is_at(section, offset) {
                return Some(*target);
            }
        }
        None
    }
}

impl Target {
    /// Whether an address of a section stands for it.
    pub fn is_at(&self, section: usize, offset: usize) -> bool {
        self.section == section
            && match self.reach {
                Reach::Definition(begin) => begin == offset,
                Reach::Value(_) => true,
            }
    }
}

/// A copy of bytes, or nothing if all are zero.
fn unless_zeros(alloc: Global, bytes: &[u8]) -> Result<Vec<u8>, AllocError>
    ensures { IfOk result (λ copy. (copy.items ≡ []) ⊎ (copy.items ≡ bytes.now)) }
{
    if is_zeros(bytes) {
        return Ok(Vec::new(alloc));
    }
    Vec::from_slice(alloc, bytes)
}

/// Whether all bytes are zero.
pub(crate) fn is_zeros(bytes: &[u8]) -> bool {
    for byte in bytes {
        if *byte != 0 {
            return false;
        }
    }
    true
}
