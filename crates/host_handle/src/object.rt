//! The struct that C has of a program from an object file.
ghost use Rattle.std.specs.Prelude.{◌≡◌, ◌≤◌, length};
ghost use Rattle.object_file.specs.Maps.{AreShapedMaps};
ghost use Rattle.host_handle.specs.Written.{AreMapsWritten, AreWords, shape_for_c};

use crate::buffer::write_front;
use crate::structs::BpfHostShape;
use object_file::Map;

/// A map of an object file: its name with zeros after it, and the bytes of value 0 at the start, none if they are all zero.
#[repr(C)]
#[derive(Clone, Copy)]
pub struct BpfHostObjectMap {
    pub shape: BpfHostShape,
    pub first_len: u32,
    pub name: [u8; 64],
    pub first: [u8; 4096],
}

/// A program of an object file with its maps, or why there is none.
#[repr(C)]
pub struct BpfHostObject {
    pub context_size: u32,
    pub text_len: u32,
    pub maps_len: u32,
    pub text: [u8; 32768],
    pub maps: [BpfHostObjectMap; 8],
    pub why: [u8; 1024],
}

impl BpfHostObject {
    ghost use Rattle.std.specs.Prelude.{◌≡◌, ◌≤◌, length};
    ghost use Rattle.object_file.specs.Maps.{AreShapedMaps};
    ghost use Rattle.host_handle.specs.Written.{AreWords, IsProgramWritten};

    /// Writes a program. Bytes after its text and maps after its last stay as they were.
    pub fn write(&mut self, context_size: u32, text: &[u8], maps: &[Map])
        requires text { length text.now ≤ 32768 }
        requires maps { AreShapedMaps maps.now }
        ensures { IsProgramWritten text.now maps.now context_size self.old self.new }
    {
        self.context_size = context_size;
        self.text_len = text.len() as u32;
        write_front(text, &mut self.text);
        self.maps_len = maps.len() as u32;
        write_maps(maps, &mut self.maps);
    }

    /// Writes why there is no program.
    pub fn explain(&mut self, words: &str)
        ensures words { AreWords words.now self.old.why self.new.why }
        ensures others_kept { self.new ≡ record self.old { why = self.new.why } }
    {
        write_words(words, &mut self.why);
    }
}

impl BpfHostObjectMap {
    ghost use Rattle.object_file.specs.Maps.{IsMap};
    ghost use Rattle.host_handle.specs.Written.{IsMapWritten};

    /// Writes a map.
    fn write(&mut self, map: &Map)
        requires { IsMap map.now }
        ensures { IsMapWritten map.now self.old self.new }
    {
        self.shape = shape_for_c(map);
        self.first_len = map.first.len() as u32;
        write_front(map.first.as_slice(), &mut self.first);
        write_words(map.name.as_str(), &mut self.name);
    }
}

/// The shape of a map, as C has it.
pub(crate) fn shape_for_c(map: &Map) -> BpfHostShape
    ensures { result ≡ shape_for_c map.now }
{
    BpfHostShape {
        value_size: map.shape.value_size,
        entries: map.shape.entries,
    }
}

/// Writes maps by number.
fn write_maps(maps: &[Map], written: &mut [BpfHostObjectMap; 8])
    requires { AreShapedMaps maps.now }
    ensures { AreMapsWritten maps.now written.old written.new }
{
    for number in 0..maps.len() {
        written[number].write(&maps[number]);
    }
}

/// Writes words, and zeros after them up to the end. Where there is no room for a zero the words are cut before a character.
fn write_words(words: &str, buffer: &mut [u8])
    requires { 1 ≤ length buffer.now }
    ensures { AreWords words.now buffer.old buffer.new }
{
    let kept = words.floor_char_boundary(buffer.len() - 1);
    buffer.fill(0);
    buffer[..kept].copy_from_slice(&words.as_bytes()[..kept]);
}
