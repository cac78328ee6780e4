ghost use Rattle.std.specs.Prelude.{◌≡◌, ◌+◌, ◌^◌, ◌<◌, ◌≤◌, true, length, replicate, IfOk};
ghost use Rattle.host_types.specs.Bytes.{number_of, part_of};
ghost use Rattle.host_types.specs.Helpers.{failed, lookup_answer, update_answer, delete_answer, map_updated};
ghost use Rattle.host_types.specs.Memory.{FlatMap, is_in_value};
ghost use Rattle.host_types.specs.Shapes.{IsShape, byte_len_of};
ghost use Rattle.reference_machine.specs.Regions.{map_with_number};

use crate::number::{number_of_bytes, put_bytes, put_part};
use host_types::layout::{MAP_VALUES, REGION};
use host_types::{MapNo, Shape};
use std::alloc::{AllocError, Global};
use std::marker::Model;

/// The flag of an update that wants an element that isn't there.
const NO_EXIST: u64 = 1;

/// The flag of an update that wants an element that is there. No flag is above it.
const EXIST: u64 = 2;

/// Linux's number of the error that a key is past the end.
const E2BIG: u64 = 7;

/// Linux's number of the error that an element is there.
const EEXIST: u64 = 17;

/// Linux's number of the error that something isn't done at all.
const EINVAL: u64 = 22;

/// An array map, its elements one after another, a stride apart.
#[derive(Drop)]
pub struct ArrayMap {
    shape: Shape,
    bytes: Vec<u8>,
}

impl Model for ArrayMap {
    ghost Value = { FlatMap };

    ghost view = { λ map. record { shape = map.shape; bytes = map.bytes.items } };

    ghost invariant = { λ map. IsShape map.shape × (length map.bytes.items ≡ byte_len_of map.shape) };
}

impl ArrayMap {
    /// A map of a shape that a map may have, with as many bytes as the shape says.
    pub fn new(shape: Shape, bytes: Vec<u8>) -> Self
        requires shape { IsShape shape }
        requires sized { length bytes.items ≡ byte_len_of shape }
        ensures { result ≡ record { shape = shape; bytes = bytes.items } }
    {
        ArrayMap { shape, bytes }
    }

    /// A map of zeros, of a shape that a map may have.
    pub fn of_zeros(alloc: Global, shape: Shape) -> Result<Self, AllocError>
        requires { IsShape shape }
        ensures { IfOk result (λ map. map ≡ record { shape = shape; bytes = replicate (byte_len_of shape) 0 }) }
    {
        let bytes = vec![in alloc; 0; shape.byte_len() as usize]?;
        Ok(ArrayMap::new(shape, bytes))
    }

    /// The bytes of all elements.
    pub fn bytes(&self) -> &[u8]
        ensures { result.now ≡ self.now.bytes }
    {
        self.bytes.as_slice()
    }

    /// The shape.
    pub fn shape(&self) -> Shape
        ensures { result ≡ self.now.shape }
    {
        self.shape
    }

    /// What the helper `lookup` answers of the map with a number: the element's address, or 0 past
    /// the end.
    #[tactic(auto, unfolding(host_types::specs::Helpers::lookup_answer), using(crate::proofs::Elements::element_within))]
    pub fn lookup(&self, number: MapNo, key: u32) -> u64
        requires { number ≤ 7 }
        ensures { result ≡ lookup_answer self.now.shape number key }
    {
        if key >= self.shape.entries {
            return 0;
        }
        let values = (MAP_VALUES + u64::from(number)) * REGION;
        values + u64::from(self.shape.stride()) * u64::from(key)
    }

    /// What the helper `update` answers and does: it writes a value to an element, or gives the first
    /// error and changes nothing.
    #[tactic(auto, unfolding(host_types::specs::Helpers::update_answer, host_types::specs::Helpers::map_updated), using(crate::proofs::Elements::element_within))]
    pub fn update(&mut self, key: u32, value: &[u8], flags: u64) -> u64
        requires { length value.now ≡ self.old.shape.value_size }
        ensures answer { result ≡ update_answer self.old.shape key flags }
        ensures map { self.new ≡ map_updated key value.now flags self.old }
    {
        if flags > EXIST {
            return failed(EINVAL);
        }
        if key >= self.shape.entries {
            return failed(E2BIG);
        }
        if flags == NO_EXIST {
            return failed(EEXIST);
        }
        put_part(
            &mut self.bytes,
            self.shape.stride() as usize * key as usize,
            value,
        );
        0
    }

    /// What the helper `delete` answers: the elements of an array map are always there.
    pub fn delete() -> u64
        ensures { result ≡ delete_answer }
    {
        failed(EINVAL)
    }

    /// Whether bytes lie whole in the value of one element.
    #[tactic(auto, using(crate::proofs::Elements::within_map))]
    pub(crate) fn has(&self, at: usize, size: usize) -> bool
        requires { size ≤ 8 }
        ensures value { result ≡ is_in_value self.now.shape at size }
        ensures within { result ≡ true → at + size ≤ length self.now.bytes }
    {
        let stride = self.shape.stride() as usize;
        at / stride < self.shape.entries as usize
            && at % stride + size <= self.shape.value_size as usize
    }

    /// The number of at most eight bytes at a location.
    #[tactic(auto, using(crate::proofs::Parts::slice_part_of))]
    pub fn number_at(&self, at: usize, size: usize) -> u64
        requires small { size ≤ 8 }
        requires within { at + size ≤ length self.now.bytes }
        ensures number { result ≡ number_of (part_of self.now.bytes at size) }
        ensures fits { result < 256 ^ size }
    {
        number_of_bytes(&self.bytes[at..at + size])
    }

    /// Writes the lowest `size` bytes of a number, at most eight, at a location.
    #[tactic(auto, using(crate::proofs::Parts::length_bytes))]
    pub fn put_number(&mut self, at: usize, size: usize, number: u64)
        requires small { size ≤ 8 }
        requires within { at + size ≤ length self.old.bytes }
        ensures { self.new ≡ map_with_number self.old at size number }
    {
        put_bytes(&mut self.bytes, at, size, number);
    }
}

/// The answer that gives an error.
fn failed(error: u64) -> u64
    requires some { 1 ≤ error }
    ensures { result ≡ failed error }
{
    u64::MAX - (error - 1)
}
