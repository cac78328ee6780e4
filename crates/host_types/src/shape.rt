use crate::limits::{MAX_ENTRIES, MAX_MAP_BYTES, MAX_VALUE_SIZE, PAGE_SIZE};

/// The number of one of a tenant's maps, 0 to 7.
pub type MapNo = u32;

/// The shape of an array map: the bytes of a value, and how many elements there are.
#[derive(Clone, Copy, Debug, PartialEq, Eq)]
pub struct Shape {
    pub value_size: u32,
    pub entries: u32,
}

/// A page of a tenant's map, by its number in the map. A page has 4096 bytes.
#[derive(Clone, Copy, PartialEq, Eq)]
pub struct Page {
    pub tenant: u32,
    pub map: MapNo,
    pub number: u32,
}

impl Shape {
    ghost use Rattle.std.specs.Prelude.{◌≡◌, ◌↔◌, ◌+◌, ◌<◌, ◌≤◌, IsTrue};
    ghost use Rattle.host_types.specs.Helpers.{element_at, update_charge};
    ghost use Rattle.host_types.specs.Shapes.{IsShape, stride_of, byte_len_of};

    /// Whether a map may have this shape: values of 1 to 4096 bytes, 1 to 65536 elements, and at
    /// most 256 pages in all.
    pub fn is_valid(&self) -> bool
        ensures { IsTrue result ↔ IsShape self.now }
    {
        let is_sized = 1 <= self.value_size && self.value_size <= MAX_VALUE_SIZE;
        let is_counted = 1 <= self.entries && self.entries <= MAX_ENTRIES;
        is_sized && is_counted && self.value_size.div_ceil(8) * 8 * self.entries <= MAX_MAP_BYTES
    }

    /// The distance of two elements: the value's size, rounded up to a multiple of 8.
    pub fn stride(&self) -> u32
        requires { IsShape self.now }
        ensures { result ≡ stride_of self.now }
    {
        self.value_size.div_ceil(8) * 8
    }

    /// The bytes of a map of this shape.
    pub fn byte_len(&self) -> u32
        requires { IsShape self.now }
        ensures { result ≡ byte_len_of self.now }
    {
        self.stride() * self.entries
    }

    /// Where an element begins in its map.
    #[tactic(auto, using(crate::proofs::Elements::elements))]
    pub fn element_at(&self, key: u32) -> u32
        requires shape { IsShape self.now }
        requires there { key < self.now.entries }
        ensures offset { result ≡ element_at self.now key }
        ensures within { result + self.now.value_size ≤ byte_len_of self.now }
    {
        self.stride() * key
    }

    /// How many frames are reserved for an update of a map of this shape: 1 where no value crosses the end of
    /// a page, since the stride divides a page; else 2.
    pub fn update_charge(&self) -> u32
        requires { IsShape self.now }
        ensures { result ≡ update_charge self.now }
    {
        if PAGE_SIZE % self.stride() == 0 { 1 } else { 2 }
    }
}
