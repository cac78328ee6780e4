ghost use Rattle.std.specs.Prelude.{◌≡◌, ◌≤◌, ◌<◌, replicate, option_map, None, IsNone, IsSome, IfSome, IsSomeAnd, ◌+◌, ◌^◌, length};
ghost use Rattle.host_types.specs.Helpers.{lookup_answer, update_answer, maps_updated};
ghost use Rattle.host_types.specs.Layout.{stack_size, region_size, map_name};
ghost use Rattle.host_types.specs.Memory.{FlatMemory, FlatMaps, fetch, write_number, map_at};
ghost use Rattle.interp.specs.Machine.{name_of_map, address_in_first, map_named};
ghost use Rattle.reference_machine.specs.Calls.{IsUpdate, key_at, updated_from, updated_from_context, updated_from_stack};
ghost use Rattle.reference_machine.specs.Regions.{IsLocation, number_in_context, number_in_stack, number_in_map, with_number_in_stack, with_number_in_map, with_number_put};

use crate::array_map::ArrayMap;
use crate::number::{copy_if_set, number_if_set, number_of_bytes, set_bytes};
use host_types::MapNo;
use host_types::layout::{CONTEXT, MAP_NAMES, MAP_VALUES, REGION, STACK, STACK_SIZE};
use std::marker::Model;

/// A flat memory: the context, the stack of which each byte is set or not, and at most eight maps by
/// number.
#[derive(Drop)]
pub(crate) struct Memory {
    context: Vec<u8>,
    stack: [Option<u8>; STACK_SIZE],
    maps: Vec<Option<ArrayMap>>,
}

impl Model for Memory {
    ghost Value = { FlatMemory };

    ghost view = { λ memory. record { context = memory.context.items; stack = memory.stack; maps = memory.maps.items } };

    ghost invariant = { λ memory. length memory.maps.items ≤ 8 };
}

impl Memory {
    /// The memory at a run's beginning, where no byte of the stack is set.
    pub(crate) fn new(context: Vec<u8>, maps: Vec<Option<ArrayMap>>) -> Self
        requires { length maps.items ≤ 8 }
        ensures { result ≡ record { context = context.items; stack = replicate stack_size None; maps = maps.items } }
    {
        Memory {
            context,
            stack: [None; STACK_SIZE],
            maps,
        }
    }

    /// The maps by number.
    pub(crate) fn maps(&self) -> &[Option<ArrayMap>]
        ensures { result.now ≡ self.now.maps }
    {
        self.maps.as_slice()
    }

    /// The number of `size` bytes at an address. The access is aligned to its size.
    #[tactic(auto, unfolding(host_types::specs::Memory::fetch, host_types::specs::Memory::location_of, host_types::specs::Memory::bytes_at))]
    pub(crate) fn fetch(&self, address: u64, size: usize) -> Option<u64>
        requires some { 1 ≤ size }
        requires small { size ≤ 8 }
        ensures number { result ≡ fetch self.now address size }
        ensures fits { IfSome result (λ number. number < 256 ^ size) }
    {
        if address % size as u64 != 0 {
            return None;
        }
        let at = (address % REGION) as usize;
        match address / REGION {
            CONTEXT => self.fetch_context(at, size),
            STACK => self.fetch_stack(at, size),
            region @ MAP_VALUES.. => self.fetch_map((region - MAP_VALUES) as usize, at, size),
            _ => None,
        }
    }

    /// The number of `size` bytes at a location of the context.
    #[tactic(auto, using(crate::proofs::Parts::slice_part_of))]
    fn fetch_context(&self, at: usize, size: usize) -> Option<u64>
        requires { IsLocation at size }
        ensures number { result ≡ number_in_context self.now at size }
        ensures fits { IfSome result (λ number. number < 256 ^ size) }
    {
        if at + size > self.context.len() {
            return None;
        }
        Some(number_of_bytes(&self.context[at..at + size]))
    }

    /// The number of `size` bytes at a location of the stack, if each of them is set.
    #[tactic(auto, using(crate::proofs::Parts::slice_part_of))]
    fn fetch_stack(&self, at: usize, size: usize) -> Option<u64>
        requires { IsLocation at size }
        ensures number { result ≡ number_in_stack self.now at size }
        ensures fits { IfSome result (λ number. number < 256 ^ size) }
    {
        if at + size > STACK_SIZE {
            return None;
        }
        number_if_set(&self.stack[at..at + size])
    }

    /// The number of `size` bytes among the values of a map, if they lie whole in one value.
    fn fetch_map(&self, number: usize, at: usize, size: usize) -> Option<u64>
        requires { IsLocation at size }
        ensures number { result ≡ number_in_map self.now number at size }
        ensures fits { IfSome result (λ number. number < 256 ^ size) }
    {
        match self.maps.get(number) {
            Some(Some(map)) if map.has(at, size) => Some(map.number_at(at, size)),
            _ => None,
        }
    }

    /// Writes the lowest `size` bytes of a number at an address. The access is aligned to its size.
    /// `None` is a fault, which changes nothing.
    #[tactic(auto, unfolding(host_types::specs::Memory::write_number, host_types::specs::Memory::location_of, host_types::specs::Memory::with_bytes))]
    pub(crate) fn write_number(&mut self, address: u64, size: usize, number: u64) -> Option<()>
        requires some { 1 ≤ size }
        requires small { size ≤ 8 }
        ensures value { write_number self.old address size number ≡ option_map (λ _. self.new) result }
        ensures fault { IsNone result → self.new ≡ self.old }
    {
        if address % size as u64 != 0 {
            return None;
        }
        let at = (address % REGION) as usize;
        match address / REGION {
            STACK => self.location_in_stack(at, size, number),
            region @ MAP_VALUES.. => {
                self.location_in_map((region - MAP_VALUES) as usize, at, size, number)
            }
            _ => None,
        }
    }

    /// Writes the lowest `size` bytes of a number at a location of the stack.
    fn location_in_stack(&mut self, at: usize, size: usize, number: u64) -> Option<()>
        requires { IsLocation at size }
        ensures value { with_number_in_stack self.old at size number ≡ option_map (λ _. self.new) result }
        ensures fault { IsNone result → self.new ≡ self.old }
    {
        if at + size > STACK_SIZE {
            return None;
        }
        set_bytes(&mut self.stack, at, size, number);
        Some(())
    }

    /// Writes the lowest `size` bytes of a number at a location of a map, if they lie whole in the value
    /// of one element.
    fn location_in_map(
        &mut self,
        map_number: usize,
        at: usize,
        size: usize,
        number: u64,
    ) -> Option<()>
        requires { IsLocation at size }
        ensures value { with_number_in_map self.old map_number at size number ≡ option_map (λ _. self.new) result }
        ensures fault { IsNone result → self.new ≡ self.old }
    {
        match self.maps.get(map_number) {
            Some(Some(map)) if map.has(at, size) => {}
            _ => return None,
        }
        self.put_in_map(map_number, at, size, number);
        Some(())
    }

    /// Writes the lowest `size` bytes of a number at a location of a map that has the location.
    fn put_in_map(&mut self, map_number: usize, at: usize, size: usize, number: u64)
        requires small { size ≤ 8 }
        requires within { IsSomeAnd (map_at self.old.maps map_number) (λ flat. at + size ≤ length flat.bytes) }
        ensures { self.new ≡ with_number_put self.old map_number at size number }
    {
        let slot = &mut self.maps[map_number];
        let Some(map) = slot else { unreachable!() };
        map.put_number(at, size, number);
    }

    /// The name of the map with a number, if it is there.
    pub(crate) fn name(&self, number: i32) -> Option<u64>
        ensures { result ≡ name_of_map self.now.maps number }
    {
        if number < 0 {
            return None;
        }
        match self.maps.get(number as usize) {
            Some(Some(_)) => Some((MAP_NAMES + number as u64) * REGION),
            _ => None,
        }
    }

    /// The address at an offset in the first value of the map with a number, if the map is there.
    pub(crate) fn address_in_first(&self, number: i32, offset: u32) -> Option<u64>
        ensures { result ≡ address_in_first self.now.maps number offset }
    {
        if number < 0 {
            return None;
        }
        match self.maps.get(number as usize) {
            Some(Some(_)) => Some((MAP_VALUES + number as u64) * REGION + u64::from(offset)),
            _ => None,
        }
    }

    /// The map whose name a number is, if it is there.
    pub(crate) fn map_named(&self, name: u64) -> Option<MapNo>
        ensures map { result ≡ map_named self.now.maps name }
        ensures there { IfSome result (λ m. (m ≤ 7) × IsSome (map_at self.now.maps m)) }
    {
        let number = (name / REGION).saturating_sub(MAP_NAMES);
        if name != (MAP_NAMES + number) * REGION {
            return None;
        }
        match self.maps.get(number as usize) {
            Some(Some(_)) => Some(number as MapNo),
            _ => None,
        }
    }

    /// The key of a helper: the number of four bytes of the context or of the stack. It is aligned.
    #[tactic(auto, unfolding(host_types::specs::Memory::location_of, host_types::specs::Memory::bytes_at), using(crate::proofs::Locations::not_own))]
    pub(crate) fn key(&self, address: u64) -> Option<u32>
        ensures { result ≡ key_at self.now address }
    {
        if address % 4 != 0 {
            return None;
        }
        let at = (address % REGION) as usize;
        let number = match address / REGION {
            CONTEXT => self.fetch_context(at, 4)?,
            STACK => self.fetch_stack(at, 4)?,
            _ => return None,
        };
        Some(number as u32)
    }

    /// What `lookup` answers of a map that is there.
    pub(crate) fn lookup(&self, number: MapNo, key: u32) -> u64
        requires few { number ≤ 7 }
        requires there { IsSome (map_at self.now.maps number) }
        ensures { IfSome (map_at self.now.maps number) (λ flat. result ≡ lookup_answer flat.shape number key) }
    {
        match &self.maps[number as usize] {
            Some(map) => map.lookup(number, key),
            None => unreachable!(),
        }
    }

    /// What `update` answers of a map that is there and does to it, with the value at an address of the
    /// context or of the stack. `None` is a fault, which changes nothing.
    #[tactic(auto, unfolding(host_types::specs::Memory::location_of, host_types::specs::Memory::bytes_at), using(crate::proofs::Locations::not_own))]
    pub(crate) fn update(
        &mut self,
        number: MapNo,
        key: u32,
        address: u64,
        flags: u64,
    ) -> Option<u64>
        requires { IsSome (map_at self.old.maps number) }
        ensures value { updated_from self.old number key address flags ≡ option_map (λ answer. (answer, self.new)) result }
        ensures fault { IsNone result → self.new ≡ self.old }
    {
        let at = (address % REGION) as usize;
        match address / REGION {
            CONTEXT => self.update_from_context(number, key, at, flags),
            STACK => self.update_from_stack(number, key, at, flags),
            _ => None,
        }
    }

    /// How many bytes a value of a map has that is there.
    fn value_size(&self, number: MapNo) -> usize
        requires { IsSome (map_at self.now.maps number) }
        ensures size { IsSomeAnd (map_at self.now.maps number) (λ flat. result ≡ flat.shape.value_size) }
        ensures small { result < 2 ^ 32 }
    {
        match &self.maps[number as usize] {
            Some(map) => map.shape().value_size as usize,
            None => unreachable!(),
        }
    }

    /// The same with a value in the context.
    #[tactic(auto, using(crate::proofs::Parts::slice_part_of, crate::proofs::Updates::by_context))]
    fn update_from_context(&mut self, number: MapNo, key: u32, at: usize, flags: u64) -> Option<u64>
        requires { IsUpdate self.old.maps number at }
        ensures value { updated_from_context self.old number key at flags ≡ option_map (λ answer. (answer, self.new)) result }
        ensures fault { IsNone result → self.new ≡ self.old }
    {
        let end = at + self.value_size(number);
        if end > self.context.len() {
            return None;
        }
        Some(update_in(&mut self.maps, number, key, &self.context[at..end], flags))
    }

    /// The same with a value in the stack, each of whose bytes is set.
    #[tactic(auto, using(crate::proofs::Parts::slice_part_of, crate::proofs::Updates::by_stack))]
    fn update_from_stack(&mut self, number: MapNo, key: u32, at: usize, flags: u64) -> Option<u64>
        requires { IsUpdate self.old.maps number at }
        ensures value { updated_from_stack self.old number key at flags ≡ option_map (λ answer. (answer, self.new)) result }
        ensures fault { IsNone result → self.new ≡ self.old }
    {
        let size = self.value_size(number);
        if at + size > STACK_SIZE {
            return None;
        }
        let mut buffer = [0; STACK_SIZE];
        let value = &mut buffer[..size];
        if !copy_if_set(&self.stack[at..at + size], value) {
            return None;
        }
        Some(update_in(&mut self.maps, number, key, value, flags))
    }
}

/// Updates a map that is there, and gives the answer.
#[tactic(auto, unfolding(host_types::specs::Helpers::maps_updated))]
fn update_in(
    maps: &mut [Option<ArrayMap>],
    number: MapNo,
    key: u32,
    value: &[u8],
    flags: u64,
) -> u64
    requires { IsSomeAnd (map_at maps.old number) (λ flat. length value.now ≡ flat.shape.value_size) }
    ensures answer { IsSomeAnd (map_at maps.old number) (λ flat. result ≡ update_answer flat.shape key flags) }
    ensures maps { maps.new ≡ maps_updated maps.old number key value.now flags }
    ensures sized { length maps.new ≡ length maps.old }
{
    let slot = &mut maps[number as usize];
    let Some(map) = slot else { unreachable!() };
    map.update(key, value, flags)
}
