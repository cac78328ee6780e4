//! The maps of tenants: how one is made, and taken away.

ghost use Rattle.std.specs.Prelude.{◌≡◌, ◌+◌, ◌*◌, ◌<◌, ◌≤◌, ℕ, [], length, replicate, is_none, position, Option, Some, None, IfOk, OnOk, IfErr, OnErr, IsSome, IfSome, option_map, slice_index_or};
ghost use Rattle.host_types.specs.Bytes.{part_of, with_part};
ghost use Rattle.host_types.specs.Memory.{FlatMap, map_at};
ghost use Rattle.host_types.specs.Pages.{map_index_of, zero_page};
ghost use Rattle.host_types.specs.Shapes.{IsShape};
ghost use Rattle.host_types.specs.Sharing.{new_page};
ghost use Rattle.host_types.specs.Tenant.{part_dropped};
ghost use Rattle.host_types.specs.Visits.{dropped};
ghost use Rattle.page_table.specs.Limits.{page_count, shape_of};
ghost use Rattle.page_table.specs.State.{part, free_number, free_of, have_of};
ghost use Rattle.page_table.specs.Changes.{OtherTenantsUnchanged, AreMapsKeptBut, KeepsSettings, HasMap, pages_of_map, FitsMap, RefusesMap, RefusesDrop};
ghost use Rattle.page_table.specs.declared.entry.Entry.{Entry};
ghost use Rattle.page_table.specs.Table.{states_of, contents_of, groups_of, used_by, entry_at};

use crate::entry::Entry;
use crate::memory::{Memory, map_index, pages};
use crate::search::end_if_done;
use crate::table::Table;
use host_types::limits::{MAX_MAPS, MAX_PAGES};
use host_types::{Fault, MapNo, Shape};

impl Memory {
    /// Makes a map of zeros for a tenant, at its first free number.
    ///
    /// Refusals in their order: `BadTenant` where there is no such tenant, `TooManyMaps` where it has eight
    /// maps, `BadShape` where the shape is out of limits, `NoFrames` where the map's pages are more than
    /// `have`. A refusal changes nothing. The call takes no memory.
    pub fn create_map(
        &mut self,
        tenant: u32,
        value_size: u32,
        entries: u32,
        mergeable: bool,
    ) -> Result<MapNo, Fault>
        ensures fits { OnOk result (FitsMap self.old tenant (shape_of value_size entries)) }
        ensures number { IfOk result (λ m. free_number (part self.old tenant) ≡ Some m) }
        ensures made { IfOk result (λ m.
            HasMap tenant m (shape_of value_size entries) mergeable self.old self.new) }
        ensures err { IfErr result (RefusesMap self.old tenant (shape_of value_size entries)) }
        ensures unchanged { OnErr result (self.new ≡ self.old) }
    {
        let shape = Shape {
            value_size,
            entries,
        };
        if tenant >= self.tenants() {
            return Err(Fault::BadTenant);
        }
        let Some(number) = self.free_number(tenant) else {
            return Err(Fault::TooManyMaps);
        };
        if !shape.is_valid() {
            return Err(Fault::BadShape);
        }
        let need = pages(&shape);
        let have = self.have();
        if have < need {
            return Err(Fault::NoFrames { need, have });
        }
        self.add_map(tenant, number, shape, mergeable);
        Ok(number)
    }

    /// The first number that none of a tenant's maps has.
    fn free_number(&self, tenant: u32) -> Option<MapNo>
        requires { tenant < length self.now.tenants }
        ensures first { result ≡ free_number (part self.now tenant) }
        ensures small { IfSome result (λ n. n < 8) }
    {
        let number = first_free(shapes_from(&self.shapes, map_index(tenant, 0)))?;
        Some(number as MapNo)
    }

    /// Puts a new map at a number.
    fn add_map(&mut self, tenant: u32, number: MapNo, shape: Shape, mergeable: bool)
        requires tenant { tenant < length self.old.tenants }
        requires number { number < 8 }
        requires none { map_at (part self.old tenant).maps number ≡ None }
        requires shape { IsShape shape }
        requires room { page_count shape ≤ have_of self.old }
        ensures { HasMap tenant number shape mergeable self.old self.new }
    {
        let index = map_index(tenant, number);
        add_pages(&mut self.table, index * MAX_PAGES, pages(&shape), mergeable);
        self.shapes[index] = Some(shape);
    }

    /// Takes a tenant's map away. Its pages leave their groups, the zero frame and the waiting list; a
    /// frame on which no other page lies is free then, and nothing is copied. If no page after the
    /// cursor may be merged now, the pass ends. The call takes no memory, and looks at the map's
    /// pages, at those that wait, and for the next page that may be merged.
    ///
    /// Refusals in their order: `BadTenant` where there is no such tenant, `NoMap` where it has no such map.
    /// A refusal changes nothing.
    pub fn drop_map(&mut self, tenant: u32, map: MapNo) -> Result<(), Fault>
        ensures there { OnOk result (IsSome (map_at (part self.old tenant).maps map)) }
        ensures dropped { OnOk result (part self.new tenant ≡ part_dropped (part self.old tenant) map) }
        ensures other_maps { AreMapsKeptBut map (part self.old tenant) (part self.new tenant) }
        ensures others { OtherTenantsUnchanged tenant self.old self.new }
        ensures sharing { OnOk result (self.new.sharing ≡ dropped self.old.sharing
            (map_index_of tenant map * 256) (pages_of_map (part self.old tenant) map)) }
        ensures freed { free_of self.old ≤ free_of self.new }
        ensures have { have_of self.new + free_of self.old ≡ have_of self.old + free_of self.new }
        ensures settings { KeepsSettings self.old self.new }
        ensures err { IfErr result (RefusesDrop self.old tenant map) }
        ensures unchanged { OnErr result (self.new ≡ self.old) }
    {
        if tenant >= self.tenants() {
            return Err(Fault::BadTenant);
        }
        let Some(shape) = self.shape(tenant, map) else {
            return Err(Fault::NoMap);
        };
        self.remove_map(tenant, map, shape);
        Ok(())
    }

    /// Takes a map away that is there.
    fn remove_map(&mut self, tenant: u32, map: MapNo, shape: Shape)
        requires tenant { tenant < length self.old.tenants }
        requires there { option_map (λ (flat : FlatMap). flat.shape) (map_at (part self.old tenant).maps map) ≡ Some shape }
        requires shape { IsShape shape }
        ensures dropped { part self.new tenant ≡ part_dropped (part self.old tenant) map }
        ensures other_maps { AreMapsKeptBut map (part self.old tenant) (part self.new tenant) }
        ensures others { OtherTenantsUnchanged tenant self.old self.new }
        ensures sharing { self.new.sharing ≡
            dropped self.old.sharing (map_index_of tenant map * 256) (page_count shape) }
        ensures freed { free_of self.old ≤ free_of self.new }
        ensures have { have_of self.new + free_of self.old ≡ have_of self.old + free_of self.new }
        ensures settings { KeepsSettings self.old self.new }
    {
        self.table.facts();
        let index = map_index(tenant, map);
        let first = index * MAX_PAGES;
        let count = pages(&shape);
        self.table.remove_all(first, count);
        self.pass.waiting.forget_all(first, first + count as usize);
        self.pass.pins.release(index);
        self.shapes[index] = None;
        end_if_done(&self.table, &self.shapes, &mut self.pass);
    }
}

/// The shapes of a tenant's maps by number, from the index of its first one on.
fn shapes_from(shapes: &[Option<Shape>], first: usize) -> &[Option<Shape>]
    requires { first + MAX_MAPS ≤ length shapes.now }
    ensures shapes { result.now ≡ part_of shapes.now first 8 }
    ensures eight { length result.now ≡ MAX_MAPS }
{
    &shapes[first..first + MAX_MAPS]
}

/// The first index where no map is.
fn first_free(shapes: &[Option<Shape>]) -> Option<usize>
    ensures first { result ≡ position (λ (slot : Option Shape). is_none slot) shapes.now }
    ensures inside { IfSome result (λ n. n < length shapes.now) }
{
    shapes.iter().position(|slot| slot.is_none())
}

/// Puts new pages of zeros at indices one after another.
fn add_pages(table: &mut Table, first: usize, count: u32, mergeable: bool)
    requires there { first + count ≤ length table.old.entries }
    requires few { length table.old.entries ≤ 32768 }
    requires empty { (i : ℕ) → first ≤ i → i < first + count →
        slice_index_or (contents_of table.old) i [] ≡ [] }
    requires room { used_by table.old + count ≤ length table.old.arena }
    ensures contents { contents_of table.new ≡ with_part (contents_of table.old) first (replicate count zero_page) }
    ensures states { states_of table.new.entries ≡
        with_part (states_of table.old.entries) first (replicate count (Some (new_page mergeable))) }
    ensures groups { groups_of table.new ≡ groups_of table.old }
    ensures used { used_by table.new ≡ used_by table.old + count }
    ensures arena { length table.new.arena ≡ length table.old.arena }
    ensures entries { length table.new.entries ≡ length table.old.entries }
    ensures kept { (i : ℕ) (entry : Entry) →
        entry_at table.old.entries i ≡ Some entry → entry_at table.new.entries i ≡ Some entry }
{
    for number in 0..count {
        table.add(first + number as usize, mergeable);
    }
}
