//! Writes into pages, and how a page is taken out before: it gets a frame of its own.

ghost use Rattle.std.specs.Prelude.{◌≡◌, ◌+◌, ◌*◌, ◌<◌, ◌≤◌, ◌&&◌, length, true};
ghost use Rattle.host_types.specs.Bytes.{bytes_of, part_of, with_part};
ghost use Rattle.host_types.specs.Pages.{page_index_of};
ghost use Rattle.host_types.specs.Pins.{broken_for_run, is_pinned};
ghost use Rattle.host_types.specs.Sharing.{state_at, is_shared_page, break_cost, cost_from};
ghost use Rattle.frame_arena.specs.Pages.{IsAccessSize};
ghost use Rattle.page_table.specs.State.{part, bytes_of_map, free_of, have_of};
ghost use Rattle.page_table.specs.Changes.{part_written, OtherTenantsUnchanged, AreMapsKeptBut, KeepsSettings, with_pins, IsPageOf, IsOwn};

use crate::memory::{Memory, index_of_page};
use host_types::Page;

impl Memory {
    /// Writes bytes into a page that has a frame of its own, from the byte `at` on.
    pub fn put(&mut self, page: Page, at: u32, bytes: &[u8])
        requires there { IsPageOf self.old page }
        requires own { IsOwn self.old page }
        requires in_page { at + length bytes.now ≤ 4096 }
        requires in_map { page.number * 4096 + at + length bytes.now ≤ length (bytes_of_map self.old page) }
        ensures written { part self.new page.tenant ≡
            part_written (part self.old page.tenant) page.map (page.number * 4096 + at) bytes.now }
        ensures bytes { bytes_of_map self.new page ≡
            with_part (bytes_of_map self.old page) (page.number * 4096 + at) bytes.now }
        ensures length { length (bytes_of_map self.new page) ≡ length (bytes_of_map self.old page) }
        ensures other_maps { AreMapsKeptBut page.map (part self.old page.tenant) (part self.new page.tenant) }
        ensures others { OtherTenantsUnchanged page.tenant self.old self.new }
        ensures sharing { self.new.sharing ≡ self.old.sharing }
        ensures frames { self.new.frames ≡ self.old.frames }
        ensures settings { KeepsSettings self.old self.new }
    {
        self.table.put(index_of_page(page), at, bytes);
    }

    /// Writes the lowest `size` bytes of a number, 1, 2, 4 or 8 of them, into a page that has a frame of its own, from
    /// the byte `at` on, the lowest first. Of a width that the caller knows it is one write, where `put` copies bytes
    /// one after another.
    pub fn put_number(&mut self, page: Page, at: u32, size: u32, value: u64)
        requires there { IsPageOf self.old page }
        requires own { IsOwn self.old page }
        requires size { IsAccessSize size }
        requires in_page { at + size ≤ 4096 }
        requires in_map { page.number * 4096 + at + size ≤ length (bytes_of_map self.old page) }
        ensures written { part self.new page.tenant ≡
            part_written (part self.old page.tenant) page.map (page.number * 4096 + at) (bytes_of size value) }
        ensures bytes { bytes_of_map self.new page ≡
            with_part (bytes_of_map self.old page) (page.number * 4096 + at) (bytes_of size value) }
        ensures length { length (bytes_of_map self.new page) ≡ length (bytes_of_map self.old page) }
        ensures other_maps { AreMapsKeptBut page.map (part self.old page.tenant) (part self.new page.tenant) }
        ensures others { OtherTenantsUnchanged page.tenant self.old self.new }
        ensures sharing { self.new.sharing ≡ self.old.sharing }
        ensures frames { self.new.frames ≡ self.old.frames }
        ensures settings { KeepsSettings self.old self.new }
    {
        self.table.put_number(index_of_page(page), at, size, value);
    }

    /// How many frames the break of a page takes: one for a page that shares its frame, none for the
    /// last page of a group and for a page that has its own frame.
    pub fn break_cost(&self, page: Page) -> u32
        requires { IsPageOf self.now page }
        ensures { result ≡ break_cost self.now.sharing (page_index_of page) }
    {
        self.table.costs_are_reported();
        self.table.break_cost(index_of_page(page))
    }

    /// How many frames the breaks of `count` pages of a map take, one after another from the first,
    /// each counted after the breaks before it: a page whose whole group is broken before it keeps
    /// the group's frame. Nothing is broken.
    pub fn break_costs(&self, first: Page, count: u32) -> u32
        requires there { IsPageOf self.now first }
        requires pages { (first.number + count) * 4096 < length (bytes_of_map self.now first) + 4096 }
        ensures { result ≡ cost_from self.now.sharing (page_index_of first) count }
    {
        self.table.break_costs(index_of_page(first), count)
    }

    /// Takes a page out of its group, or off the frame of zeros, so that it may be written: the
    /// page gets a copy on a frame of its own, and the last page of a group keeps the group's frame. It
    /// is pinned then where its tenant has an open run. A page that has its own frame stays as it is.
    pub fn take_out(&mut self, page: Page)
        requires there { IsPageOf self.old page }
        requires room { break_cost self.old.sharing (page_index_of page) ≤ have_of self.old }
        ensures frames { break_cost self.old.sharing (page_index_of page) ≡ 0 → self.new.frames ≡ self.old.frames }
        ensures maps { self.new.maps ≡ self.old.maps }
        ensures part { part self.new page.tenant ≡
            with_pins (part_of self.new.sharing.pins (page.tenant * 2048) 2048) (part self.old page.tenant) }
        ensures others { OtherTenantsUnchanged page.tenant self.old self.new }
        ensures sharing { self.new.sharing ≡
            broken_for_run (part self.old page.tenant).running self.old.sharing (page_index_of page) }
        ensures own { IsOwn self.new page }
        ensures free { free_of self.new + break_cost self.old.sharing (page_index_of page) ≡ free_of self.old }
        ensures have { have_of self.new + break_cost self.old.sharing (page_index_of page) ≡ have_of self.old }
        ensures settings { KeepsSettings self.old self.new }
    {
        let is_running = self.is_running(page.tenant);
        self.take_out_as(page, is_running);
    }

    /// Takes a page out as `take_out` does, and pins it only where that is asked: a store that no run
    /// makes pins nothing. Only for a tenant that has an open run a pin may be asked.
    pub fn take_out_as(&mut self, page: Page, is_pinned: bool)
        requires there { IsPageOf self.old page }
        requires room { break_cost self.old.sharing (page_index_of page) ≤ have_of self.old }
        requires run { is_pinned ≡ true → (part self.old page.tenant).running ≡ true }
        ensures frames { break_cost self.old.sharing (page_index_of page) ≡ 0 → self.new.frames ≡ self.old.frames }
        ensures maps { self.new.maps ≡ self.old.maps }
        ensures part { part self.new page.tenant ≡
            with_pins (part_of self.new.sharing.pins (page.tenant * 2048) 2048) (part self.old page.tenant) }
        ensures others { OtherTenantsUnchanged page.tenant self.old self.new }
        ensures sharing { self.new.sharing ≡ broken_for_run is_pinned self.old.sharing (page_index_of page) }
        ensures own { IsOwn self.new page }
        ensures free { free_of self.new + break_cost self.old.sharing (page_index_of page) ≡ free_of self.old }
        ensures have { have_of self.new + break_cost self.old.sharing (page_index_of page) ≡ have_of self.old }
        ensures settings { KeepsSettings self.old self.new }
    {
        self.table.costs_are_reported();
        let pins = self.pins(page, is_pinned);
        let page_index = index_of_page(page);
        self.table.take_out(page_index);
        self.pass.pins.pin_if(pins, page_index);
    }

    /// Whether the break of a page pins it: that is asked, and it lies on a frame that isn't its own.
    fn pins(&self, page: Page, is_asked: bool) -> bool
        requires { IsPageOf self.now page }
        ensures { result ≡ (is_asked && is_shared_page (state_at self.now.sharing (page_index_of page))) }
    {
        is_asked && self.table.is_shared(index_of_page(page))
    }

    /// Whether a page is pinned: the open run of its tenant took it out, and it isn't merged before
    /// that run's end.
    pub fn is_pinned(&self, page: Page) -> bool
        requires { IsPageOf self.now page }
        ensures { result ≡ is_pinned self.now.sharing.pins (page_index_of page) }
    {
        self.pass.pins.is_pinned(index_of_page(page))
    }
}
