ghost use Rattle.std.specs.Prelude.{◌≡◌, ◌≢◌, ◌+◌, ◌-◌, ◌<◌, ◌≤◌, nat_lt, true, false, [], ◌∷◌, ◌++◌, All, drop, find, map, option_map, length, replicate, slice_index_or, slice_set, Option, Some, None, if◌then◌else◌, ◌==◌, IfOk, IfSome, MatchOption, ℕ};
ghost use Rattle.host_types.specs.Bytes.{bytes_of, with_part};
ghost use Rattle.page_table.specs.declared.pass.Pass.{Pass};
ghost use Rattle.host_types.specs.declared.status.Status.TheVariants.{Grouped};
ghost use Rattle.host_types.specs.Sharing.{new_page, is_shared, is_shared_page, state_at, broken, break_cost, pages_broken, cost_from, gone, gone_from, paired, zeroed, with_status};
ghost use Rattle.host_types.specs.Counters.{repeated_among, seconds_following};
ghost use Rattle.host_types.specs.Unmerging.{unmerge_need, SharesNothing};
ghost use Rattle.host_types.specs.Visits.{first_mergeable, is_mergeable, with_page};
ghost use Rattle.host_types.specs.Pages.{zero_page};
ghost use Rattle.frame_arena.specs.Pages.{IsPage, IsAccessSize, page_at};
ghost use Rattle.page_table.specs.declared.entry.Entry.{Entry};
ghost use Rattle.page_table.specs.Table.{TableState, CountsState, AreCounts, IsSound, IsEntry, IsPageAt, IsOwnAt, AreOwnKept, AreOwnKeptOutside, AreOthersKept, entry_at, states_of, contents_of, frames_of, groups_of, sharing_of, forgets, used_by, break_frames, is_on, pages_on, one_if_zero, times, state_of, is_open_frame, joined_on, marked};
ghost use Rattle.page_table.specs.Tallies.{IsTally};

use crate::counts::FrameCounts;
use crate::entry::Entry;
use crate::order::GroupOrder;
use crate::page_list::PageList;
use crate::tally::Tally;
use frame_arena::{Counted, FrameArena};
use host_types::Status;
use stable_tree::StableTree;
use std::alloc::{AllocError, Global};
use std::marker::Model;

/// The frame of all pages of zeros that were merged.
const ZERO_FRAME: u32 = 0;

/// The pages of all maps by index, and the frames that they lie on. Nothing here knows of maps.
#[derive(Drop)]
pub(crate) struct Table {
    arena: FrameArena,
    counts: FrameCounts,
    entries: PageList,
    /// The frames of the groups in order of creation.
    groups: GroupOrder,
    /// The same frames by the bytes of their pages, with room for all frames.
    tree: StableTree,
}

impl Model for Table {
    ghost use Rattle.std.specs.Prelude.{◌≤◌, length};
    ghost use Rattle.page_table.specs.Table.{TableState, IsSound, IsTreeOf};

    ghost Value = { TableState };

    ghost view = { λ t. record { arena = t.arena; entries = t.entries; groups = t.groups.listed } };

    ghost invariant = { λ t.
        IsSound (record { arena = t.arena; entries = t.entries; groups = t.groups.listed }) t.counts
        × (length t.arena ≤ t.groups.frames)
        × IsTreeOf t.arena t.groups.listed t.tree };
}

impl Table {
    /// A table without pages.
    pub(crate) fn new(alloc: Global, frames: u32, page_indices: u32) -> Result<Self, AllocError>
        requires frames { (1 ≤ frames) × (frames ≤ 4096) }
        requires page_indices { page_indices ≤ 32768 }
        ensures { IfOk result (λ t. t ≡ record { arena = replicate frames zero_page; entries = replicate page_indices None; groups = [] }) }
    {
        let arena = FrameArena::new(alloc, frames)?;
        let counts = FrameCounts::new(alloc, frames)?;
        let entries = PageList::new(alloc, page_indices)?;
        let groups = GroupOrder::new(alloc, frames)?;
        let mut tree = StableTree::new(alloc);
        tree.reserve(frames as usize)?;
        Ok(Table {
            arena,
            counts,
            entries,
            groups,
            tree,
        })
    }

    /// The frames' pages.
    pub(crate) fn arena(&self) -> &FrameArena
        ensures { result.now ≡ self.now.arena }
    {
        &self.arena
    }

    /// Each byte of a page is below 256, which its type says.
    pub(crate) fn pages_are_bytes(&self)
        ensures { All IsPage self.now.arena }
    {
        self.arena.frames();
    }

    /// What the break of a page takes follows from how many pages lie on its frame.
    pub(crate) fn costs_are_reported(&self)
        ensures { (pass : Pass) (i : ℕ) →
            break_cost (sharing_of self.now pass) i ≡ break_frames self.now i }
    {
        // a look at a field gives the invariant
        let _entries = &self.entries;
    }

    /// What holds of each table, with some counts. The function does nothing.
    pub(crate) fn facts(&self)
        ensures { (counts : CountsState) × IsSound self.now counts × AreCounts counts }
    {
        self.counts.facts();
    }

    /// How many frames no page has, the zero frame aside.
    pub(crate) fn free(&self) -> u32
        ensures { result + used_by self.now ≡ length self.now.arena }
    {
        self.counts.unused()
    }

    /// Whether there is a group.
    pub(crate) fn has_groups(&self) -> bool
        ensures { result ≡ nat_lt 0 (length self.now.groups) }
    {
        self.tree.groups() > 0
    }

    /// How many groups there are.
    pub(crate) fn groups(&self) -> u32
        ensures { result ≡ length self.now.groups }
    {
        self.tree.groups() as u32
    }

    /// How many contents have two groups or more. The number is kept, and no group is looked at.
    pub(crate) fn node_chains(&self) -> u32
        ensures { result ≡ seconds_following [] (map (page_at self.now.arena) self.now.groups) }
    {
        self.tree.node_chains() as u32
    }

    /// How many groups such contents have. The number is kept, and no group is looked at.
    pub(crate) fn node_dups(&self) -> u32
        ensures { result ≡
            repeated_among (map (page_at self.now.arena) self.now.groups) (map (page_at self.now.arena) self.now.groups) }
    {
        self.tree.node_dups() as u32
    }

    /// How many pages wait, changed, or share a frame. The numbers are kept, and no page is looked at.
    pub(crate) fn tally(&self) -> Tally
        ensures { IsTally result (states_of self.now.entries) }
    {
        self.entries.tally()
    }

    /// What is kept of the page at an index.
    pub(crate) fn entry(&self, page_index: usize) -> Option<Entry>
        requires { page_index < length self.now.entries }
        ensures entry { result ≡ entry_at self.now.entries page_index }
        ensures right { IfSome result (IsEntry self.now) }
    {
        self.entries.get(page_index)
    }

    /// What is kept of a page that is there.
    pub(crate) fn page(&self, page_index: usize) -> Entry
        requires { IsPageAt self.now page_index }
        ensures { entry_at self.now.entries page_index ≡ Some result }
    {
        let Some(entry) = self.entries.get(page_index) else {
            unreachable!()
        };
        entry
    }

    /// Whether a page lies on a frame that isn't its own.
    pub(crate) fn is_shared(&self, page_index: usize) -> bool
        requires { IsPageAt self.now page_index }
        ensures { (pass : Pass) → result ≡ is_shared_page (state_at (sharing_of self.now pass) page_index) }
    {
        self.facts();
        self.page(page_index).protected
    }

    /// Puts a page of zeros on a frame of its own, at an index without a page.
    pub(crate) fn add(&mut self, page_index: usize, mergeable: bool)
        requires there { page_index < length self.old.entries }
        requires empty { slice_index_or (contents_of self.old) page_index [] ≡ [] }
        requires room { used_by self.old < length self.old.arena }
        ensures contents { contents_of self.new ≡ slice_set (contents_of self.old) page_index zero_page }
        ensures states { states_of self.new.entries ≡ slice_set (states_of self.old.entries) page_index (Some (new_page mergeable)) }
        ensures groups { groups_of self.new ≡ groups_of self.old }
        ensures used { used_by self.new ≡ used_by self.old + 1 }
        ensures arena { length self.new.arena ≡ length self.old.arena }
        ensures entries { length self.new.entries ≡ length self.old.entries }
        ensures kept { (i : ℕ) (entry : Entry) →
            entry_at self.old.entries i ≡ Some entry → entry_at self.new.entries i ≡ Some entry }
    {
        let frame = self.counts.take();
        self.arena.clear(frame);
        let entry = Entry {
            frame,
            protected: false,
            mergeable,
            status: Status::New,
            last: None,
        };
        self.entries.set(page_index, entry);
    }

    /// Writes bytes into a page that has a frame of its own.
    pub(crate) fn put(&mut self, page_index: usize, at: u32, bytes: &[u8])
        requires there { IsPageAt self.old page_index }
        requires own { IsOwnAt self.old page_index }
        requires in_page { at + length bytes.now ≤ 4096 }
        ensures contents { contents_of self.new ≡ slice_set (contents_of self.old) page_index
            (with_part (slice_index_or (contents_of self.old) page_index []) at bytes.now) }
        ensures entries { self.new.entries ≡ self.old.entries }
        ensures groups { self.new.groups ≡ self.old.groups }
        ensures arena { length self.new.arena ≡ length self.old.arena }
    {
        let entry = self.page(page_index);
        self.arena.put(entry.frame, at, bytes);
    }

    /// Writes the lowest `size` bytes of a number, 1, 2, 4 or 8 of them, into a page that has a frame of its own.
    pub(crate) fn put_number(&mut self, page_index: usize, at: u32, size: u32, value: u64)
        requires there { IsPageAt self.old page_index }
        requires own { IsOwnAt self.old page_index }
        requires size { IsAccessSize size }
        requires in_page { at + size ≤ 4096 }
        ensures contents { contents_of self.new ≡ slice_set (contents_of self.old) page_index
            (with_part (slice_index_or (contents_of self.old) page_index []) at (bytes_of size value)) }
        ensures entries { self.new.entries ≡ self.old.entries }
        ensures groups { self.new.groups ≡ self.old.groups }
        ensures arena { length self.new.arena ≡ length self.old.arena }
    {
        let entry = self.page(page_index);
        self.arena.write(entry.frame, at, size, value);
    }

    /// How many frames the break of a page takes. The last page of a group keeps its frame; the zero
    /// frame has one holder more than its pages, so that each of them takes one.
    pub(crate) fn break_cost(&self, page_index: usize) -> u32
        requires { IsPageAt self.now page_index }
        ensures { result ≡ break_frames self.now page_index }
    {
        let entry = self.page(page_index);
        u32::from(entry.protected && self.counts.count(entry.frame) > 1)
    }

    /// How many frames the breaks of the pages at `count` indices take, one after another from the
    /// first index on, each counted after the breaks before it.
    pub(crate) fn break_costs(&self, first: usize, count: u32) -> u32
        requires { first + count ≤ length self.now.entries }
        ensures { (pass : Pass) → result ≡ cost_from (sharing_of self.now pass) first count }
    {
        let mut cost = 0;
        for number in 0..count {
            cost += self.cost_after(first, number as usize);
        }
        cost
    }

    /// How many frames the break of a page takes after the breaks of those at `number` indices before
    /// it: of the pages on its frame, these are gone then.
    fn cost_after(&self, first: usize, number: usize) -> u32
        requires { first + number < length self.now.entries }
        ensures cost { (pass : Pass) → result ≡
            break_cost (pages_broken (sharing_of self.now pass) first number) (first + number) }
        ensures small { result ≤ 1 }
    {
        let (_, run) = self.entries.all().split_at(first);
        let (before, from) = run.split_at(number);
        let Some(entry) = from[0] else {
            return 0;
        };
        if !entry.protected {
            return 0;
        }
        let left = self.counts.count(entry.frame) - count_on(before, entry.frame);
        u32::from(left > 1)
    }

    /// Takes a page out of its group or off the zero frame. A page with its own frame stays as it is, and the
    /// last page of a group keeps the frame.
    pub(crate) fn take_out(&mut self, page_index: usize)
        requires there { IsPageAt self.old page_index }
        requires room { used_by self.old + break_frames self.old page_index ≤ length self.old.arena }
        ensures frames { break_frames self.old page_index ≡ 0 → frames_of self.new.entries ≡ frames_of self.old.entries }
        ensures contents { contents_of self.new ≡ contents_of self.old }
        ensures sharing { (pass : Pass) →
            sharing_of self.new pass ≡ broken (sharing_of self.old pass) page_index }
        ensures own { IsOwnAt self.new page_index }
        ensures kept { AreOwnKept self.old self.new }
        ensures used { used_by self.new ≡ used_by self.old + break_frames self.old page_index }
        ensures arena { length self.new.arena ≡ length self.old.arena }
    {
        let entry = self.page(page_index);
        if !entry.protected {
            return;
        }
        if self.counts.count(entry.frame) > 1 {
            self.leave(page_index, entry);
        } else {
            self.end_group(page_index, entry);
        }
    }

    /// Moves a page from a frame on which others lie to a frame of its own.
    fn leave(&mut self, page_index: usize, entry: Entry)
        requires there { entry_at self.old.entries page_index ≡ Some entry }
        requires shared { is_shared entry.status ≡ true }
        requires company { 1 < one_if_zero entry.frame + pages_on entry.frame self.old.entries }
        requires room { used_by self.old < length self.old.arena }
        ensures contents { contents_of self.new ≡ contents_of self.old }
        ensures sharing { (pass : Pass) →
            sharing_of self.new pass ≡ broken (sharing_of self.old pass) page_index }
        ensures own { IsOwnAt self.new page_index }
        ensures kept { AreOwnKept self.old self.new }
        ensures used { used_by self.new ≡ used_by self.old + 1 }
        ensures arena { length self.new.arena ≡ length self.old.arena }
    {
        let frame = self.counts.take();
        self.arena.copy(entry.frame, frame);
        self.counts.release(entry.frame);
        self.entries.set(page_index, entry.broken(frame));
    }

    /// Ends the group of its last page, which keeps the frame.
    fn end_group(&mut self, page_index: usize, entry: Entry)
        requires there { entry_at self.old.entries page_index ≡ Some entry }
        requires shared { is_shared entry.status ≡ true }
        requires last { one_if_zero entry.frame + pages_on entry.frame self.old.entries ≡ 1 }
        ensures frames { frames_of self.new.entries ≡ frames_of self.old.entries }
        ensures contents { contents_of self.new ≡ contents_of self.old }
        ensures sharing { (pass : Pass) →
            sharing_of self.new pass ≡ broken (sharing_of self.old pass) page_index }
        ensures own { IsOwnAt self.new page_index }
        ensures kept { AreOwnKept self.old self.new }
        ensures used { used_by self.new ≡ used_by self.old }
        ensures arena { length self.new.arena ≡ length self.old.arena }
    {
        self.entries.set(page_index, entry.broken(entry.frame));
        self.groups.remove(entry.frame);
        self.tree
            .remove(&mut Counted::new(&self.arena), entry.frame);
    }

    /// Makes two pages of the same bytes, each with its own frame, a new last group.
    pub(crate) fn pair(&mut self, first: usize, second: usize)
        requires first { IsPageAt self.old first }
        requires second { IsPageAt self.old second }
        requires apart { first ≢ second }
        requires own_first { IsOwnAt self.old first }
        requires own_second { IsOwnAt self.old second }
        requires same { slice_index_or (contents_of self.old) first [] ≡ slice_index_or (contents_of self.old) second [] }
        ensures contents { contents_of self.new ≡ contents_of self.old }
        ensures others { (i : ℕ) → i ≢ first → i ≢ second →
            entry_at self.new.entries i ≡ entry_at self.old.entries i }
        ensures sharing { (pass : Pass) →
            sharing_of self.new (forgets first (forgets second pass)) ≡ paired (sharing_of self.old pass) first second }
        ensures used { used_by self.new + 1 ≡ used_by self.old }
        ensures arena { length self.new.arena ≡ length self.old.arena }
    {
        let one = self.page(first);
        let other = self.page(second);
        self.entries
            .set(first, one.merged(one.frame, Status::Grouped));
        self.entries
            .set(second, other.merged(one.frame, Status::Grouped));
        self.counts.share(one.frame);
        self.counts.release(other.frame);
        self.groups.push(one.frame);
        self.tree.insert(&mut Counted::new(&self.arena), one.frame);
    }

    /// Puts a page of zeros, which has its own frame, on the zero frame.
    pub(crate) fn zero(&mut self, page_index: usize)
        requires there { IsPageAt self.old page_index }
        requires own { IsOwnAt self.old page_index }
        requires zeros { slice_index_or (contents_of self.old) page_index [] ≡ zero_page }
        ensures contents { contents_of self.new ≡ contents_of self.old }
        ensures others { AreOthersKept page_index self.old self.new }
        ensures sharing { (pass : Pass) →
            sharing_of self.new (forgets page_index pass) ≡ zeroed (sharing_of self.old pass) page_index }
        ensures used { used_by self.new + 1 ≡ used_by self.old }
        ensures arena { length self.new.arena ≡ length self.old.arena }
    {
        let entry = self.page(page_index);
        self.entries
            .set(page_index, entry.merged(ZERO_FRAME, Status::Zero));
        self.counts.share(ZERO_FRAME);
        self.counts.release(entry.frame);
    }
}

impl Table {
    /// The first page that may be merged, of those from an index on and before another.
    pub(crate) fn next_mergeable(&self, from: usize, end: usize) -> Option<usize>
        requires { end ≤ length self.now.entries }
        ensures { MatchOption result
            ((i : ℕ) → from ≤ i → i < end → is_mergeable (slice_index_or (states_of self.now.entries) i None) ≡ false)
            (λ i. first_mergeable from (drop from (states_of self.now.entries)) ≡ Some i) }
    {
        for page_index in from..end {
            if may_merge(self.entries.get(page_index)) {
                return Some(page_index);
            }
        }
        None
    }

    /// The frame of the earliest group of a frame's bytes with fewer pages than the limit.
    pub(crate) fn open_group(&self, frame: u32, limit: u32) -> Option<u32>
        requires { frame < length self.now.arena }
        ensures { result ≡ find (is_open_frame self.now (page_at self.now.arena frame) limit) self.now.groups }
    {
        let spot = self.tree.find(&mut Counted::new(&self.arena), frame)?;
        self.tree.first_open(spot, self.counts.all(), limit)
    }

    /// Moves a page, which has its own frame, to the frame of a group of the same bytes.
    pub(crate) fn join(&mut self, page_index: usize, frame: u32)
        requires there { IsPageAt self.old page_index }
        requires own { IsOwnAt self.old page_index }
        requires group { 1 ≤ times frame self.old.groups }
        requires same { slice_index_or (contents_of self.old) page_index [] ≡ page_at self.old.arena frame }
        ensures contents { contents_of self.new ≡ contents_of self.old }
        ensures states { states_of self.new.entries ≡ slice_set (states_of self.old.entries) page_index
            (option_map (with_status Grouped) (slice_index_or (states_of self.old.entries) page_index None)) }
        ensures groups { groups_of self.new ≡ map (joined_on self.old page_index frame) self.old.groups }
        ensures used { used_by self.new + 1 ≡ used_by self.old }
        ensures arena { length self.new.arena ≡ length self.old.arena }
        ensures others { AreOthersKept page_index self.old self.new }
    {
        let entry = self.page(page_index);
        self.entries
            .set(page_index, entry.merged(frame, Status::Grouped));
        self.counts.share(frame);
        self.counts.release(entry.frame);
    }

    /// Gives a page, which keeps its own frame, another status and fingerprint.
    pub(crate) fn mark(&mut self, page_index: usize, status: Status, last: u64)
        requires there { IsPageAt self.old page_index }
        requires own { IsOwnAt self.old page_index }
        requires status { is_shared status ≡ false }
        ensures contents { contents_of self.new ≡ contents_of self.old }
        ensures sharing { (pass : Pass) →
            sharing_of self.new pass ≡ with_page (sharing_of self.old pass) page_index (marked status last) }
        ensures used { used_by self.new ≡ used_by self.old }
        ensures arena { self.new.arena ≡ self.old.arena }
        ensures others { AreOthersKept page_index self.old self.new }
        ensures here { (entry : Entry) → entry_at self.old.entries page_index ≡ Some entry →
            entry_at self.new.entries page_index ≡ Some (record entry { status = status; last = Some last }) }
    {
        let entry = self.page(page_index);
        let marked = Entry {
            status,
            last: Some(last),
            ..entry
        };
        self.entries.set(page_index, marked);
    }
}

impl Table {
    /// How many frames it takes to give each page that shares one a frame of its own: of each group's
    /// pages all but one, and all pages on the zero frame.
    pub(crate) fn unmerge_need(&self) -> u32
        ensures { (pass : Pass) → result ≡ unmerge_need (sharing_of self.now pass) }
    {
        self.facts();
        self.tally().shared - self.groups()
    }

    /// How many pages lie on the zero frame.
    pub(crate) fn zero_pages(&self) -> u32
        ensures pages { result ≡ pages_on 0 self.now.entries }
        ensures few { result ≤ 32768 }
    {
        self.counts.count(ZERO_FRAME) - 1
    }

    /// How many indices there are.
    pub(crate) fn page_indices(&self) -> usize
        ensures { result ≡ length self.now.entries }
    {
        self.entries.len()
    }

    /// Gives each page that shares a frame one of its own, in the order of their indices.
    pub(crate) fn take_out_all(&mut self)
        requires { (pass : Pass) →
            used_by self.old + unmerge_need (sharing_of self.old pass) ≤ length self.old.arena }
        ensures contents { contents_of self.new ≡ contents_of self.old }
        ensures sharing { (pass : Pass) → sharing_of self.new pass
            ≡ pages_broken (sharing_of self.old pass) 0 (length self.old.entries) }
        ensures none { (pass : Pass) →
            SharesNothing (pages_broken (sharing_of self.old pass) 0 (length self.old.entries)) }
        ensures kept { AreOwnKept self.old self.new }
        ensures used { (pass : Pass) →
            used_by self.new ≡ used_by self.old + unmerge_need (sharing_of self.old pass) }
        ensures arena { length self.new.arena ≡ length self.old.arena }
    {
        self.facts();
        for page_index in 0..self.page_indices() {
            self.take_out_at(page_index);
        }
    }

    /// Takes the page at an index out, if one is there.
    fn take_out_at(&mut self, page_index: usize)
        requires there { page_index < length self.old.entries }
        requires room { (pass : Pass) →
            used_by self.old + break_cost (sharing_of self.old pass) page_index ≤ length self.old.arena }
        ensures contents { contents_of self.new ≡ contents_of self.old }
        ensures sharing { (pass : Pass) →
            sharing_of self.new pass ≡ broken (sharing_of self.old pass) page_index }
        ensures kept { AreOwnKept self.old self.new }
        ensures used { (pass : Pass) →
            used_by self.new ≡ used_by self.old + break_cost (sharing_of self.old pass) page_index }
        ensures arena { length self.new.arena ≡ length self.old.arena }
    {
        self.facts();
        self.costs_are_reported();
        if self.entry(page_index).is_some() {
            self.take_out(page_index);
        }
    }
}

impl Table {
    /// Takes away the pages at `count` indices, one after another from the first on.
    pub(crate) fn remove_all(&mut self, first: usize, count: u32)
        requires inside { first + count ≤ length self.old.entries }
        requires there { (i : ℕ) → i < count → IsPageAt self.old (first + i) }
        ensures contents { contents_of self.new ≡ with_part (contents_of self.old) first (replicate count []) }
        ensures sharing { (pass : Pass) →
            sharing_of self.new pass ≡ record (gone_from (sharing_of self.old pass) first count) { pins = pass.pins } }
        ensures used { used_by self.new ≤ used_by self.old }
        ensures arena { length self.new.arena ≡ length self.old.arena }
        ensures kept { AreOwnKeptOutside first count self.old self.new }
    {
        self.facts();
        for number in 0..count {
            self.remove(first + number as usize);
        }
    }

    /// Takes a page away. Its frame is unused then where no other page lies on it; nothing is copied.
    #[tactic(auto, using(std::proofs::lemmas::Bool::Decides::nat_tests, crate::proofs::Vacating::gone_ended))]
    fn remove(&mut self, page_index: usize)
        requires { IsPageAt self.old page_index }
        ensures contents { contents_of self.new ≡ slice_set (contents_of self.old) page_index [] }
        ensures sharing { (pass : Pass) →
            sharing_of self.new pass ≡ record (gone (sharing_of self.old pass) page_index) { pins = pass.pins } }
        ensures used { used_by self.new ≤ used_by self.old }
        ensures arena { length self.new.arena ≡ length self.old.arena }
        ensures kept { AreOwnKeptOutside page_index 1 self.old self.new }
    {
        let entry = self.page(page_index);
        if !entry.protected || self.counts.count(entry.frame) > 1 {
            self.vacate(page_index, entry);
            return;
        }
        self.end_group(page_index, entry);
        let left = self.page(page_index);
        self.vacate(page_index, left);
    }

    /// Takes a page away that has its own frame, or from a frame on which others lie.
    fn vacate(&mut self, page_index: usize, entry: Entry)
        requires there { entry_at self.old.entries page_index ≡ Some entry }
        requires company { is_shared entry.status ≡ true →
            1 < one_if_zero entry.frame + pages_on entry.frame self.old.entries }
        ensures contents { contents_of self.new ≡ slice_set (contents_of self.old) page_index [] }
        ensures sharing { (pass : Pass) →
            sharing_of self.new pass ≡ record (gone (sharing_of self.old pass) page_index) { pins = pass.pins } }
        ensures used { used_by self.new ≤ used_by self.old }
        ensures arena { length self.new.arena ≡ length self.old.arena }
        ensures others { AreOthersKept page_index self.old self.new }
    {
        self.entries.clear(page_index);
        self.counts.release(entry.frame);
    }
}

/// Whether a page is there and may be merged.
fn may_merge(entry: Option<Entry>) -> bool
    ensures { result ≡ is_mergeable (option_map state_of entry) }
{
    match entry {
        Some(entry) => entry.mergeable,
        None => false,
    }
}

/// Whether a page is there and lies on a frame.
fn lies_on(entry: &Option<Entry>, frame: u32) -> bool
    ensures { result ≡ is_on frame entry.now }
{
    match entry {
        Some(entry) => entry.frame == frame,
        None => false,
    }
}

/// How many of some pages lie on a frame.
fn count_on(entries: &[Option<Entry>], frame: u32) -> u32
    requires { length entries.now ≤ 32768 }
    ensures { result ≡ pages_on frame entries.now }
{
    let mut count = 0;
    for entry in entries {
        count += u32::from(lies_on(entry, frame));
    }
    count
}
