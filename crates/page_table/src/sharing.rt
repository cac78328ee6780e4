//! Pages that come to share frames, and all pages taken out at once.

ghost use Rattle.std.specs.Prelude.{◌≡◌, ◌≢◌, ◌+◌, ◌≤◌, nat_lt, length, Some, is_some};
ghost use Rattle.host_types.specs.Pages.{page_index_of, page_bytes, zero_page};
ghost use Rattle.host_types.specs.Sharing.{cost_from, paired, zeroed};
ghost use Rattle.host_types.specs.Unmerging.{unmerged, unmerge_need, SharesNothing};
ghost use Rattle.host_types.specs.Visits.{has_open, joined};
ghost use Rattle.page_table.specs.State.{bytes_of_map, free_of, have_of};
ghost use Rattle.page_table.specs.Changes.{IsNotWaiting, contents_now, open_frame, AreKept, MayMerge, KeepsSettings, IsPageOf};

use crate::memory::{Memory, index_of_page};
use host_types::{Opt, Page};

/// The value of the option `run` after everything was unmerged.
const UNMERGED: u32 = 2;

impl Memory {
    /// Whether there is a group.
    #[tactic(auto, using(crate::proofs::Counting::groups_reported), unfolding(crate::specs::View::view_of))]
    pub fn has_groups(&self) -> bool
        ensures { result ≡ nat_lt 0 (length self.now.sharing.groups) }
    {
        self.table.has_groups()
    }

    /// Makes two pages of the same bytes a new last group, on one write-protected frame; the frame of
    /// the second one is free then. Both may be merged, and neither shares a frame or is pinned.
    pub fn pair(&mut self, first: Page, second: Page)
        requires first { IsPageOf self.old first }
        requires second { IsPageOf self.old second }
        requires apart { first ≢ second }
        requires may_first { MayMerge self.old first }
        requires may_second { MayMerge self.old second }
        requires same { page_bytes (bytes_of_map self.old first) first.number
            ≡ page_bytes (bytes_of_map self.old second) second.number }
        ensures maps { self.new.maps ≡ self.old.maps }
        ensures kept { AreKept self.old self.new }
        ensures sharing { self.new.sharing ≡ paired self.old.sharing (page_index_of first) (page_index_of second) }
        ensures free { free_of self.new ≡ free_of self.old + 1 }
        ensures have { have_of self.new ≡ have_of self.old + 1 }
        ensures settings { KeepsSettings self.old self.new }
    {
        let first = index_of_page(first);
        let second = index_of_page(second);
        self.table.pair(first, second);
        self.pass.waiting.forget(second);
        self.pass.waiting.forget(first);
    }

    /// Puts a page of zeros on the zero frame; its own frame is free then. It may be merged, shares no
    /// frame and isn't pinned.
    pub fn zero(&mut self, page: Page)
        requires there { IsPageOf self.old page }
        requires may { MayMerge self.old page }
        requires zeros { page_bytes (bytes_of_map self.old page) page.number ≡ zero_page }
        ensures maps { self.new.maps ≡ self.old.maps }
        ensures kept { AreKept self.old self.new }
        ensures sharing { self.new.sharing ≡ zeroed self.old.sharing (page_index_of page) }
        ensures free { free_of self.new ≡ free_of self.old + 1 }
        ensures have { have_of self.new ≡ have_of self.old + 1 }
        ensures settings { KeepsSettings self.old self.new }
    {
        let page_index = index_of_page(page);
        self.table.zero(page_index);
        self.pass.waiting.forget(page_index);
    }

    /// The frame of the earliest group of a page's bytes that has fewer pages than a frame may hold.
    pub fn open_group(&self, page: Page) -> Option<u32>
        requires { IsPageOf self.now page }
        ensures frame { result ≡ open_frame self.now (page_index_of page) }
        ensures answer { is_some result ≡ has_open (contents_now self.now) self.now.sharing (page_index_of page) }
    {
        self.table.facts();
        let frame = self.entry(page).frame;
        self.table.open_group(frame, self.pass.max_page_sharing())
    }

    /// Puts a page into the earliest group that is open to it, by that group's frame; the page's own
    /// frame is free then.
    pub fn join_group(&mut self, page: Page, group: u32)
        requires there { IsPageOf self.old page }
        requires may { MayMerge self.old page }
        requires free { IsNotWaiting self.old page }
        requires open { open_frame self.old (page_index_of page) ≡ Some group }
        ensures maps { self.new.maps ≡ self.old.maps }
        ensures kept { AreKept self.old self.new }
        ensures sharing { self.new.sharing ≡ joined (contents_now self.old) self.old.sharing (page_index_of page) }
        ensures free { free_of self.new ≡ free_of self.old + 1 }
        ensures have { have_of self.new ≡ have_of self.old + 1 }
        ensures settings { KeepsSettings self.old self.new }
    {
        self.table.facts();
        self.table.join(index_of_page(page), group);
    }

    /// How many frames it takes to give each page that shares a frame one of its own: one for each
    /// page of a group but its last one, which keeps the group's frame, and one for each page on the
    /// zero frame. So many the breaks of all pages take, one after another. The call looks at the
    /// groups, and at no page.
    pub fn unmerge_need(&self) -> u32
        ensures need { result ≡ unmerge_need self.now.sharing }
        ensures breaks { result ≡ cost_from self.now.sharing 0 (length self.now.sharing.pages) }
    {
        self.table.facts();
        self.table.unmerge_need()
    }

    /// Gives each page that shares a frame one of its own, in the order of the pages, and stops the
    /// scanner: `run` is 2 then. No page shares a frame then, and none is pinned that wasn't. The call
    /// looks at each page's index.
    pub fn unmerge(&mut self)
        requires { unmerge_need self.old.sharing ≤ have_of self.old }
        ensures maps { self.new.maps ≡ self.old.maps }
        ensures kept { AreKept self.old self.new }
        ensures sharing { self.new.sharing ≡ unmerged self.old.sharing }
        ensures none { SharesNothing self.new.sharing }
        ensures free { free_of self.new + unmerge_need self.old.sharing ≡ free_of self.old }
        ensures have { have_of self.new + unmerge_need self.old.sharing ≡ have_of self.old }
        ensures settings { KeepsSettings self.old self.new }
    {
        self.table.take_out_all();
        self.pass.set(Opt::Run, UNMERGED);
    }
}
