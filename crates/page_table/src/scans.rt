//! The scanner's pass over the pages: the page visited next, what a visit keeps of a page, and the waiting list.

ghost use Rattle.std.specs.Prelude.{◌≡◌, ◌≢◌, ◌<◌, ◌≤◌, [], Some, None, IfSome, option_map, true};
ghost use Rattle.host_types.specs.OptionTable.{MayBe};
ghost use Rattle.host_types.specs.Pages.{page_index_of, page_bytes};
ghost use Rattle.host_types.specs.Sharing.{state_at};
ghost use Rattle.host_types.specs.Unmerging.{with_option, MaySet};
ghost use Rattle.host_types.specs.Visits.{page_to_visit, is_mergeable, flushed, moved_on, changed, waits};
ghost use Rattle.page_table.specs.State.{bytes_of_map, have_of};
ghost use Rattle.page_table.specs.Changes.{IsNotWaiting, HadFingerprint, partner_index, AreKept, MayChange, MayMerge, KeepsSettings, IsPageOf};

use crate::memory::{Memory, index_of_page, page_at};
use crate::search::next_mergeable;
use host_types::{Opt, Page, Status};
use unstable_tree::Waiter;

impl Memory {
    /// The page that was visited last in this pass, none at the start of a pass. Its map may have been
    /// dropped since.
    #[tactic(auto, unfolding(crate::specs::View::view_of))]
    pub fn cursor(&self) -> Option<Page>
        ensures page_index { option_map page_index_of result ≡ self.now.sharing.cursor }
        ensures named { IfSome result (λ page. (page.map < 8) × (page.number < 256)) }
    {
        match self.pass.cursor {
            Some(page_index) => Some(page_at(page_index)),
            None => None,
        }
    }

    /// How many passes ended, at most `2^64 - 1`.
    #[tactic(auto, unfolding(crate::specs::View::view_of))]
    pub fn full_scans(&self) -> u64
        ensures { result ≡ self.now.sharing.full_scans }
    {
        self.pass.full_scans
    }

    /// Sets one option to a value that it may have; the limit of a group's pages only while there is no
    /// group.
    #[tactic(auto, unfolding(crate::specs::View::view_of))]
    pub fn set_option(&mut self, option: Opt, value: u32)
        requires value { MayBe option value }
        requires now { MaySet self.old.sharing option }
        ensures { self.new ≡ record self.old {
          sharing =
              record self.old.sharing { options = with_option self.old.sharing.options option value };
        } }
    {
        self.pass.set(option, value);
    }

    /// The page that is visited next: the first one after the cursor that may be merged.
    pub fn next_page(&self) -> Option<Page>
        ensures page_index { option_map page_index_of result ≡ page_to_visit self.now.sharing }
        ensures there { IfSome result (IsPageOf self.now) }
        ensures mergeable { IfSome result (λ page.
            is_mergeable (state_at self.now.sharing (page_index_of page)) ≡ true) }
    {
        self.table.facts();
        match next_mergeable(&self.table, &self.shapes, self.pass.look_from()) {
            Some(page_index) => Some(page_at(page_index)),
            None => None,
        }
    }

    /// Takes all pages off the waiting list, as at the start of a pass.
    #[tactic(auto, unfolding(crate::specs::View::view_of))]
    pub fn flush(&mut self)
        ensures { self.new ≡ record self.old { sharing = flushed self.old.sharing } }
    {
        self.pass.waiting.flush();
    }

    /// Makes the next page the one visited last. After the last page that may be merged the pass
    /// ends.
    pub fn advance(&mut self, page: Page)
        requires next { page_to_visit self.old.sharing ≡ Some (page_index_of page) }
        requires start { self.old.sharing.cursor ≡ None → self.old.sharing.waiting ≡ [] }
        ensures moved { self.new ≡ record self.old { sharing = moved_on self.old.sharing (page_index_of page) } }
        ensures free { IsNotWaiting self.new page }
    {
        let page_index = index_of_page(page);
        if next_mergeable(&self.table, &self.shapes, page_index + 1).is_some() {
            self.pass.cursor = Some(page_index);
        } else {
            self.pass.end();
        }
    }

    /// Keeps a page's fingerprint, which is another one than at its last visit: the page is volatile.
    /// It may be pinned, and stays so.
    pub fn change(&mut self, page: Page, fingerprint: u64)
        requires there { IsPageOf self.old page }
        requires may { MayChange self.old page }
        requires free { IsNotWaiting self.old page }
        ensures maps { self.new.maps ≡ self.old.maps }
        ensures kept { AreKept self.old self.new }
        ensures sharing { self.new.sharing ≡ changed self.old.sharing (page_index_of page) fingerprint }
        ensures have { have_of self.new ≡ have_of self.old }
        ensures settings { KeepsSettings self.old self.new }
    {
        self.table
            .mark(index_of_page(page), Status::Volatile, fingerprint);
    }

    /// Puts a page on the waiting list, with the fingerprint that it had at its last visit and has
    /// now. The page doesn't stand after the cursor.
    pub fn wait(&mut self, page: Page, fingerprint: u64)
        requires there { IsPageOf self.old page }
        requires may { MayMerge self.old page }
        requires free { IsNotWaiting self.old page }
        requires last { HadFingerprint self.old page fingerprint }
        requires at_or_before { IfSome self.old.sharing.cursor (λ c. page_index_of page ≤ c) }
        ensures maps { self.new.maps ≡ self.old.maps }
        ensures kept { AreKept self.old self.new }
        ensures sharing { self.new.sharing ≡ waits self.old.sharing (page_index_of page) fingerprint }
        ensures have { have_of self.new ≡ have_of self.old }
        ensures settings { KeepsSettings self.old self.new }
    {
        let page_index = index_of_page(page);
        let frame = self.table.page(page_index).frame;
        self.table.mark(page_index, Status::Waiting, fingerprint);
        self.pass.waiting.insert(Waiter {
            page_index,
            frame,
            fingerprint,
        });
    }

    /// The page that waits longest of those that had this fingerprint at their last visit and have
    /// the bytes of a page now.
    pub fn partner(&self, page: Page, fingerprint: u64) -> Option<Page>
        requires there { IsPageOf self.now page }
        requires free { IsNotWaiting self.now page }
        ensures found { option_map page_index_of result ≡ partner_index self.now (page_index_of page) fingerprint }
        ensures there { IfSome result (IsPageOf self.now) }
        ensures may { IfSome result (MayMerge self.now) }
        ensures apart { IfSome result (λ other. other ≢ page) }
        ensures same { IfSome result (λ other. page_bytes (bytes_of_map self.now other) other.number
            ≡ page_bytes (bytes_of_map self.now page) page.number) }
    {
        self.table.facts();
        let frame = self.entry(page).frame;
        match self
            .pass
            .waiting
            .find(self.table.arena(), fingerprint, frame)
        {
            Some(waiter) => Some(page_at(waiter.page_index)),
            None => None,
        }
    }
}
