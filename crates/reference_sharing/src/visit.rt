//! Visits of the scanner.
ghost use Rattle.std.specs.Prelude.{◌≡◌, ◌^◌, ◌<◌, option_map, Some, None, false, IfOk, if◌then◌else◌, ℕ, ◌==◌, ◌&&◌, ◌||◌, bytes_eq};
ghost use Rattle.host_types.specs.Pages.{zero_page};
ghost use Rattle.host_types.specs.Pins.{is_pinned};
ghost use Rattle.host_types.specs.Sharing.{state_at, is_shared};
ghost use Rattle.host_types.specs.Visits.{visit, page_to_visit, moved_on, begun, decided, looked_at, had, paired_or_waiting, find_partner, changed, waits, joined, has_open};
ghost use Rattle.reference_sharing.specs.View.{indices_in, plain_contents};

use crate::sharing::{PlainPage, PlainSharing};
use crate::{contents, groups, pages, waiting};
use host_types::{Options, Status, Visited};
use std::alloc::{AllocError, Global};

/// The value of the option `run` at which the scanner runs.
const RUN: u32 = 1;

/// The value of the option `use_zero_pages` at which pages of zeros go to the frame of zeros.
const USE_ZERO_PAGES: u32 = 1;

impl PlainSharing {
    /// The options.
    pub fn options(&self) -> Options
        ensures { result ≡ self.now.options }
    {
        self.options
    }

    /// How many passes ended, at most `2^64 - 1`.
    pub fn full_scans(&self) -> u64
        ensures { result ≡ self.now.full_scans }
    {
        self.full_scans
    }

    /// Counts the passes on from a number, as from one that visits would take too long to come to.
    pub fn count_from(&mut self, full_scans: u64)
        ensures { self.new ≡ record self.old { full_scans = full_scans } }
    {
        self.full_scans = full_scans;
    }

    /// The groups in order of creation, each the list of its pages' indices in their order.
    pub fn groups(&self) -> &[Vec<usize>]
        ensures { indices_in result.now ≡ self.now.groups }
    {
        &self.groups
    }

    /// One visit: of the next page that may be merged, where the scanner runs and there is one. The
    /// contents are the bytes of the page at each index, none past the list's end. It is refused only
    /// where memory ran out; what is left then isn't said.
    pub fn visit(&mut self, alloc: Global, contents: &[Vec<u8>]) -> Result<Visited, AllocError>
        ensures { IfOk result (λ visited. visit (plain_contents contents.now) self.old ≡ (visited, self.new)) }
    {
        if self.options().run != RUN {
            return Ok(Visited::Idle);
        }
        let Some(page_index) = self.page_to_visit() else {
            return Ok(Visited::Idle);
        };
        self.begin(page_index);
        let visited = self.decide(alloc, contents, page_index)?;
        Ok(visited)
    }

    /// The index of the page that is visited next.
    fn page_to_visit(&self) -> Option<usize>
        ensures { result ≡ page_to_visit self.now }
    {
        match self.cursor {
            Some(page_index) => pages::next_following(&self.pages, page_index),
            None => pages::next_from(&self.pages, 0),
        }
    }

    /// What a visit of the page at an index begins with: a new pass begins without waiting pages.
    #[tactic(auto, unfolding(host_types::specs::Visits::begun))]
    fn begin(&mut self, page_index: usize)
        ensures { self.new ≡ begun self.old page_index }
    {
        if self.cursor.is_none() {
            self.waiting.clear();
        }
        self.move_on(page_index);
    }

    /// Makes the page at an index the one visited last; after the last page that may be merged the pass
    /// ends.
    #[tactic(auto, unfolding(host_types::specs::Visits::moved_on))]
    pub(crate) fn move_on(&mut self, page_index: usize)
        ensures { self.new ≡ moved_on self.old page_index }
    {
        if pages::next_following(&self.pages, page_index).is_some() {
            self.cursor = Some(page_index);
        } else {
            self.cursor = None;
            self.full_scans = self.full_scans.saturating_add(1);
        }
    }

    /// What becomes of the visited page.
    fn decide(
        &mut self,
        alloc: Global,
        contents: &[Vec<u8>],
        page_index: usize,
    ) -> Result<Visited, AllocError>
        ensures { IfOk result (λ visited. decided (plain_contents contents.now) self.old page_index
            (state_at self.old page_index) ≡ (visited, self.new)) }
    {
        let Some(page) = self.page(page_index) else {
            return Ok(Visited::Idle);
        };
        if self.stays(page_index, page) {
            return Ok(Visited::Already);
        }
        let visited = self.look_at(alloc, contents, page_index, page.last)?;
        Ok(visited)
    }

    /// Whether a visit leaves a page as it is: it lies on a shared frame already, or is pinned.
    fn stays(&self, page_index: usize, page: PlainPage) -> bool
        ensures { result ≡ (is_shared page.status || is_pinned self.now.pins page_index) }
    {
        page.status.is_shared() || self.is_pinned(page_index)
    }

    /// What becomes of a page with a frame of its own: the first case that holds decides.
    fn look_at(
        &mut self,
        alloc: Global,
        contents: &[Vec<u8>],
        page_index: usize,
        last: Option<u64>,
    ) -> Result<Visited, AllocError>
        ensures { IfOk result (λ visited. looked_at (plain_contents contents.now) self.old page_index last
            ≡ (visited, self.new)) }
    {
        let is_joined = self.join(contents, page_index)?;
        if is_joined {
            return Ok(Visited::Joined);
        }
        let bytes = contents::bytes_at(contents, page_index);
        let fingerprint = contents::fingerprint(bytes);
        if !had(last, fingerprint) {
            self.change(page_index, fingerprint);
            return Ok(Visited::Changed);
        }
        if self.goes_to_zeros(bytes) {
            self.zero(page_index);
            return Ok(Visited::Zeroed);
        }
        let visited = self.pair_or_wait(alloc, contents, page_index, fingerprint)?;
        Ok(visited)
    }

    /// Whether a page of some bytes goes to the frame of zeros.
    fn goes_to_zeros(&self, bytes: &[u8]) -> bool
        ensures { result ≡ (self.now.options.use_zero_pages == 1 && bytes_eq bytes.now zero_page) }
    {
        self.options.use_zero_pages == USE_ZERO_PAGES && contents::is_zeros(bytes)
    }

    /// Puts a page into the earliest open group of its bytes. It answers whether there is one.
    fn join(&mut self, contents: &[Vec<u8>], page_index: usize) -> Result<bool, AllocError>
        ensures answered { IfOk result (λ is_joined. is_joined ≡ has_open (plain_contents contents.now) self.old page_index) }
        ensures joined { IfOk result (λ is_joined. self.new ≡
            (if is_joined then joined (plain_contents contents.now) self.old page_index else self.old)) }
    {
        let limit = self.options.max_page_sharing as usize;
        let is_joined = groups::join_first(&mut self.groups, contents, page_index, limit)?;
        if is_joined {
            pages::set_status(&mut self.pages, page_index, Status::Grouped);
        }
        Ok(is_joined)
    }

    /// Keeps a page's fingerprint, which is another one than at its last visit.
    #[tactic(auto, unfolding(host_types::specs::Visits::changed))]
    fn change(&mut self, page_index: usize, fingerprint: u64)
        ensures { self.new ≡ changed self.old page_index fingerprint }
    {
        let page = match self.page(page_index) {
            Some(page) => Some(PlainPage {
                status: Status::Volatile,
                last: Some(fingerprint),
                ..page
            }),
            None => None,
        };
        pages::put(&mut self.pages, page_index, page);
    }

    /// Makes a page and the one that waits longest for its bytes a new group, or lets it wait.
    fn pair_or_wait(
        &mut self,
        alloc: Global,
        contents: &[Vec<u8>],
        page_index: usize,
        fingerprint: u64,
    ) -> Result<Visited, AllocError>
        ensures { IfOk result (λ visited. paired_or_waiting self.old page_index fingerprint
            (find_partner (plain_contents contents.now) self.old page_index fingerprint) ≡ (visited, self.new)) }
    {
        match self.partner(contents, page_index, fingerprint) {
            Some(other) => {
                self.pair(alloc, other, page_index)?;
                Ok(Visited::Paired)
            }
            None => {
                self.wait(page_index, fingerprint)?;
                Ok(Visited::Waiting)
            }
        }
    }

    /// The index of the page that waits longest for a page's bytes.
    fn partner(&self, contents: &[Vec<u8>], page_index: usize, fingerprint: u64) -> Option<usize>
        ensures { result ≡ option_map (λ (entry : ℕ × ℕ). entry.0)
            (find_partner (plain_contents contents.now) self.now page_index fingerprint) }
    {
        let bytes = contents::bytes_at(contents, page_index);
        match waiting::find_partner(&self.waiting, contents, fingerprint, bytes) {
            Some(entry) => Some(entry.0),
            None => None,
        }
    }

    /// Lets a page wait for another one of its bytes.
    #[tactic(auto, unfolding(host_types::specs::Visits::waits))]
    fn wait(&mut self, page_index: usize, fingerprint: u64) -> Result<(), AllocError>
        ensures { IfOk result (λ _. self.new ≡ waits self.old page_index fingerprint) }
    {
        waiting::insert(&mut self.waiting, page_index, fingerprint)?;
        pages::set_status(&mut self.pages, page_index, Status::Waiting);
        Ok(())
    }
}

/// Whether a page had a fingerprint at its last visit.
fn had(last: Option<u64>, fingerprint: u64) -> bool
    ensures { result ≡ had last fingerprint }
{
    match last {
        Some(last) => last == fingerprint,
        None => false,
    }
}
