ghost use Rattle.std.specs.Prelude.{◌≡◌, ◌+◌, ◌^◌, ◌<◌, ◌≤◌, [], replicate, slice_set, option_map, Some, None, true, false, IfOk, OnOk, IfErr, OnErr, ◌↔◌, IsTrue, if◌then◌else◌, ℕ, length, ◌==◌, ◌&&◌, ◌||◌, bytes_eq};
ghost use Rattle.host_types.specs.Pages.{zero_page};
ghost use Rattle.host_types.specs.OptionTable.{MayBe};
ghost use Rattle.host_types.specs.Bytes.{with_part};
ghost use Rattle.host_types.specs.Pins.{is_pinned, pinned, broken_for_run, broken_for_run_from};
ghost use Rattle.host_types.specs.Sharing.{new_page, state_at, is_in_company, is_shared, is_shared_page, break_cost, broken, pages_broken, cost_from, gone, gone_from, paired, zeroed, frames_free};
ghost use Rattle.host_types.specs.Counters.{pages_shared, pages_sharing, pages_unshared, pages_volatile, stable_node_chains, stable_node_dups};
ghost use Rattle.host_types.specs.Unmerging.{zero_pages, unmerged, unmerge_need, with_option, MaySet, RefusesSet};
ghost use Rattle.host_types.specs.Visits.{dropped};
ghost use Rattle.reference_sharing.specs.View.{page_of, indices_in, plain_contents, sharing_at_rest};

use crate::pages::Sort;
use crate::{contents, groups, pages, waiting};
use host_types::{Fault, Opt, Options, Status};
use std::alloc::{AllocError, Global};
use std::marker::Model;

/// The value of the option `run` after everything was unmerged.
const UNMERGED: u32 = 2;

/// What is kept of a page.
#[derive(Clone, Copy, PartialEq, Eq)]
pub struct PlainPage {
    pub mergeable: bool,
    pub status: Status,
    /// The fingerprint at the page's last visit.
    pub last: Option<u64>,
}

/// Which pages share frames: the pages by index, the groups as lists of indices in order of creation,
/// and how far the scanner has come.
#[derive(Drop)]
pub struct PlainSharing {
    pub(crate) pages: Vec<Option<PlainPage>>,
    pub(crate) groups: Vec<Vec<usize>>,
    /// Indices and recorded fingerprints, in order of insertion.
    pub(crate) waiting: Vec<(usize, u64)>,
    /// The index of the page visited last in this pass.
    pub(crate) cursor: Option<usize>,
    pub(crate) options: Options,
    /// How many passes ended.
    pub(crate) full_scans: u64,
    /// For each index whether its page is pinned.
    pins: Vec<bool>,
}

impl Model for PlainSharing {
    ghost use Rattle.std.specs.Prelude.{map};
    ghost use Rattle.host_types.specs.Sharing.{Sharing};
    ghost use Rattle.reference_sharing.specs.View.{page_states, indices_in};

    ghost Value = { Sharing };

    ghost view = { λ s. record {
      pages = page_states s.pages.items;
      groups = indices_in s.groups.items;
      waiting = s.waiting.items;
      cursor = s.cursor;
      options = s.options;
      full_scans = s.full_scans;
      pins = s.pins.items;
    } };
}

impl PlainSharing {
    /// So many indices without pages.
    pub fn new(alloc: Global, page_indices: usize, options: Options) -> Result<Self, AllocError>
        ensures { IfOk result (λ s. s ≡ sharing_at_rest (replicate page_indices None) [] options) }
    {
        let pages = vec![in alloc; None; page_indices]?;
        let pins = vec![in alloc; false; page_indices]?;
        Ok(PlainSharing {
            pages,
            groups: Vec::new(alloc),
            waiting: Vec::new(alloc),
            cursor: None,
            options,
            full_scans: 0,
            pins,
        })
    }

    /// What is kept of the page at an index, if there is one.
    pub fn page(&self, page_index: usize) -> Option<PlainPage>
        ensures { option_map page_of result ≡ state_at self.now page_index }
    {
        pages::at(&self.pages, page_index)
    }

    /// Puts a page that was never visited at an index, if the index is there.
    pub fn add(&mut self, page_index: usize, mergeable: bool)
        ensures { self.new ≡ record self.old { pages = slice_set self.old.pages page_index (Some (new_page mergeable)) } }
    {
        let page = PlainPage {
            mergeable,
            status: Status::New,
            last: None,
        };
        pages::put(&mut self.pages, page_index, Some(page));
    }

    /// Whether the page at an index is in a group with another one.
    fn is_in_company(&self, page_index: usize) -> bool
        ensures { result ≡ is_in_company self.now page_index }
    {
        groups::in_company(&self.groups, page_index)
    }

    /// How many frames the break of a page takes.
    #[tactic(auto, unfolding(host_types::specs::Sharing::break_cost))]
    pub fn break_cost(&self, page_index: usize) -> u32
        ensures cost { result ≡ break_cost self.now page_index }
        ensures small { result ≤ 1 }
    {
        let Some(page) = self.page(page_index) else {
            return 0;
        };
        match page.status {
            Status::New | Status::Volatile | Status::Waiting => 0,
            Status::Grouped => u32::from(self.is_in_company(page_index)),
            Status::Zero => 1,
        }
    }

    /// Takes a page out of its group or off the frame of zeros, as before it is written. Another page
    /// stays as it is.
    #[tactic(auto, unfolding(host_types::specs::Sharing::broken))]
    pub fn break_page(&mut self, page_index: usize)
        ensures { self.new ≡ broken self.old page_index }
    {
        let Some(page) = self.page(page_index) else {
            return;
        };
        if page.status.is_shared() {
            let broken = PlainPage {
                status: Status::Volatile,
                last: None,
                ..page
            };
            pages::put(&mut self.pages, page_index, Some(broken));
            groups::leave(&mut self.groups, page_index);
        }
    }

    /// For how many indices it is kept whether their page is pinned.
    pub fn pin_page_indices(&self) -> usize
        ensures { result ≡ length self.now.pins }
    {
        self.pins.len()
    }

    /// Whether the page at an index is pinned. After all indices there is none that could be taken out.
    pub fn is_pinned(&self, page_index: usize) -> bool
        ensures { result ≡ is_pinned self.now.pins page_index }
    {
        match self.pins.get(page_index) {
            Some(is_pinned) => *is_pinned,
            None => true,
        }
    }

    /// Pins the page at an index, if the index is there.
    fn pin(&mut self, page_index: usize)
        ensures { self.new ≡ pinned self.old page_index }
    {
        if page_index < self.pins.len() {
            self.pins[page_index] = true;
        }
    }

    /// Whether the page at an index lies on a frame that isn't its own.
    fn is_shared(&self, page_index: usize) -> bool
        ensures { result ≡ is_shared_page (state_at self.now page_index) }
    {
        match self.page(page_index) {
            Some(page) => page.status.is_shared(),
            None => false,
        }
    }

    /// Breaks a page before it is written. Where it is taken out by an open run, it is pinned.
    #[tactic(auto, unfolding(host_types::specs::Pins::broken_for_run))]
    pub fn break_by(&mut self, running: bool, page_index: usize)
        ensures { self.new ≡ broken_for_run running self.old page_index }
    {
        let is_taken = running && self.is_shared(page_index);
        self.break_page(page_index);
        if is_taken {
            self.pin(page_index);
        }
    }

    /// Breaks the pages at so many indices from one on, one after another, by an open run or by none. It
    /// answers how many frames that took, each break after those before it.
    pub fn break_pages(&mut self, running: bool, first: usize, count: u32) -> u32
        requires { first + count < 2 ^ 64 }
        ensures broken { self.new ≡ broken_for_run_from running self.old first count }
        ensures cost { result ≡ cost_from self.old first count }
    {
        let mut cost = 0;
        for number in 0..count {
            let page_index = first + number as usize;
            cost += self.break_cost(page_index);
            self.break_by(running, page_index);
        }
        cost
    }

    /// Ends the pins of the pages at so many indices from one on, as where their tenant's run ends.
    pub fn release(&mut self, first: usize, count: usize)
        requires { first + count ≤ length self.old.pins }
        ensures { self.new ≡ record self.old { pins = with_part self.old.pins first (replicate count false) } }
    {
        end_pins(&mut self.pins, first, count);
    }

    /// Ends the pin of the page at an index, if the index is there.
    fn unpin(&mut self, page_index: usize)
        ensures { self.new ≡ record self.old { pins = slice_set self.old.pins page_index false } }
    {
        if page_index < self.pins.len() {
            self.pins[page_index] = false;
        }
    }

    /// Takes the pages at so many indices from one on away, as where their map is dropped: they leave
    /// their groups, the frame of zeros and the waiting list, and the pass ends if no page after the
    /// cursor may be merged then.
    #[tactic(auto, unfolding(host_types::specs::Visits::dropped))]
    pub fn drop_pages(&mut self, first: usize, count: u32)
        requires { first + count < 2 ^ 64 }
        ensures { self.new ≡ dropped self.old first count }
    {
        let cursor = self.cursor;
        self.remove_pages(first, count);
        waiting::forget_all(&mut self.waiting, first, count as usize);
        if let Some(page_index) = cursor {
            self.move_on(page_index);
        }
    }

    /// Takes the pages at so many indices from one on away, one after another.
    fn remove_pages(&mut self, first: usize, count: u32)
        requires { first + count < 2 ^ 64 }
        ensures gone { self.new ≡ gone_from self.old first count }
        ensures waiting { self.new.waiting ≡ self.old.waiting }
    {
        for number in 0..count {
            self.remove_page(first + number as usize);
        }
    }

    /// Takes a page away, after it left its group or the frame of zeros; it isn't pinned then.
    #[tactic(auto, unfolding(host_types::specs::Sharing::gone, host_types::specs::Sharing::broken))]
    fn remove_page(&mut self, page_index: usize)
        ensures gone { self.new ≡ gone self.old page_index }
        ensures waiting { self.new.waiting ≡ self.old.waiting }
    {
        self.break_page(page_index);
        pages::put(&mut self.pages, page_index, None);
        self.unpin(page_index);
    }

    /// Makes two pages of the same bytes a new last group. It is refused only where memory ran out, and
    /// changes nothing then.
    #[tactic(auto, unfolding(host_types::specs::Sharing::paired))]
    pub fn pair(&mut self, alloc: Global, first: usize, second: usize) -> Result<(), AllocError>
        ensures paired { IfOk result (λ _. self.new ≡ paired self.old first second) }
        ensures refused { OnErr result (self.new ≡ self.old) }
    {
        let group = groups::pair(alloc, first, second)?;
        self.groups.push(group)?;
        pages::set_status(&mut self.pages, first, Status::Grouped);
        pages::set_status(&mut self.pages, second, Status::Grouped);
        waiting::forget(&mut self.waiting, second);
        waiting::forget(&mut self.waiting, first);
        Ok(())
    }

    /// Puts a page of zeros on the frame of zeros.
    #[tactic(auto, unfolding(host_types::specs::Sharing::zeroed))]
    pub fn zero(&mut self, page_index: usize)
        ensures { self.new ≡ zeroed self.old page_index }
    {
        pages::set_status(&mut self.pages, page_index, Status::Zero);
        waiting::forget(&mut self.waiting, page_index);
    }

    /// How many of so many frames are free: all but the frame of zeros, one for each group, and one for
    /// each page that is neither in a group nor on the frame of zeros.
    #[tactic(auto, unfolding(host_types::specs::Sharing::frames_free))]
    pub fn frames_free(&self, frames: usize) -> usize
        ensures { result ≡ frames_free frames self.now }
    {
        frames
            .saturating_sub(1)
            .saturating_sub(self.groups.len())
            .saturating_sub(pages::count(&self.pages, Sort::Own))
    }
}

impl PlainSharing {
    /// How many frames it takes to give each page that shares a frame one of its own: one for each page
    /// of a group but one, and one for each page on the frame of zeros.
    #[tactic(auto, unfolding(host_types::specs::Unmerging::unmerge_need, host_types::specs::Unmerging::members, host_types::specs::Unmerging::zero_pages))]
    pub fn unmerge_need(&self) -> u128
        ensures { result ≡ unmerge_need self.now }
    {
        groups::members(&self.groups).saturating_sub(self.groups.len() as u128)
            + pages::count(&self.pages, Sort::Zeros) as u128
    }

    /// Breaks all pages, one after another from the first index on, and stops the scanner: `run` is 2
    /// then.
    #[tactic(auto, unfolding(host_types::specs::Unmerging::unmerged))]
    pub fn unmerge(&mut self)
        ensures { self.new ≡ unmerged self.old }
    {
        self.break_all();
        self.stop();
    }

    /// Breaks all pages, one after another from the first index on.
    fn break_all(&mut self)
        ensures { self.new ≡ pages_broken self.old 0 (length self.old.pages) }
    {
        for page_index in 0..self.page_indices() {
            self.break_page(page_index);
        }
    }

    /// Stops the scanner.
    fn stop(&mut self)
        ensures { self.new ≡ record self.old { options = record self.old.options { run = 2 } } }
    {
        self.options.run = UNMERGED;
    }

    /// How many indices there are.
    fn page_indices(&self) -> usize
        ensures { result ≡ length self.now.pages }
    {
        self.pages.len()
    }

    /// Sets one option to a value that it may be set to.
    ///
    /// Refusals in their order: `BadOption` where the option can't have the value, `PagesShared` where
    /// `max_page_sharing` is to be set while there is a group. A refusal changes nothing.
    pub fn set(&mut self, option: Opt, value: u32) -> Result<(), Fault>
        ensures may { OnOk result (MayBe option value × MaySet self.old option) }
        ensures set { OnOk result (self.new ≡ record self.old { options = with_option self.old.options option value }) }
        ensures err { IfErr result (RefusesSet self.old option value) }
        ensures unchanged { OnErr result (self.new ≡ self.old) }
    {
        if !option.allows(value) {
            return Err(Fault::BadOption);
        }
        if !self.may_set(option) {
            return Err(Fault::PagesShared);
        }
        match option {
            Opt::PagesToScan => self.options.pages_to_scan = value,
            Opt::Run => self.options.run = value,
            Opt::UseZeroPages => self.options.use_zero_pages = value,
            Opt::MaxPageSharing => self.options.max_page_sharing = value,
        }
        Ok(())
    }

    /// Whether an option may be set now.
    fn may_set(&self, option: Opt) -> bool
        ensures { IsTrue result ↔ MaySet self.now option }
    {
        match option {
            Opt::PagesToScan | Opt::Run | Opt::UseZeroPages => true,
            Opt::MaxPageSharing => self.groups.is_empty(),
        }
    }
}

impl PlainSharing {
    /// How many frames pages share.
    pub fn pages_shared(&self) -> usize
        ensures { result ≡ pages_shared self.now }
    {
        self.groups().len()
    }

    /// How many more pages share them.
    #[tactic(auto, unfolding(host_types::specs::Counters::pages_sharing, host_types::specs::Unmerging::members))]
    pub fn pages_sharing(&self) -> u128
        ensures { result ≡ pages_sharing self.now }
    {
        groups::members(&self.groups).saturating_sub(self.pages_shared() as u128)
    }

    /// How many pages wait for another one of their bytes.
    #[tactic(auto, unfolding(host_types::specs::Counters::pages_unshared))]
    pub fn pages_unshared(&self) -> usize
        ensures { result ≡ pages_unshared self.now }
    {
        pages::count(&self.pages, Sort::Waiting)
    }

    /// How many pages changed since they were visited last.
    #[tactic(auto, unfolding(host_types::specs::Counters::pages_volatile))]
    pub fn pages_volatile(&self) -> usize
        ensures { result ≡ pages_volatile self.now }
    {
        pages::count(&self.pages, Sort::Volatile)
    }

    /// How many pages lie on the frame of zeros.
    #[tactic(auto, unfolding(host_types::specs::Unmerging::zero_pages))]
    pub fn zero_pages(&self) -> usize
        ensures { result ≡ zero_pages self.now }
    {
        pages::count(&self.pages, Sort::Zeros)
    }

    /// How many contents have two groups or more. The contents are the bytes of the page at each index.
    #[tactic(auto, unfolding(host_types::specs::Counters::group_contents))]
    pub fn node_chains(&self, contents: &[Vec<u8>]) -> usize
        ensures { result ≡ stable_node_chains (plain_contents contents.now) self.now }
    {
        groups::count_seconds(&self.groups, contents)
    }

    /// How many groups such contents have.
    #[tactic(auto, unfolding(host_types::specs::Counters::group_contents))]
    pub fn node_dups(&self, contents: &[Vec<u8>]) -> usize
        ensures { result ≡ stable_node_dups (plain_contents contents.now) self.now }
    {
        groups::count_repeated(&self.groups, contents)
    }
}

/// Ends the pins at so many indices from one on.
fn end_pins(pins: &mut [bool], first: usize, count: usize)
    requires { first + count ≤ length pins.old }
    ensures { pins.new ≡ with_part pins.old first (replicate count false) }
{
    pins[first..first + count].fill(false);
}
