ghost use Rattle.std.specs.Prelude.{◌≡◌, ◌*◌, ◌<◌, ◌≤◌, None, IfOk, IfSome};
ghost use Rattle.host_types.specs.Unmerging.{with_option};
ghost use Rattle.host_types.specs.Visits.{look_from, one_more};
ghost use Rattle.page_table.specs.Table.{new_pass};

use crate::pins::Pins;
use host_types::{Opt, Options};
use std::alloc::{AllocError, Global};
use unstable_tree::UnstableTree;

/// How far the scanner's pass over all pages has come.
#[derive(Drop)]
pub(crate) struct Pass {
    pub(crate) options: Options,
    /// The index of the page that was visited last in this pass; none at its start.
    pub(crate) cursor: Option<usize>,
    /// How many passes ended.
    pub(crate) full_scans: u64,
    /// The pages that wait for another one of their bytes.
    pub(crate) waiting: UnstableTree,
    /// The pages that open runs took out, which aren't merged before their ends.
    pub(crate) pins: Pins,
}

impl Pass {
    /// The start of the first pass over so many maps, each of 256 indices. So many pages at most have
    /// frames of their own.
    pub(crate) fn new(
        alloc: Global,
        frames: u32,
        maps: u32,
        options: Options,
    ) -> Result<Self, AllocError>
        requires { maps ≤ 128 }
        ensures { IfOk result (λ pass. pass ≡ new_pass frames (maps * 256) options) }
    {
        let mut waiting = UnstableTree::new(alloc);
        waiting.reserve(frames as usize)?;
        Ok(Pass {
            options,
            cursor: None,
            full_scans: 0,
            waiting,
            pins: Pins::new(alloc, maps)?,
        })
    }

    /// The index where the next visit looks first.
    pub(crate) fn look_from(&self) -> usize
        requires { IfSome self.now.cursor (λ c. c < 32768) }
        ensures { result ≡ look_from self.now.cursor }
    {
        match self.cursor {
            Some(page_index) => page_index + 1,
            None => 0,
        }
    }

    /// How many pages one frame may hold.
    pub(crate) fn max_page_sharing(&self) -> u32
        ensures { result ≡ self.now.options.max_page_sharing }
    {
        self.options.max_page_sharing
    }

    /// Ends the pass.
    pub(crate) fn end(&mut self)
        ensures { self.new ≡ record self.old { cursor = None; full_scans = one_more self.old.full_scans } }
    {
        self.cursor = None;
        self.full_scans = self.full_scans.saturating_add(1);
    }

    /// Sets one option.
    pub(crate) fn set(&mut self, option: Opt, value: u32)
        ensures { self.new ≡ record self.old { options = with_option self.old.options option value } }
    {
        match option {
            Opt::PagesToScan => self.options.pages_to_scan = value,
            Opt::Run => self.options.run = value,
            Opt::UseZeroPages => self.options.use_zero_pages = value,
            Opt::MaxPageSharing => self.options.max_page_sharing = value,
        }
    }
}
