ghost use Rattle.std.specs.Prelude.{◌≡◌, ◌<◌, ◌≤◌, length, replicate, slice_set, Some, None, IfOk};
ghost use Rattle.page_table.specs.Table.{entry_at, states_of};
ghost use Rattle.page_table.specs.Tallies.{IsTally};

use crate::entry::Entry;
use crate::tally::Tally;
use std::alloc::{AllocError, Global};
use std::marker::Model;

/// The pages by index. What is counted of them is kept while they change.
#[derive(Drop)]
pub(crate) struct PageList {
    pages: Vec<Option<Entry>>,
    tally: Tally,
}

impl Model for PageList {
    ghost use Rattle.std.specs.Prelude.{◌≤◌, length, List, Option};
    ghost use Rattle.page_table.specs.declared.entry.Entry.{Entry};
    ghost use Rattle.page_table.specs.Table.{states_of};
    ghost use Rattle.page_table.specs.Tallies.{IsTally};

    ghost Value = { List (Option Entry) };

    ghost view = { λ list. list.pages.items };

    ghost invariant = { λ list. (length list.pages.items ≤ 32768) × IsTally list.tally (states_of list.pages.items) };
}

impl PageList {
    /// So many indices without a page.
    pub(crate) fn new(alloc: Global, page_indices: u32) -> Result<Self, AllocError>
        requires { page_indices ≤ 32768 }
        ensures { IfOk result (λ list. list ≡ replicate page_indices None) }
    {
        let pages = vec![in alloc; None; page_indices as usize]?;
        Ok(PageList {
            pages,
            tally: Tally::NONE,
        })
    }

    /// The pages.
    pub(crate) fn all(&self) -> &[Option<Entry>]
        ensures { result.now ≡ self.now }
    {
        &self.pages
    }

    /// How many indices there are.
    pub(crate) fn len(&self) -> usize
        ensures { result ≡ length self.now }
    {
        self.pages.len()
    }

    /// What is kept of the page at an index.
    pub(crate) fn get(&self, page_index: usize) -> Option<Entry>
        requires { page_index < length self.now }
        ensures { result ≡ entry_at self.now page_index }
    {
        self.pages[page_index]
    }

    /// Puts a page at an index.
    pub(crate) fn set(&mut self, page_index: usize, entry: Entry)
        requires { page_index < length self.old }
        ensures { self.new ≡ slice_set self.old page_index (Some entry) }
    {
        self.replace(page_index, Some(entry));
    }

    /// Takes the page at an index away.
    pub(crate) fn clear(&mut self, page_index: usize)
        requires { page_index < length self.old }
        ensures { self.new ≡ slice_set self.old page_index None }
    {
        self.replace(page_index, None);
    }

    fn replace(&mut self, page_index: usize, page: Option<Entry>)
        requires { page_index < length self.old }
        ensures { self.new ≡ slice_set self.old page_index page }
    {
        let before = Tally::of(self.pages[page_index]);
        self.tally = self.tally.moved(before, Tally::of(page));
        self.pages[page_index] = page;
    }

    /// What is counted of the pages. The numbers are kept, and no page is looked at.
    pub(crate) fn tally(&self) -> Tally
        ensures { IsTally result (states_of self.now) }
    {
        self.tally
    }
}
