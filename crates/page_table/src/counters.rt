//! What is counted of a memory's pages and groups.
ghost use Rattle.std.specs.Prelude.{◌≡◌, length};
ghost use Rattle.host_types.specs.Counters.{pages_unshared, pages_volatile, stable_node_chains, stable_node_dups};
ghost use Rattle.host_types.specs.Unmerging.{zero_pages};
ghost use Rattle.page_table.specs.Changes.{contents_now};

use crate::memory::Memory;

impl Memory {
    /// How many groups there are.
    #[tactic(auto, using(crate::proofs::Counting::groups_reported), unfolding(crate::specs::View::view_of))]
    pub fn groups(&self) -> u32
        ensures { result ≡ length self.now.sharing.groups }
    {
        self.table.groups()
    }

    /// How many pages lie on the frame of zeros.
    pub fn zero_pages(&self) -> u32
        ensures { result ≡ zero_pages self.now.sharing }
    {
        self.table.facts();
        self.table.zero_pages()
    }

    /// How many pages wait for another one of their bytes. The number is kept, and no page is looked at.
    #[tactic(auto, unfolding(crate::specs::View::view_of, host_types::specs::Counters::pages_unshared))]
    pub fn unshared_pages(&self) -> u32
        ensures { result ≡ pages_unshared self.now.sharing }
    {
        self.table.tally().unshared
    }

    /// How many pages changed since they were visited last. The number is kept, and no page is looked at.
    #[tactic(auto, unfolding(crate::specs::View::view_of, host_types::specs::Counters::pages_volatile))]
    pub fn volatile_pages(&self) -> u32
        ensures { result ≡ pages_volatile self.now.sharing }
    {
        self.table.tally().volatile
    }

    /// How many contents have two groups or more. The number is kept, and no group is looked at.
    #[tactic(auto, using(std::proofs::lemmas::Bool::Decides::nat_tests, crate::proofs::Counting::contents_reported))]
    pub fn node_chains(&self) -> u32
        ensures { result ≡ stable_node_chains (contents_now self.now) self.now.sharing }
    {
        self.table.facts();
        self.table.node_chains()
    }

    /// How many groups such contents have. The number is kept, and no group is looked at.
    #[tactic(auto, using(std::proofs::lemmas::Bool::Decides::nat_tests, crate::proofs::Counting::contents_reported))]
    pub fn node_dups(&self) -> u32
        ensures { result ≡ stable_node_dups (contents_now self.now) self.now.sharing }
    {
        self.table.facts();
        self.table.node_dups()
    }
}
