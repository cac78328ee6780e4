ghost use Rattle.std.specs.Prelude.{◌≡◌, OnOk, OnErr, IfErr, length};
ghost use Rattle.host_types.specs.OptionTable.{MayBe};
ghost use Rattle.host_types.specs.Unmerging.{with_option, MaySet, RefusesSet, RefusesUnmerge, SharesNothing};
ghost use Rattle.page_table.specs.State.{have_of};
ghost use Rattle.page_table.specs.Changes.{contents_now};
ghost use Rattle.ksm_counters.specs.Counters.{counters_of};
ghost use Rattle.turn.specs.Seats.{IsIdle};
ghost use Rattle.scanner.specs.Unmerged.{HasUnmerged};
ghost use Rattle.tenant_workers.specs.Calls.{IsSameSeat, memory_left, HasChanged, HasSet, IsUnchanged};

use crate::shared::Shared;
use host_calls::{host_set, host_unmerge};
use host_types::{Fault, Opt};
use ksm_counters::Counters;
use std::sync::Wait;
use turn::HostSeat;

impl Shared {
    /// Sets one option to a value that it may be set to. Nothing else changes.
    ///
    /// Refusals in their order: `BadOption` where the option can't have the value, `PagesShared` where
    /// `max_page_sharing` is to be set while there is a group. A refusal changes nothing.
    #[tactic(auto, using(crate::proofs::Options::set_again))]
    pub fn set(
        &self,
        rt: &impl Wait,
        seat: &mut HostSeat,
        option: Opt,
        value: u32,
    ) -> Result<(), Fault>
        requires idle { IsIdle self.now seat.old }
        ensures idle { IsIdle self.now seat.new }
        ensures same { IsSameSeat seat.old seat.new }
        ensures may { OnOk result (MayBe option value × MaySet (memory_left seat.new).sharing option) }
        ensures set { OnOk result ((memory_left seat.new).sharing.options
            ≡ with_option (memory_left seat.new).sharing.options option value) }
        ensures only { OnOk result (HasChanged (HasSet option value) seat.old seat.new) }
        ensures refused { IfErr result (RefusesSet (memory_left seat.new).sharing option value) }
        ensures unchanged { OnErr result (HasChanged IsUnchanged seat.old seat.new) }
    {
        let mut held = self.turn.take(rt, seat);
        let answer = host_set(held.memory_mut(), option, value);
        self.turn.give(seat, held);
        answer
    }

    /// Gives each page that shares a frame one of its own, and stops the scanner. No tenant's part changes.
    ///
    /// The one refusal is `NoFrames`, just where the frames that this takes are more than those that may be
    /// had; it names both numbers, and changes nothing.
    #[tactic(auto, unfolding(host_types::specs::Unmerging::unmerged))]
    pub fn unmerge(&self, rt: &impl Wait, seat: &mut HostSeat) -> Result<(), Fault>
        requires idle { IsIdle self.now seat.old }
        ensures idle { IsIdle self.now seat.new }
        ensures same { IsSameSeat seat.old seat.new }
        ensures unmerged { OnOk result (SharesNothing (memory_left seat.new).sharing) }
        ensures only { OnOk result (HasChanged HasUnmerged seat.old seat.new) }
        ensures stopped { OnOk result ((memory_left seat.new).sharing.options.run ≡ 2) }
        ensures refused { IfErr result
            (RefusesUnmerge (memory_left seat.new).sharing (have_of (memory_left seat.new))) }
        ensures unchanged { OnErr result (HasChanged IsUnchanged seat.old seat.new) }
    {
        let mut held = self.turn.take(rt, seat);
        let answer = host_unmerge(held.memory_mut());
        self.turn.give(seat, held);
        answer
    }

    /// What is reported of pages that share frames, at one moment. The memory stays as it is.
    pub fn counters(&self, rt: &impl Wait, seat: &mut HostSeat) -> Counters
        requires idle { IsIdle self.now seat.old }
        ensures idle { IsIdle self.now seat.new }
        ensures same { IsSameSeat seat.old seat.new }
        ensures reported { result ≡ counters_of (length (memory_left seat.new).arena)
            (contents_now (memory_left seat.new)) (memory_left seat.new).sharing }
        ensures unchanged { HasChanged IsUnchanged seat.old seat.new }
    {
        let held = self.turn.take(rt, seat);
        let counters = ksm_counters::counters(held.memory());
        self.turn.give(seat, held);
        counters
    }
}
