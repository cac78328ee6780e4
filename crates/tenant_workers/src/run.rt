ghost use Rattle.std.specs.Prelude.{◌≡◌, ◌⊎◌, IfOk, OnOk, IfErr, OnErr};
ghost use Rattle.interp.specs.Fits.{HaveShapes};
ghost use Rattle.page_table.specs.State.{part};
ghost use Rattle.page_table.specs.Changes.{OtherTenantsUnchanged, with_run, without_run};
ghost use Rattle.verifier.specs.Named.{named_shapes};
ghost use Rattle.admission.specs.Reserve.{needed_from};
ghost use Rattle.host_calls.specs.Calls.{IsThere, NamesHave};
ghost use Rattle.tenant_runs.specs.UnderWay.{HasRun};
ghost use Rattle.turn.specs.Seats.{IsIdle, own_part};
ghost use Rattle.tenant_workers.specs.Calls.{HasChanged, HasGoneOn, IsSameSeat, IsUnchanged, memory_left};
ghost use Rattle.tenant_workers.specs.Runs.{HasFramesForRun, LeavesMemory, IsFresh, IsResting, LacksMemory, RefusesRunOnContext, RefusesRunOfTenant};

use crate::gate::Gate;
use crate::shared::Shared;
use crate::steps::drive;
use admission::{needed, release};
use host_calls::host_begin;
use host_types::Fault;
use interp::Run;
use page_table::Memory;
use std::alloc::Global;
use std::sync::Wait;
use tenant_runs::{RunReply, has_shapes};
use turn::Seat;
use verifier::Verified;

impl Shared {
    /// Makes a whole run of a program by the seat's tenant, as `Run::begin` gave it for this program: it
    /// begins and ends in a turn each, and each load from a map, store to one and call of a helper takes a
    /// turn; no other step takes one. A gate that isn't open is called before each step, between the turns. The run
    /// returns what the standard's machine returns on the maps of the seat, whatever others do between the
    /// turns, within as many steps as the program has instructions.
    ///
    /// Refusals in their order: `NoProgram` where a map that the program names and has a shape for isn't the
    /// tenant's with that shape, `NoFrames` just where the run may need more than the frames that may be had; it
    /// names both numbers. A refusal changes nothing. The tenant has no other open run, and none afterwards.
    pub fn run(
        &self,
        rt: &impl Wait,
        seat: &mut Seat,
        program: &Verified,
        mut run: Run,
        gate: &impl Gate,
    ) -> Result<RunReply, Fault>
        requires idle { IsIdle self.now seat.old }
        requires resting { IsResting (own_part seat.old) }
        requires fresh { IsFresh program.now run }
        ensures idle { IsIdle self.now seat.new }
        ensures same { IsSameSeat seat.old seat.new }
        ensures resting { IsResting (own_part seat.new) }
        ensures turns { HasGoneOn seat.old seat.new }
        ensures ran { IfOk result (HasRun program.now run.context (own_part seat.old) (own_part seat.new)) }
        ensures refused { IfErr result (RefusesRunOfTenant program.now (own_part seat.old)) }
        ensures reported { IfErr result (NamesHave (memory_left seat.new)) }
        ensures kept { OnErr result (own_part seat.new ≡ own_part seat.old) }
        ensures unchanged { OnErr result (HasChanged IsUnchanged seat.old seat.new) }
    {
        seat.facts();
        self.begin(rt, seat, program)?;
        let reply = drive(self, rt, seat, program, &mut run, gate);
        self.end(rt, seat);
        Ok(reply)
    }

    /// Makes a whole run of a program on a context, from its beginning.
    ///
    /// Refusals in their order: `BadContext` where the context hasn't the program's size, those of `run`, and
    /// `OutOfMemory` where memory ran out and none of these held in the turn in which it was asked. A refusal
    /// changes nothing.
    #[tactic(auto, using(crate::proofs::Turns::gone_nowhere, crate::proofs::Turns::gone_once))]
    pub fn run_program(
        &self,
        rt: &impl Wait,
        alloc: Global,
        seat: &mut Seat,
        program: &Verified,
        context: &[u8],
        gate: &impl Gate,
    ) -> Result<RunReply, Fault>
        requires idle { IsIdle self.now seat.old }
        requires resting { IsResting (own_part seat.old) }
        ensures idle { IsIdle self.now seat.new }
        ensures same { IsSameSeat seat.old seat.new }
        ensures resting { IsResting (own_part seat.new) }
        ensures turns { HasGoneOn seat.old seat.new }
        ensures ran { IfOk result (HasRun program.now context.now (own_part seat.old) (own_part seat.new)) }
        ensures refused { IfErr result (RefusesRunOnContext program.now context.now (own_part seat.old)) }
        ensures reported { IfErr result (NamesHave (memory_left seat.new)) }
        ensures enough { IfErr result (HasFramesForRun program.now (own_part seat.old) (memory_left seat.new)) }
        ensures kept { OnErr result (own_part seat.new ≡ own_part seat.old) }
        ensures unchanged { IfErr result (LeavesMemory seat.old seat.new) }
    {
        match Run::begin(alloc, program, context) {
            Ok(run) => self.run(rt, seat, program, run, gate),
            Err(Fault::OutOfMemory) => Err(self.refusal_of_run(rt, seat, program)),
            Err(fault) => Err(fault),
        }
    }

    /// Why a run isn't made where memory ran out: what refuses it whatever memory there is, or else that. Nothing
    /// changes.
    fn refusal_of_run(&self, rt: &impl Wait, seat: &mut Seat, program: &Verified) -> Fault
        requires idle { IsIdle self.now seat.old }
        ensures idle { IsIdle self.now seat.new }
        ensures same { IsSameSeat seat.old seat.new }
        ensures refused { RefusesRunOfTenant program.now (own_part seat.old) result ⊎ LacksMemory program.now (own_part seat.old) result }
        ensures reported { NamesHave (memory_left seat.new) result }
        ensures enough { HasFramesForRun program.now (own_part seat.old) (memory_left seat.new) result }
        ensures kept { own_part seat.new ≡ own_part seat.old }
        ensures unchanged { HasChanged IsUnchanged seat.old seat.new }
    {
        let tenant = seat.tenant();
        let held = self.turn.take(rt, seat);
        let fault = want_for_run(held.memory(), tenant, program);
        self.turn.give(seat, held);
        fault
    }

    /// The turn in which a run begins: its frames are reserved.
    fn begin(&self, rt: &impl Wait, seat: &mut Seat, program: &Verified) -> Result<(), Fault>
        requires idle { IsIdle self.now seat.old }
        requires resting { IsResting (own_part seat.old) }
        ensures idle { IsIdle self.now seat.new }
        ensures same { IsSameSeat seat.old seat.new }
        ensures shapes { OnOk result (HaveShapes (named_shapes program.now.subject) (own_part seat.old).maps) }
        ensures recorded { OnOk result
            (own_part seat.new ≡ with_run (needed_from program.now (own_part seat.old) 0) (own_part seat.old)) }
        ensures turns { HasGoneOn seat.old seat.new }
        ensures refused { IfErr result (RefusesRunOfTenant program.now (own_part seat.old)) }
        ensures reported { IfErr result (NamesHave (memory_left seat.new)) }
        ensures kept { OnErr result (own_part seat.new ≡ own_part seat.old) }
        ensures unchanged { OnErr result (HasChanged IsUnchanged seat.old seat.new) }
    {
        let tenant = seat.tenant();
        let mut held = self.turn.take(rt, seat);
        let answer = begin_run(held.memory_mut(), tenant, program);
        self.turn.give(seat, held);
        answer
    }

    /// The turn in which a run ends: nothing is reserved for it any more, and none of its pages is pinned.
    fn end(&self, rt: &impl Wait, seat: &mut Seat)
        requires idle { IsIdle self.now seat.old }
        ensures idle { IsIdle self.now seat.new }
        ensures same { IsSameSeat seat.old seat.new }
        ensures turns { HasGoneOn seat.old seat.new }
        ensures released { own_part seat.new ≡ without_run (own_part seat.old) }
    {
        let tenant = seat.tenant();
        let mut held = self.turn.take(rt, seat);
        release(held.memory_mut(), tenant);
        self.turn.give(seat, held);
    }
}

/// What a tenant lacks for a run of a program: the program's maps, or else frames, or else memory of the host.
fn want_for_run(memory: &Memory, tenant: u32, program: &Verified) -> Fault
    ensures refused { RefusesRunOfTenant program.now (part memory.now tenant) result ⊎ LacksMemory program.now (part memory.now tenant) result }
    ensures reported { NamesHave memory.now result }
    ensures enough { HasFramesForRun program.now (part memory.now tenant) memory.now result }
{
    let has_maps = has_shapes(memory, tenant, program);
    if !has_maps {
        return Fault::NoProgram;
    }
    let need = needed(program, memory, tenant, 0);
    let have = memory.have();
    if have < need {
        return Fault::NoFrames { need, have };
    }
    Fault::OutOfMemory
}

/// Opens a run with the frames that it may need, where the tenant has the program's maps.
fn begin_run(memory: &mut Memory, tenant: u32, program: &Verified) -> Result<(), Fault>
    requires there { IsThere (part memory.old tenant) }
    requires resting { IsResting (part memory.old tenant) }
    ensures shapes { OnOk result (HaveShapes (named_shapes program.now.subject) (part memory.old tenant).maps) }
    ensures recorded { OnOk result
        (part memory.new tenant ≡ with_run (needed_from program.now (part memory.old tenant) 0) (part memory.old tenant)) }
    ensures others { OtherTenantsUnchanged tenant memory.old memory.new }
    ensures refused { IfErr result (RefusesRunOfTenant program.now (part memory.old tenant)) }
    ensures reported { IfErr result (NamesHave memory.old) }
    ensures unchanged { OnErr result (memory.new ≡ memory.old) }
{
    if !has_shapes(memory, tenant, program) {
        return Err(Fault::NoProgram);
    }
    host_begin(memory, tenant, program)
}
