ghost use Rattle.std.specs.Prelude.{◌≡◌, length, map};
ghost use Rattle.turn.specs.Seats.{IsIdle, own_part};
ghost use Rattle.tenant_workers.specs.Calls.{IsSameSeat};
ghost use Rattle.tenant_workers.specs.Replies.{AllReply, RepliesBy};
ghost use Rattle.tenant_workers.specs.Runs.{IsResting};

use crate::gate::{Gate, Passed};
use crate::plans::TenantPlan;
use crate::shared::Shared;
use host_types::Fault;
use std::alloc::Global;
use std::sync::Wait;
use tenant_runs::RunReply;
use turn::Seat;
use verifier::Verified;

impl Shared {
    /// Makes one tenant's runs in order, and writes what each was answered over the plan's replies, of which
    /// there are as many as runs. A run of a program that isn't there is answered `NoProgram`; each other one
    /// is answered as by `run_program`, from what the one before left.
    pub fn run_all(&self, rt: &impl Wait, alloc: Global, plan: &mut TenantPlan, gate: &impl Gate)
        requires own { plan.old.shared.now ≡ self.now }
        requires count { length plan.old.replies.items ≡ length plan.old.runs.items }
        ensures shared { plan.new.shared.now ≡ plan.old.shared.now }
        ensures programs { plan.new.programs.items ≡ plan.old.programs.items }
        ensures runs { plan.new.runs.items ≡ plan.old.runs.items }
        ensures same { IsSameSeat plan.old.seat plan.new.seat }
        ensures count { length plan.new.replies.items ≡ length plan.new.runs.items }
        ensures replies { AllReply plan.old.programs.items (map (λ run. (run.0, run.1.items)) plan.old.runs.items)
            plan.old.seat plan.new.replies.items plan.new.seat }
    {
        for entry_index in 0..plan.runs.len() {
            let (number, context) = &plan.runs[entry_index];
            let reply = self.run_numbered(
                rt,
                alloc,
                &mut plan.seat,
                &plan.programs,
                *number,
                context,
                gate,
            );
            plan.replies[entry_index] = reply;
            gate.pass(rt, Passed::Run);
        }
    }

    /// Makes a run of the program of a number.
    #[tactic(auto, using(crate::proofs::Answered::replies_to))]
    fn run_numbered(
        &self,
        rt: &impl Wait,
        alloc: Global,
        seat: &mut Seat,
        programs: &[Verified],
        number: u32,
        context: &[u8],
        gate: &impl Gate,
    ) -> Result<RunReply, Fault>
        requires idle { IsIdle self.now seat.old }
        requires resting { IsResting (own_part seat.old) }
        ensures idle { IsIdle self.now seat.new }
        ensures same { IsSameSeat seat.old seat.new }
        ensures resting { IsResting (own_part seat.new) }
        ensures reply { RepliesBy programs.now number context.now seat.old result seat.new }
    {
        match programs.get(number as usize) {
            Some(program) => self.run_program(rt, alloc, seat, program, context, gate),
            None => Err(Fault::NoProgram),
        }
    }
}
