ghost use Rattle.std.specs.Prelude.{◌≡◌, ◌+◌, ◌<◌, ◌≤◌, ℕ, Some};
ghost use Rattle.bpf_decode.specs.Text.{instructions_of};
ghost use Rattle.interp.specs.Machine.{MachineState, Next, Exits, step};
ghost use Rattle.interp.specs.Runs.{Reaches};
ghost use Rattle.interp.specs.StandsFor.{StandsFor, FollowsSteps};
ghost use Rattle.tenant_runs.specs.UnderWay.{IsUnderWay, IsAsking};
ghost use Rattle.turn.specs.Seats.{IsIdle, own_part};
ghost use Rattle.tenant_workers.specs.Calls.{HasGoneOn, IsSameSeat};

use crate::gate::Gate;
use crate::shared::Shared;
use interp::{Need, Run};
use std::sync::Wait;
use tenant_runs::{RunReply, answer_recorded};
use turn::Seat;
use verifier::Verified;

/// Makes all steps that are left of a run of the seat's tenant. Registers, context and stack are the
/// worker's own; what else the run asks is done in one turn, and a gate that isn't open is called before each step,
/// between the turns.
#[tactic(auto, using(crate::proofs::Turns::gone_nowhere))]
pub(crate) fn drive(
    shared: &Shared,
    rt: &impl Wait,
    seat: &mut Seat,
    program: &Verified,
    run: &mut Run,
    gate: &impl Gate,
) -> RunReply
    requires idle { IsIdle shared.now seat.old }
    requires under_way { (s : MachineState) × IsUnderWay program.now run.old s (own_part seat.old) }
    ensures idle { IsIdle shared.now seat.new }
    ensures same { IsSameSeat seat.old seat.new }
    ensures turns { HasGoneOn seat.old seat.new }
    ensures ended { (s : MachineState) → IsUnderWay program.now run.old s (own_part seat.old)
        → (n : ℕ) × Reaches program.now.subject.text s n (Exits result.ret (own_part seat.new).maps) × (result.steps ≡ run.old.steps + n) }
    ensures few { result.steps ≤ instructions_of program.now.subject.text }
{
    program.facts();
    loop {
        match go_on(rt, seat.tenant(), program, run, gate) {
            Need::Private => {}
            Need::Ended(ret) => {
                return RunReply {
                    ret,
                    steps: run.steps(),
                };
            }
            need => fulfil(shared, rt, seat, program, run, need),
        }
    }
}

/// Makes the next step, after a call of the gate. Where that is open, it makes all steps up to the next one that asks something
/// or is the last.
#[tactic(auto, using(crate::proofs::Driven::one_step))]
fn go_on(rt: &impl Wait, tenant: u32, program: &Verified, run: &mut Run, gate: &impl Gate) -> Need
    requires running { (s : MachineState) × StandsFor program.now run.old s }
    ensures follows { (s : MachineState) → StandsFor program.now run.old s
        → (n : ℕ) × FollowsSteps program.now s n result run.new × (run.new.steps ≡ run.old.steps + n) }
    ensures further { run.old.steps < run.new.steps }
{
    program.facts();
    if gate.is_open() {
        return run.advance(program, program.instructions());
    }
    gate.at(rt, tenant, run.slot());
    run.next(program)
}

/// The one turn in which what a run asks is done and answered.
fn fulfil(
    shared: &Shared,
    rt: &impl Wait,
    seat: &mut Seat,
    program: &Verified,
    run: &mut Run,
    need: Need,
)
    requires idle { IsIdle shared.now seat.old }
    requires asks { (s : MachineState) × IsAsking program.now s need run.old (own_part seat.old) }
    ensures idle { IsIdle shared.now seat.new }
    ensures same { IsSameSeat seat.old seat.new }
    ensures turns { HasGoneOn seat.old seat.new }
    ensures goes_on { (s : MachineState) → IsAsking program.now s need run.old (own_part seat.old)
        → (next : MachineState) × (step program.now.subject.text s ≡ Some (Next next)) × IsUnderWay program.now run.new next (own_part seat.new) }
    ensures steps { run.new.steps ≡ run.old.steps }
{
    let tenant = seat.tenant();
    let mut held = shared.turn.take(rt, seat);
    answer_recorded(held.memory_mut(), tenant, program, run, need);
    shared.turn.give(seat, held);
}
