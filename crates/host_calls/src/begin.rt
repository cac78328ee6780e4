ghost use Rattle.std.specs.Prelude.{◌≡◌, ◌+◌, ◌≤◌, false, OnOk, IfErr, OnErr};
ghost use Rattle.page_table.specs.State.{part, have_of};
ghost use Rattle.page_table.specs.Changes.{OtherTenantsUnchanged, opened, with_run};
ghost use Rattle.admission.specs.Reserve.{needed_from};
ghost use Rattle.host_calls.specs.Calls.{IsThere, NamesHave};
ghost use Rattle.host_calls.specs.Programs.{RefusesBegin};

use admission::{admit, needed};
use host_types::Fault;
use page_table::Memory;
use verifier::Verified;

/// Opens a whole run of a program, which a tenant wants to begin, and reserves frames for it: as many as its stores
/// and updates may take, whichever pages share frames. The tenant has no other open run, and nothing is reserved
/// for it before.
///
/// `NoFrames` just where these are more than `have()`; it names both numbers, and changes nothing.
#[tactic(auto, using(crate::proofs::Begins::begin_refused, crate::proofs::Begins::begin_answered))]
pub fn host_begin(memory: &mut Memory, tenant: u32, program: &Verified) -> Result<(), Fault>
    requires there { IsThere (part memory.old tenant) }
    requires none { (part memory.old tenant).running ≡ false }
    requires unreserved { (part memory.old tenant).reserve ≡ 0 }
    ensures enough { OnOk result (needed_from program.now (part memory.old tenant) 0 ≤ have_of memory.old) }
    ensures recorded { OnOk result
        (part memory.new tenant ≡ with_run (needed_from program.now (part memory.old tenant) 0) (part memory.old tenant)) }
    ensures have { OnOk result
        (have_of memory.new + needed_from program.now (part memory.old tenant) 0 ≡ have_of memory.old) }
    ensures all { OnOk result
        (memory.new ≡ opened memory.old tenant (needed_from program.now (part memory.old tenant) 0)) }
    ensures others { OtherTenantsUnchanged tenant memory.old memory.new }
    ensures refused { IfErr result (RefusesBegin program.now (part memory.old tenant)) }
    ensures answered { IfErr result (NamesHave memory.old) }
    ensures unchanged { OnErr result (memory.new ≡ memory.old) }
{
    let need = needed(program, memory, tenant, 0);
    admit(memory, tenant, need)
}
