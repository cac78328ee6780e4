ghost use Rattle.std.specs.Prelude.{◌≡◌, ◌+◌, ◌≤◌, false, length, OnOk, IfErr, OnErr};
ghost use Rattle.page_table.specs.State.{part, have_of};
ghost use Rattle.page_table.specs.Changes.{OtherTenantsUnchanged, with_reserve, with_run, without_run, with_record, opened, ended};
ghost use Rattle.verifier.specs.Reserve.{reserve_from};
ghost use Rattle.admission.specs.Refusals.{RefusesFrames};

use host_types::Fault;
use page_table::Memory;
use verifier::Verified;

/// How many frames the rest of a run may take from a slot on, whichever pages share frames and however
/// often it writes to one. It is answered in constant time.
#[inline]
pub fn breaks(program: &Verified, slot: u32) -> u32
    ensures { result ≡ reserve_from program.now slot }
{
    program.reserve(slot)
}

/// Opens a run of a tenant that has none, and reserves frames for it.
///
/// `NoFrames` just where the need is above `have()`; it names both numbers, and changes nothing.
pub fn admit(memory: &mut Memory, tenant: u32, need: u32) -> Result<(), Fault>
    requires there { length (part memory.old tenant).maps ≡ 8 }
    requires none { (part memory.old tenant).running ≡ false }
    requires unreserved { (part memory.old tenant).reserve ≡ 0 }
    ensures enough { OnOk result (need ≤ have_of memory.old) }
    ensures recorded { OnOk result (part memory.new tenant ≡ with_run need (part memory.old tenant)) }
    ensures have { OnOk result (have_of memory.new + need ≡ have_of memory.old) }
    ensures all { OnOk result (memory.new ≡ opened memory.old tenant need) }
    ensures others { OtherTenantsUnchanged tenant memory.old memory.new }
    ensures err { IfErr result (RefusesFrames memory.old need) }
    ensures unchanged { OnErr result (memory.new ≡ memory.old) }
{
    let have = memory.have();
    if have < need {
        return Err(Fault::NoFrames { need, have });
    }
    memory.begin_run(tenant, need);
    Ok(())
}

/// Records what is reserved for the rest of a tenant's run, which is had or reserved already; the difference may be had by others at once.
/// Most steps have no store ahead of them and leave it as it is: then nothing is written.
#[inline(always)]
#[tactic(auto, using(crate::proofs::Records::part_kept, crate::proofs::Records::memory_kept))]
pub fn record_left(memory: &mut Memory, tenant: u32, left: u32)
    requires there { length (part memory.old tenant).maps ≡ 8 }
    requires room { left ≤ have_of memory.old + (part memory.old tenant).reserve }
    ensures recorded { part memory.new tenant ≡ with_reserve left (part memory.old tenant) }
    ensures have { have_of memory.new + left ≡ have_of memory.old + (part memory.old tenant).reserve }
    ensures all { memory.new ≡ with_record memory.old tenant left }
    ensures others { OtherTenantsUnchanged tenant memory.old memory.new }
{
    if memory.reserve(tenant) != left {
        memory.record(tenant, left);
    }
}

/// Ends a tenant's run: nothing is reserved for it any more, and none of the tenant's pages is pinned.
#[inline(always)]
pub fn release(memory: &mut Memory, tenant: u32)
    requires there { length (part memory.old tenant).maps ≡ 8 }
    ensures recorded { part memory.new tenant ≡ without_run (part memory.old tenant) }
    ensures have { have_of memory.new ≡ have_of memory.old + (part memory.old tenant).reserve }
    ensures all { memory.new ≡ ended memory.old tenant }
    ensures others { OtherTenantsUnchanged tenant memory.old memory.new }
{
    memory.end_run(tenant);
}
