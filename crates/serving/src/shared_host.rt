//! A new memory that all tenants of a host file are lent.

ghost use Rattle.std.specs.Prelude.{◌≡◌, [], All, IfErr, IfOk, OnOk, length};
ghost use Rattle.host_types.specs.OptionTable.{AreOptions};
ghost use Rattle.host_types.specs.declared.options.Options.{Options};
ghost use Rattle.page_table.specs.Changes.{AreKept, RefusesMemory};
ghost use Rattle.page_table.specs.Limits.{AreLimits};
ghost use Rattle.page_table.specs.State.{new_memory};
ghost use Rattle.turn.specs.Seats.{IsIdle};
ghost use Rattle.tenant_workers.specs.Plans.{IsFor};
ghost use Rattle.serving.specs.AtFirst.{IsAtFirst};
ghost use Rattle.serving.specs.Opened.{IsNewPlan, IsSettable, options_after, options_set, with_options};

use host_calls::host_set;
use host_core::Event;
use host_file::{Command, HostFile};
use host_types::Fault;
use page_table::Memory;
use std::alloc::{AllocError, Global};
use tenant_workers::{Shared, TenantPlan};
use turn::{ScanSeat, Seat, Turn};

/// A lent memory without maps, and its seats.
#[derive(Drop)]
pub(crate) struct SharedHost {
    pub(crate) shared: Shared,
    pub(crate) seats: Vec<Seat>,
    pub(crate) scanner: ScanSeat,
    ghost first: { All (IsAtFirst shared) seats.items },
    ghost scanner_idle: { IsIdle shared scanner },
}

/// A new memory of a host file's frames, tenants and options, lent, with the options that the file sets. Refusals are
/// those of a new memory.
pub(crate) fn open_host(alloc: Global, file: &HostFile) -> Result<SharedHost, Fault>
    ensures count { IfOk result (λ shared_host. length shared_host.seats.items ≡ file.now.tenants) }
    ensures opened { IfOk result (λ shared_host. All IsSettable file.now.commands
        → shared_host.scanner.view.seen ≡ new_memory file.now.frames file.now.tenants (options_set file.now.options file.now.commands)) }
    ensures limits { OnOk result (AreLimits file.now.frames file.now.tenants × AreOptions file.now.options) }
    ensures refused { IfErr result (RefusesMemory file.now.frames file.now.tenants file.now.options) }
{
    let mut memory = Memory::new(alloc, file.frames, file.tenants, file.options)?;
    set_all(&mut memory, file.commands.as_slice());
    // There is a seat for each of the memory's tenants: it is refused only where memory ran out.
    let Ok((turn, seats, scanner, _host)) = Turn::new(alloc, memory, file.tenants) else {
        return Err(Fault::OutOfMemory);
    };
    Ok(SharedHost {
        shared: Shared::new(turn),
        seats,
        scanner,
    })
}

/// Sets the options that a file sets, of a memory in which no page shares a frame: nothing before the threads hangs on
/// them. One that can't have its value stays, and is refused in its turn.
fn set_all(memory: &mut Memory, commands: &[Command])
    requires none { memory.old.sharing.groups ≡ [] }
    ensures set { All IsSettable commands.now → memory.new ≡ with_options memory.old (options_set memory.old.sharing.options commands.now) }
    ensures kept { AreKept memory.old memory.new }
    ensures tenants { memory.new.tenants ≡ memory.old.tenants }
{
    for command in commands {
        set_one(memory, command);
    }
}

/// Sets the option that a command sets, if it may be set.
#[tactic(auto, using(crate::proofs::Settings::set_now, crate::proofs::Settings::set_some, crate::proofs::Settings::set_nothing))]
fn set_one(memory: &mut Memory, command: &Command)
    requires none { memory.old.sharing.groups ≡ [] }
    ensures set { IsSettable command.now → memory.new ≡ with_options memory.old (options_after memory.old.sharing.options command.now) }
    ensures only { (options : Options) × (memory.new ≡ with_options memory.old options) }
{
    if let Command::Apply(Event::Set { option, value }) = command {
        let _answer = host_set(memory, *option, *value);
    }
}

/// The plans of new seats: nothing is made, loaded or to be run yet.
pub(crate) fn plans_of<'a>(
    alloc: Global,
    shared: &'a Shared,
    seats: Vec<Seat>,
) -> Result<Vec<TenantPlan<'a>>, AllocError>
    requires { All (IsAtFirst shared.now) seats.items }
    ensures own { IfOk result (λ plans. All (IsFor shared.now) plans.items) }
    ensures new { IfOk result (λ plans. All IsNewPlan plans.items) }
    ensures count { IfOk result (λ plans. length plans.items ≡ length seats.items) }
{
    let mut plans = Vec::with_capacity(alloc, seats.len())?;
    for seat in seats {
        plans.push(TenantPlan {
            shared,
            seat,
            programs: Vec::new(alloc),
            runs: Vec::new(alloc),
            replies: Vec::new(alloc),
        })?;
    }
    Ok(plans)
}
