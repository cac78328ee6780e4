ghost use Rattle.std.specs.Prelude.{◌<◌, All, Any, IfErr, OnOk};
ghost use Rattle.host_file.specs.Faults.{IsBad};
ghost use Rattle.host_file.specs.Served.{IsServedCommand, IsServedEvent};

use crate::command::Command;
use crate::fault::{BadFile, Cause, FileFault, Location};
use crate::file::HostFile;
use host_types::Event;

/// Refuses a host file that asks for what isn't served: steps that are made one by one, what all tenants
/// would have to wait for, or a tenant that isn't there.
pub fn require_served(file: &HostFile) -> Result<(), FileFault>
    ensures served { OnOk result (All (IsServedCommand file.now.tenants) file.now.commands) }
    ensures bad { IfErr result IsBad }
    ensures refused { IfErr result (λ _. Any (λ command. ¬ IsServedCommand file.now.tenants command) file.now.commands) }
{
    for (number, command) in file.commands.as_slice().iter().enumerate() {
        if let Err(cause) = served(file.tenants, command) {
            return Err(FileFault::Bad(BadFile {
                location: Location::Event(number),
                cause,
            }));
        }
    }
    Ok(())
}

/// Why a command isn't served, if it isn't.
fn served(tenants: u32, command: &Command) -> Result<(), Cause>
    ensures served { OnOk result (IsServedCommand tenants command.now) }
    ensures refused { IfErr result (λ _. ¬ IsServedCommand tenants command.now) }
{
    match command {
        Command::Apply(event) => served_event(tenants, event),
        Command::Run { tenant, .. } => there(tenants, *tenant),
        Command::Visit { .. } => Ok(()),
        Command::Step { .. } | Command::Finish { .. } => Err(Cause::NotServed),
    }
}

/// Why an event isn't served, if it isn't.
fn served_event(tenants: u32, event: &Event) -> Result<(), Cause>
    ensures served { OnOk result (IsServedEvent tenants event.now) }
    ensures refused { IfErr result (λ _. ¬ IsServedEvent tenants event.now) }
{
    match event {
        Event::CreateMap { tenant, .. }
        | Event::Load { tenant, .. }
        | Event::HostUpdate { tenant, .. }
        | Event::HostLookup { tenant, .. } => there(tenants, *tenant),
        Event::Set { .. } => Ok(()),
        Event::Begin { .. }
        | Event::Step { .. }
        | Event::Visit
        | Event::Unmerge
        | Event::Counters
        | Event::Unload { .. }
        | Event::DropMap { .. } => Err(Cause::NotServed),
    }
}

/// Why a tenant can't be named, if it can't.
fn there(tenants: u32, tenant: u32) -> Result<(), Cause>
    ensures there { OnOk result (tenant < tenants) }
    ensures refused { IfErr result (λ _. ¬ (tenant < tenants)) }
{
    if tenant < tenants {
        Ok(())
    } else {
        Err(Cause::NoTenant(tenant))
    }
}
