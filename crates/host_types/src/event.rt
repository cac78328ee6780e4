use crate::bytes::Bytes;
use crate::options::Opt;
use crate::shape::MapNo;

/// One thing that happens to a host.
#[derive(Drop)]
pub enum Event {
    /// Makes a map of zeros for a tenant, whose pages may be merged or not.
    CreateMap {
        tenant: u32,
        value_size: u32,
        entries: u32,
        mergeable: bool,
    },
    /// Loads a program's text for contexts of a size in bytes.
    Load {
        tenant: u32,
        text: Bytes,
        context_size: u32,
    },
    /// Opens a run of a loaded program on a context.
    Begin {
        tenant: u32,
        program: u32,
        context: Bytes,
    },
    /// Makes one step of the tenant's open run.
    Step {
        tenant: u32,
    },
    /// Lets the scanner visit the next page that may be merged.
    Visit,
    /// Writes a value to an element of a tenant's map.
    HostUpdate {
        tenant: u32,
        map: MapNo,
        key: u32,
        value: Bytes,
    },
    /// Reads the value of an element of a tenant's map.
    HostLookup {
        tenant: u32,
        map: MapNo,
        key: u32,
    },
    /// Takes a loaded program from a tenant. A program that is loaded later may have its number.
    ///
    /// Refusals in their order: `BadTenant` where there is no such tenant, `Busy` while its run is open,
    /// `NoProgram` where it has no such program.
    Unload {
        tenant: u32,
        program: u32,
    },
    /// Takes a map from a tenant. Its pages leave their groups, the zero frame and the waiting list, and
    /// frames on which no other page lies are free. A map that is made later may have its number.
    ///
    /// Refusals in their order: `BadTenant` where there is no such tenant, `Busy` while its run is open,
    /// `NoMap` where it has no such map, `InUse` where an instruction of one of its programs, reached or not,
    /// names the map.
    DropMap {
        tenant: u32,
        map: MapNo,
    },
    /// Sets an option of the scanner.
    Set {
        option: Opt,
        value: u32,
    },
    /// Gives each page that shares a frame one of its own, and stops the scanner.
    Unmerge,
    /// Returns the counters.
    Counters,
}

impl Event {
    ghost use Rattle.std.specs.Prelude.{◌≡◌};
    ghost use Rattle.host_types.specs.Events.{tenant_of};

    /// The number of the tenant that the event names, if it names one.
    pub fn tenant(&self) -> Option<u32>
        ensures { result ≡ tenant_of self.now }
    {
        match self {
            Event::CreateMap { tenant, .. }
            | Event::Load { tenant, .. }
            | Event::Begin { tenant, .. }
            | Event::Step { tenant }
            | Event::HostUpdate { tenant, .. }
            | Event::HostLookup { tenant, .. }
            | Event::Unload { tenant, .. }
            | Event::DropMap { tenant, .. } => Some(*tenant),
            Event::Visit | Event::Set { .. } | Event::Unmerge | Event::Counters => None,
        }
    }
}
