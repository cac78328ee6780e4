ghost use Rattle.std.specs.Prelude.{◌≡◌, IfOk, OnOk, IfErr};
ghost use Rattle.host_types.specs.OptionTable.{AreOptions};
ghost use Rattle.page_table.specs.Changes.{RefusesMemory};
ghost use Rattle.page_table.specs.Limits.{AreLimits};
ghost use Rattle.host_core.specs.World.{new_system};
ghost use Rattle.host_core.specs.HostView.{StandsForSystem};
ghost use Rattle.host_handle.specs.Life.{options_of};

use crate::handle::BpfHost;
use crate::structs::BpfHostOptions;
use host_core::Host;
use host_types::{Fault, Options};
use std::alloc::Global;

impl BpfHost {
    ghost use Rattle.host_handle.specs.Life.{IsOpened};

    /// Makes a host in a closed handle, or says by a number why not: 101 where it is open.
    pub fn open(
        &mut self,
        alloc: Global,
        frames: u32,
        tenants: u32,
        options: &BpfHostOptions,
    ) -> u32
        ensures { IsOpened frames tenants options.now result self.old.owner.host self.new.owner.host }
    {
        if self.is_open() {
            return 101;
        }
        match boxed(alloc, frames, tenants, chosen(options)) {
            Ok(host) => {
                self.put(host);
                0
            }
            Err(fault) => fault.number(),
        }
    }
}

/// A new host on the heap.
fn boxed(alloc: Global, frames: u32, tenants: u32, options: Options) -> Result<Box<Host>, Fault>
    ensures new { IfOk result (λ host. StandsForSystem host.value (new_system frames tenants options)) }
    ensures limits { OnOk result (AreLimits frames tenants × AreOptions options) }
    ensures refused { IfErr result (RefusesMemory frames tenants options) }
{
    let host = Host::new(alloc, frames, tenants, options)?;
    match Box::new(alloc, host) {
        Ok(host) => Ok(host),
        Err(_) => Err(Fault::OutOfMemory),
    }
}

/// The options as the host takes them.
fn chosen(options: &BpfHostOptions) -> Options
    ensures { result ≡ options_of options.now }
{
    Options {
        pages_to_scan: options.pages_to_scan,
        run: options.run,
        use_zero_pages: options.use_zero_pages,
        max_page_sharing: options.max_page_sharing,
    }
}
