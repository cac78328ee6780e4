ghost use Rattle.std.specs.Prelude.{◌≡◌, None};
ghost use Rattle.host_handle.specs.Life.{IsOpened};

use host_handle::{BpfHost, BpfHostOptions};
use std::alloc::Global;

/// The version of the library, which is that of its header, too.
#[unsafe(no_mangle)]
pub extern "C" fn bpf_host_version() -> u32
    ensures { result ≡ 5 }
{
    5
}

/// Makes a host of 2 to 4096 frames and 1 to 16 tenants in a closed handle. A handle that is open stays as it is.
#[unsafe(no_mangle)]
pub extern "C" fn bpf_host_new(
    alloc: Global,
    frames: u32,
    tenants: u32,
    options: &BpfHostOptions,
    handle: &mut BpfHost,
) -> u32
    ensures { IsOpened frames tenants options.now result handle.old.owner.host handle.new.owner.host }
{
    handle.open(alloc, frames, tenants, options)
}

/// Closes a handle, and gives back all that its host held. A closed handle stays as it is.
#[unsafe(no_mangle)]
pub extern "C" fn bpf_host_free(alloc: Global, handle: &mut BpfHost)
    ensures { handle.new.owner.host ≡ None }
{
    drop(handle.take(alloc));
}
