//! A host to which a pointer leads that C keeps.
ghost use Rattle.std.specs.Prelude.{◌≡◌, IsSome, Option, Some, None};
ghost use Rattle.std.specs.Coded.{coded_option};
ghost use Rattle.host_core.specs.HostView.{HostView};
ghost use Rattle.host_handle.specs.Owned.{owned, coded_host};

use crate::loose::Loose;
use host_core::Host;
use std::alloc::Global;
use std::marker::{Model, Send};

/// A pointer to a boxed host, or to nothing: `host` says what the host stands for.
#[repr(C)]
pub struct Owner {
    at: *mut (),
    pub ghost host: { Option HostView } by { coded_option coded_host },
}

impl Model for Owner {
    ghost also_owns = { λ owner. owned owner.at owner.host };
}

impl Owner {
    /// Takes a host over. One that was kept before stays where it is.
    pub(crate) fn put(&mut self, host: Loose<Host, Global>)
        ensures { self.new.host ≡ Some host.value }
    {
        let Loose { at, alloc: _ } = host;
        self.at = at as *mut ();
    }

    /// Hands the host over.
    pub(crate) fn take(&mut self, alloc: Global) -> Loose<Host, Global>
        requires { IsSome self.old.host }
        ensures host { self.old.host ≡ Some result.value }
        ensures gone { self.new.host ≡ None }
    {
        let at = self.at as *mut Host;
        Loose { at, alloc }
    }
}

// It is proved in proofs/owner/Owner/TheSendSync.
unsafe impl Send for Owner {}
