ghost use Rattle.std.specs.Prelude.{◌≡◌, ◌+◌, ℕ, length, suc};

use crate::boxed::Boxed;
use crate::view::View;
use std::marker::{Model, PhantomData};

/// Whose a seat is.
pub trait Kind {
    // The first of the seat's tenants, and the one after its last.
    ghost spans: { ℕ → ℕ → Type 0 };
}

/// A seat of one tenant.
pub struct OfTenant;

/// A seat of the scanner, which has no tenant.
pub struct OfScanner;

/// A seat of the host, which has no tenant.
pub struct OfHost;

impl Kind for OfTenant {
    ghost spans = { λ first end. end ≡ first + 1 };
}

impl Kind for OfScanner {
    ghost spans = { λ first end. first ≡ end };
}

impl Kind for OfHost {
    ghost spans = { λ first end. first ≡ end };
}

/// A seat at a turn. It knows its tenants' parts of the memory, and only its own turns change them.
#[derive(Drop)]
pub struct SeatOf<K: Kind> {
    pub(crate) token: atomic_table::Seat<Option<Boxed>, View>,
    pub(crate) tenant: u32,
    pub(crate) kind: PhantomData<K>,
}

/// The seat of a tenant.
pub type Seat = SeatOf<OfTenant>;

/// The seat of the scanner.
pub type ScanSeat = SeatOf<OfScanner>;

/// The seat of the host.
pub type HostSeat = SeatOf<OfHost>;

impl<K: Kind> Model for SeatOf<K> {
    ghost use Rattle.std.specs.Prelude.{◌≡◌};
    ghost use Rattle.turn.specs.Views.{KnowsMaps};
    ghost use Rattle.turn.specs.Seats.{SeatState, slots_out};

    ghost Value = { SeatState };

    ghost view = { λ p. record { turn = p.token.table_id; id = p.token.id; view = p.token.me.0 } };

    ghost invariant = { λ p. (p.token.me.1 ≡ slots_out p.token.me.0.holds) × (p.token.me.0.first ≡ p.tenant) × K.spans p.token.me.0.first p.token.me.0.end × KnowsMaps p.token.me.0 };
}

impl SeatOf<OfTenant> {
    ghost use Rattle.std.specs.Prelude.{◌≡◌, ◌+◌};
    ghost use Rattle.host_types.specs.Tenant.{AreFlatMaps};
    ghost use Rattle.turn.specs.Seats.{own_part};

    /// What holds of each tenant's seat: its tenant is there, and the maps that it has are flat. The function
    /// does nothing.
    pub fn facts(&self)
        ensures { AreFlatMaps (own_part self.now).maps }
    {
        let _opened = &self.token;
    }

    /// The tenant's number.
    pub fn tenant(&self) -> u32
        ensures first { self.now.view.first ≡ result }
        ensures alone { self.now.view.end ≡ result + 1 }
    {
        self.tenant
    }
}
