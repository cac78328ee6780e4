ghost use Rattle.std.specs.Prelude.{◌≡◌};

use std::marker::Model;
use turn::Turn;

/// A turn that threads are lent. Contracts see which turn it is.
#[derive(Drop)]
pub struct Shared {
    pub(crate) turn: Turn,
}

impl Model for Shared {
    ghost use Rattle.atomic_table.specs.Seated.{TableId};

    ghost Value = { TableId };

    ghost view = { λ shared. shared.turn };
}

impl Shared {
    /// A turn to be lent.
    pub fn new(turn: Turn) -> Shared
        ensures { result ≡ turn }
    {
        Shared { turn }
    }

    /// The turn back, when nobody is lent it any more.
    pub fn into_turn(self) -> Turn
        ensures { result ≡ self }
    {
        let Shared { turn } = self;
        turn
    }
}
