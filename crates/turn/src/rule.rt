ghost use Rattle.std.specs.Prelude.{◌+◌, ℕ, length, suc};

use crate::boxed::Boxed;
use crate::view::View;
use atomic_table::{Play, Split, TableRule};
use page_table::Memory;
use std::snapshot::Snapshot;

/// The rule of the turn's one word.
pub(crate) struct InTurn;

impl TableRule<Option<Boxed>, View, Snapshot<Memory>> for InTurn {
    ghost use Rattle.turn.specs.Rule.{IsInTurn};
    ghost use Rattle.turn.specs.Views.{new_view};

    ghost holds = { λ key. IsInTurn };

    ghost first = { λ key. new_view 0 (length key.value.tenants) key.value };
}

/// A take, which wins or loses.
pub(crate) struct Take;

impl Play<Option<Boxed>, View> for Take {
    ghost use Rattle.turn.specs.Rule.{Takes};

    ghost then = { Takes };
}

/// A give.
pub(crate) struct Give;

impl Play<Option<Boxed>, View> for Give {
    ghost use Rattle.turn.specs.Rule.{Gives};

    ghost then = { Gives };
}

/// Cuts off the first of a view's tenants.
pub(crate) struct CutTenant;

impl Split<View> for CutTenant {
    ghost left = { λ view. record view { first = view.first + 1 } };

    ghost right = { λ view. record view { end = view.first + 1 } };
}

/// Cuts off a view of no tenant.
pub(crate) struct CutNone;

impl Split<View> for CutNone {
    ghost left = { λ view. view };

    ghost right = { λ view. record view { end = view.first } };
}
