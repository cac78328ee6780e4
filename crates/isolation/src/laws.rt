ghost use Rattle.isolation.specs.Laws.{TenantsAreIsolated, PlentyLeavesNothingToSee, ScarceChangesNothing};

/// Tenants are isolated: in two systems that agree on a tenant, two lists that have the same events of it in the same order
/// give it the same replies up to the first that speaks of scarce frames or memory; and if there is none, both systems
/// agree on it afterwards. This is a law about the definitions: the function does nothing.
pub fn tenants_are_isolated()
    ensures isolated { TenantsAreIsolated }
    ensures plenty { PlentyLeavesNothingToSee }
{}

/// An event that is refused since frames or memory are scarce changes nothing. This is a law about the definitions: the
/// function does nothing.
pub fn scarce_changes_nothing()
    ensures { ScarceChangesNothing }
{}
