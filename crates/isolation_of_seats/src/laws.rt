ghost use Rattle.isolation_of_seats.specs.Laws.{RunsAreDetermined, PlansAreIsolated};

/// Two whole runs of a program on one context and equal maps have one reply, and leave equal maps. This is a law about the definitions:
/// the function does nothing.
pub fn runs_are_determined()
    ensures { RunsAreDetermined }
{}

/// Tenants of seats are isolated: plans of the same programs and runs that begin with equal maps are answered the same up to the
/// first reply that speaks of scarce frames or memory; and if there is none, they leave equal maps. This is a law about the definitions: the function does nothing.
#[tactic(auto, using(crate::proofs::Plans::plans_are_isolated))]
pub fn plans_are_isolated()
    ensures { PlansAreIsolated }
{}
