ghost use Rattle.library_calls.specs.Isolation.{CallsAreIsolated};
ghost use Rattle.library_calls.specs.Several.{EventsAreCalls, ManyRunsAreCalls, ManyRunsAreIsolated};

/// The calls on two handles are isolated, whose hosts agree on a tenant: where the calls for that tenant are the same in the same order,
/// the replies to them are the same up to the first that says that frames or memory are short, whatever calls for others stand between
/// them; and if there is none, the hosts agree on the tenant afterwards. This is a law about the definitions: the function does nothing.
pub fn calls_are_isolated()
    ensures { CallsAreIsolated }
{}

/// A call that makes many runs does what as many calls of one run each do as it made. A law about the definitions, too.
pub fn many_runs_are_calls()
    ensures { ManyRunsAreCalls }
{}

/// A call that makes many runs is isolated, too: made on two hosts that agree on the tenant, with the same program and contexts, runs that
/// ended on both return the same; and unless one call is stopped since frames or memory are short, both make as many, are stopped by the same
/// reply, if by any, and the hosts agree on the tenant afterwards. A law about the definitions.
pub fn many_runs_are_isolated()
    ensures { ManyRunsAreIsolated }
{}

/// A call that lets events happen in their order, as one that loads an object, does what a call for each of them does. A law about the
/// definitions, too.
pub fn events_are_calls()
    ensures { EventsAreCalls }
{}
