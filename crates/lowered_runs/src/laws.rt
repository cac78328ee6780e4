ghost use Rattle.lowered_runs.specs.Laws.{OpenRunsEndAsTheOriginal, RunsEndAsTheOriginal};

/// Where a program's text ends as an original text does, as `lower` promises of the text that it returns, each run of the
/// program ends as the original does: a whole run by a memory or a seat, and a run that is begun and makes its steps among other events
/// of a host. This is a law about the definitions: the function does nothing.
pub fn lowered_runs_end_alike()
    ensures runs { RunsEndAsTheOriginal }
    ensures hosts { OpenRunsEndAsTheOriginal }
{}
