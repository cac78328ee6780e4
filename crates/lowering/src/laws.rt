ghost use Rattle.lowering.specs.Covering.{IsCovering, IsShorterCovering};
ghost use Rattle.lowering.specs.Laws.{EndsAreKept, StatesHaveOrigins, FailuresHaveOrigins, FailuresAreKept, FaultlessnessIsKept};

/// A text that covers another has the same runs: it ends with the same number and the same maps, or neither ends; each
/// state to which it comes is one to which the original comes, at the origin of its slot; and it fails where the
/// original fails, and nowhere else. So where no run of the lowered text fails, none of the original fails. This is a
/// law about the definitions, for every body that makes such a text: the function does nothing.
pub fn covering_keeps_runs()
    ensures ends { EndsAreKept IsCovering }
    ensures states { StatesHaveOrigins IsCovering }
    ensures failures { FailuresHaveOrigins IsCovering }
    ensures kept { FailuresAreKept IsCovering }
    ensures faultless { FaultlessnessIsKept IsCovering }
{}

/// The same of such a text without some of its jumps.
pub fn shortening_keeps_runs()
    ensures ends { EndsAreKept IsShorterCovering }
    ensures states { StatesHaveOrigins IsShorterCovering }
    ensures failures { FailuresHaveOrigins IsShorterCovering }
    ensures kept { FailuresAreKept IsShorterCovering }
    ensures faultless { FaultlessnessIsKept IsShorterCovering }
{}
