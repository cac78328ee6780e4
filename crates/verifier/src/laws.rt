ghost use Rattle.verifier.specs.Laws.{HasOneRefusal, HasOneTable, RefusalExcludesTable, RefusalLeavesNoLawful, RefusalLeavesNoReading, RaisedStaysLawful, ReserveCoversStep, ReserveEndsAtNone, WritesFall, WritesHere};

/// A subject has one refusal or one tight table at most, and not both, so what `verify` answers
/// is the only answer that there is. This is a law about the definitions: the function does nothing.
pub fn answer_is_one()
    ensures refusal { HasOneRefusal }
    ensures table { HasOneTable }
    ensures exclusive { RefusalExcludesTable }
{}

/// The verifier is complete: a text that has a refusal has no lawful table, whatever offsets it says, and no
/// reading of any kind that goes by the same rules, so it's the profile that refuses it and no whim of the code.
/// A table may say lower offsets than the verifier keeps: its numbers for them are all greater by one multiple of 8,
/// and each lawful table stays one when its own are raised so. This is a law about the definitions, for every body
/// that refuses by them: the function does nothing.
pub fn refusal_leaves_none()
    ensures lawful { RefusalLeavesNoLawful }
    ensures raised { RaisedStaysLawful }
    ensures reading { RefusalLeavesNoReading }
{}

/// A step to a later slot needs no more than what the reserve falls by, so a run that is admitted with
/// the reserve of its slot has frames for all its stores; after the text nothing is reserved. This is
/// a law about the definitions: the function does nothing.
pub fn reserve_falls()
    ensures step { ReserveCoversStep }
    ensures end { ReserveEndsAtNone }
{}

/// Fewer and fewer maps are written as a run goes on, and a slot that writes a map is one from which on it is
/// written. This is a law about the definitions: the function does nothing.
pub fn writes_fall()
    ensures falls { WritesFall }
    ensures here { WritesHere }
{}
