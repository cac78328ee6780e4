ghost use Rattle.verifier_kinds.specs.Laws.{RegisterJoinIsLeast, SlotJoinIsLeast, DescriptionJoinIsLeast};

/// A join is the least above both: of what is known of a register, of a slot of the stack, and of
/// all. This is a law about the definitions: the function does nothing.
pub fn join_is_least()
    ensures register { RegisterJoinIsLeast }
    ensures slot { SlotJoinIsLeast }
    ensures description { DescriptionJoinIsLeast }
{}
