use host_types::{Bytes, Fault, MapNo, Visited};

/// What a host answers to an event.
#[derive(PartialEq, Eq, Drop)]
pub enum Reply {
    /// The map was made under this number.
    Map(MapNo),
    /// The program was loaded under this number.
    Program(u32),
    /// The run is open.
    Begun,
    /// The run made a step and goes on.
    Stepped,
    /// The run made its last step: what it returned, and how many steps it made in all.
    Ended { ret: u64, steps: u32 },
    /// What the visit did.
    Visited(Visited),
    /// It was done.
    Done,
    /// The value of the element.
    Value(Bytes),
    /// The counters as they are now.
    Counters(ksm_counters::Counters),
    /// The event was refused, and changed nothing.
    Refused(Fault),
}

/// The run that stopped runs on one context after the other, since it didn't end.
#[derive(PartialEq, Eq, Drop)]
pub struct Stopped {
    /// How many runs ended before it.
    pub ended: usize,
    /// The reply to it.
    pub reply: Reply,
}

impl Stopped {
    ghost use Rattle.std.specs.Prelude.{◌≡◌};
    ghost use Rattle.host_core.specs.declared.reply.Reply.TheVariants.{Refused as IsRefused};

    /// The next run after so many was refused.
    pub(crate) fn refused(ended: usize, fault: Fault) -> Stopped
        ensures { result ≡ record { ended = ended; reply = IsRefused fault } }
    {
        Stopped {
            ended,
            reply: Reply::Refused(fault),
        }
    }
}
