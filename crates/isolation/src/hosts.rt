ghost use Rattle.std.specs.Prelude.{◌≡◌, ◌⊎◌, IfOk, OnErr};
ghost use Rattle.host_core.specs.HostView.{StandsForSystem};
ghost use Rattle.host_core.specs.World.{System};
ghost use Rattle.isolation.specs.Hosts.{HasApplied, MayHaveApplied, AreIsolated};

use host_core::{Event, Host, Reply};
use std::alloc::AllocError;

/// Applies a list of events to each of two hosts. Whatever the lists are, and whatever frames, tenants and options the hosts have:
/// a tenant on which both agree, and whose events are the same in both lists, gets the same replies of both, up to the first
/// that speaks of scarce frames or memory, and sees the same afterwards where there is none. The replies are those of the first host and of the
/// second one. Where there is no room for them, the second host is as it was, and the first one may be so too.
pub fn both(
    left: &mut Host,
    right: &mut Host,
    events: &[Event],
    others: &[Event],
) -> Result<(Vec<Reply>, Vec<Reply>), AllocError>
    ensures left { IfOk result (λ replies. HasApplied left.old events.now replies.0.items left.new) }
    ensures right { IfOk result (λ replies. HasApplied right.old others.now replies.1.items right.new) }
    ensures isolated { IfOk result (λ replies. AreIsolated left.old right.old events.now others.now replies.0.items replies.1.items left.new right.new) }
    ensures refused_left { OnErr result (MayHaveApplied left.old events.now left.new) }
    ensures refused_right { OnErr result (right.new ≡ right.old) }
{
    let replies = left.apply_all(events)?;
    let further = right.apply_all(others)?;
    Ok((replies, further))
}
