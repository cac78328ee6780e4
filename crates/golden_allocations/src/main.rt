//! Lists of events on a host, of which `rt try --fail-alloc 1..` lets each allocation be refused in turn: the
//! events before the refused one answer as without the refusal, the event at it is refused for want of memory,
//! and later ones answer as in the list without that event. Where it is the room for the replies that is
//! refused, nothing happened. The output is the same whichever allocation is refused (README.md).
#![tactic(auto)]

mod lists;
mod replies;

use lists::List;
use replies::are_alike;
use std::alloc::{AllocError, Global};
use std::io;

/// Which list.
#[derive(Clone, Copy, Drop)]
enum Kind {
    Parting,
    Returning,
    Updating,
    Crowding,
}

impl Kind {
    /// How many frames there are.
    fn frames(self) -> u32 {
        match self {
            Kind::Parting | Kind::Returning => 4,
            Kind::Updating => 8,
            Kind::Crowding => 3,
        }
    }

    fn name(self) -> &'static str {
        match self {
            Kind::Parting => "two tenants share a page and part again",
            Kind::Returning => "a tenant gives its program and its map back and makes them anew",
            Kind::Updating => "updates of a value in two pages",
            Kind::Crowding => "four pages in two frames",
        }
    }
}

/// The events of a list.
fn list_of(alloc: Global, kind: Kind) -> Result<List, AllocError> {
    let mut list = List::new(alloc);
    match kind {
        Kind::Parting => list.parting()?,
        Kind::Returning => list.returning()?,
        Kind::Updating => list.updating()?,
        Kind::Crowding => list.crowding()?,
    }
    Ok(list)
}

/// Whether the replies to a list are as they should be. Where there is no memory for the list, nothing is said.
fn is_right(alloc: Global, kind: Kind) -> bool {
    match list_of(alloc, kind) {
        Ok(list) => are_alike(alloc, kind.frames(), &list.events),
        Err(AllocError) => true,
    }
}

fn main(rt: HostRuntime) -> io::Result<()> {
    for kind in [
        Kind::Parting,
        Kind::Returning,
        Kind::Updating,
        Kind::Crowding,
    ] {
        let name = kind.name();
        let answered = if is_right(rt.alloc(), kind) {
            "agree"
        } else {
            "differ"
        };
        println!(rt; "{name}: replies {answered}")?;
    }
    Ok(())
}
