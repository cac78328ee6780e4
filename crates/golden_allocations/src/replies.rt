//! What a host replies to a list of events, and how the replies compare where one allocation was refused.

use host_core::{Event, Host, Reply};
use host_types::{Fault, Options};
use std::alloc::{AllocError, Global};

/// How many tenants there are.
const TENANTS: u32 = 2;

/// A new host. Where one allocation is refused, the host is made at a second try.
fn new_host(alloc: Global, frames: u32) -> Option<Host> {
    match Host::new(alloc, frames, TENANTS, Options::standard()) {
        Ok(host) => Some(host),
        Err(_) => Host::new(alloc, frames, TENANTS, Options::standard()).ok(),
    }
}

/// The replies to a list. Where there is no memory for the replies, nothing happened, and the list happens then.
fn replies(alloc: Global, frames: u32, events: &[Event]) -> Option<Vec<Reply>> {
    let mut host = new_host(alloc, frames)?;
    match host.apply_all(events) {
        Ok(replies) => Some(replies),
        Err(AllocError) => host.apply_all(events).ok(),
    }
}

/// Lets all events happen but one.
fn apply_others(
    host: &mut Host,
    events: &[Event],
    left_out: usize,
    replies: &mut Vec<Reply>,
) -> Result<(), AllocError> {
    for (number, event) in events.iter().enumerate() {
        if number != left_out {
            let reply = host.apply(event);
            replies.push(reply)?;
        }
    }
    Ok(())
}

/// The replies to a list without one of its events.
fn replies_without(
    alloc: Global,
    frames: u32,
    events: &[Event],
    left_out: usize,
) -> Option<Vec<Reply>> {
    let mut host = Host::new(alloc, frames, TENANTS, Options::standard()).ok()?;
    let mut replies = Vec::new(alloc);
    apply_others(&mut host, events, left_out, &mut replies).ok()?;
    Some(replies)
}

/// The number of the first event that was refused for want of memory.
fn refused_at(replies: &[Reply]) -> Option<usize> {
    for (number, reply) in replies.iter().enumerate() {
        if *reply == Reply::Refused(Fault::OutOfMemory) {
            return Some(number);
        }
    }
    None
}

/// Whether no event was refused.
fn are_taken(replies: &[Reply]) -> bool {
    for reply in replies {
        if let Reply::Refused(_) = reply {
            return false;
        }
    }
    true
}

/// Whether some replies are the same, of two lists from these indices on.
fn are_same(
    first: &[Reply],
    from: usize,
    second: &[Reply],
    second_from: usize,
    count: usize,
) -> bool {
    let mut others = second.iter().skip(second_from);
    for reply in first.iter().skip(from).take(count) {
        match others.next() {
            Some(other) if *other == *reply => {}
            _ => return false,
        }
    }
    true
}

/// Whether the replies before a refused event are those of the whole list, and those after it are those of
/// the list without the event.
fn is_as_without(
    alloc: Global,
    frames: u32,
    events: &[Event],
    refused: &[Reply],
    whole: &[Reply],
    at: usize,
) -> bool {
    let Some(without) = replies_without(alloc, frames, events, at) else {
        return false;
    };
    let following = at.saturating_add(1);
    refused.len() == events.len()
        && are_same(refused, 0, whole, 0, at)
        && are_same(refused, 0, &without, 0, at)
        && are_same(refused, following, &without, at, events.len())
}

/// Whether a list's replies are alike twice, and as without an event where one was refused for want of memory. A host that
/// can't be made at two tries is no such host: one allocation alone is refused.
pub(crate) fn are_alike(alloc: Global, frames: u32, events: &[Event]) -> bool {
    let Some(first) = replies(alloc, frames, events) else {
        return false;
    };
    let Some(second) = replies(alloc, frames, events) else {
        return false;
    };
    match (refused_at(&first), refused_at(&second)) {
        (None, None) => {
            first.len() == events.len()
                && are_taken(&first)
                && are_same(&first, 0, &second, 0, events.len())
        }
        (Some(at), None) => is_as_without(alloc, frames, events, &first, &second, at),
        (None, Some(at)) => is_as_without(alloc, frames, events, &second, &first, at),
        (Some(_), Some(_)) => false,
    }
}
