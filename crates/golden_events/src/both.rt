//! A host and the plain host, to which the same happens.

use crate::tally::{Tally, merged_pages};
use host_core::{Event, Host, Reply};
use host_types::Options;
use host_types::limits::MAX_MAPS;
use reference_host::PlainHost;
use std::alloc::{AllocError, Global};

/// More than any map has elements here.
const KEYS: u32 = 1024;

/// The most pages of a map.
const PAGES: u32 = 2;

/// A host and the plain host beside it, how many pages are merged, and whether the last event was refused.
#[derive(Drop)]
pub(crate) struct Both {
    host: Host,
    plain: PlainHost,
    merged: u32,
    was_refused: bool,
}

/// What both answered of an element.
#[derive(Clone, Copy, PartialEq, Eq)]
enum Looked {
    /// The same value.
    Same,
    /// The same refusal: there is no such element.
    Past,
    /// Not the same.
    Other,
}

/// Whether there is a value that both reported.
fn both_answered(answered: &Reply, plain: &Reply) -> Looked {
    if answered != plain {
        return Looked::Other;
    }
    match answered {
        Reply::Refused(_) => Looked::Past,
        _ => Looked::Same,
    }
}

impl Both {
    /// Both without maps, programs and runs; none where there is no host of so many frames and tenants.
    pub(crate) fn new(
        alloc: Global,
        frames: u32,
        tenants: u32,
        options: Options,
    ) -> Result<Option<Both>, AllocError> {
        let plain = PlainHost::new(alloc, frames, tenants, PAGES, options)?;
        match Host::new(alloc, frames, tenants, options) {
            Ok(host) => Ok(Some(Both {
                host,
                plain,
                merged: 0,
                was_refused: false,
            })),
            Err(_) => Ok(None),
        }
    }

    /// Lets an event happen to both, and counts the reply. It answers whether it is the same.
    fn replies_agree(&mut self, event: &Event, tally: &mut Tally) -> bool {
        let answered = self.host.apply(event);
        tally.count(event, &answered);
        self.was_refused = matches!(answered, Reply::Refused(_));
        answered == self.plain.apply(event)
    }

    /// Whether both give the same counters after an event.
    fn counters_agree(&mut self, event: &Event, tally: &mut Tally) -> bool {
        let counters = Event::Counters;
        let answered = self.host.apply(&counters);
        let merged = merged_pages(&answered);
        tally.count_parted(event, self.merged, merged);
        self.merged = merged;
        answered == self.plain.apply(&counters)
    }

    /// Lets an event happen to both. It answers whether both gave the same reply, give the same counters
    /// now, and have frames for all that open runs may need.
    pub(crate) fn happens(&mut self, event: &Event, tally: &mut Tally) -> bool {
        let is_same = self.replies_agree(event, tally);
        is_same && self.counters_agree(event, tally) && self.plain.is_covered()
    }

    /// Whether the last event was refused.
    pub(crate) fn was_refused(&self) -> bool {
        self.was_refused
    }

    /// What both answer of an element.
    fn look(&mut self, tenant: u32, map: u32, key: u32) -> Looked {
        let event = Event::HostLookup { tenant, map, key };
        both_answered(&self.host.apply(&event), &self.plain.apply(&event))
    }

    /// Whether both give the same values of a map.
    fn map_agrees(&mut self, tenant: u32, map: u32) -> bool {
        for key in 0..KEYS {
            match self.look(tenant, map, key) {
                Looked::Same => {}
                Looked::Past => return true,
                Looked::Other => return false,
            }
        }
        false
    }

    /// Whether both give the same values of all maps.
    pub(crate) fn values_agree(&mut self, tenants: u32) -> bool {
        for tenant in 0..tenants {
            for map in 0..MAX_MAPS as u32 {
                if !self.map_agrees(tenant, map) {
                    return false;
                }
            }
        }
        true
    }
}
