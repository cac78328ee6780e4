//! The edges that join at a slot.

use knowledge::Knowledge;
use std::alloc::{AllocError, Global};
use verifier::Target;
use verifier_kinds::Description;

/// Where one slot leads to another.
#[derive(Clone, Copy, PartialEq, Eq, PartialOrd, Ord)]
struct Lead {
    to: u32,
    from: u32,
}

/// Which slots of a text lead to which.
#[derive(Drop)]
pub struct Edges {
    leads: Vec<Lead>,
}

/// What comes to a slot from another one.
#[derive(Drop)]
pub struct Edge {
    pub from: u32,
    pub known: Description,
}

impl Edges {
    /// Those of a text of which this is known.
    pub fn of(alloc: Global, knowledge: &Knowledge) -> Result<Edges, AllocError> {
        let mut leads = Vec::new(alloc);
        for from in 0..knowledge.slots() {
            let onward = knowledge.leads(from);
            push_lead(&mut leads, from, &onward.next)?;
            push_lead(&mut leads, from, &onward.jump)?;
        }
        leads.sort()?;
        Ok(Edges { leads })
    }

    /// What comes to a slot, in the order of the slots from which it comes: none where fewer than two lead there.
    pub fn fulfilling(
        &self,
        alloc: Global,
        knowledge: &Knowledge,
        to: u32,
    ) -> Result<Vec<Edge>, AllocError> {
        let mut edges = Vec::new(alloc);
        let begin = self.leads.partition_point(|lead| lead.to < to);
        let end = self.leads.partition_point(|lead| lead.to <= to);
        let leads = self.leads.get(begin..end).unwrap_or(&[]);
        if leads.len() < 2 {
            return Ok(edges);
        }
        edges.reserve_exact(leads.len())?;
        for lead in leads {
            if lead.from >= knowledge.slots() {
                continue;
            }
            let onward = knowledge.leads(lead.from);
            push_edge(&mut edges, *lead, onward.next)?;
            push_edge(&mut edges, *lead, onward.jump)?;
        }
        Ok(edges)
    }
}

/// Puts what comes by a target after the others, if it is this lead's.
fn push_edge(edges: &mut Vec<Edge>, lead: Lead, target: Option<Target>) -> Result<(), AllocError> {
    if let Some(Target { slot, description }) = target {
        if slot == lead.to {
            edges.push(Edge {
                from: lead.from,
                known: description,
            })?;
        }
    }
    Ok(())
}

/// Puts where a slot leads after the others, if it leads anywhere.
fn push_lead(leads: &mut Vec<Lead>, from: u32, target: &Option<Target>) -> Result<(), AllocError> {
    if let Some(target) = target {
        leads.push(Lead {
            to: target.slot,
            from,
        })?;
    }
    Ok(())
}
