//! What is printed of a text.

ghost use Rattle.verifier.specs.Subject.{IsContextSize};
ghost use Rattle.verifier.specs.Verified.{AreShapes};

use crate::edges::Edges;
use bpf_decode::decode;
use findings::{CLEAR, CheckedText, Cut, is_within_limits};
use host_types::limits::MAX_MAPS;
use host_types::{Refused, Shape};
use knowledge::Knowledge;
use std::alloc::Global;
use verifier::{Verified, is_context_size, verify};

/// What is printed of a text.
#[derive(Drop)]
pub struct Listed {
    /// Why the verifier refuses it, if it does.
    pub refused: Option<Refused>,
    /// What is known at its slots, of a text that is well formed.
    pub known: Option<Known>,
    /// What has the frames that each slot may take: the text, or one that begins as it does where it is refused.
    pub verified: Option<Verified>,
}

/// What is known at the slots of a text, and which lead to which.
#[derive(Drop)]
pub struct Known {
    pub knowledge: Knowledge,
    pub edges: Edges,
}

impl Known {
    /// What is known of a text that was verified: nothing where no text can be verified so, where it isn't well formed, and where
    /// there is no memory.
    pub fn of(alloc: Global, checked: &CheckedText<'_>) -> Option<Known> {
        let knowledge = checked.knowledge(alloc)?;
        let edges = Edges::of(alloc, &knowledge).ok()?;
        Some(Known { knowledge, edges })
    }
}

impl Listed {
    /// What is reported of a text that was verified: nothing where no text can be verified so.
    pub fn of(alloc: Global, checked: &CheckedText<'_>) -> Option<Listed> {
        if checked.shapes.len() > MAX_MAPS
            || !checked.shapes.iter().all(|shape| is_within_limits(shape))
            || !is_context_size(checked.context_size)
        {
            return None;
        }
        let known = Known::of(alloc, checked);
        Some(
            match verified_of(alloc, checked.text, checked.shapes, checked.context_size) {
                Ok(verified) => Listed {
                    refused: None,
                    known,
                    verified: Some(verified),
                },
                Err(refused) => Listed {
                    refused: Some(refused),
                    known,
                    verified: verified_before(alloc, checked, refused),
                },
            },
        )
    }

    /// How many slots of a text of so many are listed: those up to the refused one.
    pub fn listed(&self, slots: u32) -> u32 {
        match self.refused {
            Some(refused) => refused.slot.saturating_add(1).min(slots),
            None => slots,
        }
    }
}

/// The verdict.
fn verified_of(
    alloc: Global,
    text: &[u8],
    shapes: &[Option<Shape>],
    context_size: u32,
) -> Result<Verified, Refused>
    requires shapes { AreShapes shapes.now }
    requires context { IsContextSize context_size }
{
    let program = decode(alloc, text)?;
    verify(alloc, program, shapes, context_size)
}

/// A program that begins with the slots before a refused one.
fn verified_before(alloc: Global, checked: &CheckedText<'_>, refused: Refused) -> Option<Verified> {
    let cut = Cut {
        alloc,
        checked: *checked,
        slot: refused.slot as usize,
    };
    cut.with(CLEAR)
}
