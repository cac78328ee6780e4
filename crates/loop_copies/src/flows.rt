//! What the verifier knows along the blocks of a text, whatever the order in which they stand.

ghost use Rattle.verifier.specs.Subject.{IsContextSize};
ghost use Rattle.verifier.specs.Verified.{AreShapes};
ghost use Rattle.std.specs.Prelude.{IfSome};
ghost use Rattle.verifier_kinds.specs.Descriptions.{IsDescription};

use crate::blocks::Block;
use crate::emit::bytes_at;
use crate::slots::begins;
use bpf_decode::{Distance, FRAME_POINTER, Operation, Program, decode};
use host_types::rule::FALLS_OFF;
use host_types::{Refused, Shape};
use std::alloc::{AllocError, Global};
use std::marker::Model;
use verifier::{Candidate, Target};
use verifier_kinds::{Description, Kind};

/// What is known at a position of a text.
#[derive(Drop)]
pub(crate) struct Known {
    description: Description,
}

impl Model for Known {
    ghost use Rattle.verifier_kinds.specs.declared.description.Description.{Description};
    ghost use Rattle.verifier_kinds.specs.Descriptions.{IsDescription};

    ghost Value = { Description };

    ghost view = { λ known. known.description };

    ghost invariant = { λ known. IsDescription known.description };
}

/// What is known on the edges on which a block leads on; `None` of one that no run goes.
#[derive(Drop)]
pub(crate) struct Edges {
    pub next: Option<Known>,
    pub jump: Option<Known>,
}

/// A text whose conditional jumps have no distance, so that none of them leads back.
#[derive(Drop)]
pub(crate) struct Flows {
    program: Program,
    candidate: Candidate,
}

impl Model for Flows {
    ghost use Rattle.std.specs.Prelude.{◌≡◌};
    ghost use Rattle.verifier.specs.Subject.{Subject};

    ghost Value = { Subject };

    ghost view = { λ flows. flows.candidate };

    ghost invariant = { λ flows. flows.candidate.text ≡ flows.program };
}

impl Known {
    /// What is known where a text begins.
    pub fn start() -> Known {
        Known {
            description: Description::start(),
        }
    }

    /// What is known of a register, if there is one with the number.
    pub fn register(&self, register: u8) -> Option<Kind> {
        if register > FRAME_POINTER {
            return None;
        }
        self.description.register(register)
    }

    /// What is known where two edges join.
    #[tactic(auto, using(verifier_kinds::proofs::Joins::join_is_description))]
    pub fn joined(&self, other: &Known) -> Known {
        Known {
            description: self.description.join(&other.description),
        }
    }

    /// Gives the answer of a lookup in R0 a number of its own.
    fn with_answer(mut self, call: u32) -> Known {
        if let Some(Kind::MaybeValue { map, .. }) = self.description.register(0) {
            self.description
                .set_register(0, Kind::MaybeValue { map, call });
        }
        self
    }
}

/// The text without the distances of its conditional jumps.
fn without_distances(alloc: Global, text: &[u8], program: &Program) -> Result<Vec<u8>, AllocError> {
    let mut straight = Vec::new(alloc);
    for slot in 0..=u16::MAX {
        if u32::from(slot) >= program.slots() {
            return Ok(straight);
        }
        let [opcode, registers, low, high, first, second, third, fourth] = bytes_at(text, slot);
        let is_branch = program.begins(u32::from(slot))
            && matches!(Operation::of(opcode), Some(Operation::Branch { .. }));
        let [low, high] = if is_branch { [0, 0] } else { [low, high] };
        straight.extend_from_slice(&[opcode, registers, low, high, first, second, third, fourth])?;
    }
    Ok(straight)
}

/// What is known at a target.
fn known_at(target: Option<Target>) -> Option<Known>
    requires { IfSome target (λ target. IsDescription target.description) }
{
    match target {
        Some(target) => Some(Known {
            description: target.description,
        }),
        None => None,
    }
}

impl Flows {
    /// The flows of a text, for maps of these shapes and a context of so many bytes.
    pub fn of(
        alloc: Global,
        text: &[u8],
        program: &Program,
        shapes: &[Option<Shape>],
        context_size: u32,
    ) -> Result<Flows, Refused>
        requires shapes { AreShapes shapes.now }
        requires context { IsContextSize context_size }
    {
        let Ok(straight) = without_distances(alloc, text, program) else {
            return Err(Refused::OUT_OF_MEMORY);
        };
        let program = decode(alloc, &straight)?;
        let same = decode(alloc, &straight)?;
        Ok(Flows {
            program,
            candidate: Candidate::new(same, shapes, context_size),
        })
    }

    /// What is known after the instruction at a slot, on each of its edges. The error is the least number of the rules
    /// that it breaks. A call gets a number of its own.
    #[tactic(auto, using(crate::proofs::Targets::next_described, crate::proofs::Targets::jump_described))]
    fn after(&self, slot: u32, known: &Known, call: u32) -> Result<Edges, u32> {
        if !begins(&self.program, slot) {
            return Err(FALLS_OFF);
        }
        let onward = self.candidate.flow(slot, &known.description)?;
        let is_call = matches!(
            Operation::of(self.program.insn(slot).opcode),
            Some(Operation::Call)
        );
        let next = known_at(onward.next);
        let jump = known_at(onward.jump);
        Ok(match next {
            Some(next) if is_call => Edges {
                next: Some(next.with_answer(call)),
                jump,
            },
            _ => Edges { next, jump },
        })
    }

    /// Whether the instruction at a slot is a jump that is always taken.
    fn always_jumps(&self, slot: u32) -> bool {
        begins(&self.program, slot)
            && matches!(
                Operation::of(self.program.insn(slot).opcode),
                Some(Operation::Jump { .. })
            )
    }

    /// What is known after the last instruction of a block, on each of its edges.
    fn after_last(&self, slot: u16, known: Known, call: u32) -> Result<Edges, Refused> {
        if self.always_jumps(u32::from(slot)) {
            return Ok(Edges {
                next: None,
                jump: Some(known),
            });
        }
        match self.after(u32::from(slot), &known, call) {
            Ok(edges) => Ok(edges),
            Err(number) => Err(Refused {
                number,
                slot: u32::from(slot),
            }),
        }
    }

    /// What is known after a block, on each of its edges, or the first rule that one of its instructions breaks. Its
    /// calls are numbered from a number on.
    pub fn through(&self, block: Block, known: Known, calls: u32) -> Result<Edges, Refused> {
        let mut known = known;
        let mut call = calls;
        for slot in block.first..block.last {
            if begins(&self.program, u32::from(slot)) {
                let edges = self.after_last(slot, known, call)?;
                call = call.wrapping_add(1);
                let Some(next) = edges.next else {
                    return Ok(edges);
                };
                known = next;
            }
        }
        self.after_last(block.last, known, call)
    }
}
