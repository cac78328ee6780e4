use bpf_decode::{Insn, Program};
use host_types::Shape;
use host_types::limits::MAX_MAPS;
use std::marker::Model;

/// A program that is to be verified, with the shapes of the maps that it may use and the size of
/// its context. Contracts see what is verified. `verify` makes one of its own; a second verifier,
/// which tests set beside it, asks one where each instruction leads.
#[derive(Drop)]
pub struct Candidate {
    program: Program,
    shapes: [Option<Shape>; MAX_MAPS],
    ctx_size: u32,
}

impl Model for Candidate {
    ghost use Rattle.verifier.specs.Subject.{Subject};
    ghost use Rattle.verifier.specs.Verified.{IsSubject};

    ghost Value = { Subject };

    ghost view = { λ c. record { text = c.program; shapes = c.shapes; context_size = c.ctx_size } };

    ghost invariant = { λ c. IsSubject (record { text = c.program; shapes = c.shapes; context_size = c.ctx_size }) };
}

impl Candidate {
    ghost use Rattle.std.specs.Prelude.{◌≡◌, ◌<◌, ◌≤◌, IfSome, IsSome, is_some};
    ghost use Rattle.host_types.specs.Shapes.{IsShape};
    ghost use Rattle.verifier_kinds.specs.Kinds.{shape_at};
    ghost use Rattle.verifier.specs.Flow.{value_size_of};
    ghost use Rattle.bpf_decode.specs.Opcodes.{operation_of};
    ghost use Rattle.bpf_decode.specs.Text.{slots_of, insn_at, is_instruction, IsInstruction};
    ghost use Rattle.verifier.specs.Subject.{IsContextSize, padded};
    ghost use Rattle.verifier.specs.Verified.{IsSubject, AreShapes};

    /// The candidate with a copy of the shapes.
    pub fn new(program: Program, shapes: &[Option<Shape>], ctx_size: u32) -> Candidate
        requires shapes { AreShapes shapes.now }
        requires context { IsContextSize ctx_size }
        ensures { result ≡ record { text = program; shapes = padded shapes.now; context_size = ctx_size } }
    {
        let _well_formed = program.slots();
        let mut by_number = [None; MAX_MAPS];
        by_number[..shapes.len()].copy_from_slice(shapes);
        Candidate {
            program,
            shapes: by_number,
            ctx_size,
        }
    }

    /// How many slots the text has, 1 to 4096.
    pub fn slots(&self) -> u32
        ensures number { result ≡ slots_of self.now.text }
        ensures subject { IsSubject self.now }
    {
        self.program.slots()
    }

    /// Whether an instruction begins at a slot.
    pub(crate) fn begins(&self, slot: u32) -> bool
        requires { slot < slots_of self.now.text }
        ensures { result ≡ is_instruction self.now.text slot }
    {
        self.program.begins(slot)
    }

    /// The instruction at a slot at which one begins.
    #[inline]
    pub(crate) fn insn(&self, slot: u32) -> Insn
        requires { IsInstruction self.now.text slot }
        ensures fields { result ≡ insn_at self.now.text slot }
        ensures dst { result.dst ≤ 10 }
        ensures src { result.src ≤ 10 }
        ensures operation { IsSome (operation_of result.opcode) }
    {
        self.program.insn(slot)
    }

    /// The program.
    #[inline]
    pub(crate) fn program(&self) -> &Program
        ensures { result.now ≡ self.now.text }
    {
        &self.program
    }

    /// The shapes of the maps that the program may use, by number.
    pub(crate) fn shapes(&self) -> &[Option<Shape>]
        ensures { result.now ≡ self.now.shapes }
    {
        &self.shapes
    }

    /// The shape of a map that the program may use.
    pub(crate) fn shape(&self, map: u32) -> Option<Shape>
        ensures shape { result ≡ shape_at self.now.shapes map }
        ensures limits { IfSome result IsShape }
    {
        match self.shapes.get(map as usize) {
            Some(shape) => *shape,
            None => None,
        }
    }

    /// Whether the program may use a map.
    pub(crate) fn has_map(&self, map: u32) -> bool
        ensures { result ≡ is_some (shape_at self.now.shapes map) }
    {
        self.shape(map).is_some()
    }

    /// The bytes of a value of a map; a map that isn't there has none.
    pub(crate) fn value_size(&self, map: u32) -> u32
        ensures size { result ≡ value_size_of self.now map }
        ensures small { result ≤ 4096 }
    {
        match self.shape(map) {
            Some(shape) => shape.value_size,
            None => 0,
        }
    }

    /// The bytes of the context.
    pub(crate) fn ctx_size(&self) -> u32
        ensures { result ≡ self.now.context_size }
    {
        self.ctx_size
    }
}
