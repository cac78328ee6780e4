ghost use Rattle.std.specs.Prelude.{◌≡◌, IfOk, IfErr, OnOk};
ghost use Rattle.bpf_decode.specs.Text.{IsWellFormed};
ghost use Rattle.verifier.specs.Verified.{AreShapes, IsVerified};
ghost use Rattle.host_calls.specs.Programs.{RefusesProgram, shapes_of, subject_of};
ghost use Rattle.turn.specs.Seats.{IsIdle, own_part};
ghost use Rattle.tenant_workers.specs.Calls.{HasChanged, IsSameSeat, IsUnchanged};
ghost use Rattle.tenant_workers.specs.Runs.{LeavesMemory};

use crate::shared::Shared;
use host_calls::{decode_and_verify, host_shapes};
use host_types::limits::MAX_MAPS;
use host_types::{Fault, Shape};
use std::alloc::Global;
use std::sync::Wait;
use turn::Seat;
use verifier::{Verified, is_context_size};

impl Shared {
    /// Verifies a text as a program of the seat's tenant, with the maps that it has and a context of so many
    /// bytes. The memory stays as it is: one turn asks it for shapes, and no turn is held while the text is verified.
    ///
    /// Refusals in their order: `BadContext` where the context's size is above 256 or no multiple of 8, the
    /// text's first fault (`BadLength` to `CutWide`), or else the first rule that it breaks (`BackJump` to
    /// `PointerLeaks`); `OutOfMemory` where memory ran out, and only of a text without a fault.
    pub fn load_program(
        &self,
        rt: &impl Wait,
        alloc: Global,
        seat: &mut Seat,
        text: &[u8],
        ctx_size: u32,
    ) -> Result<Verified, Fault>
        requires idle { IsIdle self.now seat.old }
        ensures idle { IsIdle self.now seat.new }
        ensures same { IsSameSeat seat.old seat.new }
        ensures kept { own_part seat.new ≡ own_part seat.old }
        ensures subject { IfOk result (λ v. v.subject ≡ subject_of (own_part seat.old) text.now ctx_size) }
        ensures well_formed { IfOk result (λ _. IsWellFormed text.now) }
        ensures verified { IfOk result IsVerified }
        ensures refused { IfErr result (RefusesProgram (subject_of (own_part seat.old) text.now ctx_size)) }
        ensures asked { OnOk result (HasChanged IsUnchanged seat.old seat.new) }
        ensures unchanged { IfErr result (LeavesMemory seat.old seat.new) }
    {
        if !is_context_size(ctx_size) {
            return Err(Fault::BadContext);
        }
        let shapes = self.shapes(rt, seat);
        decode_and_verify(alloc, shapes.as_slice(), text, ctx_size)
    }

    /// The shapes of the maps of the seat's tenant by number: `None` where it has no such map.
    fn shapes(&self, rt: &impl Wait, seat: &mut Seat) -> [Option<Shape>; MAX_MAPS]
        requires idle { IsIdle self.now seat.old }
        ensures idle { IsIdle self.now seat.new }
        ensures same { IsSameSeat seat.old seat.new }
        ensures kept { own_part seat.new ≡ own_part seat.old }
        ensures shapes { result ≡ shapes_of (own_part seat.old).maps }
        ensures valid { AreShapes result }
        ensures unchanged { HasChanged IsUnchanged seat.old seat.new }
    {
        let tenant = seat.tenant();
        let held = self.turn.take(rt, seat);
        let shapes = host_shapes(held.memory(), tenant);
        self.turn.give(seat, held);
        shapes
    }
}
