//! The line of a program that is accepted.

ghost use Rattle.std.specs.Prelude.{◌≡◌, Some};
ghost use Rattle.admission.specs.Reserve.{whole_need};
ghost use Rattle.bpf_decode.specs.Text.{instructions_of, slots_of};
ghost use Rattle.engines.specs.Check.{acceptance_text};

use admission::whole_need;
use std::fmt;
use verifier::Verified;

/// What is printed of a program that is accepted.
#[derive(Clone, Copy)]
pub struct Acceptance {
    slots: u32,
    instructions: u32,
    /// The frames that a run of it may take, whichever pages share frames: no more than its maps have pages that it
    /// may write.
    reserve: u32,
}

impl Acceptance {
    pub fn of(program: &Verified) -> Self
        ensures slots { result.slots ≡ slots_of program.now.subject.text }
        ensures instructions { result.instructions ≡ instructions_of program.now.subject.text }
        ensures reserve { result.reserve ≡ whole_need program.now }
    {
        Acceptance {
            slots: program.slots(),
            instructions: program.instructions(),
            reserve: whole_need(program),
        }
    }
}

impl fmt::Display for Acceptance {
    ghost output = { λ acceptance. Some (acceptance_text acceptance.slots acceptance.instructions acceptance.reserve) };

    fn fmt<W: fmt::Write>(&self, f: &mut fmt::Formatter<W>) -> fmt::Result {
        let slots = self.slots;
        let instructions = self.instructions;
        let reserve = self.reserve;
        write!(
            f,
            "accepted slots {slots} instructions {instructions} reserve {reserve}"
        )
    }
}
