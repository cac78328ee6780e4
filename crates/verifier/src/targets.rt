//! The slots to which an instruction may lead.

ghost use Rattle.std.specs.Prelude.{◌≡◌, ◌+◌, ◌<◌, IfOk};
ghost use Rattle.bpf_decode.specs.Text.{slots_of, width_at, IsInstruction};
ghost use Rattle.verifier.specs.Flow.{falls_to, lands_on, jumps_to};

use crate::candidate::Candidate;
use host_types::rule::{BACK_JUMP, FALLS_OFF, JUMP_OUT};

impl Candidate {
    /// The slot to which the instruction at a slot falls through.
    #[tactic(auto, unfolding(bpf_decode::specs::Text::insn_at))]
    pub(crate) fn falls_to(&self, slot: u32) -> Result<u32, u32>
        requires { IsInstruction self.now.text slot }
        ensures to { result ≡ falls_to self.now.text slot }
        ensures following { IfOk result (λ to. to ≡ slot + width_at self.now.text slot) }
        ensures within { IfOk result (λ to. to < slots_of self.now.text) }
    {
        let slots = self.slots();
        let to = slot + self.insn(slot).slots();
        if to < slots { Ok(to) } else { Err(FALLS_OFF) }
    }

    /// The slot to which the instruction at a slot jumps; the distance counts from the next
    /// instruction.
    #[tactic(auto, unfolding(bpf_decode::specs::Text::insn_at))]
    pub(crate) fn jumps_to(&self, slot: u32, distance: i32) -> Result<u32, u32>
        requires { IsInstruction self.now.text slot }
        ensures to { result ≡ jumps_to self.now.text slot distance }
        ensures within { IfOk result (λ to. to < slots_of self.now.text) }
    {
        let _slots = self.slots();
        let next = slot + self.insn(slot).slots();
        self.lands_on(slot, i64::from(next) + i64::from(distance))
    }

    /// A slot to which the instruction at a slot may jump: one after it, at which an instruction
    /// begins.
    fn lands_on(&self, slot: u32, to: i64) -> Result<u32, u32>
        ensures to { result ≡ lands_on self.now.text slot to }
        ensures within { IfOk result (λ to. to < slots_of self.now.text) }
    {
        let Ok(to) = u64::try_from(to) else {
            return Err(BACK_JUMP);
        };
        if to <= u64::from(slot) {
            Err(BACK_JUMP)
        } else if to < u64::from(self.slots()) && self.begins(to as u32) {
            Ok(to as u32)
        } else {
            Err(JUMP_OUT)
        }
    }
}
