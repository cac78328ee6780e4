ghost use Rattle.std.specs.Prelude.{◌≡◌, ◌↔◌, ◌%◌, ◌<◌, length, IsTrue, MatchOption};
ghost use Rattle.bpf_decode.specs.Text.{slots_of, insn_at, fault_at, HasLength, IsWellFormed, FailsFirst, IsFirstFault, WellFormedHasNoFault, FirstFaultIsOne};

use crate::insn::Insn;
use crate::slot::second_slot_fault;
use host_types::Refused;
use host_types::limits::MAX_TEXT;
use host_types::rule::BAD_LENGTH;

/// What is refused of a text that isn't well formed.
pub(crate) fn first_fault(text: &[u8]) -> Option<Refused>
    ensures { MatchOption result (IsWellFormed text.now) (λ refused. IsFirstFault text.now refused) }
{
    if !has_length(text) {
        return Some(Refused {
            number: BAD_LENGTH,
            slot: 0,
        });
    }
    first_bad_insn(text)
}

/// Whether a text has 1 to 4096 whole slots.
fn has_length(text: &[u8]) -> bool
    ensures { IsTrue result ↔ HasLength text.now }
{
    8 <= text.len() && text.len() <= MAX_TEXT && text.len() % 8 == 0
}

/// The first instruction that fulfils no row of the table.
fn first_bad_insn(text: &[u8]) -> Option<Refused>
    requires { HasLength text.now }
    ensures { MatchOption result (IsWellFormed text.now) (λ refused. FailsFirst text.now refused.number refused.slot) }
{
    let mut slot = 0;
    while slot < text.len() / 8 {
        let insn = Insn::read(text, slot);
        if let Some(number) = fault_at(text, slot, &insn) {
            return Some(Refused {
                number,
                slot: slot as u32,
            });
        }
        slot += insn.slots() as usize;
    }
    None
}

/// The smallest number of what is wrong at a slot.
#[tactic(auto, unfolding(crate::specs::Text::fault_at))]
fn fault_at(text: &[u8], slot: usize, insn: &Insn) -> Option<u32>
    requires whole { length text.now % 8 ≡ 0 }
    requires within { slot < slots_of text.now }
    requires fields { insn.now ≡ insn_at text.now slot }
    ensures { result ≡ fault_at text.now slot }
{
    match (insn.fault(), second_slot_fault(text, slot)) {
        (None, fault) => fault,
        (fault, None) => fault,
        (Some(number), Some(other)) => Some(number.min(other)),
    }
}

/// A text that is well formed has no fault, and a text has one first fault. This is a law about the
/// definitions: the function does nothing.
pub fn verdict_is_one()
    ensures exclusive { WellFormedHasNoFault }
    ensures one { FirstFaultIsOne }
{}
