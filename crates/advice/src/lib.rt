//! What each refusal says to the author of a program or of a host file. It is the one table of these
//! words: the program `bpf_host` says them, and the program `golden_refusals` prints them for the documents.
#![tactic(auto)]

mod event;
mod host;
mod instruction;
mod loops;
mod program;
mod sum;
mod unlowered;

ghost use Rattle.std.specs.Prelude.{◌↔◌, IsSome, IsTrue};
ghost use Rattle.advice.specs.Answered.{is_answered};

pub use event::{
    on_context_length, on_context_size, on_frames_for_map, on_frames_for_run,
    on_frames_for_unmerging, on_frames_for_update, on_host_size, on_map_count, on_option, on_shape,
    on_shape_count, on_value_size,
};
use host_types::Refused;
pub use loops::loop_closed;
pub use sum::{Sum, on_sum};
pub use unlowered::{on_endless_loop, on_load_in_loop, on_unlowered_jump};

/// What a refusal says.
#[derive(Clone, Copy, PartialEq, Eq)]
pub struct Advice {
    /// What is wrong, without a full stop.
    pub wrong: &'static str,
    /// How to fix it.
    pub fix: &'static str,
}

/// The advice on a refusal by its number. There is one for each number that a host or a `check` can
/// answer, and for no other.
pub fn advice_on(number: u32) -> Option<Advice>
    ensures { IsSome result ↔ IsTrue (is_answered number) }
{
    program::on_text(number)
        .or(program::on_successor(number))
        .or(program::on_value(number))
        .or(program::on_access(number))
        .or(program::on_call(number))
        .or(host::on_limits(number))
        .or(host::on_frames(number))
        .or(host::on_tenants(number))
}

/// The advice on a refusal of a text, by its number and by what stands at its slot. There is one for each
/// number that can be answered, as `advice_on` has it, and for no other.
pub fn advice_on_text(refused: Refused, text: &[u8]) -> Option<Advice>
    ensures { IsSome result ↔ IsTrue (is_answered refused.number) }
{
    instruction::on_refused(refused, text).or(advice_on(refused.number))
}
