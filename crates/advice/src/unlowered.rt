//! What is said of a text whose lowering was stopped.

use crate::Advice;
use crate::loops::loop_closed;

/// A jump to its own slot or back. A line below says what stopped the lowering.
pub fn on_unlowered_jump(text: &[u8], slot: u32) -> Advice {
    let wrong = if loop_closed(text, slot).is_some() {
        "a backward jump forms a loop, which has to be unrolled"
    } else {
        "a jump leads backward, though it forms no loop, so that blocks have to be reordered"
    };
    Advice {
        wrong,
        fix: "the line `not lowered` says what prevented it",
    }
}

/// How to fix a loop that no range ends.
pub fn on_endless_loop() -> &'static str {
    "in C count up to a constant, as in `for (i = 0; i < 40 && i < n; i++)`, and for `while (x)` \
        write `for (i = 0; i < 64 && x; i++)`; a loop that is bounded needs fewer rounds or \
        instructions, or a `u64` as its count: of a `u32` that clang keeps on the stack no range \
        is known"
}

/// A load outside the context, in a further copy of a loop.
pub fn on_load_in_loop() -> Advice {
    Advice {
        wrong: "in this copy the loop reads outside the context, since the verifier knows no bound \
            of its count, or too large a one",
        fix: "compare the count with a constant, as in `i < 40 && i < n`, so that each load is \
            inside the context; or load the program with a larger context size",
    }
}
