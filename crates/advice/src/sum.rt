//! What is said of an addition with an address, where it is known what is added to what.

use crate::Advice;

/// What an addition that is refused adds to what.
#[derive(Clone, Copy, PartialEq, Eq)]
pub enum Sum {
    /// An address to a number.
    AddressToNumber,
    /// An address to another one.
    AddressToAddress,
    /// A number that isn't constant to an address in the context or on the stack.
    NumberToAddress,
}

/// An addition that the rule of kinds refuses.
pub fn on_sum(sum: Sum) -> Advice {
    let (wrong, fix) = match sum {
        Sum::AddressToNumber => (
            "an address is added to a number: the address must be in the destination register",
            "add the number to the address: `r4 = r1` and `r4 += 4` in place of `r4 = 4` and `r4 \
                += r1`; in C write `p + n` for a pointer p that isn't cast to a number, or `asm \
                volatile(\"%0 += %1\" : \"+r\"(p) : \"r\"(n))`; n must be constant if p is in \
                the context or on the stack",
        ),
        Sum::AddressToAddress => (
            "an address is added to an address",
            "add only numbers to an address",
        ),
        Sum::NumberToAddress => (
            "a number that isn't constant is added to an address in the context or on the stack",
            "add only constants to such an address: in C use a `switch` with a case for each \
                constant, and `asm volatile(\"\" : \"+r\"(x))` after the load of x in each case; or \
                make an array on the stack a global variable, whose index needs a bound alone",
        ),
    };
    Advice { wrong, fix }
}
