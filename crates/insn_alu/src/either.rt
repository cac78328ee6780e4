//! What is written alike for arithmetic on 32 and on 64 bits. Each use stands in a function with a contract
//! for its width, and names the functions of that width.

// What an operation makes of two numbers of a width.
macro_rules! computed {
    ($code:expr, $offset:expr, $a:expr, $b:expr) => {
        match $code {
            AluCode::Add => $a.wrapping_add($b),
            AluCode::Sub => $a.wrapping_sub($b),
            AluCode::Mul => $a.wrapping_mul($b),
            AluCode::Div => quotient($offset, $a, $b),
            AluCode::Or => $a | $b,
            AluCode::And => $a & $b,
            AluCode::Lsh => $a << count($b),
            AluCode::Rsh => $a >> count($b),
            AluCode::Neg => $a.wrapping_neg(),
            AluCode::Mod => remainder($offset, $a, $b),
            AluCode::Xor => $a ^ $b,
            AluCode::Mov => moved($offset, $b),
            AluCode::Arsh => ($a.cast_signed() >> count($b)).cast_unsigned(),
            AluCode::ToLittleEndian | AluCode::ToBigEndian | AluCode::SwapBytes => unreachable!(),
        }
    };
}

// A division truncates. By zero it gives 0; the least signed number divided by -1 gives itself.
macro_rules! quotient {
    ($offset:expr, $a:expr, $b:expr) => {{
        if $b == 0 {
            return 0;
        }
        if $offset == 1 {
            $a.cast_signed()
                .wrapping_div($b.cast_signed())
                .cast_unsigned()
        } else {
            $a / $b
        }
    }};
}

// What a division leaves. By zero it leaves all.
macro_rules! remainder {
    ($offset:expr, $a:expr, $b:expr) => {{
        if $b == 0 {
            return $a;
        }
        if $offset == 1 {
            $a.cast_signed()
                .wrapping_rem($b.cast_signed())
                .cast_unsigned()
        } else {
            $a % $b
        }
    }};
}

pub(crate) use computed;
pub(crate) use quotient;
pub(crate) use remainder;
