use crate::site::Site;
use bpf_decode::{Insn, Operation};

/// Bytes of memory that an instruction reads or writes by way of a register.
#[derive(Clone, Copy)]
pub struct Access {
    pub bytes: u32,
    /// How far after the register's address they begin.
    pub offset: i16,
    /// What divides the address at which they begin.
    pub align: u32,
}

impl Access {
    /// What the refused instruction reads or writes by way of a register.
    pub fn by(site: &Site<'_>, register: u8) -> Option<Access> {
        Access::of(&site.insn, register, site.named_value_size())
    }

    /// What an instruction reads or writes by way of a register, where the values of the map that R1 names have
    /// so many bytes.
    pub fn of(insn: &Insn, register: u8, value_size: Option<u32>) -> Option<Access> {
        match Operation::of(insn.opcode)? {
            Operation::Load { size, .. } if register == insn.src => {
                Some(Access::of_word(size.bytes(), insn.offset))
            }
            Operation::Store { size, .. } if register == insn.dst => {
                Some(Access::of_word(size.bytes(), insn.offset))
            }
            Operation::Call => Access::of_helper(register, value_size),
            _ => None,
        }
    }

    /// That of a load or store.
    fn of_word(bytes: u32, offset: i16) -> Access {
        Access {
            bytes,
            offset,
            align: bytes,
        }
    }

    /// The key of a helper, or its value.
    fn of_helper(register: u8, value_size: Option<u32>) -> Option<Access> {
        match register {
            2 => Some(Access::of_word(4, 0)),
            3 => Some(Access {
                bytes: value_size?,
                offset: 0,
                align: 1,
            }),
            _ => None,
        }
    }
}
