use crate::rule::{
    BACK_JUMP, BAD_FIELD, BAD_LENGTH, BAD_REGISTER, CUT_WIDE, FALLS_OFF, FRAME_WRITTEN, JUMP_OUT,
    MISALIGNED, NULL_NOT_CHECKED, OUTSIDE_CONTEXT, OUTSIDE_MAP, OUTSIDE_STACK, POINTER_LEAKS,
    UNKNOWN_HELPER, UNKNOWN_MAP, UNKNOWN_OPCODE, UNSET_REGISTER, UNSET_STACK, WRONG_KIND,
};
use std::fmt;

/// A refusal of a program by its number, 1 to 25, and the slot that breaks the rule; or number 41
/// at slot 0 for want of memory.
#[derive(Clone, Copy, Debug, PartialEq, Eq)]
pub struct Refused {
    pub number: u32,
    pub slot: u32,
}

/// Why a call or an event was refused. A refusal changes nothing.
#[derive(Clone, Copy, Debug, PartialEq, Eq)]
pub enum Fault {
    /// 1 to 25: the program isn't accepted.
    Program(Refused),
    /// 31: more frames are needed than there are.
    NoFrames { need: u32, have: u32 },
    /// 32: the tenant has all its maps.
    TooManyMaps,
    /// 33: a shape, a number of frames or tenants, or a value's length out of limits.
    BadShape,
    /// 34: the tenant has no such map.
    NoMap,
    /// 35: the map has no such element.
    NoElement,
    /// 36: the tenant has an open run.
    Busy,
    /// 37: the tenant has no open run.
    NoRun,
    /// 38: the tenant has no such program.
    NoProgram,
    /// 39: a context of another size than the program's, or a size out of limits.
    BadContext,
    /// 40: an option can't have this value.
    BadOption,
    /// 41: memory ran out.
    OutOfMemory,
    /// 42: there is no such tenant.
    BadTenant,
    /// 43: a loaded program of the tenant names the map.
    InUse,
    /// 44: the option is fixed while pages share frames.
    PagesShared,
    /// 45: the tenant has all its programs.
    TooManyPrograms,
}

impl Refused {
    ghost use Rattle.std.specs.Prelude.{◌≡◌, ◌==◌, if◌then◌else◌};
    ghost use Rattle.host_types.specs.declared.fault.Fault.TheVariants.{OutOfMemory, Program};
    ghost use Rattle.host_types.specs.Refusals.{rule_name};

    /// The refusal for want of memory.
    pub const OUT_OF_MEMORY: Refused = Refused {
        number: 41,
        slot: 0,
    };

    /// The rule's name, as it is printed. A number that is no rule's is that of want of memory.
    pub fn name(&self) -> &'static str
        ensures { result.now ≡ rule_name self.now.number }
    {
        match self.number {
            BAD_LENGTH => "BadLength",
            UNKNOWN_OPCODE => "UnknownOpcode",
            BAD_FIELD => "BadField",
            BAD_REGISTER => "BadRegister",
            CUT_WIDE => "CutWide",
            BACK_JUMP => "BackJump",
            JUMP_OUT => "JumpOut",
            FALLS_OFF => "FallsOff",
            UNSET_REGISTER => "UnsetRegister",
            WRONG_KIND => "WrongKind",
            OUTSIDE_CONTEXT => "OutsideContext",
            OUTSIDE_STACK => "OutsideStack",
            UNSET_STACK => "UnsetStack",
            OUTSIDE_MAP => "OutsideMap",
            MISALIGNED => "Misaligned",
            NULL_NOT_CHECKED => "NullNotChecked",
            FRAME_WRITTEN => "FrameWritten",
            UNKNOWN_HELPER => "UnknownHelper",
            UNKNOWN_MAP => "UnknownMap",
            POINTER_LEAKS => "PointerLeaks",
            _ => "OutOfMemory",
        }
    }

    /// The refusal as a host answers it: a program's, or want of memory.
    pub fn fault(self) -> Fault
        ensures { result ≡ (if self.number == 41 then OutOfMemory else Program self) }
    {
        if self.number == Refused::OUT_OF_MEMORY.number {
            Fault::OutOfMemory
        } else {
            Fault::Program(self)
        }
    }
}

impl Fault {
    ghost use Rattle.std.specs.Prelude.{◌≡◌};
    ghost use Rattle.host_types.specs.Refusals.{fault_number, fault_name};

    /// The number that stands for the refusal in the host's answers.
    pub fn number(&self) -> u32
        ensures { result ≡ fault_number self.now }
    {
        match self {
            Fault::Program(refused) => refused.number,
            Fault::NoFrames { .. } => 31,
            Fault::TooManyMaps => 32,
            Fault::BadShape => 33,
            Fault::NoMap => 34,
            Fault::NoElement => 35,
            Fault::Busy => 36,
            Fault::NoRun => 37,
            Fault::NoProgram => 38,
            Fault::BadContext => 39,
            Fault::BadOption => 40,
            Fault::OutOfMemory => 41,
            Fault::BadTenant => 42,
            Fault::InUse => 43,
            Fault::PagesShared => 44,
            Fault::TooManyPrograms => 45,
        }
    }

    /// The refusal's name, as it is printed.
    pub fn name(&self) -> &'static str
        ensures { result.now ≡ fault_name self.now }
    {
        match self {
            Fault::Program(refused) => refused.name(),
            Fault::NoFrames { .. } => "NoFrames",
            Fault::TooManyMaps => "TooManyMaps",
            Fault::BadShape => "BadShape",
            Fault::NoMap => "NoMap",
            Fault::NoElement => "NoElement",
            Fault::Busy => "Busy",
            Fault::NoRun => "NoRun",
            Fault::NoProgram => "NoProgram",
            Fault::BadContext => "BadContext",
            Fault::BadOption => "BadOption",
            Fault::OutOfMemory => "OutOfMemory",
            Fault::BadTenant => "BadTenant",
            Fault::InUse => "InUse",
            Fault::PagesShared => "PagesShared",
            Fault::TooManyPrograms => "TooManyPrograms",
        }
    }
}

/// What follows a refusal's name.
#[derive(Clone, Copy, Debug)]
struct Detail(Fault);

impl fmt::Display for Detail {
    ghost use Rattle.std.specs.Prelude.{Some};
    ghost use Rattle.host_types.specs.Refusals.{detail_text};

    ghost output = { λ detail. Some (detail_text detail.0) };

    fn fmt<W: fmt::Write>(&self, f: &mut fmt::Formatter<W>) -> fmt::Result {
        match self.0 {
            Fault::Program(refused) if refused.number <= POINTER_LEAKS => {
                write!(f, " at {}", refused.slot)
            }
            Fault::NoFrames { need, have } => write!(f, " need {need} have {have}"),
            _ => Ok(()),
        }
    }
}

/// The refusal as the program prints it: its number and name, then the slot of a program's
/// refusal, or the frames that were needed and there.
impl fmt::Display for Fault {
    ghost use Rattle.std.specs.Prelude.{Some};
    ghost use Rattle.host_types.specs.Refusals.{refusal_text};

    ghost output = { λ fault. Some (refusal_text fault) };

    fn fmt<W: fmt::Write>(&self, f: &mut fmt::Formatter<W>) -> fmt::Result {
        let number = self.number();
        let name = self.name();
        let detail = Detail(*self);
        write!(f, "refused {number} {name}{detail}")
    }
}
