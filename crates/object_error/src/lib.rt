//! Why an object file isn't taken.
#![tactic(auto)]

use host_types::Shape;
use std::alloc::{AllocError, AllocFailed, Global};
use std::fmt;
use terminal_text::quoted;
use thiserror::Error;

/// A refusal of an object file: what is wrong, and where, also in the source if that is known.
#[derive(Debug, Drop, Error)]
#[error("{location}{cause}{line}")]
pub struct ObjectError {
    pub location: Location,
    pub cause: Cause,
    pub line: ShownLine,
}

/// Where something stands: a section by its number, as `llvm-readelf -S` has it, and a byte of it. Section 0 is the file as a whole.
#[derive(Clone, Copy, Debug)]
pub struct Location {
    pub section: usize,
    pub offset: usize,
}

/// The line of a source at which something is wrong, as it is shown, where it is known.
#[derive(Debug, Drop)]
pub struct ShownLine(pub Option<String>);

/// What is wrong with an object file. Names are cut and escaped for a terminal.
#[derive(Debug, Drop, Error)]
pub enum Cause {
    #[error("out of memory")]
    OutOfMemory(AllocError),
    #[error("the file has more than 16777216 bytes")]
    TooLong,
    #[error("this is no ELF file; compile C with `clang -g -O2 -mcpu=v3 -target bpf -c`, without `-flto` or `-emit-llvm`")]
    NotElf,
    #[error("the file is for 32 bits; compile with `clang -target bpf -c`")]
    NotElf64,
    #[error("the file is big-endian; compile with `-target bpf` or `-target bpfel`")]
    BigEndian,
    #[error("the file has type {0} and is no relocatable object; compile with `-c`, and don't link")]
    NotRelocatable(u16),
    #[error("the file is for machine {0} and not for BPF, which is 247; compile with `-target bpf`")]
    OtherMachine(u16),
    #[error("section headers of {0} bytes, and not of 64")]
    HeaderSize(u16),
    #[error("{0} sections; at most 1024 are read")]
    TooManySections(u16),
    #[error("more than 65536 symbols")]
    TooManySymbols,
    #[error("it ends outside of the file, or of its section; the file may be cut short")]
    Cut,
    #[error("no name of at most 255 bytes of UTF-8 stands here")]
    BadName,
    #[error("there is no symbol table")]
    NoSymbols,
    #[error("there is no function")]
    NoFunction,
    #[error("no section and no function is named `{0}`")]
    NoSuchFunction(String),
    #[error("there are several functions, `{0}` and `{1}` among them; name a section or a function")]
    SeveralFunctions(String, String),
    #[error("a text of {0} bytes; it has 1 to 4096 slots of eight")]
    TextSize(usize),
    #[error("relocations with addends of their own (SHT_RELA) are not taken")]
    WithAddends,
    #[error("more than 65536 relocations of one section, or a second section of them")]
    TooManyRelocations,
    #[error("relocation {0} is not taken in a text; R_BPF_64_64 and R_BPF_64_32 are")]
    UnknownRelocation(u32),
    #[error("an address is to be filled in where no wide instruction with source 0 stands")]
    NotWide,
    #[error("a call is to be filled in where no call of a function stands")]
    NotCall,
    #[error("`{0}` is not defined in this file; there is no linker, so define it here, or mark it static inline")]
    Unresolved(String),
    #[error("`{0}` is a common symbol, for which a linker would find room; compile with `-fno-common`, or give it an initial value")]
    Common(String),
    #[error("the offset of `{0}` would count twice: the instruction adds it as the relocation does, as by gcc's assembler; compile with clang")]
    CountedTwice(String),
    #[error("the address of function `{0}` is taken; call it by name")]
    FunctionAddress(String),
    #[error("the address of `{0}` is taken, which is neither a map nor a global variable in .data, .bss or .rodata; give a variable no section of its own")]
    OtherAddress(String),
    #[error("a call leads to no function of this file")]
    CallOut,
    #[error("more than 256 functions are called, or functions of more than 8192 slots together")]
    TooManyFunctions,
    #[error("a kernel function is called by its BTF id; only helpers 1 to 3 are there")]
    HelperByBtf,
    #[error("an atomic operation; maps are used by one run at a time, so write it as a plain one")]
    Atomic,
    #[error("a load from a packet (LD_ABS, LD_IND); read the packet from the context")]
    PacketAccess,
    #[error("CO-RE relocations; there is no kernel whose types they could follow, so include no vmlinux.h")]
    CoreRelocations,
    #[error("the ninth map; a tenant has at most eight, and each section of .bss or .data is one, and all of .rodata together")]
    TooManyMaps,
    #[error("maps in .maps are described by BTF, and there is none for them; compile with `-g`")]
    NoBtf,
    #[error("BTF that cannot be read")]
    BadBtf,
    #[error("more than 65536 types of BTF")]
    TooManyTypes,
    #[error("more than 65536 records of lines, or lines of more than 1024 sections")]
    TooManyLines,
    #[error("BTF of kind {0}, which is unknown")]
    UnknownBtfKind(u32),
    #[error("`{0}` in .maps is no struct that describes a map; each map is a variable of its own")]
    NoMapStruct(String),
    #[error("the map `{0}` has no symbol in its section")]
    NoMapSymbol(String),
    #[error("the map `{0}` has type {1}; only BPF_MAP_TYPE_ARRAY, which is 2, is there; examples/hash.h makes hash tables of it")]
    MapType(String, u32),
    #[error("the map `{0}` has keys of {1} bytes; keys of array maps have 4")]
    MapKey(String, u32),
    #[error("the map `{0}` has flags {1}; only 0 is taken")]
    MapFlags(String, u32),
    #[error("the field `{1}` of map `{0}` is not taken; type, key, key_size, value, value_size, max_entries and map_flags are")]
    MapField(String, String),
    #[error("the field `{1}` of map `{0}` says another number than one before it; leave out one of them")]
    MapFieldAgain(String, String),
    #[error("the map `{0}` has values of {value_size} bytes and {entries} entries; values have 1 to 4096 bytes, maps 1 to 65536 entries and at most 256 pages", value_size = .1.value_size, entries = .1.entries)]
    MapShape(String, Shape),
    #[error("the definition of map `{0}` is shorter than 20 bytes, or has more fields than struct bpf_map_def, or some of them twice")]
    MapDefinition(String),
    #[error("global variables of {0} bytes in one map; the value of a map has at most 4096")]
    GlobalsSize(usize),
    #[error("an address stands in a global variable; only texts can name maps and variables")]
    RelocatedData,
    #[error("a function is to run before the program, as a constructor, and none does; give variables initial values that are constants")]
    Constructor,
}

impl Cause {
    /// Whether an instruction is refused.
    pub fn is_of_instruction(&self) -> bool {
        match self {
            Cause::UnknownRelocation(_)
            | Cause::NotWide
            | Cause::NotCall
            | Cause::Unresolved(_)
            | Cause::Common(_)
            | Cause::CountedTwice(_)
            | Cause::FunctionAddress(_)
            | Cause::OtherAddress(_)
            | Cause::CallOut
            | Cause::HelperByBtf
            | Cause::Atomic
            | Cause::PacketAccess => true,
            _ => false,
        }
    }
}

impl ObjectError {
    /// The refusal of something at a byte of a section.
    pub fn at(section: usize, offset: usize, cause: Cause) -> Self {
        ObjectError {
            location: Location { section, offset },
            cause,
            line: ShownLine(None),
        }
    }
}

/// The name of a map: whole where it is one of C, or has dots as sections have, and else as it is shown.
pub fn named(alloc: Global, name: &[u8]) -> Result<String, AllocError> {
    if !name.iter().all(is_of_name) {
        return shown(alloc, name);
    }
    match str::from_utf8(name) {
        Ok(name) => String::from_str(alloc, name),
        Err(_) => shown(alloc, name),
    }
}

/// Whether a byte may stand in a name of C, or is a dot.
fn is_of_name(byte: &u8) -> bool {
    byte.is_ascii_alphanumeric() || *byte == b'_' || *byte == b'.'
}

/// A name as it is shown: cut and escaped for a terminal, or `?` where it is no UTF-8 text.
pub fn shown(alloc: Global, name: &[u8]) -> Result<String, AllocError> {
    match str::from_utf8(name) {
        Ok(name) => quoted(alloc, name),
        Err(_) => String::from_str(alloc, "?"),
    }
}

impl From<AllocError> for ObjectError {
    fn from(error: AllocError) -> Self {
        ObjectError::at(0, 0, Cause::OutOfMemory(error))
    }
}

/// Lets go of what found no room.
impl<T: Drop> From<AllocFailed<T>> for ObjectError {
    fn from(failed: AllocFailed<T>) -> Self {
        ObjectError::from(AllocError::from(failed))
    }
}

impl fmt::Display for ShownLine {
    fn fmt<W: fmt::Write>(&self, f: &mut fmt::Formatter<W>) -> fmt::Result {
        match &self.0 {
            Some(words) => write!(f, " ({words})"),
            None => Ok(()),
        }
    }
}

impl fmt::Display for Location {
    fn fmt<W: fmt::Write>(&self, f: &mut fmt::Formatter<W>) -> fmt::Result {
        match self.section {
            0 => Ok(()),
            section => write!(f, "section {section}, byte {}: ", self.offset),
        }
    }
}
