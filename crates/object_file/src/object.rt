//! The object file: its header, sections, symbols and names (System V ABI, chapter 4). Nothing is copied, each record is read where
//! it stands.

ghost use Rattle.std.specs.Prelude.{◌≡◌, IfOk, IfSome};
ghost use Rattle.object_file.specs.Names.{IsNameAt};
ghost use Rattle.object_file.specs.Numbers.{IsPartOfFile};

use crate::field::{part_at, u16_at, u32_at, u64_at, usize_at};
use object_error::{Cause, ObjectError};

/// The most bytes of a file.
pub(crate) const MOST_BYTES: usize = 1 << 24;

/// The most bytes of a name, with the zero that ends it.
const MOST_OF_NAME: usize = 256;

/// The most sections and symbols of a file: what is looked up goes over all of them.
pub(crate) const MOST_SECTIONS: usize = 1024;

const MOST_SYMBOLS: usize = 65536;

/// The most bytes of a text among names, and of a name that is looked up, with the zero that ends it.
const MOST_OF_FRONT: usize = 1024;

/// The bytes of a section header, of a symbol and of a relocation.
const SECTION_HEADER: usize = 64;

const SYMBOL: usize = 24;

pub(crate) const RELOCATION: usize = 16;

/// Kinds of sections: sh_type.
pub(crate) const PROGBITS: u32 = 1;

pub(crate) const SYMTAB: u32 = 2;

pub(crate) const RELA: u32 = 4;

pub(crate) const NOBITS: u32 = 8;

pub(crate) const REL: u32 = 9;

const INIT_ARRAY: u32 = 14;

const PREINIT_ARRAY: u32 = 16;

/// Bits of sh_flags: the section has bytes when the program runs, and has instructions.
const ALLOC: u64 = 2;

const EXECINSTR: u64 = 4;

/// An object file for BPF, of which the header was read.
#[derive(Clone, Copy)]
pub(crate) struct Object<'a> {
    pub bytes: &'a [u8],
    pub headers: usize,
    pub sections: usize,
    pub names: usize,
}

/// A section's header. `start` counts bytes of the file.
#[derive(Clone, Copy)]
pub(crate) struct Section {
    pub number: usize,
    pub name: usize,
    pub kind: u32,
    pub flags: u64,
    pub start: usize,
    pub size: usize,
    pub link: usize,
    pub info: usize,
}

/// A symbol. `value` counts bytes of its section.
#[derive(Clone, Copy)]
pub(crate) struct Symbol {
    pub name: usize,
    pub info: u8,
    pub section: usize,
    pub value: usize,
    pub size: usize,
}

/// The symbols of a file, and the names of those.
#[derive(Clone, Copy)]
pub(crate) struct Symbols<'a> {
    pub number: usize,
    pub records: &'a [u8],
    pub names: &'a [u8],
}

/// An error of the file as a whole.
fn of_file(cause: Cause) -> ObjectError {
    ObjectError::at(0, 0, cause)
}

impl<'a> Object<'a> {
    /// Reads the header.
    pub fn read(bytes: &'a [u8]) -> Result<Self, ObjectError>
        ensures { IfOk result (λ object. object.bytes.now ≡ bytes.now) }
    {
        if bytes.len() > MOST_BYTES {
            return Err(of_file(Cause::TooLong));
        }
        if !bytes.starts_with(b"\x7fELF") {
            return Err(of_file(Cause::NotElf));
        }
        if bytes.get(4) != Some(&2) {
            return Err(of_file(Cause::NotElf64));
        }
        if bytes.get(5) != Some(&1) {
            return Err(of_file(Cause::BigEndian));
        }
        if bytes.get(6) != Some(&1) {
            return Err(of_file(Cause::NotElf));
        }
        let kind = u16_at(bytes, 16).ok_or(of_file(Cause::Cut))?;
        if kind != 1 {
            return Err(of_file(Cause::NotRelocatable(kind)));
        }
        let machine = u16_at(bytes, 18).ok_or(of_file(Cause::Cut))?;
        if machine != 247 {
            return Err(of_file(Cause::OtherMachine(machine)));
        }
        let headers = usize_at(bytes, 40).ok_or(of_file(Cause::Cut))?;
        let header_size = u16_at(bytes, 58).ok_or(of_file(Cause::Cut))?;
        let sections = u16_at(bytes, 60).ok_or(of_file(Cause::Cut))?;
        let names = u16_at(bytes, 62).ok_or(of_file(Cause::Cut))?;
        if usize::from(header_size) != SECTION_HEADER {
            return Err(of_file(Cause::HeaderSize(header_size)));
        }
        if usize::from(sections) > MOST_SECTIONS {
            return Err(of_file(Cause::TooManySections(sections)));
        }
        Ok(Object {
            bytes,
            headers,
            sections: usize::from(sections),
            names: usize::from(names),
        })
    }

    /// A section's header.
    pub fn section(&self, number: usize) -> Result<Section, ObjectError> {
        match self.header_at(number) {
            Some(section) => Ok(section),
            None => Err(ObjectError::at(number, 0, Cause::Cut)),
        }
    }

    fn header_at(&self, number: usize) -> Option<Section> {
        if number >= self.sections {
            return None;
        }
        let at = self
            .headers
            .checked_add(number.checked_mul(SECTION_HEADER)?)?;
        let header = part_at(self.bytes, at, SECTION_HEADER)?;
        Some(Section {
            number,
            name: u32_at(header, 0)? as usize,
            kind: u32_at(header, 4)?,
            flags: u64_at(header, 8)?,
            start: usize_at(header, 24)?,
            size: usize_at(header, 32)?,
            link: u32_at(header, 40)? as usize,
            info: u32_at(header, 44)? as usize,
        })
    }

    /// The bytes of a section in the file. One of zeros (SHT_NOBITS) has none.
    pub fn contents(&self, section: &Section) -> Result<&'a [u8], ObjectError>
        ensures { IfOk result (λ contents. IsPartOfFile self.now.bytes.now section.now.start contents.now) }
    {
        let size = if section.kind == NOBITS {
            0
        } else {
            section.size
        };
        match part_at(self.bytes, section.start, size) {
            Some(contents) => Ok(contents),
            None => Err(ObjectError::at(section.number, 0, Cause::Cut)),
        }
    }

    /// A section's name.
    pub fn name(&self, section: &Section) -> Result<&'a [u8], ObjectError> {
        let names = self.section(self.names)?;
        match name_at(self.contents(&names)?, section.name) {
            Some(name) => Ok(name),
            None => Err(ObjectError::at(self.names, section.name, Cause::BadName)),
        }
    }

    /// Whether a section has a name.
    pub fn is_named(&self, section: &Section, name: &[u8]) -> Result<bool, ObjectError> {
        let names = self.section(self.names)?;
        Ok(has_name_at(self.contents(&names)?, section.name, name))
    }

    /// The first section with a name.
    pub fn named(&self, name: &[u8]) -> Result<Option<Section>, ObjectError> {
        for number in 0..self.sections {
            let section = self.section(number)?;
            if self.is_named(&section, name)? {
                return Ok(Some(section));
            }
        }
        Ok(None)
    }

    /// The only section with a name: none where there are several.
    pub fn named_once(&self, name: &[u8]) -> Result<Option<Section>, ObjectError> {
        let mut found = None;
        for number in 0..self.sections {
            let section = self.section(number)?;
            if self.is_named(&section, name)? {
                if found.is_some() {
                    return Ok(None);
                }
                found = Some(section);
            }
        }
        Ok(found)
    }

    /// The symbols of the file.
    pub fn symbols(&self) -> Result<Symbols<'a>, ObjectError> {
        for number in 0..self.sections {
            let section = self.section(number)?;
            if section.kind == SYMTAB {
                return self.symbols_of(&section);
            }
        }
        Err(of_file(Cause::NoSymbols))
    }

    /// The symbols of a section of them.
    fn symbols_of(&self, section: &Section) -> Result<Symbols<'a>, ObjectError> {
        let names = self.section(section.link)?;
        let records = self.contents(section)?;
        if records.len() > MOST_SYMBOLS * SYMBOL {
            return Err(ObjectError::at(section.number, 0, Cause::TooManySymbols));
        }
        Ok(Symbols {
            number: section.number,
            records,
            names: self.contents(&names)?,
        })
    }
}

impl Section {
    /// Whether it lists functions that are to run before any other: SHT_INIT_ARRAY, SHT_PREINIT_ARRAY.
    pub fn is_of_constructors(&self) -> bool {
        matches!(self.kind, INIT_ARRAY | PREINIT_ARRAY) && self.size > 0
    }

    /// Whether it has instructions.
    pub fn is_text(&self) -> bool {
        self.kind == PROGBITS && self.flags & EXECINSTR != 0
    }

    /// Whether it has data that a program reaches when it runs.
    pub fn is_data(&self) -> bool {
        (self.kind == PROGBITS || self.kind == NOBITS)
            && self.flags & ALLOC != 0
            && self.flags & EXECINSTR == 0
    }
}

impl<'a> Symbols<'a> {
    /// How many there are.
    pub fn count(&self) -> usize {
        self.records.len() / SYMBOL
    }

    /// A symbol by its number.
    pub fn symbol(&self, number: usize) -> Result<Symbol, ObjectError> {
        match self.record_at(number) {
            Some(symbol) => Ok(symbol),
            None => Err(ObjectError::at(self.number, 0, Cause::Cut)),
        }
    }

    fn record_at(&self, number: usize) -> Option<Symbol> {
        let record = part_at(self.records, number.checked_mul(SYMBOL)?, SYMBOL)?;
        Some(Symbol {
            name: u32_at(record, 0)? as usize,
            info: record[4],
            section: usize::from(u16_at(record, 6)?),
            value: usize_at(record, 8)?,
            size: usize_at(record, 16)?,
        })
    }

    /// A symbol's name.
    pub fn name(&self, symbol: &Symbol) -> Result<&'a [u8], ObjectError> {
        match name_at(self.names, symbol.name) {
            Some(name) => Ok(name),
            None => Err(ObjectError::at(self.number, symbol.name, Cause::BadName)),
        }
    }

    /// Whether a symbol has a name.
    pub fn is_named(&self, symbol: &Symbol, name: &[u8]) -> bool {
        has_name_at(self.names, symbol.name, name)
    }

    /// The first symbol of a section with a name.
    pub fn named(&self, section: usize, name: &[u8]) -> Result<Option<Symbol>, ObjectError> {
        for number in 0..self.count() {
            let symbol = self.symbol(number)?;
            if symbol.section == section && self.is_named(&symbol, name) {
                return Ok(Some(symbol));
            }
        }
        Ok(None)
    }
}

impl Symbol {
    /// Whether it is a function's: STT_FUNC.
    pub fn is_function(&self) -> bool {
        self.info % 16 == 2
    }

    /// Whether it is a variable's: STT_OBJECT.
    pub fn is_object(&self) -> bool {
        self.info % 16 == 1
    }

    /// Whether it is a section's own: STT_SECTION.
    pub fn is_section(&self) -> bool {
        self.info % 16 == 3
    }

    /// Whether other files see it: STB_GLOBAL or STB_WEAK.
    pub fn is_global(&self) -> bool {
        matches!(self.info / 16, 1 | 2)
    }

    /// Whether it is a common symbol, for which a linker finds room: SHN_COMMON.
    pub fn is_common(&self) -> bool {
        self.section == 0xfff2
    }

    /// Whether it is defined elsewhere: SHN_UNDEF.
    pub fn is_undefined(&self) -> bool {
        self.section == 0
    }
}

/// Whether just this name stands at an offset of names, with a zero after it. A name has no zero in it. A caller may give one of
/// megabytes, and it is compared with that of each symbol: so one of 1024 bytes or more is no name.
fn has_name_at(names: &[u8], at: usize, name: &[u8]) -> bool {
    if name.len() >= MOST_OF_FRONT {
        return false;
    }
    let Some(end) = at.checked_add(name.len()) else {
        return false;
    };
    names.get(end) == Some(&0) && names.get(at..end) == Some(name) && !name.contains(&0)
}

/// The name at an offset of names: bytes up to a zero, at most 255.
#[tactic(auto, using(crate::proofs::Naming::name_found))]
pub(crate) fn name_at(names: &[u8], at: usize) -> Option<&[u8]>
    ensures { IfSome result (λ name. IsNameAt names.now at name.now) }
{
    for length in 0..MOST_OF_NAME {
        let end = at.checked_add(length)?;
        if *names.get(end)? == 0 {
            return part_at(names, at, length);
        }
    }
    None
}

/// The text at an offset of names: bytes up to a zero, or the first 1024 of them.
pub(crate) fn front_at(names: &[u8], at: usize) -> Option<&[u8]>
    ensures { IfSome result (λ front. IsPartOfFile names.now at front.now) }
{
    for size in 0..MOST_OF_FRONT {
        let end = at.checked_add(size)?;
        if *names.get(end)? == 0 {
            return part_at(names, at, size);
        }
    }
    part_at(names, at, MOST_OF_FRONT)
}
