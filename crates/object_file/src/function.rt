//! Which function of an object file is the program.

use crate::callers::caller_of;
use crate::data::is_named;
use crate::object::{Object, Section, Symbol, Symbols};
use object_error::{Cause, ObjectError, shown};
use std::alloc::Global;

/// A function: as many bytes of a section, from an offset on.
#[derive(Clone, Copy)]
pub(crate) struct Function {
    pub section: usize,
    pub begin: usize,
    pub size: usize,
}

impl Function {
    /// Whether an offset of a section lies in the function.
    pub fn has(&self, section: usize, at: usize) -> bool {
        self.section == section && self.begin <= at && at - self.begin < self.size
    }

    /// The refusal of something at a byte of the function.
    pub fn refused(&self, at: usize, cause: Cause) -> ObjectError {
        ObjectError::at(self.section, self.begin.saturating_add(at), cause)
    }
}

/// Where functions are looked for: in sections with one name, of which clang makes two where one function is to be retained; in all named by
/// SEC; or in .text and those whose names begin with `.text.`, in which clang has what is `hot`, `cold` or given a section for each function.
#[derive(Clone, Copy)]
enum Among<'n> {
    Named(&'n [u8]),
    Sections,
    Text,
}

/// The function that is the program: the one of the section with a chosen name, or else the one with that name; or where none is chosen the
/// only one in sections with names of their own, or else the only one in .text. Of several none is taken. A `static` one doesn't count beside
/// one of its section that other files see, nor in .text beside any such. One that another function calls may be its helper, so it has to be
/// chosen.
pub(crate) fn chosen(
    alloc: Global,
    object: &Object<'_>,
    symbols: &Symbols<'_>,
    name: Option<&str>,
) -> Result<Function, ObjectError> {
    let Some(name) = name else {
        return unchosen(alloc, object, symbols);
    };
    if let Some(section) = object.named(name.as_bytes())? {
        if section.is_text() {
            return in_section(alloc, object, symbols, name.as_bytes(), &section);
        }
    }
    match by_name(object, symbols, name.as_bytes())? {
        Some(function) => Ok(function),
        None => Err(ObjectError::at(0, 0, Cause::NoSuchFunction(shown(alloc, name.as_bytes())?))),
    }
}

/// The function that is the program where no name chooses it.
fn unchosen(
    alloc: Global,
    object: &Object<'_>,
    symbols: &Symbols<'_>,
) -> Result<Function, ObjectError> {
    let found = match only(alloc, object, symbols, Among::Sections)? {
        Some(symbol) => Some(symbol),
        None => only(alloc, object, symbols, Among::Text)?,
    };
    let Some(symbol) = found else {
        return Err(ObjectError::at(0, 0, Cause::NoFunction));
    };
    let function = function_of(object, &symbol)?;
    match caller_of(object, symbols, &function)? {
        Some(caller) => Err(several(alloc, symbols, &symbol, &caller)?),
        None => Ok(function),
    }
}

/// The only function of sections with a name, or the first such section itself where no symbol says what its functions are.
fn in_section(
    alloc: Global,
    object: &Object<'_>,
    symbols: &Symbols<'_>,
    name: &[u8],
    section: &Section,
) -> Result<Function, ObjectError> {
    match only(alloc, object, symbols, Among::Named(name))? {
        Some(symbol) => function_of(object, &symbol),
        None => Ok(Function {
            section: section.number,
            begin: 0,
            size: section.size,
        }),
    }
}

/// The only function among some: of those that other files see, or, where there is none, of those that are `static`.
fn only(
    alloc: Global,
    object: &Object<'_>,
    symbols: &Symbols<'_>,
    among: Among<'_>,
) -> Result<Option<Symbol>, ObjectError> {
    match only_seen(alloc, object, symbols, among, true)? {
        Some(seen) => {
            refuse_static_beside(alloc, object, symbols, among, &seen)?;
            Ok(Some(seen))
        }
        None => only_seen(alloc, object, symbols, among, false),
    }
}

/// The only function among those of some that other files see, or that they don't.
fn only_seen(
    alloc: Global,
    object: &Object<'_>,
    symbols: &Symbols<'_>,
    among: Among<'_>,
    is_seen: bool,
) -> Result<Option<Symbol>, ObjectError> {
    let mut found = None;
    for number in 0..symbols.count() {
        let symbol = symbols.symbol(number)?;
        if symbol.is_global() != is_seen || !is_among(object, &symbol, among)? {
            continue;
        }
        if let Some(first) = found {
            return Err(several(alloc, symbols, &first, &symbol)?);
        }
        found = Some(symbol);
    }
    Ok(found)
}

/// Refuses a `static` function in a section named by SEC, if the only one that other files see stands in another section: each may be the program.
fn refuse_static_beside(
    alloc: Global,
    object: &Object<'_>,
    symbols: &Symbols<'_>,
    among: Among<'_>,
    seen: &Symbol,
) -> Result<(), ObjectError> {
    if !matches!(among, Among::Sections) {
        return Ok(());
    }
    for number in 0..symbols.count() {
        let symbol = symbols.symbol(number)?;
        let may_be_meant = !symbol.is_global() && symbol.section != seen.section;
        if may_be_meant && is_among(object, &symbol, among)? {
            return Err(several(alloc, symbols, seen, &symbol)?);
        }
    }
    Ok(())
}

/// The refusal of two functions, of which each may be the program.
fn several(
    alloc: Global,
    symbols: &Symbols<'_>,
    first: &Symbol,
    second: &Symbol,
) -> Result<ObjectError, ObjectError> {
    let names = Cause::SeveralFunctions(
        shown(alloc, symbols.name(first)?)?,
        shown(alloc, symbols.name(second)?)?,
    );
    Ok(ObjectError::at(second.section, second.value, names))
}

/// Whether a symbol is that of a function among some.
fn is_among(object: &Object<'_>, symbol: &Symbol, among: Among<'_>) -> Result<bool, ObjectError> {
    if !symbol.is_function() || symbol.is_undefined() {
        return Ok(false);
    }
    let section = object.section(symbol.section)?;
    if !section.is_text() {
        return Ok(false);
    }
    match among {
        Among::Named(name) => object.is_named(&section, name),
        Among::Sections => Ok(!is_named(object.name(&section)?, b".text")),
        Among::Text => Ok(is_named(object.name(&section)?, b".text")),
    }
}

/// The function of a name.
fn by_name(
    object: &Object<'_>,
    symbols: &Symbols<'_>,
    name: &[u8],
) -> Result<Option<Function>, ObjectError> {
    for number in 0..symbols.count() {
        let symbol = symbols.symbol(number)?;
        if symbol.is_function() && !symbol.is_undefined() && symbols.is_named(&symbol, name) {
            return Ok(Some(function_of(object, &symbol)?));
        }
    }
    Ok(None)
}

/// The function of a symbol. One without a size reaches to its section's end.
fn function_of(object: &Object<'_>, symbol: &Symbol) -> Result<Function, ObjectError> {
    let section = object.section(symbol.section)?;
    let size = match symbol.size {
        0 => section.size.saturating_sub(symbol.value),
        size => size,
    };
    Ok(Function {
        section: section.number,
        begin: symbol.value,
        size,
    })
}

/// The most functions of a program.
pub(crate) const MOST_FUNCTIONS: usize = 256;

/// The functions of a program, in the order in which they are first called.
#[derive(Drop)]
pub(crate) struct Functions {
    pub list: Vec<Function>,
}

impl Functions {
    /// The number of the function that begins at an offset of a section, if there is one. It is added if it isn't known.
    pub fn number_of(
        &mut self,
        object: &Object<'_>,
        symbols: &Symbols<'_>,
        section: usize,
        begin: usize,
    ) -> Result<Option<usize>, ObjectError> {
        for (number, known) in self.list.iter().enumerate() {
            if known.section == section && known.begin == begin {
                return Ok(Some(number));
            }
        }
        if self.list.len() >= MOST_FUNCTIONS {
            return Err(ObjectError::at(section, begin, Cause::TooManyFunctions));
        }
        let Some(function) = beginning_at(object, symbols, section, begin)? else {
            return Ok(None);
        };
        self.list.push(function)?;
        Ok(Some(self.list.len() - 1))
    }
}

/// The function that begins at an offset of a section.
fn beginning_at(
    object: &Object<'_>,
    symbols: &Symbols<'_>,
    section: usize,
    begin: usize,
) -> Result<Option<Function>, ObjectError> {
    match symbol_at(symbols, section, begin)? {
        Some(symbol) => Ok(Some(function_of(object, &symbol)?)),
        None => Ok(None),
    }
}

/// The symbol of the function that begins at an offset of a section: of several one that has a size, since clang makes empty functions of those
/// that never return.
pub(crate) fn symbol_at(
    symbols: &Symbols<'_>,
    section: usize,
    begin: usize,
) -> Result<Option<Symbol>, ObjectError> {
    let mut found = None;
    for number in 0..symbols.count() {
        let symbol = symbols.symbol(number)?;
        if symbol.is_function() && symbol.section == section && symbol.value == begin {
            if symbol.size > 0 {
                return Ok(Some(symbol));
            }
            found = Some(symbol);
        }
    }
    Ok(found)
}
