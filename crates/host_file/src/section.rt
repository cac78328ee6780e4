ghost use Rattle.std.specs.Prelude.{◌≡◌, ◌↔◌, ℕ, option_map, Any, IfErr, IfNone, IfOk, IfSome, IsSome, IsTrue, OnOk, Option};
ghost use Rattle.toml.specs.Data.{Data, Items, Members, array, table};
ghost use Rattle.toml.specs.View.{view, array_view, table_view};
ghost use Rattle.host_file.specs.Faults.{MeansNone, Refutes};
ghost use Rattle.host_file.specs.HostFile.{HasAnyNumber, HasFlagOr, HasHex, HasNumber, HasNumberOr, HasOnly, HasString, IsNumber, key_name, value_at};
ghost use Rattle.host_file.specs.Section.{members_of};
ghost use Rattle.host_file.specs.declared.fault.FileFault.TheVariants.{Bad};

use crate::fault::{BadFile, Cause, FileFault, Location};
use crate::key::Key;
use hex::FromHexError;
use host_types::Bytes;
use std::alloc::{AllocError, Global};
use terminal_text::quoted;
use toml::value::Array;
use toml::{Table, Value};

/// A table of a host file, and where it stands.
#[derive(Drop)]
pub struct Section<'a> {
    table: &'a Table,
    location: Location,
}

impl<'a> Section<'a> {
    pub fn new(table: &'a Table, location: Location) -> Self
        ensures table { members_of result ≡ table_view table.now }
        ensures location { result.location ≡ location }
    {
        Section { table, location }
    }

    /// The fault that this is wrong here.
    pub fn bad(&self, cause: Cause) -> FileFault
        ensures { result ≡ Bad (record { location = self.now.location; cause = cause }) }
    {
        FileFault::Bad(BadFile {
            location: self.location,
            cause,
        })
    }

    fn get(&self, key: Key) -> Option<&'a Value>
        ensures { option_map (λ value. view value.now) result ≡ value_at (members_of self.now) key }
    {
        self.table.get(key.name())
    }

    /// Refuses a table with another key than these.
    pub fn require_only(&self, alloc: Global, keys: &[Key]) -> Result<(), FileFault>
        ensures only { OnOk result (HasOnly (members_of self.now) keys.now) }
        ensures bad { IfErr result (Refutes (HasOnly (members_of self.now) keys.now)) }
    {
        match self.other_key(keys) {
            None => Ok(()),
            Some(name) => Err(self.bad(Cause::Unknown(quoted(alloc, name)?))),
        }
    }

    /// The first key that is none of these.
    fn other_key(&self, keys: &[Key]) -> Option<&'a str>
        ensures none { IfNone result (HasOnly (members_of self.now) keys.now) }
        ensures other { IsSome result → HasOnly (members_of self.now) keys.now → ⊥ }
    {
        for (name, _) in self.table {
            if !is_among(keys, name.as_str()) {
                return Some(name.as_str());
            }
        }
        None
    }

    fn require(&self, key: Key) -> Result<&'a Value, FileFault>
        ensures read { IfOk result (λ value. value_at (members_of self.now) key ≡ Some (view value.now)) }
        ensures bad { IfErr result (MeansNone (λ (value : Data). value_at (members_of self.now) key ≡ Some value)) }
    {
        match self.get(key) {
            Some(value) => Ok(value),
            None => Err(self.bad(Cause::Missing(key))),
        }
    }

    /// The table at a key, if there is one.
    pub fn table(&self, key: Key) -> Result<Option<&'a Table>, FileFault>
        ensures read { IfOk result (λ found. value_at (members_of self.now) key ≡ option_map (λ t. table (table_view t.now)) found) }
        ensures bad { IfErr result (MeansNone (λ (found : Option Members). value_at (members_of self.now) key ≡ option_map table found)) }
    {
        match self.get(key) {
            None => Ok(None),
            Some(value) => match value.as_table() {
                Some(table) => Ok(Some(table)),
                None => Err(self.bad(Cause::NotTable(key))),
            },
        }
    }

    /// The array at a key, if there is one.
    pub fn array(&self, key: Key) -> Result<Option<&'a Array>, FileFault>
        ensures read { IfOk result (λ found. value_at (members_of self.now) key ≡ option_map (λ t. array (array_view t.now)) found) }
        ensures bad { IfErr result (MeansNone (λ (found : Option Items). value_at (members_of self.now) key ≡ option_map array found)) }
    {
        match self.get(key) {
            None => Ok(None),
            Some(value) => match value.as_array() {
                Some(array) => Ok(Some(array)),
                None => Err(self.bad(Cause::NotTables(key))),
            },
        }
    }

    /// The number at a key.
    pub fn number(&self, key: Key) -> Result<u32, FileFault>
        ensures read { IfOk result (HasNumber (members_of self.now) key) }
        ensures bad { IfErr result (MeansNone (HasNumber (members_of self.now) key)) }
    {
        let value = self.require(key)?;
        number_of(value).ok_or(self.bad(Cause::NotNumber(key)))
    }

    /// The number at a key, or a default where the key is missing.
    pub fn number_or(&self, key: Key, default: u32) -> Result<u32, FileFault>
        ensures read { IfOk result (HasNumberOr default (members_of self.now) key) }
        ensures bad { IfErr result (MeansNone (HasNumberOr default (members_of self.now) key)) }
    {
        match self.get(key) {
            None => Ok(default),
            Some(value) => number_of(value).ok_or(self.bad(Cause::NotNumber(key))),
        }
    }

    /// The number at a key, if there is one.
    pub fn any_number(&self, key: Key) -> Result<Option<u32>, FileFault>
        ensures read { IfOk result (HasAnyNumber (members_of self.now) key) }
        ensures bad { IfErr result (MeansNone (HasAnyNumber (members_of self.now) key)) }
    {
        match self.get(key) {
            None => Ok(None),
            Some(value) => match number_of(value) {
                Some(number) => Ok(Some(number)),
                None => Err(self.bad(Cause::NotNumber(key))),
            },
        }
    }

    /// Whether it is true at a key, or a default where the key is missing.
    pub fn flag_or(&self, key: Key, default: bool) -> Result<bool, FileFault>
        ensures read { IfOk result (HasFlagOr default (members_of self.now) key) }
        ensures bad { IfErr result (MeansNone (HasFlagOr default (members_of self.now) key)) }
    {
        match self.get(key) {
            None => Ok(default),
            Some(value) => match value {
                Value::Boolean(flag) => Ok(*flag),
                _ => Err(self.bad(Cause::NotBoolean(key))),
            },
        }
    }

    /// The string at a key.
    pub fn text(&self, key: Key) -> Result<&'a str, FileFault>
        ensures read { IfOk result (λ text. HasString (members_of self.now) key text.now) }
        ensures bad { IfErr result (MeansNone (HasString (members_of self.now) key)) }
    {
        let value = self.require(key)?;
        match value.as_str() {
            Some(text) => Ok(text),
            None => Err(self.bad(Cause::NotString(key))),
        }
    }

    /// The bytes of the hex text at a key.
    pub fn bytes(&self, alloc: Global, key: Key) -> Result<Bytes, FileFault>
        ensures read { IfOk result (HasHex (members_of self.now) key) }
        ensures bad { IfErr result (MeansNone (HasHex (members_of self.now) key)) }
    {
        let text = self.text(key)?;
        match hex::decode(alloc, text) {
            Ok(bytes) => Ok(Bytes::from(bytes)),
            Err(FromHexError::OutOfMemory) => Err(FileFault::OutOfMemory(AllocError)),
            Err(error) => Err(self.bad(Cause::NotHex(key, error))),
        }
    }
}

/// Whether a name is that of one of the keys.
fn is_among(keys: &[Key], name: &str) -> bool
    ensures { IsTrue result ↔ Any (λ key. key_name key ≡ name.now) keys.now }
{
    keys.iter().any(|key| key.name() == name)
}

/// The number that a value is.
fn number_of(value: &Value) -> Option<u32>
    ensures some { IfSome result (IsNumber (view value.now)) }
    ensures none { IfNone result ((n : ℕ) → IsNumber (view value.now) n → ⊥) }
{
    match value {
        Value::Integer(number) => u32::try_from(*number).ok(),
        _ => None,
    }
}
