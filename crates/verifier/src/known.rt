//! The kinds of the registers at each slot, of which each is stored once for as long as it stays.

ghost use Rattle.std.specs.Prelude.{◌≡◌, ◌≢◌, ℕ, ◌+◌, ◌<◌, ◌≤◌, IsTrue, length, slice_index, slice_index_or, None, OnOk};
ghost use Rattle.verifier.specs.Known.{AreNumbers, KeepsKinds, kinds_numbered};

use crate::table::Registers;
use std::alloc::{AllocError, Global};
use std::marker::Model;
use verifier_kinds::Kind;

/// The numbers of the kinds of the registers at a slot.
type Row = [u16; 11];

/// The kinds of the registers at each of some slots, and none where a slot isn't reached. Most instructions change one register, so a
/// register that keeps its kind from slot to slot keeps that kind's number, too.
#[derive(Drop)]
pub(crate) struct KnownKinds {
    kinds: Vec<Option<Kind>>,
    rows: Vec<Option<Row>>,
    last: Row,
}

impl Model for KnownKinds {
    ghost use Rattle.verifier.specs.Known.{HasRows, Kept, kept_in};

    ghost Value = { Kept };

    ghost view = { λ known. kept_in known.kinds.items known.rows.items };

    ghost invariant = { λ known. HasRows known.kinds.items known.rows.items known.last };
}

impl KnownKinds {
    ghost use Rattle.std.specs.Prelude.{◌≡◌, ◌<◌, ◌≤◌, ◌++◌, ◌∷◌, [], length, slice_index_or, Some, None, is_some, IfOk, OnOk};
    ghost use Rattle.verifier.specs.Known.{kind_in};

    /// Of no slot, with room for some.
    pub(crate) fn new(alloc: Global, slots: u32) -> Result<KnownKinds, AllocError>
        ensures { IfOk result (λ known. known ≡ []) }
    {
        let mut kinds = Vec::with_capacity(alloc, slots as usize)?;
        kinds.push(None)?;
        Ok(KnownKinds {
            kinds,
            rows: Vec::with_capacity(alloc, slots as usize)?,
            last: [0; 11],
        })
    }

    /// Adds a slot that isn't reached.
    pub(crate) fn push_unreached(&mut self) -> Result<(), AllocError>
        ensures { OnOk result (self.new ≡ self.old ++ None ∷ []) }
    {
        self.rows.push(None)?;
        Ok(())
    }

    /// Adds a slot with the kinds of its registers. A program has at most 4096 slots.
    pub(crate) fn push(&mut self, registers: &Registers) -> Result<(), AllocError>
        requires { length self.old < 4096 }
        ensures { OnOk result (self.new ≡ self.old ++ Some registers.now ∷ []) }
    {
        self.rows.push(None)?;
        number(&mut self.kinds, &mut self.last, registers)?;
        let added = self.rows.len() - 1;
        self.rows[added] = Some(self.last);
        Ok(())
    }

    /// Whether a slot is reached.
    pub(crate) fn is_reached(&self, slot: u32) -> bool
        ensures { result ≡ is_some (slice_index_or self.now slot None) }
    {
        matches!(self.rows.get(slot as usize), Some(Some(_)))
    }

    /// The kind of a register at a slot: none where nothing is known of it, or where the slot isn't reached.
    pub(crate) fn kind(&self, slot: u32, register: u8) -> Option<Kind>
        requires { register ≤ 10 }
        ensures { result ≡ kind_in (slice_index_or self.now slot None) register }
    {
        let row = self.rows.get(slot as usize)?.as_ref()?;
        self.kinds[usize::from(row[usize::from(register)])]
    }
}

/// Numbers the kinds of the registers at a slot. A register with the kind that it had before keeps the number.
fn number(
    kinds: &mut Vec<Option<Kind>>,
    row: &mut Row,
    registers: &Registers,
) -> Result<(), AllocError>
    requires numbers { AreNumbers kinds.old.items row.old }
    requires few { length kinds.old.items + 11 ≤ 65536 }
    ensures numbers { AreNumbers kinds.new.items row.new }
    ensures kept { KeepsKinds kinds.old.items kinds.new.items 11 }
    ensures numbered { OnOk result (kinds_numbered kinds.new.items row.new ≡ registers.now) }
{
    for register in 0..11 {
        number_one(kinds, row, register, &registers[register])?;
    }
    Ok(())
}

/// Numbers the kind of a register.
fn number_one(
    kinds: &mut Vec<Option<Kind>>,
    row: &mut Row,
    register: usize,
    kind: &Option<Kind>,
) -> Result<(), AllocError>
    requires numbers { AreNumbers kinds.old.items row.old }
    requires few { length kinds.old.items < 65536 }
    requires register { register < 11 }
    ensures numbers { AreNumbers kinds.new.items row.new }
    ensures kept { KeepsKinds kinds.old.items kinds.new.items 1 }
    ensures numbered { OnOk result (slice_index_or kinds.new.items (slice_index row.new register) None ≡ kind.now) }
    ensures others { (r : ℕ) → r ≢ register → slice_index row.new r ≡ slice_index row.old r }
{
    let known = &kinds[usize::from(row[register])];
    if !is_same(known, kind) {
        let number = kinds.len() as u16;
        kinds.push(*kind)?;
        row[register] = number;
    }
    Ok(())
}

/// Whether two kinds are the same, or both unknown.
fn is_same(a: &Option<Kind>, b: &Option<Kind>) -> bool
    ensures { IsTrue result → a.now ≡ b.now }
{
    match (a, b) {
        (Some(a), Some(b)) => a == b,
        (None, None) => true,
        _ => false,
    }
}
