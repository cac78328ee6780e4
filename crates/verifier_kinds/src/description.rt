ghost use Rattle.std.specs.Prelude.{◌≡◌, ◌↔◌, ℕ, IsTrue, map, option_map, slice_index_or};
ghost use Rattle.verifier_kinds.specs.Kinds.{IsBelow};
ghost use Rattle.verifier_kinds.specs.Descriptions.{IsDescriptionBelow, IsSlotBelow, join_of, join_of_registers, join_of_slots, joined_with, resolved_kind, resolved_slot};

use crate::kind::Kind;

/// What is known of eight aligned bytes of the stack.
#[derive(Clone, Copy, PartialEq, Eq)]
pub enum StackSlot {
    /// All eight bytes are written, and their number is of this kind.
    Kept(Kind),
    /// The bytes whose bits are set are written.
    Bytes(u8),
}

impl StackSlot {
    ghost use Rattle.verifier_kinds.specs.Descriptions.{number_bytes};

    /// The bytes that are known to hold numbers, by the bits of a number: of a kept pointer none.
    fn mask(self) -> u8
        ensures { result ≡ number_bytes self }
    {
        match self {
            StackSlot::Kept(Kind::Scalar(_)) => u8::MAX,
            StackSlot::Kept(_) => 0,
            StackSlot::Bytes(set) => set,
        }
    }

    /// The least slot above two.
    pub fn join(self, other: StackSlot) -> StackSlot
        ensures { result ≡ join_of_slots self other }
    {
        match (self, other) {
            (StackSlot::Kept(a), StackSlot::Kept(b)) => match a.join(b) {
                Some(kind) => StackSlot::Kept(kind),
                None => StackSlot::Bytes(0),
            },
            _ => StackSlot::Bytes(self.mask() & other.mask()),
        }
    }

    /// Whether the slot says at least as much as another.
    pub fn is_below(self, other: StackSlot) -> bool
        ensures { IsTrue result ↔ IsSlotBelow self other }
    {
        match other {
            StackSlot::Kept(outer) => match self {
                StackSlot::Kept(inner) => inner.is_below(outer),
                StackSlot::Bytes(_) => false,
            },
            StackSlot::Bytes(set) => self.mask() & set == set,
        }
    }
}

/// What is known at a slot of a program: a kind for each register, `None` where nothing is known,
/// and the 64 slots of the stack, the lowest address first.
#[derive(Clone, Copy, PartialEq, Eq)]
pub struct Description {
    pub registers: [Option<Kind>; 11],
    pub stack: [StackSlot; 64],
}

impl Description {
    ghost use Rattle.std.specs.Prelude.{◌<◌, ◌≤◌};
    ghost use Rattle.verifier_kinds.specs.Kinds.{IsKind};
    ghost use Rattle.verifier_kinds.specs.Descriptions.{IsDescription, IsSlot, register_of, with_answer_known, slot_of, start_description, with_kind, with_slot, with_unset};

    /// What is known where a program begins: R1 is the context's address, R10 the stack's end.
    pub fn start() -> Description
        ensures start { result ≡ start_description }
        ensures description { IsDescription result }
    {
        let mut registers = [None; 11];
        registers[1] = Some(Kind::Context(0));
        registers[10] = Some(Kind::Stack(0));
        Description {
            registers,
            stack: [StackSlot::Bytes(0); 64],
        }
    }

    /// What is known of a register.
    pub fn register(&self, i: u8) -> Option<Kind>
        requires { i ≤ 10 }
        ensures { result ≡ register_of self.now i }
    {
        self.registers[usize::from(i)]
    }

    /// Makes a register known to be of a kind.
    pub fn set_register(&mut self, i: u8, kind: Kind)
        requires { i ≤ 10 }
        ensures set { self.new ≡ with_kind self.old i kind }
        ensures description { IsDescription self.old → IsKind kind → IsDescription self.new }
    {
        self.registers[usize::from(i)] = Some(kind);
    }

    /// Forgets what is known of a register.
    pub fn unset_register(&mut self, i: u8)
        requires { i ≤ 10 }
        ensures set { self.new ≡ with_unset self.old i }
        ensures description { IsDescription self.old → IsDescription self.new }
    {
        self.registers[usize::from(i)] = None;
    }

    /// Makes it known of what kind the answer of a call is: of each register and each slot of the
    /// stack that keeps it.
    pub fn resolve(&mut self, call: u32, kind: Kind)
        ensures with_answer_known { self.new ≡ with_answer_known call kind self.old }
        ensures description { IsDescription self.old → IsKind kind → IsDescription self.new }
    {
        self.registers = resolved_registers(&self.registers, call, kind);
        self.stack = resolved_stack(&self.stack, call, kind);
    }

    /// What is known of a slot of the stack, the lowest address first.
    pub fn slot(&self, k: usize) -> StackSlot
        requires { k < 64 }
        ensures { result ≡ slot_of self.now k }
    {
        self.stack[k]
    }

    /// Replaces what is known of a slot of the stack.
    pub fn set_slot(&mut self, k: usize, slot: StackSlot)
        requires { k < 64 }
        ensures set { self.new ≡ with_slot self.old k slot }
        ensures description { IsDescription self.old → IsSlot slot → IsDescription self.new }
    {
        self.stack[k] = slot;
    }

    /// The least description above two.
    pub fn join(&self, other: &Description) -> Description
        ensures { result ≡ join_of self.now other.now }
    {
        Description {
            registers: joined_registers(&self.registers, &other.registers),
            stack: joined_stack(&self.stack, &other.stack),
        }
    }

    /// Whether the description says at least as much as another, of each register and each slot.
    pub fn is_below(&self, other: &Description) -> bool
        ensures { IsTrue result ↔ IsDescriptionBelow self.now other.now }
    {
        are_registers_below(&self.registers, &other.registers)
            && is_stack_below(&self.stack, &other.stack)
    }
}

impl Kind {
    /// The kind once it is known of what kind the answer of a call is.
    fn resolved(self, call: u32, kind: Kind) -> Kind
        ensures { result ≡ resolved_kind call kind self }
    {
        match self {
            Kind::MaybeValue { call: c, .. } if c == call => kind,
            _ => self,
        }
    }
}

/// The same of a register of which something may be known.
fn resolved_register(known: Option<Kind>, call: u32, kind: Kind) -> Option<Kind>
    ensures { result ≡ option_map (resolved_kind call kind) known }
{
    Some(known?.resolved(call, kind))
}

/// The same of a slot of the stack.
fn resolved_slot(slot: StackSlot, call: u32, kind: Kind) -> StackSlot
    ensures { result ≡ resolved_slot call kind slot }
{
    match slot {
        StackSlot::Kept(kept) => StackSlot::Kept(kept.resolved(call, kind)),
        StackSlot::Bytes(set) => StackSlot::Bytes(set),
    }
}

fn resolved_registers(a: &[Option<Kind>; 11], call: u32, kind: Kind) -> [Option<Kind>; 11]
    ensures { result ≡ map (option_map (resolved_kind call kind)) a.now }
{
    let mut registers = [None; 11];
    for i in 0..11 {
        registers[i] = resolved_register(a[i], call, kind);
    }
    registers
}

fn resolved_stack(a: &[StackSlot; 64], call: u32, kind: Kind) -> [StackSlot; 64]
    ensures { result ≡ map (resolved_slot call kind) a.now }
{
    let mut stack = [StackSlot::Bytes(0); 64];
    for k in 0..64 {
        stack[k] = resolved_slot(a[k], call, kind);
    }
    stack
}

/// The least knowledge of a register above two.
fn joined(a: Option<Kind>, b: Option<Kind>) -> Option<Kind>
    ensures { result ≡ join_of_registers a b }
{
    match (a, b) {
        (Some(a), Some(b)) => a.join(b),
        _ => None,
    }
}

fn joined_registers(a: &[Option<Kind>; 11], b: &[Option<Kind>; 11]) -> [Option<Kind>; 11]
    ensures { result ≡ joined_with join_of_registers a.now b.now }
{
    let mut registers = [None; 11];
    for i in 0..11 {
        registers[i] = joined(a[i], b[i]);
    }
    registers
}

fn joined_stack(a: &[StackSlot; 64], b: &[StackSlot; 64]) -> [StackSlot; 64]
    ensures { result ≡ joined_with join_of_slots a.now b.now }
{
    let mut stack = [StackSlot::Bytes(0); 64];
    for k in 0..64 {
        stack[k] = a[k].join(b[k]);
    }
    stack
}

/// Whether as much is known of a register as another knowledge says.
fn is_known(a: Option<Kind>, b: Option<Kind>) -> bool
    ensures { IsTrue result ↔ IsBelow a b }
{
    match b {
        Some(outer) => match a {
            Some(inner) => inner.is_below(outer),
            None => false,
        },
        None => true,
    }
}

fn are_registers_below(a: &[Option<Kind>; 11], b: &[Option<Kind>; 11]) -> bool
    ensures { IsTrue result
        ↔ ((i : ℕ) → IsBelow (slice_index_or a.now i None) (slice_index_or b.now i None)) }
{
    for i in 0..11 {
        if !is_known(a[i], b[i]) {
            return false;
        }
    }
    true
}

fn is_stack_below(a: &[StackSlot; 64], b: &[StackSlot; 64]) -> bool
    ensures { IsTrue result
        ↔ ((k : ℕ) → IsSlotBelow (slice_index_or a.now k (StackSlot.Bytes 0)) (slice_index_or b.now k (StackSlot.Bytes 0))) }
{
    for k in 0..64 {
        if !a[k].is_below(b[k]) {
            return false;
        }
    }
    true
}
