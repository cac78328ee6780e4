ghost use Rattle.std.specs.Prelude.{◌≡◌, ◌+◌, ◌<◌, ◌≤◌, ℕ, true, false, [], ◌∷◌, length, Some, None, slice_get, IfOk, OnOk, IfErr, IfSome, IfNone, MatchOption};
ghost use Rattle.atomic_table.specs.Seated.{TableId};
ghost use Rattle.page_table.specs.State.{MemoryState, part};
ghost use Rattle.host_types.specs.Tenant.{AreFlatMaps};
ghost use Rattle.turn.specs.Views.{RemembersParts, AreThere, HasMaps, Spares, new_view, holding, resting};
ghost use Rattle.turn.specs.Seats.{SeatState, took, gave, IsNewSeat, RefusesTurn};
ghost use Rattle.turn.specs.Held.{memory_of, IsBy, IsTaken};

use crate::bell::Bell;
use crate::boxed::Boxed;
use crate::held::Held;
use crate::rule::{CutNone, CutTenant, Give, InTurn, Take};
use crate::seat::{HostSeat, Kind, ScanSeat, Seat, SeatOf};
use crate::view::View;
use atomic_table::{Refused, Table};
use host_types::Fault;
use page_table::Memory;
use std::alloc::{AllocError, Global};
use std::hint::spin_loop;
use std::marker::{Model, PhantomData};
use std::snapshot::Snapshot;
use std::sync::Wait;

/// The word while the memory is home.
const HOME: u64 = 0;

/// The word while the memory is out.
const OUT: u64 = 1;

/// How many pauses a loser makes before each further try, before it sleeps. By the processor a pause takes 4 to 45 nanoseconds, so eight tries
/// take 0.2 to 2.4 milliseconds. While a loser pauses it doesn't look at the word, so that the word's cache line, and those of the memory, stay
/// with the thread that takes turns one after the other: moving them to another thread takes as long as dozens of turns.
const PAUSES: [u32; 8] = [1024, 4096, 8192, 8192, 8192, 8192, 8192, 8192];

/// How often a loser looks at the word before that.
const LOOKS: u32 = 4;

/// How many pauses it makes before each of these looks.
const SHORT_PAUSES: u32 = 8;

type Token = atomic_table::Seat<Option<Boxed>, View>;

/// The one memory, which threads take in turns. Contracts see which turn it is.
#[derive(Drop)]
pub struct Turn {
    table: Table<Option<Boxed>, View, Snapshot<Memory>, InTurn, Global>,
    bell: Bell,
}

impl Model for Turn {
    ghost Value = { TableId };

    ghost view = { λ turn. turn.table.shared.table_id };

    ghost invariant = { λ turn. (turn.table.shared.table_id.words ≡ 1) × (turn.table.shared.table_id.slots ≡ 1) };
}

impl Turn {
    /// A turn over a memory, with a seat for each of its tenants, one for the scanner and one for
    /// the host.
    ///
    /// Refusals in their order: `BadShape` where there aren't as many tenants as the memory has,
    /// `OutOfMemory` where memory ran out. A refusal drops the memory.
    pub fn new(
        alloc: Global,
        memory: Memory,
        tenants: u32,
    ) -> Result<(Turn, Vec<Seat>, ScanSeat, HostSeat), Fault>
        ensures count { IfOk result (λ r. length r.1.items ≡ tenants) }
        ensures seats { IfOk result (λ r. (t : ℕ) →
            IfSome (slice_get r.1.items t) (IsNewSeat r.0 t (t + 1) memory)) }
        ensures scanner { IfOk result (λ r. IsNewSeat r.0 tenants tenants memory r.2) }
        ensures host { IfOk result (λ r. IsNewSeat r.0 tenants tenants memory r.3) }
        ensures tenants { OnOk result (tenants ≡ length memory.tenants) }
        ensures err { IfErr result (RefusesTurn memory tenants) }
    {
        memory.maps_are_flat();
        if tenants != memory.tenants() {
            return Err(Fault::BadShape);
        }
        match Turn::open(alloc, memory, tenants) {
            Ok(opened) => Ok(opened),
            Err(AllocError) => Err(Fault::OutOfMemory),
        }
    }

    fn open(
        alloc: Global,
        memory: Memory,
        tenants: u32,
    ) -> Result<(Turn, Vec<Seat>, ScanSeat, HostSeat), AllocError>
        requires tenants { tenants ≡ length memory.tenants }
        requires maps { (t : ℕ) → t < tenants → AreFlatMaps (part memory t).maps }
        ensures count { IfOk result (λ r. length r.1.items ≡ tenants) }
        ensures seats { IfOk result (λ r. (t : ℕ) →
            IfSome (slice_get r.1.items t) (IsNewSeat r.0 t (t + 1) memory)) }
        ensures scanner { IfOk result (λ r. IsNewSeat r.0 tenants tenants memory r.2) }
        ensures host { IfOk result (λ r. IsNewSeat r.0 tenants tenants memory r.3) }
    {
        let mut seats = Vec::with_capacity(alloc, tenants as usize)?;
        let (turn, mut rest) = Turn::begin(alloc, memory)?;
        for tenant in 0..tenants {
            seats.push(turn.cut_tenant(&mut rest, tenant))?;
        }
        let scanner = turn.cut_scanner(&mut rest, tenants);
        let host = SeatOf {
            token: rest,
            tenant: tenants,
            kind: PhantomData,
        };
        Ok((turn, seats, scanner, host))
    }

    /// A turn with the memory home, and a token for all its tenants.
    fn begin(alloc: Global, memory: Memory) -> Result<(Turn, Token), AllocError>
        ensures turn { IfOk result (λ r. r.1.table_id ≡ r.0) }
        ensures all { IfOk result (λ r. r.1.me ≡ (new_view 0 (length memory.tenants) memory, [])) }
    {
        let bell = Bell::new(alloc)?;
        let key = Snapshot::of(&memory);
        let mut slots = Vec::with_capacity(alloc, 1)?;
        let memory = Box::new(alloc, memory)?;
        slots.push(Some(Boxed { memory }))?;
        match Table::new(alloc, &[HOME], slots, &key) {
            Ok((table, token)) => {
                let turn = Turn { table, bell };
                Ok((turn, token))
            }
            Err(Refused { slots: _ }) => Err(AllocError),
        }
    }

    /// Cuts the seat of the first tenant off a token.
    fn cut_tenant(&self, rest: &mut Token, tenant: u32) -> Seat
        requires turn { rest.old.table_id ≡ self.now }
        requires first { rest.old.me.0.first ≡ tenant }
        requires some { tenant < rest.old.me.0.end }
        requires idle { rest.old.me.0.holds ≡ false }
        requires none { rest.old.me.0.turns ≡ [] }
        requires maps { AreFlatMaps (part rest.old.me.0.seen tenant).maps }
        ensures turn { rest.new.table_id ≡ rest.old.table_id }
        ensures rest { rest.new.me ≡ (new_view (tenant + 1) rest.old.me.0.end rest.old.me.0.seen, rest.old.me.1) }
        ensures seat { IsNewSeat self.now tenant (tenant + 1) rest.old.me.0.seen result }
    {
        SeatOf {
            token: self.table.shared.split_seat::<CutTenant>(rest),
            tenant,
            kind: PhantomData,
        }
    }

    /// Cuts a seat of no tenant off a token.
    fn cut_scanner(&self, rest: &mut Token, tenants: u32) -> ScanSeat
        requires turn { rest.old.table_id ≡ self.now }
        requires first { rest.old.me.0.first ≡ tenants }
        requires idle { rest.old.me.0.holds ≡ false }
        requires none { rest.old.me.0.turns ≡ [] }
        ensures turn { rest.new.table_id ≡ rest.old.table_id }
        ensures rest { rest.new.me ≡ rest.old.me }
        ensures seat { IsNewSeat self.now tenants tenants rest.old.me.0.seen result }
    {
        SeatOf {
            token: self.table.shared.split_seat::<CutNone>(rest),
            tenant: tenants,
            kind: PhantomData,
        }
    }

    /// Takes the memory, and sleeps until it is home. Whoever slept asks for a ring before it gives, since others
    /// may sleep.
    pub fn take<K: Kind>(&self, rt: &impl Wait, seat: &mut SeatOf<K>) -> Held
        requires turn { seat.old.turn ≡ self.now }
        requires free { seat.old.view.holds ≡ false }
        ensures seat { seat.new ≡ took seat.old (memory_of result) }
        ensures by { IsBy result seat.old }
        ensures known { RemembersParts seat.old.view (memory_of result) }
        ensures maps { HasMaps seat.old.view (memory_of result) }
    {
        if let Some(held) = self.try_take(seat) {
            return held;
        }
        if let Some(held) = self.take_soon(seat) {
            return held;
        }
        for _ in rt.forever() {
            self.bell.ask();
            if let Some(held) = self.try_take(seat) {
                return held;
            }
            self.bell.sleep(rt);
            if let Some(held) = self.take_soon(seat) {
                self.bell.ask();
                return held;
            }
        }
        unreachable!()
    }

    /// Tries at once where nobody seems to take one turn after the other, and then a few times with longer and longer pauses.
    fn take_soon<K: Kind>(&self, seat: &mut SeatOf<K>) -> Option<Held>
        requires turn { seat.old.turn ≡ self.now }
        requires free { seat.old.view.holds ≡ false }
        ensures { MatchOption result (seat.new ≡ seat.old) (IsTaken seat.old seat.new) }
    {
        if self.stays_home() {
            if let Some(held) = self.try_take(seat) {
                return Some(held);
            }
        }
        for pauses in PAUSES {
            pause(pauses);
            if let Some(held) = self.try_if_home(seat) {
                return Some(held);
            }
        }
        None
    }

    /// Whether the memory is home at a few looks, one shortly after the other: then turns are rare now, and a long pause would be in vain.
    fn stays_home(&self) -> bool {
        for _look in 0..LOOKS {
            pause(SHORT_PAUSES);
            if self.table.shared.peek(0) != HOME {
                return false;
            }
        }
        true
    }

    /// Tries to take the memory where a look at the word finds it home: a look costs the others less than a try.
    fn try_if_home<K: Kind>(&self, seat: &mut SeatOf<K>) -> Option<Held>
        requires turn { seat.old.turn ≡ self.now }
        requires free { seat.old.view.holds ≡ false }
        ensures { MatchOption result (seat.new ≡ seat.old) (IsTaken seat.old seat.new) }
    {
        if self.table.shared.peek(0) == HOME {
            self.try_take(seat)
        } else {
            None
        }
    }

    /// Tries once to take the memory, and waits for nobody. `None` comes only after a lost try.
    pub fn try_take<K: Kind>(&self, seat: &mut SeatOf<K>) -> Option<Held>
        requires turn { seat.old.turn ≡ self.now }
        requires free { seat.old.view.holds ≡ false }
        ensures none { IfNone result (seat.new ≡ seat.old) }
        ensures seat { IfSome result (λ held. seat.new ≡ took seat.old (memory_of held)) }
        ensures by { IfSome result (λ held. IsBy held seat.old) }
        ensures known { IfSome result (λ held. RemembersParts seat.old.view (memory_of held)) }
        ensures maps { IfSome result (λ held. HasMaps seat.old.view (memory_of held)) }
    {
        let memory = self.take_out(&mut seat.token)?;
        let by = Snapshot::of(&seat.token);
        Some(Held { memory, by })
    }

    /// Writes `OUT` where the memory is home, and then empties the slot. `None` where it was out.
    fn take_out(&self, token: &mut Token) -> Option<Box<Memory>>
        requires turn { token.old.table_id ≡ self.now }
        requires empty { token.old.me.1 ≡ [] }
        ensures none { IfNone result (token.new.me ≡ token.old.me) }
        ensures same { (token.new.table_id ≡ token.old.table_id) × (token.new.id ≡ token.old.id) }
        ensures won { IfSome result (λ memory.
            token.new.me ≡ (holding token.old.me.0 memory.value, (0, None) ∷ [])) }
        ensures known { IfSome result (λ memory. RemembersParts token.old.me.0 memory.value) }
    {
        let shared = &self.table.shared;
        let found = shared.compare_exchange::<Take>(token, 0, HOME, OUT);
        if found != HOME {
            return None;
        }
        let Boxed { memory } = shared.exchange(token, 0, None)?;
        Some(memory)
    }

    /// Gives the memory back, and waits for nobody.
    pub fn give<K: Kind>(&self, seat: &mut SeatOf<K>, held: Held)
        requires turn { seat.old.turn ≡ self.now }
        requires holds { seat.old.view.holds ≡ true }
        requires by { IsBy held seat.old }
        requires others { Spares seat.old.view (memory_of held) }
        requires own { AreThere seat.old.view (memory_of held) }
        ensures { seat.new ≡ gave seat.old (memory_of held) }
    {
        held.memory().maps_are_flat();
        let Held { memory, by: _ } = held;
        self.put_back(&mut seat.token, memory);
        self.bell.ring();
    }

    /// Puts a memory into the slot that the token emptied, and then writes `HOME`.
    fn put_back(&self, token: &mut Token, memory: Box<Memory>)
        requires turn { token.old.table_id ≡ self.now }
        requires holds { token.old.me.0.holds ≡ true }
        requires empty { token.old.me.1 ≡ (0, None) ∷ [] }
        requires others { Spares token.old.me.0 memory.value }
        ensures same { (token.new.table_id ≡ token.old.table_id) × (token.new.id ≡ token.old.id) }
        ensures after { token.new.me ≡ (resting token.old.me.0 memory.value, []) }
    {
        let shared = &self.table.shared;
        let _empty = shared.exchange(token, 0, Some(Boxed { memory }));
        shared.store::<Give>(token, 0, HOME);
    }

    /// Ends the turn, and gives the memory if it is home. In it the seat's tenant has its part.
    pub fn close(self, seat: Seat) -> Option<Memory>
        requires { seat.turn ≡ self }
        ensures { IfSome result (λ memory. RemembersParts seat.view memory) }
    {
        let Turn { table, bell: _ } = self;
        let SeatOf {
            token,
            tenant: _,
            kind: _,
        } = seat;
        let mut closed = table.close_with(token);
        let word = closed.word(0);
        let home = closed.take(0);
        closed.free();
        if word != HOME {
            return None;
        }
        let Boxed { memory } = home?;
        Some(Box::into_inner(memory))
    }
}

/// Makes so many pauses.
fn pause(pauses: u32) {
    for _pause in 0..pauses {
        spin_loop();
    }
}
