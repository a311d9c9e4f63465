ghost use Rattle.std.specs.Prelude.{◌≡◌, ◌≢◌, ◌+◌, ◌<◌, ◌≤◌, true, MatchOption, IsSomeAnd, [], ◌∷◌, length, IfOk, Some};
ghost use Rattle.turn_lock.specs.Histories.{Begins};
ghost use Rattle.turn_lock.specs.Passes.{all_shares, first_known, left_known, split_known, joined_known};
ghost use Rattle.turn_lock.specs.Views.{is_idle};

use crate::call::call;
use crate::kept::Kept;
use crate::rule::{AddEntries, DrawTicket, PassTurn, ReadLength, ReadServing, Shares, TurnRule};
use crate::view::View;
use atomic_table::{Refused, Seat, Table};
pub use std::alloc::AllocError as NoMemory;
use std::alloc::Global;
use std::snapshot::Snapshot;
use std::sync::Wait;

// The words of the table.
const NEXT: usize = 0;

const SERVED: usize = 1;

const LENGTH: usize = 2;

/// A value that passes take turns on.
#[derive(Drop)]
pub struct Turn<V: Kept> {
    table: Table<V, View<V::Entry, V::Tag>, Snapshot<V>, TurnRule<V>, Global>,
    ghost sized: { (table.shared.table_id.words ≡ 3) × (table.shared.table_id.slots ≡ 1) },
}

/// The right of one thread to a turn: what it has seen of the history, the entries that it added, and its shares.
#[derive(Drop)]
pub struct Pass<V: Kept> {
    seat: Seat<V, View<V::Entry, V::Tag>>,
    own: u64,
    shares: u64,
    ghost rests: { (is_idle seat.me.0.stage ≡ true) × (length seat.me.1 ≡ 0) },
    ghost counts: { (seat.me.0.own ≡ own) × (seat.me.0.shares ≡ shares) },
    ghost has_share: { 0 < shares },
}

/// What is left of a turn: the value, the entries that its last pass counts, and the shares that it lacks.
#[derive(Drop)]
pub struct Closed<V> {
    pub value: Option<V>,
    pub own: u64,
    pub missing: u64,
}

impl<V: Kept> Pass<V> {
    ghost use Rattle.turn_lock.specs.Turns.{known};

    /// The number of entries that were added under this pass and those that were joined to it.
    pub fn own(&self) -> u64
        ensures { result ≡ (known self.now).own }
    {
        self.own
    }

    /// The pass may be split where it has two.
    pub fn shares(&self) -> u64
        ensures shares { result ≡ (known self.now).shares }
        ensures has_one { 0 < result }
    {
        self.shares
    }
}

impl<V: Kept + Drop> Turn<V> {
    ghost use Rattle.turn_lock.specs.Turns.{known, IsPassOf, tag_of};
    ghost use Rattle.turn_lock.specs.Jobs.{KeepsOn, Keeps, Ran};
    ghost use Rattle.turn_lock.specs.Holding.{IsWaiting, IsHolding, Came, Worked};

    /// Where memory is wanted the value is dropped.
    pub fn new(alloc: Global, value: V) -> Result<(Turn<V>, Pass<V>), NoMemory>
        requires fits { V.fits (V.tag value) value }
        requires empty { V.history value ≡ [] }
        ensures turn { IfOk result (λ made. IsPassOf made.0 made.1 × (tag_of V.tag made.0 ≡ V.tag value)) }
        ensures pass { IfOk result (λ made. known made.1 ≡ first_known) }
    {
        let opening = Snapshot::of(&value);
        let mut slots = Vec::with_capacity(alloc, 1)?;
        slots.push_reserved(value);
        match Table::new(alloc, &[0, 0, 0], slots, &opening) {
            Ok((table, seat)) => Ok((
                Turn { table },
                Pass {
                    seat,
                    own: 0,
                    shares: 1 << 32,
                },
            )),
            Err(Refused { slots: _ }) => Err(NoMemory),
        }
    }

    /// Takes no memory, and waits for nobody.
    pub fn split(&self, pass: &mut Pass<V>) -> Pass<V>
        requires turn { IsPassOf self.now pass.old }
        requires two { 2 ≤ (known pass.old).shares }
        ensures left { IsPassOf self.now pass.new × (known pass.new ≡ left_known (known pass.old)) }
        ensures split { IsPassOf self.now result × (known result ≡ split_known (known pass.old)) }
    {
        let seat = self.table.shared.split_seat::<Shares>(&mut pass.seat);
        pass.shares -= 1;
        let (own, shares) = (0, 1);
        Pass { seat, own, shares }
    }

    /// The second pass ends.
    pub fn join(&self, into: &mut Pass<V>, other: Pass<V>)
        requires turn { IsPassOf self.now into.old }
        requires other { IsPassOf self.now other }
        ensures joined { IsPassOf self.now into.new
            × (known into.new ≡ joined_known (known into.old) (known other)) }
        ensures one_history { Begins (known into.old).seen (known into.new).seen
            × Begins (known other).seen (known into.new).seen }
        ensures within_all { (known into.new).shares ≤ all_shares }
    {
        let Pass { seat, own, shares } = other;
        self.table.shared.join_seat::<Shares>(&mut into.seat, seat);
        // The sums fit: no pass has more entries than the history, or more shares than the turn.
        self.table.shared.load::<ReadLength>(&mut into.seat, LENGTH);
        into.own += own;
        into.shares += shares;
    }

    // Waits for the turn, and takes the value out.
    fn wait<W: Wait>(&self, rt: &W, seat: &mut Seat<V, View<V::Entry, V::Tag>>, ticket: u64)
        requires turn { (seat.old.table_id ≡ self.now.table.shared.table_id)
            × (seat.old.me.0.tag ≡ Some (tag_of V.tag self.now)) }
        requires waits { IsWaiting seat.old.me ticket × (0 < seat.old.me.0.shares) }
        ensures turn { seat.new.table_id ≡ seat.old.table_id }
        ensures came { Came V.fits V.history (tag_of V.tag self.now) seat.old.me seat.new.me }
    {
        for _ in rt.forever() {
            let served = self.table.shared.load::<ReadServing>(seat, SERVED);
            if served == ticket {
                return;
            }
            self.table
                .shared
                .park(rt, SERVED, (served % (1 << 32)) as u32);
        }
        unreachable!()
    }

    // Runs the job on the value that is held, and answers how many entries it added.
    fn work<R, F: FnOnce(&mut V) -> R>(
        &self,
        seat: &mut Seat<V, View<V::Entry, V::Tag>>,
        job: F,
    ) -> (R, u64)
        requires turn { seat.old.table_id ≡ self.now.table.shared.table_id }
        requires held { (lent : V) × IsHolding seat.old.me lent
            × KeepsOn (V.fits (tag_of V.tag self.now)) V.history F.FnOnce job lent }
        ensures turn { seat.new.table_id ≡ seat.old.table_id }
        ensures ran { (lent left : V) × (seat.old.me.1 ≡ (0, lent) ∷ [])
            × (seat.new.me ≡ (seat.old.me.0, (0, left) ∷ []))
            × Worked V.history F.FnOnce job lent left result.0 result.1 }
    {
        let value = seat.slot_mut(&self.table.shared, 0);
        let before = value.length();
        let answer = call(value, job);
        let after = value.length();
        (answer, after - before)
    }

    // Those who drew a ticket before the turn was passed may sleep; who draws one later finds its number served.
    fn wake(&self, served: u64) {
        if self.table.shared.peek(NEXT) != served.wrapping_add(1) {
            self.table.shared.wake_all(SERVED);
        }
    }

    /// Waits for the turn and runs the job on the value.
    pub fn hold<W: Wait, R, F: FnOnce(&mut V) -> R>(&self, rt: &W, pass: &mut Pass<V>, job: F) -> R
        requires turn { IsPassOf self.now pass.old }
        requires job { Keeps (V.fits (tag_of V.tag self.now)) V.history F.FnOnce (known pass.old).seen job }
        ensures turn { IsPassOf self.now pass.new }
        ensures ran { Ran (V.fits (tag_of V.tag self.now)) V.history F.FnOnce job result
            (known pass.old) (known pass.new) }
        ensures one_history { Begins (known pass.old).seen (known pass.new).seen }
    {
        let shared = &self.table.shared;
        let ticket = shared.fetch_add::<DrawTicket>(&mut pass.seat, NEXT, 1);
        self.wait(rt, &mut pass.seat, ticket);
        let (answer, added) = self.work(&mut pass.seat, job);
        shared.fetch_add::<AddEntries>(&mut pass.seat, LENGTH, added);
        pass.own += added;
        let served = shared.fetch_add::<PassTurn>(&mut pass.seat, SERVED, 1);
        self.wake(served);
        answer
    }

    /// Whoever still has a pass can hold the turn no more.
    pub fn close(self, pass: Pass<V>) -> Closed<V>
        requires { IsPassOf self pass }
        ensures value { MatchOption result.value (result.missing ≢ 0) (λ value. V.fits (tag_of V.tag self) value
            × Begins (known pass).seen (V.history value) × (result.own ≤ length (V.history value))) }
        ensures whole { result.missing ≡ 0 → IsSomeAnd result.value (λ value. result.own ≡ length (V.history value)) }
        ensures counts { (result.own ≡ (known pass).own) × (result.missing + (known pass).shares ≡ all_shares) }
    {
        let Turn { table } = self;
        let Pass { seat, own, shares } = pass;
        let mut closed = table.close_with(seat);
        let is_free = closed.word(NEXT) == closed.word(SERVED);
        let last = closed.take(0);
        closed.free();
        let value = if is_free {
            Some(last)
        } else {
            drop(last);
            None
        };
        Closed {
            value,
            own,
            missing: (1 << 32) - shares,
        }
    }
}
