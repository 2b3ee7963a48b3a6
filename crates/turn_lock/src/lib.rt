//! A lock whose history is proved. Each of its seats draws a ticket and waits until that ticket is served.
//! The seat then holds the value, and finds a history in it that begins with all that the seat has seen.
//!
//! `Told` says what a value has to tell. `open` makes a lock with its seats, `TurnLock::hold` waits for the value,
//! `Held::give_back` ends the turn, and `close` takes the value out once all seats are back.
//! The rule that every step keeps stands in `specs/Turn.antt`, and the words of the contracts in `specs/Seats.antt`.
//!
//! Proved: what each call finds and leaves, whatever the other threads do. Not proved: that a turn ever comes.
#![tactic(auto)]

ghost use Rattle.std.specs.Prelude.{◌≡◌, ℕ, List, length, Option};

mod close;
mod hold;
mod open;
mod plays;
#[cfg(test)]
mod tests;
mod turn;

use atomic_table::{Seat as Place, Shared, Table, TableRule};
use std::alloc::Global;
use std::collections::LinkedList;
use std::marker::PhantomData;
use std::snapshot::Snapshot;

/// A value that tells a history, a loan for each seat's number, and a badge.
///
/// A holder may add entries to the history, which tell its own number or none, and may change its own loan.
/// All else has to be as it was when the value is given back.
pub trait Told {
    /// What the history is a list of.
    type Entry;

    /// What a seat may have on loan. It is plain data, of which a contract speaks.
    type Loan;

    /// Plain data that no holder changes.
    type Badge;

    /// All that was added to the value, the oldest first.
    ghost history: { Self → List Self.Entry };

    /// The number of the seat that an entry tells, or 0.
    ghost by: { Self.Entry → ℕ };

    /// The loans, each at the place of its seat's number. Past the end there is none.
    ghost loans: { Self → List (Option Self.Loan) };

    ghost badge: { Self → Self.Badge };

    /// The length of the history.
    fn count(&self) -> u64
        ensures { result ≡ length (history self.now) };
}

/// How far a seat is with its turn. The numbers are tickets.
pub enum Stage<E> {
    Idle,
    Waits(u64),
    /// The ticket is the one that is served.
    Turn(u64),
    /// The value is out with the seat. Its history was this.
    Holds(u64, LinkedList<E>),
    /// The value is out with the seat. Its history is this, and is counted.
    Counted(u64, LinkedList<E>),
    /// The value is back, and the next ticket is not served yet.
    Home(u64),
}

/// What a seat knows. It stands in contracts alone: no value of it is made.
pub struct View<E, L, B> {
    /// From 1, in the order in which `open` gives the seats.
    pub number: u64,
    /// False of a seat that was taken in at the end.
    pub lives: bool,
    pub stage: Stage<E>,
    /// The history that the seat has seen.
    pub seen: LinkedList<E>,
    /// The entries of its number in that history.
    pub own: LinkedList<E>,
    /// How many holds it has begun.
    pub holds: u64,
    pub loan: Option<L>,
    /// Its loans that ended, the oldest first.
    pub ended: LinkedList<L>,
    /// The loans of all numbers, as its last hold found them.
    pub note: LinkedList<Option<L>>,
    pub badge: Option<B>,
    /// How many seats there are, in the first seat. In the others it is 0.
    pub made: u64,
    /// The numbers that the first seat took in, each with its entries and what it had seen.
    pub joined: LinkedList<(u64, LinkedList<E>, LinkedList<E>)>,
}

/// The words and the slot of a lock, on which a seat makes its steps.
type Board<V> = Shared<
    Option<V>,
    View<<V as Told>::Entry, <V as Told>::Loan, <V as Told>::Badge>,
    Snapshot<V>,
    Turns<V>,
>;

/// A seat's place at the table.
type PlaceOf<V> = Place<Option<V>, View<<V as Told>::Entry, <V as Told>::Loan, <V as Told>::Badge>>;

/// The rule of the table.
pub struct Turns<V> {
    of: PhantomData<V>,
}

impl<V: Told> TableRule<Option<V>, View<V::Entry, V::Loan, V::Badge>, Snapshot<V>> for Turns<V> {
    ghost use Rattle.turn_lock.specs.Turn.{Turned, starting};

    ghost holds = { λ _. Turned V.history V.by V.loans V.badge };

    ghost first = { λ key. starting (V.badge key.value) };
}

/// A value, and the seats that take turns with it. It can be shared by reference between threads.
///
/// It can't be dropped, since its value may be out: `close` ends it.
pub struct TurnLock<V: Told> {
    table: Table<Option<V>, View<V::Entry, V::Loan, V::Badge>, Snapshot<V>, Turns<V>, Global>,
    ghost sized: { (table.shared.table_id.words ≡ 3) × (table.shared.table_id.slots ≡ 1) },
}

/// The right to take turns at one lock. It has no bytes, and can be sent to another thread.
pub struct Seat<V: Told> {
    place: Place<Option<V>, View<V::Entry, V::Loan, V::Badge>>,
}

/// The value, while it is out with a seat. It can't be dropped: it has to be given back.
pub struct Held<'a, V: Told> {
    lock: &'a TurnLock<V>,
    seat: &'a mut Seat<V>,
    value: V,
}
