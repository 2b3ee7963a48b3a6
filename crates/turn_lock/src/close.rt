//! Takes a lock apart.
ghost use Rattle.std.specs.Prelude.{◌≡◌, ℕ, ◌<◌, ◌≤◌, [], List, All, length};
ghost use mathlib.Core.Option.{some};
ghost use lib.ListN.{get_elem?};
ghost use Rattle.turn_lock.specs.Rounds.{AreOthers, IsGathered, IsLeftBy};
ghost use Rattle.turn_lock.specs.Locks.{id_of, AreAll};
ghost use Rattle.turn_lock.specs.Seats.{seat_view, lock_of, Rests};
ghost use Rattle.turn_lock.specs.Turn.{StartsWith, own_of, takes_in};

use super::{Seat, Told, TurnLock};
use crate::plays::TakeIn;

impl<V: Told> TurnLock<V> {
    /// Takes the value out, once all seats are back, in the order in which `open` gave them.
    ///
    /// It doesn't wait: where all seats rest, the value is in the lock. Each seat costs one step.
    pub fn close(self, seats: Vec<Seat<V>>) -> V
        requires all { AreAll (id_of self) seats.items }
        ensures seen { All (λ seat. StartsWith (V.history result) (seat_view seat).seen) seats.items }
        ensures own { All (λ seat. (seat_view seat).own ≡ own_of V.by (seat_view seat).number (V.history result)) seats.items }
        ensures no_others { All (λ entry. V.by entry ≤ length seats.items) (V.history result) }
    {
        let mut others = seats;
        let mut first = others.remove(0);
        self.take_in_all(&mut first, others);
        self.finish(first)
    }

    // The first seat takes in all others.
    fn take_in_all(&self, first: &mut Seat<V>, others: Vec<Seat<V>>)
        requires of_lock { lock_of first.old ≡ id_of self.now }
        requires rests { Rests first.old }
        requires others { AreOthers (id_of self.now) others.items }
        ensures of_lock { lock_of first.new ≡ lock_of first.old }
        ensures rests { Rests first.new }
        ensures gathered { IsGathered (seat_view first.old) others.items (seat_view first.new) }
    {
        let mut left = others;
        while let Some(seat) = left.pop() {
            self.take_in(first, seat);
        }
        left.destroy_empty();
    }

    // The first seat takes in another.
    fn take_in(&self, first: &mut Seat<V>, other: Seat<V>)
        requires of_lock { (lock_of first.old ≡ id_of self.now) × (lock_of other ≡ id_of self.now) }
        requires rest { Rests first.old × Rests other }
        ensures { (lock_of first.new ≡ lock_of first.old) × (first.new.place.me ≡ (takes_in (seat_view first.old) (seat_view other), [])) }
    {
        let Seat { place } = other;
        self.table
            .shared
            .join_seat::<TakeIn>(&mut first.place, place);
    }

    // Takes the value out, once the first seat has taken in all others.
    fn finish(self, first: Seat<V>) -> V
        requires of_lock { lock_of first ≡ id_of self }
        requires rests { Rests first }
        requires first { (seat_view first).number ≡ 1 }
        requires all { (n : ℕ) → 1 < n → n ≤ (seat_view first).made → (i : ℕ) × (p : ℕ × List V.Entry × List V.Entry) × (get_elem? (seat_view first).joined i ≡ some p) × (p.0 ≡ n) }
        ensures told { IsLeftBy V.history V.by (seat_view first) result }
    {
        let TurnLock { table } = self;
        let Seat { place } = first;
        let mut closed = table.close_with(place);
        let slot = closed.take(0);
        closed.free();
        let Some(value) = slot else { unreachable!() };
        value
    }
}
