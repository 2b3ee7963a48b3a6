//! What a seat does: it looks at the history's length, and takes and gives back the value.
ghost use Rattle.std.specs.Prelude.{◌≡◌, ◌+◌, [], length, Some};
ghost use Rattle.std.specs.Borrow.{sem, follows};
ghost use mir.Syntax.{named};
ghost use Rattle.turn_lock.specs.contracts.Held.{the_row};
ghost use Rattle.turn_lock.specs.Locks.{id_of, value_in, with_value, seat_in, held_view, lent_by, IsHeld, left};
ghost use Rattle.turn_lock.specs.Seats.{seat_view, lock_of, Rests};
ghost use Rattle.turn_lock.specs.Stages.{taken};
ghost use Rattle.turn_lock.specs.Turn.{StartsWith, loan_at, own_of, ended_by, Adds, SameBut};

use super::{Held, Seat, Told, TurnLock};
use crate::plays::Glance;
use crate::turn::{COUNT, put_back, take_in_turn};
use std::sync::Wait;

impl<V: Told> TurnLock<V> {
    /// The length of the history, without waiting for a turn. It never falls from one glance of a seat to its next.
    /// One load of a word.
    pub fn glance(&self, seat: &mut Seat<V>) -> u64
        requires of_lock { lock_of seat.old ≡ id_of self.now }
        requires rests { Rests seat.old }

        // The seat has then seen a history of that length.
        ensures length { result ≡ length (seat_view seat.new).seen }
        ensures seen { StartsWith (seat_view seat.new).seen (seat_view seat.old).seen }

        // All else stays.
        ensures of_lock { lock_of seat.new ≡ lock_of seat.old }
        ensures rests { Rests seat.new }
        ensures number { (seat_view seat.new).number ≡ (seat_view seat.old).number }
        ensures made { (seat_view seat.new).made ≡ (seat_view seat.old).made }
        ensures badge { (seat_view seat.new).badge ≡ (seat_view seat.old).badge }
        ensures own { (seat_view seat.new).own ≡ (seat_view seat.old).own }
        ensures loan { (seat_view seat.new).loan ≡ (seat_view seat.old).loan }
        ensures holds { (seat_view seat.new).holds ≡ (seat_view seat.old).holds }
        ensures ended { (seat_view seat.new).ended ≡ (seat_view seat.old).ended }
        ensures note { (seat_view seat.new).note ≡ (seat_view seat.old).note }
    {
        self.table.shared.load::<Glance>(&mut seat.place, COUNT)
    }

    /// Waits for the ticket that it draws, and takes the value. No contract says how long that takes, or that it ends.
    ///
    /// It spins for a short time, then yields, and then sleeps until a turn is passed.
    pub fn hold<'a, R: Wait>(&'a self, rt: &R, seat: &'a mut Seat<V>) -> Held<'a, V>
        requires of_lock { lock_of seat.old ≡ id_of self.now }
        requires rests { Rests seat.old }

        // The value goes on from what the seat knows.
        ensures history { StartsWith (V.history (value_in result)) (seat_view seat.old).seen }
        ensures found_loan { loan_at (V.loans (value_in result)) (seat_view seat.old).number ≡ (seat_view seat.old).loan }
        ensures found_badge { (seat_view seat.old).badge ≡ Some (V.badge (value_in result)) }

        // One more hold of this seat, with a note of the loans and of the history.
        ensures lent { lent_by result ≡ seat.entry.ghost_name }
        ensures held { IsHeld result }
        ensures holds { (held_view result).holds ≡ (seat_view seat.old).holds + 1 }
        ensures note { (held_view result).note ≡ V.loans (value_in result) }
        ensures taken { taken (held_view result) ≡ V.history (value_in result) }

        // All else stays.
        ensures of_lock { lock_of (seat_in result) ≡ lock_of seat.old }
        ensures number { (held_view result).number ≡ (seat_view seat.old).number }
        ensures made { (held_view result).made ≡ (seat_view seat.old).made }
        ensures badge { (held_view result).badge ≡ (seat_view seat.old).badge }
        ensures seen { (held_view result).seen ≡ (seat_view seat.old).seen }
        ensures own { (held_view result).own ≡ (seat_view seat.old).own }
        ensures loan { (held_view result).loan ≡ (seat_view seat.old).loan }
        ensures ended { (held_view result).ended ≡ (seat_view seat.old).ended }
    {
        let value = take_in_turn(rt, &self.table.shared, &mut seat.place);
        Held {
            lock: self,
            seat,
            value,
        }
    }
}

impl<'a, V: Told> Held<'a, V> {
    /// The value, to read and to change. What `give_back` asks of it can be broken for a while.
    pub fn value(&mut self) -> &mut V
        ensures* lends { sem 𝓛 (follows (the_row (record { mir = named 1; lft = [] }) V.row V.Entry.row V.Loan.row V.Badge.row V.Told) V.row self.entry.ghost_name result.ghost_name (with_value self.old)) }
        ensures now { result.now ≡ value_in self.old }
    {
        &mut self.value
    }

    /// Gives the value back, and passes the turn. It doesn't wait.
    pub fn give_back(self)
        requires held { IsHeld self }

        // Entries were added, of this seat's number or of none. All loans but the seat's own, and the badge, are as they were taken.
        requires adds { Adds V.by (held_view self).number (taken (held_view self)) (V.history (value_in self)) }
        requires loans { SameBut (held_view self).number (V.loans (value_in self)) (held_view self).note }
        requires badge { (held_view self).badge ≡ Some (V.badge (value_in self)) }

        // The seat knows what it left.
        ensures seen { (seat_view (left self.exit)).seen ≡ V.history (value_in self.entry) }
        ensures own { (seat_view (left self.exit)).own ≡ own_of V.by (held_view self.entry).number (V.history (value_in self.entry)) }
        ensures loan { (seat_view (left self.exit)).loan ≡ loan_at (V.loans (value_in self.entry)) (held_view self.entry).number }
        ensures others { SameBut (held_view self.entry).number (V.loans (value_in self.entry)) (seat_view (left self.exit)).note }

        // A loan that ended stands last.
        ensures ended { (seat_view (left self.exit)).ended ≡ ended_by (held_view self.entry).loan (loan_at (V.loans (value_in self.entry)) (held_view self.entry).number) (held_view self.entry).ended }

        // All else stays.
        ensures of_lock { lock_of (left self.exit) ≡ lock_of (seat_in self.entry) }
        ensures rests { Rests (left self.exit) }
        ensures number { (seat_view (left self.exit)).number ≡ (held_view self.entry).number }
        ensures made { (seat_view (left self.exit)).made ≡ (held_view self.entry).made }
        ensures badge_kept { (seat_view (left self.exit)).badge ≡ (held_view self.entry).badge }
        ensures holds { (seat_view (left self.exit)).holds ≡ (held_view self.entry).holds }
        ensures note { (seat_view (left self.exit)).note ≡ (held_view self.entry).note }
    {
        let Held { lock, seat, value } = self;
        put_back(&lock.table.shared, &mut seat.place, value)
    }
}
