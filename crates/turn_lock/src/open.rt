//! Makes a lock with its seats.
ghost use Rattle.std.specs.Prelude.{◌≡◌, ℕ, ◌<◌, ◌≤◌, [], Some, None, IfOk, IfErr, All, length, vec_capacity};
ghost use Rattle.turn_lock.specs.Locks.{id_of, AreAll};
ghost use Rattle.turn_lock.specs.Rounds.{AreMade};
ghost use Rattle.turn_lock.specs.Seats.{seat_view, lock_of, Rests, IsNew};
ghost use Rattle.turn_lock.specs.Turn.{loan_at, starting, makes, is_made};

use super::{Seat, Told, TurnLock};
use crate::plays::Another;
use atomic_table::{Refused, Table};
use std::alloc::{AllocError, Global};
use std::snapshot::Snapshot;

impl<V: Told> TurnLock<V> {
    /// Makes a lock round the value, with so many seats. Their numbers are 1, 2 and so on, in their order.
    ///
    /// The only error is want of memory, and gives back the value as it was. Each seat costs one step.
    pub fn open(
        alloc: Global,
        value: V,
        seats: u32,
    ) -> Result<(TurnLock<V>, Vec<Seat<V>>), (AllocError, V)>
        requires some { 0 < seats }
        requires few { seats ≤ 64 }
        requires empty { V.history value ≡ [] }
        requires free { (n : ℕ) → loan_at (V.loans value) n ≡ None }
        ensures count { IfOk result (λ t. length t.1.items ≡ seats) }
        ensures all { IfOk result (λ t. AreAll (id_of t.0) t.1.items) }
        ensures new { IfOk result (λ t. All (λ seat. IsNew (V.badge value) (seat_view seat)) t.1.items) }
        ensures err { IfErr result (λ e. e.1 ≡ value) }
    {
        let mut all = match Vec::with_capacity(alloc, seats as usize) {
            Ok(all) => all,
            Err(failed) => return Err((failed, value)),
        };
        match TurnLock::open_one(alloc, value) {
            Ok((lock, first)) => {
                all.push_reserved(first);
                lock.seat_others(&mut all, seats);
                Ok((lock, all))
            }
            Err(refused) => {
                all.destroy_empty();
                Err(refused)
            }
        }
    }

    // A lock with its first seat.
    fn open_one(alloc: Global, value: V) -> Result<(TurnLock<V>, Seat<V>), (AllocError, V)>
        requires empty { V.history value ≡ [] }
        requires free { (n : ℕ) → loan_at (V.loans value) n ≡ None }
        ensures ok { IfOk result (λ t. (lock_of t.1 ≡ id_of t.0) × (t.1.place.me ≡ (starting (V.badge value), []))) }
        ensures err { IfErr result (λ e. e.1 ≡ value) }
    {
        let mut slots = match Vec::with_capacity(alloc, 1) {
            Ok(slots) => slots,
            Err(failed) => return Err((failed, value)),
        };
        let about = Snapshot::of(&value);
        slots.push_reserved(Some(value));
        match Table::new(alloc, &[0, 0, 0], slots, &about) {
            Ok((table, place)) => Ok((TurnLock { table }, Seat { place })),
            Err(refused) => {
                let Refused { mut slots } = refused;
                let Some(Some(value)) = slots.pop() else {
                    unreachable!()
                };
                slots.destroy_empty();
                Err((AllocError, value))
            }
        }
    }

    // Makes the other seats, up to this number of them.
    fn seat_others(&self, all: &mut Vec<Seat<V>>, seats: u32)
        requires first { (badge : V.Badge) × AreMade (id_of self.now) badge 1 all.old.items }
        requires some { 0 < seats }
        requires few { seats ≤ 64 }
        requires room { seats ≤ vec_capacity all.old }
        ensures made { (badge : V.Badge) → AreMade (id_of self.now) badge 1 all.old.items → AreMade (id_of self.now) badge seats all.new.items }
    {
        while all.len() < seats as usize {
            let next = self.another(&mut all[0]);
            all.push_reserved(next);
        }
    }

    // One more seat, made by the first.
    fn another(&self, first: &mut Seat<V>) -> Seat<V>
        requires of_lock { lock_of first.old ≡ id_of self.now }
        requires rests { Rests first.old }
        requires first { (seat_view first.old).number ≡ 1 }
        requires room { (seat_view first.old).made < 64 }
        ensures first { (lock_of first.new ≡ lock_of first.old) × (first.new.place.me ≡ (makes (seat_view first.old), [])) }
        ensures made { (lock_of result ≡ lock_of first.old) × (result.place.me ≡ (is_made (seat_view first.old), [])) }
    {
        let place = self.table.shared.split_seat::<Another>(&mut first.place);
        Seat { place }
    }
}
