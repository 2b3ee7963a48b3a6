ghost use Rattle.std.specs.Prelude.{◌≡◌, ℕ, ◌+◌, ◌<◌, [], ◌∷◌, ◌++◌, List, length, OnOk, OnErr, IfOk, None, All};
ghost use Rattle.turn_lock.specs.Locks.{id_of, AreAll};
ghost use Rattle.turn_lock.specs.Seats.{seat_view, lock_of, Rests};
ghost use Rattle.turn_lock.specs.Turn.{StartsWith};

use crate::{Seat, Told, TurnLock};
use std::alloc::AllocError;
use std::sync::Wait;
use std::sync::atomic::{AtomicU64, Ordering};
use std::test::Fail;
use std::thread;
use std::thread::Threads;

const SEATS: u32 = 16;

const ROUNDS: u32 = 1000;

/// A history of seats' numbers. Only the first seat borrows.
#[derive(Drop)]
struct Register {
    numbers: Vec<u32>,
    loan: Option<u8>,
    badge: u8,
}

impl Told for Register {
    type Entry = u32;

    type Loan = u8;

    type Badge = u8;

    ghost history = { λ r. r.numbers.items };

    ghost by = { λ number. number };

    ghost loans = { λ r. None ∷ r.loan ∷ [] };

    ghost badge = { λ r. r.badge };

    fn count(&self) -> u64 {
        self.numbers.len() as u64
    }
}

impl Register {
    fn add(&mut self, number: u32) -> Result<(), AllocError>
        ensures ok { OnOk result (self.new.numbers.items ≡ self.old.numbers.items ++ number ∷ []) }
        ensures err { OnErr result (self.new.numbers.items ≡ self.old.numbers.items) }
        ensures same { (self.new.loan ≡ self.old.loan) × (self.new.badge ≡ self.old.badge) }
    {
        self.numbers.push(number)?;
        Ok(())
    }
}

// Two holds in a row, by what the contracts say: the first begins a loan, and the second adds an entry and ends the loan.
fn borrow_and_return<R: Wait>(
    rt: &R,
    lock: &TurnLock<Register>,
    seat: &mut Seat<Register>,
) -> Result<(), AllocError>
    requires of_lock { lock_of seat.old ≡ id_of lock.now }
    requires rests { Rests seat.old }
    requires first { (seat_view seat.old).number ≡ 1 }
    requires free { (seat_view seat.old).loan ≡ None }
    ensures of_lock { lock_of seat.new ≡ lock_of seat.old }
    ensures rests { Rests seat.new }
    ensures number { (seat_view seat.new).number ≡ (seat_view seat.old).number }
    ensures made { (seat_view seat.new).made ≡ (seat_view seat.old).made }
    ensures badge { (seat_view seat.new).badge ≡ (seat_view seat.old).badge }
    ensures holds { (seat_view seat.new).holds ≡ (seat_view seat.old).holds + 2 }
    ensures loan { (seat_view seat.new).loan ≡ None }
    ensures ended { (seat_view seat.new).ended ≡ (seat_view seat.old).ended ++ 5 ∷ [] }
    ensures seen { StartsWith (seat_view seat.new).seen (seat_view seat.old).seen }
    ensures last { IfOk result (λ _. (before : List ℕ) × ((seat_view seat.new).seen ≡ before ++ 1 ∷ [])) }
{
    let mut held = lock.hold(rt, seat);
    held.value().loan = Some(5);
    held.give_back();
    let mut held = lock.hold(rt, seat);
    let register = held.value();
    let added = register.add(1);
    register.loan = None;
    held.give_back();
    added
}

// One hold, which adds the seat's number.
fn sign<R: Wait>(
    rt: &R,
    lock: &TurnLock<Register>,
    seat: &mut Seat<Register>,
    number: u32,
) -> Result<(), AllocError>
    requires of_lock { lock_of seat.old ≡ id_of lock.now }
    requires rests { Rests seat.old }
    requires number { number ≡ (seat_view seat.old).number }
    ensures of_lock { lock_of seat.new ≡ lock_of seat.old }
    ensures rests { Rests seat.new }
    ensures number { (seat_view seat.new).number ≡ (seat_view seat.old).number }
    ensures made { (seat_view seat.new).made ≡ (seat_view seat.old).made }
{
    let mut held = lock.hold(rt, seat);
    let signed = held.value().add(number);
    held.give_back();
    signed
}

// Counts what went wrong: a glance that fell, or an entry that found no memory.
fn sign_often<R: Wait>(
    rt: &R,
    lock: &TurnLock<Register>,
    seat: &mut Seat<Register>,
    number: u32,
    faults: &AtomicU64,
)
    requires of_lock { lock_of seat.old ≡ id_of lock.now }
    requires rests { Rests seat.old }
    requires number { number ≡ (seat_view seat.old).number }
    ensures of_lock { lock_of seat.new ≡ lock_of seat.old }
    ensures rests { Rests seat.new }
    ensures number { (seat_view seat.new).number ≡ (seat_view seat.old).number }
    ensures made { (seat_view seat.new).made ≡ (seat_view seat.old).made }
{
    let mut seen = 0;
    for _ in 0..ROUNDS {
        let signed = sign(rt, lock, seat, number);
        let now = lock.glance(seat);
        if signed.is_err() || now <= seen {
            faults.fetch_add(1, Ordering::SeqCst);
        }
        seen = now;
    }
}

// All seats sign, each in a thread of its own.
fn all_sign<R: Threads + Wait + Sync>(
    rt: &R,
    lock: &TurnLock<Register>,
    seats: &mut [Seat<Register>],
    faults: &AtomicU64,
)
    requires { AreAll (id_of lock.now) seats.old × (length seats.old < 100) }
    ensures { AreAll (id_of lock.now) seats.new }
{
    thread::for_each_mut(
        rt,
        seats,
        SEATS as usize,
        &|i, seat|
            requires { (lock_of seat.now ≡ id_of lock.now) × Rests seat.now × ((seat_view seat.now).number ≡ i + 1) × (i < 100) }
            ensures of_lock { lock_of seat.exit.now ≡ lock_of seat.entry.now }
            ensures rests { Rests seat.exit.now }
            ensures number { (seat_view seat.exit.now).number ≡ (seat_view seat.entry.now).number }
            ensures made { (seat_view seat.exit.now).made ≡ (seat_view seat.entry.now).made }
        { sign_often(rt, lock, seat, i as u32 + 1, faults) },
    );
}

#[test]
fn sixteen_seats_sign_a_thousand_times(rt: HostRuntime) -> Result<(), Fail> {
    let alloc = rt.alloc();
    let numbers = Vec::with_capacity(alloc, (SEATS * ROUNDS) as usize)?;
    let register = Register {
        numbers,
        loan: None,
        badge: 7,
    };
    let (lock, mut seats) = match TurnLock::open(alloc, register, SEATS) {
        Ok(opened) => opened,
        Err((failed, back)) => {
            assert!(rt; back.numbers.is_empty() && back.loan.is_none() && back.badge == 7);
            return Err(failed.into());
        }
    };
    let faults = AtomicU64::new(0);
    all_sign(&rt, &lock, seats.as_mut_slice(), &faults);
    let register = lock.close(seats);
    assert_eq!(rt; faults.load(Ordering::SeqCst), 0);
    assert_eq!(rt; register.numbers.len(), 16000);
    for number in 1..=SEATS {
        let signed = register.numbers.iter().filter(|n| **n == number).count();
        assert_eq!(rt; signed, 1000, "by seat {number}");
    }
    Ok(())
}

#[test]
fn one_seat_borrows_and_returns(rt: HostRuntime) -> Result<(), Fail> {
    let alloc = rt.alloc();
    let register = Register {
        numbers: Vec::new(alloc),
        loan: None,
        badge: 7,
    };
    let (lock, mut seats) = match TurnLock::open(alloc, register, 1) {
        Ok(opened) => opened,
        Err((failed, back)) => {
            assert!(rt; back.numbers.is_empty() && back.loan.is_none() && back.badge == 7);
            return Err(failed.into());
        }
    };
    let first = &mut seats[0];
    let done = borrow_and_return(&rt, &lock, first);
    let seen = lock.glance(first);
    let register = lock.close(seats);
    done?;
    assert_eq!(rt; seen, 1);
    assert_eq!(rt; register.numbers.as_slice(), [1].as_slice());
    assert!(rt; register.loan.is_none() && register.badge == 7);
    Ok(())
}
