// The steps of a turn, each by a seat's bare place.
ghost use Rattle.std.specs.Prelude.{◌≡◌, ℕ, ◌%◌, ◌^◌, [], ◌∷◌, Some, None, true, length};
ghost use Rattle.turn_lock.specs.declared.Stage.TheVariants.{Idle, Waits, Turn, Holds, Counted, Home};
ghost use Rattle.turn_lock.specs.Turn.{StartsWith, loan_at, Adds, SameBut};
ghost use Rattle.turn_lock.specs.Stages.{IsAt, its_ticket, taken, drawn, turned, holding, begun, counting, homing, passing, ended};

use super::{Board, PlaceOf, Told};
use crate::plays::{ComeHome, Count, Draw, Look, Pass, Take};
use crossbeam_utils::Backoff;
use std::snapshot::Snapshot;
use std::sync::Wait;

// The word with the next ticket, modulo 2^64.
pub(crate) const TICKET: usize = 0;

// The word with the ticket that is served, modulo 2^64.
pub(crate) const SERVING: usize = 1;

// The word with the length of the history.
pub(crate) const COUNT: usize = 2;

// The slot that has the value, unless it is out with a seat.
const VALUE: usize = 0;

// Draws a ticket.
fn draw<V: Told>(board: &Board<V>, place: &mut PlaceOf<V>) -> u64
    requires of_lock { IsAt board.now.table_id place.old.table_id }
    requires rests { (place.old.me.0.stage ≡ Idle) × (place.old.me.0.lives ≡ true) }
    ensures of_lock { place.new.table_id ≡ place.old.table_id }
    ensures ticket { (t : ℕ) × (result ≡ t % 2 ^ 64) × (place.new.me ≡ (drawn place.old.me.0 t, place.old.me.1)) }
{
    board.fetch_add::<Draw>(place, TICKET, 1)
}

// Waits until the ticket is served: it spins, then yields, then sleeps.
fn await_turn<V: Told, R: Wait>(rt: &R, board: &Board<V>, place: &mut PlaceOf<V>, ticket: u64)
    requires of_lock { IsAt board.now.table_id place.old.table_id }
    requires waits { let t = its_ticket place.old.me.0 in (place.old.me.0.stage ≡ Waits t) × (ticket ≡ t % 2 ^ 64) }
    ensures of_lock { place.new.table_id ≡ place.old.table_id }
    ensures turn { place.new.me ≡ (turned place.old.me.0 (its_ticket place.old.me.0), place.old.me.1) }
{
    let backoff = Backoff::new();
    for _ in rt.forever() {
        let served = board.load::<Look>(place, SERVING);
        if served == ticket {
            return;
        }
        if backoff.is_completed() {
            sleep_while_served(rt, board, served);
        } else {
            backoff.snooze();
        }
    }
    unreachable!()
}

// Sleeps until a turn is passed, unless another ticket is served by now. It may also return for no reason.
fn sleep_while_served<V: Told, R: Wait>(rt: &R, board: &Board<V>, served: u64)
    requires { board.now.table_id.words ≡ 3 }
{
    let low_half = (served % (1 << 32)) as u32;
    board.park(rt, SERVING, low_half);
}

// Wakes all that sleep, where a ticket was drawn that is not served yet.
// Who draws one later finds the served ticket as it is now, and so doesn't sleep on an older one.
fn wake_line<V: Told>(board: &Board<V>, served: u64)
    requires { board.now.table_id.words ≡ 3 }
{
    if board.peek(TICKET) != served {
        board.wake_all(SERVING);
    }
}

// Takes the value, which is at home where the ticket is served.
fn take<V: Told>(board: &Board<V>, place: &mut PlaceOf<V>) -> V
    requires of_lock { IsAt board.now.table_id place.old.table_id }
    requires turn { (place.old.me.0.stage ≡ Turn (its_ticket place.old.me.0)) × (place.old.me.0.lives ≡ true) × (place.old.me.1 ≡ []) }
    ensures of_lock { place.new.table_id ≡ place.old.table_id }
    ensures view { place.new.me ≡ (holding place.old.me.0 (its_ticket place.old.me.0) (V.history result) (V.loans result), (0, None) ∷ []) }
    ensures history { StartsWith (V.history result) place.old.me.0.seen }
    ensures badge { place.old.me.0.badge ≡ Some (V.badge result) }
    ensures loan { loan_at (V.loans result) place.old.me.0.number ≡ place.old.me.0.loan }
{
    board.load::<Take>(place, SERVING);
    board.exchange(place, VALUE, None).unwrap()
}

/// Waits for the seat's turn, and takes the value.
pub(crate) fn take_in_turn<V: Told, R: Wait>(rt: &R, board: &Board<V>, place: &mut PlaceOf<V>) -> V
    requires of_lock { IsAt board.now.table_id place.old.table_id }
    requires rests { (place.old.me.0.stage ≡ Idle) × (place.old.me.0.lives ≡ true) × (place.old.me.1 ≡ []) }
    ensures of_lock { place.new.table_id ≡ place.old.table_id }
    ensures view { (t : ℕ) × (place.new.me ≡ (begun place.old.me.0 t (V.history result) (V.loans result), (0, None) ∷ [])) }
    ensures history { StartsWith (V.history result) place.old.me.0.seen }
    ensures badge { place.old.me.0.badge ≡ Some (V.badge result) }
    ensures loan { loan_at (V.loans result) place.old.me.0.number ≡ place.old.me.0.loan }
{
    let ticket = draw(board, place);
    await_turn(rt, board, place, ticket);
    take(board, place)
}

// The seat's count of the history, which is what the value in its hand tells.
fn count_history<V: Told>(board: &Board<V>, place: &mut PlaceOf<V>, count: u64, like: &Snapshot<V>)
    requires of_lock { IsAt board.now.table_id place.old.table_id }
    requires out { (place.old.me.0.stage ≡ Holds (its_ticket place.old.me.0) (taken place.old.me.0)) × (place.old.me.0.lives ≡ true) × (place.old.me.1 ≡ (0, Some like.now.value) ∷ []) }
    requires count { count ≡ length (V.history like.now.value) }
    requires adds { Adds V.by place.old.me.0.number (taken place.old.me.0) (V.history like.now.value) }
    ensures of_lock { place.new.table_id ≡ place.old.table_id }
    ensures view { place.new.me ≡ (counting V.by place.old.me.0 (V.history like.now.value), place.old.me.1) }
{
    let _ = like;
    board.store::<Count>(place, COUNT, count)
}

// The value goes home.
fn come_home<V: Told>(board: &Board<V>, place: &mut PlaceOf<V>, like: &Snapshot<V>)
    requires of_lock { IsAt board.now.table_id place.old.table_id }
    requires counted { (place.old.me.0.stage ≡ Counted (its_ticket place.old.me.0) (V.history like.now.value)) × (place.old.me.0.lives ≡ true) × (place.old.me.1 ≡ (0, Some like.now.value) ∷ []) }
    requires badge { place.old.me.0.badge ≡ Some (V.badge like.now.value) }
    requires loans { SameBut place.old.me.0.number (V.loans like.now.value) place.old.me.0.note }
    ensures of_lock { place.new.table_id ≡ place.old.table_id }
    ensures view { place.new.me ≡ (homing place.old.me.0 (V.loans like.now.value), []) }
{
    let _ = like;
    board.load::<ComeHome>(place, COUNT);
}

// The next ticket is served.
fn pass_turn<V: Told>(board: &Board<V>, place: &mut PlaceOf<V>)
    requires of_lock { IsAt board.now.table_id place.old.table_id }
    requires home { (place.old.me.0.stage ≡ Home (its_ticket place.old.me.0)) × (place.old.me.0.lives ≡ true) }
    ensures of_lock { place.new.table_id ≡ place.old.table_id }
    ensures view { place.new.me ≡ (passing place.old.me.0, place.old.me.1) }
{
    let served = board.fetch_add::<Pass>(place, SERVING, 1);
    wake_line(board, served.wrapping_add(1));
}

/// Gives the value back, and passes the turn.
pub(crate) fn put_back<V: Told>(board: &Board<V>, place: &mut PlaceOf<V>, value: V)
    requires of_lock { IsAt board.now.table_id place.old.table_id }
    requires out { (place.old.me.0.stage ≡ Holds (its_ticket place.old.me.0) (taken place.old.me.0)) × (place.old.me.0.lives ≡ true) × (place.old.me.1 ≡ (0, None) ∷ []) }
    requires adds { Adds V.by place.old.me.0.number (taken place.old.me.0) (V.history value) }
    requires badge { place.old.me.0.badge ≡ Some (V.badge value) }
    requires loans { SameBut place.old.me.0.number (V.loans value) place.old.me.0.note }
    ensures of_lock { place.new.table_id ≡ place.old.table_id }
    ensures view { place.new.me ≡ (ended V.by place.old.me.0 (V.history value) (V.loans value), []) }
{
    let count = value.count();
    let like = Snapshot::of(&value);
    let nothing = board.exchange(place, VALUE, Some(value));
    let None = nothing else { unreachable!() };
    count_history(board, place, count, &like);
    come_home(board, place, &like);
    pass_turn(board, place)
}
