//! What a reader does.
ghost use Rattle.std.specs.Prelude.{◌≡◌, ◌≤◌, List, length, Some, nat_le, IfSome, IfOk, OnErr, OnOk, MatchBool, MatchResult};
ghost use Rattle.std.specs.Arc.{arc_value};
ghost use mathlib.Core.List.{IsPrefix};
ghost use Rattle.left_right.specs.Sides.{view};
ghost use Rattle.publish.specs.Boards.{board_of};
ghost use Rattle.publish.specs.Posts.{last_of, last_list};
ghost use Rattle.publish.specs.Readings.{IsLater};

use crate::boards::Board;
use crate::failure::Memory;
use crate::notes::Note;
use crate::post::Post;
use crate::rule::{OneBoard, Read};
use crate::sight::Sight;
use crate::values::Numbered;
use left_right::reader::Reader as Seat;
use std::alloc::{AllocError, Global};
use std::marker::Model;
use std::sync::{Arc, Wait};
use std::thread;

/// One that reads. Contracts see its board, the value that it keeps, and what it was told.
#[derive(Drop)]
pub struct Reader<R: Numbered + Drop> {
    // It is absent only within a call, since the seat goes through its calls by value.
    pub(crate) seat: Option<Seat<Post<R>, Option<Board>, OneBoard<R>>>,
    pub(crate) kept: Post<R>,
    pub(crate) told: Sight<R>,
}

impl<R: Numbered + Drop> Model for Reader<R> {
    ghost use Rattle.std.specs.Prelude.{◌≡◌, Some, IsSomeAnd};
    ghost use Rattle.std.specs.Arc.{arc_value};
    ghost use Rattle.left_right.specs.Sides.{view as knows};
    ghost use Rattle.publish.specs.Boards.{board_of};
    ghost use Rattle.publish.specs.Posts.{last_list};
    ghost use Rattle.publish.specs.Readings.{Reading};

    ghost Value = { Reading R R.Item };

    ghost view = { λ r. record { board = board_of r.told.seen.book; posts = r.kept.sight.seen.log; kept = arc_value r.kept.value; told_posts = r.told.seen.log; told = last_list R.list r.told.seen.log } };

    // What it keeps and what it was told is of the board that its seat knows.
    ghost invariant = { λ r. (r.kept.sight.seen.book ≡ r.told.seen.book) × IsSomeAnd r.seat (λ s. knows s.place ≡ Some (board_of r.told.seen.book)) };
}

// What a reading found: the number of the value, what was posted up to it, and the value where its owners could be counted.
#[derive(Drop)]
struct Found<R: Numbered + Drop> {
    number: u64,
    sight: Sight<R>,
    post: Result<Post<R>, AllocError>,
}

// What stands on the board.
fn look_at<R: Numbered + Drop>(post: &Post<R>) -> Found<R>
    ensures seen { result.sight.seen ≡ post.now.sight.seen }
    ensures number { (x : R) × (last_of post.now.sight.seen.log ≡ Some x) × (result.number ≡ R.numbered (R.list x)) }
    ensures post { IfOk result.post (λ p. p.sight.seen ≡ post.now.sight.seen) }
{
    Found {
        number: post.value.number(),
        sight: post.sight.again(),
        post: post.again(),
    }
}

// Reads on the board, where it gives a place, what goes on after `least` or is its last value.
fn read<R: Numbered + Drop>(
    seat: Seat<Post<R>, Option<Board>, OneBoard<R>>,
    least: &Sight<R>,
) -> (Seat<Post<R>, Option<Board>, OneBoard<R>>, Option<Found<R>>)
    requires { view seat.place ≡ Some (board_of least.now.seen.book) }
    ensures seat { view result.0.place ≡ view seat.place }
    ensures board { IfSome result.1 (λ f. f.sight.seen.book ≡ least.now.seen.book) }
    ensures after { IfSome result.1 (λ f. IsPrefix least.now.seen.log f.sight.seen.log) }
    ensures extends { IfSome result.1 (λ f. IsPrefix (last_list R.list least.now.seen.log) (last_list R.list f.sight.seen.log)) }
    ensures number { IfSome result.1 (λ f. (x : R) × (last_of f.sight.seen.log ≡ Some x) × (f.number ≡ R.numbered (R.list x))) }
    ensures post { IfSome result.1 (λ f. IfOk f.post (λ p. p.sight.seen ≡ f.sight.seen)) }
{
    match seat.enter_as::<Read>() {
        Ok(reading) => {
            let found = look_at(reading.get());
            (reading.leave(), no_less(found, least))
        }
        Err(seat) => (seat, None),
    }
}

// What was found, where it is no less than `least`.
fn no_less<R: Numbered + Drop>(found: Found<R>, least: &Sight<R>) -> Option<Found<R>>
    requires { found.sight.seen.book ≡ least.now.seen.book }
    ensures same { IfSome result (λ f. f ≡ found) }
    ensures after { IfSome result (λ f. IsPrefix least.now.seen.log f.sight.seen.log) }
    ensures extends { IfSome result (λ f. IsPrefix (last_list R.list least.now.seen.log) (last_list R.list f.sight.seen.log)) }
{
    if found.sight.posts() < least.posts() {
        return None;
    }
    found.sight.tie(least);
    Some(found)
}

impl<R: Numbered + Drop> Reader<R> {
    /// From then on `refresh` reads no less than the note tells. A note of less than what was told already changes nothing.
    pub fn learn(&mut self, note: Note<R>)
        requires board { note.board ≡ self.old.board }
        ensures same { (self.new.board ≡ self.old.board) × (self.new.posts ≡ self.old.posts) × (self.new.kept ≡ self.old.kept) }
        ensures told { MatchBool (nat_le (length self.old.told_posts) (length note.posts))
            ((self.new.told_posts ≡ note.posts) × (self.new.told ≡ note.list))
            ((self.new.told_posts ≡ self.old.told_posts) × (self.new.told ≡ self.old.told)) }
        ensures posts { IsPrefix self.old.told_posts self.new.told_posts × IsPrefix note.posts self.new.told_posts }
        ensures extends { IsPrefix self.old.told self.new.told × IsPrefix note.list self.new.told }
    {
        let Note { sight } = note;
        if self.told.posts() <= sight.posts() {
            sight.tie(&self.told);
            self.told = sight;
        } else {
            self.told.tie(&sight);
        }
    }

    /// Reads on the board without waiting, and keeps what it read. Where the board gives no place, it answers the value that
    /// it keeps. It fails where the count of the value's owners is full.
    pub fn latest(&mut self) -> Result<Arc<R, Global>, Memory>
        ensures same { (self.new.board ≡ self.old.board) × (self.new.told_posts ≡ self.old.told_posts) × (self.new.told ≡ self.old.told) }
        ensures kept { IfOk result (λ value. self.new.kept ≡ arc_value value) }
        ensures posted { OnOk result (last_of self.new.posts ≡ Some self.new.kept) }
        ensures posts { OnOk result (IsPrefix self.old.posts self.new.posts) }
        ensures extends { OnOk result (IsPrefix (R.list self.old.kept) (R.list self.new.kept)) }
        ensures err { OnErr result (self.new ≡ self.old) }
    {
        let seat = self.seat.take().unwrap();
        let (seat, found) = read(seat, &self.kept.sight);
        self.seat = Some(seat);
        let Some(found) = found else {
            return Ok(Arc::try_clone(&self.kept.value)?);
        };
        let post = found.post?;
        let value = Arc::try_clone(&post.value)?;
        self.kept = post;
        Ok(value)
    }

    // One reading. It may find nothing, or less than what was kept or told.
    fn find(&mut self) -> Option<Found<R>>
        ensures same { self.new ≡ self.old }
        ensures board { IfSome result (λ f. board_of f.sight.seen.book ≡ self.old.board) }
        ensures later { IfSome result (λ f. (x : R) × IsLater R.list self.old f.sight.seen.log x × (f.number ≡ R.numbered (R.list x))) }
        ensures post { IfSome result (λ f. IfOk f.post (λ p. p.sight.seen ≡ f.sight.seen)) }
    {
        let seat = self.seat.take().unwrap();
        let (seat, found) = read(seat, &self.kept.sight);
        self.seat = Some(seat);
        let found = found?;
        let found = no_less(found, &self.told)?;
        Some(found)
    }

    /// Reads on the board, and tries again until it gives a place and no less than what was told. It answers the number of
    /// the value read, and keeps this value if the count of its owners isn't full.
    pub fn refresh<W: Wait>(&mut self, rt: &W) -> (u64, Result<(), Memory>)
        ensures same { (self.new.board ≡ self.old.board) × (self.new.told_posts ≡ self.old.told_posts) × (self.new.told ≡ self.old.told) }
        ensures read { (posts : List R) × (x : R) × IsLater R.list self.old posts x × (result.0 ≡ R.numbered (R.list x))
            × MatchResult result.1 (λ _. (self.new.posts ≡ posts) × (self.new.kept ≡ x)) (λ _. self.new ≡ self.old) }

        // The same at Ok, of the value that it keeps then.
        ensures number { OnOk result.1 (result.0 ≡ R.numbered (R.list self.new.kept)) }
        ensures kept { OnOk result.1 (IsPrefix (R.list self.old.kept) (R.list self.new.kept)) }
        ensures told { OnOk result.1 (IsPrefix self.old.told (R.list self.new.kept)) }
    {
        for _ in rt.forever() {
            if let Some(found) = self.find() {
                let Found {
                    number,
                    sight: _,
                    post,
                } = found;
                let Ok(post) = post else {
                    return (number, Err(Memory));
                };
                self.kept = post;
                return (number, Ok(()));
            }
            thread::yield_now();
        }
        unreachable!()
    }
}
