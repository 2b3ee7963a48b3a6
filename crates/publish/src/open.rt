// Opens a board.
ghost use Rattle.std.specs.Prelude.{◌≡◌, ◌<◌, ◌≤◌, ◌∷◌, [], length, drop, All, IfOk, Some};
ghost use Rattle.std.specs.Arc.{arc_value};
ghost use Rattle.left_right.specs.Sides.{view};
ghost use Rattle.publish.specs.Boards.{board_of};
ghost use Rattle.publish.specs.Posts.{posts_of};
ghost use Rattle.publish.specs.Readings.{reading};

use crate::boards::Board;
use crate::failure::Memory;
use crate::post::Post;
use crate::posters::{Poster, append, show};
use crate::readers::Reader;
use crate::rule::{Hear, OneBoard, Tell};
use crate::sight::Sight;
use crate::values::Numbered;
use left_right::reader::Reader as Seat;
use left_right::writer::Writer;
use std::alloc::Global;
use std::snapshot::Snapshot;
use std::sync::{Arc, Wait};
use std::thread;

// A place at the board, which knows the board that the writer knows.
fn sit<R: Numbered + Drop, W: Wait>(
    rt: &W,
    writer: &mut Writer<Post<R>, Post<R>, Option<Board>, OneBoard<R>>,
) -> Seat<Post<R>, Option<Board>, OneBoard<R>>
    ensures seat { view result.place ≡ view writer.old.desk.place }
    ensures shown { writer.new.desk.shown ≡ writer.old.desk.shown }
    ensures board { view writer.new.desk.place ≡ view writer.old.desk.place }
    ensures pending { drop writer.new.behind writer.new.log.items ≡ drop writer.old.behind writer.old.log.items }
{
    for _ in rt.forever() {
        if let Ok(mut seat) = writer.factory().reader() {
            seat.learn::<Hear>(writer.tell::<Tell>());
            return seat;
        }
        thread::yield_now();
    }
    unreachable!()
}

// A reader that keeps the value, and was told what was posted up to it.
fn reader<R: Numbered + Drop, W: Wait>(
    rt: &W,
    writer: &mut Writer<Post<R>, Post<R>, Option<Board>, OneBoard<R>>,
    first: &Post<R>,
) -> Result<Reader<R>, Memory>
    requires { view writer.old.desk.place ≡ Some (board_of first.now.sight.seen.book) }
    ensures shown { writer.new.desk.shown ≡ writer.old.desk.shown }
    ensures board { view writer.new.desk.place ≡ view writer.old.desk.place }
    ensures pending { drop writer.new.behind writer.new.log.items ≡ drop writer.old.behind writer.old.log.items }
    ensures reader { IfOk result (λ r. r ≡ reading (posts_of R.list first.now.sight.seen.book first.now.sight.seen.log) (arc_value first.now.value)) }
{
    let kept = first.again()?;
    let told = first.sight.again();
    let seat = Some(sit(rt, writer));
    Ok(Reader { seat, kept, told })
}

// The readers, as many as memory allows.
fn seat_all<R: Numbered + Drop, W: Wait>(
    rt: &W,
    alloc: Global,
    writer: &mut Writer<Post<R>, Post<R>, Option<Board>, OneBoard<R>>,
    first: &Post<R>,
    count: u32,
) -> Result<Vec<Reader<R>>, Memory>
    requires { view writer.old.desk.place ≡ Some (board_of first.now.sight.seen.book) }
    ensures shown { writer.new.desk.shown ≡ writer.old.desk.shown }
    ensures board { view writer.new.desk.place ≡ view writer.old.desk.place }
    ensures pending { drop writer.new.behind writer.new.log.items ≡ drop writer.old.behind writer.old.log.items }
    ensures count { IfOk result (λ v. length v.items ≡ count) }
    ensures readers { IfOk result (λ v. All (λ r. r ≡ reading (posts_of R.list first.now.sight.seen.book first.now.sight.seen.log) (arc_value first.now.value)) v.items) }
{
    let mut readers = Vec::new(alloc);
    for _ in 0..count {
        readers.push(reader(rt, writer, first)?)?;
    }
    Ok(readers)
}

// A writer that shows the value and knows its board. Its queue has held a post, and so has room for each later one.
fn stand<R: Numbered + Drop, W: Wait>(
    rt: &W,
    alloc: Global,
    first: &Post<R>,
    readers: u32,
) -> Result<Writer<Post<R>, Post<R>, Option<Board>, OneBoard<R>>, Memory>
    requires { (0 < readers) × (readers ≤ 64) }
    ensures shown { IfOk result (λ w. w.desk.shown.value.sight.seen ≡ first.now.sight.seen) }
    ensures board { IfOk result (λ w. view w.desk.place ≡ Some (board_of first.now.sight.seen.book)) }
    ensures pending { IfOk result (λ w. drop w.behind w.log.items ≡ []) }
{
    let one = first.again()?;
    let other = first.again()?;
    let again = first.again()?;
    let mut writer = Writer::new(alloc, one, other, readers as usize)?;
    let like = Snapshot::of(&again);
    match writer.append(again) {
        Ok(()) => Ok(show(rt, writer, &like)),
        Err(_) => {
            drop(writer.take(rt));
            Err(Memory)
        }
    }
}

/// Opens a board with a first value, which each reader keeps and was told. A refused call ends what it began.
pub fn open_board<R: Numbered + Drop, W: Wait>(
    rt: &W,
    alloc: Global,
    first: Arc<R, Global>,
    readers: u32,
) -> Result<(Poster<R>, Vec<Reader<R>>), Memory>
    requires { (0 < readers) × (readers ≤ 64) }
    ensures posts { IfOk result (λ t. t.0.posts ≡ arc_value first ∷ []) }
    ensures list { IfOk result (λ t. t.0.list ≡ R.list (arc_value first)) }
    ensures count { IfOk result (λ t. length t.1.items ≡ readers) }
    ensures readers { IfOk result (λ t. All (λ r. r ≡ reading t.0 (arc_value first)) t.1.items) }
{
    let (head, mut sight) = Sight::<R>::open();
    if !sight.add(&head, &first) {
        return Err(Memory);
    }
    let kept = Post {
        value: first,
        sight: sight.again(),
    };
    let mut writer = stand(rt, alloc, &kept, readers)?;
    match seat_all(rt, alloc, &mut writer, &kept, readers) {
        Ok(readers) => {
            let poster = Poster {
                writer: Some(writer),
                head,
                sight,
            };
            Ok((poster, readers))
        }
        Err(failed) => {
            drop(writer.take(rt));
            Err(failed)
        }
    }
}
