//! What the poster does.
ghost use Rattle.std.specs.Prelude.{◌≡◌, ◌↔◌, ◌++◌, ◌∷◌, ◌≤◌, [], length, drop, Some, IsTrue, OnOk, OnErr};
ghost use Rattle.std.specs.Arc.{arc_value};
ghost use mathlib.Core.List.{IsPrefix};
ghost use Rattle.left_right.specs.Sides.{view};
ghost use Rattle.publish.specs.Boards.{board_of};

use crate::boards::Board;
use crate::failure::Memory;
use crate::notes::Note;
use crate::post::Post;
use crate::readers::Reader;
use crate::rule::{OneBoard, Read};
use crate::sight::{Head, Law, Sight};
use crate::values::Numbered;
use left_right::Absorb;
use left_right::writer::Writer;
use logbook::Seen;
use std::alloc::Global;
use std::marker::Model;
use std::mem;
use std::snapshot::Snapshot;
use std::sync::{Arc, Wait};

/// The one that posts. Contracts see its board, what was posted, and the list of the last post.
///
/// It is not `Drop`, so code that does not `end` it is refused. It has no other owner: put it under a lock, or lend it by `&mut`.
pub struct Poster<R: Numbered + Drop>
where
    Post<R>: Absorb<Post<R>, State = (R, Seen<R, u64, Law<R>>)>,
{
    // It is absent only within `post`, since the writer goes through its calls by value.
    pub(crate) writer: Option<Writer<Post<R>, Post<R>, Option<Board>, OneBoard<R>>>,
    pub(crate) head: Head<R>,
    pub(crate) sight: Sight<R>,
}

impl<R: Numbered + Drop> Model for Poster<R>
where
    Post<R>: Absorb<Post<R>, State = (R, Seen<R, u64, Law<R>>)>,
{
    ghost use Rattle.std.specs.Prelude.{◌≡◌, [], drop, Some, IsSomeAnd};
    ghost use Rattle.left_right.specs.Sides.{view as knows};
    ghost use Rattle.publish.specs.Boards.{board_of};
    ghost use Rattle.publish.specs.Posts.{Posts, posts_of};

    ghost Value = { Posts R R.Item };

    ghost view = { λ p. posts_of R.list p.sight.seen.book p.sight.seen.log };

    // The writer knows its board and shows the last post, and nothing waits to be shown.
    ghost invariant = { λ p. (p.head.word.book ≡ p.sight.seen.book) × IsSomeAnd p.writer (λ w. (knows w.desk.place ≡ Some (board_of p.sight.seen.book)) × (w.desk.shown.value.sight.seen ≡ p.sight.seen) × (drop w.behind w.log.items ≡ [])) };
}

// Hands a post to the writer.
pub(crate) fn append<R: Numbered + Drop, W: Wait>(
    rt: &W,
    writer: &mut Writer<Post<R>, Post<R>, Option<Board>, OneBoard<R>>,
    post: Post<R>,
)
    requires { drop writer.old.behind writer.old.log.items ≡ [] }
    ensures desk { writer.new.desk ≡ writer.old.desk }
    ensures pending { drop writer.new.behind writer.new.log.items ≡ post ∷ [] }
{
    let mut post = post;
    for _ in rt.forever() {
        match writer.append(post) {
            Ok(()) => return,
            Err(back) => post = back,
        }
    }
    unreachable!()
}

// Shows the readers the post that waits.
pub(crate) fn show<R: Numbered + Drop, W: Wait>(
    rt: &W,
    writer: Writer<Post<R>, Post<R>, Option<Board>, OneBoard<R>>,
    post: &Snapshot<Post<R>>,
) -> Writer<Post<R>, Post<R>, Option<Board>, OneBoard<R>>
    requires pending { drop writer.behind writer.log.items ≡ post.now.value ∷ [] }
    requires board { post.now.value.sight.seen.book ≡ writer.desk.shown.value.sight.seen.book }
    ensures shown { (arc_value result.desk.shown.value.value ≡ arc_value post.now.value.value) × (result.desk.shown.value.sight.seen ≡ post.now.value.sight.seen) }
    ensures pending { drop result.behind result.log.items ≡ [] }
    ensures board { view result.desk.place ≡ Some (board_of post.now.value.sight.seen.book) }
{
    let _ = post;
    let mut writer = writer;
    for _ in rt.forever() {
        let (next, done) = writer.publish_as::<Read, W>(rt);
        writer = next;
        if done.is_ok() {
            return writer;
        }
    }
    unreachable!()
}

impl<R: Numbered + Drop> Poster<R> {
    /// Puts up a value whose list begins with the last one's. It waits for the readers that still read the value before
    /// the last. It takes no memory, and fails only where the count of posts is full: then nothing was posted.
    pub fn post<W: Wait>(&mut self, rt: &W, value: Arc<R, Global>) -> Result<(), Memory>
        requires follows { IsPrefix self.old.list (R.list (arc_value value)) }
        ensures board { self.new.board ≡ self.old.board }
        ensures posts { OnOk result (self.new.posts ≡ self.old.posts ++ arc_value value ∷ []) }
        ensures list { OnOk result (self.new.list ≡ R.list (arc_value value)) }
        ensures err { OnErr result (self.new ≡ self.old) }
    {
        let mut sight = self.sight.again();
        if !sight.add(&self.head, &value) {
            return Err(Memory);
        }
        // The book has the value now, and no step takes it out again. So nothing below may fail: the writer's queue has
        // room since the board was opened, and the two calls are made until they succeed.
        let post = Post {
            value,
            sight: sight.again(),
        };
        let like = Snapshot::of(&post);
        let mut writer = self.writer.take().unwrap();
        append(rt, &mut writer, post);
        let nothing = mem::replace(&mut self.writer, Some(show(rt, writer, &like)));
        let None = nothing else { unreachable!() };
        self.sight = sight;
        Ok(())
    }

    /// Tells what was posted so far. A reader that learns the note reads no less from then on.
    pub fn tell(&self) -> Note<R>
        ensures { result ≡ self.now }
    {
        Note {
            sight: self.sight.again(),
        }
    }

    /// Whether the reader keeps no more than was posted by this poster. No other can post, so it is true where the poster is
    /// the board's, as it is under a lock.
    pub fn covers(&self, reader: &Reader<R>) -> bool
        requires board { reader.now.board ≡ self.now.board }
        ensures covers { IsTrue result ↔ (length reader.now.posts ≤ length self.now.posts) }
        ensures posts { IsTrue result → IsPrefix reader.now.posts self.now.posts }
        ensures list { IsTrue result → IsPrefix (R.list reader.now.kept) self.now.list }
    {
        let covers = reader.kept.sight.posts() <= self.sight.posts();
        if covers {
            self.sight.tie(&reader.kept.sight);
        }
        covers
    }

    /// Ends the board. Readers answer what they keep from then on, and `Reader::refresh` does not return.
    pub fn end<W: Wait>(self, rt: &W) {
        let Poster {
            writer,
            head: _,
            sight: _,
        } = self;
        drop(writer.unwrap().take(rt));
    }
}
