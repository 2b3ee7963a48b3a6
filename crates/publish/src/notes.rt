//! What a poster tells its readers.
ghost use Rattle.std.specs.Prelude.{◌≡◌};

use crate::sight::Sight;
use crate::values::Numbered;
use std::marker::Model;

/// What had been posted when the poster told it. A note owns no memory, and can be copied.
#[derive(Drop)]
pub struct Note<R: Numbered> {
    pub(crate) sight: Sight<R>,
}

impl<R: Numbered> Model for Note<R> {
    ghost use Rattle.publish.specs.Posts.{Posts, posts_of};

    ghost Value = { Posts R R.Item };

    ghost view = { λ n. posts_of R.list n.sight.seen.book n.sight.seen.log };
}

impl<R: Numbered> Note<R> {
    /// A copy, which takes no memory.
    pub fn again(&self) -> Note<R>
        ensures { result ≡ self.now }
    {
        Note {
            sight: self.sight.again(),
        }
    }
}
