// What was posted, as a token that can be copied: a beginning of the book's log, with its length.
ghost use Rattle.std.specs.Prelude.{◌≡◌, ◌+◌, ◌==◌, ◌<◌, ◌≤◌, ◌^◌, ◌++◌, ◌∷◌, [], Some, length, MatchBool, IfOk, IfSome, true};
ghost use mathlib.Core.List.{IsPrefix};
ghost use Rattle.publish.specs.Posts.{last_list};
ghost use Rattle.publish.specs.Books.{MayFollow, head_of};

use crate::values::Numbered;
use logbook::{Gain, Offer, Plain, Play, Rule, Seen, Start, Word};
use std::marker::PhantomData;

/// The rule of the book: its word counts the posts, and each list begins with the one before.
pub struct Law<R> {
    of: PhantomData<R>,
}

impl<R: Numbered> Rule<R, u64> for Law<R> {
    ghost use Rattle.std.specs.Prelude.{[]};
    ghost use base.Fml.{ftrue};
    ghost use Rattle.publish.specs.Books.{IsKept};

    ghost holds = { λ cells log. IsKept R.list cells log };

    ghost first = { [] };

    ghost hinted = { λ n log. Unit {0} };

    ghost shows = { λ log. [] };

    ghost keeps = { λ names log. ftrue };

    ghost moves = { λ ask before after answer. Unit {0} };
}

/// Callers trade nothing.
pub struct Nothing;

impl<R: Numbered> Gain<R, u64> for Nothing {
    ghost use base.Fml.{ftrue};

    ghost after = { λ names about answer. ftrue };
}

/// A step that adds a value.
pub struct Add;

impl<R: Numbered> Play<R, u64> for Add {
    ghost use Rattle.publish.specs.Books.{Adds};

    ghost then = { Adds };
}

impl<R: Numbered> Plain<R, R, u64> for Add {
    ghost use Rattle.std.specs.Prelude.{None};

    ghost ask = { λ r. r };

    ghost state = { λ r. None };
}

/// The values that were posted up to some moment.
#[derive(Drop)]
pub struct Sight<R: Numbered> {
    posts: u64,
    pub(crate) seen: Seen<R, u64, Law<R>>,
    ghost counted: { posts ≡ length seen.log },
}

/// The word that counts the posts.
#[derive(Drop)]
pub struct Head<R: Numbered> {
    word: Word<R, u64, Law<R>>,
    ghost head_is: { word ≡ head_of word.book },
}

impl<R: Numbered> Sight<R> {
    /// A new book, with nothing posted.
    pub fn open() -> (Head<R>, Sight<R>)
        ensures book { result.0.word.book ≡ result.1.seen.book }
        ensures empty { result.1.seen.log ≡ [] }
    {
        let (seen, mut first, _second) = Seen::open(Start::alone(), 0, 0);
        (
            Head {
                word: Word::tracked(0, &mut first),
            },
            Sight { posts: 0, seen },
        )
    }

    pub fn again(&self) -> Sight<R>
        ensures { result.seen ≡ self.now.seen }
    {
        Sight {
            posts: self.posts,
            seen: self.seen.again(),
        }
    }

    pub fn posts(&self) -> u64
        ensures { result ≡ length self.now.seen.log }
    {
        self.posts
    }

    /// Adds a value, and says whether it did. Only a full count keeps it from that, since the book has no other head.
    pub fn add(&mut self, head: &Head<R>, value: &R) -> bool
        requires book { self.old.seen.book ≡ head.now.word.book }
        requires follows { MayFollow R.list self.old.seen.log value.now }
        ensures book { self.new.seen.book ≡ self.old.seen.book }
        ensures added { result ≡ true → self.new.seen.log ≡ self.old.seen.log ++ value.now ∷ [] }
    {
        let posts = self.posts;
        if posts == u64::MAX {
            return false;
        }
        let mut offer: Offer<R, u64, Law<R>, Nothing> = self.seen.plain::<Nothing, R, Add>(value);
        let mut pen = self.seen.no_pen();
        let found = head
            .word
            .compare_exchange::<Add, Nothing>(
                posts,
                posts + 1,
                &mut self.seen,
                &mut offer,
                &mut pen,
            );
        self.posts = if found == posts { posts + 1 } else { found };
        found == posts
    }

    /// What was seen earlier in the same book begins what was seen later, and so do the lists.
    pub fn tie(&self, earlier: &Sight<R>)
        requires book { self.now.seen.book ≡ earlier.now.seen.book }
        requires order { length earlier.now.seen.log ≤ length self.now.seen.log }
        ensures posts { IsPrefix earlier.now.seen.log self.now.seen.log }
        ensures lists { IsPrefix (last_list R.list earlier.now.seen.log) (last_list R.list self.now.seen.log) }
    {
        let mut both = self.seen.again();
        both.learn(&earlier.seen);
    }
}
