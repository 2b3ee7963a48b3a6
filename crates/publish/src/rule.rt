// The rule of the seats at a board: each that knows its board is of this one.
ghost use Rattle.std.specs.Prelude.{◌≡◌, None};
ghost use Rattle.publish.specs.Boards.{board_of, AllAreOf, Finds};

use crate::boards::Board;
use crate::post::Post;
use crate::values::Numbered;
use atomic_table::{Join, Split};
use crossbeam_utils::rule::{Outcome, Protocol};
use std::marker::PhantomData;

pub struct OneBoard<R> {
    of: PhantomData<R>,
}

impl<R: Numbered + Drop> Protocol<Post<R>, Option<Board>> for OneBoard<R> {
    ghost holds = { λ p. AllAreOf (board_of p.sight.seen.book) };

    ghost first = { None };
}

/// A reading, by a reader or by the poster.
pub struct Read;

impl<R: Numbered + Drop> Outcome<Post<R>, Option<Board>> for Read {
    ghost then = { λ v x y w. Finds (board_of y.sight.seen.book) v w };
}

/// What the poster's seat tells a new reader's: its board.
pub struct Tell;

impl Split<Option<Board>> for Tell {
    ghost left = { λ v. v };

    ghost right = { λ v. v };
}

/// What a new reader's seat takes in.
pub struct Hear;

impl Join<Option<Board>> for Hear {
    ghost both = { λ v w. w };

    ghost spent = { None };
}
