//! Steps of readers, for values of any type.
//!
//! A tree that is owned where a reader may stop is dropped there, part by part. So a value that was read waits here, as in
//! `py_expr::steps`, while what stands behind it is read: what is proved here knows nothing of how it is dropped.

ghost use Rattle.std.specs.Prelude.{◌<◌, IfOk, length};
ghost use Rattle.phrases.specs.Reading.{Read, after};
ghost use Rattle.phrases.specs.Phrases.{token};
ghost use Rattle.phrases.specs.Loops.{Gives};
ghost use Rattle.py_ast.specs.Kinds.{mark_of};

use py_expr::token::{Taken, mark};
use py_lexer::Token;

/// A value that was read, where a token of this class stands behind it.
#[inline(always)]
pub fn before<'a, A: Drop>(value: A, tokens: &'a [Token], code: u8) -> Taken<'a, A>
    ensures read { Gives (λ x. Read x.0 x.1.now) result (after ((token (mark_of code)).read tokens.now) (λ m y. Read value y)) }
    ensures shorter { IfOk result (λ x. length x.1.now < length tokens.now) }
{
    let (_, rest) = mark(tokens, code)?;
    Ok((value, rest))
}
