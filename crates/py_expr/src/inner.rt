//! What stands in brackets, over a function that reads one expression inside of them.
//!
//! `inner` reads an expression with one nesting less than `room`. Only what is read depends on `room` here: it is a number that no
//! test looks at, and the brackets are counted where they open.

ghost use Rattle.std.specs.Prelude.{◌≡◌, ◌<◌, ◌≤◌, ◌∷◌, [], ℕ, List, Option, Some, None, IfOk, length};
ghost use Rattle.phrases.specs.Sets.{has};
ghost use Rattle.phrases.specs.Reading.{Read};
ghost use Rattle.phrases.specs.Phrases.{token, nothing, sequence, either};
ghost use Rattle.phrases.specs.Loops.{Gives};
ghost use Rattle.py_ast.specs.Kinds.{class, mark_of};
ghost use Rattle.py_ast.specs.Grammar.{mapped, past, ended, second, expr_first, comma_item, comma_items, goes_past, items, exprs, Whole, nested};
ghost use Rattle.py_expr.specs.Readers.{ReadsSome};

use crate::build::as_tuple;
use crate::class::COMMA;
use crate::parts::stands_expr;
use crate::steps::with;
use crate::token::{Taken, is_of, mark, stands};
use phrases::series;
use py_ast::Expr;
use py_lexer::Token;
use py_literals::place::Pos;
use sqlite_items::Items;
use std::alloc::Global;

/// The expression that stands in a nesting.
pub fn nested_by<'a, F>(tokens: &'a [Token], room: u8, inner: &F) -> Taken<'a, Expr>
where
    F: Fn(&[Token]) -> Taken<'_, Expr>,
    requires can_call { F.IsAlwaysCallable inner.now }
    requires reads { ReadsSome (λ ts r. F.post inner.now ts r) (nested room Whole).read }
    ensures read { Gives (λ x. Read x.0 x.1.now) result ((nested room Whole).read tokens.now) }
    ensures shorter { IfOk result (λ x. length x.1.now < length tokens.now) }
{
    inner(tokens)
}

/// The expression that stands in a nesting behind a token of this class.
#[tactic(auto, unfolding(py_ast::specs::Grammar::past))]
pub fn past_by<'a, F>(tokens: &'a [Token], code: u8, room: u8, inner: &F) -> Taken<'a, Expr>
where
    F: Fn(&[Token]) -> Taken<'_, Expr>,
    requires can_call { F.IsAlwaysCallable inner.now }
    requires reads { ReadsSome (λ ts r. F.post inner.now ts r) (nested room Whole).read }
    ensures read { Gives (λ x. Read x.0 x.1.now) result ((past code (nested room Whole)).read tokens.now) }
    ensures shorter { IfOk result (λ x. length x.1.now < length tokens.now) }
{
    let (_, rest) = mark(tokens, code)?;
    let (value, rest) = nested_by(rest, room, inner)?;
    Ok((value, rest))
}

/// Expressions between commas: a tuple where there is a comma.
#[tactic(auto, using(crate::proofs::Ends::exprs_alone))]
pub fn exprs_by<'a, F>(alloc: Global, tokens: &'a [Token], room: u8, inner: &F) -> Taken<'a, Expr>
where
    F: Fn(&[Token]) -> Taken<'_, Expr>,
    requires can_call { F.IsAlwaysCallable inner.now }
    requires reads { ReadsSome (λ ts r. F.post inner.now ts r) (nested room Whole).read }
    ensures read { Gives (λ x. Read x.0 x.1.now) result ((exprs (nested room Whole)).read tokens.now) }
    ensures shorter { IfOk result (λ x. length x.1.now < length tokens.now) }
{
    let (first, rest) = nested_by(tokens, room, inner)?;
    if !stands(rest, COMMA) {
        return Ok((first, rest));
    }
    let (value, rest) = exprs_from(alloc, first, rest, room, inner)?;
    Ok((value, rest))
}

/// Expressions between commas, where the first was read and the tokens begin behind it.
#[tactic(auto, unfolding(py_ast::specs::Grammar::exprs, py_ast::specs::Grammar::mapped, py_ast::specs::Grammar::items))]
fn exprs_from<'a, F>(
    alloc: Global,
    first: Expr,
    tokens: &'a [Token],
    room: u8,
    inner: &F,
) -> Taken<'a, Expr>
where
    F: Fn(&[Token]) -> Taken<'_, Expr>,
    requires can_call { F.IsAlwaysCallable inner.now }
    requires reads { ReadsSome (λ ts r. F.post inner.now ts r) (nested room Whole).read }
    ensures read { (ts : List Token) → (nested room Whole).read ts ≡ Read first tokens.now → Gives (λ x. Read x.0 x.1.now) result ((exprs (nested room Whole)).read ts) }
    ensures no_longer { IfOk result (λ x. length x.1.now ≤ length tokens.now) }
{
    let ((first, others), rest) = with(first, further_items_by(alloc, tokens, room, inner))?;
    Ok((as_tuple(alloc, first, others)?, rest))
}

/// Expressions between commas: the first, and what stands behind each comma.
#[tactic(auto, unfolding(py_ast::specs::Grammar::items))]
pub fn items_by<'a, F>(
    alloc: Global,
    tokens: &'a [Token],
    room: u8,
    inner: &F,
) -> Taken<'a, (Expr, Items<(Pos, Option<Expr>)>)>
where
    F: Fn(&[Token]) -> Taken<'_, Expr>,
    requires can_call { F.IsAlwaysCallable inner.now }
    requires reads { ReadsSome (λ ts r. F.post inner.now ts r) (nested room Whole).read }
    ensures read { Gives (λ x. Read (x.0.0, x.0.1) x.1.now) result ((items (nested room Whole)).read tokens.now) }
    ensures shorter { IfOk result (λ x. length x.1.now < length tokens.now) }
{
    let (first, rest) = nested_by(tokens, room, inner)?;
    let ((first, others), rest) = with(first, further_items_by(alloc, rest, room, inner))?;
    Ok(((first, others), rest))
}

fn further_items_by<'a, F>(
    alloc: Global,
    tokens: &'a [Token],
    room: u8,
    inner: &F,
) -> Taken<'a, Items<(Pos, Option<Expr>)>>
where
    F: Fn(&[Token]) -> Taken<'_, Expr>,
    requires can_call { F.IsAlwaysCallable inner.now }
    requires reads { ReadsSome (λ ts r. F.post inner.now ts r) (nested room Whole).read }
    ensures read { Gives (λ x. Read x.0 x.1.now) result ((comma_items (λ s. expr_first) (λ s. nested room Whole) (λ e. tt {0}) (tt {0})).read tokens.now) }
    ensures no_longer { IfOk result (λ x. length x.1.now ≤ length tokens.now) }
{
    series(
        alloc,
        tokens,
        (),
        |_state: (), token: &Token|
            ensures { result ≡ has (COMMA ∷ []) (class token.now) }
        { is_of(token, COMMA) },
        |_state: (), rest: &[Token]|
            requires can_call { F.IsAlwaysCallable inner.now }
            requires reads { ReadsSome (λ ts r. F.post inner.now ts r) (nested room Whole).read }
            ensures read { Gives (λ x. Read x.0.0 x.1.now) result ((comma_item expr_first (nested room Whole)).read rest.now) }
            ensures next { IfOk result (λ x. x.0.1 ≡ goes_past (λ e. tt {0}) x.0.0) }
            ensures shorter { IfOk result (λ x. length x.1.now < length rest.now) }
        { further_item_by(alloc, rest, room, inner) },
    )
}

/// A comma, the expression behind it if one begins there, and whether another comma may follow.
#[tactic(auto, unfolding(py_ast::specs::Grammar::comma_item, py_ast::specs::Grammar::mapped))]
fn further_item_by<'a, F>(
    alloc: Global,
    tokens: &'a [Token],
    room: u8,
    inner: &F,
) -> Taken<'a, ((Pos, Option<Expr>), Option<()>)>
where
    F: Fn(&[Token]) -> Taken<'_, Expr>,
    requires can_call { F.IsAlwaysCallable inner.now }
    requires reads { ReadsSome (λ ts r. F.post inner.now ts r) (nested room Whole).read }
    ensures read { Gives (λ x. Read x.0.0 x.1.now) result ((comma_item expr_first (nested room Whole)).read tokens.now) }
    ensures next { IfOk result (λ x. x.0.1 ≡ goes_past (λ e. tt {0}) x.0.0) }
    ensures shorter { IfOk result (λ x. length x.1.now < length tokens.now) }
{
    let (at, rest) = mark(tokens, COMMA)?;
    if !stands_expr(rest) {
        return Ok((((at, None), None), rest));
    }
    let (item, rest) = nested_by(rest, room, inner)?;
    Ok((((at, Some(item)), Some(())), rest))
}

#[tactic(auto, unfolding(py_ast::specs::Grammar::mapped, py_ast::specs::Grammar::ended))]
pub fn closed_items_by<'a, F>(
    alloc: Global,
    tokens: &'a [Token],
    room: u8,
    right: u8,
    inner: &F,
) -> Taken<'a, Option<(Expr, Items<(Pos, Option<Expr>)>)>>
where
    F: Fn(&[Token]) -> Taken<'_, Expr>,
    requires can_call { F.IsAlwaysCallable inner.now }
    requires reads { ReadsSome (λ ts r. F.post inner.now ts r) (nested room Whole).read }
    ensures read { Gives (λ x. Read x.0 x.1.now) result ((either class expr_first (mapped (ended (items (nested room Whole)) right) Some) (sequence (token (mark_of right)) (λ c. nothing None) second)).read tokens.now) }
    ensures shorter { IfOk result (λ x. length x.1.now < length tokens.now) }
{
    if !stands_expr(tokens) {
        let (_, rest) = mark(tokens, right)?;
        return Ok((None, rest));
    }
    let (items, rest) = items_by(alloc, tokens, room, inner)?;
    let ((items, _), rest) = with(items, mark(rest, right))?;
    Ok((Some(items), rest))
}
