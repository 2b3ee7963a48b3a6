//! The operands of `and` and of `or` (Language Reference, 6.11), over a function that reads one inversion.

ghost use Rattle.std.specs.Prelude.{◌≡◌, ◌<◌, ◌≤◌, ◌∷◌, [], ℕ, List, Option, Some, None, IfOk, length};
ghost use Rattle.phrases.specs.Sets.{has};
ghost use Rattle.phrases.specs.Reading.{Read};
ghost use Rattle.phrases.specs.Phrases.{many};
ghost use Rattle.phrases.specs.Loops.{Gives};
ghost use Rattle.py_ast.specs.Kinds.{class};
ghost use Rattle.py_ast.specs.Grammar.{joined, conjunction, disjunction, Inversion, shaped};
ghost use Rattle.py_expr.specs.Readers.{ReadsSome};

use crate::build::{as_and, as_or};
use crate::class::{AND, OR, class_of};
use crate::steps::with;
use crate::token::{Taken, mark};
use phrases::many;
use py_ast::{Expr, Joined};
use py_lexer::Token;
use sqlite_items::Items;
use std::alloc::Global;

/// One inversion.
fn inversion_by<'a, F>(tokens: &'a [Token], room: u8, inversion: &F) -> Taken<'a, Expr>
where
    F: Fn(&[Token]) -> Taken<'_, Expr>,
    requires can_call { F.IsAlwaysCallable inversion.now }
    requires reads { ReadsSome (λ ts r. F.post inversion.now ts r) (shaped Inversion room).read }
    ensures read { Gives (λ x. Read x.0 x.1.now) result ((shaped Inversion room).read tokens.now) }
    ensures shorter { IfOk result (λ x. length x.1.now < length tokens.now) }
{
    inversion(tokens)
}

/// Operands of `or`, or one alone, where the first inversion was read and the tokens begin behind it.
#[tactic(auto, unfolding(py_ast::specs::Grammar::disjunction))]
pub fn disjunction_by<'a, F>(
    alloc: Global,
    first: Expr,
    tokens: &'a [Token],
    room: u8,
    inversion: F,
) -> Taken<'a, Expr>
where
    F: Fn(&[Token]) -> Taken<'_, Expr>,
    requires can_call { F.IsAlwaysCallable inversion }
    requires reads { ReadsSome (λ ts r. F.post inversion ts r) (shaped Inversion room).read }
    ensures read { (ts : List Token) → (shaped Inversion room).read ts ≡ Read first tokens.now → Gives (λ x. Read x.0 x.1.now) result ((disjunction (conjunction (shaped Inversion room))).read ts) }
    ensures no_longer { IfOk result (λ x. length x.1.now ≤ length tokens.now) }
{
    let (first, rest) = conjunction_from(alloc, first, tokens, room, &inversion)?;
    let (value, rest) = alternatives_from(alloc, first, rest, room, &inversion)?;
    Ok((value, rest))
}

/// Operands of `or`, or one alone, where the first operand was read and the tokens begin behind it.
#[tactic(auto, unfolding(py_ast::specs::Grammar::disjunction))]
fn alternatives_from<'a, F>(
    alloc: Global,
    first: Expr,
    tokens: &'a [Token],
    room: u8,
    inversion: &F,
) -> Taken<'a, Expr>
where
    F: Fn(&[Token]) -> Taken<'_, Expr>,
    requires can_call { F.IsAlwaysCallable inversion.now }
    requires reads { ReadsSome (λ ts r. F.post inversion.now ts r) (shaped Inversion room).read }
    ensures read { (ts : List Token) → (conjunction (shaped Inversion room)).read ts ≡ Read first tokens.now → Gives (λ x. Read x.0 x.1.now) result ((disjunction (conjunction (shaped Inversion room))).read ts) }
    ensures no_longer { IfOk result (λ x. length x.1.now ≤ length tokens.now) }
{
    let ((first, others), rest) = with(first, alternatives_by(alloc, tokens, room, inversion))?;
    Ok((as_or(alloc, first, others)?, rest))
}

fn alternatives_by<'a, F>(
    alloc: Global,
    tokens: &'a [Token],
    room: u8,
    inversion: &F,
) -> Taken<'a, Items<Joined>>
where
    F: Fn(&[Token]) -> Taken<'_, Expr>,
    requires can_call { F.IsAlwaysCallable inversion.now }
    requires reads { ReadsSome (λ ts r. F.post inversion.now ts r) (shaped Inversion room).read }
    ensures read { Gives (λ x. Read x.0 x.1.now) result ((many class (OR ∷ []) (joined OR (conjunction (shaped Inversion room)))).read tokens.now) }
    ensures no_longer { IfOk result (λ x. length x.1.now ≤ length tokens.now) }
{
    many(
        alloc,
        tokens,
        |token: &Token|
            ensures { result ≡ has (OR ∷ []) (class token.now) }
        { class_of(token) == OR },
        |rest: &[Token]|
            requires can_call { F.IsAlwaysCallable inversion.now }
            requires reads { ReadsSome (λ ts r. F.post inversion.now ts r) (shaped Inversion room).read }
            ensures read { Gives (λ x. Read x.0 x.1.now) result ((joined OR (conjunction (shaped Inversion room))).read rest.now) }
            ensures shorter { IfOk result (λ x. length x.1.now < length rest.now) }
        { alternative_by(alloc, rest, room, inversion) },
    )
}

#[tactic(auto, unfolding(py_ast::specs::Grammar::joined))]
fn alternative_by<'a, F>(
    alloc: Global,
    tokens: &'a [Token],
    room: u8,
    inversion: &F,
) -> Taken<'a, Joined>
where
    F: Fn(&[Token]) -> Taken<'_, Expr>,
    requires can_call { F.IsAlwaysCallable inversion.now }
    requires reads { ReadsSome (λ ts r. F.post inversion.now ts r) (shaped Inversion room).read }
    ensures read { Gives (λ x. Read x.0 x.1.now) result ((joined OR (conjunction (shaped Inversion room))).read tokens.now) }
    ensures shorter { IfOk result (λ x. length x.1.now < length tokens.now) }
{
    let (at, rest) = mark(tokens, OR)?;
    let (value, rest) = conjunction_by(alloc, rest, room, inversion)?;
    Ok((Joined { at, value }, rest))
}

#[tactic(auto, unfolding(py_ast::specs::Grammar::conjunction))]
fn conjunction_by<'a, F>(
    alloc: Global,
    tokens: &'a [Token],
    room: u8,
    inversion: &F,
) -> Taken<'a, Expr>
where
    F: Fn(&[Token]) -> Taken<'_, Expr>,
    requires can_call { F.IsAlwaysCallable inversion.now }
    requires reads { ReadsSome (λ ts r. F.post inversion.now ts r) (shaped Inversion room).read }
    ensures read { Gives (λ x. Read x.0 x.1.now) result ((conjunction (shaped Inversion room)).read tokens.now) }
    ensures shorter { IfOk result (λ x. length x.1.now < length tokens.now) }
{
    let (first, rest) = inversion_by(tokens, room, inversion)?;
    conjunction_from(alloc, first, rest, room, inversion)
}

/// Operands of `and`, or one alone, where the first inversion was read and the tokens begin behind it.
#[tactic(auto, unfolding(py_ast::specs::Grammar::conjunction))]
fn conjunction_from<'a, F>(
    alloc: Global,
    first: Expr,
    tokens: &'a [Token],
    room: u8,
    inversion: &F,
) -> Taken<'a, Expr>
where
    F: Fn(&[Token]) -> Taken<'_, Expr>,
    requires can_call { F.IsAlwaysCallable inversion.now }
    requires reads { ReadsSome (λ ts r. F.post inversion.now ts r) (shaped Inversion room).read }
    ensures read { (ts : List Token) → (shaped Inversion room).read ts ≡ Read first tokens.now → Gives (λ x. Read x.0 x.1.now) result ((conjunction (shaped Inversion room)).read ts) }
    ensures no_longer { IfOk result (λ x. length x.1.now ≤ length tokens.now) }
{
    let ((first, others), rest) = with(first, conditions_by(alloc, tokens, room, inversion))?;
    Ok((as_and(alloc, first, others)?, rest))
}

fn conditions_by<'a, F>(
    alloc: Global,
    tokens: &'a [Token],
    room: u8,
    inversion: &F,
) -> Taken<'a, Items<Joined>>
where
    F: Fn(&[Token]) -> Taken<'_, Expr>,
    requires can_call { F.IsAlwaysCallable inversion.now }
    requires reads { ReadsSome (λ ts r. F.post inversion.now ts r) (shaped Inversion room).read }
    ensures read { Gives (λ x. Read x.0 x.1.now) result ((many class (AND ∷ []) (joined AND (shaped Inversion room))).read tokens.now) }
    ensures no_longer { IfOk result (λ x. length x.1.now ≤ length tokens.now) }
{
    many(
        alloc,
        tokens,
        |token: &Token|
            ensures { result ≡ has (AND ∷ []) (class token.now) }
        { class_of(token) == AND },
        |rest: &[Token]|
            requires can_call { F.IsAlwaysCallable inversion.now }
            requires reads { ReadsSome (λ ts r. F.post inversion.now ts r) (shaped Inversion room).read }
            ensures read { Gives (λ x. Read x.0 x.1.now) result ((joined AND (shaped Inversion room)).read rest.now) }
            ensures shorter { IfOk result (λ x. length x.1.now < length rest.now) }
        { condition_by(alloc, rest, room, inversion) },
    )
}

#[tactic(auto, unfolding(py_ast::specs::Grammar::joined))]
fn condition_by<'a, F>(
    alloc: Global,
    tokens: &'a [Token],
    room: u8,
    inversion: &F,
) -> Taken<'a, Joined>
where
    F: Fn(&[Token]) -> Taken<'_, Expr>,
    requires can_call { F.IsAlwaysCallable inversion.now }
    requires reads { ReadsSome (λ ts r. F.post inversion.now ts r) (shaped Inversion room).read }
    ensures read { Gives (λ x. Read x.0 x.1.now) result ((joined AND (shaped Inversion room)).read tokens.now) }
    ensures shorter { IfOk result (λ x. length x.1.now < length tokens.now) }
{
    let (at, rest) = mark(tokens, AND)?;
    let (value, rest) = inversion_by(rest, room, inversion)?;
    Ok((Joined { at, value }, rest))
}
