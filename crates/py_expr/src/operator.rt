//! Binary operators and comparisons (Language Reference, 6.7 to 6.10), over a function that reads one factor.
//!
//! The levels of binary operators are numbered from the tightest on. A factor was read before any level is looked at, so each
//! level goes on behind what the tighter ones made, and no level is entered but where its operator stands.

ghost use Rattle.std.specs.Prelude.{◌≡◌, ◌+◌, ◌<◌, ◌≤◌, ℕ, List, IfOk, IfErr, length};
ghost use Rattle.phrases.specs.Sets.{has};
ghost use Rattle.phrases.specs.Reading.{Read};
ghost use Rattle.phrases.specs.Phrases.{many};
ghost use Rattle.phrases.specs.Loops.{Gives, Fails};
ghost use Rattle.py_ast.specs.Kinds.{class};
ghost use Rattle.py_ast.specs.Tokens.{level_codes};
ghost use Rattle.py_ast.specs.Grammar.{comparison_first, operand, binary, compared, comparison, Factor, shaped};
ghost use Rattle.py_expr.specs.Readers.{ReadsSome};

use crate::build::{as_binary, as_comparison};
use crate::class::{begins_comparison, begins_operand, class_of};
use crate::parts::{comparator_of, stands_operand};
use crate::steps::with;
use crate::token::{Taken, binary_token};
use phrases::many;
use py_ast::{Compared, Expr, Operand};
use py_lexer::Token;
use sqlite_items::Items;
use std::alloc::Global;

/// One factor.
fn factor_by<'a, F>(tokens: &'a [Token], room: u8, factor: &F) -> Taken<'a, Expr>
where
    F: Fn(&[Token]) -> Taken<'_, Expr>,
    requires can_call { F.IsAlwaysCallable factor.now }
    requires reads { ReadsSome (λ ts r. F.post factor.now ts r) (shaped Factor room).read }
    ensures read { Gives (λ x. Read x.0 x.1.now) result ((shaped Factor room).read tokens.now) }
    ensures shorter { IfOk result (λ x. length x.1.now < length tokens.now) }
{
    factor(tokens)
}

/// A comparison, or what stands in its place alone, where its first factor was read and the tokens begin behind that.
#[tactic(auto, unfolding(py_ast::specs::Grammar::comparison))]
pub fn comparison_by<'a, F>(
    alloc: Global,
    first: Expr,
    tokens: &'a [Token],
    room: u8,
    factor: F,
) -> Taken<'a, Expr>
where
    F: Fn(&[Token]) -> Taken<'_, Expr>,
    requires can_call { F.IsAlwaysCallable factor }
    requires reads { ReadsSome (λ ts r. F.post factor ts r) (shaped Factor room).read }
    ensures read { (ts : List Token) → (shaped Factor room).read ts ≡ Read first tokens.now → Gives (λ x. Read x.0 x.1.now) result ((comparison (binary 6 (shaped Factor room))).read ts) }
    ensures no_longer { IfOk result (λ x. length x.1.now ≤ length tokens.now) }
{
    let (first, rest) = binary_from(alloc, first, tokens, room, 6, &factor)?;
    let ((first, others), rest) = with(first, all_compared_by(alloc, rest, room, &factor))?;
    Ok((as_comparison(alloc, first, others)?, rest))
}

fn all_compared_by<'a, F>(
    alloc: Global,
    tokens: &'a [Token],
    room: u8,
    factor: &F,
) -> Taken<'a, Items<Compared>>
where
    F: Fn(&[Token]) -> Taken<'_, Expr>,
    requires can_call { F.IsAlwaysCallable factor.now }
    requires reads { ReadsSome (λ ts r. F.post factor.now ts r) (shaped Factor room).read }
    ensures read { Gives (λ x. Read x.0 x.1.now) result ((many class comparison_first (compared (binary 6 (shaped Factor room)))).read tokens.now) }
    ensures no_longer { IfOk result (λ x. length x.1.now ≤ length tokens.now) }
{
    many(
        alloc,
        tokens,
        |token: &Token|
            ensures { result ≡ has comparison_first (class token.now) }
        { begins_comparison(class_of(token)) },
        |rest: &[Token]|
            requires can_call { F.IsAlwaysCallable factor.now }
            requires reads { ReadsSome (λ ts r. F.post factor.now ts r) (shaped Factor room).read }
            ensures read { Gives (λ x. Read x.0 x.1.now) result ((compared (binary 6 (shaped Factor room))).read rest.now) }
            ensures shorter { IfOk result (λ x. length x.1.now < length rest.now) }
        { compared_by(alloc, rest, room, factor) },
    )
}

#[tactic(auto, unfolding(py_ast::specs::Grammar::compared))]
fn compared_by<'a, F>(
    alloc: Global,
    tokens: &'a [Token],
    room: u8,
    factor: &F,
) -> Taken<'a, Compared>
where
    F: Fn(&[Token]) -> Taken<'_, Expr>,
    requires can_call { F.IsAlwaysCallable factor.now }
    requires reads { ReadsSome (λ ts r. F.post factor.now ts r) (shaped Factor room).read }
    ensures read { Gives (λ x. Read x.0 x.1.now) result ((compared (binary 6 (shaped Factor room))).read tokens.now) }
    ensures shorter { IfOk result (λ x. length x.1.now < length tokens.now) }
{
    let ((comparator, at), rest) = comparator_of(tokens)?;
    let (value, rest) = binary_by(alloc, rest, room, 6, factor)?;
    Ok((
        Compared {
            comparator,
            at,
            value,
        },
        rest,
    ))
}

/// Operands of the tightest `levels` levels of binary operators, or one factor alone (6.7 to 6.9).
#[cycle(binary)]
fn binary_by<'a, F>(
    alloc: Global,
    tokens: &'a [Token],
    room: u8,
    levels: u8,
    factor: &F,
) -> Taken<'a, Expr>
where
    F: Fn(&[Token]) -> Taken<'_, Expr>,
    requires can_call { F.IsAlwaysCallable factor.now }
    requires reads { ReadsSome (λ ts r. F.post factor.now ts r) (shaped Factor room).read }
    requires known { levels ≤ 6 }
    ensures read { Gives (λ x. Read x.0 x.1.now) result ((binary levels (shaped Factor room)).read tokens.now) }
    ensures shorter { IfOk result (λ x. length x.1.now < length tokens.now) }
{
    let (first, rest) = factor_by(tokens, room, factor)?;
    binary_from(alloc, first, rest, room, levels, factor)
}

/// Operands of the tightest `levels` levels, where the first factor was read and the tokens begin behind it.
#[cycle(binary)]
fn binary_from<'a, F>(
    alloc: Global,
    first: Expr,
    tokens: &'a [Token],
    room: u8,
    levels: u8,
    factor: &F,
) -> Taken<'a, Expr>
where
    F: Fn(&[Token]) -> Taken<'_, Expr>,
    requires can_call { F.IsAlwaysCallable factor.now }
    requires reads { ReadsSome (λ ts r. F.post factor.now ts r) (shaped Factor room).read }
    requires known { levels ≤ 6 }
    ensures read { (ts : List Token) → (shaped Factor room).read ts ≡ Read first tokens.now → Gives (λ x. Read x.0 x.1.now) result ((binary levels (shaped Factor room)).read ts) }
    ensures no_longer { IfOk result (λ x. length x.1.now ≤ length tokens.now) }
{
    let mut value = first;
    let mut rest = tokens;
    for level in 0..levels {
        if stands_operand(rest, level) {
            let (joined, after) = level_from(alloc, value, rest, room, level, factor)?;
            value = joined;
            rest = after;
        }
    }
    Ok((value, rest))
}

/// Operands of one level more, where those of the tighter levels were read and the tokens begin behind them.
#[cycle(binary)]
#[tactic(auto, using(crate::proofs::Alone::binary_next, crate::proofs::Alone::binary_stops))]
fn level_from<'a, F>(
    alloc: Global,
    first: Expr,
    tokens: &'a [Token],
    room: u8,
    level: u8,
    factor: &F,
) -> Taken<'a, Expr>
where
    F: Fn(&[Token]) -> Taken<'_, Expr>,
    requires can_call { F.IsAlwaysCallable factor.now }
    requires reads { ReadsSome (λ ts r. F.post factor.now ts r) (shaped Factor room).read }
    requires known { level < 6 }
    ensures read { (ts : List Token) → (binary level (shaped Factor room)).read ts ≡ Read first tokens.now → IfOk result (λ x. (binary (level + 1) (shaped Factor room)).read ts ≡ Read x.0 x.1.now) }
    ensures stops { (ts : List Token) (levels : ℕ) → level < levels → (binary level (shaped Factor room)).read ts ≡ Read first tokens.now → IfErr result (λ stop. Fails stop ((binary levels (shaped Factor room)).read ts)) }
    ensures no_longer { IfOk result (λ x. length x.1.now ≤ length tokens.now) }
{
    let ((first, operands), rest) = with(first, operands_by(alloc, tokens, room, level, factor))?;
    Ok((as_binary(alloc, first, operands)?, rest))
}

/// What follows the first operand of a level: its operators, each with the operand behind it.
#[cycle(binary)]
fn operands_by<'a, F>(
    alloc: Global,
    tokens: &'a [Token],
    room: u8,
    level: u8,
    factor: &F,
) -> Taken<'a, Items<Operand>>
where
    F: Fn(&[Token]) -> Taken<'_, Expr>,
    requires can_call { F.IsAlwaysCallable factor.now }
    requires reads { ReadsSome (λ ts r. F.post factor.now ts r) (shaped Factor room).read }
    requires known { level < 6 }
    ensures read { Gives (λ x. Read x.0 x.1.now) result ((many class (level_codes level) (operand level (binary level (shaped Factor room)))).read tokens.now) }
    ensures no_longer { IfOk result (λ x. length x.1.now ≤ length tokens.now) }
{
    many(
        alloc,
        tokens,
        |token: &Token|
            requires known { level < 6 }
            ensures { result ≡ has (level_codes level) (class token.now) }
        { begins_operand(level, class_of(token)) },
        |rest: &[Token]|
            requires can_call { F.IsAlwaysCallable factor.now }
            requires reads { ReadsSome (λ ts r. F.post factor.now ts r) (shaped Factor room).read }
            requires known { level < 6 }
            ensures read { Gives (λ x. Read x.0 x.1.now) result ((operand level (binary level (shaped Factor room))).read rest.now) }
            ensures shorter { IfOk result (λ x. length x.1.now < length rest.now) }
        { operand_by(alloc, rest, room, level, factor) },
    )
}

#[cycle(binary)]
#[tactic(auto, unfolding(py_ast::specs::Grammar::operand))]
fn operand_by<'a, F>(
    alloc: Global,
    tokens: &'a [Token],
    room: u8,
    level: u8,
    factor: &F,
) -> Taken<'a, Operand>
where
    F: Fn(&[Token]) -> Taken<'_, Expr>,
    requires can_call { F.IsAlwaysCallable factor.now }
    requires reads { ReadsSome (λ ts r. F.post factor.now ts r) (shaped Factor room).read }
    requires known { level < 6 }
    ensures read { Gives (λ x. Read x.0 x.1.now) result ((operand level (binary level (shaped Factor room))).read tokens.now) }
    ensures shorter { IfOk result (λ x. length x.1.now < length tokens.now) }
{
    let ((operator, at), rest) = binary_token(tokens, level)?;
    let (value, rest) = binary_by(alloc, rest, room, level, factor)?;
    Ok((
        Operand {
            operator,
            at,
            value,
        },
        rest,
    ))
}
