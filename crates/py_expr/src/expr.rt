//! Expressions, by recursive descent: what opens a nesting without a bracket, and how the levels of the grammar lead into one another.
//!
//! Each function answers what the reader of its phrase does (`py_ast`'s grammar), with the same room for nestings. What stands in
//! brackets, and what stands between operators, is read by functions that are passed the reader of one expression.
//!
//! Behind most operands no operator stands, and one look at the next token tells so for many levels at once. Where one does
//! stand, the functions whose names end in `from` go on behind the operand that was read: their contracts speak of whatever
//! tokens that operand is read from.

ghost use Rattle.std.specs.Prelude.{◌≡◌, ◌+◌, ◌<◌, ◌≤◌, ◌∷◌, [], false, List, IfOk, length};
ghost use Rattle.phrases.specs.Sets.{starts};
ghost use Rattle.phrases.specs.Reading.{Read};
ghost use Rattle.phrases.specs.Nesting.{never};
ghost use Rattle.phrases.specs.Loops.{Gives};
ghost use Rattle.py_ast.specs.Kinds.{class};
ghost use Rattle.py_ast.specs.Tokens.{unary_codes};
ghost use Rattle.py_ast.specs.Grammar.{expr_first, primary, exponent, power, binary, comparison, conjunction, disjunction, otherwise, choice, exprs, Whole, Inversion, Factor, nested, shaped, expr};

use crate::build::{as_conditional, as_power};
use crate::class::{DOUBLE_STAR, ELSE, IF, NOT, begins_expr, class_of};
use crate::inner::exprs_by;
use crate::logic::disjunction_by;
use crate::operator::comparison_by;
use crate::parts::{
    stands_alone, stands_logic, stands_operator, stands_prefix, stands_text_alone, stands_unary,
    stands_wider,
};
use crate::primary::primary_by;
use crate::steps::with;
use crate::strings::text_here;
use crate::token::{Taken, leaf_here, make_leaf, mark, open, open_unary, stands};
use phrases::{Fault, Stop};
use py_ast::{Expr, Form};
use py_lexer::Token;
use py_literals::place::Pos;
use sqlite_items::Boxed;
use std::alloc::Global;

/// The longest expression at the front of the tokens, with room for so many nestings, one in another.
///
/// Most are one token, an atom or a string, which the token behind it tells. Linear in the tokens that it takes.
#[cycle(expr)]
pub fn expr_of(alloc: Global, tokens: &[Token], room: u8) -> Taken<'_, Expr>
    ensures read { Gives (λ x. Read x.0 x.1.now) result ((expr room).read tokens.now) }
    ensures shorter { IfOk result (λ x. length x.1.now < length tokens.now) }
{
    if stands_alone(tokens) {
        return leaf_here(tokens);
    }
    if stands_text_alone(tokens) {
        return text_here(tokens);
    }
    whole_of(alloc, tokens, room)
}

/// An expression, whatever stands behind its first token.
///
/// Where it begins with a primary, one look behind that tells for all levels whether it goes on.
#[cycle(expr)]
#[tactic(auto, using(crate::proofs::Ends::expr_primary))]
fn whole_of(alloc: Global, tokens: &[Token], room: u8) -> Taken<'_, Expr>
    ensures read { Gives (λ x. Read x.0 x.1.now) result ((expr room).read tokens.now) }
    ensures shorter { IfOk result (λ x. length x.1.now < length tokens.now) }
{
    if stands_prefix(tokens) {
        return prefixed_of(alloc, tokens, room);
    }
    let (first, rest) = primary_of(alloc, tokens, room)?;
    if !stands_wider(rest) {
        return Ok((first, rest));
    }
    wider_from(alloc, first, rest, room)
}

/// An expression whose first primary was read, where the tokens begin behind that.
#[cycle(expr)]
fn wider_from(alloc: Global, base: Expr, tokens: &[Token], room: u8) -> Taken<'_, Expr>
    ensures read { (ts : List Token) → starts class unary_codes ts ≡ false → starts class (NOT ∷ []) ts ≡ false → (primary room (nested room Whole)).read ts ≡ Read base tokens.now → Gives (λ x. Read x.0 x.1.now) result ((expr room).read ts) }
    ensures no_longer { IfOk result (λ x. length x.1.now ≤ length tokens.now) }
{
    let (first, rest) = power_from(alloc, base, tokens, room)?;
    let (value, rest) = comparison_from(alloc, first, rest, room)?;
    if !stands_logic(rest) {
        return Ok((value, rest));
    }
    expr_from(alloc, value, rest, room)
}

/// An expression, which may begin with `not` or a unary operator.
#[cycle(expr)]
#[tactic(auto, using(crate::proofs::Alone::expr_alone))]
fn prefixed_of(alloc: Global, tokens: &[Token], room: u8) -> Taken<'_, Expr>
    ensures read { Gives (λ x. Read x.0 x.1.now) result ((expr room).read tokens.now) }
    ensures shorter { IfOk result (λ x. length x.1.now < length tokens.now) }
{
    let (first, rest) = inversion_of(alloc, tokens, room)?;
    if !stands_logic(rest) {
        return Ok((first, rest));
    }
    expr_from(alloc, first, rest, room)
}

/// An expression, where its first inversion was read and the tokens begin behind that.
#[cycle(expr)]
#[tactic(auto, using(crate::proofs::Nestings::expr_is), unfolding(py_ast::specs::Grammar::conditional))]
fn expr_from(alloc: Global, first: Expr, tokens: &[Token], room: u8) -> Taken<'_, Expr>
    ensures read { (ts : List Token) → (shaped Inversion room).read ts ≡ Read first tokens.now → Gives (λ x. Read x.0 x.1.now) result ((expr room).read ts) }
    ensures no_longer { IfOk result (λ x. length x.1.now ≤ length tokens.now) }
{
    let (value, rest) = disjunction_from(alloc, first, tokens, room)?;
    let ((value, choice), rest) = with(value, choice_of(alloc, rest, room))?;
    Ok((as_conditional(alloc, value, choice)?, rest))
}

/// The condition and the other value of a conditional, if it is one.
#[cycle(expr)]
#[tactic(auto, unfolding(py_ast::specs::Grammar::choice))]
fn choice_of(alloc: Global, tokens: &[Token], room: u8) -> Taken<'_, Option<(Pos, Expr, Expr)>>
    ensures read { Gives (λ x. Read x.0 x.1.now) result ((choice room (disjunction (conjunction (shaped Inversion room))) (nested room Whole)).read tokens.now) }
    ensures no_longer { IfOk result (λ x. length x.1.now ≤ length tokens.now) }
{
    if !stands(tokens, IF) {
        return Ok((None, tokens));
    }
    let (at, rest) = mark(tokens, IF)?;
    let (condition, rest) = disjunction_of(alloc, rest, room)?;
    let ((condition, otherwise), rest) = with(condition, otherwise_of(alloc, rest, room))?;
    Ok((Some((at, condition, otherwise)), rest))
}

/// The other value of a conditional, behind its `else`.
#[cycle(expr)]
#[tactic(auto, using(crate::proofs::Nestings::nested_is), unfolding(py_ast::specs::Grammar::otherwise))]
fn otherwise_of(alloc: Global, tokens: &[Token], room: u8) -> Taken<'_, Expr>
    ensures read { Gives (λ x. Read x.0 x.1.now) result ((otherwise room (nested room Whole)).read tokens.now) }
    ensures shorter { IfOk result (λ x. length x.1.now < length tokens.now) }
{
    let (_, rest) = open(tokens, ELSE, room)?;
    let (value, rest) = expr_of(alloc, rest, room - 1)?;
    Ok((value, rest))
}

/// Operands of `or`, or one alone.
#[cycle(expr)]
fn disjunction_of(alloc: Global, tokens: &[Token], room: u8) -> Taken<'_, Expr>
    ensures read { Gives (λ x. Read x.0 x.1.now) result ((disjunction (conjunction (shaped Inversion room))).read tokens.now) }
    ensures shorter { IfOk result (λ x. length x.1.now < length tokens.now) }
{
    let (first, rest) = inversion_of(alloc, tokens, room)?;
    disjunction_from(alloc, first, rest, room)
}

/// Operands of `or`, or one alone, where the first inversion was read and the tokens begin behind it.
#[cycle(expr)]
fn disjunction_from(alloc: Global, first: Expr, tokens: &[Token], room: u8) -> Taken<'_, Expr>
    ensures read { (ts : List Token) → (shaped Inversion room).read ts ≡ Read first tokens.now → Gives (λ x. Read x.0 x.1.now) result ((disjunction (conjunction (shaped Inversion room))).read ts) }
    ensures no_longer { IfOk result (λ x. length x.1.now ≤ length tokens.now) }
{
    disjunction_by(
        alloc,
        first,
        tokens,
        room,
        |rest: &[Token]|
            ensures read { Gives (λ x. Read x.0 x.1.now) result ((shaped Inversion room).read rest.now) }
            ensures shorter { IfOk result (λ x. length x.1.now < length rest.now) }
        { inversion_of(alloc, rest, room) },
    )
}

/// A `not` and what it negates, or a comparison.
#[cycle(expr)]
#[tactic(auto, using(crate::proofs::Nestings::inversion_is, crate::proofs::Nestings::nested_is), unfolding(py_ast::specs::Grammar::inversion_over))]
fn inversion_of(alloc: Global, tokens: &[Token], room: u8) -> Taken<'_, Expr>
    ensures read { Gives (λ x. Read x.0 x.1.now) result ((shaped Inversion room).read tokens.now) }
    ensures shorter { IfOk result (λ x. length x.1.now < length tokens.now) }
{
    if stands(tokens, NOT) {
        let (at, rest) = open(tokens, NOT, room)?;
        let (inner, rest) = inversion_of(alloc, rest, room - 1)?;
        Ok((make_leaf(at, Form::Not(Boxed::new(alloc, inner)?)), rest))
    } else {
        comparison_of(alloc, tokens, room)
    }
}

/// A comparison, or what stands in its place alone.
#[cycle(expr)]
#[tactic(auto, using(crate::proofs::Alone::comparison_alone))]
fn comparison_of(alloc: Global, tokens: &[Token], room: u8) -> Taken<'_, Expr>
    ensures read { Gives (λ x. Read x.0 x.1.now) result ((comparison (binary 6 (shaped Factor room))).read tokens.now) }
    ensures shorter { IfOk result (λ x. length x.1.now < length tokens.now) }
{
    let (first, rest) = factor_of(alloc, tokens, room)?;
    if !stands_operator(rest) {
        return Ok((first, rest));
    }
    comparison_from(alloc, first, rest, room)
}

/// A comparison, or what stands in its place alone, where its first factor was read and the tokens begin behind that.
#[cycle(expr)]
fn comparison_from(alloc: Global, first: Expr, tokens: &[Token], room: u8) -> Taken<'_, Expr>
    ensures read { (ts : List Token) → (shaped Factor room).read ts ≡ Read first tokens.now → Gives (λ x. Read x.0 x.1.now) result ((comparison (binary 6 (shaped Factor room))).read ts) }
    ensures no_longer { IfOk result (λ x. length x.1.now ≤ length tokens.now) }
{
    comparison_by(
        alloc,
        first,
        tokens,
        room,
        |rest: &[Token]|
            ensures read { Gives (λ x. Read x.0 x.1.now) result ((shaped Factor room).read rest.now) }
            ensures shorter { IfOk result (λ x. length x.1.now < length rest.now) }
        { factor_of(alloc, rest, room) },
    )
}

/// A unary operator and its operand, or a power.
#[cycle(expr)]
#[tactic(auto, using(crate::proofs::Nestings::factor_is, crate::proofs::Nestings::nested_is), unfolding(py_ast::specs::Grammar::factor_over))]
fn factor_of(alloc: Global, tokens: &[Token], room: u8) -> Taken<'_, Expr>
    ensures read { Gives (λ x. Read x.0 x.1.now) result ((shaped Factor room).read tokens.now) }
    ensures shorter { IfOk result (λ x. length x.1.now < length tokens.now) }
{
    if stands_unary(tokens) {
        let ((operator, at), rest) = open_unary(tokens, room)?;
        let (inner, rest) = factor_of(alloc, rest, room - 1)?;
        Ok((
            make_leaf(at, Form::Unary(operator, Boxed::new(alloc, inner)?)),
            rest,
        ))
    } else {
        power_of(alloc, tokens, room)
    }
}

/// A primary, with its exponent if it has one.
#[cycle(expr)]
#[tactic(auto, using(crate::proofs::Ends::power_alone))]
fn power_of(alloc: Global, tokens: &[Token], room: u8) -> Taken<'_, Expr>
    ensures read { Gives (λ x. Read x.0 x.1.now) result ((power room (nested room Whole) (nested room Factor)).read tokens.now) }
    ensures shorter { IfOk result (λ x. length x.1.now < length tokens.now) }
{
    let (base, rest) = primary_of(alloc, tokens, room)?;
    if !stands(rest, DOUBLE_STAR) {
        return Ok((base, rest));
    }
    power_from(alloc, base, rest, room)
}

/// A power, where its base was read and the tokens begin behind that.
#[cycle(expr)]
#[tactic(auto, unfolding(py_ast::specs::Grammar::power))]
fn power_from(alloc: Global, base: Expr, tokens: &[Token], room: u8) -> Taken<'_, Expr>
    ensures read { (ts : List Token) → (primary room (nested room Whole)).read ts ≡ Read base tokens.now → Gives (λ x. Read x.0 x.1.now) result ((power room (nested room Whole) (nested room Factor)).read ts) }
    ensures no_longer { IfOk result (λ x. length x.1.now ≤ length tokens.now) }
{
    let ((base, exponent), rest) = with(base, exponent_of(alloc, tokens, room))?;
    Ok((as_power(alloc, base, exponent)?, rest))
}

/// The exponent behind a base, if it has one, and the place of its operator.
#[cycle(expr)]
#[tactic(auto, using(crate::proofs::Nestings::nested_is), unfolding(py_ast::specs::Grammar::exponent))]
fn exponent_of(alloc: Global, tokens: &[Token], room: u8) -> Taken<'_, Option<(Pos, Expr)>>
    ensures read { Gives (λ x. Read x.0 x.1.now) result ((exponent room (nested room Factor)).read tokens.now) }
    ensures no_longer { IfOk result (λ x. length x.1.now ≤ length tokens.now) }
{
    if !stands(tokens, DOUBLE_STAR) {
        return Ok((None, tokens));
    }
    let (at, rest) = open(tokens, DOUBLE_STAR, room)?;
    let (exponent, rest) = factor_of(alloc, rest, room - 1)?;
    Ok((Some((at, exponent)), rest))
}

/// A primary: an atom, and what is done to it.
#[cycle(expr)]
fn primary_of(alloc: Global, tokens: &[Token], room: u8) -> Taken<'_, Expr>
    ensures read { Gives (λ x. Read x.0 x.1.now) result ((primary room (nested room Whole)).read tokens.now) }
    ensures shorter { IfOk result (λ x. length x.1.now < length tokens.now) }
{
    primary_by(
        alloc,
        tokens,
        room,
        |rest: &[Token]|
            ensures read { Gives (λ x. Read x.0 x.1.now) result ((nested room Whole).read rest.now) }
            ensures shorter { IfOk result (λ x. length x.1.now < length rest.now) }
        { nested_of(alloc, rest, room) },
    )
}

/// The expression in a bracket, for which there is one nesting less.
#[cycle(expr)]
#[tactic(auto, using(crate::proofs::Nestings::nested_is, crate::proofs::Nestings::nested_never))]
fn nested_of(alloc: Global, tokens: &[Token], room: u8) -> Taken<'_, Expr>
    ensures read { Gives (λ x. Read x.0 x.1.now) result ((nested room Whole).read tokens.now) }
    ensures shorter { IfOk result (λ x. length x.1.now < length tokens.now) }
{
    if room == 0 {
        never_of(tokens)
    } else {
        expr_of(alloc, tokens, room - 1)
    }
}

/// What stands in a nesting for which there is no room: the token that opens it is refused before.
fn never_of(tokens: &[Token]) -> Taken<'_, Expr>
    ensures read { Gives (λ x. Read x.0 x.1.now) result ((never class expr_first).read tokens.now) }
    ensures shorter { IfOk result (λ x. length x.1.now < length tokens.now) }
{
    match tokens {
        [first, ..] => {
            if begins_expr(class_of(first)) {
                Err(Stop::Fault(Fault::TooDeep, tokens))
            } else {
                Err(Stop::Fault(Fault::Syntax, tokens))
            }
        }
        [] => Err(Stop::Fault(Fault::Syntax, tokens)),
    }
}

/// Expressions between commas, with room for so many nestings in each: a tuple where there is a comma.
///
/// Linear in the tokens that it takes.
#[tactic(auto, using(crate::proofs::Nestings::nested_more))]
pub fn exprs_of(alloc: Global, tokens: &[Token], room: u8) -> Taken<'_, Expr>
    requires { room < 255 }
    ensures read { Gives (λ x. Read x.0 x.1.now) result ((exprs (expr room)).read tokens.now) }
    ensures shorter { IfOk result (λ x. length x.1.now < length tokens.now) }
{
    exprs_by(
        alloc,
        tokens,
        room + 1,
        &|rest: &[Token]|
            ensures read { Gives (λ x. Read x.0 x.1.now) result ((nested (room + 1) Whole).read rest.now) }
            ensures shorter { IfOk result (λ x. length x.1.now < length rest.now) }
        { expr_of(alloc, rest, room) },
    )
}
