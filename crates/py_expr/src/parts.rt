//! Productions in which no expression nests: attributes, comparisons, and what begins a larger phrase.

ghost use Rattle.std.specs.Prelude.{◌≡◌, ◌<◌, ◌≤◌, ◌∷◌, [], ℕ, true, false, IfOk, length, drop};
ghost use Rattle.phrases.specs.Sets.{has, starts};
ghost use Rattle.phrases.specs.Reading.{Read};
ghost use Rattle.phrases.specs.Loops.{Gives};
ghost use Rattle.py_ast.specs.Kinds.{class};
ghost use Rattle.py_ast.specs.Tokens.{leaf_codes, unary_codes, level_codes};
ghost use Rattle.py_ast.specs.Grammar.{expr_first, string_first, step_first, argument_first, comparison_first, attribute, after_is, comparator};

use crate::class::{
    AND, DOT, DOUBLE_STAR, F_STRING_START, IF, IN, IS, NOT, OR, TEXT, begins_argument, begins_expr,
    begins_leaf, begins_logic, begins_operand, begins_operator, begins_step, begins_unary,
    class_of, code_of, goes_wider, is_name, is_text,
};
use crate::token::{Taken, comparator_token, mark, name_token, stands};
use py_ast::{Comparator, Step, StepForm};
use py_lexer::Token;
use py_literals::place::Pos;

/// Whether an expression begins here.
pub fn stands_expr(tokens: &[Token]) -> bool
    ensures { result ≡ starts class expr_first tokens.now }
{
    match tokens {
        [first, ..] => begins_expr(class_of(first)),
        [] => false,
    }
}

/// Whether a unary operator stands here.
#[tactic(auto, using(crate::proofs::Marks::unary_is))]
pub fn stands_unary(tokens: &[Token]) -> bool
    ensures { result ≡ starts class unary_codes tokens.now }
{
    match tokens {
        [first, ..] => begins_unary(code_of(first.kind)),
        [] => false,
    }
}

/// Whether `not` or a unary operator stands here, with which no primary begins.
#[tactic(auto, using(crate::proofs::Marks::unary_is, crate::proofs::Marks::not_is))]
pub fn stands_prefix(tokens: &[Token]) -> bool
    ensures unary { result ≡ false → starts class unary_codes tokens.now ≡ false }
    ensures negation { result ≡ false → starts class (NOT ∷ []) tokens.now ≡ false }
{
    match tokens {
        [first, ..] => {
            let code = code_of(first.kind);
            code == NOT || begins_unary(code)
        }
        [] => false,
    }
}

/// Whether a binary operator of this level stands here, the tightest first.
#[tactic(auto, using(crate::proofs::Marks::level_is))]
pub fn stands_operand(tokens: &[Token], level: u8) -> bool
    requires { level < 6 }
    ensures { result ≡ starts class (level_codes level) tokens.now }
{
    match tokens {
        [first, ..] => begins_operand(level, code_of(first.kind)),
        [] => false,
    }
}

/// Whether a binary operator of any level stands here, or a comparison.
#[tactic(auto, using(crate::proofs::Marks::level_is, crate::proofs::Marks::comparison_is))]
pub fn stands_operator(tokens: &[Token]) -> bool
    ensures binary { (level : ℕ) → result ≡ false → starts class (level_codes level) tokens.now ≡ false }
    ensures comparison { result ≡ false → starts class comparison_first tokens.now ≡ false }
{
    match tokens {
        [first, ..] => begins_operator(code_of(first.kind)),
        [] => false,
    }
}

/// Whether `and`, `or` or `if` stands here.
#[tactic(auto, using(crate::proofs::Marks::and_is, crate::proofs::Marks::or_is, crate::proofs::Marks::if_is))]
pub fn stands_logic(tokens: &[Token]) -> bool
    ensures conjunction { result ≡ false → starts class (AND ∷ []) tokens.now ≡ false }
    ensures disjunction { result ≡ false → starts class (OR ∷ []) tokens.now ≡ false }
    ensures choice { result ≡ false → starts class (IF ∷ []) tokens.now ≡ false }
{
    match tokens {
        [first, ..] => begins_logic(code_of(first.kind)),
        [] => false,
    }
}

/// Whether a power, operands, a comparison or a conditional goes on here behind a primary.
#[tactic(auto, using(crate::proofs::Marks::power_is, crate::proofs::Marks::level_is, crate::proofs::Marks::comparison_is, crate::proofs::Marks::and_is, crate::proofs::Marks::or_is, crate::proofs::Marks::if_is))]
pub fn stands_wider(tokens: &[Token]) -> bool
    ensures exponent { result ≡ false → starts class (DOUBLE_STAR ∷ []) tokens.now ≡ false }
    ensures binary { (level : ℕ) → result ≡ false → starts class (level_codes level) tokens.now ≡ false }
    ensures comparison { result ≡ false → starts class comparison_first tokens.now ≡ false }
    ensures conjunction { result ≡ false → starts class (AND ∷ []) tokens.now ≡ false }
    ensures disjunction { result ≡ false → starts class (OR ∷ []) tokens.now ≡ false }
    ensures choice { result ≡ false → starts class (IF ∷ []) tokens.now ≡ false }
{
    match tokens {
        [first, ..] => goes_wider(code_of(first.kind)),
        [] => false,
    }
}

/// Whether a step stands here, which may be a call where `callable` says so.
#[tactic(auto, using(crate::proofs::Marks::step_is))]
pub fn stands_step(tokens: &[Token], callable: bool) -> bool
    ensures { result ≡ starts class (step_first callable) tokens.now }
{
    match tokens {
        [first, ..] => begins_step(callable, code_of(first.kind)),
        [] => false,
    }
}

/// Whether a string begins here.
#[inline(always)]
fn stands_string(tokens: &[Token]) -> bool
    ensures { result ≡ starts class string_first tokens.now }
{
    stands(tokens, TEXT) || stands(tokens, F_STRING_START)
}

/// Whether a primary, a power, operands, a comparison or a conditional goes on here behind an atom.
fn stands_on(tokens: &[Token]) -> bool
    ensures step { result ≡ false → starts class (step_first true) tokens.now ≡ false }
    ensures exponent { result ≡ false → starts class (DOUBLE_STAR ∷ []) tokens.now ≡ false }
    ensures binary { (level : ℕ) → result ≡ false → starts class (level_codes level) tokens.now ≡ false }
    ensures comparison { result ≡ false → starts class comparison_first tokens.now ≡ false }
    ensures conjunction { result ≡ false → starts class (AND ∷ []) tokens.now ≡ false }
    ensures disjunction { result ≡ false → starts class (OR ∷ []) tokens.now ≡ false }
    ensures choice { result ≡ false → starts class (IF ∷ []) tokens.now ≡ false }
{
    stands_step(tokens, true) || stands_wider(tokens)
}

/// Whether an atom of one token stands here.
#[inline(always)]
pub fn stands_leaf(tokens: &[Token]) -> bool
    ensures { result ≡ starts class leaf_codes tokens.now }
{
    match tokens {
        [first, ..] => begins_leaf(class_of(first)),
        [] => false,
    }
}

/// Whether an atom of one token stands here, and no token behind it goes on with it.
pub fn stands_alone(tokens: &[Token]) -> bool
    ensures leaf { result ≡ true → starts class leaf_codes tokens.now ≡ true }
    ensures step { result ≡ true → starts class (step_first true) (drop 1 tokens.now) ≡ false }
    ensures exponent { result ≡ true → starts class (DOUBLE_STAR ∷ []) (drop 1 tokens.now) ≡ false }
    ensures binary { (level : ℕ) → result ≡ true → starts class (level_codes level) (drop 1 tokens.now) ≡ false }
    ensures comparison { result ≡ true → starts class comparison_first (drop 1 tokens.now) ≡ false }
    ensures conjunction { result ≡ true → starts class (AND ∷ []) (drop 1 tokens.now) ≡ false }
    ensures disjunction { result ≡ true → starts class (OR ∷ []) (drop 1 tokens.now) ≡ false }
    ensures choice { result ≡ true → starts class (IF ∷ []) (drop 1 tokens.now) ≡ false }
{
    match tokens {
        [first, rest @ ..] => !stands_on(rest) && begins_leaf(class_of(first)),
        [] => false,
    }
}

/// Whether a string that isn't formatted stands here, and no token behind it goes on with it.
pub fn stands_text_alone(tokens: &[Token]) -> bool
    ensures text { result ≡ true → starts class (TEXT ∷ []) tokens.now ≡ true }
    ensures string { result ≡ true → starts class string_first (drop 1 tokens.now) ≡ false }
    ensures step { result ≡ true → starts class (step_first true) (drop 1 tokens.now) ≡ false }
    ensures exponent { result ≡ true → starts class (DOUBLE_STAR ∷ []) (drop 1 tokens.now) ≡ false }
    ensures binary { (level : ℕ) → result ≡ true → starts class (level_codes level) (drop 1 tokens.now) ≡ false }
    ensures comparison { result ≡ true → starts class comparison_first (drop 1 tokens.now) ≡ false }
    ensures conjunction { result ≡ true → starts class (AND ∷ []) (drop 1 tokens.now) ≡ false }
    ensures disjunction { result ≡ true → starts class (OR ∷ []) (drop 1 tokens.now) ≡ false }
    ensures choice { result ≡ true → starts class (IF ∷ []) (drop 1 tokens.now) ≡ false }
{
    match tokens {
        [first, rest @ ..] => is_text(first) && !stands_string(rest) && !stands_on(rest),
        [] => false,
    }
}

/// Whether an argument begins here, which must have a keyword where `keyword` says so.
pub fn stands_argument(tokens: &[Token], keyword: bool) -> bool
    ensures { result ≡ starts class (argument_first keyword) tokens.now }
{
    match tokens {
        [first, ..] => is_name(first) || begins_argument(keyword, class_of(first)),
        [] => false,
    }
}

/// An attribute of a primary.
#[tactic(auto, unfolding(py_ast::specs::Grammar::attribute, py_ast::specs::Grammar::past, py_ast::specs::Grammar::mapped))]
pub fn attribute_of(tokens: &[Token]) -> Taken<'_, Step>
    ensures read { Gives (λ x. Read x.0 x.1.now) result (attribute.read tokens.now) }
    ensures shorter { IfOk result (λ x. length x.1.now < length tokens.now) }
{
    let (_, rest) = mark(tokens, DOT)?;
    let (name, rest) = name_token(rest)?;
    Ok((
        Step {
            node: name.at,
            form: StepForm::Attribute(name.name),
        },
        rest,
    ))
}

/// What `is` and the tokens behind it compare by.
#[tactic(auto, unfolding(py_ast::specs::Grammar::after_is, py_ast::specs::Grammar::past))]
pub fn after_is_of(tokens: &[Token]) -> Taken<'_, Comparator>
    ensures read { Gives (λ x. Read x.0 x.1.now) result (after_is.read tokens.now) }
    ensures no_longer { IfOk result (λ x. length x.1.now ≤ length tokens.now) }
{
    if !stands(tokens, NOT) {
        return Ok((Comparator::Is, tokens));
    }
    let (_, rest) = mark(tokens, NOT)?;
    Ok((Comparator::IsNot, rest))
}

/// A comparison, of one token or two, at its first one.
#[tactic(auto, unfolding(py_ast::specs::Grammar::comparator))]
pub fn comparator_of(tokens: &[Token]) -> Taken<'_, (Comparator, Pos)>
    ensures read { Gives (λ x. Read (x.0.0, x.0.1) x.1.now) result (comparator.read tokens.now) }
    ensures shorter { IfOk result (λ x. length x.1.now < length tokens.now) }
{
    if stands(tokens, NOT) {
        let (at, rest) = mark(tokens, NOT)?;
        let (_, rest) = mark(rest, IN)?;
        return Ok(((Comparator::NotIn, at), rest));
    }
    if stands(tokens, IS) {
        let (at, rest) = mark(tokens, IS)?;
        let (comparator, rest) = after_is_of(rest)?;
        return Ok(((comparator, at), rest));
    }
    comparator_token(tokens)
}
