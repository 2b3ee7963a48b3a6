//! Simple statements but imports (Language Reference, chapter 7): a function for each production.

ghost use Rattle.std.specs.Prelude.{◌≡◌, ◌<◌, ◌≤◌, ◌∷◌, [], ℕ, List, Option, Some, None, IfOk, length};
ghost use Rattle.phrases.specs.Sets.{has, starts};
ghost use Rattle.phrases.specs.Reading.{Read};
ghost use Rattle.phrases.specs.Phrases.{token, nothing, sequence, either};
ghost use Rattle.phrases.specs.Loops.{Gives};
ghost use Rattle.py_ast.specs.Kinds.{class, mark_of};
ghost use Rattle.py_ast.specs.Grammar.{expr_first, mapped, past, exprs, expr};
ghost use Rattle.py_ast.specs.Statements.{optional, stmt_at, augment_codes, augment_in, augment_of, assigned, annotated, augmented, tail, begun, begun_stmt, word_codes, word_in, word_of, assert_stmt, return_stmt, assert_or_return, simple};

use crate::words::{is_augmented, is_word, stands_augmented, stands_expr, stands_word};
use phrases::{Fault, Stop};
use py_ast::{AugmentOperator, Expr, Stmt, StmtForm, Tail, Target};
use py_expr::class::{ASSERT, COLON, COMMA, EQUAL, RETURN, class_of};
use py_expr::expr::{expr_of, exprs_of};
use py_expr::reading::DEEPEST;
use py_expr::steps::with;
use py_expr::token::{Taken, mark, stands};
use py_lexer::{Kind, Token};
use py_literals::place::Pos;
use sqlite_items::Boxed;
use std::alloc::Global;

fn augment_in(kind: Kind) -> Option<AugmentOperator>
    ensures { result ≡ augment_in kind }
{
    match kind {
        Kind::PlusEqual => Some(AugmentOperator::Add),
        Kind::MinusEqual => Some(AugmentOperator::Subtract),
        Kind::StarEqual => Some(AugmentOperator::Multiply),
        Kind::SlashEqual => Some(AugmentOperator::Divide),
        Kind::DoubleSlashEqual => Some(AugmentOperator::FloorDivide),
        Kind::PercentEqual => Some(AugmentOperator::Remainder),
        Kind::AtEqual => Some(AugmentOperator::MatrixMultiply),
        Kind::AmpersandEqual => Some(AugmentOperator::BitAnd),
        Kind::BarEqual => Some(AugmentOperator::BitOr),
        Kind::CaretEqual => Some(AugmentOperator::BitXor),
        Kind::RightShiftEqual => Some(AugmentOperator::RightShift),
        Kind::LeftShiftEqual => Some(AugmentOperator::LeftShift),
        Kind::DoubleStarEqual => Some(AugmentOperator::Power),
        _ => None,
    }
}

/// An operator with `=`.
fn augment_token(tokens: &[Token]) -> Taken<'_, (AugmentOperator, Pos)>
    ensures read { Gives (λ x. Read (x.0.0, x.0.1) x.1.now) result ((token augment_of).read tokens.now) }
    ensures shorter { IfOk result (λ x. length x.1.now < length tokens.now) }
{
    match tokens {
        [first, rest @ ..] => {
            if !is_augmented(class_of(first)) {
                return Err(Stop::Fault(Fault::Syntax, tokens));
            }
            match augment_in(first.kind) {
                None => Err(Stop::Fault(Fault::Syntax, tokens)),
                Some(operator) => Ok(((operator, first.at), rest)),
            }
        }
        [] => Err(Stop::Fault(Fault::Syntax, tokens)),
    }
}

/// `=` and what is assigned.
#[tactic(auto, unfolding(py_ast::specs::Statements::assigned))]
pub fn assigned_of(alloc: Global, tokens: &[Token]) -> Taken<'_, Tail>
    ensures read { Gives (λ x. Read x.0 x.1.now) result ((assigned (expr 100)).read tokens.now) }
    ensures shorter { IfOk result (λ x. length x.1.now < length tokens.now) }
{
    let (at, rest) = mark(tokens, EQUAL)?;
    let (value, rest) = exprs_of(alloc, rest, DEEPEST)?;
    Ok((Tail::Assigned(at, value), rest))
}

/// The value behind `=`, if there is one.
#[tactic(auto, unfolding(py_ast::specs::Statements::optional, py_ast::specs::Grammar::mapped, py_ast::specs::Grammar::past))]
fn value_of(alloc: Global, tokens: &[Token]) -> Taken<'_, Option<Boxed<Expr>>>
    ensures read { Gives (λ x. Read x.0 x.1.now) result ((optional (EQUAL ∷ []) (past EQUAL (exprs (expr 100)))).read tokens.now) }
    ensures no_longer { IfOk result (λ x. length x.1.now ≤ length tokens.now) }
{
    if !stands(tokens, EQUAL) {
        return Ok((None, tokens));
    }
    let (_, rest) = mark(tokens, EQUAL)?;
    let (value, rest) = exprs_of(alloc, rest, DEEPEST)?;
    Ok((Some(Boxed::new(alloc, value)?), rest))
}

/// `:`, an annotation, and a value if there is one.
#[tactic(auto, unfolding(py_ast::specs::Statements::annotated))]
pub fn annotated_of(alloc: Global, tokens: &[Token]) -> Taken<'_, Tail>
    ensures read { Gives (λ x. Read x.0 x.1.now) result ((annotated (expr 100)).read tokens.now) }
    ensures shorter { IfOk result (λ x. length x.1.now < length tokens.now) }
{
    let (at, rest) = mark(tokens, COLON)?;
    let (annotation, rest) = expr_of(alloc, rest, DEEPEST)?;
    let annotation = Boxed::new(alloc, annotation)?;
    let ((annotation, value), rest) = with(annotation, value_of(alloc, rest))?;
    Ok((Tail::Annotated(at, annotation, value), rest))
}

/// An operator with `=`, and its right operand.
#[tactic(auto, unfolding(py_ast::specs::Statements::augmented))]
fn augmented_of(alloc: Global, tokens: &[Token]) -> Taken<'_, Tail>
    ensures read { Gives (λ x. Read x.0 x.1.now) result ((augmented (expr 100)).read tokens.now) }
    ensures shorter { IfOk result (λ x. length x.1.now < length tokens.now) }
{
    let ((operator, at), rest) = augment_token(tokens)?;
    let (value, rest) = exprs_of(alloc, rest, DEEPEST)?;
    Ok((
        Tail::Augmented(operator, at, Boxed::new(alloc, value)?),
        rest,
    ))
}

/// What follows the expressions that a statement begins with, by what they are as a target.
#[tactic(auto, unfolding(py_ast::specs::Statements::tail))]
fn tail_of(alloc: Global, tokens: &[Token], target: Target) -> Taken<'_, Tail>
    ensures read { Gives (λ x. Read x.0 x.1.now) result ((tail (expr 100) target).read tokens.now) }
    ensures no_longer { IfOk result (λ x. length x.1.now ≤ length tokens.now) }
{
    match target {
        Target::Nothing => Ok((Tail::Alone, tokens)),
        Target::Names => {
            if stands(tokens, EQUAL) {
                assigned_of(alloc, tokens)
            } else {
                Ok((Tail::Alone, tokens))
            }
        }
        Target::Place => {
            if stands(tokens, EQUAL) {
                assigned_of(alloc, tokens)
            } else if stands_augmented(tokens) {
                augmented_of(alloc, tokens)
            } else {
                Ok((Tail::Alone, tokens))
            }
        }
        Target::Variable => {
            if stands(tokens, EQUAL) {
                assigned_of(alloc, tokens)
            } else if stands_augmented(tokens) {
                augmented_of(alloc, tokens)
            } else if stands(tokens, COLON) {
                annotated_of(alloc, tokens)
            } else {
                Ok((Tail::Alone, tokens))
            }
        }
    }
}

/// A statement of the expressions that it begins with, and what follows them.
pub fn begun_with(first: Expr, tail: Tail) -> Stmt
    ensures { result ≡ begun_stmt first tail }
{
    let anchor = first.target_anchor();
    match tail {
        Tail::Alone => Stmt {
            node: first.node,
            anchor: first.anchor,
            form: StmtForm::Expression(first),
        },
        Tail::Assigned(node, value) => Stmt {
            node,
            anchor,
            form: StmtForm::Assign(first, value),
        },
        Tail::Annotated(node, annotation, value) => Stmt {
            node,
            anchor,
            form: StmtForm::Annotate(first, annotation, value),
        },
        Tail::Augmented(operator, node, value) => Stmt {
            node,
            anchor,
            form: StmtForm::Augment(first, operator, value),
        },
    }
}

/// A statement that begins with an expression.
#[tactic(auto, unfolding(py_ast::specs::Statements::begun))]
fn begun_of(alloc: Global, tokens: &[Token]) -> Taken<'_, Stmt>
    ensures read { Gives (λ x. Read x.0 x.1.now) result ((begun (expr 100)).read tokens.now) }
    ensures shorter { IfOk result (λ x. length x.1.now < length tokens.now) }
{
    let (first, rest) = exprs_of(alloc, tokens, DEEPEST)?;
    let target = first.target();
    let ((first, tail), rest) = with(first, tail_of(alloc, rest, target))?;
    Ok((begun_with(first, tail), rest))
}

/// A statement whose first word stands here.
pub fn word_stmt(at: Pos, form: StmtForm) -> Stmt
    ensures { result ≡ stmt_at at form }
{
    Stmt {
        node: at,
        anchor: at,
        form,
    }
}

fn word_in(kind: Kind) -> Option<StmtForm>
    ensures { result ≡ word_in kind }
{
    match kind {
        Kind::Pass => Some(StmtForm::Pass),
        Kind::Break => Some(StmtForm::Break),
        Kind::Continue => Some(StmtForm::Continue),
        _ => None,
    }
}

/// `pass`, or in a loop `break` or `continue`.
pub fn word_token(tokens: &[Token], loops: bool) -> Taken<'_, Stmt>
    ensures read { Gives (λ x. Read x.0 x.1.now) result ((token (word_of loops)).read tokens.now) }
    ensures shorter { IfOk result (λ x. length x.1.now < length tokens.now) }
{
    match tokens {
        [first, rest @ ..] => {
            if !is_word(loops, class_of(first)) {
                return Err(Stop::Fault(Fault::Syntax, tokens));
            }
            match word_in(first.kind) {
                None => Err(Stop::Fault(Fault::Syntax, tokens)),
                Some(form) => Ok((word_stmt(first.at, form), rest)),
            }
        }
        [] => Err(Stop::Fault(Fault::Syntax, tokens)),
    }
}

/// What an assertion says where it fails, if it says something.
#[tactic(auto, unfolding(py_ast::specs::Statements::optional, py_ast::specs::Grammar::mapped, py_ast::specs::Grammar::past))]
fn message_of(alloc: Global, tokens: &[Token]) -> Taken<'_, Option<Boxed<Expr>>>
    ensures read { Gives (λ x. Read x.0 x.1.now) result ((optional (COMMA ∷ []) (past COMMA (expr 100))).read tokens.now) }
    ensures no_longer { IfOk result (λ x. length x.1.now ≤ length tokens.now) }
{
    if !stands(tokens, COMMA) {
        return Ok((None, tokens));
    }
    let (_, rest) = mark(tokens, COMMA)?;
    let (message, rest) = expr_of(alloc, rest, DEEPEST)?;
    Ok((Some(Boxed::new(alloc, message)?), rest))
}

#[tactic(auto, unfolding(py_ast::specs::Statements::assert_stmt))]
fn assert_of(alloc: Global, tokens: &[Token]) -> Taken<'_, Stmt>
    ensures read { Gives (λ x. Read x.0 x.1.now) result ((assert_stmt (expr 100)).read tokens.now) }
    ensures shorter { IfOk result (λ x. length x.1.now < length tokens.now) }
{
    let (at, rest) = mark(tokens, ASSERT)?;
    let (condition, rest) = expr_of(alloc, rest, DEEPEST)?;
    let ((condition, message), rest) = with(condition, message_of(alloc, rest))?;
    Ok((word_stmt(at, StmtForm::Assert(condition, message)), rest))
}

/// What is returned, if it is said.
#[tactic(auto, unfolding(py_ast::specs::Statements::optional, py_ast::specs::Grammar::mapped))]
fn returned_of(alloc: Global, tokens: &[Token]) -> Taken<'_, Option<Expr>>
    ensures read { Gives (λ x. Read x.0 x.1.now) result ((optional expr_first (exprs (expr 100))).read tokens.now) }
    ensures no_longer { IfOk result (λ x. length x.1.now ≤ length tokens.now) }
{
    if !stands_expr(tokens) {
        return Ok((None, tokens));
    }
    let (value, rest) = exprs_of(alloc, tokens, DEEPEST)?;
    Ok((Some(value), rest))
}

#[tactic(auto, unfolding(py_ast::specs::Statements::return_stmt))]
fn return_of(alloc: Global, tokens: &[Token]) -> Taken<'_, Stmt>
    ensures read { Gives (λ x. Read x.0 x.1.now) result ((return_stmt (expr 100)).read tokens.now) }
    ensures shorter { IfOk result (λ x. length x.1.now < length tokens.now) }
{
    let (at, rest) = mark(tokens, RETURN)?;
    let (value, rest) = returned_of(alloc, rest)?;
    Ok((word_stmt(at, StmtForm::Return(value)), rest))
}

#[tactic(auto, unfolding(py_ast::specs::Statements::assert_or_return))]
fn assert_or_return_of(alloc: Global, tokens: &[Token], returns: bool) -> Taken<'_, Stmt>
    ensures read { Gives (λ x. Read x.0 x.1.now) result ((assert_or_return (expr 100) returns).read tokens.now) }
    ensures shorter { IfOk result (λ x. length x.1.now < length tokens.now) }
{
    if returns && !stands(tokens, ASSERT) {
        return_of(alloc, tokens)
    } else {
        assert_of(alloc, tokens)
    }
}

/// A simple statement, in a function or not, and in a loop or not.
#[tactic(auto, unfolding(py_ast::specs::Statements::simple))]
pub fn simple_of(alloc: Global, tokens: &[Token], returns: bool, loops: bool) -> Taken<'_, Stmt>
    ensures read { Gives (λ x. Read x.0 x.1.now) result ((simple (expr 100) returns loops).read tokens.now) }
    ensures shorter { IfOk result (λ x. length x.1.now < length tokens.now) }
{
    if stands_expr(tokens) {
        begun_of(alloc, tokens)
    } else if stands_word(tokens, loops) {
        word_token(tokens, loops)
    } else {
        assert_or_return_of(alloc, tokens, returns)
    }
}
