//! Primaries (Language Reference, 6.3), over a function that reads one expression inside of brackets.

ghost use Rattle.std.specs.Prelude.{◌≡◌, ◌<◌, ◌≤◌, ◌∷◌, ◌++◌, [], ℕ, List, Option, Some, None, IfOk, length, true, false};
ghost use Rattle.phrases.specs.Sets.{has, starts};
ghost use Rattle.phrases.specs.Reading.{Read};
ghost use Rattle.phrases.specs.Phrases.{opener, sequence};
ghost use Rattle.phrases.specs.Loops.{Gives, opening};
ghost use Rattle.py_ast.specs.Kinds.{class, mark_of};
ghost use Rattle.py_ast.specs.Trees.{given, has_keyword, bare_name, keyword_argument_of, argument_of};
ghost use Rattle.py_ast.specs.Grammar.{mapped, past, ended, step_first, step_next, argument_first, comma_item, goes_past, after_argument, argument, exprs, call, subscript, step, chain, atom, primary, Whole, nested};
ghost use Rattle.py_expr.specs.Readers.{ReadsSome};

use crate::atom::atom_by;
use crate::build::{as_argument, as_postfix};
use crate::class::{
    COMMA, DOT, EQUAL, LEFT_BRACKET, LEFT_PAREN, RIGHT_BRACKET, RIGHT_PAREN, SUPER, begins_step,
    code_of,
};
use crate::inner::{exprs_by, nested_by, past_by};
use crate::parts::{attribute_of, stands_argument, stands_step};
use crate::steps::with;
use crate::token::{Taken, mark, name_token, open, stands, super_token};
use phrases::{Stop, series};
use py_ast::{Argument, Expr, NameAt, Step, StepForm};
use py_lexer::Token;
use py_literals::place::Pos;
use rv_names::Memory;
use sqlite_items::{Boxed, Items};
use std::alloc::{AllocError, Global};

/// How many arguments most calls of several have at most.
const FEW: usize = 3;

/// A primary: an atom, and what is done to it. Where no step stands behind the atom, it is the primary.
#[tactic(auto, using(crate::proofs::Ends::primary_alone))]
pub fn primary_by<'a, F>(alloc: Global, tokens: &'a [Token], room: u8, inner: F) -> Taken<'a, Expr>
where
    F: Fn(&[Token]) -> Taken<'_, Expr>,
    requires can_call { F.IsAlwaysCallable inner }
    requires reads { ReadsSome (λ ts r. F.post inner ts r) (nested room Whole).read }
    ensures read { Gives (λ x. Read x.0 x.1.now) result ((primary room (nested room Whole)).read tokens.now) }
    ensures shorter { IfOk result (λ x. length x.1.now < length tokens.now) }
{
    let (base, rest) = atom_by(alloc, tokens, room, &inner)?;
    if !stands_step(rest, true) {
        return Ok((base, rest));
    }
    postfix_by(alloc, base, rest, room, &inner)
}

/// What is done to a primary whose atom was read, where the tokens begin behind that.
#[tactic(auto, unfolding(py_ast::specs::Grammar::primary))]
fn postfix_by<'a, F>(
    alloc: Global,
    base: Expr,
    tokens: &'a [Token],
    room: u8,
    inner: &F,
) -> Taken<'a, Expr>
where
    F: Fn(&[Token]) -> Taken<'_, Expr>,
    requires can_call { F.IsAlwaysCallable inner.now }
    requires reads { ReadsSome (λ ts r. F.post inner.now ts r) (nested room Whole).read }
    ensures read { (ts : List Token) → (atom room (nested room Whole)).read ts ≡ Read base tokens.now → Gives (λ x. Read x.0 x.1.now) result ((primary room (nested room Whole)).read ts) }
    ensures no_longer { IfOk result (λ x. length x.1.now ≤ length tokens.now) }
{
    let callable = base.is_callee();
    let ((base, steps), rest) = with(base, chain_by(alloc, tokens, room, callable, inner))?;
    Ok((as_postfix(alloc, base, steps)?, rest))
}

#[tactic(auto, using(crate::proofs::Marks::step_is))]
fn chain_by<'a, F>(
    alloc: Global,
    tokens: &'a [Token],
    room: u8,
    callable: bool,
    inner: &F,
) -> Taken<'a, Items<Step>>
where
    F: Fn(&[Token]) -> Taken<'_, Expr>,
    requires can_call { F.IsAlwaysCallable inner.now }
    requires reads { ReadsSome (λ ts r. F.post inner.now ts r) (nested room Whole).read }
    ensures read { Gives (λ x. Read x.0 x.1.now) result ((chain room (nested room Whole) callable).read tokens.now) }
    ensures no_longer { IfOk result (λ x. length x.1.now ≤ length tokens.now) }
{
    series(
        alloc,
        tokens,
        callable,
        |callable: bool, token: &Token|
            ensures { result ≡ has (step_first callable) (class token.now) }
        { begins_step(callable, code_of(token.kind)) },
        |callable: bool, rest: &[Token]|
            requires can_call { F.IsAlwaysCallable inner.now }
            requires reads { ReadsSome (λ ts r. F.post inner.now ts r) (nested room Whole).read }
            ensures read { Gives (λ x. Read x.0.0 x.1.now) result ((step room (nested room Whole) callable).read rest.now) }
            ensures next { IfOk result (λ x. x.0.1 ≡ step_next callable x.0.0) }
            ensures shorter { IfOk result (λ x. length x.1.now < length rest.now) }
        { step_by(alloc, rest, room, callable, inner) },
    )
}

#[tactic(auto, unfolding(py_ast::specs::Grammar::step))]
fn step_by<'a, F>(
    alloc: Global,
    tokens: &'a [Token],
    room: u8,
    callable: bool,
    inner: &F,
) -> Taken<'a, (Step, Option<bool>)>
where
    F: Fn(&[Token]) -> Taken<'_, Expr>,
    requires can_call { F.IsAlwaysCallable inner.now }
    requires reads { ReadsSome (λ ts r. F.post inner.now ts r) (nested room Whole).read }
    ensures read { Gives (λ x. Read x.0.0 x.1.now) result ((step room (nested room Whole) callable).read tokens.now) }
    ensures next { IfOk result (λ x. x.0.1 ≡ step_next callable x.0.0) }
    ensures shorter { IfOk result (λ x. length x.1.now < length tokens.now) }
{
    let (step, rest) = if stands(tokens, DOT) {
        attribute_of(tokens)?
    } else if !callable || stands(tokens, LEFT_BRACKET) {
        subscript_by(alloc, tokens, room, inner)?
    } else {
        call_by(alloc, tokens, room, inner)?
    };
    let callable = step.is_callable();
    Ok(((step, Some(callable)), rest))
}

#[tactic(auto, unfolding(py_ast::specs::Grammar::subscript))]
fn subscript_by<'a, F>(alloc: Global, tokens: &'a [Token], room: u8, inner: &F) -> Taken<'a, Step>
where
    F: Fn(&[Token]) -> Taken<'_, Expr>,
    requires can_call { F.IsAlwaysCallable inner.now }
    requires reads { ReadsSome (λ ts r. F.post inner.now ts r) (nested room Whole).read }
    ensures read { Gives (λ x. Read x.0 x.1.now) result ((subscript room (nested room Whole)).read tokens.now) }
    ensures shorter { IfOk result (λ x. length x.1.now < length tokens.now) }
{
    let (node, rest) = open(tokens, LEFT_BRACKET, room)?;
    let (index, rest) = index_by(alloc, rest, room, inner)?;
    let form = StepForm::Subscript(index);
    Ok((Step { node, form }, rest))
}

/// What stands in the brackets of a subscript, and the bracket behind it.
#[tactic(auto, unfolding(py_ast::specs::Grammar::ended))]
fn index_by<'a, F>(
    alloc: Global,
    tokens: &'a [Token],
    room: u8,
    inner: &F,
) -> Taken<'a, Boxed<Expr>>
where
    F: Fn(&[Token]) -> Taken<'_, Expr>,
    requires can_call { F.IsAlwaysCallable inner.now }
    requires reads { ReadsSome (λ ts r. F.post inner.now ts r) (nested room Whole).read }
    ensures read { Gives (λ x. Read x.0 x.1.now) result ((ended (exprs (nested room Whole)) RIGHT_BRACKET).read tokens.now) }
    ensures shorter { IfOk result (λ x. length x.1.now < length tokens.now) }
{
    let (index, rest) = exprs_by(alloc, tokens, room, inner)?;
    let index = Boxed::new(alloc, index)?;
    let (_, rest) = mark(rest, RIGHT_BRACKET)?;
    Ok((index, rest))
}

/// A call: the arguments in its brackets. Most have none or one.
#[tactic(auto, unfolding(py_ast::specs::Grammar::call, py_ast::specs::Grammar::bracketed, py_ast::specs::Grammar::mapped, py_ast::specs::Grammar::ended, py_ast::specs::Grammar::arguments))]
fn call_by<'a, F>(alloc: Global, tokens: &'a [Token], room: u8, inner: &F) -> Taken<'a, Step>
where
    F: Fn(&[Token]) -> Taken<'_, Expr>,
    requires can_call { F.IsAlwaysCallable inner.now }
    requires reads { ReadsSome (λ ts r. F.post inner.now ts r) (nested room Whole).read }
    ensures read { Gives (λ x. Read x.0 x.1.now) result ((call room (nested room Whole)).read tokens.now) }
    ensures shorter { IfOk result (λ x. length x.1.now < length tokens.now) }
{
    let (node, rest) = open(tokens, LEFT_PAREN, room)?;
    if !stands_argument(rest, false) {
        let (_, rest) = mark(rest, RIGHT_PAREN)?;
        let form = StepForm::Call(Items::new(alloc));
        return Ok((Step { node, form }, rest));
    }
    let (first, rest) = argument_by(alloc, rest, room, false, inner)?;
    match call_from(alloc, node, first, rest, room, inner) {
        Ok((step, rest)) => Ok((step, rest)),
        Err(stop) => Err(stop),
    }
}

/// A call, where its bracket and its first argument were read and the tokens begin behind that.
#[inline(never)]
fn call_from<'a, F>(
    alloc: Global,
    node: Pos,
    first: Argument,
    tokens: &'a [Token],
    room: u8,
    inner: &F,
) -> Taken<'a, Step>
where
    F: Fn(&[Token]) -> Taken<'_, Expr>,
    requires can_call { F.IsAlwaysCallable inner.now }
    requires reads { ReadsSome (λ ts r. F.post inner.now ts r) (nested room Whole).read }
    ensures read { (ts ys : List Token) → (opener room (mark_of LEFT_PAREN)).read ts ≡ Read node ys → starts class (argument_first false) ys ≡ true → (argument (nested room Whole) false).read ys ≡ Read first tokens.now → Gives (λ x. Read x.0 x.1.now) result ((call room (nested room Whole)).read ts) }
    ensures no_longer { IfOk result (λ x. length x.1.now ≤ length tokens.now) }
{
    let mut rest = tokens;
    let mut state = Some(first.has_keyword());
    let begun = begun_list(alloc, first, stands(tokens, COMMA))?;
    let mut all = begun;
    'each_argument: while let Some(keyword) = comma_state(rest, state) {
        let ((item, next), after) = match further_argument_by(alloc, rest, room, keyword, inner) {
            Ok(read) => read,
            Err(stop) => return Err(stop),
        };
        all = with_item(all, item)?;
        rest = after;
        state = next;
    }
    let (_, behind) = match mark(rest, RIGHT_PAREN) {
        Ok(read) => read,
        Err(stop) => return Err(stop),
    };
    let form = StepForm::Call(all);
    Ok((Step { node, form }, behind))
}

/// A list that begins with this item, with room for that alone where no more follow.
#[inline(always)]
fn begun_list<A: Drop>(alloc: Global, first: A, more: bool) -> Result<Items<A>, AllocError>
    ensures { IfOk result (λ all. all ≡ first ∷ []) }
{
    let room = if more { FEW } else { 1 };
    let mut all = Vec::with_capacity(alloc, room)?;
    all.push_reserved(first);
    Ok(Items::from_vec(all))
}

/// The state of the argument behind a comma, if one stands at the front and the argument before wasn't the last.
#[inline(always)]
fn comma_state(tokens: &[Token], state: Option<bool>) -> Option<bool>
    ensures { result ≡ opening class (λ s. (COMMA ∷ [])) state tokens.now }
{
    let current = state?;
    if stands(tokens, COMMA) {
        Some(current)
    } else {
        None
    }
}

/// The arguments with one more, if one stands behind the comma.
#[inline(always)]
fn with_item(
    arguments: Items<Argument>,
    item: (Pos, Option<Argument>),
) -> Result<Items<Argument>, AllocError>
    ensures { IfOk result (λ all. all ≡ arguments ++ given (item ∷ [])) }
{
    let mut all = arguments;
    match item.1 {
        Some(argument) => {
            all.push(argument)?;
            Ok(all)
        }
        None => Ok(all),
    }
}

#[tactic(auto, unfolding(py_ast::specs::Grammar::comma_item, py_ast::specs::Grammar::mapped))]
fn further_argument_by<'a, F>(
    alloc: Global,
    tokens: &'a [Token],
    room: u8,
    keyword: bool,
    inner: &F,
) -> Taken<'a, ((Pos, Option<Argument>), Option<bool>)>
where
    F: Fn(&[Token]) -> Taken<'_, Expr>,
    requires can_call { F.IsAlwaysCallable inner.now }
    requires reads { ReadsSome (λ ts r. F.post inner.now ts r) (nested room Whole).read }
    ensures read { Gives (λ x. Read x.0.0 x.1.now) result ((comma_item (argument_first keyword) (argument (nested room Whole) keyword)).read tokens.now) }
    ensures next { IfOk result (λ x. x.0.1 ≡ goes_past has_keyword x.0.0) }
    ensures shorter { IfOk result (λ x. length x.1.now < length tokens.now) }
{
    let (at, rest) = mark(tokens, COMMA)?;
    if !stands_argument(rest, keyword) {
        return Ok((((at, None), None), rest));
    }
    let (argument, rest) = argument_by(alloc, rest, room, keyword, inner)?;
    let next = argument.has_keyword();
    Ok((((at, Some(argument)), Some(next)), rest))
}

/// An argument, which must have a keyword where `keyword` says so. Most need none.
#[tactic(auto, unfolding(py_ast::specs::Grammar::argument))]
fn argument_by<'a, F>(
    alloc: Global,
    tokens: &'a [Token],
    room: u8,
    keyword: bool,
    inner: &F,
) -> Taken<'a, Argument>
where
    F: Fn(&[Token]) -> Taken<'_, Expr>,
    requires can_call { F.IsAlwaysCallable inner.now }
    requires reads { ReadsSome (λ ts r. F.post inner.now ts r) (nested room Whole).read }
    ensures read { Gives (λ x. Read x.0 x.1.now) result ((argument (nested room Whole) keyword).read tokens.now) }
    ensures shorter { IfOk result (λ x. length x.1.now < length tokens.now) }
{
    if keyword || stands(tokens, SUPER) {
        return named_argument_by(alloc, tokens, room, keyword, inner);
    }
    plain_argument_by(alloc, tokens, room, inner)
}

/// An argument, whether it must have a keyword or not.
#[inline(never)]
#[tactic(auto, unfolding(py_ast::specs::Grammar::argument, py_ast::specs::Grammar::keyword_argument, py_ast::specs::Grammar::past, py_ast::specs::Grammar::mapped))]
fn named_argument_by<'a, F>(
    alloc: Global,
    tokens: &'a [Token],
    room: u8,
    keyword: bool,
    inner: &F,
) -> Taken<'a, Argument>
where
    F: Fn(&[Token]) -> Taken<'_, Expr>,
    requires can_call { F.IsAlwaysCallable inner.now }
    requires reads { ReadsSome (λ ts r. F.post inner.now ts r) (nested room Whole).read }
    ensures read { Gives (λ x. Read x.0 x.1.now) result ((argument (nested room Whole) keyword).read tokens.now) }
    ensures shorter { IfOk result (λ x. length x.1.now < length tokens.now) }
{
    if keyword {
        let (name, rest) = name_token(tokens)?;
        let (argument, rest) = keyword_argument_by(alloc, rest, room, name, inner)?;
        return Ok((argument, rest));
    }
    if stands(tokens, SUPER) {
        let (name, rest) = super_token(tokens)?;
        let (argument, rest) = keyword_argument_by(alloc, rest, room, name, inner)?;
        return Ok((argument, rest));
    }
    plain_argument_by(alloc, tokens, room, inner)
}

#[inline(never)]
#[tactic(auto, unfolding(py_ast::specs::Grammar::past, py_ast::specs::Grammar::mapped))]
fn keyword_argument_by<'a, F>(
    alloc: Global,
    tokens: &'a [Token],
    room: u8,
    name: NameAt,
    inner: &F,
) -> Taken<'a, Argument>
where
    F: Fn(&[Token]) -> Taken<'_, Expr>,
    requires can_call { F.IsAlwaysCallable inner.now }
    requires reads { ReadsSome (λ ts r. F.post inner.now ts r) (nested room Whole).read }
    ensures read { Gives (λ x. Read x.0 x.1.now) result ((mapped (past EQUAL (nested room Whole)) (λ e. keyword_argument_of name e)).read tokens.now) }
    ensures shorter { IfOk result (λ x. length x.1.now < length tokens.now) }
{
    let (_, rest) = mark(tokens, EQUAL)?;
    let (value, rest) = nested_by(rest, room, inner)?;
    Ok((
        Argument {
            keyword: Some(name),
            value,
        },
        rest,
    ))
}

/// An argument with no keyword, or with one that may be an expression. Most have none.
#[tactic(auto, using(crate::proofs::Ends::after_alone))]
fn plain_argument_by<'a, F>(
    alloc: Global,
    tokens: &'a [Token],
    room: u8,
    inner: &F,
) -> Taken<'a, Argument>
where
    F: Fn(&[Token]) -> Taken<'_, Expr>,
    requires can_call { F.IsAlwaysCallable inner.now }
    requires reads { ReadsSome (λ ts r. F.post inner.now ts r) (nested room Whole).read }
    ensures read { Gives (λ x. Read x.0 x.1.now) result ((sequence (nested room Whole) (λ e. after_argument (nested room Whole) (bare_name e)) argument_of).read tokens.now) }
    ensures shorter { IfOk result (λ x. length x.1.now < length tokens.now) }
{
    let (value, rest) = nested_by(tokens, room, inner)?;
    if !stands(rest, EQUAL) {
        return Ok((
            Argument {
                keyword: None,
                value,
            },
            rest,
        ));
    }
    let (argument, rest) = argument_from(alloc, value, rest, room, inner)?;
    Ok((argument, rest))
}

/// An argument, where its first expression was read and the tokens begin behind that.
#[inline(never)]
fn argument_from<'a, F>(
    alloc: Global,
    first: Expr,
    tokens: &'a [Token],
    room: u8,
    inner: &F,
) -> Taken<'a, Argument>
where
    F: Fn(&[Token]) -> Taken<'_, Expr>,
    requires can_call { F.IsAlwaysCallable inner.now }
    requires reads { ReadsSome (λ ts r. F.post inner.now ts r) (nested room Whole).read }
    ensures read { (ts : List Token) → (nested room Whole).read ts ≡ Read first tokens.now → Gives (λ x. Read x.0 x.1.now) result ((sequence (nested room Whole) (λ e. after_argument (nested room Whole) (bare_name e)) argument_of).read ts) }
    ensures no_longer { IfOk result (λ x. length x.1.now ≤ length tokens.now) }
{
    let keyword = keyword_behind(alloc, &first, tokens, room, inner);
    let ((first, keyword), rest) = with(first, keyword)?;
    Ok((as_argument(first, keyword), rest))
}

/// The keyword that an expression is, and its value. Whether it is a name is asked only where an `=` stands behind it.
#[tactic(auto, using(crate::proofs::Ends::after_alone))]
fn keyword_behind<'a, F>(
    alloc: Global,
    first: &Expr,
    tokens: &'a [Token],
    room: u8,
    inner: &F,
) -> Taken<'a, Option<(NameAt, Expr)>>
where
    F: Fn(&[Token]) -> Taken<'_, Expr>,
    requires can_call { F.IsAlwaysCallable inner.now }
    requires reads { ReadsSome (λ ts r. F.post inner.now ts r) (nested room Whole).read }
    ensures read { Gives (λ x. Read x.0 x.1.now) result ((after_argument (nested room Whole) (bare_name first.now)).read tokens.now) }
    ensures no_longer { IfOk result (λ x. length x.1.now ≤ length tokens.now) }
{
    if !stands(tokens, EQUAL) {
        return Ok((None, tokens));
    }
    let name = match first.bare_name() {
        Ok(name) => name,
        Err(Memory) => return Err(Stop::Memory),
    };
    after_argument_by(alloc, tokens, room, name, inner)
}

#[inline(never)]
#[tactic(auto, unfolding(py_ast::specs::Grammar::after_argument, py_ast::specs::Grammar::mapped))]
fn after_argument_by<'a, F>(
    alloc: Global,
    tokens: &'a [Token],
    room: u8,
    name: Option<NameAt>,
    inner: &F,
) -> Taken<'a, Option<(NameAt, Expr)>>
where
    F: Fn(&[Token]) -> Taken<'_, Expr>,
    requires can_call { F.IsAlwaysCallable inner.now }
    requires reads { ReadsSome (λ ts r. F.post inner.now ts r) (nested room Whole).read }
    ensures read { Gives (λ x. Read x.0 x.1.now) result ((after_argument (nested room Whole) name).read tokens.now) }
    ensures no_longer { IfOk result (λ x. length x.1.now ≤ length tokens.now) }
{
    match name {
        Some(name) if stands(tokens, EQUAL) => {
            let ((name, value), rest) = with(name, past_by(tokens, EQUAL, room, inner))?;
            Ok((Some((name, value)), rest))
        }
        _ => Ok((None, tokens)),
    }
}
