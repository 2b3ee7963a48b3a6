//! Atoms (Language Reference, 6.2), over a function that reads one expression inside of brackets.

ghost use Rattle.std.specs.Prelude.{◌≡◌, ◌<◌, ◌≤◌, ◌∷◌, [], ℕ, List, Option, Some, None, IfOk, length, false};
ghost use Rattle.phrases.specs.Sets.{has, starts};
ghost use Rattle.phrases.specs.Reading.{Read};
ghost use Rattle.phrases.specs.Phrases.{many, token, nothing, sequence, either};
ghost use Rattle.phrases.specs.Loops.{Gives};
ghost use Rattle.py_ast.specs.Kinds.{class, mark_of};
ghost use Rattle.py_ast.specs.Tokens.{leaf_codes};
ghost use Rattle.py_ast.specs.Grammar.{mapped, ended, second, string_first, expr_first, part_first, comma_item, comma_items, goes_past, part, piece, strings, parenthesized, list, pair, pairs, dictionary, atom, Whole, nested};
ghost use Rattle.py_expr.specs.Readers.{ReadsSome};

use crate::build::{as_items, as_parenthesized};
use crate::class::{
    COLON, COMMA, F_STRING_END, F_STRING_START, F_STRING_TEXT, FIELD_CLOSE, FIELD_OPEN, LEFT_BRACE,
    LEFT_BRACKET, LEFT_PAREN, RIGHT_BRACE, RIGHT_BRACKET, RIGHT_PAREN, TEXT, begins_part,
    begins_string, class_of,
};
use crate::inner::{closed_items_by, nested_by, past_by};
use crate::parts::{stands_expr, stands_leaf};
use crate::steps::with;
use crate::strings::as_strings;
use crate::token::{Taken, leaf_here, make_leaf, mark, open, part_text_token, stands, text_token};
use phrases::{Stop, many, series};
use py_ast::{Expr, Form, Pair, Part, Piece};
use py_lexer::Token;
use py_literals::place::Pos;
use rv_names::Memory;
use sqlite_items::Items;
use std::alloc::Global;

/// An atom. Most are one token.
#[tactic(auto, unfolding(py_ast::specs::Grammar::atom))]
pub fn atom_by<'a, F>(alloc: Global, tokens: &'a [Token], room: u8, inner: &F) -> Taken<'a, Expr>
where
    F: Fn(&[Token]) -> Taken<'_, Expr>,
    requires can_call { F.IsAlwaysCallable inner.now }
    requires reads { ReadsSome (λ ts r. F.post inner.now ts r) (nested room Whole).read }
    ensures read { Gives (λ x. Read x.0 x.1.now) result ((atom room (nested room Whole)).read tokens.now) }
    ensures shorter { IfOk result (λ x. length x.1.now < length tokens.now) }
{
    if stands_leaf(tokens) {
        return leaf_here(tokens);
    }
    let (value, rest) = longer_atom_by(alloc, tokens, room, inner)?;
    Ok((value, rest))
}

/// An atom that isn't one token.
#[inline(never)]
#[tactic(auto, unfolding(py_ast::specs::Grammar::atom))]
fn longer_atom_by<'a, F>(alloc: Global, tokens: &'a [Token], room: u8, inner: &F) -> Taken<'a, Expr>
where
    F: Fn(&[Token]) -> Taken<'_, Expr>,
    requires can_call { F.IsAlwaysCallable inner.now }
    requires reads { ReadsSome (λ ts r. F.post inner.now ts r) (nested room Whole).read }
    requires longer { starts class leaf_codes tokens.now ≡ false }
    ensures read { Gives (λ x. Read x.0 x.1.now) result ((atom room (nested room Whole)).read tokens.now) }
    ensures shorter { IfOk result (λ x. length x.1.now < length tokens.now) }
{
    match tokens {
        // Without a token the last alternative tells the fault.
        [] => dictionary_by(alloc, tokens, room, inner),
        [first, ..] => {
            let code = class_of(first);
            if begins_string(code) {
                strings_by(alloc, tokens, room, inner)
            } else if code == LEFT_PAREN {
                parenthesized_by(alloc, tokens, room, inner)
            } else if code == LEFT_BRACKET {
                list_by(alloc, tokens, room, inner)
            } else {
                dictionary_by(alloc, tokens, room, inner)
            }
        }
    }
}

#[tactic(auto, unfolding(py_ast::specs::Grammar::parenthesized, py_ast::specs::Grammar::bracketed, py_ast::specs::Grammar::mapped, py_ast::specs::Grammar::ended))]
fn parenthesized_by<'a, F>(
    alloc: Global,
    tokens: &'a [Token],
    room: u8,
    inner: &F,
) -> Taken<'a, Expr>
where
    F: Fn(&[Token]) -> Taken<'_, Expr>,
    requires can_call { F.IsAlwaysCallable inner.now }
    requires reads { ReadsSome (λ ts r. F.post inner.now ts r) (nested room Whole).read }
    ensures read { Gives (λ x. Read x.0 x.1.now) result ((parenthesized room (nested room Whole)).read tokens.now) }
    ensures shorter { IfOk result (λ x. length x.1.now < length tokens.now) }
{
    let (at, rest) = open(tokens, LEFT_PAREN, room)?;
    let (items, rest) = closed_items_by(alloc, rest, room, RIGHT_PAREN, inner)?;
    Ok((as_parenthesized(alloc, at, items)?, rest))
}

#[tactic(auto, unfolding(py_ast::specs::Grammar::list, py_ast::specs::Grammar::bracketed, py_ast::specs::Grammar::mapped, py_ast::specs::Grammar::ended))]
fn list_by<'a, F>(alloc: Global, tokens: &'a [Token], room: u8, inner: &F) -> Taken<'a, Expr>
where
    F: Fn(&[Token]) -> Taken<'_, Expr>,
    requires can_call { F.IsAlwaysCallable inner.now }
    requires reads { ReadsSome (λ ts r. F.post inner.now ts r) (nested room Whole).read }
    ensures read { Gives (λ x. Read x.0 x.1.now) result ((list room (nested room Whole)).read tokens.now) }
    ensures shorter { IfOk result (λ x. length x.1.now < length tokens.now) }
{
    let (at, rest) = open(tokens, LEFT_BRACKET, room)?;
    let (items, rest) = closed_items_by(alloc, rest, room, RIGHT_BRACKET, inner)?;
    Ok((make_leaf(at, Form::List(as_items(alloc, items)?)), rest))
}

#[tactic(auto, unfolding(py_ast::specs::Grammar::dictionary, py_ast::specs::Grammar::bracketed, py_ast::specs::Grammar::mapped, py_ast::specs::Grammar::ended))]
fn dictionary_by<'a, F>(alloc: Global, tokens: &'a [Token], room: u8, inner: &F) -> Taken<'a, Expr>
where
    F: Fn(&[Token]) -> Taken<'_, Expr>,
    requires can_call { F.IsAlwaysCallable inner.now }
    requires reads { ReadsSome (λ ts r. F.post inner.now ts r) (nested room Whole).read }
    ensures read { Gives (λ x. Read x.0 x.1.now) result ((dictionary room (nested room Whole)).read tokens.now) }
    ensures shorter { IfOk result (λ x. length x.1.now < length tokens.now) }
{
    let (at, rest) = open(tokens, LEFT_BRACE, room)?;
    let (pairs, rest) = closed_pairs_by(alloc, rest, room, inner)?;
    Ok((
        make_leaf(at, Form::Dictionary(as_items(alloc, pairs)?)),
        rest,
    ))
}

#[tactic(auto, unfolding(py_ast::specs::Grammar::mapped, py_ast::specs::Grammar::ended))]
fn closed_pairs_by<'a, F>(
    alloc: Global,
    tokens: &'a [Token],
    room: u8,
    inner: &F,
) -> Taken<'a, Option<(Pair, Items<(Pos, Option<Pair>)>)>>
where
    F: Fn(&[Token]) -> Taken<'_, Expr>,
    requires can_call { F.IsAlwaysCallable inner.now }
    requires reads { ReadsSome (λ ts r. F.post inner.now ts r) (nested room Whole).read }
    ensures read { Gives (λ x. Read x.0 x.1.now) result ((either class expr_first (mapped (ended (pairs (nested room Whole)) RIGHT_BRACE) Some) (sequence (token (mark_of RIGHT_BRACE)) (λ c. nothing None) second)).read tokens.now) }
    ensures shorter { IfOk result (λ x. length x.1.now < length tokens.now) }
{
    if !stands_expr(tokens) {
        let (_, rest) = mark(tokens, RIGHT_BRACE)?;
        return Ok((None, rest));
    }
    let (items, rest) = pairs_by(alloc, tokens, room, inner)?;
    let ((items, _), rest) = with(items, mark(rest, RIGHT_BRACE))?;
    Ok((Some(items), rest))
}

#[tactic(auto, unfolding(py_ast::specs::Grammar::pairs))]
fn pairs_by<'a, F>(
    alloc: Global,
    tokens: &'a [Token],
    room: u8,
    inner: &F,
) -> Taken<'a, (Pair, Items<(Pos, Option<Pair>)>)>
where
    F: Fn(&[Token]) -> Taken<'_, Expr>,
    requires can_call { F.IsAlwaysCallable inner.now }
    requires reads { ReadsSome (λ ts r. F.post inner.now ts r) (nested room Whole).read }
    ensures read { Gives (λ x. Read (x.0.0, x.0.1) x.1.now) result ((pairs (nested room Whole)).read tokens.now) }
    ensures shorter { IfOk result (λ x. length x.1.now < length tokens.now) }
{
    let (first, rest) = pair_by(alloc, tokens, room, inner)?;
    let ((first, others), rest) = with(first, further_pairs_by(alloc, rest, room, inner))?;
    Ok(((first, others), rest))
}

fn further_pairs_by<'a, F>(
    alloc: Global,
    tokens: &'a [Token],
    room: u8,
    inner: &F,
) -> Taken<'a, Items<(Pos, Option<Pair>)>>
where
    F: Fn(&[Token]) -> Taken<'_, Expr>,
    requires can_call { F.IsAlwaysCallable inner.now }
    requires reads { ReadsSome (λ ts r. F.post inner.now ts r) (nested room Whole).read }
    ensures read { Gives (λ x. Read x.0 x.1.now) result ((comma_items (λ s. expr_first) (λ s. pair (nested room Whole)) (λ p. tt {0}) (tt {0})).read tokens.now) }
    ensures no_longer { IfOk result (λ x. length x.1.now ≤ length tokens.now) }
{
    series(
        alloc,
        tokens,
        (),
        |_state: (), token: &Token|
            ensures { result ≡ has (COMMA ∷ []) (class token.now) }
        { class_of(token) == COMMA },
        |_state: (), rest: &[Token]|
            requires can_call { F.IsAlwaysCallable inner.now }
            requires reads { ReadsSome (λ ts r. F.post inner.now ts r) (nested room Whole).read }
            ensures read { Gives (λ x. Read x.0.0 x.1.now) result ((comma_item expr_first (pair (nested room Whole))).read rest.now) }
            ensures next { IfOk result (λ x. x.0.1 ≡ goes_past (λ p. tt {0}) x.0.0) }
            ensures shorter { IfOk result (λ x. length x.1.now < length rest.now) }
        { further_pair_by(alloc, rest, room, inner) },
    )
}

#[tactic(auto, unfolding(py_ast::specs::Grammar::comma_item, py_ast::specs::Grammar::mapped))]
fn further_pair_by<'a, F>(
    alloc: Global,
    tokens: &'a [Token],
    room: u8,
    inner: &F,
) -> Taken<'a, ((Pos, Option<Pair>), Option<()>)>
where
    F: Fn(&[Token]) -> Taken<'_, Expr>,
    requires can_call { F.IsAlwaysCallable inner.now }
    requires reads { ReadsSome (λ ts r. F.post inner.now ts r) (nested room Whole).read }
    ensures read { Gives (λ x. Read x.0.0 x.1.now) result ((comma_item expr_first (pair (nested room Whole))).read tokens.now) }
    ensures next { IfOk result (λ x. x.0.1 ≡ goes_past (λ p. tt {0}) x.0.0) }
    ensures shorter { IfOk result (λ x. length x.1.now < length tokens.now) }
{
    let (at, rest) = mark(tokens, COMMA)?;
    if !stands_expr(rest) {
        return Ok((((at, None), None), rest));
    }
    let (pair, rest) = pair_by(alloc, rest, room, inner)?;
    Ok((((at, Some(pair)), Some(())), rest))
}

#[tactic(auto, unfolding(py_ast::specs::Grammar::pair))]
fn pair_by<'a, F>(alloc: Global, tokens: &'a [Token], room: u8, inner: &F) -> Taken<'a, Pair>
where
    F: Fn(&[Token]) -> Taken<'_, Expr>,
    requires can_call { F.IsAlwaysCallable inner.now }
    requires reads { ReadsSome (λ ts r. F.post inner.now ts r) (nested room Whole).read }
    ensures read { Gives (λ x. Read x.0 x.1.now) result ((pair (nested room Whole)).read tokens.now) }
    ensures shorter { IfOk result (λ x. length x.1.now < length tokens.now) }
{
    let (key, rest) = nested_by(tokens, room, inner)?;
    let ((key, value), rest) = with(key, past_by(rest, COLON, room, inner))?;
    Ok((Pair { key, value }, rest))
}

#[tactic(auto, unfolding(py_ast::specs::Grammar::strings))]
fn strings_by<'a, F>(alloc: Global, tokens: &'a [Token], room: u8, inner: &F) -> Taken<'a, Expr>
where
    F: Fn(&[Token]) -> Taken<'_, Expr>,
    requires can_call { F.IsAlwaysCallable inner.now }
    requires reads { ReadsSome (λ ts r. F.post inner.now ts r) (nested room Whole).read }
    ensures read { Gives (λ x. Read x.0 x.1.now) result ((strings room (nested room Whole)).read tokens.now) }
    ensures shorter { IfOk result (λ x. length x.1.now < length tokens.now) }
{
    let (first, rest) = piece_by(alloc, tokens, room, inner)?;
    let (others, rest) = pieces_by(alloc, rest, room, inner)?;
    match as_strings(alloc, first, others) {
        Ok(strings) => Ok((strings, rest)),
        Err(Memory) => Err(Stop::Memory),
    }
}

fn pieces_by<'a, F>(
    alloc: Global,
    tokens: &'a [Token],
    room: u8,
    inner: &F,
) -> Taken<'a, Items<(Pos, Piece)>>
where
    F: Fn(&[Token]) -> Taken<'_, Expr>,
    requires can_call { F.IsAlwaysCallable inner.now }
    requires reads { ReadsSome (λ ts r. F.post inner.now ts r) (nested room Whole).read }
    ensures read { Gives (λ x. Read x.0 x.1.now) result ((many class string_first (piece room (nested room Whole))).read tokens.now) }
    ensures no_longer { IfOk result (λ x. length x.1.now ≤ length tokens.now) }
{
    many(
        alloc,
        tokens,
        |token: &Token|
            ensures { result ≡ has string_first (class token.now) }
        { begins_string(class_of(token)) },
        |rest: &[Token]|
            requires can_call { F.IsAlwaysCallable inner.now }
            requires reads { ReadsSome (λ ts r. F.post inner.now ts r) (nested room Whole).read }
            ensures read { Gives (λ x. Read x.0 x.1.now) result ((piece room (nested room Whole)).read rest.now) }
            ensures shorter { IfOk result (λ x. length x.1.now < length rest.now) }
        { piece_by(alloc, rest, room, inner) },
    )
}

#[tactic(auto, unfolding(py_ast::specs::Grammar::piece, py_ast::specs::Grammar::formatted, py_ast::specs::Grammar::mapped, py_ast::specs::Grammar::ended))]
fn piece_by<'a, F>(
    alloc: Global,
    tokens: &'a [Token],
    room: u8,
    inner: &F,
) -> Taken<'a, (Pos, Piece)>
where
    F: Fn(&[Token]) -> Taken<'_, Expr>,
    requires can_call { F.IsAlwaysCallable inner.now }
    requires reads { ReadsSome (λ ts r. F.post inner.now ts r) (nested room Whole).read }
    ensures read { Gives (λ x. Read x.0 x.1.now) result ((piece room (nested room Whole)).read tokens.now) }
    ensures shorter { IfOk result (λ x. length x.1.now < length tokens.now) }
{
    if stands(tokens, TEXT) {
        return text_token(tokens);
    }
    let (at, rest) = mark(tokens, F_STRING_START)?;
    let (parts, rest) = parts_by(alloc, rest, room, inner)?;
    let (_, rest) = mark(rest, F_STRING_END)?;
    Ok(((at, Piece::Formatted(parts)), rest))
}

fn parts_by<'a, F>(
    alloc: Global,
    tokens: &'a [Token],
    room: u8,
    inner: &F,
) -> Taken<'a, Items<Part>>
where
    F: Fn(&[Token]) -> Taken<'_, Expr>,
    requires can_call { F.IsAlwaysCallable inner.now }
    requires reads { ReadsSome (λ ts r. F.post inner.now ts r) (nested room Whole).read }
    ensures read { Gives (λ x. Read x.0 x.1.now) result ((many class part_first (part room (nested room Whole))).read tokens.now) }
    ensures no_longer { IfOk result (λ x. length x.1.now ≤ length tokens.now) }
{
    many(
        alloc,
        tokens,
        |token: &Token|
            ensures { result ≡ has part_first (class token.now) }
        { begins_part(class_of(token)) },
        |rest: &[Token]|
            requires can_call { F.IsAlwaysCallable inner.now }
            requires reads { ReadsSome (λ ts r. F.post inner.now ts r) (nested room Whole).read }
            ensures read { Gives (λ x. Read x.0 x.1.now) result ((part room (nested room Whole)).read rest.now) }
            ensures shorter { IfOk result (λ x. length x.1.now < length rest.now) }
        { part_by(alloc, rest, room, inner) },
    )
}

#[tactic(auto, unfolding(py_ast::specs::Grammar::part, py_ast::specs::Grammar::field, py_ast::specs::Grammar::mapped, py_ast::specs::Grammar::ended))]
fn part_by<'a, F>(alloc: Global, tokens: &'a [Token], room: u8, inner: &F) -> Taken<'a, Part>
where
    F: Fn(&[Token]) -> Taken<'_, Expr>,
    requires can_call { F.IsAlwaysCallable inner.now }
    requires reads { ReadsSome (λ ts r. F.post inner.now ts r) (nested room Whole).read }
    ensures read { Gives (λ x. Read x.0 x.1.now) result ((part room (nested room Whole)).read tokens.now) }
    ensures shorter { IfOk result (λ x. length x.1.now < length tokens.now) }
{
    if stands(tokens, F_STRING_TEXT) {
        return part_text_token(tokens);
    }
    let (_, rest) = open(tokens, FIELD_OPEN, room)?;
    let (value, rest) = nested_by(rest, room, inner)?;
    let ((value, _), rest) = with(value, mark(rest, FIELD_CLOSE))?;
    Ok((Part::Field(value), rest))
}
