//! The literal arguments of decorators (Language Reference, 6.2 and 8.7): a function for each production.
//!
//! What stands in a bracket is read by a closure, so that only `nested_literal_of` calls itself.

ghost use Rattle.std.specs.Prelude.{◌≡◌, ◌<◌, ◌≤◌, ◌∷◌, [], ℕ, List, Option, Some, None, IfOk, length};
ghost use Rattle.phrases.specs.Sets.{has, starts};
ghost use Rattle.phrases.specs.Reading.{Read};
ghost use Rattle.phrases.specs.Phrases.{many, token, nothing, sequence, either};
ghost use Rattle.phrases.specs.Loops.{Gives};
ghost use Rattle.py_ast.specs.Kinds.{class, mark_of};
ghost use Rattle.py_ast.specs.Tokens.{text_of};
ghost use Rattle.py_ast.specs.Grammar.{mapped, ended, second, bracketed, comma_item, comma_items, goes_past, parenthesized_at, list_at, dictionary_at};
ghost use Rattle.py_ast.specs.Literals.{literal_of, literal_first, texts, literals, literal_pair, literal_pairs, literal_over, nested_literal, literal};
ghost use Rattle.py_simple.specs.Literals.{ReadsLiterals};

use crate::steps::before;
use crate::words::{stands_literal, stands_literal_token};
use phrases::{Fault, Stop, many, series};
use py_ast::{Expr, Form, Pair, Piece};
use py_expr::build::{as_items, as_parenthesized};
use py_expr::class::{
    COLON, COMMA, LEFT_BRACE, LEFT_BRACKET, LEFT_PAREN, RIGHT_BRACE, RIGHT_BRACKET, RIGHT_PAREN,
    TEXT, class_of,
};
use py_expr::reading::DEEPEST;
use py_expr::steps::with;
use py_expr::strings::as_strings;
use py_expr::token::{Taken, leaf_token, make_leaf, mark, open, stands, text_token};
use py_lexer::Token;
use py_literals::place::Pos;
use rv_names::Memory;
use sqlite_items::Items;
use std::alloc::Global;

/// An item, and those behind commas.
pub(crate) type Row<A> = (A, Items<(Pos, Option<A>)>);

/// A literal of one token, but a string.
fn literal_token(tokens: &[Token]) -> Taken<'_, Expr>
    ensures read { Gives (λ x. Read x.0 x.1.now) result ((token literal_of).read tokens.now) }
    ensures shorter { IfOk result (λ x. length x.1.now < length tokens.now) }
{
    if !stands_literal_token(tokens) {
        return Err(Stop::Fault(Fault::Syntax, tokens));
    }
    leaf_token(tokens)
}

/// Strings in a row that aren't formatted.
fn all_texts_of(alloc: Global, tokens: &[Token]) -> Taken<'_, Items<(Pos, Piece)>>
    ensures read { Gives (λ x. Read x.0 x.1.now) result ((many class (TEXT ∷ []) (token text_of)).read tokens.now) }
    ensures no_longer { IfOk result (λ x. length x.1.now ≤ length tokens.now) }
{
    many(
        alloc,
        tokens,
        |token: &Token|
            ensures { result ≡ has (TEXT ∷ []) (class token.now) }
        { class_of(token) == TEXT },
        |rest: &[Token]|
            ensures read { Gives (λ x. Read x.0 x.1.now) result ((token text_of).read rest.now) }
            ensures shorter { IfOk result (λ x. length x.1.now < length rest.now) }
        { text_token(rest) },
    )
}

/// Strings in a row, of which there is one at least and none is formatted.
#[tactic(auto, unfolding(py_ast::specs::Literals::texts))]
pub fn texts_of(alloc: Global, tokens: &[Token]) -> Taken<'_, Expr>
    ensures read { Gives (λ x. Read x.0 x.1.now) result (texts.read tokens.now) }
    ensures shorter { IfOk result (λ x. length x.1.now < length tokens.now) }
{
    let (first, rest) = text_token(tokens)?;
    let (others, rest) = all_texts_of(alloc, rest)?;
    match as_strings(alloc, first, others) {
        Ok(text) => Ok((text, rest)),
        Err(Memory) => Err(Stop::Memory),
    }
}

/// A literal in a bracket, as the closure reads it.
fn inner_literal_of<'a, L>(tokens: &'a [Token], room: u8, literal: &L) -> Taken<'a, Expr>
where
    L: Fn(&[Token]) -> Taken<'_, Expr>,
    requires callable { L.IsAlwaysCallable literal.now }
    requires reads { ReadsLiterals (λ ts r. L.post literal.now ts r) room }
    ensures read { Gives (λ x. Read x.0 x.1.now) result ((nested_literal room (tt {0})).read tokens.now) }
    ensures shorter { IfOk result (λ x. length x.1.now < length tokens.now) }
{
    literal(tokens)
}

/// A comma, and a literal if one stands behind it.
#[tactic(auto, unfolding(py_ast::specs::Grammar::comma_item, py_ast::specs::Grammar::mapped))]
fn comma_literal_of<'a, L>(
    tokens: &'a [Token],
    room: u8,
    literal: &L,
) -> Taken<'a, ((Pos, Option<Expr>), Option<()>)>
where
    L: Fn(&[Token]) -> Taken<'_, Expr>,
    requires callable { L.IsAlwaysCallable literal.now }
    requires reads { ReadsLiterals (λ ts r. L.post literal.now ts r) room }
    ensures read { Gives (λ x. Read x.0.0 x.1.now) result ((comma_item literal_first (nested_literal room (tt {0}))).read tokens.now) }
    ensures next { IfOk result (λ x. x.0.1 ≡ goes_past (λ e. tt {0}) x.0.0) }
    ensures shorter { IfOk result (λ x. length x.1.now < length tokens.now) }
{
    let (at, rest) = mark(tokens, COMMA)?;
    if !stands_literal(rest) {
        return Ok((((at, None), None), rest));
    }
    let (value, rest) = inner_literal_of(rest, room, literal)?;
    Ok((((at, Some(value)), Some(())), rest))
}

/// Commas with literals behind them.
fn comma_literals_of<'a, L>(
    alloc: Global,
    tokens: &'a [Token],
    room: u8,
    literal: &L,
) -> Taken<'a, Items<(Pos, Option<Expr>)>>
where
    L: Fn(&[Token]) -> Taken<'_, Expr>,
    requires callable { L.IsAlwaysCallable literal.now }
    requires reads { ReadsLiterals (λ ts r. L.post literal.now ts r) room }
    ensures read { Gives (λ x. Read x.0 x.1.now) result ((comma_items (λ s. literal_first) (λ s. nested_literal room (tt {0})) (λ e. tt {0}) (tt {0})).read tokens.now) }
    ensures no_longer { IfOk result (λ x. length x.1.now ≤ length tokens.now) }
{
    series(
        alloc,
        tokens,
        (),
        |_state: (), token: &Token|
            ensures { result ≡ has (COMMA ∷ []) (class token.now) }
        { class_of(token) == COMMA },
        |_state: (), rest: &[Token]|
            requires callable { L.IsAlwaysCallable literal.now }
            requires reads { ReadsLiterals (λ ts r. L.post literal.now ts r) room }
            ensures read { Gives (λ x. Read x.0.0 x.1.now) result ((comma_item literal_first (nested_literal room (tt {0}))).read rest.now) }
            ensures next { IfOk result (λ x. x.0.1 ≡ goes_past (λ e. tt {0}) x.0.0) }
            ensures shorter { IfOk result (λ x. length x.1.now < length rest.now) }
        { comma_literal_of(rest, room, literal) },
    )
}

/// Literals, of which there is one at least.
#[tactic(auto, unfolding(py_ast::specs::Literals::literals))]
fn literals_of<'a, L>(
    alloc: Global,
    tokens: &'a [Token],
    room: u8,
    literal: &L,
) -> Taken<'a, Row<Expr>>
where
    L: Fn(&[Token]) -> Taken<'_, Expr>,
    requires callable { L.IsAlwaysCallable literal.now }
    requires reads { ReadsLiterals (λ ts r. L.post literal.now ts r) room }
    ensures read { Gives (λ x. Read (x.0.0, x.0.1) x.1.now) result ((literals (nested_literal room (tt {0}))).read tokens.now) }
    ensures shorter { IfOk result (λ x. length x.1.now < length tokens.now) }
{
    let (first, rest) = inner_literal_of(tokens, room, literal)?;
    with(first, comma_literals_of(alloc, rest, room, literal))
}

/// Literals up to a closing bracket, or none.
#[tactic(auto, unfolding(py_ast::specs::Grammar::mapped, py_ast::specs::Grammar::ended))]
fn closed_literals_of<'a, L>(
    alloc: Global,
    tokens: &'a [Token],
    room: u8,
    closing: u8,
    literal: &L,
) -> Taken<'a, Option<Row<Expr>>>
where
    L: Fn(&[Token]) -> Taken<'_, Expr>,
    requires callable { L.IsAlwaysCallable literal.now }
    requires reads { ReadsLiterals (λ ts r. L.post literal.now ts r) room }
    ensures read { Gives (λ x. Read x.0 x.1.now) result ((either class literal_first (mapped (ended (literals (nested_literal room (tt {0}))) closing) Some) (sequence (token (mark_of closing)) (λ c. nothing None) second)).read tokens.now) }
    ensures shorter { IfOk result (λ x. length x.1.now < length tokens.now) }
{
    if !stands_literal(tokens) {
        let (_, rest) = mark(tokens, closing)?;
        return Ok((None, rest));
    }
    let (literals, rest) = literals_of(alloc, tokens, room, literal)?;
    let (literals, rest) = before(literals, rest, closing)?;
    Ok((Some(literals), rest))
}

/// A pair of a dictionary display.
#[tactic(auto, unfolding(py_ast::specs::Literals::literal_pair, py_ast::specs::Grammar::past))]
fn pair_of<'a, L>(tokens: &'a [Token], room: u8, literal: &L) -> Taken<'a, Pair>
where
    L: Fn(&[Token]) -> Taken<'_, Expr>,
    requires callable { L.IsAlwaysCallable literal.now }
    requires reads { ReadsLiterals (λ ts r. L.post literal.now ts r) room }
    ensures read { Gives (λ x. Read x.0 x.1.now) result ((literal_pair (nested_literal room (tt {0}))).read tokens.now) }
    ensures shorter { IfOk result (λ x. length x.1.now < length tokens.now) }
{
    let (key, rest) = inner_literal_of(tokens, room, literal)?;
    let (key, rest) = before(key, rest, COLON)?;
    let ((key, value), rest) = with(key, inner_literal_of(rest, room, literal))?;
    Ok((Pair { key, value }, rest))
}

/// A comma, and a pair if one stands behind it.
#[tactic(auto, unfolding(py_ast::specs::Grammar::comma_item, py_ast::specs::Grammar::mapped))]
fn comma_pair_of<'a, L>(
    tokens: &'a [Token],
    room: u8,
    literal: &L,
) -> Taken<'a, ((Pos, Option<Pair>), Option<()>)>
where
    L: Fn(&[Token]) -> Taken<'_, Expr>,
    requires callable { L.IsAlwaysCallable literal.now }
    requires reads { ReadsLiterals (λ ts r. L.post literal.now ts r) room }
    ensures read { Gives (λ x. Read x.0.0 x.1.now) result ((comma_item literal_first (literal_pair (nested_literal room (tt {0})))).read tokens.now) }
    ensures next { IfOk result (λ x. x.0.1 ≡ goes_past (λ e. tt {0}) x.0.0) }
    ensures shorter { IfOk result (λ x. length x.1.now < length tokens.now) }
{
    let (at, rest) = mark(tokens, COMMA)?;
    if !stands_literal(rest) {
        return Ok((((at, None), None), rest));
    }
    let (pair, rest) = pair_of(rest, room, literal)?;
    Ok((((at, Some(pair)), Some(())), rest))
}

/// Commas with pairs behind them.
fn comma_pairs_of<'a, L>(
    alloc: Global,
    tokens: &'a [Token],
    room: u8,
    literal: &L,
) -> Taken<'a, Items<(Pos, Option<Pair>)>>
where
    L: Fn(&[Token]) -> Taken<'_, Expr>,
    requires callable { L.IsAlwaysCallable literal.now }
    requires reads { ReadsLiterals (λ ts r. L.post literal.now ts r) room }
    ensures read { Gives (λ x. Read x.0 x.1.now) result ((comma_items (λ s. literal_first) (λ s. literal_pair (nested_literal room (tt {0}))) (λ e. tt {0}) (tt {0})).read tokens.now) }
    ensures no_longer { IfOk result (λ x. length x.1.now ≤ length tokens.now) }
{
    series(
        alloc,
        tokens,
        (),
        |_state: (), token: &Token|
            ensures { result ≡ has (COMMA ∷ []) (class token.now) }
        { class_of(token) == COMMA },
        |_state: (), rest: &[Token]|
            requires callable { L.IsAlwaysCallable literal.now }
            requires reads { ReadsLiterals (λ ts r. L.post literal.now ts r) room }
            ensures read { Gives (λ x. Read x.0.0 x.1.now) result ((comma_item literal_first (literal_pair (nested_literal room (tt {0})))).read rest.now) }
            ensures next { IfOk result (λ x. x.0.1 ≡ goes_past (λ e. tt {0}) x.0.0) }
            ensures shorter { IfOk result (λ x. length x.1.now < length rest.now) }
        { comma_pair_of(rest, room, literal) },
    )
}

/// Pairs, of which there is one at least.
#[tactic(auto, unfolding(py_ast::specs::Literals::literal_pairs))]
fn pairs_of<'a, L>(
    alloc: Global,
    tokens: &'a [Token],
    room: u8,
    literal: &L,
) -> Taken<'a, Row<Pair>>
where
    L: Fn(&[Token]) -> Taken<'_, Expr>,
    requires callable { L.IsAlwaysCallable literal.now }
    requires reads { ReadsLiterals (λ ts r. L.post literal.now ts r) room }
    ensures read { Gives (λ x. Read (x.0.0, x.0.1) x.1.now) result ((literal_pairs (nested_literal room (tt {0}))).read tokens.now) }
    ensures shorter { IfOk result (λ x. length x.1.now < length tokens.now) }
{
    let (first, rest) = pair_of(tokens, room, literal)?;
    with(first, comma_pairs_of(alloc, rest, room, literal))
}

/// Pairs up to the closing brace, or none.
#[tactic(auto, unfolding(py_ast::specs::Grammar::mapped, py_ast::specs::Grammar::ended))]
fn closed_pairs_of<'a, L>(
    alloc: Global,
    tokens: &'a [Token],
    room: u8,
    literal: &L,
) -> Taken<'a, Option<Row<Pair>>>
where
    L: Fn(&[Token]) -> Taken<'_, Expr>,
    requires callable { L.IsAlwaysCallable literal.now }
    requires reads { ReadsLiterals (λ ts r. L.post literal.now ts r) room }
    ensures read { Gives (λ x. Read x.0 x.1.now) result ((either class literal_first (mapped (ended (literal_pairs (nested_literal room (tt {0}))) RIGHT_BRACE) Some) (sequence (token (mark_of RIGHT_BRACE)) (λ c. nothing None) second)).read tokens.now) }
    ensures shorter { IfOk result (λ x. length x.1.now < length tokens.now) }
{
    if !stands_literal(tokens) {
        let (_, rest) = mark(tokens, RIGHT_BRACE)?;
        return Ok((None, rest));
    }
    let (pairs, rest) = pairs_of(alloc, tokens, room, literal)?;
    let (pairs, rest) = before(pairs, rest, RIGHT_BRACE)?;
    Ok((Some(pairs), rest))
}

/// Literals in parentheses.
#[tactic(auto, unfolding(py_ast::specs::Grammar::mapped, py_ast::specs::Grammar::bracketed))]
fn parenthesized_of<'a, L>(
    alloc: Global,
    tokens: &'a [Token],
    room: u8,
    literal: &L,
) -> Taken<'a, Expr>
where
    L: Fn(&[Token]) -> Taken<'_, Expr>,
    requires callable { L.IsAlwaysCallable literal.now }
    requires reads { ReadsLiterals (λ ts r. L.post literal.now ts r) room }
    ensures read { Gives (λ x. Read x.0 x.1.now) result ((mapped (bracketed room LEFT_PAREN RIGHT_PAREN literal_first (literals (nested_literal room (tt {0})))) parenthesized_at).read tokens.now) }
    ensures shorter { IfOk result (λ x. length x.1.now < length tokens.now) }
{
    let (at, rest) = open(tokens, LEFT_PAREN, room)?;
    let (items, rest) = closed_literals_of(alloc, rest, room, RIGHT_PAREN, literal)?;
    Ok((as_parenthesized(alloc, at, items)?, rest))
}

/// A list display of literals.
#[tactic(auto, unfolding(py_ast::specs::Grammar::mapped, py_ast::specs::Grammar::bracketed))]
fn list_of<'a, L>(alloc: Global, tokens: &'a [Token], room: u8, literal: &L) -> Taken<'a, Expr>
where
    L: Fn(&[Token]) -> Taken<'_, Expr>,
    requires callable { L.IsAlwaysCallable literal.now }
    requires reads { ReadsLiterals (λ ts r. L.post literal.now ts r) room }
    ensures read { Gives (λ x. Read x.0 x.1.now) result ((mapped (bracketed room LEFT_BRACKET RIGHT_BRACKET literal_first (literals (nested_literal room (tt {0})))) list_at).read tokens.now) }
    ensures shorter { IfOk result (λ x. length x.1.now < length tokens.now) }
{
    let (at, rest) = open(tokens, LEFT_BRACKET, room)?;
    let (items, rest) = closed_literals_of(alloc, rest, room, RIGHT_BRACKET, literal)?;
    let form = Form::List(as_items(alloc, items)?);
    Ok((make_leaf(at, form), rest))
}

/// A dictionary display of literals.
#[tactic(auto, unfolding(py_ast::specs::Grammar::mapped, py_ast::specs::Grammar::bracketed))]
fn dictionary_of<'a, L>(
    alloc: Global,
    tokens: &'a [Token],
    room: u8,
    literal: &L,
) -> Taken<'a, Expr>
where
    L: Fn(&[Token]) -> Taken<'_, Expr>,
    requires callable { L.IsAlwaysCallable literal.now }
    requires reads { ReadsLiterals (λ ts r. L.post literal.now ts r) room }
    ensures read { Gives (λ x. Read x.0 x.1.now) result ((mapped (bracketed room LEFT_BRACE RIGHT_BRACE literal_first (literal_pairs (nested_literal room (tt {0})))) dictionary_at).read tokens.now) }
    ensures shorter { IfOk result (λ x. length x.1.now < length tokens.now) }
{
    let (at, rest) = open(tokens, LEFT_BRACE, room)?;
    let (items, rest) = closed_pairs_of(alloc, rest, room, literal)?;
    let form = Form::Dictionary(as_items(alloc, items)?);
    Ok((make_leaf(at, form), rest))
}

/// A literal, whose brackets hold what the closure reads.
#[tactic(auto, unfolding(py_ast::specs::Literals::literal_over))]
fn literal_over_of<'a, L>(
    alloc: Global,
    tokens: &'a [Token],
    room: u8,
    literal: L,
) -> Taken<'a, Expr>
where
    L: Fn(&[Token]) -> Taken<'_, Expr>,
    requires callable { L.IsAlwaysCallable literal }
    requires reads { ReadsLiterals (λ ts r. L.post literal ts r) room }
    ensures read { Gives (λ x. Read x.0 x.1.now) result ((literal_over room (nested_literal room (tt {0}))).read tokens.now) }
    ensures shorter { IfOk result (λ x. length x.1.now < length tokens.now) }
{
    if stands_literal_token(tokens) {
        literal_token(tokens)
    } else if stands(tokens, TEXT) {
        texts_of(alloc, tokens)
    } else if stands(tokens, LEFT_PAREN) {
        parenthesized_of(alloc, tokens, room, &literal)
    } else if stands(tokens, LEFT_BRACKET) {
        list_of(alloc, tokens, room, &literal)
    } else {
        dictionary_of(alloc, tokens, room, &literal)
    }
}

/// What stands in a bracket where there is room for none: the fault.
fn no_literal(tokens: &[Token]) -> Taken<'_, Expr>
    ensures read { Gives (λ x. Read x.0 x.1.now) result ((nested_literal 0 (tt {0})).read tokens.now) }
    ensures shorter { IfOk result (λ x. length x.1.now < length tokens.now) }
{
    if stands_literal(tokens) {
        Err(Stop::Fault(Fault::TooDeep, tokens))
    } else {
        Err(Stop::Fault(Fault::Syntax, tokens))
    }
}

/// A literal in a bracket, where so many nestings were left before it was opened.
#[cycle(literal)]
#[tactic(auto, using(crate::proofs::Inside::nested_literal_is))]
fn nested_literal_of(alloc: Global, tokens: &[Token], room: u8) -> Taken<'_, Expr>
    ensures read { Gives (λ x. Read x.0 x.1.now) result ((nested_literal room (tt {0})).read tokens.now) }
    ensures shorter { IfOk result (λ x. length x.1.now < length tokens.now) }
{
    if room == 0 {
        return no_literal(tokens);
    }
    let inner = room - 1;
    literal_over_of(
        alloc,
        tokens,
        inner,
        |rest: &[Token]|
            ensures read { Gives (λ x. Read x.0 x.1.now) result ((nested_literal inner (tt {0})).read rest.now) }
            ensures shorter { IfOk result (λ x. length x.1.now < length rest.now) }
        { nested_literal_of(alloc, rest, inner) },
    )
}

/// A literal.
#[tactic(auto, using(crate::proofs::Inside::literal_is))]
pub(crate) fn literal_of(alloc: Global, tokens: &[Token]) -> Taken<'_, Expr>
    ensures read { Gives (λ x. Read x.0 x.1.now) result ((literal 100).read tokens.now) }
    ensures shorter { IfOk result (λ x. length x.1.now < length tokens.now) }
{
    literal_over_of(
        alloc,
        tokens,
        DEEPEST,
        |rest: &[Token]|
            ensures read { Gives (λ x. Read x.0 x.1.now) result ((nested_literal 100 (tt {0})).read rest.now) }
            ensures shorter { IfOk result (λ x. length x.1.now < length rest.now) }
        { nested_literal_of(alloc, rest, DEEPEST) },
    )
}
