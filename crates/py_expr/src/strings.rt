//! Strings in a row.

ghost use Rattle.std.specs.Prelude.{◌≡◌, ◌<◌, ◌∷◌, ◌++◌, [], List, Option, Some, None, IfOk, length, reverse};
ghost use Rattle.phrases.specs.Reading.{Read};
ghost use Rattle.phrases.specs.Phrases.{token};
ghost use Rattle.phrases.specs.Loops.{Gives};
ghost use Rattle.py_ast.specs.Tokens.{text_of};
ghost use Rattle.py_ast.specs.Trees.{strings_of, joined_form, plain_text, parts_of};
ghost use Rattle.py_ast.specs.Grammar.{mapped};

use crate::token::{Taken, make_leaf, text_token};
use py_ast::{Expr, Form, Part, Piece};
use py_lexer::Token;
use py_literals::place::Pos;
use rv_names::{Memory, Text};
use sqlite_items::Items;
use std::alloc::Global;

/// The text of strings of which none is formatted.
#[tactic(auto, using(crate::proofs::Texts::before_none, crate::proofs::Texts::before_plain))]
fn plain_text(alloc: Global, pieces: &[(Pos, Piece)]) -> Result<Option<Text>, Memory>
    ensures { IfOk result (λ text. text ≡ plain_text pieces.now) }
{
    let mut text = String::new(alloc);
    for (_, piece) in pieces {
        match piece {
            Piece::Plain(more) => text.push_str(more.as_str())?,
            Piece::Formatted(_) => return Ok(None),
        }
    }
    Ok(Some(Text::read(alloc, text.as_str())?))
}

/// The pieces, last first.
fn reversed(alloc: Global, pieces: Items<(Pos, Piece)>) -> Result<Items<(Pos, Piece)>, Memory>
    ensures { IfOk result (λ all. all ≡ reverse pieces) }
{
    let mut rest = pieces;
    let mut all = Items::new(alloc);
    while let Some(piece) = rest.pop() {
        all.push(piece)?;
    }
    Ok(all)
}

/// The parts of all pieces.
fn parts_of(alloc: Global, pieces: Items<(Pos, Piece)>) -> Result<Items<Part>, Memory>
    ensures { IfOk result (λ parts. parts ≡ parts_of pieces) }
{
    let mut rest = reversed(alloc, pieces)?;
    let mut parts = Items::new(alloc);
    while let Some((_, piece)) = rest.pop() {
        match piece {
            Piece::Plain(text) => parts.push(Part::Text(text))?,
            Piece::Formatted(more) => parts.append(more)?,
        }
    }
    Ok(parts)
}

/// Several strings in a row, or one, as one expression.
#[inline(never)]
fn joined_strings(
    alloc: Global,
    first: (Pos, Piece),
    others: Items<(Pos, Piece)>,
) -> Result<Expr, Memory>
    ensures { IfOk result (λ e. e ≡ strings_of first others) }
{
    let at = first.0;
    let mut pieces = Items::new(alloc);
    pieces.push(first)?;
    pieces.append(others)?;
    match plain_text(alloc, pieces.as_slice())? {
        Some(text) => Ok(make_leaf(at, Form::Text(text))),
        None => Ok(make_leaf(at, Form::Formatted(parts_of(alloc, pieces)?))),
    }
}

/// What a string alone stands for, with nothing copied: most strings have no neighbour.
#[inline(always)]
#[tactic(auto, using(crate::proofs::Texts::alone_plain, crate::proofs::Texts::alone_formatted))]
fn alone(piece: Piece) -> Form
    ensures { (at : Pos) → result ≡ joined_form ((at, piece) ∷ []) (plain_text ((at, piece) ∷ [])) }
{
    match piece {
        Piece::Plain(text) => Form::Text(text),
        Piece::Formatted(parts) => Form::Formatted(parts),
    }
}

/// Strings in a row, as one expression.
pub fn as_strings(
    alloc: Global,
    first: (Pos, Piece),
    others: Items<(Pos, Piece)>,
) -> Result<Expr, Memory>
    ensures { IfOk result (λ e. e ≡ strings_of first others) }
{
    if !others.is_empty() {
        return joined_strings(alloc, first, others);
    }
    let (at, piece) = first;
    Ok(make_leaf(at, alone(piece)))
}

/// A string that isn't formatted, as the expression that it is where no string stands behind it.
#[inline(always)]
#[tactic(auto, unfolding(py_ast::specs::Grammar::mapped))]
pub fn text_here(tokens: &[Token]) -> Taken<'_, Expr>
    ensures read { Gives (λ x. Read x.0 x.1.now) result ((mapped (token text_of) (λ p. strings_of p [])).read tokens.now) }
    ensures shorter { IfOk result (λ x. length x.1.now < length tokens.now) }
{
    let ((at, piece), rest) = text_token(tokens)?;
    Ok((make_leaf(at, alone(piece)), rest))
}
