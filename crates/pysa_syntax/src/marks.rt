//! Marks.

ghost use Rattle.std.specs.Prelude.{◌≡◌, ◌<◌, ◌≤◌, IfOk, length};
ghost use Rattle.phrases.specs.Sets.{has, starts};
ghost use Rattle.phrases.specs.Reading.{Read};
ghost use Rattle.phrases.specs.Phrases.{many};
ghost use Rattle.phrases.specs.Loops.{Gives};
ghost use Rattle.pysa_syntax.specs.Symbols.{class, only, sides};
ghost use Rattle.pysa_syntax.specs.Grammar.{before, mark_by, marks_by, kind_list, side, sided, through, one, others, several, mark_list, optional};

use crate::decl::DeclMark;
use crate::lists::{joined, prepended};
use crate::symbol::{Symbol, is, is_side, starts_with, symbol_of};
use crate::words::{names_by, sign};
use phrases::{Fault, Stop, many};
use py_lexer::Token;
use py_literals::place::Pos;
use rv_names::Name;
use sqlite_items::Items;
use std::alloc::{AllocError, Global};

/// A mark of a kind, by the symbol before the bracket.
fn mark_by(side: Symbol, kind: &(Name, Pos)) -> Result<DeclMark, AllocError>
    ensures { IfOk result (λ m. m ≡ mark_by side kind.now) }
{
    let name = kind.0.clone()?;
    match side {
        Symbol::TaintSink => Ok(DeclMark::Sink(name, kind.1)),
        _ => Ok(DeclMark::Source(name, kind.1)),
    }
}

/// A mark of each kind.
fn marks_by(
    alloc: Global,
    side: Symbol,
    kinds: &[(Name, Pos)],
) -> Result<Items<DeclMark>, AllocError>
    ensures { IfOk result (λ ms. ms ≡ marks_by side kinds.now) }
{
    let mut marks = Items::new(alloc);
    for kind in kinds {
        marks.push(mark_by(side, kind)?)?;
    }
    Ok(marks)
}

/// Kinds in brackets.
#[tactic(auto, unfolding(crate::specs::Grammar::kind_list, crate::specs::Grammar::before, crate::specs::Grammar::behind))]
fn kind_list(
    alloc: Global,
    tokens: &[Token],
) -> Result<(Items<(Name, Pos)>, &[Token]), Stop<'_, Token>>
    ensures read { Gives (λ x. Read x.0 x.1.now) result (kind_list.read tokens.now) }
    ensures shorter { IfOk result (λ x. length x.1.now < length tokens.now) }
{
    let (_, rest) = sign(tokens, Symbol::LeftBracket)?;
    let (kinds, rest) = names_by(alloc, rest, Symbol::Comma)?;
    let (_, rest) = sign(rest, Symbol::RightBracket)?;
    Ok((kinds, rest))
}

/// The symbol of a side.
#[tactic(auto, unfolding(crate::specs::Grammar::side))]
fn side(tokens: &[Token]) -> Result<(Symbol, &[Token]), Stop<'_, Token>>
    ensures read { Gives (λ x. Read x.0 x.1.now) result (side.read tokens.now) }
    ensures shorter { IfOk result (λ x. length x.1.now < length tokens.now) }
{
    match tokens {
        [first, rest @ ..] => {
            if is_side(first) {
                Ok((symbol_of(first), rest))
            } else {
                Err(Stop::Fault(Fault::Syntax, tokens))
            }
        }
        [] => Err(Stop::Fault(Fault::Syntax, tokens)),
    }
}

/// A side and its kinds.
#[tactic(auto, unfolding(crate::specs::Grammar::sided))]
fn sided(alloc: Global, tokens: &[Token]) -> Result<(Items<DeclMark>, &[Token]), Stop<'_, Token>>
    ensures read { Gives (λ x. Read x.0 x.1.now) result (sided.read tokens.now) }
    ensures shorter { IfOk result (λ x. length x.1.now < length tokens.now) }
{
    let (side, rest) = side(tokens)?;
    let (kinds, rest) = kind_list(alloc, rest)?;
    Ok((marks_by(alloc, side, kinds.as_slice())?, rest))
}

/// `TaintInTaintOut`.
#[tactic(auto, unfolding(crate::specs::Grammar::through, crate::specs::Grammar::seen))]
fn through(alloc: Global, tokens: &[Token]) -> Result<(Items<DeclMark>, &[Token]), Stop<'_, Token>>
    ensures read { Gives (λ x. Read x.0 x.1.now) result (through.read tokens.now) }
    ensures shorter { IfOk result (λ x. length x.1.now < length tokens.now) }
{
    let (_, rest) = sign(tokens, Symbol::TaintInTaintOut)?;
    let mut marks = Items::new(alloc);
    marks.push(DeclMark::Through)?;
    Ok((marks, rest))
}

/// Whether a side stands at the front.
fn starts_with_side(tokens: &[Token]) -> bool
    ensures { result ≡ starts class sides tokens.now }
{
    match tokens {
        [first, ..] => is_side(first),
        [] => false,
    }
}

/// The marks of one side, or `TaintInTaintOut`.
#[tactic(auto, unfolding(crate::specs::Grammar::one))]
fn one(alloc: Global, tokens: &[Token]) -> Result<(Items<DeclMark>, &[Token]), Stop<'_, Token>>
    ensures read { Gives (λ x. Read x.0 x.1.now) result (one.read tokens.now) }
    ensures shorter { IfOk result (λ x. length x.1.now < length tokens.now) }
{
    if starts_with_side(tokens) {
        sided(alloc, tokens)
    } else {
        through(alloc, tokens)
    }
}

/// A comma and the marks behind it.
#[tactic(auto, unfolding(crate::specs::Grammar::before))]
fn further_one(
    alloc: Global,
    tokens: &[Token],
) -> Result<(Items<DeclMark>, &[Token]), Stop<'_, Token>>
    ensures read { Gives (λ x. Read x.0 x.1.now) result ((before Symbol.Comma one).read tokens.now) }
    ensures shorter { IfOk result (λ x. length x.1.now < length tokens.now) }
{
    let (_, rest) = sign(tokens, Symbol::Comma)?;
    one(alloc, rest)
}

/// Commas, each with the marks behind it.
fn further_ones(
    alloc: Global,
    tokens: &[Token],
) -> Result<(Items<Items<DeclMark>>, &[Token]), Stop<'_, Token>>
    ensures read { Gives (λ x. Read x.0 x.1.now) result ((many class (only Symbol.Comma) (before Symbol.Comma one)).read tokens.now) }
    ensures no_longer { IfOk result (λ x. length x.1.now ≤ length tokens.now) }
{
    many(
        alloc,
        tokens,
        |token: &Token|
            ensures { result ≡ has (only Symbol.Comma) (class token.now) }
        { is(token, Symbol::Comma) },
        |rest: &[Token]|
            ensures read { Gives (λ x. Read x.0 x.1.now) result ((before Symbol.Comma one).read rest.now) }
            ensures shorter { IfOk result (λ x. length x.1.now < length rest.now) }
        { further_one(alloc, rest) },
    )
}

/// At least one comma with the marks behind it.
#[tactic(auto, unfolding(crate::specs::Grammar::others))]
fn others(
    alloc: Global,
    tokens: &[Token],
) -> Result<(Items<Items<DeclMark>>, &[Token]), Stop<'_, Token>>
    ensures read { Gives (λ x. Read x.0 x.1.now) result (others.read tokens.now) }
    ensures shorter { IfOk result (λ x. length x.1.now < length tokens.now) }
{
    let (second, rest) = further_one(alloc, tokens)?;
    let (further, rest) = further_ones(alloc, rest)?;
    Ok((prepended(alloc, second, further)?, rest))
}

/// A left bracket and the marks behind it.
#[tactic(auto, unfolding(crate::specs::Grammar::before))]
fn opened(alloc: Global, tokens: &[Token]) -> Result<(Items<DeclMark>, &[Token]), Stop<'_, Token>>
    ensures read { Gives (λ x. Read x.0 x.1.now) result ((before Symbol.LeftBracket one).read tokens.now) }
    ensures shorter { IfOk result (λ x. length x.1.now < length tokens.now) }
{
    let (_, rest) = sign(tokens, Symbol::LeftBracket)?;
    one(alloc, rest)
}

/// The marks of a list in brackets.
#[tactic(auto, unfolding(crate::specs::Grammar::several, crate::specs::Grammar::behind))]
fn several(alloc: Global, tokens: &[Token]) -> Result<(Items<DeclMark>, &[Token]), Stop<'_, Token>>
    ensures read { Gives (λ x. Read x.0 x.1.now) result (several.read tokens.now) }
    ensures shorter { IfOk result (λ x. length x.1.now < length tokens.now) }
{
    let (first, rest) = opened(alloc, tokens)?;
    let (others, rest) = others(alloc, rest)?;
    let marks = joined(alloc, first, others)?;
    let (_, rest) = sign(rest, Symbol::RightBracket)?;
    Ok((marks, rest))
}

/// Marks, of one side or in a `Union`.
#[tactic(auto, unfolding(crate::specs::Grammar::mark_list, crate::specs::Grammar::before))]
pub fn mark_list(
    alloc: Global,
    tokens: &[Token],
) -> Result<(Items<DeclMark>, &[Token]), Stop<'_, Token>>
    ensures read { Gives (λ x. Read x.0 x.1.now) result (mark_list.read tokens.now) }
    ensures shorter { IfOk result (λ x. length x.1.now < length tokens.now) }
{
    if starts_with(tokens, Symbol::Union) {
        let (_, rest) = sign(tokens, Symbol::Union)?;
        several(alloc, rest)
    } else {
        one(alloc, tokens)
    }
}

/// A symbol and the marks behind it, if the symbol stands here.
#[tactic(auto, unfolding(crate::specs::Grammar::optional, crate::specs::Grammar::before))]
pub fn optional_marks(
    alloc: Global,
    tokens: &[Token],
    symbol: Symbol,
) -> Result<(Items<DeclMark>, &[Token]), Stop<'_, Token>>
    ensures read { Gives (λ x. Read x.0 x.1.now) result ((optional symbol mark_list).read tokens.now) }
    ensures no_longer { IfOk result (λ x. length x.1.now ≤ length tokens.now) }
{
    if starts_with(tokens, symbol) {
        let (_, rest) = sign(tokens, symbol)?;
        mark_list(alloc, rest)
    } else {
        Ok((Items::new(alloc), tokens))
    }
}
