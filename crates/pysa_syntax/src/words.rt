//! Single tokens, names, and qualified names.

ghost use Rattle.std.specs.Prelude.{◌≡◌, ◌<◌, ◌≤◌, IfOk, length};
ghost use Rattle.std.specs.Option.{option_copied};
ghost use Rattle.phrases.specs.Sets.{has};
ghost use Rattle.phrases.specs.Reading.{Read};
ghost use Rattle.phrases.specs.Phrases.{many};
ghost use Rattle.phrases.specs.Loops.{Gives};
ghost use Rattle.pysa_syntax.specs.Symbols.{class, only, names, text_in};
ghost use Rattle.pysa_syntax.specs.Grammar.{one_of, sign, identifier, before, names_by, texts, qname};

use crate::lists::prepended;
use crate::symbol::{Symbol, is, is_name};
use phrases::{Fault, Stop, many};
use py_lexer::{Token, Value};
use py_literals::place::Pos;
use rv_names::{Name, QName};
use sqlite_items::Items;
use std::alloc::{AllocError, Global};

/// A symbol, and its place.
#[tactic(auto, unfolding(crate::specs::Grammar::sign))]
pub fn sign(tokens: &[Token], symbol: Symbol) -> Result<(Pos, &[Token]), Stop<'_, Token>>
    ensures read { Gives (λ x. Read x.0 x.1.now) result ((sign symbol).read tokens.now) }
    ensures shorter { IfOk result (λ x. length x.1.now < length tokens.now) }
{
    match tokens {
        [first, rest @ ..] => {
            if is(first, symbol) {
                Ok((first.at, rest))
            } else {
                Err(Stop::Fault(Fault::Syntax, tokens))
            }
        }
        [] => Err(Stop::Fault(Fault::Syntax, tokens)),
    }
}

/// The name that a token is.
fn name_in(token: &Token) -> Option<&Name>
    ensures { option_copied result ≡ one_of names (λ t. text_in t.value) token.now }
{
    if !is_name(token) {
        return None;
    }
    match &token.value {
        Value::Name(name) => Some(name),
        Value::Nothing => None,
        Value::Text(_) => None,
        Value::Whole(_) => None,
    }
}

/// A name, and its place.
#[tactic(auto, unfolding(crate::specs::Grammar::identifier))]
pub fn identifier(tokens: &[Token]) -> Result<((Name, Pos), &[Token]), Stop<'_, Token>>
    ensures read { Gives (λ x. Read (x.0.0, x.0.1) x.1.now) result (identifier.read tokens.now) }
    ensures shorter { IfOk result (λ x. length x.1.now < length tokens.now) }
{
    match tokens {
        [first, rest @ ..] => match name_in(first) {
            Some(name) => Ok(((name.clone()?, first.at), rest)),
            None => Err(Stop::Fault(Fault::Syntax, tokens)),
        },
        [] => Err(Stop::Fault(Fault::Syntax, tokens)),
    }
}

/// A separator and the name behind it.
#[tactic(auto, unfolding(crate::specs::Grammar::before))]
fn further_name(
    tokens: &[Token],
    separator: Symbol,
) -> Result<((Name, Pos), &[Token]), Stop<'_, Token>>
    ensures read { Gives (λ x. Read (x.0.0, x.0.1) x.1.now) result ((before separator identifier).read tokens.now) }
    ensures shorter { IfOk result (λ x. length x.1.now < length tokens.now) }
{
    let (_, rest) = sign(tokens, separator)?;
    identifier(rest)
}

/// Separators, each with the name behind it.
fn further_names(
    alloc: Global,
    tokens: &[Token],
    separator: Symbol,
) -> Result<(Items<(Name, Pos)>, &[Token]), Stop<'_, Token>>
    ensures read { Gives (λ x. Read x.0 x.1.now) result ((many class (only separator) (before separator identifier)).read tokens.now) }
    ensures no_longer { IfOk result (λ x. length x.1.now ≤ length tokens.now) }
{
    many(
        alloc,
        tokens,
        |token: &Token|
            ensures { result ≡ has (only separator) (class token.now) }
        { is(token, separator) },
        |rest: &[Token]|
            ensures read { Gives (λ x. Read (x.0.0, x.0.1) x.1.now) result ((before separator identifier).read rest.now) }
            ensures shorter { IfOk result (λ x. length x.1.now < length rest.now) }
        { further_name(rest, separator) },
    )
}

/// Names with a separator between two of them.
#[tactic(auto, unfolding(crate::specs::Grammar::names_by))]
pub fn names_by(
    alloc: Global,
    tokens: &[Token],
    separator: Symbol,
) -> Result<(Items<(Name, Pos)>, &[Token]), Stop<'_, Token>>
    ensures read { Gives (λ x. Read x.0 x.1.now) result ((names_by separator).read tokens.now) }
    ensures shorter { IfOk result (λ x. length x.1.now < length tokens.now) }
{
    let (first, rest) = identifier(tokens)?;
    let (others, rest) = further_names(alloc, rest, separator)?;
    Ok((prepended(alloc, first, others)?, rest))
}

/// The texts of names. A counter each.
fn texts_of(alloc: Global, words: &[(Name, Pos)]) -> Result<Vec<Name>, AllocError>
    ensures { IfOk result (λ v. v.items ≡ texts words.now) }
{
    let mut texts = Vec::new(alloc);
    for word in words {
        texts.push(word.0.clone()?)?;
    }
    Ok(texts)
}

/// A qualified name.
#[tactic(auto, unfolding(crate::specs::Grammar::qname, crate::specs::Grammar::seen))]
pub fn qname(alloc: Global, tokens: &[Token]) -> Result<(QName, &[Token]), Stop<'_, Token>>
    ensures read { Gives (λ x. Read x.0 x.1.now) result (qname.read tokens.now) }
    ensures shorter { IfOk result (λ x. length x.1.now < length tokens.now) }
{
    let (words, rest) = names_by(alloc, tokens, Symbol::Dot)?;
    let texts = texts_of(alloc, words.as_slice())?;
    Ok((QName::new(texts), rest))
}
