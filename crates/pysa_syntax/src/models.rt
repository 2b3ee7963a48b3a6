//! Models, and files of them.

ghost use Rattle.std.specs.Prelude.{◌≡◌, ◌<◌, ◌≤◌, true, false, IfOk, length};
ghost use Rattle.phrases.specs.Sets.{has};
ghost use Rattle.phrases.specs.Reading.{Read};
ghost use Rattle.phrases.specs.Loops.{Gives};
ghost use Rattle.pysa_syntax.specs.Symbols.{class, model_first};
ghost use Rattle.pysa_syntax.specs.Grammar.{before, ending, headed, signature, definition, decorator, decorated, typed, attribute, model, file};

use crate::decl::{Decl, DeclMark, DeclParam};
use crate::marks::{mark_list, optional_marks};
use crate::params::parameters;
use crate::symbol::{Symbol, begins_model, starts_with};
use crate::words::{qname, sign};
use phrases::{Stop, many};
use py_lexer::Token;
use py_literals::place::Pos;
use rv_names::QName;
use sqlite_items::Items;
use std::alloc::Global;

/// A symbol, and then `...` and the end of the line.
#[tactic(auto, unfolding(crate::specs::Grammar::ending, crate::specs::Grammar::before))]
fn ending(tokens: &[Token], symbol: Symbol) -> Result<(Pos, &[Token]), Stop<'_, Token>>
    ensures read { Gives (λ x. Read x.0 x.1.now) result ((before symbol ending).read tokens.now) }
    ensures shorter { IfOk result (λ x. length x.1.now < length tokens.now) }
{
    let (_, rest) = sign(tokens, symbol)?;
    let (_, rest) = sign(rest, Symbol::Ellipsis)?;
    sign(rest, Symbol::Newline)
}

/// `def`, a qualified name, and parameters.
#[tactic(auto, unfolding(crate::specs::Grammar::headed, crate::specs::Grammar::before))]
fn headed(
    alloc: Global,
    tokens: &[Token],
) -> Result<((QName, Items<DeclParam>), &[Token]), Stop<'_, Token>>
    ensures read { Gives (λ x. Read (x.0.0, x.0.1) x.1.now) result (headed.read tokens.now) }
    ensures shorter { IfOk result (λ x. length x.1.now < length tokens.now) }
{
    let (_, rest) = sign(tokens, Symbol::Def)?;
    let (name, rest) = qname(alloc, rest)?;
    let (params, rest) = parameters(alloc, rest)?;
    Ok(((name, params), rest))
}

/// What stands before the colon of a model with `def`.
#[tactic(auto, unfolding(crate::specs::Grammar::signature))]
fn signature(
    alloc: Global,
    tokens: &[Token],
) -> Result<(((QName, Items<DeclParam>), Items<DeclMark>), &[Token]), Stop<'_, Token>>
    ensures read { Gives (λ x. Read ((x.0.0.0, x.0.0.1), x.0.1) x.1.now) result (signature.read tokens.now) }
    ensures shorter { IfOk result (λ x. length x.1.now < length tokens.now) }
{
    let (head, rest) = headed(alloc, tokens)?;
    let (marks, rest) = optional_marks(alloc, rest, Symbol::Arrow)?;
    Ok(((head, marks), rest))
}

/// A model with `def`, and whether `@SkipObscure` stands before it.
#[tactic(auto, unfolding(crate::specs::Grammar::definition))]
fn definition(
    alloc: Global,
    tokens: &[Token],
    skip: bool,
) -> Result<(Decl, &[Token]), Stop<'_, Token>>
    ensures read { Gives (λ x. Read x.0 x.1.now) result ((definition skip).read tokens.now) }
    ensures shorter { IfOk result (λ x. length x.1.now < length tokens.now) }
{
    let (((name, params), marks), rest) = signature(alloc, tokens)?;
    let (_, rest) = ending(rest, Symbol::Colon)?;
    let decl = Decl {
        name,
        callable: true,
        skip,
        params,
        marks,
    };
    Ok((decl, rest))
}

/// The line `@SkipObscure`.
#[tactic(auto, unfolding(crate::specs::Grammar::decorator, crate::specs::Grammar::before, crate::specs::Grammar::behind))]
fn decorator(tokens: &[Token]) -> Result<(Pos, &[Token]), Stop<'_, Token>>
    ensures read { Gives (λ x. Read x.0 x.1.now) result (decorator.read tokens.now) }
    ensures shorter { IfOk result (λ x. length x.1.now < length tokens.now) }
{
    let (_, rest) = sign(tokens, Symbol::At)?;
    let (at, rest) = sign(rest, Symbol::SkipObscure)?;
    let (_, rest) = sign(rest, Symbol::Newline)?;
    Ok((at, rest))
}

/// A model with `@SkipObscure`.
#[tactic(auto, unfolding(crate::specs::Grammar::decorated))]
fn decorated(alloc: Global, tokens: &[Token]) -> Result<(Decl, &[Token]), Stop<'_, Token>>
    ensures read { Gives (λ x. Read x.0 x.1.now) result (decorated.read tokens.now) }
    ensures shorter { IfOk result (λ x. length x.1.now < length tokens.now) }
{
    let (_, rest) = decorator(tokens)?;
    definition(alloc, rest, true)
}

/// A qualified name and its marks.
#[tactic(auto, unfolding(crate::specs::Grammar::typed, crate::specs::Grammar::before))]
fn typed(
    alloc: Global,
    tokens: &[Token],
) -> Result<((QName, Items<DeclMark>), &[Token]), Stop<'_, Token>>
    ensures read { Gives (λ x. Read (x.0.0, x.0.1) x.1.now) result (typed.read tokens.now) }
    ensures shorter { IfOk result (λ x. length x.1.now < length tokens.now) }
{
    let (name, rest) = qname(alloc, tokens)?;
    let (_, rest) = sign(rest, Symbol::Colon)?;
    let (marks, rest) = mark_list(alloc, rest)?;
    Ok(((name, marks), rest))
}

/// A model of the reads and writes of a name.
#[tactic(auto, unfolding(crate::specs::Grammar::attribute))]
fn attribute(alloc: Global, tokens: &[Token]) -> Result<(Decl, &[Token]), Stop<'_, Token>>
    ensures read { Gives (λ x. Read x.0 x.1.now) result (attribute.read tokens.now) }
    ensures shorter { IfOk result (λ x. length x.1.now < length tokens.now) }
{
    let ((name, marks), rest) = typed(alloc, tokens)?;
    let (_, rest) = ending(rest, Symbol::Equal)?;
    let decl = Decl {
        name,
        callable: false,
        skip: false,
        params: Items::new(alloc),
        marks,
    };
    Ok((decl, rest))
}

/// A model.
#[tactic(auto, unfolding(crate::specs::Grammar::model))]
fn model(alloc: Global, tokens: &[Token]) -> Result<(Decl, &[Token]), Stop<'_, Token>>
    ensures read { Gives (λ x. Read x.0 x.1.now) result (model.read tokens.now) }
    ensures shorter { IfOk result (λ x. length x.1.now < length tokens.now) }
{
    if starts_with(tokens, Symbol::At) {
        decorated(alloc, tokens)
    } else if starts_with(tokens, Symbol::Def) {
        definition(alloc, tokens, false)
    } else {
        attribute(alloc, tokens)
    }
}

/// Models, up to where none begins.
pub fn file(alloc: Global, tokens: &[Token]) -> Result<(Items<Decl>, &[Token]), Stop<'_, Token>>
    ensures read { Gives (λ x. Read x.0 x.1.now) result (file.read tokens.now) }
    ensures no_longer { IfOk result (λ x. length x.1.now ≤ length tokens.now) }
{
    many(
        alloc,
        tokens,
        |token: &Token|
            ensures { result ≡ has model_first (class token.now) }
        { begins_model(token) },
        |rest: &[Token]|
            ensures read { Gives (λ x. Read x.0 x.1.now) result (model.read rest.now) }
            ensures shorter { IfOk result (λ x. length x.1.now < length rest.now) }
        { model(alloc, rest) },
    )
}
