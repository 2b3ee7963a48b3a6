//! Parameters.

ghost use Rattle.std.specs.Prelude.{◌≡◌, ◌<◌, ◌≤◌, IfOk, length};
ghost use Rattle.phrases.specs.Sets.{has, starts};
ghost use Rattle.phrases.specs.Reading.{Read};
ghost use Rattle.phrases.specs.Loops.{Gives};
ghost use Rattle.pysa_syntax.specs.Symbols.{class, only, param_first};
ghost use Rattle.pysa_syntax.specs.Grammar.{marked, default, named, bare, plain, behind_star, star, keywords, slash, starred, param, further_param, on_behind, further_params, param_list, parameters};

use crate::decl::{DeclMark, DeclParam, ParamKind};
use crate::lists::present_after;
use crate::marks::optional_marks;
use crate::symbol::{Symbol, begins_param, is, starts_with, starts_with_name};
use crate::words::{identifier, sign};
use phrases::{Stop, series};
use py_lexer::Token;
use py_literals::place::Pos;
use rv_names::Name;
use sqlite_items::Items;
use std::alloc::Global;

/// A name, its place, and the marks behind it.
#[tactic(auto, unfolding(crate::specs::Grammar::marked))]
fn marked(
    alloc: Global,
    tokens: &[Token],
) -> Result<(((Name, Pos), Items<DeclMark>), &[Token]), Stop<'_, Token>>
    ensures read { Gives (λ x. Read ((x.0.0.0, x.0.0.1), x.0.1) x.1.now) result (marked.read tokens.now) }
    ensures shorter { IfOk result (λ x. length x.1.now < length tokens.now) }
{
    let (name, rest) = identifier(tokens)?;
    let (marks, rest) = optional_marks(alloc, rest, Symbol::Colon)?;
    Ok(((name, marks), rest))
}

/// Whether a default stands here, and what is behind it.
#[tactic(auto, unfolding(crate::specs::Grammar::default, crate::specs::Grammar::given, crate::specs::Grammar::seen, crate::specs::Grammar::before))]
fn default(tokens: &[Token]) -> Result<(bool, &[Token]), Stop<'_, Token>>
    ensures read { Gives (λ x. Read x.0 x.1.now) result (default.read tokens.now) }
    ensures no_longer { IfOk result (λ x. length x.1.now ≤ length tokens.now) }
{
    if starts_with(tokens, Symbol::Equal) {
        let (_, rest) = sign(tokens, Symbol::Equal)?;
        let (_, rest) = sign(rest, Symbol::Ellipsis)?;
        Ok((true, rest))
    } else {
        Ok((false, tokens))
    }
}

/// A parameter of this name and these marks.
fn named(kind: ParamKind, at: Pos, name: ((Name, Pos), Items<DeclMark>)) -> DeclParam
    ensures { result ≡ named kind at name }
{
    let ((name, _), marks) = name;
    DeclParam {
        kind,
        name: Some(name),
        at,
        marks,
    }
}

/// A bare `*` or `/`.
fn bare(alloc: Global, kind: ParamKind, at: Pos) -> DeclParam
    ensures { result ≡ bare kind at }
{
    DeclParam {
        kind,
        name: None,
        at,
        marks: Items::new(alloc),
    }
}

/// A parameter without a star.
#[tactic(auto, unfolding(crate::specs::Grammar::plain))]
fn plain(alloc: Global, tokens: &[Token]) -> Result<(DeclParam, &[Token]), Stop<'_, Token>>
    ensures read { Gives (λ x. Read x.0 x.1.now) result (plain.read tokens.now) }
    ensures shorter { IfOk result (λ x. length x.1.now < length tokens.now) }
{
    let (name, rest) = marked(alloc, tokens)?;
    let (_, rest) = default(rest)?;
    let at = name.0.1;
    Ok((named(ParamKind::Plain, at, name), rest))
}

/// The parameter of a star at this place.
#[tactic(auto, unfolding(crate::specs::Grammar::behind_star, crate::specs::Grammar::seen))]
fn behind_star(
    alloc: Global,
    tokens: &[Token],
    at: Pos,
) -> Result<(DeclParam, &[Token]), Stop<'_, Token>>
    ensures read { Gives (λ x. Read x.0 x.1.now) result ((behind_star at).read tokens.now) }
    ensures no_longer { IfOk result (λ x. length x.1.now ≤ length tokens.now) }
{
    if starts_with_name(tokens) {
        let (name, rest) = marked(alloc, tokens)?;
        Ok((named(ParamKind::Rest, at, name), rest))
    } else {
        Ok((bare(alloc, ParamKind::Star, at), tokens))
    }
}

/// A star, bare or with a name.
#[tactic(auto, unfolding(crate::specs::Grammar::star))]
fn star(alloc: Global, tokens: &[Token]) -> Result<(DeclParam, &[Token]), Stop<'_, Token>>
    ensures read { Gives (λ x. Read x.0 x.1.now) result (star.read tokens.now) }
    ensures shorter { IfOk result (λ x. length x.1.now < length tokens.now) }
{
    let (at, rest) = sign(tokens, Symbol::Star)?;
    behind_star(alloc, rest, at)
}

/// Two stars and a name.
#[tactic(auto, unfolding(crate::specs::Grammar::keywords))]
fn keywords(alloc: Global, tokens: &[Token]) -> Result<(DeclParam, &[Token]), Stop<'_, Token>>
    ensures read { Gives (λ x. Read x.0 x.1.now) result (keywords.read tokens.now) }
    ensures shorter { IfOk result (λ x. length x.1.now < length tokens.now) }
{
    let (at, rest) = sign(tokens, Symbol::DoubleStar)?;
    let (name, rest) = marked(alloc, rest)?;
    Ok((named(ParamKind::Keywords, at, name), rest))
}

/// A bare slash.
#[tactic(auto, unfolding(crate::specs::Grammar::slash, crate::specs::Grammar::seen))]
fn slash(alloc: Global, tokens: &[Token]) -> Result<(DeclParam, &[Token]), Stop<'_, Token>>
    ensures read { Gives (λ x. Read x.0 x.1.now) result (slash.read tokens.now) }
    ensures shorter { IfOk result (λ x. length x.1.now < length tokens.now) }
{
    let (at, rest) = sign(tokens, Symbol::Slash)?;
    Ok((bare(alloc, ParamKind::Slash, at), rest))
}

/// A parameter that begins with a star or a slash.
#[tactic(auto, unfolding(crate::specs::Grammar::starred))]
fn starred(alloc: Global, tokens: &[Token]) -> Result<(DeclParam, &[Token]), Stop<'_, Token>>
    ensures read { Gives (λ x. Read x.0 x.1.now) result (starred.read tokens.now) }
    ensures shorter { IfOk result (λ x. length x.1.now < length tokens.now) }
{
    if starts_with(tokens, Symbol::Star) {
        star(alloc, tokens)
    } else if starts_with(tokens, Symbol::DoubleStar) {
        keywords(alloc, tokens)
    } else {
        slash(alloc, tokens)
    }
}

/// A parameter.
#[tactic(auto, unfolding(crate::specs::Grammar::param))]
fn param(alloc: Global, tokens: &[Token]) -> Result<(DeclParam, &[Token]), Stop<'_, Token>>
    ensures read { Gives (λ x. Read x.0 x.1.now) result (param.read tokens.now) }
    ensures shorter { IfOk result (λ x. length x.1.now < length tokens.now) }
{
    if starts_with_name(tokens) {
        plain(alloc, tokens)
    } else {
        starred(alloc, tokens)
    }
}

/// Whether a parameter begins here.
fn starts_with_param(tokens: &[Token]) -> bool
    ensures { result ≡ starts class param_first tokens.now }
{
    match tokens {
        [first, ..] => begins_param(first),
        [] => false,
    }
}

/// A comma and the parameter behind it, if there is one, and whether another comma may follow.
#[tactic(auto, unfolding(crate::specs::Grammar::further_param, crate::specs::Grammar::seen, crate::specs::Grammar::before))]
fn further_param(
    alloc: Global,
    tokens: &[Token],
) -> Result<((Option<DeclParam>, Option<()>), &[Token]), Stop<'_, Token>>
    ensures read { Gives (λ x. Read x.0.0 x.1.now) result (further_param.read tokens.now) }
    ensures next { IfOk result (λ x. x.0.1 ≡ on_behind tt x.0.0) }
    ensures shorter { IfOk result (λ x. length x.1.now < length tokens.now) }
{
    let (_, rest) = sign(tokens, Symbol::Comma)?;
    if starts_with_param(rest) {
        let (param, rest) = param(alloc, rest)?;
        Ok(((Some(param), Some(())), rest))
    } else {
        Ok(((None, None), rest))
    }
}

/// Commas, each with the parameter behind it, which the last may lack.
fn further_params(
    alloc: Global,
    tokens: &[Token],
) -> Result<(Items<Option<DeclParam>>, &[Token]), Stop<'_, Token>>
    ensures read { Gives (λ x. Read x.0 x.1.now) result (further_params.read tokens.now) }
    ensures no_longer { IfOk result (λ x. length x.1.now ≤ length tokens.now) }
{
    series(
        alloc,
        tokens,
        (),
        |_state: (), token: &Token|
            ensures { result ≡ has (only Symbol.Comma) (class token.now) }
        { is(token, Symbol::Comma) },
        |_state: (), rest: &[Token]|
            ensures read { Gives (λ x. Read x.0.0 x.1.now) result (further_param.read rest.now) }
            ensures next { IfOk result (λ x. x.0.1 ≡ on_behind tt x.0.0) }
            ensures shorter { IfOk result (λ x. length x.1.now < length rest.now) }
        { further_param(alloc, rest) },
    )
}

/// Parameters, and perhaps a comma behind the last.
#[tactic(auto, unfolding(crate::specs::Grammar::param_list))]
fn param_list(
    alloc: Global,
    tokens: &[Token],
) -> Result<(Items<DeclParam>, &[Token]), Stop<'_, Token>>
    ensures read { Gives (λ x. Read x.0 x.1.now) result (param_list.read tokens.now) }
    ensures no_longer { IfOk result (λ x. length x.1.now ≤ length tokens.now) }
{
    if starts_with_param(tokens) {
        let (first, rest) = param(alloc, tokens)?;
        let (further, rest) = further_params(alloc, rest)?;
        Ok((present_after(alloc, first, further)?, rest))
    } else {
        Ok((Items::new(alloc), tokens))
    }
}

/// Parameters in parentheses.
#[tactic(auto, unfolding(crate::specs::Grammar::parameters, crate::specs::Grammar::behind, crate::specs::Grammar::before))]
pub fn parameters(
    alloc: Global,
    tokens: &[Token],
) -> Result<(Items<DeclParam>, &[Token]), Stop<'_, Token>>
    ensures read { Gives (λ x. Read x.0 x.1.now) result (parameters.read tokens.now) }
    ensures shorter { IfOk result (λ x. length x.1.now < length tokens.now) }
{
    let (_, rest) = sign(tokens, Symbol::LeftParen)?;
    let (params, rest) = param_list(alloc, rest)?;
    let (_, rest) = sign(rest, Symbol::RightParen)?;
    Ok((params, rest))
}
