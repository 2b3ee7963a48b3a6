//! What a token leaves behind it.

ghost use Rattle.std.specs.Prelude.{◌≡◌};
ghost use Rattle.later_forms.specs.Standing.{headed, bracket_behind, behind_comma, behind_colon, content_behind, awaits_behind, callee_named, begun, primary_behind, moved_to, round_opening, first_spot, opened, is_wrapping, callee_behind, round_closing};

use crate::level::{Bracket, Callee, Content, Level, Primary};
use crate::moves::is_literal;
use crate::spot::Spot;
use py_lexer::{Kind, Token, Value};

/// What an outermost level is of behind this token: a header or not.
#[tactic(auto, unfolding(crate::specs::Standing::headed))]
fn headed(bracket: Bracket, spot: Spot, kind: Kind) -> Bracket
    ensures { result ≡ headed bracket spot kind }
{
    match kind {
        Kind::Def | Kind::Class | Kind::From | Kind::Import | Kind::For => Bracket::Heading,
        Kind::At => {
            if spot.is_behind() {
                bracket
            } else {
                Bracket::Heading
            }
        }
        Kind::In | Kind::Colon | Kind::Semicolon | Kind::Arrow => Bracket::Outside,
        _ => bracket,
    }
}

fn bracket_behind(level: Level, kind: Kind) -> Bracket
    ensures { result ≡ bracket_behind level kind }
{
    if level.bracket.is_outermost() {
        headed(level.bracket, level.spot, kind)
    } else {
        level.bracket
    }
}

fn behind_comma(content: Content) -> Content
    ensures { result ≡ behind_comma content }
{
    match content {
        Content::Clauses => Content::Clauses,
        _ => Content::Several,
    }
}

fn behind_colon(content: Content) -> Content
    ensures { result ≡ behind_colon content }
{
    match content {
        Content::Single | Content::Starred => Content::Pair,
        _ => content,
    }
}

#[tactic(auto, unfolding(crate::specs::Standing::content_behind))]
fn content_behind(level: Level, kind: Kind) -> Content
    ensures { result ≡ content_behind level kind }
{
    match kind {
        Kind::Comma => behind_comma(level.content),
        Kind::Colon => behind_colon(level.content),
        Kind::Equal | Kind::Yield => Content::Barred,
        Kind::Star => {
            if level.spot.is_begin() {
                Content::Starred
            } else {
                level.content
            }
        }
        Kind::DoubleStar => {
            if level.spot.is_begin() {
                Content::Barred
            } else {
                level.content
            }
        }
        Kind::For => {
            if level.bracket.may_hold_clauses() {
                Content::Clauses
            } else {
                level.content
            }
        }
        _ => level.content,
    }
}

/// Whether a conditional of the level waits for its `else` behind this token.
#[tactic(auto, unfolding(crate::specs::Standing::awaits_behind))]
fn awaits_behind(level: Level, kind: Kind) -> bool
    ensures { result ≡ awaits_behind level kind }
{
    match kind {
        Kind::If => level.spot.is_behind() && level.content != Content::Clauses,
        Kind::Else => false,
        _ => level.awaits_else,
    }
}

fn callee_named(value: &Value) -> Callee
    ensures { result ≡ callee_named value.now }
{
    match value {
        Value::Name(name) => {
            if name.as_str() == "__init__" {
                Callee::Init
            } else {
                Callee::Named
            }
        }
        _ => Callee::Named,
    }
}

/// Where the primary begins of which a token at this index is a part.
fn begun(at: usize, level: Level) -> usize
    ensures { result ≡ begun at level }
{
    if level.spot.goes_on_primary() {
        level.primary.begin
    } else {
        at
    }
}

#[tactic(auto, unfolding(crate::specs::Standing::primary_behind))]
fn primary_behind(at: usize, token: &Token, level: Level, kind: Kind) -> Primary
    ensures { result ≡ primary_behind at token.now level kind }
{
    match kind {
        Kind::Name => Primary {
            begin: begun(at, level),
            callee: callee_named(&token.value),
        },
        Kind::Text | Kind::Bytes => Primary {
            begin: begun(at, level),
            callee: Callee::Unnamed,
        },
        _ => {
            if is_literal(kind) {
                Primary {
                    begin: begun(at, level),
                    callee: Callee::Unnamed,
                }
            } else {
                level.primary
            }
        }
    }
}

/// The level behind a token at this index that leads to a spot of it.
#[tactic(auto, unfolding(crate::specs::Standing::moved_to))]
pub fn moved_to(at: usize, token: &Token, level: Level, spot: Spot) -> Level
    ensures { result ≡ moved_to at token.now level spot }
{
    Level {
        bracket: bracket_behind(level, token.kind),
        opening: level.opening,
        spot,
        content: content_behind(level, token.kind),
        awaits_else: awaits_behind(level, token.kind),
        primary: primary_behind(at, token, level, token.kind),
    }
}

/// The level round a bracket that opens at this index.
pub fn round_opening(at: usize, level: Level) -> Level
    ensures { result ≡ round_opening at level }
{
    Level {
        primary: Primary {
            begin: begun(at, level),
            callee: level.primary.callee,
        },
        ..level
    }
}

fn first_spot(bracket: Bracket) -> Spot
    ensures { result ≡ first_spot bracket }
{
    match bracket {
        Bracket::Parameters => Spot::Parameter,
        _ => Spot::Begin,
    }
}

/// The level of a bracket that opens at this index.
pub fn opened(at: usize, bracket: Bracket) -> Level
    ensures { result ≡ opened at bracket }
{
    Level {
        bracket,
        opening: at,
        spot: first_spot(bracket),
        content: Content::Single,
        awaits_else: false,
        primary: Primary {
            begin: at,
            callee: Callee::Unnamed,
        },
    }
}

/// Whether parentheses that close there group one primary alone.
fn is_wrapping(level: Level) -> bool
    ensures { result ≡ is_wrapping level }
{
    level.bracket == Bracket::Group
        && level.spot.is_behind()
        && level.primary.begin.saturating_sub(level.opening) == 1
}

fn callee_behind(inner: Level) -> Callee
    ensures { result ≡ callee_behind inner }
{
    if is_wrapping(inner) {
        inner.primary.callee
    } else {
        Callee::Unnamed
    }
}

/// The level round the bracket of `inner`, which closes.
pub fn round_closing(inner: Level, level: Level, spot: Spot) -> Level
    ensures { result ≡ round_closing inner level spot }
{
    Level {
        spot,
        primary: Primary {
            begin: level.primary.begin,
            callee: callee_behind(inner),
        },
        ..level
    }
}
