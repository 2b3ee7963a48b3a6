//! Where a token leads.

ghost use Rattle.std.specs.Prelude.{◌≡◌};
ghost use Rattle.later_forms.specs.Moves.{only_if, takes_equal, comma_moves, colon_moves, opens_at, opening_moves, bracket_moves, star_moves, slash_moves, is_binary, operator_moves, not_moves, in_moves, word_moves, is_literal, moves, value_at, continues, leads};

use crate::level::{Bracket, Content, Level};
use crate::spot::Spot;
use py_lexer::Kind;

/// Where a token leads.
#[derive(Clone, Copy, Debug, PartialEq, Eq)]
pub enum Move {
    /// To this spot of the same level.
    To(Spot),
    /// Into a bracket.
    Opens(Bracket),
    /// Out of the innermost bracket, to this spot of the level round it.
    Closes(Spot),
    /// The full grammar doesn't go on.
    Nowhere,
}

fn only_if(goes_on: bool, to: Move) -> Move
    ensures { result ≡ only_if goes_on to }
{
    if goes_on { to } else { Move::Nowhere }
}

fn takes_equal(bracket: Bracket) -> bool
    ensures { result ≡ takes_equal bracket }
{
    match bracket {
        Bracket::Call | Bracket::Header | Bracket::Parameters => true,
        _ => false,
    }
}

fn comma_moves(level: Level) -> Move
    ensures { result ≡ comma_moves level.bracket level }
{
    match level.bracket {
        Bracket::Outside | Bracket::Heading | Bracket::Formatted => Move::Nowhere,
        Bracket::Parameters => only_if(
            level.is_whole() || level.spot.is_parameter(),
            Move::To(Spot::Parameter),
        ),
        Bracket::Subscript => only_if(
            level.is_whole() || level.spot.is_slice(),
            Move::To(Spot::Item),
        ),
        _ => only_if(level.is_whole(), Move::To(Spot::Item)),
    }
}

fn colon_moves(level: Level) -> Move
    ensures { result ≡ colon_moves level.bracket level }
{
    match level.bracket {
        Bracket::Parameters => only_if(
            level.is_whole() || level.spot.is_parameter(),
            Move::Closes(Spot::Value),
        ),
        Bracket::Subscript => only_if(
            level.is_complete() || level.spot.is_begin(),
            Move::To(Spot::Slice),
        ),
        Bracket::Braces | Bracket::Header => only_if(level.is_whole(), Move::To(Spot::Value)),
        _ => Move::Nowhere,
    }
}

/// The bracket `first` opens where an operand may begin, and `behind` behind one.
fn opens_at(spot: Spot, first: Bracket, behind: Bracket) -> Move
    ensures { result ≡ opens_at spot first behind }
{
    if spot.wants_operand() {
        Move::Opens(first)
    } else {
        only_if(spot.is_behind(), Move::Opens(behind))
    }
}

fn opening_moves(level: Level, first: Bracket, behind: Bracket) -> Move
    ensures { result ≡ opening_moves level.bracket level.spot first behind }
{
    match level.bracket {
        Bracket::Heading => opens_at(level.spot, Bracket::Header, Bracket::Header),
        _ => opens_at(level.spot, first, behind),
    }
}

#[tactic(auto, unfolding(crate::specs::Moves::bracket_moves))]
fn bracket_moves(level: Level, kind: Kind) -> Move
    ensures { result ≡ bracket_moves level kind }
{
    match kind {
        Kind::Comma => comma_moves(level),
        Kind::Colon => colon_moves(level),
        Kind::Dot => only_if(level.spot.is_behind(), Move::To(Spot::Attribute)),
        Kind::LeftParen => opening_moves(level, Bracket::Group, Bracket::Call),
        Kind::LeftBracket => opening_moves(level, Bracket::Listing, Bracket::Subscript),
        Kind::LeftBrace => only_if(level.spot.wants_operand(), Move::Opens(Bracket::Braces)),
        _ => only_if(
            level.bracket.closed_by(kind) && level.is_complete(),
            Move::Closes(Spot::Behind),
        ),
    }
}

fn star_moves(spot: Spot) -> Move
    ensures { result ≡ star_moves spot }
{
    match spot {
        Spot::Begin | Spot::Item => Move::To(Spot::Value),
        Spot::Parameter => Move::To(Spot::Parameter),
        _ => only_if(spot.is_behind(), Move::To(Spot::Operand)),
    }
}

fn slash_moves(spot: Spot) -> Move
    ensures { result ≡ slash_moves spot }
{
    match spot {
        Spot::Parameter => Move::To(Spot::Parameter),
        _ => only_if(spot.is_behind(), Move::To(Spot::Operand)),
    }
}

/// Whether the token is a binary operator or comparison, and nothing else beside.
#[tactic(auto, unfolding(crate::specs::Moves::is_binary))]
fn is_binary(kind: Kind) -> bool
    ensures { result ≡ is_binary kind }
{
    match kind {
        Kind::DoubleSlash
        | Kind::Percent
        | Kind::At
        | Kind::LeftShift
        | Kind::RightShift
        | Kind::Ampersand
        | Kind::Bar
        | Kind::Caret
        | Kind::Less
        | Kind::Greater
        | Kind::LessEqual
        | Kind::GreaterEqual
        | Kind::DoubleEqual
        | Kind::NotEqual => true,
        _ => false,
    }
}

#[tactic(auto, unfolding(crate::specs::Moves::operator_moves))]
fn operator_moves(level: Level, kind: Kind) -> Move
    ensures { result ≡ operator_moves level kind }
{
    let spot = level.spot;
    match kind {
        Kind::Plus | Kind::Minus => only_if(
            spot.wants_operand() || spot.is_behind(),
            Move::To(Spot::Operand),
        ),
        Kind::Tilde => only_if(spot.wants_operand(), Move::To(Spot::Operand)),
        Kind::Star | Kind::DoubleStar => star_moves(spot),
        Kind::Slash => slash_moves(spot),
        Kind::ColonEqual => only_if(spot.is_behind(), Move::To(Spot::Value)),
        Kind::Equal => only_if(
            takes_equal(level.bracket) && level.is_whole(),
            Move::To(Spot::Value),
        ),
        _ => {
            if is_binary(kind) {
                only_if(spot.is_behind(), Move::To(Spot::Operand))
            } else {
                bracket_moves(level, kind)
            }
        }
    }
}

fn not_moves(spot: Spot) -> Move
    ensures { result ≡ not_moves spot }
{
    match spot {
        Spot::BehindIs => Move::To(Spot::Operand),
        Spot::Inversion => Move::To(Spot::Inversion),
        _ => {
            if spot.takes_expression() {
                Move::To(Spot::Inversion)
            } else {
                only_if(spot.is_behind(), Move::To(Spot::NotIn))
            }
        }
    }
}

fn in_moves(spot: Spot, content: Content) -> Move
    ensures { result ≡ in_moves spot content }
{
    match spot {
        Spot::NotIn => Move::To(Spot::Operand),
        Spot::Item => match content {
            Content::Clauses => Move::To(Spot::Inversion),
            _ => Move::Nowhere,
        },
        _ => only_if(spot.is_behind(), Move::To(Spot::Inversion)),
    }
}

#[tactic(auto, unfolding(crate::specs::Moves::word_moves))]
fn word_moves(level: Level, kind: Kind) -> Move
    ensures { result ≡ word_moves level kind }
{
    let spot = level.spot;
    let is_group = level.bracket == Bracket::Group;
    match kind {
        Kind::Not => not_moves(spot),
        Kind::In => in_moves(spot, level.content),
        Kind::Is => only_if(spot.is_behind(), Move::To(Spot::BehindIs)),
        Kind::And | Kind::Or => only_if(spot.is_behind(), Move::To(Spot::Inversion)),
        Kind::If => only_if(level.is_whole(), Move::To(Spot::Inversion)),
        Kind::Else => only_if(spot.is_behind() && level.awaits_else, Move::To(Spot::Value)),
        Kind::Await => only_if(spot.wants_operand(), Move::To(Spot::Operand)),
        Kind::Lambda => only_if(spot.takes_expression(), Move::Opens(Bracket::Parameters)),
        Kind::Yield => only_if(is_group && spot.is_begin(), Move::To(Spot::Item)),
        Kind::From => only_if(is_group && spot.is_item(), Move::To(Spot::Value)),
        Kind::Async => only_if(level.begins_async(), Move::To(Spot::BehindAsync)),
        Kind::For => only_if(level.begins_clause(), Move::To(Spot::Item)),
        _ => operator_moves(level, kind),
    }
}

#[tactic(auto, unfolding(crate::specs::Moves::is_literal))]
pub fn is_literal(kind: Kind) -> bool
    ensures { result ≡ is_literal kind }
{
    match kind {
        Kind::Number | Kind::Float | Kind::False | Kind::None | Kind::True | Kind::Ellipsis => true,
        _ => false,
    }
}

/// Where a token leads by the grammar of expressions.
#[tactic(auto, unfolding(crate::specs::Moves::moves))]
fn moves(level: Level, kind: Kind) -> Move
    ensures { result ≡ moves level kind }
{
    let spot = level.spot;
    let is_formatted = level.bracket == Bracket::Formatted;
    match kind {
        Kind::Name => only_if(spot.takes_name(), Move::To(Spot::Behind)),
        Kind::Text | Kind::Bytes => only_if(spot.takes_string(), Move::To(Spot::BehindString)),
        Kind::FStringStart => only_if(spot.takes_string(), Move::Opens(Bracket::Formatted)),
        Kind::FStringText => only_if(is_formatted, Move::To(spot)),
        Kind::FieldOpen => only_if(is_formatted, Move::Opens(Bracket::Field)),
        Kind::FStringEnd => only_if(is_formatted, Move::Closes(Spot::BehindString)),
        _ => {
            if is_literal(kind) {
                only_if(spot.wants_operand(), Move::To(Spot::Behind))
            } else {
                word_moves(level, kind)
            }
        }
    }
}

fn value_at(bracket: Bracket, to: Move) -> Move
    ensures { result ≡ value_at bracket to }
{
    match to {
        Move::Nowhere => only_if(bracket.is_of_statement(), Move::To(Spot::Value)),
        _ => to,
    }
}

/// Whether the token goes on with the primary that stands there.
#[tactic(auto, unfolding(crate::specs::Moves::continues))]
fn continues(spot: Spot, kind: Kind) -> bool
    ensures { result ≡ continues spot kind }
{
    match kind {
        Kind::Dot | Kind::LeftParen | Kind::LeftBracket => {
            spot.is_behind() || spot == Spot::Attribute
        }
        Kind::Text | Kind::Bytes | Kind::FStringStart => match spot {
            Spot::BehindString | Spot::Attribute => true,
            _ => false,
        },
        _ => spot == Spot::Attribute,
    }
}

/// Where a token leads that stands before the stop, or from there on.
#[tactic(auto, unfolding(crate::specs::Moves::leads))]
pub fn leads(is_stopped: bool, level: Level, kind: Kind) -> Move
    ensures { result ≡ leads is_stopped level kind }
{
    if is_stopped {
        only_if(
            !level.bracket.is_outermost() || continues(level.spot, kind),
            moves(level, kind),
        )
    } else {
        value_at(level.bracket, moves(level, kind))
    }
}
