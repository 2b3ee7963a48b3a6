//! What is known of an open bracket, and of what stands outside of all.

ghost use Rattle.std.specs.Prelude.{◌≡◌};
ghost use Rattle.later_forms.specs.Levels.{is_outermost, is_of_statement, may_hold_clauses, takes_clauses, may_be_set, is_whole, begins_clause, begins_async, is_set, closed_by, may_end, is_complete, ends_subject};

use crate::spot::Spot;
use py_lexer::Kind;

/// What a level of nesting is of.
#[derive(Clone, Copy, Debug, PartialEq, Eq)]
pub enum Bracket {
    /// No bracket: a statement.
    Outside,
    /// No bracket: the header of a function, a class or a loop, an import or a decorator.
    Heading,
    /// The bracket of a header: parameters, a base, imported names, a decorator's arguments, the names of a loop.
    Header,
    /// Parentheses round an expression or a tuple.
    Group,
    /// The arguments of a call.
    Call,
    /// A list display.
    Listing,
    Subscript,
    /// A dictionary or set display.
    Braces,
    /// A formatted string.
    Formatted,
    /// A field of a formatted string.
    Field,
    /// The parameters of a lambda, from the word to its colon.
    Parameters,
    /// The subject of a `match`, between the word and the colon.
    Subject,
}

/// What stands in a bracket so far.
#[derive(Clone, Copy, Debug, PartialEq, Eq)]
pub enum Content {
    /// Nothing, or one expression.
    Single,
    /// An item with one star.
    Starred,
    /// An argument with a keyword or two stars, or a `yield`.
    Barred,
    /// The first pair of a dictionary.
    Pair,
    /// What stands behind a comma.
    Several,
    /// The clauses of a comprehension.
    Clauses,
}

/// What a call of a primary would call.
#[derive(Clone, Copy, Debug, PartialEq, Eq)]
pub enum Callee {
    /// A name or an attribute, perhaps in parentheses.
    Named,
    /// One of these that is called `__init__`.
    Init,
    /// Any other primary.
    Unnamed,
}

/// The primary that stands last: the index of its first token, and what a call of it would call.
#[derive(Clone, Copy, Debug, PartialEq, Eq)]
pub struct Primary {
    pub begin: usize,
    pub callee: Callee,
}

/// A bracket that is open, or what stands outside of all.
#[derive(Clone, Copy, Debug, PartialEq, Eq)]
pub struct Level {
    pub bracket: Bracket,
    /// The index of the token that opens it.
    pub opening: usize,
    pub spot: Spot,
    pub content: Content,
    /// Whether a conditional waits for its `else`.
    pub awaits_else: bool,
    pub primary: Primary,
}

impl Bracket {
    /// Whether no bracket is open round what stands there.
    pub fn is_outermost(self) -> bool
        ensures { result ≡ is_outermost self }
    {
        match self {
            Bracket::Outside | Bracket::Heading => true,
            _ => false,
        }
    }

    /// Whether a statement's own words stand there.
    pub fn is_of_statement(self) -> bool
        ensures { result ≡ is_of_statement self }
    {
        match self {
            Bracket::Header => true,
            _ => self.is_outermost(),
        }
    }

    /// Whether a comprehension or generator expression may stand there (6.2.4 to 6.2.8, 6.3.4).
    pub fn may_hold_clauses(self) -> bool
        ensures { result ≡ may_hold_clauses self }
    {
        match self {
            Bracket::Group | Bracket::Call | Bracket::Listing | Bracket::Braces => true,
            _ => false,
        }
    }

    /// Whether the token closes such a bracket.
    pub fn closed_by(self, kind: Kind) -> bool
        ensures { result ≡ closed_by self kind }
    {
        match self {
            Bracket::Group | Bracket::Call => kind == Kind::RightParen,
            Bracket::Listing | Bracket::Subscript => kind == Kind::RightBracket,
            Bracket::Header => kind == Kind::RightParen || kind == Kind::RightBracket,
            Bracket::Braces => kind == Kind::RightBrace,
            Bracket::Field => kind == Kind::FieldClose,
            _ => false,
        }
    }

    /// Whether such a bracket may close where no operand ends.
    pub fn may_end(self, spot: Spot) -> bool
        ensures { result ≡ may_end self spot }
    {
        match spot {
            Spot::Begin => match self {
                Bracket::Subscript | Bracket::Field => false,
                _ => true,
            },
            Spot::Item | Spot::Slice => true,
            _ => false,
        }
    }
}

impl Content {
    /// Whether the clauses of a comprehension may follow, or more of them.
    pub fn takes_clauses(self) -> bool
        ensures { result ≡ takes_clauses self }
    {
        match self {
            Content::Single | Content::Pair | Content::Clauses => true,
            Content::Starred | Content::Barred | Content::Several => false,
        }
    }

    /// Whether these may be the first item of a set, as far as they go.
    pub fn may_be_set(self) -> bool
        ensures { result ≡ may_be_set self }
    {
        match self {
            Content::Single | Content::Starred => true,
            Content::Barred | Content::Pair | Content::Several | Content::Clauses => false,
        }
    }
}

impl Level {
    /// Whether an expression of this level ends there.
    pub fn is_whole(self) -> bool
        ensures { result ≡ is_whole self }
    {
        self.spot.is_behind() && !self.awaits_else
    }

    /// Whether the `for` of a clause goes on there (6.2.4).
    pub fn begins_clause(self) -> bool
        ensures { result ≡ begins_clause self }
    {
        self.bracket.may_hold_clauses()
            && self.content.takes_clauses()
            && (self.is_whole() || self.spot.is_behind_async())
    }

    /// Whether the `async` of a clause goes on there.
    pub fn begins_async(self) -> bool
        ensures { result ≡ begins_async self }
    {
        self.bracket.may_hold_clauses() && self.content.takes_clauses() && self.is_whole()
    }

    /// Whether the first item of a set ends there (6.2.6).
    pub fn is_set(self) -> bool
        ensures { result ≡ is_set self }
    {
        self.bracket == Bracket::Braces && self.content.may_be_set() && self.is_whole()
    }

    /// Whether the bracket may close there.
    pub fn is_complete(self) -> bool
        ensures { result ≡ is_complete self }
    {
        self.is_whole() || self.bracket.may_end(self.spot)
    }

    /// Whether the subject of a `match` may end there: a starred item alone is none (8.6).
    pub fn ends_subject(self) -> bool
        ensures { result ≡ ends_subject self }
    {
        (self.is_whole() && self.content != Content::Starred) || self.spot.is_item()
    }
}
