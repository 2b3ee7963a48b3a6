//! The parts of a run: its last line, the statement in it, and the expression in that.

ghost use Rattle.std.specs.Prelude.{◌≡◌, ◌+◌, ◌^◌, ◌<◌, ◌≤◌, length, Option, Some, None, MatchOption};
ghost use Rattle.py_forms.specs.Parts.{nested, is_augmented, parts, behind_first, behind_last, last_part, line, begins_header, behind_header, statement};

use py_lexer::{Kind, Token};

/// What parts a run, outside of brackets.
#[derive(Clone, Copy, Debug, PartialEq, Eq)]
pub enum Parting {
    /// The end of a line, or where a block begins or ends.
    Lines,
    /// `;`.
    Simples,
    /// The `:` of a header.
    Header,
    /// The `in` of a loop.
    Loop,
    /// `,`.
    Expressions,
    /// `,`, and what parts the sides of an assignment.
    Sides,
    /// `=`.
    Targets,
    /// The `:` of an annotation, or an operator with `=`.
    Others,
    /// The end of a function's parameters.
    Parameters,
    /// What parts the parameters of a function and their parts.
    Signature,
}

/// How many brackets are open behind a token, with so many before it.
#[tactic(auto, unfolding(crate::specs::Parts::nested))]
fn nested(depth: usize, kind: Kind) -> usize
    requires { depth < 2 ^ 63 }
    ensures value { result ≡ nested depth kind }
    ensures few { result ≤ depth + 1 }
{
    match kind {
        Kind::LeftParen
        | Kind::LeftBracket
        | Kind::LeftBrace
        | Kind::FieldOpen
        | Kind::FStringStart => depth + 1,
        Kind::RightParen
        | Kind::RightBracket
        | Kind::RightBrace
        | Kind::FieldClose
        | Kind::FStringEnd => depth.saturating_sub(1),
        _ => depth,
    }
}

/// Whether the token is an operator with `=`.
#[tactic(auto, unfolding(crate::specs::Parts::is_augmented))]
pub fn is_augmented(kind: Kind) -> bool
    ensures { result ≡ is_augmented kind }
{
    match kind {
        Kind::PlusEqual
        | Kind::MinusEqual
        | Kind::StarEqual
        | Kind::SlashEqual
        | Kind::DoubleSlashEqual
        | Kind::PercentEqual
        | Kind::AtEqual
        | Kind::AmpersandEqual
        | Kind::BarEqual
        | Kind::CaretEqual
        | Kind::RightShiftEqual
        | Kind::LeftShiftEqual
        | Kind::DoubleStarEqual => true,
        _ => false,
    }
}

/// Whether the token parts a run in this way.
#[tactic(auto, unfolding(crate::specs::Parts::parts))]
fn parts(parting: Parting, kind: Kind) -> bool
    ensures { result ≡ parts parting kind }
{
    match parting {
        Parting::Lines => match kind {
            Kind::Newline | Kind::Indent | Kind::Dedent => true,
            _ => false,
        },
        Parting::Simples => kind == Kind::Semicolon,
        Parting::Header => kind == Kind::Colon,
        Parting::Loop => kind == Kind::In,
        Parting::Expressions => kind == Kind::Comma,
        Parting::Sides => match kind {
            Kind::Comma | Kind::Equal | Kind::Colon => true,
            _ => is_augmented(kind),
        },
        Parting::Targets => kind == Kind::Equal,
        Parting::Others => kind == Kind::Colon || is_augmented(kind),
        Parting::Parameters => kind == Kind::RightParen,
        Parting::Signature => match kind {
            Kind::Comma | Kind::Equal | Kind::Colon | Kind::Arrow => true,
            _ => false,
        },
    }
}

/// What stands behind the first token that parts, outside of brackets.
#[tactic(auto, unfolding(crate::specs::Parts::behind_first))]
pub fn behind_first(parting: Parting, tokens: &[Token]) -> Option<&[Token]>
    ensures { MatchOption result (behind_first parting 0 tokens.now ≡ None) (λ s. behind_first parting 0 tokens.now ≡ Some s.now) }
{
    let mut rest = tokens;
    let mut depth = 0usize;
    'onward: while let Some((first, after)) = rest.split_first() {
        if depth == 0 && parts(parting, first.kind) {
            return Some(after);
        }
        depth = nested(depth, first.kind);
        rest = after;
    }
    None
}

/// What stands behind the last token that parts, outside of brackets, or all where there is none.
#[tactic(auto, unfolding(crate::specs::Parts::behind_last))]
pub fn last_part(parting: Parting, tokens: &[Token]) -> &[Token]
    ensures { result.now ≡ last_part parting tokens.now }
{
    let mut rest = tokens;
    let mut part = tokens;
    let mut depth = 0usize;
    'onward: while let Some((first, after)) = rest.split_first() {
        if depth == 0 && parts(parting, first.kind) {
            part = after;
        } else {
            depth = nested(depth, first.kind);
        }
        rest = after;
    }
    part
}

/// The logical line that a run ends in.
pub fn line(run: &[Token]) -> &[Token]
    ensures { result.now ≡ line run.now }
{
    last_part(Parting::Lines, run)
}

/// Whether the word begins a statement with a block.
#[tactic(auto, unfolding(crate::specs::Parts::begins_header))]
fn begins_header(kind: Kind) -> bool
    ensures { result ≡ begins_header kind }
{
    match kind {
        Kind::If | Kind::Elif | Kind::Else | Kind::While | Kind::For | Kind::Def | Kind::Class =>
            true,
        _ => false,
    }
}

/// What stands behind the `:` of a line's header, if the line has one.
pub fn behind_header(line: &[Token]) -> Option<&[Token]>
    ensures { MatchOption result (behind_header line.now ≡ None) (λ s. behind_header line.now ≡ Some s.now) }
{
    match line {
        [] => None,
        [first, rest @ ..] => {
            if begins_header(first.kind) {
                behind_first(Parting::Header, rest)
            } else {
                None
            }
        }
    }
}

/// The statement that a run ends in: empty where none has begun. Linear in the run.
#[tactic(auto, unfolding(crate::specs::Parts::statement))]
pub fn statement(run: &[Token]) -> &[Token]
    ensures { result.now ≡ statement run.now }
{
    let line = line(run);
    match behind_header(line) {
        Some(block) => last_part(Parting::Simples, block),
        None => last_part(Parting::Simples, line),
    }
}
