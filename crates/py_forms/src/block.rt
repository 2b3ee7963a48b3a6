//! The block that the statement at the end of a run stands in.

ghost use Rattle.std.specs.Prelude.{◌≡◌, ◌+◌, ◌^◌, ◌<◌, ◌≤◌, [], ◌∷◌, length, Option, Some, None, MatchOption, IfSome};
ghost use Rattle.py_forms.specs.Parts.{parts, kinds_back, first_word, opened_by, owner, block_by, first_kind, block, line};
ghost use Rattle.py_forms.specs.declared.part.Parting.TheVariants as partings;

use crate::part::{behind_header, line};
use py_lexer::{Kind, Token};

/// What a block is of.
#[derive(Clone, Copy, Debug, PartialEq, Eq)]
pub enum Block {
    /// None: the statements of a file.
    File,
    Class,
    /// A function, or a statement with a block.
    Other,
}

/// The kind of the last token of a run, and what stands before it.
#[tactic(auto, using(crate::proofs::Endings::kinds_back_none, crate::proofs::Endings::kinds_back_split))]
pub fn last_kind_of(run: &[Token]) -> Option<(Kind, &[Token])>
    ensures kinds { MatchOption result (kinds_back run.now ≡ []) (λ p. kinds_back run.now ≡ p.0 ∷ kinds_back p.1.now) }
    ensures shorter { IfSome result (λ p. length p.1.now + 1 ≡ length run.now) }
{
    match run.split_last() {
        None => None,
        Some((last, before)) => Some((last.kind, before)),
    }
}

#[tactic(auto, unfolding(crate::specs::Parts::parts))]
fn parts_lines(kind: Kind) -> bool
    ensures { result ≡ parts partings.Lines kind }
{
    match kind {
        Kind::Newline | Kind::Indent | Kind::Dedent => true,
        _ => false,
    }
}

/// The first word of the line that ends here, before a token of this kind.
#[tactic(auto, unfolding(crate::specs::Parts::first_word))]
pub fn first_word(behind: Kind, run: &[Token]) -> Kind
    ensures { result ≡ first_word behind (kinds_back run.now) }
{
    let mut word = behind;
    let mut rest = run;
    'back: while let Some((kind, before)) = last_kind_of(rest) {
        if parts_lines(kind) {
            return word;
        }
        word = kind;
        rest = before;
    }
    word
}

/// The first word of the statement whose indented block ends with this INDENT.
fn owner_before(run: &[Token]) -> Option<Kind>
    ensures { result ≡ opened_by (kinds_back run.now) }
{
    match last_kind_of(run) {
        Some((Kind::Newline, before)) => Some(first_word(Kind::Newline, before)),
        _ => None,
    }
}

/// The first word of the statement whose indented block is open at the end of a run. Linear in the run.
#[tactic(auto, unfolding(crate::specs::Parts::owner))]
pub fn owner(run: &[Token]) -> Option<Kind>
    ensures { result ≡ owner 0 (kinds_back run.now) }
{
    let mut closed = 0usize;
    let mut rest = run;
    'back: while let Some((kind, before)) = last_kind_of(rest) {
        if kind == Kind::Dedent {
            closed += 1;
        } else if kind == Kind::Indent {
            if closed == 0 {
                return owner_before(before);
            }
            closed -= 1;
        }
        rest = before;
    }
    None
}

fn block_by(owner: Option<Kind>) -> Block
    ensures { result ≡ block_by owner }
{
    match owner {
        None => Block::File,
        Some(Kind::Class) => Block::Class,
        Some(_) => Block::Other,
    }
}

/// The kind of the first token.
pub fn first_kind(tokens: &[Token]) -> Option<Kind>
    ensures { result ≡ first_kind tokens.now }
{
    match tokens {
        [first, ..] => Some(first.kind),
        [] => None,
    }
}

/// The block in which the statement at the end of a run stands. Linear in the run.
#[tactic(auto, unfolding(crate::specs::Parts::block))]
pub fn block_round(run: &[Token]) -> Block
    ensures { result ≡ block run.now }
{
    let line = line(run);
    match behind_header(line) {
        Some(_) => block_by(first_kind(line)),
        None => block_by(owner(run)),
    }
}
