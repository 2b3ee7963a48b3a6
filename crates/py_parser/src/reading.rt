//! The module of a file's tokens, or the fault of the grammar.

ghost use Rattle.std.specs.Prelude.{◌≡◌, List, [], ◌∷◌};
ghost use Rattle.phrases.specs.Verdict.{TooDeepAt};
ghost use Rattle.py_ast.specs.Files.{file};
ghost use Rattle.py_expr.specs.Judged.{deepest};
ghost use Rattle.py_parser.specs.Faults.{SyntaxStop, EndsWith, StopPlace, ReadsTo, Refused, Judged};

use crate::files::statements_of;
use later_forms::{told_before, told_on_line};
use phrases::{Fault, Stop};
use py_ast::Module;
use py_lexer::{Form, Token};
use py_literals::place::Pos;
use rv_names::Memory;
use sqlite_items::Items;
use std::alloc::Global;

/// Why tokens are no module, and where.
#[derive(Clone, Copy, Debug, PartialEq, Eq)]
pub enum GrammarError {
    /// The token with which no module goes on, or the last one where the tokens end too early.
    Syntax(Pos),
    /// A form of Python that isn't supported, at its first token.
    Unsupported(Form, Pos),
    /// The token that opens nesting 101 of an expression, or block 101.
    TooDeep(Pos),
    /// There is no memory left for the tree.
    Memory,
}

/// The module, or where reading stops.
#[tactic(auto, using(crate::proofs::Verdicts::stops_inside, crate::proofs::Verdicts::too_deep))]
fn read_module(alloc: Global, tokens: &[Token]) -> Result<Module, Stop<'_, Token>>
    ensures { ReadsTo tokens.now result }
{
    let (body, rest) = match statements_of(alloc, tokens) {
        Ok(read) => read,
        Err(stop) => return Err(stop),
    };
    match rest {
        [] => Ok(Module { body }),
        [_, ..] => Err(Stop::Fault(Fault::Syntax, rest)),
    }
}

/// The place of the first token of `rest`, or `end` where none is left.
fn stop_place(rest: &[Token], end: Pos) -> Pos
    ensures { (tokens : List _) → EndsWith tokens end → StopPlace tokens rest.now result }
{
    match rest {
        [first, ..] => first.at,
        [] => end,
    }
}

/// The fault where reading stops before `rest`: the form that is told there or further on the line, if one is.
fn refused(alloc: Global, tokens: &[Token], rest: &[Token], end: Pos) -> GrammarError
    requires stops { SyntaxStop tokens.now rest.now }
    requires ends { EndsWith tokens.now end }
    ensures { Refused tokens.now result }
{
    let count = tokens.len() - rest.len();
    match told_on_line(alloc, tokens, count) {
        Err(Memory) => GrammarError::Memory,
        Ok(None) => GrammarError::Syntax(stop_place(rest, end)),
        Ok(Some(found)) => GrammarError::Unsupported(found.form, tokens[found.place].at),
    }
}

/// The fault where the first token of `rest` opens a nesting too many: that, or a form that begins before it.
fn too_deep(alloc: Global, tokens: &[Token], rest: &[Token], end: Pos) -> GrammarError
    requires deep { TooDeepAt file deepest tokens.now rest.now }
    requires ends { EndsWith tokens.now end }
    ensures { Refused tokens.now result }
{
    let count = tokens.len() - rest.len();
    match told_before(alloc, tokens, count) {
        Err(Memory) => GrammarError::Memory,
        Ok(None) => GrammarError::TooDeep(stop_place(rest, end)),
        Ok(Some(found)) => GrammarError::Unsupported(found.form, tokens[found.place].at),
    }
}

/// The module that the tokens spell, with 100 nestings at most in an expression and 100 blocks, one in another.
///
/// Linear in the tokens. Errors: where reading stops, which is before the last token of the shortest part from the front with
/// which no module begins, or at the end where each part begins one and the whole is none, `Unsupported` at the first token of
/// the form that is told there, or of one that begins before and is told further on the logical line, whichever begins first; else
/// `Syntax` at that last token (Language Reference, chapter 10, cut to the subset). Where a token opens one nesting or block too
/// many, `Unsupported` at the first token of a form that begins before it and is told behind it on the line, else `TooDeep` at it.
pub fn module_of_tokens(alloc: Global, tokens: &[Token]) -> Result<Module, GrammarError>
    ensures { Judged tokens.now result }
{
    let end = match tokens.split_last() {
        None => {
            return Ok(Module {
                body: Items::new(alloc),
            });
        }
        Some((last, _)) => last.at,
    };
    match read_module(alloc, tokens) {
        Ok(module) => Ok(module),
        Err(Stop::Memory) => Err(GrammarError::Memory),
        Err(Stop::Fault(Fault::Syntax, rest)) => Err(refused(alloc, tokens, rest, end)),
        Err(Stop::Fault(Fault::TooDeep, rest)) => Err(too_deep(alloc, tokens, rest, end)),
    }
}
