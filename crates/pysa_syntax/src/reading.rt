//! The models of a text.

ghost use Rattle.std.specs.Prelude.{◌≡◌, ◌<◌, ◌≤◌, ◌^◌, ◌-◌, min, chars, length, IfOk, IfErr};
ghost use Rattle.pysa_syntax.specs.Faults.{StopsAt, Spells, IsFaultOf, HasModels, IsRefusedBy};

use crate::decl::Decl;
use crate::error::ModelError;
use crate::forms::first_form;
use crate::models::file;
use phrases::Stop;
use py_lexer::{LexError, Token, lex};
use sqlite_items::Items;
use std::alloc::Global;

/// The fault of tokens, where these are left behind the longest part with which a spelled list begins.
fn fault_before(tokens: &[Token], rest: &[Token]) -> ModelError
    requires some { 0 < length tokens.now }
    requires left { length rest.now ≤ length tokens.now }
    requires stops { StopsAt tokens.now (min (length tokens.now - length rest.now) (length tokens.now - 1)) }
    ensures { IsFaultOf tokens.now result }
{
    let last = (tokens.len() - rest.len()).min(tokens.len() - 1);
    match first_form(tokens, last) {
        Some((form, index)) => ModelError::Unsupported(form, tokens[index].at),
        None => ModelError::Syntax(tokens[last].at),
    }
}

/// The models that tokens spell, or their one fault.
fn models_of(alloc: Global, tokens: &[Token]) -> Result<Items<Decl>, ModelError>
    ensures models { IfOk result (Spells tokens.now) }
    ensures fault { IfErr result (IsFaultOf tokens.now) }
{
    match file(alloc, tokens) {
        Ok((decls, rest)) => {
            if rest.is_empty() {
                Ok(decls)
            } else {
                Err(fault_before(tokens, rest))
            }
        }
        Err(Stop::Fault(_, rest)) => Err(fault_before(tokens, rest)),
        Err(Stop::Memory) => Err(ModelError::Memory),
    }
}

/// The models of a `.pysa` file, in their order, or its one fault. The text has fewer than 2^31 bytes.
///
/// The tokens are those of Python's lexical analysis (Language Reference, chapter 2), and the grammar is a profile of that
/// of Pysa's model files (Pysa's documentation, "Overview" and "Models"):
///
/// ```text
/// file:   model*
/// model:  ["@SkipObscure" NEWLINE] "def" qname "(" params ")" ["->" marks] ":" "..." NEWLINE
///       | qname ":" marks "=" "..." NEWLINE
/// params: [param ("," param)* [","]]
/// param:  NAME [":" marks] ["=" "..."] | "*" | "/" | "*" NAME [":" marks] | "**" NAME [":" marks]
/// qname:  NAME ("." NAME)*
/// marks:  one | "Union" "[" one ("," one)+ "]"
/// one:    ("TaintSource" | "TaintSink") "[" NAME ("," NAME)* "]" | "TaintInTaintOut"
/// ```
///
/// * `Lex`: the text has no tokens;
/// * `Syntax`: at the first token with which no model file goes on, or at the last token where more would have to follow;
/// * `Unsupported`: no later than there, at the first token of the first form that isn't supported: `AppliesTo`,
///   `ParameterPath`, `ReturnPath`, `Via`, `Updates`, `Transform` or `PartialSink` before a `[`, the `@` before
///   `SkipAnalysis`, `SkipOverrides` or `Sanitize`, and `ModelQuery` before a `(` where a logical line begins;
/// * `Memory` comes only where there is no memory left.
///
/// Linear in the length of the text. Long names are shared with the tokens.
pub fn read_models(alloc: Global, text: &str) -> Result<Items<Decl>, ModelError>
    requires { length text.now < 2 ^ 31 }
    ensures models { IfOk result (HasModels (chars text.now)) }
    ensures fault { IfErr result (IsRefusedBy (chars text.now)) }
{
    match lex(alloc, text) {
        Ok(tokens) => models_of(alloc, &tokens),
        Err(LexError::Fault { kind, at }) => Err(ModelError::Lex(kind, at)),
        Err(LexError::Memory) => Err(ModelError::Memory),
    }
}
