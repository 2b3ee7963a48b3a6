//! A Python text with its module, or the one fault of the text.

ghost use Rattle.std.specs.Prelude.{◌≡◌, ◌<◌, ◌^◌, IfOk, IfErr, chars, length};
ghost use Rattle.py_lexer.specs.Runs.{IsRefusedBy};
ghost use Rattle.py_ast.specs.Parsed.{IsSpelled};
ghost use Rattle.py_ast.specs.ScopeFaults.{HasNoScopeFault};
ghost use Rattle.py_scopes.specs.Scopes.{IsFaultOf};
ghost use Rattle.py_parser.specs.Refusals.{IsRefused, IsUnspelled};

use crate::reading::{GrammarError, module_of_tokens};
use py_ast::{Module, Parsed};
use py_lexer::{Form, LexError, LexKind, Scratch, Token, Value, lex_with};
use py_literals::place::Pos;
use py_scopes::{ScopeError, scope_fault};
use rv_names::{Name, Text};
use std::alloc::Global;

/// Why a text has no module that is kept, and where; places are lines and columns in characters, from 1 on.
#[derive(Drop)]
pub enum FileError {
    /// The text's lexical fault.
    Lex(LexKind, Pos),
    /// The token with which no module goes on, or the last one where the tokens end too early.
    Syntax(Pos),
    /// A form of Python that isn't supported, at its first token, or a variable that is called, at its name.
    Unsupported(Form, Pos),
    /// The token that opens nesting 101 of an expression, or block 101.
    TooDeep(Pos),
    /// A name that is bound again where that isn't supported, at the later place.
    Twice(Name, Pos),
    /// There is no memory left for the answer.
    Memory,
}

/// The answer for a text without tokens.
fn from_lexer(error: LexError) -> FileError
    ensures { (text : _) → IsRefusedBy (chars text) error → IsRefused text result }
{
    match error {
        LexError::Fault { kind, at } => FileError::Lex(kind, at),
        LexError::Memory => FileError::Memory,
    }
}

/// The answer for tokens that spell no module.
fn from_grammar(error: GrammarError) -> FileError
    ensures { (text : _) → IsUnspelled text error → IsRefused text result }
{
    match error {
        GrammarError::Syntax(at) => FileError::Syntax(at),
        GrammarError::Unsupported(form, at) => FileError::Unsupported(form, at),
        GrammarError::TooDeep(at) => FileError::TooDeep(at),
        GrammarError::Memory => FileError::Memory,
    }
}

/// The answer for a module whose scopes have a fault.
fn from_scopes(error: ScopeError) -> FileError
    ensures { (text : _) (tree : _) → IsSpelled text tree → IsFaultOf tree error → IsRefused text result }
{
    match error {
        ScopeError::Twice(name, at) => FileError::Twice(name, at),
        ScopeError::Unsupported(form, at) => FileError::Unsupported(form, at),
        ScopeError::Memory => FileError::Memory,
    }
}

/// Drops the token, of which nothing is done but where its value holds a name or a text.
#[inline(always)]
fn drop_token(token: Token) {
    let Token {
        kind: _,
        value,
        at: _,
    } = token;
    match value {
        Value::Name(name) => drop(name),
        Value::Text(text) => drop(text),
        Value::Nothing | Value::Whole(_) => {}
    }
}

/// The room of the tokens, which are dropped.
fn emptied(tokens: Vec<Token>) -> Vec<Token> {
    let mut rest = tokens;
    while let Some(token) = rest.pop() {
        drop_token(token);
    }
    rest
}

/// The module that a text spells.
fn module_of(alloc: Global, scratch: &mut Scratch, text: &str) -> Result<Module, FileError>
    requires { length text.now < 2 ^ 31 }
    ensures spelled { IfOk result (IsSpelled text.now) }
    ensures refused { IfErr result (IsRefused text.now) }
{
    let tokens = match lex_with(alloc, scratch, text) {
        Ok(tokens) => tokens,
        Err(error) => return Err(from_lexer(error)),
    };
    let answer = module_of_tokens(alloc, tokens.as_slice());
    scratch.keep(emptied(tokens));
    match answer {
        Ok(module) => Ok(module),
        Err(error) => Err(from_grammar(error)),
    }
}

/// The text with its module (Language Reference, chapters 2 to 9, cut to the subset), or its one fault.
///
/// The first lexical fault is told before all others, the fault of the grammar before those of scopes, and of these the one of
/// least place. `Memory` comes only where there is no memory left. Linear in the text, but for the hashes of its names.
pub fn parse(alloc: Global, text: &str) -> Result<Parsed, FileError>
    requires { length text.now < 2 ^ 31 }
    ensures text { IfOk result (λ p. p.text ≡ text.now) }
    ensures spelled { IfOk result (λ p. IsSpelled text.now p.tree) }
    ensures scopes { IfOk result (λ p. HasNoScopeFault p.tree) }
    ensures refused { IfErr result (IsRefused text.now) }
{
    let mut scratch = Scratch::new(alloc);
    parse_with(alloc, &mut scratch, text)
}

/// What `parse` answers, read in the room that the scratch keeps from one text to the next.
pub fn parse_with(alloc: Global, scratch: &mut Scratch, text: &str) -> Result<Parsed, FileError>
    requires { length text.now < 2 ^ 31 }
    ensures text { IfOk result (λ p. p.text ≡ text.now) }
    ensures spelled { IfOk result (λ p. IsSpelled text.now p.tree) }
    ensures scopes { IfOk result (λ p. HasNoScopeFault p.tree) }
    ensures refused { IfErr result (IsRefused text.now) }
{
    let tree = module_of(alloc, scratch, text)?;
    if let Err(error) = scope_fault(alloc, &tree) {
        return Err(from_scopes(error));
    }
    match Text::read(alloc, text) {
        Ok(kept) => Ok(Parsed::new(kept, tree)),
        Err(_) => Err(FileError::Memory),
    }
}
