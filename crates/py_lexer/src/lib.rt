//! The tokens of a Python text (Language Reference, chapter 2), or its one lexical fault.
//!
//! * `lexing`: `lex`, the tokens of a text, and `lex_with`, which reads many;
//! * `scratch`: a `Scratch`, what is kept from one text to the next;
//! * `laws`: what holds of each text: it has one answer, and its tokens lie in it in order, each the longest possible;
//! * `token`: a `Token`, its `Kind` and its `Value`, and the `LexKind`s of faults;
//! * `form`: a `Form`, the name of a form that isn't supported;
//! * `source`: a text as it is read: its byte order mark and its line ends;
//! * `state`, `stack`: what is open at a place of a text: brackets, blocks, a formatted string;
//! * `piece`: what stands at the front of a text;
//! * `margin`: blank lines and indentation;
//! * `inside`: what stands inside a logical line, by its first character;
//! * `words`, `keywords`, `operators`, `strings`, `fstring`: that, by class;
//! * `quick`: most tokens, which are pushed at once, and `gap`: most of what stands between them, which is passed at once;
//! * `spellings`: what words and texts are spelled as;
//! * `chars`: the classes of characters.
#![tactic(auto)]

mod chars;
mod form;
mod fstring;
mod gap;
mod inside;
mod keywords;
mod laws;
mod lexing;
mod margin;
mod operators;
mod piece;
mod quick;
mod scratch;
mod source;
mod spellings;
mod stack;
mod state;
mod strings;
mod token;
mod words;

pub use form::Form;
pub use laws::{layout, longest, one_answer};
pub use lexing::{lex, lex_with};
pub use scratch::Scratch;
pub use token::{Kind, LexError, LexKind, Token, Value};
