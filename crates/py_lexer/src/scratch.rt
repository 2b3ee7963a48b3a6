//! What is kept from one text to the next.

use crate::spellings::Spellings;
use crate::state::State;
use crate::token::Token;
use std::alloc::Global;

/// What is kept from one text to the next: room for characters, tokens, open brackets and blocks, one spelling and one value.
/// No answer depends on it.
///
/// It keeps at most four bytes for each byte of the longest text, or eight where a text has characters outside ASCII, the
/// room of the tokens that were handed back last, that of the longest spelling, that of the value of the longest string with
/// escapes, four bytes a character, and that of the most brackets and blocks that were open at once.
#[derive(Debug, Drop)]
pub struct Scratch {
    pub(crate) chars: Vec<char>,
    pub(crate) spellings: Spellings,
    pub(crate) state: State,
    pub(crate) tokens: Vec<Token>,
}

impl Scratch {
    /// Before the first text nothing is kept. It takes no memory.
    pub fn new(alloc: Global) -> Scratch {
        Scratch {
            chars: Vec::new(alloc),
            spellings: Spellings::new(alloc),
            state: State::new(alloc),
            tokens: Vec::new(alloc),
        }
    }

    /// Takes back the tokens of a text that is done with: it drops them, and keeps their room for the next text.
    pub fn keep(&mut self, tokens: Vec<Token>) {
        let mut tokens = tokens;
        tokens.clear();
        self.tokens = tokens;
    }
}
