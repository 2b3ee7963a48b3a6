//! Laws of tokens.

ghost use Rattle.std.specs.Prelude.{List, ℕ};
ghost use Rattle.py_lexer.specs.declared.token.Token.{Token};
ghost use Rattle.py_lexer.specs.Runs.{first_place, HasTokens};
ghost use Rattle.py_lexer.specs.Source.{source_chars};
ghost use Rattle.py_lexer.specs.Laws.{HasOneAnswer};
ghost use Rattle.py_lexer.specs.Layout.{IsInOrder, IsLaidOut, IsMatchedLongest};

/// Each text has one list of tokens, or else one fault.
pub fn one_answer()
    ensures { (text : List ℕ) → HasOneAnswer text }
{}

/// A text's tokens stand in it in order of place, each where its characters do, and spelled by them; between them stand
/// white space, comments, joined lines and line ends alone (Language Reference, 2.1).
pub fn layout()
    ensures in_order { (text : List ℕ) (tokens : List Token) → HasTokens text tokens → IsInOrder first_place tokens }
    ensures laid_out { (text : List ℕ) (tokens : List Token) → HasTokens text tokens → IsLaidOut first_place (source_chars text) tokens }
{}

/// So they do, and each word, number, string and operator is the longest possible: no longer front of the text at its place
/// is a legal token (Language Reference, 2.1). Of the layout of lines and the parts of formatted strings only `layout` speaks.
pub fn longest()
    ensures { (text : List ℕ) (tokens : List Token) → HasTokens text tokens → IsMatchedLongest first_place (source_chars text) tokens }
{}
