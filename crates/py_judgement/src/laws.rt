//! What holds of the answers. Nothing here runs: a contract is the law.

ghost use Rattle.std.specs.Prelude.{◌≡◌, List, Result};
ghost use Rattle.rv_names.specs.Keys.{Bytes};
ghost use Rattle.py_lexer.specs.declared.token.Token.{Token};
ghost use Rattle.py_ast.specs.declared.statement.Module.{Module};
ghost use Rattle.py_parser.specs.declared.reading.GrammarError.{GrammarError};
ghost use Rattle.py_judgement.specs.Answers.{Answers, HasOneReading};

use py_ast::Module;
use py_lexer::Token;
use py_parser::GrammarError;

/// Of a file's tokens one answer is right, as long as memory doesn't run out: the module that they spell, or one fault of the
/// grammar at one place.
pub fn one_answer()
    ensures { (ts : List Token) (r s : Result Module GrammarError) → Answers ts r → Answers ts s → r ≡ s }
{}

/// A text has one module, or one fault at one place, and never both, as long as memory doesn't run out.
pub fn one_reading()
    ensures { (text : Bytes) → HasOneReading text }
{}
