//! What holds of the answers. Nothing here runs: a contract is the law.

ghost use Rattle.std.specs.Prelude.{◌≡◌, ℕ, List, Result};
ghost use Rattle.py_lexer.specs.declared.token.Token.{Token};
ghost use Rattle.py_ast.specs.declared.tree.Expr.{Expr};
ghost use Rattle.py_expr.specs.declared.error.SyntaxError.{SyntaxError};
ghost use Rattle.py_expr.specs.Judged.{Answers};

use crate::error::SyntaxError;
use py_ast::Expr;
use py_lexer::Token;

/// Of the tokens from an index on one answer is right, as long as memory doesn't run out.
pub fn one_answer()
    ensures { (at : ℕ) (ts : List Token) (r s : Result (Expr × ℕ) SyntaxError) → Answers at ts r → Answers at ts s → r ≡ s }
{}
