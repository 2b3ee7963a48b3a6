//! What holds of the grammar. Nothing here runs: a contract is the law.

ghost use Rattle.std.specs.Prelude.{◌≡◌, List};
ghost use Rattle.phrases.specs.Verdict.{Spelled};
ghost use Rattle.py_lexer.specs.declared.token.Token.{Token};
ghost use Rattle.py_ast.specs.declared.tree.Expr.{Expr};
ghost use Rattle.py_ast.specs.declared.statement.Module.{Module};
ghost use Rattle.py_ast.specs.Grammar.{expr};
ghost use Rattle.py_ast.specs.Files.{SpellsModule};

use crate::statement::Module;
use crate::tree::Expr;
use py_lexer::Token;

/// No tokens spell two expressions.
pub fn one_expression()
    ensures { (x : List Token) (a b : Expr) → Spelled expr x a → Spelled expr x b → a ≡ b }
{}

/// No tokens spell two modules.
pub fn one_module()
    ensures { (x : List Token) (a b : Module) → SpellsModule x a → SpellsModule x b → a ≡ b }
{}
