//! What the phrases of the grammar spell. Nothing here runs: a contract is the law.

ghost use Rattle.std.specs.Prelude.{◌↔◌, ℕ, Bool, List, Option};
ghost use Rattle.py_lexer.specs.declared.token.Token.{Token};
ghost use Rattle.py_ast.specs.declared.tree.Argument.{Argument};
ghost use Rattle.py_ast.specs.declared.tree.Expr.{Expr};
ghost use Rattle.py_ast.specs.declared.tree.NameAt.{NameAt};
ghost use Rattle.py_ast.specs.declared.tree.Step.{Step};
ghost use Rattle.py_ast.specs.declared.statement.Decorator.{Decorator};
ghost use Rattle.py_ast.specs.declared.statement.Dotted.{Dotted};
ghost use Rattle.py_ast.specs.declared.statement.ImportedName.{ImportedName};
ghost use Rattle.py_ast.specs.declared.statement.Parameter.{Parameter};
ghost use Rattle.py_ast.specs.declared.statement.Stmt.{Stmt};
ghost use Rattle.py_ast.specs.Trees.{all_given};
ghost use Rattle.py_ast.specs.Grammar.{arguments, call, dictionary, exprs, expr, list, mapped, parenthesized};
ghost use Rattle.py_ast.specs.Literals.{literal, literal_arguments};
ghost use Rattle.py_ast.specs.Statements.{base, begun, imported_names, line, loop_names, signature, simple, simple_first};
ghost use Rattle.py_ast.specs.Files.{decorator, file_simple, file_simple_first, member_first, member_simple};
ghost use Rattle.py_productions.specs.Expressions.{Expression, Expressions};
ghost use Rattle.py_productions.specs.Assignments.{Begun};
ghost use Rattle.py_productions.specs.Lines.{Line};
ghost use Rattle.py_productions.specs.Names.{ImportedNames, LoopNames};
ghost use Rattle.py_productions.specs.Parameters.{Arguments, Signature};
ghost use Rattle.py_productions.specs.Members.{Base, IsDecorator, Member};
ghost use Rattle.py_productions.specs.Displays.{InParentheses, IsCall, IsDictionary, IsList};
ghost use Rattle.py_productions.specs.Simples.{FileSimple, Simple};

use py_ast::{Argument, Decorator, Dotted, Expr, ImportedName, NameAt, Parameter, Step, Stmt};
use py_lexer::Token;

/// Expressions with commas: `expr ("," expr)* [","]` (Language Reference, 6.15).
pub fn expressions()
    ensures { (room : ℕ) (x : List Token) (e : Expr) → (exprs (expr room)).Spells x e ↔ Expressions (Expression room) x e }
{}

/// What begins with expressions is an assignment, an annotated or augmented one, or an expression (Language Reference, 7.1, 7.2).
pub fn assignments()
    ensures { (room : ℕ) (x : List Token) (s : Stmt) → (begun (expr room)).Spells x s ↔ Begun room x s }
{}

/// Simple statements, by where they stand (Language Reference, chapter 7).
pub fn simple_statements()
    ensures of_blocks { (room : ℕ) (returns loops : Bool) (x : List Token) (s : Stmt) → (simple (expr room) returns loops).Spells x s ↔ Simple room returns loops x s }
    ensures of_files { (room : ℕ) (x : List Token) (s : Stmt) → (file_simple (expr room)).Spells x s ↔ FileSimple room x s }
{}

/// Lines of simple statements, by where they stand: `simple (";" simple)* [";"] NEWLINE` (Language Reference, chapter 7).
pub fn lines()
    ensures of_blocks { (room : ℕ) (returns loops : Bool) (x : List Token) (line_is : List Stmt) → (line (simple_first returns loops) (simple (expr room) returns loops)).Spells x line_is ↔ Line (Simple room returns loops) x line_is }
    ensures of_classes { (room : ℕ) (x : List Token) (line_is : List Stmt) → (line member_first (member_simple (expr room))).Spells x line_is ↔ Line (Member room) x line_is }
    ensures of_files { (room : ℕ) (x : List Token) (line_is : List Stmt) → (line file_simple_first (file_simple (expr room))).Spells x line_is ↔ Line (FileSimple room) x line_is }
{}

/// Names that are imported from a module: `as ("," as)*`, or in parentheses `as ("," as)* [","]` (Language Reference, 7.11).
pub fn imports()
    ensures { (x : List Token) (imported : List ImportedName) → imported_names.Spells x imported ↔ ImportedNames x imported }
{}

/// Names that a loop binds: `NAME | names | "(" names ")"` (Language Reference, 8.3).
pub fn loops()
    ensures { (x : List Token) (bound : List NameAt) → loop_names.Spells x bound ↔ LoopNames x bound }
{}

/// A function's parameters and result: `"(" [param ("," param)* [","]] ")" ["->" expr]`, where parameters with a default stand
/// behind those without (Language Reference, 8.7).
pub fn signatures()
    ensures { (room : ℕ) (x : List Token) (parts : List Parameter × Option Expr) → (signature (expr room)).Spells x parts ↔ Signature (Expression room) x parts }
{}

/// The arguments of a call: `argument ("," argument)* [","]`, those with a keyword behind those without (Language Reference, 6.3.4).
pub fn argument_lists()
    ensures of_calls { (room : ℕ) (x : List Token) (given : List Argument) → (mapped (arguments (expr room)) all_given).Spells x given ↔ Arguments (Expression room) x given }
    ensures of_decorators { (room : ℕ) (x : List Token) (given : List Argument) → (mapped (literal_arguments (literal room)) all_given).Spells x given ↔ Arguments (literal room).Spells x given }
{}

/// Simple statements of classes: `NAME "=" exprs | NAME ":" expr ["=" exprs] | "pass" | "..." | string+` (Language Reference, 8.8).
pub fn members()
    ensures { (room : ℕ) (x : List Token) (s : Stmt) → (member_simple (expr room)).Spells x s ↔ Member room x s }
{}

/// Decorators: `"@" dotted ["(" literal arguments ")"] NEWLINE`, but for three names alone that are left out (Language
/// Reference, 8.7).
pub fn decorators()
    ensures { (room : ℕ) (x : List Token) (d : Decorator) → (decorator (literal room)).Spells x d ↔ IsDecorator (literal room).Spells x d }
{}

/// The base of a class: `["(" [dotted] ")"]` (Language Reference, 8.8).
pub fn bases()
    ensures { (x : List Token) (b : Option Dotted) → base.Spells x b ↔ Base x b }
{}

/// Displays of lists and of dictionaries, `"[" [expr ("," expr)* [","]] "]"` and the same in braces of pairs, and parentheses round
/// one expression or a tuple (Language Reference, 6.2.3 to 6.2.7).
pub fn displays()
    ensures of_lists { (room inner : ℕ) (x : List Token) (e : Expr) → (list room (expr inner)).Spells x e ↔ IsList room (Expression inner) x e }
    ensures of_dictionaries { (room inner : ℕ) (x : List Token) (e : Expr) → (dictionary room (expr inner)).Spells x e ↔ IsDictionary room (Expression inner) x e }
    ensures of_parentheses { (room inner : ℕ) (x : List Token) (e : Expr) → (parenthesized room (expr inner)).Spells x e ↔ InParentheses room (Expression inner) x e }
{}

/// Calls of a primary: `"(" [argument ("," argument)* [","]] ")"` (Language Reference, 6.3.4).
pub fn calls()
    ensures { (room inner : ℕ) (x : List Token) (s : Step) → (call room (expr inner)).Spells x s ↔ IsCall room (Expression inner) x s }
{}
