//! Whole files (Language Reference, 9.2).

ghost use Rattle.std.specs.Prelude.{◌≡◌, ◌<◌, ◌≤◌, ◌∷◌, [], ℕ, List, IfOk, length};
ghost use Rattle.phrases.specs.Sets.{has};
ghost use Rattle.phrases.specs.Reading.{Read};
ghost use Rattle.phrases.specs.Loops.{Gives, with_front};
ghost use Rattle.py_ast.specs.Kinds.{class};
ghost use Rattle.py_ast.specs.Grammar.{expr};
ghost use Rattle.py_ast.specs.Literals.{literal};
ghost use Rattle.py_ast.specs.Files.{suites, file_statement, file_item, file_first, file};
ghost use Rattle.py_parser.specs.Lists.{with_all};
ghost use Rattle.py_parser.specs.Suites.{ReadsSuites};

use crate::blocks::compound_into;
use crate::definitions::definition_into;
use crate::lines::{Simples, line_into};
use crate::lists::many_into;
use crate::suites::suite_of;
use py_ast::{Stmt, Suite};
use py_expr::class::{NEWLINE, class_of};
use py_expr::reading::DEEPEST;
use py_expr::token::{Taken, mark, stands};
use py_lexer::Token;
use py_simple::words::{
    begins_compound, begins_definition, begins_file_simple, stands_compound, stands_definition,
};
use sqlite_items::Items;
use std::alloc::Global;

/// The statements, and then one of a file, or a line of simple ones.
#[tactic(auto, unfolding(py_ast::specs::Files::file_statement, crate::specs::Lines::simples))]
fn statement_into<'a, S>(
    alloc: Global,
    tokens: &'a [Token],
    suite: S,
    before: Vec<Stmt>,
) -> Taken<'a, Vec<Stmt>>
where
    S: Fn(Suite, &[Token]) -> Taken<'_, Items<Stmt>>,
    requires callable { S.IsAlwaysCallable suite }
    requires reads { ReadsSuites (λ s ts r. S.post suite s ts r) 100 }
    ensures read { Gives (λ x. Read x.0.items x.1.now) result (with_front before.items ((file_statement (expr 100) (literal 100) 100 (suites 100 100)).read tokens.now)) }
    ensures shorter { IfOk result (λ x. length x.1.now < length tokens.now) }
{
    if stands_definition(tokens) {
        definition_into(alloc, tokens, DEEPEST, &suite, before)
    } else if stands_compound(tokens) {
        compound_into(alloc, tokens, DEEPEST, false, false, &suite, before)
    } else {
        line_into(alloc, tokens, Simples::OfFile, before)
    }
}

/// The statements, and then an empty line or more of them.
#[tactic(auto, using(phrases::proofs::Sets::append_none), unfolding(py_ast::specs::Files::file_item))]
fn item_into(alloc: Global, tokens: &[Token], before: Vec<Stmt>) -> Taken<'_, Vec<Stmt>>
    ensures read { Gives (λ x. Read x.0.items x.1.now) result (with_front before.items ((file_item (expr 100) (literal 100) 100 (suites 100 100)).read tokens.now)) }
    ensures shorter { IfOk result (λ x. length x.1.now < length tokens.now) }
{
    if stands(tokens, NEWLINE) {
        let (_, rest) = mark(tokens, NEWLINE)?;
        return Ok((before, rest));
    }
    statement_into(
        alloc,
        tokens,
        |kind: Suite, rest: &[Token]|
            ensures read { Gives (λ x. Read x.0 x.1.now) result ((suites 100 100 kind).read rest.now) }
            ensures shorter { IfOk result (λ x. length x.1.now < length rest.now) }
        { suite_of(alloc, rest, DEEPEST, kind) },
        before,
    )
}

/// Whether the class begins a line of a file.
fn begins_item(class: u8) -> bool
    ensures { result ≡ has file_first class }
{
    class == NEWLINE
        || begins_definition(class)
        || begins_compound(class)
        || begins_file_simple(class)
}

/// The statements, and then those of a file, line by line, up to a token that begins none.
#[tactic(auto, unfolding(py_ast::specs::Files::file))]
fn lines_into(alloc: Global, tokens: &[Token], before: Vec<Stmt>) -> Taken<'_, Vec<Stmt>>
    ensures read { Gives (λ x. Read x.0.items x.1.now) result (with_all before.items ((file 100).read tokens.now)) }
    ensures no_longer { IfOk result (λ x. length x.1.now ≤ length tokens.now) }
{
    many_into(
        tokens,
        before,
        |token: &Token|
            ensures { result ≡ has file_first (class token.now) }
        { begins_item(class_of(token)) },
        |rest: &[Token], all: Vec<Stmt>|
            ensures read { Gives (λ x. Read x.0.items x.1.now) result (with_front all.items ((file_item (expr 100) (literal 100) 100 (suites 100 100)).read rest.now)) }
            ensures shorter { IfOk result (λ x. length x.1.now < length rest.now) }
        { item_into(alloc, rest, all) },
    )
}

/// The statements of a file, line by line, up to a token that begins none. Linear in the tokens.
pub fn statements_of(alloc: Global, tokens: &[Token]) -> Taken<'_, Items<Stmt>>
    ensures read { Gives (λ x. Read x.0 x.1.now) result (with_all [] ((file 100).read tokens.now)) }
    ensures no_longer { IfOk result (λ x. length x.1.now ≤ length tokens.now) }
{
    let (all, rest) = lines_into(alloc, tokens, Vec::new(alloc))?;
    Ok((Items::from_vec(all), rest))
}
