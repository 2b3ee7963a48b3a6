//! How many callables a module has.

ghost use Rattle.std.specs.Prelude.{◌≡◌};
ghost use Rattle.project.specs.Callables.{callables, capped, defined, functions, is_function, open_stmt};

use py_ast::{Module, Stmt, StmtForm};

fn is_function(stmt: &Stmt) -> bool
    ensures { result ≡ is_function (open_stmt stmt.now) }
{
    match &stmt.form {
        StmtForm::Function(_) => true,
        _ => false,
    }
}

/// How many of the statements are functions.
fn functions(body: &[Stmt]) -> usize
    ensures { result ≡ functions body.now }
{
    let mut count = 0;
    for stmt in body {
        if is_function(stmt) {
            count += 1;
        }
    }
    count
}

/// How many callables a statement of a module defines.
fn defined(stmt: &Stmt) -> usize
    ensures { result ≡ defined (open_stmt stmt.now) }
{
    match &stmt.form {
        StmtForm::Function(_) => 1,
        StmtForm::Class(class) => functions(class.body.as_slice()),
        _ => 0,
    }
}

/// How many callables a module has: its top level, its functions, and the methods of its classes (Language Reference, 8.7 and
/// 8.8); at most the greatest `u32`. Linear in its top level and its classes' bodies.
pub fn callables_of(tree: &Module) -> u32
    ensures { result ≡ capped (callables tree.now) }
{
    let mut count: u64 = 1;
    for stmt in tree.body.as_slice() {
        count = count.saturating_add(defined(stmt) as u64);
    }
    count.min(u32::MAX as u64) as u32
}
