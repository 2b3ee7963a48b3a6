//! Rows of what the full grammar of the Language Reference allows behind a run, checked by hand against CPython 3.11's `ast.parse`.

use super::*;
use py_lexer::{Form, LexError, lex};
use std::alloc::Global;
use std::process::Abort;

/// A run, what follows it, and what it tells: the form's name and the column of its first token, or nothing.
type Row<'a> = (&'a str, &'a str, &'a str, u32);

/// What the first token of `rest` tells behind `run`, with its column; both stand on one line.
fn told_in(alloc: Global, run: &str, rest: &str) -> Result<Option<(Form, u32)>, LexError> {
    if run.len() > 1000 || rest.len() > 1000 {
        return Err(LexError::Memory);
    }
    let mut text = String::new(alloc);
    text.push_str(run)?;
    text.push_str(rest)?;
    let tokens = lex(alloc, text.as_str())?;
    let at = tokens
        .iter()
        .filter(|token| token.at.col as usize <= run.len())
        .count();
    let (before, behind) = match tokens.as_slice().split_at_checked(at) {
        Some(parts) => parts,
        None => return Ok(None),
    };
    match told(before, behind) {
        None => Ok(None),
        Some(found) => match tokens.get(found.place) {
            None => Ok(None),
            Some(token) => Ok(Some((found.form, token.at.col))),
        },
    }
}

fn check(rt: &impl Abort, alloc: Global, rows: &[Row<'_>]) -> Result<(), LexError> {
    for (run, rest, form, column) in rows {
        match told_in(alloc, run, rest)? {
            None => assert_eq!(rt; *form, "", "{run}{rest}"),
            Some((found, at)) => {
                assert_eq!(rt; found.name(), *form, "{run}{rest}");
                assert_eq!(rt; at, *column, "{run}{rest}");
            }
        }
    }
    Ok(())
}

#[test]
fn operands(rt: HostRuntime) -> Result<(), LexError> {
    check(
        &rt,
        rt.alloc(),
        &[
            ("", "await x", "await", 1),
            ("a + ", "await x", "await", 5),
            ("-", "await x", "await", 2),
            ("a is not ", "await x", "await", 10),
            ("a not in ", "await x", "await", 10),
            ("a not ", "await x", "", 0),
            ("f(x=", "await x)", "await", 5),
            ("f(x=1, ", "await x)", "", 0),
            ("a ", "await x", "", 0),
            ("", "lambda: 1", "lambda", 1),
            ("a if b else ", "lambda: 1", "lambda", 13),
            ("a if ", "lambda: 1 else 2", "", 0),
            ("not ", "lambda: 1", "", 0),
            ("x + ", "lambda: 1", "", 0),
            ("a and ", "lambda: 1", "", 0),
            ("{1: ", "lambda: 1}", "lambda", 5),
            ("f(a, ", "lambda: 1)", "lambda", 6),
            ("f(a=1, ", "lambda: 1)", "", 0),
            ("f'{", "lambda}'", "lambda", 4),
            ("a.", "lambda", "", 0),
            ("(", "yield)", "yield", 2),
            ("f((", "yield))", "yield", 4),
            ("f(", "yield)", "", 0),
            ("[", "yield]", "", 0),
            ("(a, ", "yield)", "", 0),
            ("(a + ", "yield)", "", 0),
            ("", "yield", "", 0),
            ("", "b'x'", "bytes", 1),
            ("[a, ", "b'x']", "bytes", 5),
            ("'a' ", "b'x'", "", 0),
            ("a ** -", "1.5", "float", 7),
            ("a[", "1.5]", "float", 3),
            ("f(a=1, ", "1.5)", "", 0),
        ],
    )
}

#[test]
fn names_and_calls(rt: HostRuntime) -> Result<(), LexError> {
    check(
        &rt,
        rt.alloc(),
        &[
            ("", "super().f", "super", 1),
            ("a + ", "super().f", "super", 5),
            ("f(a, ", "super)", "super", 6),
            ("f(a, super", ")", "super", 6),
            ("f(super", "(), 1)", "super", 3),
            ("f(super ", "for x in y)", "super", 3),
            ("f(", "super=1)", "", 0),
            ("f(super", "=1)", "", 0),
            ("f(a=1, super", ")", "", 0),
            ("a.super", "]", "", 0),
            ("a.super", "=", "", 0),
            ("a.b.__init__", "(c)", "init call", 1),
            ("x + (a).__init__", "(c)", "init call", 5),
            ("__init__", "(c)", "init call", 1),
            ("(a.__init__)", "(c)", "init call", 1),
            ("f(1, a[0].__init__", "(c))", "init call", 6),
            ("f(a=1, __init__", "(c))", "", 0),
            ("f()", "()", "callee", 1),
            ("x ** a.b(1)[2]", "(3)", "callee", 6),
            ("[a, 'b' f'{c}d' 'e'", "(1)]", "callee", 5),
            ("-1", "(2)", "callee", 2),
            ("(a + b)", "(c)", "callee", 1),
            ("f(a)", "(b)", "callee", 1),
            ("((a)(b))", "(c)", "callee", 1),
            ("(a)", "(b)", "", 0),
            ("((a).b)", "(c)", "", 0),
            ("{}", "(c)", "callee", 1),
            ("a if b else [c][0]", "(d)", "callee", 13),
            ("a +", "()", "", 0),
            ("(", "x := 1)", "", 0),
            ("(x ", ":= 1)", "walrus", 2),
            ("(a, x ", ":= 1)", "walrus", 5),
            ("f(a, x ", ":= 1)", "walrus", 6),
            ("f(a=1, x ", ":= 1)", "", 0),
            ("a[x ", ":= 1]", "walrus", 3),
            ("{x ", ":= 1}", "walrus", 2),
            ("{a: 1, x ", ":= 1}", "", 0),
            ("{a: x ", ":= 1}", "", 0),
            ("(a.b ", ":= 1)", "", 0),
            ("(1 + x ", ":= 1)", "", 0),
            ("x ", ":= 1", "", 0),
        ],
    )
}

#[test]
fn brackets(rt: HostRuntime) -> Result<(), LexError> {
    check(
        &rt,
        rt.alloc(),
        &[
            ("(x ", "for x in y)", "comprehension", 1),
            ("a + [f(1, 2)[3] ", "for x in y]", "comprehension", 5),
            ("{x ", "for x in y}", "comprehension", 1),
            ("{x: y ", "for x in y}", "comprehension", 1),
            ("f(x ", "for x in y)", "comprehension", 2),
            ("[x ", "async for x in y]", "comprehension", 1),
            ("[x ", "async x]", "", 0),
            ("(x if y else z ", "for x in y)", "comprehension", 1),
            ("(x if y ", "for x in y)", "", 0),
            ("(x, y ", "for x in y)", "", 0),
            ("f(1, x ", "for x in y)", "", 0),
            ("f(a=x ", "for x in y)", "", 0),
            ("{1: 2, x: y ", "for x in y}", "", 0),
            ("a[x ", "for x in y]", "", 0),
            ("f'{x ", "for x in y}'", "", 0),
            ("(x + ", "for x in y)", "", 0),
            ("x ", "for x in y", "", 0),
            ("(", "*a, b)", "star", 2),
            ("[a, ", "*b]", "star", 5),
            ("{", "*a}", "star", 2),
            ("{1: 2, ", "*a}", "", 0),
            ("a[b, ", "*c]", "star", 6),
            ("f(a=1, ", "*b)", "star", 8),
            ("f'{", "*a, b}'", "star", 4),
            ("(a + ", "*b)", "", 0),
            ("f(a=", "*b)", "", 0),
            ("", "*a", "", 0),
            ("f(", "**a)", "star", 3),
            ("{1: 2, ", "**a}", "star", 8),
            ("[", "**a]", "", 0),
            ("a[", ":]", "slice", 3),
            ("a[b, c ", ": d]", "slice", 8),
            ("a[b, ", ":]", "slice", 6),
            ("a[b + ", ":]", "", 0),
            ("a[b if c ", ": d]", "", 0),
            ("[a ", ": b]", "", 0),
            ("f(a ", ": b)", "", 0),
            ("a[(b ", ": c)]", "", 0),
            ("x + {a", ", b}", "set", 5),
            ("{f(1, 2)", "}", "set", 1),
            ("{a if b", "}", "", 0),
            ("{a +", "}", "", 0),
            ("{a: b, c", "}", "", 0),
            ("{", "}", "", 0),
            ("(a", "}", "", 0),
            ("{", ", a}", "", 0),
        ],
    )
}
