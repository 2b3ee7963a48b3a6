//! The tree of a file or of an expression, or its fault.

ghost use Rattle.std.specs.Prelude.{◌<◌, ◌^◌, length};

use crate::statements::write_module;
use crate::trees::write_expr;
use py_ast::Expr;
use py_expr::{SyntaxError, expression};
use py_lexer::{Kind, LexError, Token, lex};
use py_literals::place::Pos;
use py_parser::{FileError, parse};
use std::io::{self, BufWriter, Write};
use std::process::ExitCode;

/// Prints a fault under its name, with its place.
fn print_fault(rt: &HostRuntime, name: &str, at: Pos) -> Result<ExitCode, io::Error> {
    println!(rt; "fault {name} {}:{}", at.line, at.col)?;
    Ok(ExitCode::from(1))
}

fn print_error(rt: &HostRuntime, error: SyntaxError) -> Result<ExitCode, io::Error> {
    match error {
        SyntaxError::Syntax(at) => print_fault(rt, "Syntax", at),
        SyntaxError::TooDeep(at) => print_fault(rt, "TooDeep", at),
        SyntaxError::Unsupported(form, at) => {
            println!(rt; "fault Unsupported({form}) {}:{}", at.line, at.col)?;
            Ok(ExitCode::from(1))
        }
        SyntaxError::Memory => {
            println!(rt; "out of memory")?;
            Ok(ExitCode::from(3))
        }
    }
}

/// Prints the tree of an expression, as a statement of its own, and where it isn't all of its line, what follows it.
fn print_expr(rt: &HostRuntime, expr: &Expr, rest: Option<&Token>) -> Result<ExitCode, io::Error> {
    let mut out = BufWriter::new(rt.alloc(), io::writer(rt))?;
    let (node, anchor) = (expr.node, expr.anchor);
    writeln!(
        out,
        "0 expression {}:{} {}:{}",
        node.line, node.col, anchor.line, anchor.col
    )?;
    write_expr(&mut out, expr, 1)?;
    out.flush()?;
    match rest {
        Some(token) if token.kind != Kind::Newline => {
            println!(rt; "rest {}:{}", token.at.line, token.at.col)?;
            Ok(ExitCode::from(1))
        }
        _ => Ok(ExitCode::from(0)),
    }
}

/// Reads the expression with which a text begins.
fn read_tokens(rt: &HostRuntime, tokens: &[Token]) -> Result<ExitCode, io::Error> {
    if tokens.is_empty() {
        return Ok(ExitCode::from(0));
    }
    match expression(rt.alloc(), tokens, 0) {
        Ok((expr, after)) => print_expr(rt, &expr, tokens.get(after)),
        Err(error) => print_error(rt, error),
    }
}

/// Prints the tree of the expression with which a text begins, or its fault.
pub fn print_expression(rt: &HostRuntime, text: &str) -> Result<ExitCode, io::Error>
    requires { length text.now < 2 ^ 31 }
{
    match lex(rt.alloc(), text) {
        Ok(tokens) => read_tokens(rt, tokens.as_slice()),
        Err(LexError::Fault { kind, at }) => {
            println!(rt; "fault {kind} {}:{}", at.line, at.col)?;
            Ok(ExitCode::from(1))
        }
        Err(LexError::Memory) => {
            println!(rt; "out of memory")?;
            Ok(ExitCode::from(3))
        }
    }
}

/// Prints a file's fault.
pub fn print_file_error(rt: &HostRuntime, error: FileError) -> Result<ExitCode, io::Error> {
    match error {
        FileError::Lex(kind, at) => {
            println!(rt; "fault {kind} {}:{}", at.line, at.col)?;
            Ok(ExitCode::from(1))
        }
        FileError::Syntax(at) => print_fault(rt, "Syntax", at),
        FileError::TooDeep(at) => print_fault(rt, "TooDeep", at),
        FileError::Unsupported(form, at) => {
            println!(rt; "fault Unsupported({form}) {}:{}", at.line, at.col)?;
            Ok(ExitCode::from(1))
        }
        FileError::Twice(name, at) => {
            println!(rt; "fault Twice({name}) {}:{}", at.line, at.col)?;
            Ok(ExitCode::from(1))
        }
        FileError::Memory => {
            println!(rt; "out of memory")?;
            Ok(ExitCode::from(3))
        }
    }
}

/// Prints the tree of a file, or its fault.
pub fn print_trees(rt: &HostRuntime, text: &str) -> Result<ExitCode, io::Error>
    requires { length text.now < 2 ^ 31 }
{
    match parse(rt.alloc(), text) {
        Ok(parsed) => {
            let mut out = BufWriter::new(rt.alloc(), io::writer(rt))?;
            write_module(&mut out, parsed.module())?;
            out.flush()?;
            Ok(ExitCode::from(0))
        }
        Err(error) => print_file_error(rt, error),
    }
}
