//! The names that the functions of a file own.

ghost use Rattle.std.specs.Prelude.{◌<◌, ◌^◌, length};

use crate::reading::print_file_error;
use py_ast::Module;
use py_parser::parse;
use py_scopes::{ClassScope, FunctionScope, Scopes, scopes};
use std::io::{self, BufWriter, Write};
use std::process::ExitCode;

/// Writes the names that a function owns, behind a blank each.
fn write_owned<W: Write + Drop>(out: &mut W, function: &FunctionScope) -> io::Result<()> {
    for binding in function.owned.bindings() {
        write!(out, " {}", binding.name)?;
    }
    writeln!(out)
}

/// Writes a line for each method of a class.
fn write_class<W: Write + Drop>(out: &mut W, class: &ClassScope) -> io::Result<()> {
    for method in class.methods.as_slice() {
        write!(out, "owned {}.{}:", class.name, method.name)?;
        write_owned(out, method)?;
    }
    Ok(())
}

/// Writes a line for each function and method.
fn write_scopes<W: Write + Drop>(out: &mut W, scopes: &Scopes) -> io::Result<()> {
    for function in scopes.functions.as_slice() {
        write!(out, "owned {}:", function.name)?;
        write_owned(out, function)?;
    }
    for class in scopes.classes.as_slice() {
        write_class(out, class)?;
    }
    Ok(())
}

fn print_module(rt: &HostRuntime, module: &Module) -> Result<ExitCode, io::Error> {
    match scopes(rt.alloc(), module) {
        Ok(scopes) => {
            let mut out = BufWriter::new(rt.alloc(), io::writer(rt))?;
            write_scopes(&mut out, &scopes)?;
            out.flush()?;
            Ok(ExitCode::from(0))
        }
        Err(_) => {
            println!(rt; "out of memory")?;
            Ok(ExitCode::from(3))
        }
    }
}

/// Prints the names that each function of a file owns, or the file's fault.
pub fn print_scopes(rt: &HostRuntime, text: &str) -> Result<ExitCode, io::Error>
    requires { length text.now < 2 ^ 31 }
{
    match parse(rt.alloc(), text) {
        Ok(parsed) => print_module(rt, parsed.module()),
        Err(error) => print_file_error(rt, error),
    }
}
