//! The lines of statements: behind the number of one its anchor follows.

use crate::trees::{write_argument, write_expr, write_line, write_name};
use py_ast::{
    AugmentOperator, Branch, Class, Decorator, Dotted, Expr, Function, Imported, ImportedName,
    Module, NameAt, Parameter, Stmt, StmtForm,
};
use py_literals::place::Pos;
use sqlite_items::Boxed;
use std::io::{self, Write};

/// Writes the statements of a module.
pub fn write_module<W: Write + Drop>(out: &mut W, module: &Module) -> io::Result<()> {
    for statement in module.body.as_slice() {
        write_statement(out, statement, 0)?;
    }
    Ok(())
}

/// Writes a statement and what is in it.
#[cycle(statements)]
fn write_statement<W: Write + Drop>(out: &mut W, statement: &Stmt, depth: u32) -> io::Result<()> {
    let (node, anchor) = (statement.node, statement.anchor);
    let below = depth.saturating_add(1);
    let word = word_of(&statement.form);
    write!(
        out,
        "{depth} {word} {}:{} {}:{}",
        node.line, node.col, anchor.line, anchor.col
    )?;
    match &statement.form {
        StmtForm::If(first, others, otherwise) => {
            writeln!(out)?;
            write_branch(out, first, below)?;
            for branch in others.as_slice() {
                write_branch(out, branch, below)?;
            }
            write_block(out, otherwise.as_slice(), "else", below)
        }
        StmtForm::While(condition, body) => {
            writeln!(out)?;
            write_expr(out, condition, below)?;
            write_block(out, body.as_slice(), "body", below)
        }
        StmtForm::For(names, over, body) => {
            writeln!(out)?;
            for name in names.as_slice() {
                write_name(out, name, below, "target")?;
            }
            write_expr(out, over, below)?;
            write_block(out, body.as_slice(), "body", below)
        }
        StmtForm::Function(function) => write_function(out, function, below),
        StmtForm::Class(class) => write_class(out, class, below),
        simple => {
            writeln!(out)?;
            write_simple(out, simple, below)
        }
    }
}

/// Writes the statements of a block, under a word.
#[cycle(statements)]
fn write_block<W: Write + Drop>(
    out: &mut W,
    body: &[Stmt],
    word: &str,
    depth: u32,
) -> io::Result<()> {
    writeln!(out, "{depth} {word}")?;
    for statement in body {
        write_statement(out, statement, depth.saturating_add(1))?;
    }
    Ok(())
}

#[cycle(statements)]
fn write_branch<W: Write + Drop>(out: &mut W, branch: &Branch, depth: u32) -> io::Result<()> {
    let below = depth.saturating_add(1);
    write_line(out, depth, "branch", branch.at)?;
    write_expr(out, &branch.condition, below)?;
    write_block(out, branch.body.as_slice(), "body", below)
}

#[cycle(statements)]
fn write_function<W: Write + Drop>(out: &mut W, function: &Function, depth: u32) -> io::Result<()> {
    writeln!(out)?;
    write_decorators(out, function.decorators.as_slice(), depth)?;
    write_name(out, &function.name, depth, "named")?;
    for parameter in function.parameters.as_slice() {
        write_parameter(out, parameter, depth)?;
    }
    if let Some(returns) = &function.returns {
        writeln!(out, "{depth} returns")?;
        write_expr(out, returns.get(), depth.saturating_add(1))?;
    }
    write_block(out, function.body.as_slice(), "body", depth)
}

#[cycle(statements)]
fn write_class<W: Write + Drop>(out: &mut W, class: &Class, depth: u32) -> io::Result<()> {
    writeln!(out)?;
    write_decorators(out, class.decorators.as_slice(), depth)?;
    write_name(out, &class.name, depth, "named")?;
    if let Some(base) = &class.base {
        write_dotted(out, base, depth, "base")?;
    }
    write_block(out, class.body.as_slice(), "body", depth)
}

/// What a simple statement holds.
fn write_simple<W: Write + Drop>(out: &mut W, form: &StmtForm, depth: u32) -> io::Result<()> {
    match form {
        StmtForm::Expression(value) => write_expr(out, value, depth),
        StmtForm::Assign(target, value) => {
            write_expr(out, target, depth)?;
            write_expr(out, value, depth)
        }
        StmtForm::Augment(target, _, value) => {
            write_expr(out, target, depth)?;
            write_expr(out, value.get(), depth)
        }
        StmtForm::Annotate(target, annotation, value) => {
            write_expr(out, target, depth)?;
            write_expr(out, annotation.get(), depth)?;
            write_optional(out, value, depth)
        }
        StmtForm::Assert(condition, message) => {
            write_expr(out, condition, depth)?;
            write_optional(out, message, depth)
        }
        StmtForm::Return(Some(value)) => write_expr(out, value, depth),
        StmtForm::Import(modules) => {
            for module in modules.as_slice() {
                write_imported(out, module, depth)?;
            }
            Ok(())
        }
        StmtForm::ImportFrom(module, names) => {
            write_dotted(out, module, depth, "module")?;
            for name in names.as_slice() {
                write_imported_name(out, name, depth)?;
            }
            Ok(())
        }
        _ => Ok(()),
    }
}

fn write_optional<W: Write + Drop>(
    out: &mut W,
    value: &Option<Boxed<Expr>>,
    depth: u32,
) -> io::Result<()> {
    match value {
        None => Ok(()),
        Some(value) => write_expr(out, value.get(), depth),
    }
}

fn write_imported<W: Write + Drop>(out: &mut W, imported: &Imported, depth: u32) -> io::Result<()> {
    write_dotted(out, &imported.name, depth, "imported")?;
    write_alias(out, &imported.alias, depth)
}

fn write_imported_name<W: Write + Drop>(
    out: &mut W,
    imported: &ImportedName,
    depth: u32,
) -> io::Result<()> {
    write_name(out, &imported.name, depth, "imported")?;
    write_alias(out, &imported.alias, depth)
}

fn write_alias<W: Write + Drop>(out: &mut W, alias: &Option<NameAt>, depth: u32) -> io::Result<()> {
    match alias {
        None => Ok(()),
        Some(name) => write_name(out, name, depth.saturating_add(1), "as"),
    }
}

/// A dotted name with its place, under a word.
fn write_dotted<W: Write + Drop>(
    out: &mut W,
    dotted: &Dotted,
    depth: u32,
    word: &str,
) -> io::Result<()> {
    let NameAt { name, at } = &dotted.first;
    write!(out, "{depth} {word} {}:{} {name}", at.line, at.col)?;
    for other in dotted.others.as_slice() {
        let NameAt { name, at: _ } = other;
        write!(out, ".{name}")?;
    }
    writeln!(out)
}

fn write_decorators<W: Write + Drop>(
    out: &mut W,
    decorators: &[Decorator],
    depth: u32,
) -> io::Result<()> {
    for decorator in decorators {
        write_decorator(out, decorator, depth)?;
    }
    Ok(())
}

fn write_decorator<W: Write + Drop>(
    out: &mut W,
    decorator: &Decorator,
    depth: u32,
) -> io::Result<()> {
    let below = depth.saturating_add(1);
    let word = if decorator.arguments.is_some() {
        "decorator-call"
    } else {
        "decorator"
    };
    write_line(out, depth, word, decorator.at)?;
    write_dotted(out, &decorator.name, below, "dotted")?;
    if let Some(arguments) = &decorator.arguments {
        for argument in arguments.as_slice() {
            write_argument(out, argument, below)?;
        }
    }
    Ok(())
}

fn write_parameter<W: Write + Drop>(
    out: &mut W,
    parameter: &Parameter,
    depth: u32,
) -> io::Result<()> {
    let below = depth.saturating_add(1);
    write_name(out, &parameter.name, depth, "parameter")?;
    if let Some(annotation) = &parameter.annotation {
        writeln!(out, "{below} annotation")?;
        write_expr(out, annotation, below.saturating_add(1))?;
    }
    if let Some(default) = &parameter.default {
        writeln!(out, "{below} default")?;
        write_expr(out, default, below.saturating_add(1))?;
    }
    Ok(())
}

/// The word of a statement.
fn word_of(form: &StmtForm) -> &'static str {
    match form {
        StmtForm::Expression(_) => "expression",
        StmtForm::Assign(..) => "assign",
        StmtForm::Annotate(..) => "annotate",
        StmtForm::Augment(_, operator, _) => augment_word(*operator),
        StmtForm::Assert(..) => "assert",
        StmtForm::Pass => "pass",
        StmtForm::Return(_) => "return",
        StmtForm::Break => "break",
        StmtForm::Continue => "continue",
        StmtForm::Import(_) => "import",
        StmtForm::ImportFrom(..) => "from",
        StmtForm::If(..) => "if",
        StmtForm::While(..) => "while",
        StmtForm::For(..) => "for",
        StmtForm::Function(_) => "def",
        StmtForm::Class(_) => "class",
    }
}

fn augment_word(operator: AugmentOperator) -> &'static str {
    match operator {
        AugmentOperator::Add => "+=",
        AugmentOperator::Subtract => "-=",
        AugmentOperator::Multiply => "*=",
        AugmentOperator::MatrixMultiply => "@=",
        AugmentOperator::Divide => "/=",
        AugmentOperator::FloorDivide => "//=",
        AugmentOperator::Remainder => "%=",
        AugmentOperator::Power => "**=",
        AugmentOperator::RightShift => ">>=",
        AugmentOperator::LeftShift => "<<=",
        AugmentOperator::BitAnd => "&=",
        AugmentOperator::BitXor => "^=",
        AugmentOperator::BitOr => "|=",
    }
}
