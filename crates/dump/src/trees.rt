//! The lines of trees.
//!
//! A node is a line `DEPTH WORD NODE ..`, and its parts follow it, one deeper. NODE is the node's number, a place; behind that of
//! an expression its anchor and its first character follow, and then its name, its number, or the bytes of its text in
//! hexadecimal digits.

use py_ast::{
    Argument, BinaryOperator, Comparator, Constant, Expr, Form, NameAt, Part, Step, StepForm,
    UnaryOperator,
};
use py_literals::place::Pos;
use rv_names::{Name, Text};
use std::io::{self, Write};

/// Writes an expression and what is in it.
#[cycle(trees)]
pub fn write_expr<W: Write + Drop>(out: &mut W, expr: &Expr, depth: u32) -> io::Result<()> {
    write_head(out, expr, depth)?;
    let below = depth.saturating_add(1);
    match &expr.form {
        Form::Name(_) | Form::Number(_) | Form::Text(_) | Form::Constant(_) => Ok(()),
        Form::Formatted(parts) => write_parts(out, parts.as_slice(), below),
        Form::Tuple(items) | Form::List(items) => write_exprs(out, items.as_slice(), below),
        Form::Dictionary(pairs) => {
            for pair in pairs.as_slice() {
                write_expr(out, &pair.key, below)?;
                write_expr(out, &pair.value, below)?;
            }
            Ok(())
        }
        Form::Conditional(value, condition, otherwise) => {
            write_expr(out, value.get(), below)?;
            write_expr(out, condition.get(), below)?;
            write_expr(out, otherwise.get(), below)
        }
        Form::Or(first, others) | Form::And(first, others) => {
            write_expr(out, first.get(), below)?;
            for other in others.as_slice() {
                write_expr(out, &other.value, below)?;
            }
            Ok(())
        }
        Form::Not(inner) | Form::Unary(_, inner) => write_expr(out, inner.get(), below),
        Form::Comparison(first, others) => {
            write_expr(out, first.get(), below)?;
            for other in others.as_slice() {
                write_line(out, below, comparator_word(other.comparator), other.at)?;
                write_expr(out, &other.value, below)?;
            }
            Ok(())
        }
        Form::Binary(first, operands) => {
            write_expr(out, first.get(), below)?;
            for operand in operands.as_slice() {
                write_line(out, below, operator_word(operand.operator), operand.at)?;
                write_expr(out, &operand.value, below)?;
            }
            Ok(())
        }
        Form::Power(base, exponent) => {
            write_expr(out, base.get(), below)?;
            write_expr(out, exponent.get(), below)
        }
        Form::Postfix(base, steps) => {
            write_expr(out, base.get(), below)?;
            write_steps(out, steps.as_slice(), below)
        }
    }
}

#[cycle(trees)]
fn write_exprs<W: Write + Drop>(out: &mut W, items: &[Expr], depth: u32) -> io::Result<()> {
    for item in items {
        write_expr(out, item, depth)?;
    }
    Ok(())
}

#[cycle(trees)]
fn write_parts<W: Write + Drop>(out: &mut W, parts: &[Part], depth: u32) -> io::Result<()> {
    for part in parts {
        match part {
            Part::Text(text) => {
                write!(out, "{depth} text")?;
                write_text(out, text)?;
                writeln!(out)?;
            }
            Part::Field(value) => write_expr(out, value, depth)?,
        }
    }
    Ok(())
}

#[cycle(trees)]
fn write_steps<W: Write + Drop>(out: &mut W, steps: &[Step], depth: u32) -> io::Result<()> {
    for step in steps {
        write_step(out, step, depth)?;
    }
    Ok(())
}

#[cycle(trees)]
fn write_step<W: Write + Drop>(out: &mut W, step: &Step, depth: u32) -> io::Result<()> {
    let below = depth.saturating_add(1);
    let at = step.node;
    match &step.form {
        StepForm::Attribute(name) => writeln!(
            out,
            "{depth} attribute {}:{} {name}",
            at.line, at.col
        ),
        StepForm::Subscript(index) => {
            write_line(out, depth, "subscript", at)?;
            write_expr(out, index.get(), below)
        }
        StepForm::Call(arguments) => {
            write_line(out, depth, "call", at)?;
            for argument in arguments.as_slice() {
                write_argument(out, argument, below)?;
            }
            Ok(())
        }
    }
}

#[cycle(trees)]
pub fn write_argument<W: Write + Drop>(
    out: &mut W,
    argument: &Argument,
    depth: u32,
) -> io::Result<()> {
    match &argument.keyword {
        None => write_expr(out, &argument.value, depth),
        Some(keyword) => {
            write_name(out, keyword, depth, "keyword")?;
            write_expr(out, &argument.value, depth.saturating_add(1))
        }
    }
}

/// A name with its place, under a word.
pub fn write_name<W: Write + Drop>(
    out: &mut W,
    name: &NameAt,
    depth: u32,
    word: &str,
) -> io::Result<()> {
    let NameAt { name, at } = name;
    writeln!(out, "{depth} {word} {}:{} {name}", at.line, at.col)
}

pub fn write_line<W: Write + Drop>(out: &mut W, depth: u32, word: &str, at: Pos) -> io::Result<()> {
    writeln!(out, "{depth} {word} {}:{}", at.line, at.col)
}

/// A blank, and the bytes of a text in hexadecimal digits.
fn write_text<W: Write + Drop>(out: &mut W, text: &Text) -> io::Result<()> {
    write!(out, " ")?;
    for byte in text.as_str().as_bytes() {
        write!(out, "{byte:02x}")?;
    }
    Ok(())
}

/// The line of an expression, without its parts.
fn write_head<W: Write + Drop>(out: &mut W, expr: &Expr, depth: u32) -> io::Result<()> {
    let (node, anchor, start) = (expr.node, expr.anchor, expr.start);
    let word = word_of(&expr.form);
    write!(out, "{depth} {word} {}:{}", node.line, node.col)?;
    write!(
        out,
        " {}:{} {}:{}",
        anchor.line, anchor.col, start.line, start.col
    )?;
    write_value(out, &expr.form)?;
    writeln!(out)
}

/// What a form of one token stands for, behind a blank.
fn write_value<W: Write + Drop>(out: &mut W, form: &Form) -> io::Result<()> {
    match form {
        Form::Name(name) => write!(out, " {name}"),
        Form::Number(number) => write!(out, " {}", number.get()),
        Form::Text(text) => write_text(out, text),
        _ => Ok(()),
    }
}

/// The word of a form.
fn word_of(form: &Form) -> &'static str {
    match form {
        Form::Name(_) => "name",
        Form::Number(_) => "number",
        Form::Text(_) => "text",
        Form::Formatted(_) => "formatted",
        Form::Constant(constant) => constant_word(*constant),
        Form::Tuple(_) => "tuple",
        Form::List(_) => "list",
        Form::Dictionary(_) => "dictionary",
        Form::Conditional(..) => "conditional",
        Form::Or(..) => "or",
        Form::And(..) => "and",
        Form::Not(_) => "not",
        Form::Comparison(..) => "comparison",
        Form::Binary(..) => "binary",
        Form::Unary(operator, _) => unary_word(*operator),
        Form::Power(..) => "power",
        Form::Postfix(..) => "postfix",
    }
}

fn constant_word(constant: Constant) -> &'static str {
    match constant {
        Constant::False => "False",
        Constant::None => "None",
        Constant::True => "True",
        Constant::Ellipsis => "...",
    }
}

fn unary_word(operator: UnaryOperator) -> &'static str {
    match operator {
        UnaryOperator::Plus => "+",
        UnaryOperator::Minus => "-",
        UnaryOperator::Invert => "~",
    }
}

fn operator_word(operator: BinaryOperator) -> &'static str {
    match operator {
        BinaryOperator::Multiply => "*",
        BinaryOperator::MatrixMultiply => "@",
        BinaryOperator::Divide => "/",
        BinaryOperator::FloorDivide => "//",
        BinaryOperator::Remainder => "%",
        BinaryOperator::Add => "+",
        BinaryOperator::Subtract => "-",
        BinaryOperator::LeftShift => "<<",
        BinaryOperator::RightShift => ">>",
        BinaryOperator::BitAnd => "&",
        BinaryOperator::BitXor => "^",
        BinaryOperator::BitOr => "|",
    }
}

fn comparator_word(comparator: Comparator) -> &'static str {
    match comparator {
        Comparator::Less => "<",
        Comparator::LessEqual => "<=",
        Comparator::Greater => ">",
        Comparator::GreaterEqual => ">=",
        Comparator::Equal => "==",
        Comparator::NotEqual => "!=",
        Comparator::In => "in",
        Comparator::NotIn => "not-in",
        Comparator::Is => "is",
        Comparator::IsNot => "is-not",
    }
}
