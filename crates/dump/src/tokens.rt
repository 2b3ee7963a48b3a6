//! The lines of tokens.

use py_lexer::{Token, Value};
use std::io::{self, Write};

/// Writes each token as `LINE:COL KIND`, and behind that its name, its number, or the bytes of its text in hexadecimal digits.
pub fn write_all<W: Write + Drop>(out: &mut W, tokens: &[Token]) -> io::Result<()> {
    for token in tokens {
        write_one(out, token)?;
    }
    Ok(())
}

fn write_one<W: Write + Drop>(out: &mut W, token: &Token) -> io::Result<()> {
    write!(out, "{}:{} {:?}", token.at.line, token.at.col, token.kind)?;
    match &token.value {
        Value::Nothing => {}
        Value::Name(name) => write!(out, " {name}")?,
        Value::Whole(number) => write!(out, " {number}")?,
        Value::Text(text) => {
            write!(out, " ")?;
            for byte in text.as_str().as_bytes() {
                write!(out, "{byte:02x}")?;
            }
        }
    }
    writeln!(out)
}
