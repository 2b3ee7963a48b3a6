//! Why a file is refused.

ghost use Rattle.std.specs.Prelude.{◌≡◌};
ghost use Rattle.std.specs.Fmt.{WritesOnOk};
ghost use Rattle.front.specs.Printing.{models_text, placed, python_text, unsupported};
ghost use Rattle.front.specs.declared.faults.ReadFault.TheVariants.{Memory};

use py_lexer::Form;
use py_literals::place::Pos;
use py_parser::FileError;
use pysa_syntax::ModelError;
use std::alloc::{AllocError, AllocFailed};
use std::error::Error;
use std::fmt;
use taint_config::ConfigError;

/// Why a file is refused: the first of these that holds.
#[derive(Drop)]
pub enum ReadFault {
    /// Nothing may stand at the path.
    BadPath,
    /// The file has more than 1 MiB, which is 1,048,576 bytes.
    TooLarge,
    /// The bytes are no text in UTF-8.
    NotUtf8,
    /// The fault of a Python file.
    Python(FileError),
    /// The fault of a model file.
    Models(ModelError),
    /// The fault of a configuration.
    Config(ConfigError),
    /// There is no memory left for the answer.
    Memory,
}

/// A name, and its place.
fn write_placed<W: fmt::Write>(f: &mut fmt::Formatter<W>, at: Pos, name: &str) -> fmt::Result
    ensures { WritesOnOk W.write_str_gives f.old result (placed at name.now) f.new }
{
    write!(f, "{}:{} {name}", at.line, at.col)
}

/// A form that isn't supported, and its place.
fn write_unsupported<W: fmt::Write>(f: &mut fmt::Formatter<W>, form: Form, at: Pos) -> fmt::Result
    ensures { WritesOnOk W.write_str_gives f.old result (placed at (unsupported form)) f.new }
{
    write!(f, "{}:{} ", at.line, at.col)?;
    write!(f, "Unsupported({form})")
}

/// The place and the name of the fault of a Python file.
fn write_python_fault<W: fmt::Write>(f: &mut fmt::Formatter<W>, fault: &FileError) -> fmt::Result
    ensures { WritesOnOk W.write_str_gives f.old result (python_text fault.now) f.new }
{
    match fault {
        FileError::Lex(kind, at) => write_placed(f, *at, kind.name()),
        FileError::Syntax(at) => write_placed(f, *at, "Syntax"),
        FileError::Unsupported(form, at) => write_unsupported(f, *form, *at),
        FileError::TooDeep(at) => write_placed(f, *at, "TooDeep"),
        FileError::Twice(name, at) => write!(f, "{}:{} Twice({name})", at.line, at.col),
        FileError::Memory => f.write_str("0:0 Memory"),
    }
}

/// The place and the name of the fault of a model file.
fn write_models_fault<W: fmt::Write>(f: &mut fmt::Formatter<W>, fault: &ModelError) -> fmt::Result
    ensures { WritesOnOk W.write_str_gives f.old result (models_text fault.now) f.new }
{
    match fault {
        ModelError::Lex(kind, at) => write_placed(f, *at, kind.name()),
        ModelError::Syntax(at) => write_placed(f, *at, "Syntax"),
        ModelError::Unsupported(form, at) => write_unsupported(f, *form, *at),
        ModelError::Memory => f.write_str("0:0 Memory"),
    }
}

/// The place of the fault, 0:0 where it has none, and its name, as `3:5 BadDedent` or `2:1 Twice(f)`.
impl fmt::Display for ReadFault {
    ghost use Rattle.std.specs.Prelude.{Some};
    ghost use Rattle.front.specs.Printing.{fault_text};

    ghost output = { λ fault. Some (fault_text fault) };

    fn fmt<W: fmt::Write>(&self, f: &mut fmt::Formatter<W>) -> fmt::Result {
        match self {
            ReadFault::BadPath => f.write_str("0:0 BadPath"),
            ReadFault::TooLarge => f.write_str("0:0 TooLarge"),
            ReadFault::NotUtf8 => f.write_str("0:0 NotUtf8"),
            ReadFault::Python(fault) => write_python_fault(f, fault),
            ReadFault::Models(fault) => write_models_fault(f, fault),
            ReadFault::Config(fault) => write!(f, "0:0 {}", fault.name()),
            ReadFault::Memory => f.write_str("0:0 Memory"),
        }
    }
}

/// The same text as `Display`.
impl fmt::Debug for ReadFault {
    fn fmt<W: fmt::Write>(&self, f: &mut fmt::Formatter<W>) -> fmt::Result {
        fmt::Display::fmt(self, f)
    }
}

impl Error for ReadFault {}

impl From<AllocError> for ReadFault {
    ghost from_gives = { λ _ fault. fault ≡ Memory };

    fn from(_error: AllocError) -> ReadFault {
        ReadFault::Memory
    }
}

impl<T: Drop> From<AllocFailed<T>> for ReadFault {
    ghost from_gives = { λ _ fault. fault ≡ Memory };

    fn from(_error: AllocFailed<T>) -> ReadFault {
        ReadFault::Memory
    }
}

impl From<rv_names::Memory> for ReadFault {
    ghost from_gives = { λ _ fault. fault ≡ Memory };

    fn from(_error: rv_names::Memory) -> ReadFault {
        ReadFault::Memory
    }
}
