//! Why a configuration is refused.

ghost use Rattle.std.specs.Prelude.{◌≡◌};
ghost use Rattle.taint_config.specs.ErrorNames.{error_name};
ghost use Rattle.taint_config.specs.declared.faults.ConfigError.TheVariants.{Memory};

use std::alloc::{AllocError, AllocFailed};
use std::error::Error;
use std::fmt;

/// Why `read_config` gives no configuration: the first fault of the file, or want of memory.
#[derive(Clone, Copy, Debug, PartialEq, Eq)]
pub enum ConfigError {
    /// The bytes spell no JSON value in UTF-8 (RFC 8259).
    NotJson,
    /// An object lacks a field that it must have.
    Missing,
    /// A value is not of the type that its place asks for.
    WrongType,
    /// A source has the name of an earlier source, or a sink that of an earlier sink.
    Twice,
    /// A rule names a source or a sink that the configuration lacks.
    UnknownKind,
    /// A rule has the code of an earlier rule.
    CodeTwice,
    /// There are more than 255 sources and sinks.
    TooManyKinds,
    /// There is no memory left for the answer.
    Memory,
}

impl ConfigError {
    /// The name by which the fault is printed, as `WrongType`.
    pub fn name(&self) -> &'static str
        ensures { result.now ≡ error_name self.now }
    {
        match self {
            ConfigError::NotJson => "NotJson",
            ConfigError::Missing => "Missing",
            ConfigError::WrongType => "WrongType",
            ConfigError::Twice => "Twice",
            ConfigError::UnknownKind => "UnknownKind",
            ConfigError::CodeTwice => "CodeTwice",
            ConfigError::TooManyKinds => "TooManyKinds",
            ConfigError::Memory => "Memory",
        }
    }
}

impl fmt::Display for ConfigError {
    ghost use Rattle.std.specs.Prelude.{Some};
    ghost use Rattle.std.specs.Fmt.{styled_text};
    ghost use Rattle.taint_config.specs.ErrorNames.{error_name};

    ghost output = { λ e. Some (error_name e) };

    ghost styled_output = { λ e style. Some (styled_text style (error_name e)) };

    fn fmt<W: fmt::Write>(&self, f: &mut fmt::Formatter<W>) -> fmt::Result {
        f.pad(self.name())
    }
}

impl Error for ConfigError {}

impl From<AllocError> for ConfigError {
    ghost from_gives = { λ _ fault. fault ≡ Memory };

    fn from(_error: AllocError) -> ConfigError {
        ConfigError::Memory
    }
}

impl<T: Drop> From<AllocFailed<T>> for ConfigError {
    ghost from_gives = { λ _ fault. fault ≡ Memory };

    fn from(_error: AllocFailed<T>) -> ConfigError {
        ConfigError::Memory
    }
}

impl From<rv_names::Memory> for ConfigError {
    ghost from_gives = { λ _ fault. fault ≡ Memory };

    fn from(_error: rv_names::Memory) -> ConfigError {
        ConfigError::Memory
    }
}
