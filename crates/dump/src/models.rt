//! What a model file declares, asked name by name.

ghost use Rattle.std.specs.Prelude.{◌<◌, ◌^◌, length};

use py_literals::place::Pos;
use pysa_models::{Declared, declare};
use pysa_syntax::{Decl, ModelError, read_models};
use rv_names::{Memory, Text};
use sqlite_items::Items;
use std::alloc::Global;
use std::sync::Arc;
use taint_config::{ConfigError, read_config};

/// The configuration under which model files are read: one source and one sink.
const CONFIG: &[u8] =
    b"{\"sources\":[{\"name\":\"UserControlled\"}],\"sinks\":[{\"name\":\"RemoteCodeExecution\"}],\"rules\":[]}";

/// What a model file declares: its models, the names that they declare something of, the leaves, and the notes.
#[derive(Clone, Copy, Debug)]
pub struct Counts {
    pub models: usize,
    pub asked: usize,
    pub leaves: usize,
    pub notes: usize,
}

/// Why nothing is told.
#[derive(Clone, Copy, Debug)]
pub enum Undeclared {
    /// The model file has a fault.
    Refused,
    Memory,
}

impl From<Memory> for Undeclared {
    fn from(_error: Memory) -> Undeclared {
        Undeclared::Memory
    }
}

impl From<ModelError> for Undeclared {
    fn from(error: ModelError) -> Undeclared {
        match error {
            ModelError::Memory => Undeclared::Memory,
            _ => Undeclared::Refused,
        }
    }
}

impl From<ConfigError> for Undeclared {
    fn from(error: ConfigError) -> Undeclared {
        match error {
            ConfigError::Memory => Undeclared::Memory,
            _ => Undeclared::Refused,
        }
    }
}

/// How many of the models' names something is declared of: each is asked for by its hash.
fn count_asked(declared: &Declared, models: &[Decl]) -> usize {
    models
        .iter()
        .filter(|model| declared.of(&model.name).is_some())
        .count()
}

/// Reads a model file, and asks what it declares of each of its names.
pub fn count_declared(alloc: Global, text: &str) -> Result<Counts, Undeclared>
    requires { length text.now < 2 ^ 31 }
{
    let config = read_config(alloc, CONFIG)?;
    let models = Arc::new(alloc, read_models(alloc, text)?).map_err(Memory::from)?;
    let path = Text::read(alloc, "generated.pysa")?;
    let mut files = Vec::new(alloc);
    files
        .push((path, Arc::try_clone(&models).map_err(Memory::from)?))
        .map_err(Memory::from)?;
    let declared = declare(alloc, files.as_slice(), &config)?;
    Ok(Counts {
        models: models.len(),
        asked: count_asked(&declared, models.as_slice()),
        leaves: declared.leaves().len(),
        notes: declared.notes().len(),
    })
}
