//! What a file is.

ghost use Rattle.std.specs.Prelude.{◌≡◌, ◌≢◌, ◌≤◌, IfOk, IfErr, length};
ghost use Rattle.project.specs.Items.{Fits};
ghost use Rattle.project.specs.Limits.{file_limit};
ghost use Rattle.front.specs.Reading.{Accepted, FailsAsConfiguration, FailsAsModels, FailsAsPython, FailsAt, IsConfiguration, IsModels, IsPython, IsText, Misplaced, ReadsAt, Refused, StandsAs, Unread};
ghost use Rattle.front.specs.declared.faults.ReadFault.TheVariants.{Memory};

use crate::faults::ReadFault;
use project::{FILE_LIMIT, Item, Place, place_of_path};
use py_lexer::Scratch;
use py_parser::{FileError, parse_with};
use pysa_syntax::{ModelError, read_models};
use simdutf8::basic::from_utf8;
use std::alloc::Global;
use std::sync::Arc;
use taint_config::{ConfigError, read_config};

/// Which kind of file may stand at the path: `BadPath` where none may.
fn place_at(path: &str) -> Result<Place, ReadFault>
    ensures place { IfOk result (StandsAs path.now) }
    ensures refused { IfErr result (λ fault. fault ≢ Memory → Misplaced path.now fault) }
{
    match place_of_path(path) {
        Some(place) => Ok(place),
        None => Err(ReadFault::BadPath),
    }
}

/// The text of a file: `TooLarge` where it has more than 1 MiB, and else `NotUtf8` where it isn't in UTF-8. Linear in the bytes.
fn text_of(bytes: &[u8]) -> Result<&str, ReadFault>
    ensures same { IfOk result (λ text. text.now ≡ bytes.now) }
    ensures text { IfOk result (λ text. IsText bytes.now) }
    ensures refused { IfErr result (Unread bytes.now) }
{
    if bytes.len() > FILE_LIMIT {
        return Err(ReadFault::TooLarge);
    }
    match from_utf8(bytes) {
        Ok(text) => Ok(text),
        Err(_) => Err(ReadFault::NotUtf8),
    }
}

/// The module of a Python file.
fn module_item(alloc: Global, scratch: &mut Scratch, text: &str) -> Result<Item, ReadFault>
    requires { length text.now ≤ file_limit }
    ensures accepted { IfOk result (IsPython text.now) }
    ensures refused { IfErr result (λ fault. fault ≢ Memory → FailsAsPython text.now fault) }
{
    match parse_with(alloc, scratch, text) {
        Ok(parsed) => Ok(Item::Module(Arc::new(alloc, parsed)?)),
        Err(FileError::Memory) => Err(ReadFault::Memory),
        Err(fault) => Err(ReadFault::Python(fault)),
    }
}

/// The models of a model file.
fn models_item(alloc: Global, text: &str) -> Result<Item, ReadFault>
    requires { length text.now ≤ file_limit }
    ensures accepted { IfOk result (IsModels text.now) }
    ensures refused { IfErr result (λ fault. fault ≢ Memory → FailsAsModels text.now fault) }
{
    match read_models(alloc, text) {
        Ok(decls) => Ok(Item::Models(Arc::new(alloc, decls)?)),
        Err(ModelError::Memory) => Err(ReadFault::Memory),
        Err(fault) => Err(ReadFault::Models(fault)),
    }
}

/// The configuration of its file.
fn config_item(alloc: Global, bytes: &[u8]) -> Result<Item, ReadFault>
    ensures accepted { IfOk result (IsConfiguration bytes.now) }
    ensures refused { IfErr result (λ fault. fault ≢ Memory → FailsAsConfiguration bytes.now fault) }
{
    match read_config(alloc, bytes) {
        Ok(config) => Ok(Item::Config(Arc::new(alloc, config)?)),
        Err(ConfigError::Memory) => Err(ReadFault::Memory),
        Err(fault) => Err(ReadFault::Config(fault)),
    }
}

/// The item that the text is, by what stands at its path.
fn item_as(
    alloc: Global,
    scratch: &mut Scratch,
    place: Place,
    text: &str,
) -> Result<Item, ReadFault>
    requires { length text.now ≤ file_limit }
    ensures accepted { IfOk result (ReadsAt place text.now) }
    ensures refused { IfErr result (λ fault. fault ≢ Memory → FailsAt place text.now fault) }
{
    match place {
        Place::Module => module_item(alloc, scratch, text),
        Place::Models => models_item(alloc, text),
        Place::Config => config_item(alloc, text.as_bytes()),
    }
}

/// The item of a project that the file with these bytes at the path is, or the first cause for which it is refused:
///
/// * `BadPath`: nothing may stand at the path (`project::kind_of_path`);
/// * `TooLarge`: it has more than 1 MiB, which is 1,048,576 bytes;
/// * `NotUtf8`: the bytes are no text in UTF-8 (RFC 3629);
/// * `Python`, `Models` or `Config`: the one fault of the text, as the reader of such a file tells it (`py_parser::parse`,
///   `pysa_syntax::read_models`, `taint_config::read_config`);
/// * `Memory` comes only where there is no memory left, at any point; a reader's own `Memory` is this one.
///
/// The text of a Python file is copied; of the others nothing of the bytes is kept but names and strings. Linear in the path and
/// the bytes, but for the hashes of names and for the sorting of the keys of each object of a configuration.
pub fn read_file(alloc: Global, path: &str, bytes: &[u8]) -> Result<Item, ReadFault>
    ensures accepted { IfOk result (Accepted path.now bytes.now) }
    ensures fits { IfOk result (Fits path.now) }
    ensures refused { IfErr result (λ fault. fault ≢ Memory → Refused path.now bytes.now fault) }
{
    let mut scratch = Scratch::new(alloc);
    read_file_with(alloc, &mut scratch, path, bytes)
}

/// What `read_file` answers. Python files are read in the room that the scratch keeps from one to the next.
#[tactic(auto, using(crate::proofs::Files::accepted, crate::proofs::Files::fits, crate::proofs::Files::misplaced, crate::proofs::Files::misread, crate::proofs::Files::unreadable))]
pub fn read_file_with(
    alloc: Global,
    scratch: &mut Scratch,
    path: &str,
    bytes: &[u8],
) -> Result<Item, ReadFault>
    ensures accepted { IfOk result (Accepted path.now bytes.now) }
    ensures fits { IfOk result (Fits path.now) }
    ensures refused { IfErr result (λ fault. fault ≢ Memory → Refused path.now bytes.now fault) }
{
    let place = place_at(path)?;
    let text = text_of(bytes)?;
    item_as(alloc, scratch, place, text)
}
