//! What one file is of the counts of a project.

ghost use Rattle.std.specs.Prelude.{◌≡◌, ◌≤◌, cond};
ghost use Rattle.std.specs.Option.{option_copied};
ghost use Rattle.project.specs.Callables.{capped, item_callables};
ghost use Rattle.project.specs.Files.{first_past};
ghost use Rattle.project.specs.Sums.{replaced, text_at};

use crate::faults::Which;
use crate::file::File;
use crate::limits::{FILES_LIMIT, TEXT_LIMIT};

/// The first of the counts of files and of text that is past its limit.
pub fn first_past(files: usize, text: u64) -> Option<Which>
    ensures { result ≡ first_past files text }
{
    if files > FILES_LIMIT {
        Some(Which::Files)
    } else if text > TEXT_LIMIT {
        Some(Which::Text)
    } else {
        None
    }
}

/// The callables that a file gives the project, where it is hidden and where it isn't.
pub fn shown(hidden: bool, file: &File) -> u64
    ensures value { result ≡ cond hidden 0 (capped (item_callables file.now.item)) }
    ensures small { result ≤ 4294967295 }
{
    if hidden { 0 } else { file.callables() as u64 }
}

/// The bytes of the text of the file that stands at a path, where one does.
pub fn text_at(file: Option<&File>) -> u64
    ensures value { result ≡ text_at (option_copied file.entry) }
{
    match file {
        None => 0,
        Some(file) => file.len() as u64,
    }
}

/// The callables that go as a file is put: those of the one that it replaces, or else those `beneath`, which it hides.
pub fn replaced(hidden: bool, beneath: u64, old: Option<&File>) -> u64
    ensures value { result ≡ replaced hidden beneath (option_copied old.entry) }
{
    match old {
        None => beneath,
        Some(old) => shown(hidden, old),
    }
}

/// The bytes of the text and the callables that go as a file is put, by the one that stood at its path.
pub fn gone(hidden: bool, beneath: u64, old: Option<File>) -> (u64, u64)
    ensures text { result.0 ≡ text_at old }
    ensures given { result.1 ≡ replaced hidden beneath old }
{
    let old = old.as_ref();
    (text_at(old), replaced(hidden, beneath, old))
}
