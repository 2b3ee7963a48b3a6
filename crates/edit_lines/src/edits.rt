//! What an edit came to.

ghost use Rattle.std.specs.Prelude.{◌≡◌, IfOk, string_bytes};
ghost use Rattle.edit_lines.specs.Lines.{fault_line, full_line, kept_line, misread_line, which_name};

use front::ReadFault;
use journal::EditFault;
use project::Which;
use rv_names::{Memory, Text};
use std::alloc::Global;

/// How many bytes the line of an edit that was kept has at most.
const KEPT_ROOM: usize = 16;

/// The line of an edit that was kept, as `edit 7`: it is the one with this number, from 1.
pub fn kept_line(alloc: Global, number: u32) -> Result<String, Memory>
    ensures { IfOk result (λ line. string_bytes line ≡ kept_line number) }
{
    let mut line = String::with_capacity(alloc, KEPT_ROOM)?;
    write!(line, "edit {number}\n")?;
    Ok(line)
}

/// The line of an edit whose file is refused, as `refused app.py:3:5 BadDedent`: the file's path, and the fault with its
/// place.
pub fn misread_line(alloc: Global, path: &Text, fault: &ReadFault) -> Result<String, Memory>
    ensures { IfOk result (λ line. string_bytes line ≡ misread_line path.now fault.now) }
{
    Ok(format!(in alloc; "refused {path}:{fault}\n")?)
}

/// The line of an edit that the journal refused: `absent app.py` where no file is live at the path that is dropped, and
/// else what is full, as `full callables`. Want of memory has none: the string is empty.
pub fn fault_line(alloc: Global, path: &Text, fault: EditFault) -> Result<String, Memory>
    ensures { IfOk result (λ line. string_bytes line ≡ fault_line path.now fault) }
{
    match fault {
        EditFault::JournalFull => full_line(alloc, "journal"),
        EditFault::NotThere { number: _ } => Ok(format!(in alloc; "absent {path}\n")?),
        EditFault::ProjectFull(which) => full_line(alloc, which_name(which)),
        EditFault::Memory => Ok(String::new(alloc)),
    }
}

/// The name of a count that has a limit.
fn which_name(which: Which) -> &'static str
    ensures { result.now ≡ which_name which }
{
    match which {
        Which::Files => "files",
        Which::Text => "text",
        Which::Callables => "callables",
    }
}

/// The line of an edit for which there is no room, with the name of what is full.
fn full_line(alloc: Global, name: &str) -> Result<String, Memory>
    ensures { IfOk result (λ line. string_bytes line ≡ full_line name.now) }
{
    Ok(format!(in alloc; "full {name}\n")?)
}
