//! The lines that tell of no edit.

ghost use Rattle.std.specs.Prelude.{◌≡◌, IfOk, string_bytes};
ghost use Rattle.edit_lines.specs.Lines.{malformed_line, not_yet_line, read_fault_line, sync_line, too_long_line};

use rv_names::Memory;
use std::alloc::Global;

/// The answer to a `sync`, as `sync 7`: so many edits are kept.
pub fn sync_line(alloc: Global, number: u32) -> Result<String, Memory>
    ensures { IfOk result (λ line. string_bytes line ≡ sync_line number) }
{
    Ok(format!(in alloc; "sync {number}\n")?)
}

/// The line of an input of which no command can come from the place `at` on, an offset in bytes from 0: `malformed 17`.
pub fn malformed_line(alloc: Global, at: usize) -> Result<String, Memory>
    ensures { IfOk result (λ line. string_bytes line ≡ malformed_line at) }
{
    Ok(format!(in alloc; "malformed {at}\n")?)
}

/// The line of a question that has no answer yet: `not yet`.
pub fn not_yet_line() -> &'static str
    ensures { result.now ≡ not_yet_line }
{
    "not yet\n"
}

/// The line of a source that failed: `read fault`.
pub fn read_fault_line() -> &'static str
    ensures { result.now ≡ read_fault_line }
{
    "read fault\n"
}

/// The line of more bytes than an input may have: `input too long`.
pub fn too_long_line() -> &'static str
    ensures { result.now ≡ too_long_line }
{
    "input too long\n"
}
