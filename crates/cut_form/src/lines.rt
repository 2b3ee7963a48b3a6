//! The lines of a report.

ghost use Rattle.std.specs.Prelude.{◌≡◌, ◌++◌, IfOk, OnOk};
ghost use Rattle.std.specs.Fmt.{decimal};
ghost use Rattle.cut_form.specs.Reports.{issue_line, lines_of, report_parts, report_value};

use py_literals::place::Pos;
use rv_names::Text;
use std::alloc::{AllocError, Global};

/// What is reported of live files.
#[derive(Drop)]
pub struct Report {
    /// `issues COUNT` and a line for each issue, each with its line end.
    pub lines: Vec<u8>,
    /// Whether there is an issue.
    pub has_issues: bool,
}

fn push_number(lines: &mut Vec<u8>, number: usize) -> Result<(), AllocError>
    ensures { OnOk result (lines.new.items ≡ lines.old.items ++ decimal number) }
{
    let alloc = *lines.allocator();
    let decimal = number.to_string(alloc)?;
    lines.extend_from_slice(decimal.as_bytes())?;
    Ok(())
}

/// Adds the line of an issue.
fn push_issue(lines: &mut Vec<u8>, function: &Text, at: Pos) -> Result<(), AllocError>
    ensures { OnOk result (lines.new.items ≡ lines.old.items ++ issue_line function.now at) }
{
    lines.extend_from_slice(b"app.py:")?;
    push_number(lines, at.line as usize)?;
    lines.extend_from_slice(b":")?;
    push_number(lines, at.col as usize)?;
    lines.extend_from_slice(b" 5001 app.")?;
    lines.extend_from_slice(function.as_str().as_bytes())?;
    lines.extend_from_slice(
        b" UserControlled:input RemoteCodeExecution:os.system Data from UserControlled may reach RemoteCodeExecution\n",
    )?;
    Ok(())
}

/// The number of issues, and a line for each.
fn lines_of(alloc: Global, function: &Text, places: &[Pos]) -> Result<Vec<u8>, AllocError>
    ensures { IfOk result (λ lines. lines.items ≡ lines_of function.now places.now) }
{
    let mut lines = Vec::new(alloc);
    lines.extend_from_slice(b"issues ")?;
    push_number(&mut lines, places.len())?;
    lines.extend_from_slice(b"\n")?;
    for place in places {
        push_issue(&mut lines, function, *place)?;
    }
    Ok(lines)
}

/// What is reported of a function with issues at these places.
pub fn report_parts(alloc: Global, function: &Text, places: &[Pos]) -> Result<Report, AllocError>
    ensures { IfOk result (λ report. report_value report ≡ report_parts function.now places.now) }
{
    let lines = lines_of(alloc, function, places)?;
    Ok(Report {
        lines,
        has_issues: !places.is_empty(),
    })
}
