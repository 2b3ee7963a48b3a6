//! The issues of nests of calls.

ghost use Rattle.std.specs.Prelude.{◌≡◌, ◌++◌, OnOk};
ghost use Rattle.cut_form.specs.Issues.{has_label, issue_at, issues_in};

use crate::declarations::{is_input, is_os_system};
use crate::nests::Call;
use py_literals::place::Pos;
use sqlite_items::Items;
use std::alloc::AllocError;

/// Whether the value of a nest has the label of the source.
fn has_label(calls: &[Call]) -> bool
    ensures { result ≡ has_label calls.now }
{
    calls.iter().any(|call| is_input(&call.names))
}

/// Adds the place of the call's issue, if it has one.
fn push_if_issue(call: &Call, argument: &[Call], places: &mut Items<Pos>) -> Result<(), AllocError>
    ensures { OnOk result (places.new ≡ places.old ++ issue_at call.now argument.now) }
{
    if is_os_system(&call.names) && has_label(argument) {
        places.push(call.at)?;
    }
    Ok(())
}

/// Adds the places of the issues of a nest. The cost is quadratic in the nest.
pub fn push_issues(calls: &[Call], places: &mut Items<Pos>) -> Result<(), AllocError>
    ensures { OnOk result (places.new ≡ places.old ++ issues_in calls.now) }
{
    for (index, call) in calls.iter().enumerate() {
        push_if_issue(call, &calls[index + 1..], places)?;
    }
    Ok(())
}
