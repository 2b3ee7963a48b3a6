//! The calls and draws of a run, from a JSON text: a list of two, the list of the calls and the list of the draws.
//!
//! A call is a list of two: a name, and the list of its arguments. A plain value is a whole number of 64 bits, a string,
//! `true`, `false`, `null`, or `{}` for an external object.

ghost use Rattle.std.specs.Prelude.{◌≡◌, option_and_then};
ghost use Rattle.serde_json.specs.Find.{as_array, as_object};
ghost use Rattle.serde_json.specs.View.{view, items_view, members_view};
ghost use Rattle.script.specs.Reading.{Gives, or_malformed, run_parts, run_read};
ghost use Rattle.script.specs.Runs.{plain_of, external_of, values_of, entry_of, calls_of, pair_of, value_in, whole_of, view_pair};

use crate::faults::{Fault, Stop};
use crate::values::{Calls, Entry, Plain, Values};
use rv_names::Text;
use serde_json::{Map, Value};
use std::alloc::Global;

fn plain(alloc: Global, value: &Value) -> Result<Plain, Stop>
    ensures { Gives (λ p. p) result (or_malformed (plain_of (view value.now))) }
{
    match value {
        Value::Null => Ok(Plain::Nothing),
        Value::Bool(truth) => Ok(Plain::Truth(*truth)),
        Value::Number(number) => whole(number.as_i64(), number.as_u64()),
        Value::String(text) => Ok(Plain::Str(Text::read(alloc, text.as_str())?)),
        Value::Array(_) => Err(Stop::Fault(Fault::Malformed)),
        Value::Object(_) => external(value),
    }
}

/// An object without members.
fn external(value: &Value) -> Result<Plain, Stop>
    ensures { Gives (λ p. p) result (or_malformed (option_and_then external_of (as_object (view value.now)))) }
{
    match value.as_object() {
        Some(members) => no_member(members),
        None => Err(Stop::Fault(Fault::Malformed)),
    }
}

#[tactic(auto, using(crate::proofs::Json::no_members_in, crate::proofs::Json::some_members))]
fn no_member(members: &Map<String, Value>) -> Result<Plain, Stop>
    ensures { Gives (λ p. p) result (or_malformed (external_of (members_view members.now.entries))) }
{
    if members.is_empty() {
        Ok(Plain::External)
    } else {
        Err(Stop::Fault(Fault::Malformed))
    }
}

/// A number, from what it is with a sign and without one.
fn whole(signed: Option<i64>, unsigned: Option<u64>) -> Result<Plain, Stop>
    ensures { Gives (λ p. p) result (or_malformed (whole_of signed unsigned)) }
{
    if let Some(number) = signed {
        return Ok(Plain::Int(i128::from(number)));
    }
    match unsigned {
        Some(number) => Ok(Plain::Int(i128::from(number))),
        None => Err(Stop::Fault(Fault::Malformed)),
    }
}

fn values(alloc: Global, value: &Value) -> Result<Values, Stop>
    ensures { Gives (λ v. v) result (or_malformed (values_of (view value.now))) }
{
    let list = list(value)?;
    let mut values = Vec::with_capacity(alloc, list.len())?;
    for value in list {
        values.push(plain(alloc, value)?)?;
    }
    Ok(Values::new(values))
}

fn list(value: &Value) -> Result<&[Value], Stop>
    ensures { Gives (λ x. items_view x.now) result (or_malformed (as_array (view value.now))) }
{
    match value.as_array() {
        Some(items) => Ok(items.as_slice()),
        None => Err(Stop::Fault(Fault::Malformed)),
    }
}

/// The two items of a list of two.
fn pair(value: &Value) -> Result<(&Value, &Value), Stop>
    ensures { Gives view_pair result (or_malformed (pair_of (view value.now))) }
{
    match list(value)? {
        [first, second] => Ok((first, second)),
        [] => Err(Stop::Fault(Fault::Malformed)),
        [_] => Err(Stop::Fault(Fault::Malformed)),
        [_, _, _, ..] => Err(Stop::Fault(Fault::Malformed)),
    }
}

fn entry(alloc: Global, value: &Value) -> Result<Entry, Stop>
    ensures { Gives (λ e. e) result (or_malformed (entry_of (view value.now))) }
{
    let (name, args) = pair(value)?;
    let Some(name) = name.as_str() else {
        return Err(Stop::Fault(Fault::Malformed));
    };
    let name = Text::read(alloc, name)?;
    let args = values(alloc, args)?;
    Ok(Entry { name, args })
}

fn calls(alloc: Global, value: &Value) -> Result<Calls, Stop>
    ensures { Gives (λ c. c) result (or_malformed (calls_of (view value.now))) }
{
    let list = list(value)?;
    let mut calls = Vec::with_capacity(alloc, list.len())?;
    for value in list {
        calls.push(entry(alloc, value)?)?;
    }
    Ok(Calls::new(calls))
}

/// The value that a JSON text spells.
fn parsed(alloc: Global, json: &[u8]) -> Result<Value, Stop>
    ensures { Gives view result (or_malformed (value_in json.now)) }
{
    match Value::from_slice(alloc, json) {
        Ok(value) => Ok(value),
        Err(error) => {
            if error.is_memory() {
                return Err(Stop::Memory);
            }
            Err(Stop::Fault(Fault::Malformed))
        }
    }
}

#[tactic(auto, unfolding(crate::specs::Reading::run_parts))]
fn parts(alloc: Global, value: &Value) -> Result<(Calls, Values), Stop>
    ensures { Gives (λ r. (r.0, r.1)) result (run_parts (view value.now)) }
{
    let (first, second) = pair(value)?;
    let calls = calls(alloc, first)?;
    let draws = values(alloc, second)?;
    Ok((calls, draws))
}

/// The calls and draws that a JSON text spells.
#[tactic(auto, unfolding(crate::specs::Reading::run_read))]
pub fn run_of(alloc: Global, json: &[u8]) -> Result<(Calls, Values), Stop>
    ensures { Gives (λ r. (r.0, r.1)) result (run_read json.now) }
{
    let value = parsed(alloc, json)?;
    parts(alloc, &value)
}
