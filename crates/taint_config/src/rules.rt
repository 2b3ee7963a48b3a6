//! The rules.

ghost use Rattle.std.specs.Prelude.{◌≡◌, IfOk, is_some, map};
ghost use Rattle.std.specs.List.{list_all};
ghost use Rattle.serde_json.specs.Find.{as_str};
ghost use Rattle.serde_json.specs.View.{view};
ghost use Rattle.taint_config.specs.Reading.{Gives, number_read, numbers_read, strings_read, rule_read, rules_read, place_of};

use crate::fields::{code, field, list, object, string, text};
use crate::kinds::kind;
use crate::{ConfigError, Rule};
use indexmap::IndexSet;
use rv_names::{Memory, Name};
use serde_json::Value;
use std::alloc::Global;

/// The place of a name among the sources or the sinks.
fn place(alloc: Global, names: &IndexSet<Name>, text: &str) -> Result<Option<usize>, Memory>
    ensures { IfOk result (λ o. o ≡ place_of names.now.keys text.now) }
{
    match kind(alloc, text)? {
        Some(name) => Ok(names.get_index_of(&name)),
        None => Ok(None),
    }
}

/// The number of a kind. Where there are too many kinds it stands still, and the configuration is refused at its end.
#[tactic(auto, unfolding(crate::specs::Reading::number_read))]
fn number(
    alloc: Global,
    names: &IndexSet<Name>,
    first: usize,
    item: &Value,
) -> Result<u8, ConfigError>
    ensures { Gives (λ n. n) result (number_read first names.now.keys (view item.now)) }
{
    let text = string(item)?;
    match place(alloc, names, text)? {
        Some(place) => Ok(first.saturating_add(place).min(255) as u8),
        None => Err(ConfigError::UnknownKind),
    }
}

fn are_texts(items: &[Value]) -> bool
    ensures { result ≡ list_all (λ v. is_some (as_str (view v))) items.now }
{
    items.iter().all(|item| item.is_string())
}

/// The items of a list of strings.
#[tactic(auto, using(crate::proofs::Json::all_texts))]
fn strings(value: &Value) -> Result<&[Value], ConfigError>
    ensures { Gives (λ x. map view x.now) result (strings_read (view value.now)) }
{
    let items = list(value)?;
    if are_texts(items) {
        Ok(items)
    } else {
        Err(ConfigError::WrongType)
    }
}

/// The numbers of the names in a list, where the names have numbers from `first` on.
#[tactic(auto, unfolding(crate::specs::Reading::numbers_read))]
fn numbers(
    alloc: Global,
    names: &IndexSet<Name>,
    first: usize,
    value: &Value,
) -> Result<Vec<u8>, ConfigError>
    ensures { Gives (λ v. v.items) result (numbers_read first names.now.keys (view value.now)) }
{
    let items = strings(value)?;
    let mut numbers = Vec::with_capacity(alloc, items.len())?;
    for item in items {
        numbers.push(number(alloc, names, first, item)?)?;
    }
    Ok(numbers)
}

#[tactic(auto, unfolding(crate::specs::Reading::rule_read))]
fn rule(
    alloc: Global,
    from: &IndexSet<Name>,
    to: &IndexSet<Name>,
    codes: &mut IndexSet<u32>,
    item: &Value,
) -> Result<Rule, ConfigError>
    ensures { Gives (λ r. (r, codes.new.keys)) result (rule_read from.now.keys to.now.keys codes.old.keys (view item.now)) }
{
    object(item)?;
    let name = text(alloc, field(item, "name")?)?;
    let code = code(field(item, "code")?)?;
    if !codes.insert(code)? {
        return Err(ConfigError::CodeTwice);
    }
    let sources = numbers(alloc, from, 0, field(item, "sources")?)?;
    let sinks = numbers(alloc, to, from.len(), field(item, "sinks")?)?;
    let message = text(alloc, field(item, "message_format")?)?;
    Ok(Rule::new(name, code, sources, sinks, message))
}

/// The rules from the sources to the sinks.
#[tactic(auto, unfolding(crate::specs::Reading::rules_read))]
pub fn rules(
    alloc: Global,
    from: &IndexSet<Name>,
    to: &IndexSet<Name>,
    value: &Value,
) -> Result<Vec<Rule>, ConfigError>
    ensures { Gives (λ v. v.items) result (rules_read from.now.keys to.now.keys (view value.now)) }
{
    let mut rules = Vec::new(alloc);
    let mut codes = IndexSet::new(alloc);
    for item in list(value)? {
        rules.push(rule(alloc, from, to, &mut codes, item)?)?;
    }
    Ok(rules)
}
