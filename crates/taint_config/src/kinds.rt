//! The names of sources and sinks.

ghost use Rattle.std.specs.Prelude.{◌≡◌, IfOk};
ghost use Rattle.std.specs.List.{list_all};
ghost use Rattle.serde_json.specs.View.{view};
ghost use Rattle.taint_config.specs.Kinds.{continues_kind, is_ascii_identifier, is_kind, kind_of};
ghost use Rattle.taint_config.specs.Reading.{Gives, kind_read, kind_step, kinds_read};

use crate::ConfigError;
use crate::fields::{comment, field, list, object, string};
use indexmap::IndexSet;
use rv_names::{Memory, Name, NameFault};
use serde_json::Value;
use std::alloc::Global;

fn continues(text: &str) -> bool
    ensures { result ≡ list_all continues_kind text.now }
{
    text.bytes()
        .all(|byte| byte.is_ascii_alphanumeric() || byte == b'_')
}

fn is_ascii_identifier(text: &str) -> bool
    ensures { result ≡ is_ascii_identifier text.now }
{
    match text.as_bytes() {
        [] => false,
        [first, ..] => (first.is_ascii_alphabetic() || *first == b'_') && continues(text),
    }
}

#[tactic(auto, unfolding(crate::specs::Kinds::is_kind))]
fn is_kind(text: &str) -> bool
    ensures { result ≡ is_kind text.now }
{
    text.len() <= 64 && is_ascii_identifier(text)
}

/// The text as the name of a source or a sink: an ASCII identifier of at most 64 characters. A keyword is one too.
pub fn kind(alloc: Global, text: &str) -> Result<Option<Name>, Memory>
    ensures { IfOk result (λ o. o ≡ kind_of text.now) }
{
    if !is_kind(text) {
        return Ok(None);
    }
    match Name::read(alloc, text) {
        Ok(name) => Ok(Some(name)),
        // It never comes, since ASCII is in NFKC.
        Err(NameFault::NotIdent) => Ok(None),
        Err(NameFault::Memory) => Err(Memory),
    }
}

fn kind_name(alloc: Global, value: &Value) -> Result<Name, ConfigError>
    ensures { Gives (λ x. x) result (kind_read (view value.now)) }
{
    let text = string(value)?;
    match kind(alloc, text)? {
        Some(name) => Ok(name),
        None => Err(ConfigError::WrongType),
    }
}

#[tactic(auto, unfolding(crate::specs::Reading::kind_step))]
fn add_kind(alloc: Global, item: &Value, kinds: &mut IndexSet<Name>) -> Result<(), ConfigError>
    ensures { Gives (λ _. kinds.new.keys) result (kind_step kinds.old.keys (view item.now)) }
{
    object(item)?;
    let name = kind_name(alloc, field(item, "name")?)?;
    if !kinds.insert(name)? {
        return Err(ConfigError::Twice);
    }
    comment(item)?;
    Ok(())
}

/// The sources or the sinks, which are found by their hashes.
pub fn kinds(alloc: Global, value: &Value) -> Result<IndexSet<Name>, ConfigError>
    ensures { Gives (λ s. s.keys) result (kinds_read (view value.now)) }
{
    let mut kinds = IndexSet::new(alloc);
    for item in list(value)? {
        add_kind(alloc, item, &mut kinds)?;
    }
    Ok(kinds)
}
