//! The notes of a configuration: the keys that are ignored.

ghost use Rattle.std.specs.Prelude.{◌≡◌, ◌++◌, map, OnOk, IfOk};
ghost use Rattle.std.specs.List.{list_any, flat_map};
ghost use Rattle.rv_names.specs.Keys.{bytes_equal};
ghost use Rattle.serde_json.specs.View.{view, members_view};
ghost use Rattle.taint_config.specs.Values.{list_at, values_in, member_keys};
ghost use Rattle.taint_config.specs.Config.{ignored, ignored_of, notes_of};
ghost use Rattle.taint_config.specs.Shapes.{known_keys};

use rv_names::{Memory, Text};
use serde_json::{Map, Value};
use std::alloc::Global;

/// An object of a configuration, which has its own keys.
#[derive(Clone, Copy)]
enum Shape {
    Config,
    Named,
    Rule,
}

fn is_known(shape: Shape, key: &str) -> bool
    ensures { result ≡ list_any (bytes_equal key.now) (known_keys shape) }
{
    match shape {
        Shape::Config => (key == "sources")
            | (key == "sinks")
            | (key == "rules")
            | (key == "features"),
        Shape::Named => (key == "name") | (key == "comment"),
        Shape::Rule => (key == "name")
            | (key == "code")
            | (key == "sources")
            | (key == "sinks")
            | (key == "message_format"),
    }
}

fn note_members(
    alloc: Global,
    members: &Map<String, Value>,
    shape: Shape,
    notes: &mut Vec<Text>,
) -> Result<(), Memory>
    ensures { OnOk result (notes.new.items ≡ notes.old.items ++ ignored_of (known_keys shape) (member_keys (members_view members.now.entries))) }
{
    for (key, _) in members.iter() {
        let key = key.as_str();
        if !is_known(shape, key) {
            notes.push(Text::read(alloc, key)?)?;
        }
    }
    Ok(())
}

fn note_object(
    alloc: Global,
    object: &Value,
    shape: Shape,
    notes: &mut Vec<Text>,
) -> Result<(), Memory>
    ensures { OnOk result (notes.new.items ≡ notes.old.items ++ ignored (known_keys shape) (view object.now)) }
{
    match object.as_object() {
        Some(members) => note_members(alloc, members, shape, notes),
        None => Ok(()),
    }
}

fn note_items(
    alloc: Global,
    items: &[Value],
    shape: Shape,
    notes: &mut Vec<Text>,
) -> Result<(), Memory>
    ensures { OnOk result (notes.new.items ≡ notes.old.items ++ flat_map (ignored (known_keys shape)) (map view items.now)) }
{
    for item in items {
        note_object(alloc, item, shape, notes)?;
    }
    Ok(())
}

fn note_list(alloc: Global, list: &Value, shape: Shape, notes: &mut Vec<Text>) -> Result<(), Memory>
    ensures { OnOk result (notes.new.items ≡ notes.old.items ++ flat_map (ignored (known_keys shape)) (values_in (view list.now))) }
{
    match list.as_array() {
        Some(items) => note_items(alloc, items.as_slice(), shape, notes),
        None => Ok(()),
    }
}

fn note_field(
    alloc: Global,
    config: &Value,
    key: &str,
    shape: Shape,
    notes: &mut Vec<Text>,
) -> Result<(), Memory>
    ensures { OnOk result (notes.new.items ≡ notes.old.items ++ flat_map (ignored (known_keys shape)) (list_at key.now (view config.now))) }
{
    match config.get(key) {
        Some(list) => note_list(alloc, list, shape, notes),
        None => Ok(()),
    }
}

/// The ignored keys: of the configuration, then of each source, sink, rule and feature.
pub fn notes(alloc: Global, config: &Value) -> Result<Vec<Text>, Memory>
    ensures { IfOk result (λ v. v.items ≡ notes_of (view config.now)) }
{
    let mut notes = Vec::new(alloc);
    note_object(alloc, config, Shape::Config, &mut notes)?;
    note_field(alloc, config, "sources", Shape::Named, &mut notes)?;
    note_field(alloc, config, "sinks", Shape::Named, &mut notes)?;
    note_field(alloc, config, "rules", Shape::Rule, &mut notes)?;
    note_field(alloc, config, "features", Shape::Named, &mut notes)?;
    Ok(notes)
}
