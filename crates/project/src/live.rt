//! Values by path. For any type, so that a proof knows nothing of how one is dropped.

ghost use Rattle.std.specs.Prelude.{◌≡◌, IfOk, OnOk, OnErr, is_some};
ghost use Rattle.std.specs.Map.{lookup, remove_entry};
ghost use Rattle.std.specs.BTreeMap.{IsUnchanged, insert_entry, is_at};
ghost use Rattle.rv_names.specs.Keys.{bytes_order};

use rv_names::{Memory, Text};
use std::collections::BTreeMap;

/// Puts a value at a path, and gives the one that stood there. Where there is no memory, nothing changes.
pub fn placed<V: Drop>(
    live: &mut BTreeMap<Text, V>,
    path: Text,
    value: V,
) -> Result<Option<V>, Memory>
    ensures old { IfOk result (λ old. old ≡ lookup (is_at (bytes_order path)) live.old.entries) }
    ensures entries { OnOk result (live.new.entries ≡ insert_entry bytes_order live.old.entries path value) }
    ensures err { OnErr result (IsUnchanged live.old live.new) }
{
    match live.insert(path, value) {
        Ok(old) => Ok(old),
        Err(_) => Err(Memory),
    }
}

/// Takes the value at a path away: false exactly where there is none.
pub fn taken<V: Drop>(live: &mut BTreeMap<Text, V>, path: &Text) -> bool
    ensures entries { live.new.entries ≡ remove_entry (is_at (bytes_order path.now)) live.old.entries }
    ensures live { result ≡ is_some (lookup (is_at (bytes_order path.now)) live.old.entries) }
{
    live.remove(path).is_some()
}
