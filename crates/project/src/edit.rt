//! Edits of a project's files.

ghost use Rattle.std.specs.Prelude.{◌≡◌, ℕ};
ghost use Rattle.project.specs.declared.edit.Edit.{Edit};
ghost use Rattle.project.specs.Edits.{Hold, ItemMap, after_edit, edited};
ghost use Rattle.project.specs.Files.{FileMap};

use crate::item::Item;
use rv_names::Text;
use std::sync::Arc;

/// An edit of a project's files.
#[derive(Drop)]
pub enum Edit {
    /// The item stands at the path from now on.
    Put { path: Text, item: Arc<Item> },
    /// Nothing stands at the path from now on.
    Drop { path: Text },
}

/// A law of edits, with nothing to run: files that hold what a list of edits leaves hold what is left once one more edit is done to
/// both. So what `Files::put` and `Files::drop` make, call by call from no files on, is what the list of those edits leaves.
pub fn one_step()
    ensures { (files : FileMap) (items : ItemMap) (edit : Edit) (len : ℕ) → Hold files items → Hold (edited files edit len) (after_edit items edit) }
{}
