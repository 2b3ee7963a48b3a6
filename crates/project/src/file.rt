//! An item at a path.

ghost use Rattle.std.specs.Prelude.{◌≡◌, ◌<◌, ◌^◌, IfOk};
ghost use Rattle.std.specs.Arc.{arc_value};
ghost use Rattle.project.specs.Callables.{capped, item_callables};
ghost use Rattle.project.specs.Files.{file_at, hides};
ghost use Rattle.project.specs.Items.{Fits};
ghost use Rattle.project.specs.Paths.{neighbour_of};

use crate::item::Item;
use crate::neighbour::{Neighbour, neighbour_at};
use crate::together::{all_three, as_memory, both};
use rv_names::{Memory, Text};
use std::alloc::{AllocError, Global};
use std::marker::Model;
use std::sync::Arc;

/// A live file: where it stands, what it is read as, which it shares, and the length of its text in bytes.
///
/// Its path is one at which such an item may stand.
#[derive(Drop)]
pub struct File {
    path: Text,
    item: Arc<Item>,
    len: u32,
    callables: u32,
    neighbour: Neighbour,
}

impl Model for File {
    ghost use Rattle.std.specs.Arc.{arc_value};
    ghost use Rattle.std.specs.Coded.{codes};
    ghost use Rattle.project.specs.Items.{FileParts};
    ghost use Rattle.project.specs.contracts.item.Item as item_row;

    ghost Value = { FileParts };

    ghost coded = { Prim.hlevel (codes, item_row.the_row.coded) };

    ghost use Rattle.project.specs.Files.{IsFile};

    ghost view = { λ f. record { path = f.path; item = arc_value f.item; len = f.len } };

    ghost invariant = { λ f. IsFile f.path (arc_value f.item) f.callables f.neighbour };
}

impl File {
    /// The item at the path, where its text has `len` bytes. Linear in the path, and in the top level of a module and the bodies of
    /// its classes.
    pub(crate) fn new(alloc: Global, path: Text, item: Arc<Item>, len: u32) -> Result<File, Memory>
        requires { Fits path (arc_value item) }
        ensures { IfOk result (λ f. f ≡ file_at path (arc_value item) len) }
    {
        let neighbour = neighbour_at(alloc, path.as_str())?;
        let callables = item.callables();
        Ok(File {
            path,
            item,
            len,
            callables,
            neighbour,
        })
    }

    /// What `new` gives of the same path and item, which it shares.
    pub(crate) fn shared(
        alloc: Global,
        path: &Text,
        item: &Arc<Item>,
        len: u32,
    ) -> Result<File, Memory>
        requires { Fits path.now (arc_value item.now) }
        ensures { IfOk result (λ f. f ≡ file_at path.now (arc_value item.now) len) }
    {
        let (path, item) = both(path.copy(), as_memory(Arc::try_clone(item)))?;
        File::new(alloc, path, item, len)
    }

    /// Its path.
    pub fn path(&self) -> &Text
        ensures { result.now ≡ self.now.path }
    {
        &self.path
    }

    /// What it is read as.
    pub fn item(&self) -> &Arc<Item>
        ensures item { arc_value result.now ≡ self.now.item }
        ensures fits { Fits self.now.path self.now.item }
    {
        &self.item
    }

    /// The length of its text in bytes.
    pub fn len(&self) -> u32
        ensures { result ≡ self.now.len }
    {
        self.len
    }

    /// How many callables it has, and at most the greatest `u32`.
    pub(crate) fn callables(&self) -> u32
        ensures { result ≡ capped (item_callables self.now.item) }
    {
        self.callables
    }

    /// The other file that would be the same module.
    pub(crate) fn neighbour(&self) -> &Neighbour
        ensures { result.now ≡ neighbour_of self.now.path }
    {
        &self.neighbour
    }

    /// Whether it hides another file while that is live.
    pub(crate) fn hides(&self) -> bool
        ensures { result ≡ hides (neighbour_of self.now.path) }
    {
        match &self.neighbour {
            Neighbour::Hidden(_) => true,
            Neighbour::Hider(_) => false,
            Neighbour::Nobody => false,
        }
    }

    /// The same file, which shares its item and its paths. It costs a few counters.
    pub fn copy(&self) -> Result<File, Memory>
        ensures { IfOk result (λ f. f ≡ self.now) }
    {
        let (path, item, neighbour) = all_three(
            self.path.copy(),
            as_memory(Arc::try_clone(&self.item)),
            self.neighbour.copy(),
        )?;
        Ok(File {
            path,
            item,
            len: self.len,
            callables: self.callables,
            neighbour,
        })
    }
}

impl Clone for File {
    ghost use Rattle.std.specs.Prelude.{◌≡◌};

    ghost is_clone = { λ f copy. copy ≡ f };

    fn clone(&self) -> Result<File, AllocError> {
        match self.copy() {
            Ok(file) => Ok(file),
            Err(Memory) => Err(AllocError),
        }
    }
}
