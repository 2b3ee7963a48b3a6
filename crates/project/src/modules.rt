//! The modules of a project.

ghost use Rattle.std.specs.Prelude.{◌≡◌, IfOk, map, option_map};
ghost use Rattle.std.specs.Arc.{arc_value};
ghost use Rattle.project.specs.Modules.{modules, module_in, name_at, placed};

use crate::file::File;
use crate::files::Files;
use crate::item::Item;
use crate::path::module_at;
use crate::together::{all_three, as_memory};
use py_ast::{Modules, Parsed};
use rv_names::{Memory, QName, Text};
use std::alloc::Global;
use std::sync::Arc;

/// The name of the module at a path.
fn name_at(alloc: Global, path: &Text) -> Result<QName, Memory>
    ensures { IfOk result (λ q. q ≡ name_at path.now) }
{
    match module_at(alloc, path.as_str())? {
        Some(name) => Ok(name),
        None => Ok(QName::new(Vec::new(alloc))),
    }
}

impl Files {
    /// The module that a file is, where it is one and isn't hidden.
    fn module_in(
        &self,
        alloc: Global,
        path: &Text,
        file: &File,
    ) -> Result<Option<(QName, Text, Arc<Parsed>)>, Memory>
        requires { path.now ≡ file.now.path }
        ensures { IfOk result (λ o. option_map (placed arc_value) o ≡ module_in self.now (path.now, file.now)) }
    {
        if self.is_hidden(file) {
            return Ok(None);
        }
        match &**file.item() {
            Item::Module(parsed) => {
                let parsed = as_memory(Arc::try_clone(parsed));
                Ok(Some(all_three(name_at(alloc, path), path.copy(), parsed)?))
            }
            Item::Models(_) => Ok(None),
            Item::Config(_) => Ok(None),
        }
    }

    /// The modules, in the order of their paths, with their names (Language Reference, 5.2). A file `a.py` is none while
    /// `a/__init__.py` is live. Linear in the number of files and in their paths, with a search a file; the trees are shared.
    pub fn modules(&self, alloc: Global) -> Result<Modules, Memory>
        ensures { IfOk result (λ ms. map (placed arc_value) ms.items.items ≡ modules self.now) }
    {
        self.know();
        let mut items = Vec::new(alloc);
        for (path, file) in self.iter() {
            if let Some(module) = self.module_in(alloc, path, file)? {
                items.push(module)?;
            }
        }
        Ok(Modules { items })
    }
}
