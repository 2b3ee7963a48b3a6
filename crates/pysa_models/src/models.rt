//! The models of all files.

ghost use Rattle.std.specs.Prelude.{◌≡◌, ◌++◌, map, IfOk, OnOk};
ghost use Rattle.pysa_models.specs.Models.{all_models, file_models};
ghost use Rattle.pysa_models.specs.Views.{model_at};

use pysa_syntax::Decl;
use rv_names::{Memory, Text};
use sqlite_items::Items;
use std::alloc::Global;
use std::sync::Arc;

/// A model where it stands: the path of its file, and the model.
#[derive(Clone, Copy)]
pub struct Placed<'a> {
    pub path: &'a Text,
    pub decl: &'a Decl,
}

fn add_file<'a>(
    path: &'a Text,
    decls: &'a [Decl],
    models: &mut Vec<Placed<'a>>,
) -> Result<(), Memory>
    ensures { OnOk result (map model_at models.new.items ≡ map model_at models.old.items ++ file_models path.now decls.now) }
{
    for decl in decls {
        models.push(Placed { path, decl })?;
    }
    Ok(())
}

/// The models of all files, in order of file and place. Linear in their number.
pub fn all_placed(
    alloc: Global,
    files: &[(Text, Arc<Items<Decl>>)],
) -> Result<Vec<Placed<'_>>, Memory>
    ensures { IfOk result (λ v. map model_at v.items ≡ all_models files.now) }
{
    let mut models = Vec::new(alloc);
    for (path, decls) in files {
        add_file(path, decls.as_slice(), &mut models)?;
    }
    Ok(models)
}
