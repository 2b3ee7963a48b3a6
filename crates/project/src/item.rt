//! What a file is read as.

ghost use Rattle.std.specs.Prelude.{◌≡◌};
ghost use Rattle.project.specs.Callables.{capped, item_callables};

use crate::callables::callables_of;
use py_ast::Parsed;
use pysa_syntax::Decl;
use sqlite_items::Items;
use std::sync::Arc;
use taint_config::Config;

/// What a file is read as. It is shared, and never changes.
#[derive(Drop)]
pub enum Item {
    /// A Python file.
    Module(Arc<Parsed>),
    /// A model file.
    Models(Arc<Items<Decl>>),
    /// The configuration.
    Config(Arc<Config>),
}

impl Item {
    /// How many callables it has, and at most the greatest `u32`. Linear in the module's top level and its classes' bodies.
    pub(crate) fn callables(&self) -> u32
        ensures { result ≡ capped (item_callables self.now) }
    {
        match self {
            Item::Module(parsed) => callables_of(parsed.module()),
            Item::Models(_) => 0,
            Item::Config(_) => 0,
        }
    }
}
