//! Modules that are kept with their texts.

ghost use Rattle.std.specs.Prelude.{◌≡◌};
ghost use Rattle.py_ast.specs.Parsed.{IsSpelled};
ghost use Rattle.py_ast.specs.ScopeFaults.{HasNoScopeFault};

use crate::statement::Module;
use rv_names::{QName, Text};
use std::marker::Model;
use std::sync::Arc;

/// A text and the module that it spells, with 100 nestings at most in expressions and 100 blocks, one in another. No name of
/// the module is bound again where that isn't supported, and no variable is called by its bare name.
#[derive(Drop)]
pub struct Parsed {
    text: Text,
    tree: Module,
}

impl Model for Parsed {
    ghost use Rattle.py_ast.specs.Parsed.{Kept, IsSpelled};
    ghost use Rattle.py_ast.specs.ScopeFaults.{HasNoScopeFault};
    ghost use Rattle.std.specs.Coded.{codes};
    ghost use Rattle.py_ast.specs.contracts.statement.StmtForm as forms;

    ghost Value = { Kept };

    ghost coded = { Prim.hlevel (codes, forms.the_row.coded) };

    ghost view = { λ p. record { text = p.text; tree = p.tree } };

    ghost invariant = { λ p. IsSpelled p.text p.tree × HasNoScopeFault p.tree };
}

impl Parsed {
    /// The text with its module.
    pub fn new(text: Text, tree: Module) -> Parsed
        requires spelled { IsSpelled text tree }
        requires scopes { HasNoScopeFault tree }
        ensures { result ≡ record { text = text; tree = tree } }
    {
        Parsed { text, tree }
    }

    /// The module.
    pub fn module(&self) -> &Module
        ensures value { result.now ≡ self.now.tree }
        ensures spelled { IsSpelled self.now.text self.now.tree }
        ensures scopes { HasNoScopeFault self.now.tree }
    {
        &self.tree
    }

    /// The text.
    pub fn text(&self) -> &str
        ensures value { result.now ≡ self.now.text }
        ensures spelled { IsSpelled self.now.text self.now.tree }
        ensures scopes { HasNoScopeFault self.now.tree }
    {
        self.text.as_str()
    }
}

/// The modules of a project in order of path: name, path, and what stands there.
pub struct Modules {
    pub items: Vec<(QName, Text, Arc<Parsed>)>,
}
