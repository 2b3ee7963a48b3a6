//! Arguments, as they are read: an expression alone, or a name with a value behind `=`.

ghost use Rattle.std.specs.Prelude.{◌≡◌, IfOk};
ghost use Rattle.py_ast.specs.Trees.{bare_name, has_keyword};

use crate::tree::{Argument, Expr, Form, NameAt};
use rv_names::Memory;

impl Expr {
    /// The name that the expression is, with its place, where no parentheses stand round it.
    pub fn bare_name(&self) -> Result<Option<NameAt>, Memory>
        ensures { IfOk result (λ name. name ≡ bare_name self.now) }
    {
        if self.enclosed {
            return Ok(None);
        }
        match &self.form {
            Form::Name(name) => {
                let name = name.copy()?;
                Ok(Some(NameAt {
                    name,
                    at: self.start,
                }))
            }
            _ => Ok(None),
        }
    }
}

impl Argument {
    /// Whether it has a keyword.
    pub fn has_keyword(&self) -> bool
        ensures { result ≡ has_keyword self.now }
    {
        self.keyword.is_some()
    }
}
