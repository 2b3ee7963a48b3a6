//! Keys of callables, which decide their order everywhere.

ghost use Rattle.std.specs.Prelude.{◌≡◌, IfOk};
ghost use Rattle.py_ast.specs.Keys.{key_name_text, key_text};

use rv_names::{Memory, Name, QName};
use std::fmt;

/// What a callable is called in its module or class. The top level comes before every name.
#[derive(Drop, Debug, PartialEq, Eq, PartialOrd, Ord, Hash)]
pub enum KeyName {
    /// The top level of the module, the bodies of its classes included.
    Top,
    Named(Name),
}

/// What tells a callable from each other one. Keys are ordered by module, then by class, where none comes first, and then
/// by name.
#[derive(Drop, Debug, PartialEq, Eq, PartialOrd, Ord, Hash)]
pub struct Key {
    pub module: QName,
    pub class: Option<Name>,
    pub name: KeyName,
}

impl KeyName {
    /// The name, and `$top` for the top level.
    pub fn as_str(&self) -> &str
        ensures { result.now ≡ key_name_text self.now }
    {
        match self {
            KeyName::Top => "$top",
            KeyName::Named(name) => name.as_str(),
        }
    }

    /// The same name. It costs a counter, and fails only where that counter is full.
    pub fn copy(&self) -> Result<KeyName, Memory>
        ensures { IfOk result (λ n. n ≡ self.now) }
    {
        match self {
            KeyName::Top => Ok(KeyName::Top),
            KeyName::Named(name) => Ok(KeyName::Named(name.copy()?)),
        }
    }
}

impl Key {
    /// The same key. It costs a counter a name, and a list of the module's.
    pub fn copy(&self) -> Result<Key, Memory>
        ensures { IfOk result (λ k. k ≡ self.now) }
    {
        let module = self.module.copy()?;
        let name = self.name.copy()?;
        let class = match &self.class {
            None => None,
            Some(class) => Some(class.copy()?),
        };
        Ok(Key {
            module,
            class,
            name,
        })
    }
}

/// Module, class and name, with dots between them.
impl fmt::Display for Key {
    ghost use Rattle.std.specs.Prelude.{Some};
    ghost use Rattle.py_ast.specs.Keys.{key_text};

    ghost output = { λ k. Some (key_text k) };

    fn fmt<W: fmt::Write>(&self, f: &mut fmt::Formatter<W>) -> fmt::Result {
        write!(f, "{}", self.module)?;
        if let Some(class) = &self.class {
            write!(f, ".{class}")?;
        }
        f.write_str(".")?;
        f.write_str(self.name.as_str())
    }
}
