//! The scopes of a module, one in another.

use crate::scope::Scope;
use py_literals::place::Pos;
use rv_names::Name;
use sqlite_items::Items;

/// The scope of a function.
#[derive(Drop)]
pub struct FunctionScope {
    pub name: Name,
    /// The place of the name.
    pub at: Pos,
    /// The parameters, in order. The first of a method is the instance.
    pub parameters: Scope,
    /// The bindings of the function's own names: the parameters, and then those of its body.
    pub locals: Scope,
    /// The bindings of the names that it owns.
    pub owned: Scope,
}

/// The scope of a class.
#[derive(Drop)]
pub struct ClassScope {
    pub name: Name,
    /// The place of the name.
    pub at: Pos,
    /// The bindings of its body: methods are functions, and all else are attributes.
    pub members: Scope,
    /// The scopes of its methods, in order of place.
    pub methods: Items<FunctionScope>,
}

/// The scopes of a module.
#[derive(Drop)]
pub struct Scopes {
    /// The bindings of its top level, the blocks of `if`, `while` and `for` included.
    pub globals: Scope,
    /// The scopes of its functions, in order of place.
    pub functions: Items<FunctionScope>,
    /// Those of its classes.
    pub classes: Items<ClassScope>,
}
