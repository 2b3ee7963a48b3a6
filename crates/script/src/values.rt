//! What a run is given: entry calls with plain arguments, and plain draws.

ghost use Rattle.std.specs.Prelude.{◌≡◌};

use rv_names::Text;
use std::marker::Model;

/// A value without fields of its own, or a new external object.
#[derive(Debug, Drop)]
pub enum Plain {
    /// A whole number.
    Int(i128),
    /// A text.
    Str(Text),
    /// A truth value.
    Truth(bool),
    /// None.
    Nothing,
    /// A new external object.
    External,
}

/// Plain values in order, which contracts see as their list.
#[derive(Debug, Drop)]
pub struct Values {
    items: Vec<Plain>,
}

impl Model for Values {
    ghost use Rattle.std.specs.Prelude.{List};
    ghost use Rattle.script.specs.declared.values.Plain.{Plain};

    ghost Value = { List Plain };

    ghost view = { λ v. v.items.items };
}

impl Values {
    /// The values in this order.
    pub fn new(items: Vec<Plain>) -> Values
        ensures { result ≡ items.items }
    {
        Values { items }
    }

    /// The values in their order, at no cost.
    pub fn as_slice(&self) -> &[Plain]
        ensures { result.now ≡ self.now }
    {
        self.items.as_slice()
    }
}

/// A call that a run makes: the printed name of a callable, and its arguments by position.
#[derive(Debug, Drop)]
pub struct Entry {
    pub name: Text,
    pub args: Values,
}

/// Entry calls in order, which contracts see as their list.
#[derive(Debug, Drop)]
pub struct Calls {
    items: Vec<Entry>,
}

impl Model for Calls {
    ghost use Rattle.std.specs.Prelude.{List};
    ghost use Rattle.script.specs.declared.values.Entry.{Entry};

    ghost Value = { List Entry };

    ghost view = { λ c. c.items.items };
}

impl Calls {
    /// The calls in this order.
    pub fn new(items: Vec<Entry>) -> Calls
        ensures { result ≡ items.items }
    {
        Calls { items }
    }

    /// The calls in their order, at no cost.
    pub fn as_slice(&self) -> &[Entry]
        ensures { result.now ≡ self.now }
    {
        self.items.as_slice()
    }
}
