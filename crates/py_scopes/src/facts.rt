//! What is known of one name from the list of bindings.

ghost use Rattle.std.specs.Prelude.{◌≡◌};
ghost use Rattle.py_scopes.specs.Facts.{seen_at, no_facts, with_binding};

use crate::kinds::{binds, is_fixed, is_variable};
use py_ast::Binding;

/// The first place in a list, and whether there was a second.
#[derive(Clone, Copy, Debug, PartialEq, Eq)]
pub struct Seen {
    pub first: Option<usize>,
    pub again: bool,
}

/// What the bindings of one name say.
#[derive(Clone, Copy, Debug, PartialEq, Eq)]
pub struct Facts {
    /// Whether there is one.
    pub named: bool,
    /// The first that binds it.
    pub bound: Seen,
    /// The first that annotates it.
    pub annotated: Seen,
    /// Whether one fixes it.
    pub fixed: bool,
    /// Whether one makes it a variable.
    pub variable: bool,
}

impl Seen {
    fn at(self, place: usize) -> Seen
        ensures { result ≡ seen_at place self }
    {
        match self.first {
            None => Seen {
                first: Some(place),
                again: self.again,
            },
            Some(first) => Seen {
                first: Some(first),
                again: true,
            },
        }
    }
}

impl Facts {
    /// Of no bindings.
    pub fn none() -> Facts
        ensures { result ≡ no_facts }
    {
        let seen = Seen {
            first: None,
            again: false,
        };
        Facts {
            named: false,
            bound: seen,
            annotated: seen,
            fixed: false,
            variable: false,
        }
    }

    /// With a further binding, at this place in the list.
    pub fn with(self, place: usize, binding: &Binding) -> Facts
        ensures { result ≡ with_binding place binding.now self }
    {
        let bound = if binds(&binding.kind) {
            self.bound.at(place)
        } else {
            self.bound
        };
        let annotated = if binding.annotated {
            self.annotated.at(place)
        } else {
            self.annotated
        };
        Facts {
            named: true,
            bound,
            annotated,
            fixed: self.fixed || is_fixed(&binding.kind),
            variable: self.variable || is_variable(&binding.kind),
        }
    }
}
