//! The open blocks and brackets.

ghost use Rattle.std.specs.Prelude.{◌≡◌, [], ◌∷◌, OnOk, OnErr, MatchOption, drop};
ghost use Rattle.py_lexer.specs.Stack.{top, has_column, innermost};

use py_literals::place::Pos;
use rv_names::Memory;
use std::alloc::Global;
use std::marker::Model;

/// The columns of the open blocks, which contracts see with the innermost first. Column 0 is open always, and isn't kept.
#[derive(Debug, Drop)]
pub struct Blocks {
    columns: Vec<usize>,
}

impl Model for Blocks {
    ghost use Rattle.std.specs.Prelude.{List, ℕ, reverse};
    ghost use Rattle.std.specs.Coded.{coded_ℕ, coded_list};

    ghost Value = { List ℕ };

    ghost coded = { coded_list coded_ℕ };

    ghost view = { λ b. reverse b.columns.items };
}

impl Blocks {
    pub fn new(alloc: Global) -> Blocks
        ensures { result ≡ [] }
    {
        Blocks {
            columns: Vec::new(alloc),
        }
    }

    /// Closes them all, and keeps their room.
    pub fn clear(&mut self)
        ensures { self.new ≡ [] }
    {
        self.columns.clear();
    }

    /// Opens a block in it.
    pub fn open(&mut self, column: usize) -> Result<(), Memory>
        ensures { OnOk result (self.new ≡ column ∷ self.old) }
    {
        self.columns.push(column)?;
        Ok(())
    }

    /// Closes the innermost one, and tells its column.
    pub fn close(&mut self) -> Option<usize>
        ensures { MatchOption result ((self.old ≡ []) × (self.new ≡ [])) (λ column. self.old ≡ column ∷ self.new) }
    {
        self.columns.pop()
    }

    /// The column of the innermost one.
    pub fn top(&self) -> usize
        ensures { result ≡ top self.now }
    {
        match self.columns.last() {
            None => 0,
            Some(column) => *column,
        }
    }

    /// Whether a block of this column is open.
    #[tactic(auto, using(crate::proofs::Columns::has_column_reverse))]
    pub fn has(&self, column: usize) -> bool
        ensures { result ≡ has_column self.now column }
    {
        self.columns.contains(&column)
    }
}

/// The places of the open brackets, which contracts see with the innermost first.
#[derive(Debug, Drop)]
pub struct Brackets {
    places: Vec<Pos>,
}

impl Model for Brackets {
    ghost use Rattle.std.specs.Prelude.{List, reverse};
    ghost use Rattle.py_literals.specs.declared.place.Pos.{Pos};

    ghost Value = { List Pos };

    ghost view = { λ b. reverse b.places.items };
}

impl Brackets {
    pub fn new(alloc: Global) -> Brackets
        ensures { result ≡ [] }
    {
        Brackets {
            places: Vec::new(alloc),
        }
    }

    /// Closes them all, and keeps their room.
    pub fn clear(&mut self)
        ensures { self.new ≡ [] }
    {
        self.places.clear();
    }

    /// Opens a bracket that stands at this place.
    pub fn open(&mut self, at: Pos) -> Result<(), Memory>
        ensures { OnOk result (self.new ≡ at ∷ self.old) }
    {
        self.places.push(at)?;
        Ok(())
    }

    /// Closes the innermost one, if there is one.
    pub fn close(&mut self)
        ensures { self.new ≡ drop 1 self.old }
    {
        self.places.pop();
    }

    /// The place of the innermost one.
    pub fn innermost(&self) -> Option<Pos>
        ensures { result ≡ innermost self.now }
    {
        self.places.last().copied()
    }
}
