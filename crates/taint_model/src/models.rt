//! Models of callables.

ghost use Rattle.std.specs.Prelude.{◌≡◌, ◌<◌, ◌↔◌, Ok, IfOk, OnOk, OnErr, IsTrue, false, true, length};
ghost use Rattle.taint_model.specs.Models.{IsHeldModel, ModelBelow, empty_model, joined_models, model_room};

use crate::{Puts, Trees};
use path_trees::Tree;
use rv_names::Memory;
use std::alloc::Global;

/// The model (summary) of a callable.
#[derive(Debug, Drop)]
pub struct Model {
    /// What its calls give.
    pub result: Tree,
    /// What is wanted of each parameter: the sinks that it reaches, and where else it goes.
    pub back: Trees,
    /// What it puts into cells.
    pub puts: Puts,
}

impl Model {
    /// The model of a callable of which nothing is known. Linear in the number of its parameters.
    pub fn empty(alloc: Global, params: usize) -> Result<Model, Memory>
        ensures { IfOk result (λ m. m ≡ empty_model params) }
    {
        let back = Trees::empty(alloc, params)?;
        Ok(Model {
            result: Tree::empty(alloc),
            back,
            puts: Puts::empty(alloc),
        })
    }

    /// An equal model, whose texts both share. n log n comparisons for n cells, and linear in the number of entries.
    pub fn copy(&self) -> Result<Model, Memory>
        ensures { IfOk result (λ m. m ≡ self.now) }
    {
        let result = self.result.copy()?;
        let back = self.back.copy()?;
        let puts = self.puts.copy()?;
        Ok(Model { result, back, puts })
    }

    /// The model with each tree joined to the other's. n log n comparisons for n cells, and linear in the number of entries.
    pub fn join(&self, other: &Model) -> Result<Model, Memory>
        requires { length self.now.back ≡ length other.now.back }
        ensures { IfOk result (λ m. m ≡ joined_models self.now other.now) }
    {
        let result = self.result.join(&other.result)?;
        let back = self.back.join(&other.back)?;
        let puts = self.puts.join(&other.puts)?;
        Ok(Model { result, back, puts })
    }

    /// Joins the other model to this one: false exactly where all of it stood already. Where there is no memory the model
    /// stays as it was. It costs what `join` costs.
    pub fn join_in(&mut self, other: &Model) -> Result<bool, Memory>
        requires { length self.old.back ≡ length other.now.back }
        ensures exact { OnOk result (self.new ≡ joined_models self.old other.now) }
        ensures same { result ≡ Ok false → self.new ≡ self.old }
        ensures stood { result ≡ Ok false → ModelBelow other.now self.old }
        ensures more { result ≡ Ok true → ¬ (ModelBelow other.now self.old) }
        ensures room { result ≡ Ok true → model_room self.new < model_room self.old }
        ensures err { OnErr result (self.new ≡ self.old) }
    {
        self.know();
        other.know();
        if model_le(other, self) {
            return Ok(false);
        }
        let joined = self.join(other)?;
        joined.know();
        *self = joined;
        Ok(true)
    }

    /// No tree has a distance above 63, no cell has the empty tree, and cells and entries are of finitely many, which a proof
    /// that counts them may use.
    pub fn know(&self)
        ensures { IsHeldModel self.now }
    {
        self.result.know();
        self.back.know();
        self.puts.know();
    }
}

/// Whether each tree of the one model is below the other's. Models with other numbers of parameters are not. It takes no
/// memory. n log m comparisons for n cells and m of the other, and linear in the number of entries.
pub fn model_le(a: &Model, b: &Model) -> bool
    ensures { IsTrue result ↔ ModelBelow a.now b.now }
{
    a.result.le(&b.result) && a.back.le(&b.back) && a.puts.le(&b.puts)
}
