//! What follows for a whole grammar. Nothing here runs: a contract is the law.

ghost use Rattle.std.specs.Prelude.{◌≡◌, ℕ, List, true, ◌++◌};
ghost use Rattle.phrases.specs.Sets.{ends};
ghost use Rattle.phrases.specs.Reading.{Read};
ghost use Rattle.phrases.specs.Verdict.{Spelled, Means};

use crate::grammar::{Classed, Grammar};

/// What the reader answers is true: a value is that of the longest run with which a spelled list begins; a fault of syntax
/// stands at the first token with which no spelled list goes on; and one of nesting at the first that opens one too many.
pub fn outcome_is_true<T: Classed, A, G: Grammar<T, A>>()
    ensures { (room : ℕ) (ts : List T) → Means G.phrase room ts ((G.phrase room).read ts) }
{}

/// No list of tokens spells two values, however deep it nests.
pub fn one_value<T: Classed, A, G: Grammar<T, A>>()
    ensures { (x : List T) (a b : A) → Spelled G.phrase x a → Spelled G.phrase x b → a ≡ b }
{}

/// What is spelled is read again, if the next token does not go on with it.
pub fn spelled_is_read<T: Classed, A, G: Grammar<T, A>>()
    ensures { (room : ℕ) (x : List T) (a : A) (y : List T) → (G.phrase room).Spells x a → ends T.class G.sets.more y ≡ true → (G.phrase room).read (x ++ y) ≡ Read a y }
{}

/// What the reader takes is spelled.
pub fn taken_is_spelled<T: Classed, A, G: Grammar<T, A>>()
    ensures { (room : ℕ) (ts : List T) (a : A) (y : List T) → (G.phrase room).read ts ≡ Read a y → (x : List T) × (ts ≡ x ++ y) × (G.phrase room).Spells x a }
{}
