//! Each way to put phrases together keeps the laws. Nothing here runs: a contract is the law.

ghost use Rattle.std.specs.Prelude.{◌≡◌, ℕ, suc, true, false, List, Option};
ghost use Rattle.phrases.specs.Sets.{apart, within, fits, Sets, series_sets, token_sets, nothing_sets, then_sets, or_sets, many_sets};
ghost use Rattle.phrases.specs.Phrases.{token, opener, nothing, sequence, either, many};
ghost use Rattle.phrases.specs.Series.{series};
ghost use Rattle.phrases.specs.Nesting.{never};
ghost use Rattle.phrases.specs.Laws.{Laws, Kind};

use crate::grammar::{Classed, Productions, SeriesItems};

/// A token of some kinds is lawful.
pub fn token_is_lawful<T: Classed, A>()
    ensures { (kind : T → Option A) (codes : _) → Kind T.class kind codes → Laws T.class (token kind) (token kind) (token kind) (token_sets codes) }
{}

/// A token that opens a nesting is lawful, whatever the room.
pub fn opener_is_lawful<T: Classed, A>()
    ensures { (kind : T → Option A) (codes : _) (room n : ℕ) → Kind T.class kind codes → Laws T.class (opener room kind) (opener (suc room) kind) (opener n kind) (token_sets codes) }
{}

/// No token at all is lawful.
pub fn nothing_is_lawful<T: Classed, A>()
    ensures { (a : A) → Laws T.class (nothing a) (nothing a) (nothing a) nothing_sets }
{}

/// A lawful phrase, which is not empty, and then another: if no token that may begin the second may go on with the first.
pub fn sequence_is_lawful<T: Classed, A, B, C, G: Productions<T, (), A>, H: Productions<T, A, B>>()
    ensures { (f : A → B → C) → G.sets.nullable ≡ false → apart H.sets.first G.sets.more ≡ true
        → Laws T.class (sequence (G.phrase tt) H.phrase f) (sequence (G.wider tt) H.wider f) (sequence (G.any tt) H.any f) (then_sets G.sets H.sets) }
{}

/// One of two lawful phrases, of which the first is not empty: if no token may begin both.
pub fn either_is_lawful<T: Classed, A, G: Productions<T, (), A>, H: Productions<T, (), A>>()
    ensures { G.sets.nullable ≡ false → apart H.sets.first G.sets.first ≡ true
        → Laws T.class (either T.class G.sets.first (G.phrase tt) (H.phrase tt)) (either T.class G.sets.first (G.wider tt) (H.wider tt)) (either T.class G.sets.first (G.any tt) (H.any tt)) (or_sets G.sets H.sets) }
{}

/// A lawful phrase, which is not empty, any number of times: if no token that may begin it may go on with it.
pub fn many_is_lawful<T: Classed, A, G: Productions<T, (), A>>()
    ensures { G.sets.nullable ≡ false → apart G.sets.first G.sets.more ≡ true
        → Laws T.class (many T.class G.sets.first (G.phrase tt)) (many T.class G.sets.first (G.wider tt)) (many T.class G.sets.first (G.any tt)) (many_sets G.sets) }
{}

/// Items in states, each lawful and not empty, from any state on: if no token that may begin one may go on with one.
pub fn series_is_lawful<T: Classed, A, S, G: SeriesItems<T, S, A>>()
    ensures { (all : List ℕ) (next : S → A → Option S) (s : S) → ((t : S) → within (G.first t) all ≡ true) → apart all G.more ≡ true
        → Laws T.class (series T.class G.first G.phrase next s) (series T.class G.first G.wider next s) (series T.class G.first G.any next s) (series_sets (G.first s) G.more all) }
{}

/// What would stand in a nesting where there is no room is lawful, in place of a phrase that is not empty.
pub fn never_is_lawful<T: Classed, A, G: Productions<T, (), A>>()
    ensures { G.sets.nullable ≡ false → Laws T.class (never T.class G.sets.first) (G.wider tt) (G.any tt) G.sets }
{}

/// A lawful phrase is lawful by larger sets too, which begin with the same tokens.
pub fn larger_sets_are_lawful<T: Classed, I, A, G: Productions<T, I, A>>()
    ensures { (i : I) (s : Sets) → fits G.sets s ≡ true → Laws T.class (G.phrase i) (G.wider i) (G.any i) s }
{}
