//! Productions and grammars, as contracts see them. Nothing of them runs.

ghost use Rattle.std.specs.Prelude.{ℕ, suc, List};
ghost use Rattle.phrases.specs.Sets.{Sets, item_sets};
ghost use Rattle.phrases.specs.Phrases.{Phrase};
ghost use Rattle.phrases.specs.Laws.{Laws};

/// A type of tokens, each of a kind.
pub trait Classed {
    /// The number of a token's kind.
    ghost class: { Self → ℕ };
}

/// Productions that give an `A` from tokens `T`, one for each index `I`: a state, an earlier value, or `()` where there is but one.
pub trait Productions<T: Classed, I, A> {
    ghost sets: { Sets };

    /// With some room for nestings.
    ghost phrase: { I → Phrase T A };

    /// With room for one nesting more.
    ghost wider: { I → Phrase T A };

    /// With any room.
    ghost any: { I → Phrase T A };

    ghost lawful: { (i : I) → Laws T.class (phrase i) (wider i) (any i) sets };
}

/// The items of a series, which give an `A` from tokens `T`, one for each state `S`.
pub trait SeriesItems<T: Classed, S, A> {
    /// The kinds of token that begin an item of a state.
    ghost first: { S → List ℕ };

    /// The kinds of token with which a whole item may go on.
    ghost more: { List ℕ };

    ghost phrase: { S → Phrase T A };

    ghost wider: { S → Phrase T A };

    ghost any: { S → Phrase T A };

    ghost lawful: { (s : S) → Laws T.class (phrase s) (wider s) (any s) (item_sets (first s) more) };
}

/// A grammar that gives an `A` from tokens `T`: its phrase for each room, which is how many nestings may be open, one in another.
pub trait Grammar<T: Classed, A> {
    ghost sets: { Sets };

    ghost phrase: { ℕ → Phrase T A };

    ghost lawful: { (room n : ℕ) → Laws T.class (phrase room) (phrase (suc room)) (phrase n) sets };
}
