//! The open brackets, one inside the other.

ghost use Rattle.std.specs.Prelude.{◌≡◌, [], ◌∷◌, Some, None, OnOk, IfOk, MatchOption, cond};
ghost use Rattle.later_forms.specs.Levels.{ends_subject};
ghost use Rattle.later_forms.specs.Subjects.{only_here};
ghost use Rattle.later_forms.specs.Nesting.{alone, with_bracket, closed, advanced};

use crate::level::{Bracket, Level};
use crate::moves::{Move, leads};
use crate::spot::Spot;
use crate::standing::{moved_to, opened, round_closing, round_opening};
use py_lexer::Token;
use rv_names::Memory;
use std::alloc::Global;
use std::marker::Model;

/// The levels round the innermost one, which contracts see with the nearest first.
#[derive(Debug, Drop)]
pub struct Round {
    levels: Vec<Level>,
}

impl Model for Round {
    ghost use Rattle.std.specs.Prelude.{List, reverse};
    ghost use Rattle.later_forms.specs.declared.level.Level.{Level};

    ghost Value = { List Level };

    ghost view = { λ r. reverse r.levels.items };
}

impl Round {
    pub fn new(alloc: Global) -> Round
        ensures { result ≡ [] }
    {
        Round {
            levels: Vec::new(alloc),
        }
    }

    pub fn push(&mut self, level: Level) -> Result<(), Memory>
        ensures { OnOk result (self.new ≡ level ∷ self.old) }
    {
        self.levels.push(level)?;
        Ok(())
    }

    pub fn pop(&mut self) -> Option<Level>
        ensures { MatchOption result ((self.old ≡ []) × (self.new ≡ [])) (λ level. self.old ≡ level ∷ self.new) }
    {
        self.levels.pop()
    }
}

/// The levels that are open at a token.
#[derive(Debug, Drop)]
pub struct Nesting {
    pub innermost: Level,
    pub round: Round,
}

impl Nesting {
    /// At this index begins what has no bracket round it.
    pub fn alone(alloc: Global, at: usize, bracket: Bracket) -> Nesting
        ensures { result ≡ alone at bracket }
    {
        Nesting {
            innermost: opened(at, bracket),
            round: Round::new(alloc),
        }
    }

    /// Whether a subject ends there.
    pub fn ends_subject(self) -> bool
        ensures { result ≡ only_here self.round (ends_subject self.innermost) }
    {
        let mut round = self.round;
        match round.pop() {
            None => self.innermost.ends_subject(),
            Some(_) => false,
        }
    }

    fn open(&mut self, at: usize, bracket: Bracket) -> Result<(), Memory>
        ensures { OnOk result (self.new ≡ with_bracket at bracket self.old) }
    {
        self.round.push(round_opening(at, self.innermost))?;
        self.innermost = opened(at, bracket);
        Ok(())
    }

    /// Closes the innermost bracket, if there is one.
    fn close(&mut self, spot: Spot) -> bool
        ensures { closed self.old.innermost self.old.round spot ≡ cond result (Some self.new) None }
    {
        match self.round.pop() {
            None => false,
            Some(level) => {
                self.innermost = round_closing(self.innermost, level, spot);
                true
            }
        }
    }

    /// Goes past a token at this index, which stands before the stop or from there on, or answers that the full grammar doesn't go
    /// on. `Memory` comes only where there is no memory left.
    #[tactic(auto, unfolding(crate::specs::Nesting::advanced))]
    pub fn advance(&mut self, is_stopped: bool, at: usize, token: &Token) -> Result<bool, Memory>
        ensures { IfOk result (λ goes_on. advanced is_stopped at token.now self.old ≡ cond goes_on (Some self.new) None) }
    {
        match leads(is_stopped, self.innermost, token.kind) {
            Move::To(spot) => {
                self.innermost = moved_to(at, token, self.innermost, spot);
                Ok(true)
            }
            Move::Opens(bracket) => {
                self.open(at, bracket)?;
                Ok(true)
            }
            Move::Closes(spot) => Ok(self.close(spot)),
            Move::Nowhere => Ok(false),
        }
    }
}
