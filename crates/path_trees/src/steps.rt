//! Steps of access paths.

ghost use Rattle.std.specs.Prelude.{◌≡◌, ◌↔◌, IfOk, IsTrue};
ghost use Rattle.path_trees.specs.Steps.{IsHeldStep, IsHeldText, meets, step_equal, step_order, step_rank, step_text};

use rv_names::{Memory, Name, Text};
use std::cmp::Ordering;

/// A step from a value to a part of it.
#[derive(Debug, Drop)]
pub enum Step {
    /// An attribute, as in `x.name`.
    Attr(Name),
    /// What a container has at a key that is written as a text, as in `x["k"]`.
    Key(Text),
    /// What a container has at any other key.
    Any,
    /// The keys of a container.
    Keys,
}

impl Step {
    /// The same step. It costs a counter.
    pub fn copy(&self) -> Result<Step, Memory>
        ensures { IfOk result (λ s. s ≡ self.now) }
    {
        match self {
            Step::Attr(name) => {
                let name = name.copy()?;
                Ok(Step::Attr(name))
            }
            Step::Key(text) => {
                let text = text.copy()?;
                Ok(Step::Key(text))
            }
            Step::Any => Ok(Step::Any),
            Step::Keys => Ok(Step::Keys),
        }
    }

    /// Whether the two are the same step, which compares the bytes of their texts.
    pub fn same(&self, other: &Step) -> bool
        ensures { result ≡ step_equal self.now other.now }
    {
        match self {
            Step::Attr(a) => match other {
                Step::Attr(b) => a == b,
                Step::Key(_) => false,
                Step::Any => false,
                Step::Keys => false,
            },
            Step::Key(a) => match other {
                Step::Attr(_) => false,
                Step::Key(b) => a == b,
                Step::Any => false,
                Step::Keys => false,
            },
            Step::Any => matches!(other, Step::Any),
            Step::Keys => matches!(other, Step::Keys),
        }
    }

    /// Whether the two meet: they are equal, or one is any key and the other a key.
    pub fn meets(&self, other: &Step) -> bool
        ensures { result ≡ meets self.now other.now }
    {
        match self {
            Step::Attr(_) => self.same(other),
            Step::Key(a) => match other {
                Step::Attr(_) => false,
                Step::Key(b) => a == b,
                Step::Any => true,
                Step::Keys => false,
            },
            Step::Any => match other {
                Step::Attr(_) => false,
                Step::Key(_) => true,
                Step::Any => true,
                Step::Keys => false,
            },
            Step::Keys => self.same(other),
        }
    }

    // Its place among the kinds of steps.
    fn rank(&self) -> u8
        ensures { result ≡ step_rank self.now }
    {
        match self {
            Step::Attr(_) => 0,
            Step::Key(_) => 1,
            Step::Any => 2,
            Step::Keys => 3,
        }
    }

    fn text(&self) -> &str
        ensures { result.now ≡ step_text self.now }
    {
        match self {
            Step::Attr(name) => name.as_str(),
            Step::Key(text) => text.as_str(),
            Step::Any => "",
            Step::Keys => "",
        }
    }

    /// How the two are ordered: by their kinds, and then by the bytes of their texts.
    pub fn order(&self, other: &Step) -> Ordering
        ensures { result ≡ step_order self.now other.now }
    {
        let by_rank = self.rank().cmp(&other.rank());
        by_rank.then(self.text().cmp(other.text()))
    }

    /// The step is one of finitely many, which a proof that counts them may use.
    pub fn know(&self)
        ensures { IsHeldStep self.now }
    {
        match self {
            Step::Attr(name) => know_text(name.as_str().as_bytes()),
            Step::Key(text) => know_text(text.as_str().as_bytes()),
            Step::Any => {}
            Step::Keys => {}
        }
    }
}

impl PartialEq for Step {
    ghost use Rattle.std.specs.Cmp.{partial_equiv_from_equiv};
    ghost use Rattle.path_trees.specs.Steps.{step_equal};
    ghost use Rattle.path_trees.specs.StepLaws.{step_equal-equivalence};

    ghost eq = { step_equal };

    ghost laws = { partial_equiv_from_equiv step_equal-equivalence };

    fn eq(&self, other: &Step) -> bool {
        self.same(other)
    }
}

impl Eq for Step {
    ghost use Rattle.path_trees.specs.StepLaws.{step_equal-equivalence};

    ghost laws = { step_equal-equivalence };
}

impl Ord for Step {
    ghost use Rattle.std.specs.Prelude.{refl};
    ghost use Rattle.path_trees.specs.Steps.{step_order};
    ghost use Rattle.path_trees.specs.StepLaws.{step_equal-ties, step_order-total};

    ghost cmp = { step_order };

    ghost total = { step_order-total };

    ghost matches_partial_cmp = { λ a b. refl };

    ghost matches_eq = { step_equal-ties };

    fn cmp(&self, other: &Step) -> Ordering {
        self.order(other)
    }
}

impl PartialOrd for Step {
    ghost use Rattle.std.specs.Prelude.{refl};
    ghost use Rattle.std.specs.Cmp.{partial_order_from_agreeing_total};
    ghost use Rattle.std.specs.Ordering.{as_partial_cmp};
    ghost use Rattle.path_trees.specs.Steps.{step_order};
    ghost use Rattle.path_trees.specs.StepLaws.{step_equal-ties, step_order-total};

    ghost partial_cmp = { as_partial_cmp step_order };

    ghost laws = { partial_order_from_agreeing_total step_order step_order-total (λ a b. refl) step_equal-ties };

    fn partial_cmp(&self, other: &Step) -> Option<Ordering> {
        Some(self.order(other))
    }
}

fn know_text(bytes: &[u8])
    ensures { IsHeldText bytes.now }
{
    let _length = bytes.len();
}
