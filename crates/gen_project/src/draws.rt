//! The random numbers of a project, each from the one before.

ghost use Rattle.std.specs.Prelude.{◌≡◌, ◌+◌, ◌<◌, ◌^◌};
ghost use Rattle.gen_project.specs.Draws.{draw, next_draw};

const MULTIPLIER: u64 = 6364136223846793005;

const INCREMENT: u64 = 1442695040888963407;

/// The number that follows `x`.
fn step(x: u64) -> u64
    ensures { result ≡ next_draw x }
{
    x.wrapping_mul(MULTIPLIER).wrapping_add(INCREMENT)
}

/// A walk through the draws of a number.
#[derive(Drop)]
pub(crate) struct Draws {
    pub(crate) number: u64,
    pub(crate) taken: u32,
    last: u64,
    ghost walked: { last ≡ draw number taken },
}

impl Draws {
    /// Begins with the first draw.
    pub(crate) fn new(number: u64) -> Draws
        ensures number { result.number ≡ number }
        ensures taken { result.taken ≡ 0 }
    {
        Draws {
            number,
            taken: 0,
            last: number,
        }
    }

    /// Takes the next draw.
    pub(crate) fn take(&mut self) -> u64
        requires { self.old.taken + 1 < 2 ^ 32 }
        ensures drawn { result ≡ draw self.old.number (self.old.taken + 1) }
        ensures taken { self.new.taken ≡ self.old.taken + 1 }
        ensures number { self.new.number ≡ self.old.number }
    {
        let drawn = step(self.last);
        self.last = drawn;
        self.taken += 1;
        drawn
    }
}
