//! Lists of numbers that share their memory.
ghost use Rattle.std.specs.Prelude.{◌≡◌, ◌+◌, ◌<◌, ◌≤◌, ℕ, length, take, vec_len, IfOk, OnOk};
ghost use Rattle.std.specs.Arc.{arc_value};

use crate::{Memory, Numbered, Poster};
use std::alloc::Global;
use std::sync::{Arc, Wait};

/// The first `len` of the numbers that all lists share.
#[derive(Drop)]
pub struct Front {
    all: Arc<Vec<u64>, Global>,
    len: usize,
    ghost within: { len ≤ length (arc_value all).items },
}

impl Numbered for Front {
    type Item = u64;

    ghost list = { λ f. take f.len (arc_value f.all).items };

    ghost numbered = { length };

    fn number(&self) -> u64 {
        self.len as u64
    }
}

impl Front {
    /// The numbers themselves.
    pub fn numbers(&self) -> &[u64] {
        &self.all.as_slice()[..self.len]
    }
}

/// The numbers below `count`.
pub fn numbers_below(alloc: Global, count: u64) -> Result<Arc<Vec<u64>, Global>, Memory>
    ensures { IfOk result (λ all. length (arc_value all).items ≡ count) }
{
    let mut all = Vec::new(alloc);
    for number in 0..count {
        all.push(number)?;
    }
    Ok(Arc::new(alloc, all)?)
}

/// The first `len` of the numbers.
pub fn first_of(
    alloc: Global,
    all: &Arc<Vec<u64>, Global>,
    len: usize,
) -> Result<Arc<Front, Global>, Memory>
    requires { len ≤ length (arc_value all.now).items }
    ensures { IfOk result (λ f. take (arc_value f).len (arc_value (arc_value f).all).items ≡ take len (arc_value all.now).items) }
{
    let all = Arc::try_clone(all)?;
    Ok(Arc::new(alloc, Front { all, len })?)
}

/// Posts the lists that have more than `from` numbers, and no more than `to`.
pub fn post_all<W: Wait>(
    rt: &W,
    alloc: Global,
    poster: &mut Poster<Front>,
    all: &Arc<Vec<u64>, Global>,
    from: usize,
    to: usize,
) -> Result<(), Memory>
    requires last { poster.old.list ≡ take from (arc_value all.now).items }
    requires within { (from ≤ to) × (to ≤ length (arc_value all.now).items) }
    ensures board { poster.new.board ≡ poster.old.board }
    ensures last { OnOk result (poster.new.list ≡ take to (arc_value all.now).items) }
{
    for len in from..to {
        poster.post(rt, first_of(alloc, all, len + 1)?)?;
    }
    Ok(())
}
