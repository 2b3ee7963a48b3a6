//! Whether a source meets a sink.

ghost use Rattle.std.specs.Prelude.{◌≡◌};
ghost use Rattle.std.specs.List.{list_any};
ghost use Rattle.path_trees.specs.Operations.{spots_touch, trees_touch};

use crate::{Entry, Spot, Tree};

/// Whether a source of the first tree and a sink of the second stand on paths whose steps meet, one by one, over the
/// shorter length. At most the sources of the one times the entries of the other.
pub fn touches(t: &Tree, u: &Tree) -> bool
    ensures { result ≡ trees_touch t.now u.now }
{
    any_touches(t.entries(), u.entries())
}

fn any_touches(xs: &[Entry], ys: &[Entry]) -> bool
    ensures { result ≡ list_any (λ a. list_any (λ b. spots_touch a.spot b.spot) ys.now) xs.now }
{
    xs.iter().any(|x| touches_any(&x.spot, ys))
}

fn touches_any(spot: &Spot, ys: &[Entry]) -> bool
    ensures { result ≡ list_any (λ b. spots_touch spot.now b.spot) ys.now }
{
    ys.iter().any(|y| spot.touches(&y.spot))
}
