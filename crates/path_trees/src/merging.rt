//! Entries in order, made one list in order.

ghost use Rattle.std.specs.Prelude.{◌≡◌, ◌+◌, ◌<◌, ◌++◌, ◌∷◌, [], length, IfOk, OnOk};
ghost use Rattle.path_trees.specs.Merging.{covered, merge, nearer};

use crate::Entry;
use rv_names::Memory;
use std::alloc::Global;
use std::cmp::Ordering;

/// The entries of both lists in order of their spots, where both are in that order. Where both have a spot, the lesser
/// distance counts. Linear in both.
pub fn merged(alloc: Global, left: &[Entry], right: &[Entry]) -> Result<Vec<Entry>, Memory>
    ensures { IfOk result (λ v. v.items ≡ merge left.now right.now) }
{
    let mut out = Vec::new(alloc);
    let mut xs = left;
    let mut ys = right;
    while !xs.is_empty() && !ys.is_empty() {
        let rest = push_next(&mut out, xs, ys)?;
        xs = rest.0;
        ys = rest.1;
    }
    push_copies(&mut out, xs)?;
    push_copies(&mut out, ys)?;
    Ok(out)
}

// Takes the first entry of the two lists, and answers what is left of each.
fn push_next<'a>(
    to: &mut Vec<Entry>,
    xs: &'a [Entry],
    ys: &'a [Entry],
) -> Result<(&'a [Entry], &'a [Entry]), Memory>
    requires first { 0 < length xs.now }
    requires second { 0 < length ys.now }
    ensures merged { IfOk result (λ rest. to.new.items ++ merge rest.0.now rest.1.now ≡ to.old.items ++ merge xs.now ys.now) }
    ensures fewer { IfOk result (λ rest. length rest.0.now + length rest.1.now < length xs.now + length ys.now) }
{
    let [x, x_rest @ ..] = xs else { unreachable!() };
    let [y, y_rest @ ..] = ys else { unreachable!() };
    match x.spot.order(&y.spot) {
        Ordering::Less => {
            push_copy(to, x)?;
            Ok((x_rest, ys))
        }
        Ordering::Equal => {
            push_copy(to, nearer(x, y))?;
            Ok((x_rest, y_rest))
        }
        Ordering::Greater => {
            push_copy(to, y)?;
            Ok((xs, y_rest))
        }
    }
}

/// Whether each entry of the one list stands in the other with a distance not greater, where both are in order of their
/// spots. Linear in both.
pub fn covered(left: &[Entry], right: &[Entry]) -> bool
    ensures { result ≡ covered left.now right.now }
{
    let mut xs = left;
    for y in right {
        let [x, x_rest @ ..] = xs else {
            return true;
        };
        match x.spot.order(&y.spot) {
            Ordering::Less => return false,
            Ordering::Equal => {
                if y.distance > x.distance {
                    return false;
                }
                xs = x_rest;
            }
            Ordering::Greater => {}
        }
    }
    xs.is_empty()
}

// Of two entries at one spot the one with the lesser distance.
fn nearer<'a>(x: &'a Entry, y: &'a Entry) -> &'a Entry
    ensures { result.now ≡ nearer x.now y.now }
{
    if y.distance < x.distance { y } else { x }
}

fn push_copy(to: &mut Vec<Entry>, entry: &Entry) -> Result<(), Memory>
    ensures { OnOk result (to.new.items ≡ to.old.items ++ entry.now ∷ []) }
{
    let copy = entry.copy()?;
    to.push(copy)?;
    Ok(())
}

fn push_copies(to: &mut Vec<Entry>, entries: &[Entry]) -> Result<(), Memory>
    ensures { OnOk result (to.new.items ≡ to.old.items ++ entries.now) }
{
    for entry in entries {
        push_copy(to, entry)?;
    }
    Ok(())
}
