//! Lists to which what is read is added.

ghost use Rattle.std.specs.Prelude.{◌≡◌, ◌<◌, ◌≤◌, ◌++◌, ℕ, List, IfOk, length, reverse};
ghost use Rattle.std.specs.Fn.{FnReturnsAt};
ghost use Rattle.phrases.specs.Sets.{starts};
ghost use Rattle.phrases.specs.Reading.{Outcome, Read, read_many};
ghost use Rattle.phrases.specs.Loops.{Gives, Tells, Takes, with_front};
ghost use Rattle.py_parser.specs.Lists.{Adds, with_all};

use phrases::Stop;
use sqlite_items::Items;
use std::alloc::{AllocError, Global};

/// The items, last first.
fn reversed<A: Drop>(alloc: Global, items: Items<A>) -> Result<Items<A>, AllocError>
    ensures { IfOk result (λ all. all ≡ reverse items) }
{
    let mut rest = items;
    let mut all = Items::from_vec(Vec::with_capacity(alloc, rest.len())?);
    while let Some(item) = rest.pop() {
        all.push(item)?;
    }
    Ok(all)
}

/// The items that stood before, and then the others. Linear in the others.
pub fn appended<A: Drop>(
    alloc: Global,
    before: Vec<A>,
    others: Items<A>,
) -> Result<Vec<A>, AllocError>
    ensures { IfOk result (λ all. all.items ≡ before.items ++ others) }
{
    let mut all = before;
    let mut rest = reversed(alloc, others)?;
    while let Some(item) = rest.pop() {
        all.push(item)?;
    }
    Ok(all)
}

/// Whether a token stands at the front that begins items.
fn begins_at<T, B: Fn(&T) -> bool>(tokens: &[T], begins: &B) -> bool
    requires { B.IsAlwaysCallable begins.now }
    ensures { (class : T → ℕ) (first : List ℕ) → Tells (λ t b. FnReturnsAt B.Fn begins.now t b) class first → result ≡ starts class first tokens.now }
{
    match tokens {
        [first, ..] => begins(first),
        [] => false,
    }
}

/// The items, and then those that are read next.
fn next_into<'a, T, A, F>(
    tokens: &'a [T],
    before: Vec<A>,
    next: &F,
) -> Result<(Vec<A>, &'a [T]), Stop<'a, T>>
where
    F: Fn(&'a [T], Vec<A>) -> Result<(Vec<A>, &'a [T]), Stop<'a, T>>,
    requires next { F.IsAlwaysCallable next.now }
    requires takes { (all : _) → Takes (λ ts r. F.post next.now ts all r) }
    ensures read { (reader : List T → Outcome T (List A)) → Adds (λ v. v.items) (λ all ts r. F.post next.now ts all r) reader → Gives (λ x. Read x.0.items x.1.now) result (with_front before.items (reader tokens.now)) }
    ensures shorter { IfOk result (λ x. length x.1.now < length tokens.now) }
{
    next(tokens, before)
}

/// The items, and then more of them, while the next token begins some, and the tokens after the last.
///
/// `begins` says of a token whether it begins items, and `next` reads some, adds them to the list that it is given, and takes a
/// token at least. Linear in the items, beside what they cost. Stops where `next` does.
pub fn many_into<'a, T, A: Drop, B, F>(
    tokens: &'a [T],
    before: Vec<A>,
    begins: B,
    next: F,
) -> Result<(Vec<A>, &'a [T]), Stop<'a, T>>
where
    B: Fn(&T) -> bool,
    F: Fn(&'a [T], Vec<A>) -> Result<(Vec<A>, &'a [T]), Stop<'a, T>>,
    requires begins { B.IsAlwaysCallable begins }
    requires next { F.IsAlwaysCallable next }
    requires takes { (all : _) → Takes (λ ts r. F.post next ts all r) }
    ensures read { (class : T → ℕ) (first : List ℕ) (reader : List T → Outcome T (List A)) → Tells (λ t b. FnReturnsAt B.Fn begins t b) class first → Adds (λ v. v.items) (λ all ts r. F.post next ts all r) reader → Gives (λ x. Read x.0.items x.1.now) result (with_all before.items (read_many class first reader tokens.now)) }
    ensures no_longer { IfOk result (λ x. length x.1.now ≤ length tokens.now) }
{
    let mut all = before;
    let mut rest = tokens;
    'each_turn: while begins_at(rest, &begins) {
        let (more, after) = match next_into(rest, all, &next) {
            Ok(read) => read,
            Err(stop) => return Err(stop),
        };
        all = more;
        rest = after;
    }
    Ok((all, rest))
}
