//! The loops of a recursive descent over slices, once for every grammar.
//!
//! Each answers what a reader on lists does, of any grammar, lawful or not. Whoever calls one passes its own function for an
//! item, and names the reader that this function has in its contract.

ghost use Rattle.std.specs.Prelude.{◌≡◌, ◌<◌, ◌≤◌, ℕ, List, Option, None, cond, IfOk, length};
ghost use Rattle.std.specs.Borrow.{Bor};
ghost use Rattle.std.specs.Fn.{FnReturnsAt};
ghost use Rattle.phrases.specs.Sets.{starts};
ghost use Rattle.phrases.specs.Reading.{Outcome, Read, read_many};
ghost use Rattle.phrases.specs.Series.{read_run};
ghost use Rattle.phrases.specs.Loops.{Gives, Tells, TellsIn, Takes, Reads, ReadsNext, opening};

use crate::fault::Stop;
use sqlite_items::Items;
use std::alloc::Global;

/// Whether a token stands at the front that begins an item.
fn begins_at<T, B: Fn(&T) -> bool>(tokens: &[T], begins: &B) -> bool
    requires { B.IsAlwaysCallable begins.now }
    ensures { (class : T → ℕ) (first : List ℕ) → Tells (λ t b. FnReturnsAt B.Fn begins.now t b) class first → result ≡ starts class first tokens.now }
{
    match tokens {
        [first, ..] => begins(first),
        [] => false,
    }
}

/// One item, which takes a token at least.
fn one_item<'a, T, A, F>(tokens: &'a [T], item: &F) -> Result<(A, &'a [T]), Stop<'a, T>>
where
    F: Fn(&'a [T]) -> Result<(A, &'a [T]), Stop<'a, T>>,
    requires item { F.IsAlwaysCallable item.now }
    requires takes { Takes (λ ts r. F.post item.now ts r) }
    ensures read { (reader : List T → Outcome T A) → Reads (λ ts r. F.post item.now ts r) reader → Gives (λ x. Read x.0 x.1.now) result (reader tokens.now) }
    ensures shorter { IfOk result (λ x. length x.1.now < length tokens.now) }
{
    item(tokens)
}

/// Items one after the other, while the next token begins one, and the tokens after the last.
///
/// `begins` says of a token whether it begins an item, and `item` reads one and takes a token at least. Linear in the
/// items, beside what they cost. Stops where an item does.
pub fn many<'a, T, A: Drop, B, F>(
    alloc: Global,
    tokens: &'a [T],
    begins: B,
    item: F,
) -> Result<(Items<A>, &'a [T]), Stop<'a, T>>
where
    B: Fn(&T) -> bool,
    F: Fn(&'a [T]) -> Result<(A, &'a [T]), Stop<'a, T>>,
    requires begins { B.IsAlwaysCallable begins }
    requires item { F.IsAlwaysCallable item }
    requires takes { Takes (λ ts r. F.post item ts r) }
    ensures read { (class : T → ℕ) (first : List ℕ) (reader : List T → Outcome T A) → Tells (λ t b. FnReturnsAt B.Fn begins t b) class first → Reads (λ ts r. F.post item ts r) reader → Gives (λ x. Read x.0 x.1.now) result (read_many class first reader tokens.now) }
    ensures no_longer { IfOk result (λ x. length x.1.now ≤ length tokens.now) }
{
    let mut items = Items::new(alloc);
    let mut rest = tokens;
    'each_item: while begins_at(rest, &begins) {
        let (value, after) = match one_item(rest, &item) {
            Ok(read) => read,
            Err(stop) => return Err(stop),
        };
        items.push(value)?;
        rest = after;
    }
    Ok((items, rest))
}

/// Whether a token stands at the front that begins an item of this state.
fn begins_in<T, S: Drop, B: Fn(S, &T) -> bool>(tokens: &[T], state: S, begins: &B) -> bool
    requires { B.IsAlwaysCallable begins.now }
    ensures { (class : T → ℕ) (first : S → List ℕ) → TellsIn (λ s t b. (p : Bor T) × (p.now ≡ t) × B.post begins.now s p b) class first → result ≡ starts class (first state) tokens.now }
{
    match tokens {
        [first, ..] => begins(state, first),
        [] => false,
    }
}

/// The state of the item that begins at the front, if there is one.
fn state_at<T, S: Copy + Drop, B: Fn(S, &T) -> bool>(
    tokens: &[T],
    state: Option<S>,
    begins: &B,
) -> Option<S>
    requires { B.IsAlwaysCallable begins.now }
    ensures { (class : T → ℕ) (first : S → List ℕ) → TellsIn (λ s t b. (p : Bor T) × (p.now ≡ t) × B.post begins.now s p b) class first → result ≡ opening class first state tokens.now }
{
    let current = state?;
    if begins_in(tokens, current, begins) {
        state
    } else {
        None
    }
}

/// One item of a state, and the state of the next.
fn item_in<'a, T, A, S: Copy + Drop, F>(
    state: S,
    tokens: &'a [T],
    item: &F,
) -> Result<((A, Option<S>), &'a [T]), Stop<'a, T>>
where
    F: Fn(S, &'a [T]) -> Result<((A, Option<S>), &'a [T]), Stop<'a, T>>,
    requires item { F.IsAlwaysCallable item.now }
    requires takes { (s : S) → Takes (λ ts r. F.post item.now s ts r) }
    ensures read { (reader : S → List T → Outcome T A) (next : S → A → Option S) → ((s : S) → ReadsNext (λ ts r. F.post item.now s ts r) (reader s) (next s)) → Gives (λ x. Read x.0.0 x.1.now) result (reader state tokens.now) }
    ensures next { (reader : S → List T → Outcome T A) (next : S → A → Option S) → ((s : S) → ReadsNext (λ ts r. F.post item.now s ts r) (reader s) (next s)) → IfOk result (λ x. x.0.1 ≡ next state x.0.0) }
    ensures shorter { IfOk result (λ x. length x.1.now < length tokens.now) }
{
    item(state, tokens)
}

/// Items in states, from `start` on, while the next token begins one, and the tokens after the last.
///
/// `begins` says of a state and a token whether the token begins an item of the state. `item` reads one, takes a token
/// at least, and says in which state the next one is, or that this was the last. Linear in the items, beside what they
/// cost. Stops where an item does.
pub fn series<'a, T, A: Drop, S: Copy + Drop, B, F>(
    alloc: Global,
    tokens: &'a [T],
    start: S,
    begins: B,
    item: F,
) -> Result<(Items<A>, &'a [T]), Stop<'a, T>>
where
    B: Fn(S, &T) -> bool,
    F: Fn(S, &'a [T]) -> Result<((A, Option<S>), &'a [T]), Stop<'a, T>>,
    requires begins { B.IsAlwaysCallable begins }
    requires item { F.IsAlwaysCallable item }
    requires takes { (s : S) → Takes (λ ts r. F.post item s ts r) }
    ensures read { (class : T → ℕ) (first : S → List ℕ) (reader : S → List T → Outcome T A) (next : S → A → Option S) → TellsIn (λ s t b. (p : Bor T) × (p.now ≡ t) × B.post begins s p b) class first → ((s : S) → ReadsNext (λ ts r. F.post item s ts r) (reader s) (next s)) → Gives (λ x. Read x.0 x.1.now) result (read_run class first reader next start tokens.now) }
    ensures no_longer { IfOk result (λ x. length x.1.now ≤ length tokens.now) }
{
    let mut items = Items::new(alloc);
    let mut rest = tokens;
    let mut state = Some(start);
    'each_item: while let Some(current) = state_at(rest, state, &begins) {
        let ((value, next), after) = match item_in(current, rest, &item) {
            Ok(read) => read,
            Err(stop) => return Err(stop),
        };
        items.push(value)?;
        rest = after;
        state = next;
    }
    Ok((items, rest))
}
