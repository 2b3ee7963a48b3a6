//! A small grammar over bytes, read by recursive descent: calls, keyword arguments behind positional ones, and a comma at the end.
//!
//! Each function answers what the reader of its phrase does (`specs/Example.antt`), and the loop is `series`.

ghost use Rattle.std.specs.Prelude.{◌≡◌, ◌<◌, ◌≤◌, ◌∷◌, [], ℕ, List, IfOk, length};
ghost use Rattle.phrases.specs.Sets.{has};
ghost use Rattle.phrases.specs.Reading.{Read};
ghost use Rattle.phrases.specs.Phrases.{token, opener};
ghost use Rattle.phrases.specs.Loops.{Gives};
ghost use Rattle.phrases.specs.Verdict.{Spelled};
ghost use Rattle.phrases.specs.Example.{names, keywords, one_of, item_first, argument, item, items, arguments, inner, call};

use crate::fault::{Fault, Stop};
use crate::read::series;
use sqlite_items::Items;
use std::alloc::Global;

/// No bytes spell two calls.
pub fn one_reading()
    ensures { (x : List ℕ) (a b : ℕ) → Spelled call x a → Spelled call x b → a ≡ b }
{}

fn is_name(token: u8) -> bool
    ensures { result ≡ has names token }
{
    token == b'f' || token == b'g' || token == b'x'
}

fn is_keyword(token: u8) -> bool
    ensures { result ≡ has keywords token }
{
    token == b'k' || token == b'l'
}

fn name(tokens: &[u8]) -> Result<(u8, &[u8]), Stop<'_, u8>>
    ensures read { Gives (λ x. Read x.0 x.1.now) result ((token (one_of names)).read tokens.now) }
    ensures shorter { IfOk result (λ x. length x.1.now < length tokens.now) }
{
    match tokens {
        [first, rest @ ..] => {
            if is_name(*first) {
                Ok((*first, rest))
            } else {
                Err(Stop::Fault(Fault::Syntax, tokens))
            }
        }
        [] => Err(Stop::Fault(Fault::Syntax, tokens)),
    }
}

fn bracket(tokens: &[u8], room: u8) -> Result<(u8, &[u8]), Stop<'_, u8>>
    ensures read { Gives (λ x. Read x.0 x.1.now) result ((opener room (one_of (40 ∷ []))).read tokens.now) }
    ensures room { IfOk result (λ x. 0 < room) }
    ensures shorter { IfOk result (λ x. length x.1.now < length tokens.now) }
{
    match tokens {
        [first, rest @ ..] => {
            if *first != b'(' {
                Err(Stop::Fault(Fault::Syntax, tokens))
            } else if room == 0 {
                Err(Stop::Fault(Fault::TooDeep, tokens))
            } else {
                Ok((*first, rest))
            }
        }
        [] => Err(Stop::Fault(Fault::Syntax, tokens)),
    }
}

fn closing(tokens: &[u8]) -> Result<(u8, &[u8]), Stop<'_, u8>>
    ensures read { Gives (λ x. Read x.0 x.1.now) result ((token (one_of (41 ∷ []))).read tokens.now) }
    ensures shorter { IfOk result (λ x. length x.1.now < length tokens.now) }
{
    match tokens {
        [first, rest @ ..] => {
            if *first == b')' {
                Ok((*first, rest))
            } else {
                Err(Stop::Fault(Fault::Syntax, tokens))
            }
        }
        [] => Err(Stop::Fault(Fault::Syntax, tokens)),
    }
}

/// Whether a byte begins an argument, where `keyword` says that it must have a keyword.
fn begins_item(keyword: bool, token: u8) -> bool
    ensures { result ≡ has (item_first keyword) token }
{
    if keyword {
        is_keyword(token)
    } else {
        is_keyword(token) || is_name(token)
    }
}

/// A call, with room for so many nestings, one in another: how many arguments it has.
#[cycle(call)]
#[tactic(auto, unfolding(crate::specs::Example::call, crate::specs::Example::call_over))]
pub fn call_of(alloc: Global, tokens: &[u8], room: u8) -> Result<(usize, &[u8]), Stop<'_, u8>>
    ensures read { Gives (λ x. Read x.0 x.1.now) result ((call room).read tokens.now) }
    ensures shorter { IfOk result (λ x. length x.1.now < length tokens.now) }
{
    let (_, rest) = name(tokens)?;
    match rest {
        [b'(', ..] => arguments_of(alloc, rest, room),
        _ => Ok((0, rest)),
    }
}

#[cycle(call)]
#[tactic(auto, using(crate::proofs::Calls::inner_is), unfolding(crate::specs::Example::arguments, crate::specs::Example::items))]
fn arguments_of(alloc: Global, tokens: &[u8], room: u8) -> Result<(usize, &[u8]), Stop<'_, u8>>
    ensures read { Gives (λ x. Read x.0 x.1.now) result ((arguments room (inner room)).read tokens.now) }
    ensures shorter { IfOk result (λ x. length x.1.now < length tokens.now) }
{
    let (_, rest) = bracket(tokens, room)?;
    let (items, rest) = items_of(alloc, rest, room - 1)?;
    let (_, rest) = closing(rest)?;
    Ok((items.len(), rest))
}

/// Arguments up to where none begins: how many each has of its own, and what it says of the next.
#[cycle(call)]
fn items_of(
    alloc: Global,
    tokens: &[u8],
    room: u8,
) -> Result<(Items<(usize, Option<bool>)>, &[u8]), Stop<'_, u8>>
    ensures read { Gives (λ x. Read x.0 x.1.now) result ((items (call room)).read tokens.now) }
    ensures no_longer { IfOk result (λ x. length x.1.now ≤ length tokens.now) }
{
    series(
        alloc,
        tokens,
        false,
        |keyword: bool, token: &u8|
            ensures { result ≡ has (item_first keyword) token.now }
        { begins_item(keyword, *token) },
        |keyword: bool, rest: &[u8]|
            ensures read { Gives (λ x. Read x.0.0 x.1.now) result ((item (call room) keyword).read rest.now) }
            ensures next { IfOk result (λ x. x.0.1 ≡ x.0.0.1) }
            ensures shorter { IfOk result (λ x. length x.1.now < length rest.now) }
        { item_of(alloc, rest, room, keyword) },
    )
}

/// An argument and the comma behind it, and whether the next one must have a keyword.
#[cycle(call)]
#[tactic(auto, unfolding(crate::specs::Example::item, crate::specs::Example::comma))]
fn item_of(
    alloc: Global,
    tokens: &[u8],
    room: u8,
    keyword: bool,
) -> Result<(((usize, Option<bool>), Option<bool>), &[u8]), Stop<'_, u8>>
    ensures read { Gives (λ x. Read x.0.0 x.1.now) result ((item (call room) keyword).read tokens.now) }
    ensures next { IfOk result (λ x. x.0.1 ≡ x.0.0.1) }
    ensures shorter { IfOk result (λ x. length x.1.now < length tokens.now) }
{
    let ((has_keyword, count), rest) = argument_of(alloc, tokens, room, keyword)?;
    match rest {
        [b',', after @ ..] => Ok((((count, Some(has_keyword)), Some(has_keyword)), after)),
        _ => Ok((((count, None), None), rest)),
    }
}

#[cycle(call)]
#[tactic(auto, unfolding(crate::specs::Example::argument, crate::specs::Example::with_keyword))]
fn argument_of(
    alloc: Global,
    tokens: &[u8],
    room: u8,
    keyword: bool,
) -> Result<((bool, usize), &[u8]), Stop<'_, u8>>
    ensures read { Gives (λ x. Read (x.0.0, x.0.1) x.1.now) result ((argument (call room) keyword).read tokens.now) }
    ensures shorter { IfOk result (λ x. length x.1.now < length tokens.now) }
{
    match tokens {
        [first, rest @ ..] if is_keyword(*first) => {
            let (count, rest) = call_of(alloc, rest, room)?;
            Ok(((true, count), rest))
        }
        _ if keyword => Err(Stop::Fault(Fault::Syntax, tokens)),
        _ => {
            let (count, rest) = call_of(alloc, tokens, room)?;
            Ok(((false, count), rest))
        }
    }
}

#[cfg(test)]
mod tests {
    use super::*;
    use crate::read::many;

    /// A call's arguments or the fault, and how many bytes are left from there on.
    #[derive(Debug, PartialEq, Eq, Drop)]
    enum Told {
        Value(usize, usize),
        Fault(Fault, usize),
        Memory,
    }

    fn outcome_of(alloc: Global, text: &str, room: u8) -> Told {
        match call_of(alloc, text.as_bytes(), room) {
            Ok((count, rest)) => Told::Value(count, rest.len()),
            Err(Stop::Fault(fault, rest)) => Told::Fault(fault, rest.len()),
            Err(Stop::Memory) => Told::Memory,
        }
    }

    #[test]
    fn reads_calls(rt: HostRuntime) {
        let alloc = rt.alloc();
        for (text, room, want) in [
            ("x", 3, Told::Value(0, 0)),
            ("xf", 3, Told::Value(0, 1)),
            ("f()", 3, Told::Value(0, 0)),
            ("f(x)", 3, Told::Value(1, 0)),
            ("f(x,)", 3, Told::Value(1, 0)),
            ("f(x,kx)", 3, Told::Value(2, 0)),
            ("f(kx,lg(),)x", 3, Told::Value(2, 1)),
            ("f(g(x(f)))", 3, Told::Value(1, 0)),
            ("f(g(x(f())))", 4, Told::Value(1, 0)),
            ("", 3, Told::Fault(Fault::Syntax, 0)),
            ("k", 3, Told::Fault(Fault::Syntax, 1)),
            ("f(", 3, Told::Fault(Fault::Syntax, 0)),
            ("f(x", 3, Told::Fault(Fault::Syntax, 0)),
            ("f(,)", 3, Told::Fault(Fault::Syntax, 2)),
            ("f(x,,)", 3, Told::Fault(Fault::Syntax, 2)),
            ("f(xx)", 3, Told::Fault(Fault::Syntax, 2)),
            ("f(k)", 3, Told::Fault(Fault::Syntax, 1)),
            ("f(kx,x)", 3, Told::Fault(Fault::Syntax, 2)),
            ("f(g(x(f())))", 3, Told::Fault(Fault::TooDeep, 5)),
            ("f(x", 0, Told::Fault(Fault::TooDeep, 2)),
        ] {
            assert_eq!(rt;
                outcome_of(alloc, text, room),
                want,
                "{text} with room {room}"
            );
        }
    }

    #[test]
    fn reads_names_in_a_row(rt: HostRuntime) {
        let text = "fgx)";
        let read = many(
            rt.alloc(),
            text.as_bytes(),
            |token: &u8| is_name(*token),
            |rest: &[u8]| name(rest),
        );
        let told = match read {
            Ok((names, rest)) => Some((names.len(), rest.len())),
            Err(_) => None,
        };
        assert_eq!(rt; told, Some((3, 1)));
    }
}
