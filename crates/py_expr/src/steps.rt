//! Steps of readers, for values of any type.
//!
//! A value that was read waits here while what stands behind it is read, so that no reader holds a tree where it may stop.

ghost use Rattle.std.specs.Prelude.{◌≡◌, Some, None, Ok, Err, IfOk, IfErr, MatchOption};

use crate::token::Taken;
use sqlite_items::Boxed;
use std::alloc::{AllocError, Global};

/// A value that was read, and what was read behind it.
#[inline(always)]
pub fn with<'a, A: Drop, B: Drop>(first: A, second: Taken<'a, B>) -> Taken<'a, (A, B)>
    ensures first { IfOk result (λ x. x.0.0 ≡ first) }
    ensures second { IfOk result (λ x. second.entry ≡ Ok (x.0.1, x.1)) }
    ensures stops { IfErr result (λ stop. second.entry ≡ Err stop) }
{
    match second {
        Ok((second, rest)) => Ok(((first, second), rest)),
        Err(stop) => Err(stop),
    }
}

/// A value, or the one that comes with a key in its place.
#[inline(always)]
pub fn replaced<A: Drop, B: Drop>(first: A, keyed: Option<(B, A)>) -> (Option<B>, A)
    ensures { MatchOption keyed (result ≡ (None, first)) (λ k. result ≡ (Some k.0, k.1)) }
{
    match keyed {
        None => (None, first),
        Some((key, value)) => (Some(key), value),
    }
}

/// A value, where nothing was found in its place.
#[inline(always)]
pub fn unless<A: Drop, B: Drop>(value: A, found: Option<B>) -> Result<A, B>
    ensures value { IfOk result (λ v. v ≡ value) }
    ensures none { IfOk result (λ v. found ≡ None) }
    ensures found { IfErr result (λ b. found ≡ Some b) }
{
    match found {
        None => Ok(value),
        Some(found) => Err(found),
    }
}

/// Two values, each in a box.
#[inline(always)]
pub fn boxed_two<A: Drop, B: Drop>(
    alloc: Global,
    first: A,
    second: B,
) -> Result<(Boxed<A>, Boxed<B>), AllocError>
    ensures first { IfOk result (λ x. x.0 ≡ first) }
    ensures second { IfOk result (λ x. x.1 ≡ second) }
{
    Ok((Boxed::new(alloc, first)?, Boxed::new(alloc, second)?))
}

/// Three values, each in a box.
#[inline(always)]
pub fn boxed_three<A: Drop, B: Drop, C: Drop>(
    alloc: Global,
    first: A,
    second: B,
    third: C,
) -> Result<(Boxed<A>, Boxed<B>, Boxed<C>), AllocError>
    ensures first { IfOk result (λ x. x.0 ≡ first) }
    ensures second { IfOk result (λ x. x.1 ≡ second) }
    ensures third { IfOk result (λ x. x.2 ≡ third) }
{
    Ok((
        Boxed::new(alloc, first)?,
        Boxed::new(alloc, second)?,
        Boxed::new(alloc, third)?,
    ))
}
