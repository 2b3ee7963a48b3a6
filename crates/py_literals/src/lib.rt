//! The literals of Python: numbers, strings and formatted strings, as section 2.4 of the Language Reference has them.
//!
//! All functions look at a slice of characters at whose front a literal, or a part of one, may stand.
//! Line ends are single line feeds: whoever reads a file makes them so before.
#![tactic(auto)]

mod digit;
pub mod escape;
pub mod formatted;
pub mod number;
pub mod place;
#[cfg(test)]
mod tests;
pub mod text;
