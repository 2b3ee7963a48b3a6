//! Which form that is left out of the subset a token later on the same logical line tells (Language Reference, 6.2 to 6.14).
//!
//! Reading a file stops at the first token with which no file of the subset goes on, and `py_forms` says which form that token
//! tells. Another form may begin earlier and be told only later on the line, as the comprehension in `[a[i:j] for x in y]` by its
//! `for`. Here the rest of the line is gone over, with the brackets that are open, as far as the full grammar goes on.
//!
//! Whether it goes on is decided by which token may stand behind which in which bracket. Not looked at are the order of
//! arguments, what may be a parameter of a lambda or a target, and the operand of `await`.
//!
//! * `spot`: where in an expression a token stands;
//! * `level`: what is known of an open bracket, and what stands outside of all;
//! * `moves`: where a token leads;
//! * `standing`: what a token leaves behind it;
//! * `nesting`: the open brackets, one inside the other;
//! * `subject`: what the stop itself tells, a `match` only where its line has a subject;
//! * `nearest`: the nearest of the forms that were seen;
//! * `later`: `told_on_line` and `told_before`, the form and its place.
#![tactic(auto)]

mod later;
mod level;
mod moves;
mod nearest;
mod nesting;
mod spot;
mod standing;
mod subject;

pub use later::{told_before, told_on_line};
