//! Whether two expressions of Python syntax are the same, places included. Everything is taken by reference, and takes no memory.
//!
//! * `leaves`: what has no expression in it: places, numbers, constants, operators and names;
//! * `expressions`: expressions and what they consist of.
#![tactic(auto)]

mod expressions;
mod leaves;

pub use expressions::{same_arguments, same_expr};
pub use leaves::{
    same_binary_operator, same_comparator, same_constant, same_name_at, same_number,
    same_optional_name, same_place, same_unary_operator,
};
