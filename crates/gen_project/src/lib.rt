//! Projects of any size for measurements, the same on each run.
//!
//! * `script`: `make`, the script of commands that puts a whole project;
//! * `modules`: the text of one of its Python files;
//! * `functions`: the text of one function;
//! * `laws`: what holds of every script;
//! * `draws`: the random numbers that decide what each function does;
//! * `memory`: what `make` answers where there is no memory left.
#![tactic(auto)]

mod draws;
mod functions;
mod laws;
mod memory;
mod modules;
mod script;

pub use laws::each_function_once;
pub use memory::Memory;
pub use script::make;

#[cfg(test)]
mod tests;
