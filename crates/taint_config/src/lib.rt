//! The configuration of a taint analysis: the sources, sinks, features and rules of a file `taint.config`, as Pysa has it.
//!
//! * `faults`: a `ConfigError`, the fault for which a file is refused;
//! * `fields`: the fields of JSON objects, each read as the type that its place asks for;
//! * `kinds`: the names of sources and sinks;
//! * `features`: the features;
//! * `rules`: the rules, whose sources and sinks are numbers;
//! * `notes`: the keys that are ignored;
//! * `configuration`: a `Config` and its `Rule`s, and what holds of each of them;
//! * `parts`: a configuration from its JSON value;
//! * `reading`: `read_config`, a configuration from its bytes.
#![tactic(auto)]

mod configuration;
mod faults;
mod features;
mod fields;
mod kinds;
mod notes;
mod parts;
mod reading;
mod rules;

pub use configuration::{Config, Rule};
pub use faults::ConfigError;
pub use reading::read_config;
