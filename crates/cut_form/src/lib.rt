//! The first answers of a check: what is reported of live files that have the cut form.
//!
//! The cut form is the least that has an issue: one source, one sink and one rule between them, and a file `app.py` whose one function
//! calls things in one another.
//!
//! * `reports`: `report`, the issues of files that have the form;
//! * `lines`: a `Report`, the lines that tell the issues;
//! * `configuration`: whether a configuration is the one of the form;
//! * `declarations`: whether models are those of the form;
//! * `bodies`: the function of `app.py` and its statements;
//! * `nests`: calls in one another, read from expressions;
//! * `issues`: where the source reaches the sink;
//! * `refusal`: why nothing was read.
#![tactic(auto)]

mod bodies;
mod configuration;
mod declarations;
mod issues;
mod lines;
mod nests;
mod refusal;
mod reports;

pub use lines::Report;
pub use reports::report;
