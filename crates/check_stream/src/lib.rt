//! A check of a command stream: files are put and dropped, and at the end their issues are written.
//!
//! * `checking`: `check_call`, a whole check from a source to a sink;
//! * `turn`: the next command of the stream, and what is written for it;
//! * `session`: what a check has come to, and what a command makes of it;
//! * `outbox`: the lines that are due, and how they are written;
//! * `sending`: `send`, the last text of a program;
//! * `fetch`: the next command that a check takes;
//! * `statuses`: how a check ends.
#![tactic(auto)]

mod checking;
mod fetch;
mod outbox;
mod sending;
mod session;
mod statuses;
mod turn;

pub use checking::check_call;
pub use sending::send;
pub use statuses::{
    ISSUES, MALFORMED, NO_ISSUE, NO_MEMORY, REFUSED, SINK_FAILED, SOURCE_FAILED, TOO_LONG,
    UNANSWERED,
};
