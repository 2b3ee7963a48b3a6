//! The taint reviewer for Python. The words `check` read a command stream from standard input, act on each command, and
//! write the issues of its files to standard output.
//!
//! * `calls`: the words, and what each of them calls.
#![tactic(auto)]

mod calls;

use calls::review_main;
use check_stream::NO_MEMORY;
use rv_io::{OpenGate, StdSink, StdSource};
use std::env;
use std::process::ExitCode;

/// The status where the system doesn't tell the words.
const NO_WORDS: u8 = 13;

fn main(rt: HostRuntime) -> ExitCode {
    let Ok(args) = env::args(&rt) else {
        return ExitCode::from(NO_WORDS);
    };
    let Ok(words) = args.skip(1).collect::<Vec<String>>(rt.alloc()) else {
        return ExitCode::from(NO_MEMORY);
    };
    let mut source = StdSource::new(rt.stdin());
    let mut sink = StdSink::new(rt.stdout());
    ExitCode::from(review_main(&rt, rt.alloc(), &words, &mut source, &mut sink, &OpenGate))
}

#[cfg(test)]
mod tests;
