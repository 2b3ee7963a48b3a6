//! Standard input and standard output: the edge that no proof covers.
ghost use Rattle.std.specs.Prelude.{◌≡◌, ◌<◌, ◌≤◌, ℕ, None, length, take, IfOk, OnErr};

use crate::error::Failed;
use crate::sink::Sink;
use crate::source::Source;
use std::io::{Read, Stdin, Stdout, Write};
use std::marker::Model;

/// Standard input, with a count of its errors. It tells nothing of its bytes.
#[derive(Debug, Drop)]
pub struct StdSource {
    stdin: Stdin,
    faults: u64,
}

impl Model for StdSource {
    ghost use Rattle.std.specs.Prelude.{ℕ};

    ghost Value = { ℕ };

    ghost view = { λ a. a.faults };
}

impl StdSource {
    /// A source over standard input, without a fault.
    pub fn new(stdin: Stdin) -> StdSource
        ensures { result ≡ 0 }
    {
        StdSource { stdin, faults: 0 }
    }
}

impl Source for StdSource {
    ghost left = { λ _. None };

    ghost faults = { λ count. count };

    /// One read of the system. Each error is a fault, an interrupted call too.
    fn read(&mut self, buf: &mut [u8]) -> Result<usize, Failed> {
        match self.stdin.read(buf) {
            Ok(count) => Ok(count),
            Err(_) => {
                self.faults = self.faults.saturating_add(1);
                Err(Failed)
            }
        }
    }
}

/// Standard output, with a count of its errors and of the writes that took nothing. It tells nothing
/// of its bytes, and keeps none back.
#[derive(Debug, Drop)]
pub struct StdSink {
    stdout: Stdout,
    faults: u64,
}

impl Model for StdSink {
    ghost use Rattle.std.specs.Prelude.{ℕ};

    ghost Value = { ℕ };

    ghost view = { λ a. a.faults };
}

impl StdSink {
    /// A sink over standard output, without a fault.
    pub fn new(stdout: Stdout) -> StdSink
        ensures { result ≡ 0 }
    {
        StdSink { stdout, faults: 0 }
    }
}

impl Sink for StdSink {
    ghost held = { λ _. None };

    ghost faults = { λ count. count };

    /// One write of the system. Each error is a fault, and so is a write that takes nothing.
    fn write(&mut self, bytes: &[u8]) -> Result<usize, Failed> {
        match self.stdout.write(bytes) {
            Ok(count) if count > 0 => Ok(count),
            _ => {
                self.faults = self.faults.saturating_add(1);
                Err(Failed)
            }
        }
    }
}
