//! What the bytes at hand begin with.

ghost use Rattle.std.specs.Prelude.{◌≡◌, ◌≢◌, ◌≤◌, false, length, take, drop, All, IfOk, IfErr, OnOk};
ghost use Rattle.script.specs.Grammar.{line_end};
ghost use Rattle.stream.specs.Steps.{Starts, IsRefusal, Lacks};

use crate::fault::StreamFault;
use script::{CommandError, Next, Wait, next_command};
use std::alloc::Global;

/// What the bytes, which stand at the place `place` of the input, begin with: a command and how many bytes it has,
/// or what to wait for. The cost is linear in a line.
pub fn first(
    alloc: Global,
    bytes: &[u8],
    place: usize,
    over: bool,
) -> Result<(Next, usize), StreamFault>
    ensures ok { IfOk result (λ n. Starts bytes.now over n.0 n.1) }
    ensures err { IfErr result (IsRefusal place bytes.now over) }
{
    match next_command(alloc, bytes, 0, over) {
        Ok(next) => Ok(next),
        Err(CommandError::Malformed { at: _ }) => Err(StreamFault::Malformed { at: place }),
        Err(CommandError::Memory) => Err(StreamFault::Memory),
    }
}

fn has_line_end(bytes: &[u8]) -> bool
    ensures { result ≡ false → All (λ b. b ≢ line_end) bytes.now }
{
    bytes.contains(&b'\n')
}

/// Whether what is waited for has come, which it hadn't before the place `from`. The cost is linear in what follows it.
pub fn has_come(bytes: &[u8], wait: Wait, from: usize) -> bool
    requires { from ≤ length bytes.now }
    ensures { Lacks wait (take from bytes.now) → result ≡ false → Lacks wait bytes.now }
{
    match wait {
        Wait::Line { from: _, until } => bytes.len() >= until || has_line_end(&bytes[from..]),
        Wait::Text { until } => bytes.len() >= until,
    }
}
