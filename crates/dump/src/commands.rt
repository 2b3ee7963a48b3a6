//! The number of commands of a script that comes in pieces.

ghost use Rattle.std.specs.Prelude.{◌≡◌, ◌≤◌, ◌-◌, ◌^◌, length, vec_len, IfOk};

use rv_io::{More, ReadError, Source, read_more};
use script::{Command, CommandError, Next, Wait, next_command};
use std::alloc::Global;

/// The greatest number of bytes that are read.
pub const LONGEST_SCRIPT: usize = (1 << 31) - 1;

/// Why a script's commands are not counted.
#[derive(Clone, Copy, Debug, Drop, PartialEq, Eq)]
pub enum Uncounted {
    /// No command begins at the place.
    Malformed { at: usize },
    /// The input failed, or is too long.
    Unread,
    /// There is no memory left.
    Memory,
}

impl From<CommandError> for Uncounted {
    fn from(error: CommandError) -> Uncounted {
        match error {
            CommandError::Malformed { at } => Uncounted::Malformed { at },
            CommandError::Memory => Uncounted::Memory,
        }
    }
}

impl From<ReadError> for Uncounted {
    fn from(error: ReadError) -> Uncounted {
        match error {
            ReadError::Memory => Uncounted::Memory,
            ReadError::Fault => Uncounted::Unread,
            ReadError::TooLong => Uncounted::Unread,
        }
    }
}

/// Whether what is waited for has come, of which none stands before `from`.
fn has_come(bytes: &[u8], wait: Wait, from: usize) -> bool
    requires { from ≤ length bytes.now }
{
    match wait {
        Wait::Line { from: _, until } => bytes.len() >= until || bytes[from..].contains(&b'\n'),
        Wait::Text { until } => bytes.len() >= until,
    }
}

/// Reads on until what is waited for has come, and tells whether the input goes on.
///
/// No byte is looked at twice, so the cost is linear in what comes.
fn read_on<S: Source>(source: &mut S, bytes: &mut Vec<u8>, wait: Wait) -> Result<bool, Uncounted>
    requires { vec_len bytes.old ≤ 2 ^ 31 - 1 }
    ensures within { vec_len bytes.new ≤ 2 ^ 31 - 1 }
    ensures grows { vec_len bytes.old ≤ vec_len bytes.new }
{
    loop {
        let from = bytes.len();
        match read_more(source, bytes, LONGEST_SCRIPT)? {
            More::End => return Ok(false),
            More::Bytes(_) => {}
        }
        if has_come(bytes, wait, from) {
            return Ok(true);
        }
    }
}

/// What comes next at the place `at`, with a place within the bytes.
fn next_at(
    alloc: Global,
    bytes: &[u8],
    at: usize,
    ended: bool,
) -> Result<(Next, usize), CommandError>
    requires { at ≤ length bytes.now }
    ensures { IfOk result (λ next. next.1 ≤ length bytes.now) }
{
    let (next, after) = next_command(alloc, bytes, at, ended)?;
    Ok((next, after.min(bytes.len())))
}

/// How many commands the input has, up to `end` or to its own end. The cost is linear in the input, in pieces of any size.
pub fn count_commands<S: Source>(alloc: Global, source: &mut S) -> Result<u64, Uncounted> {
    let mut bytes = Vec::new(alloc);
    let mut at = 0;
    let mut more = true;
    let mut count: u64 = 0;
    for _ in 0..u64::MAX {
        if !more && at == bytes.len() {
            return Ok(count);
        }
        let (next, after) = next_at(alloc, &bytes, at, !more)?;
        at = after;
        match next {
            Next::Command(command) => {
                count = count.saturating_add(1);
                if matches!(command, Command::End) {
                    return Ok(count);
                }
            }
            Next::Need(wait) => more = read_on(source, &mut bytes, wait)?,
        }
    }
    Ok(count)
}
