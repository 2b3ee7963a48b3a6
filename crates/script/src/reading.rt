//! The next command of a script.

ghost use Rattle.std.specs.Prelude.{◌≡◌, ◌+◌, ◌-◌, ◌<◌, ◌≤◌, ◌^◌, ℕ, Bool, true, false, List, ◌++◌, length, drop, IfOk, Ok, Err};
ghost use Rattle.script.specs.declared.command.Command.{Command};
ghost use Rattle.script.specs.declared.command.Wait.{Wait};
ghost use Rattle.script.specs.declared.command.Wait.TheVariants as wait;
ghost use Rattle.script.specs.declared.command.Next.TheVariants as next;
ghost use Rattle.script.specs.declared.faults.CommandError.TheVariants as errors;
ghost use Rattle.script.specs.Grammar.{Spells};
ghost use Rattle.script.specs.Stream.{BeginsWith, BeginsNone, IsUnfinished, IsUnlessMemory, NeedsUnlessMemory, WaitsWell, longest};
ghost use Rattle.script.specs.Reading.{Gives, put_at, drop_at, issues_at, model_at, trace_at, query_at, ask_at, json_at, run_at, command_at};

use crate::command::{Command, Next, Query, Wait};
use crate::faults::{CommandError, Fault, Stop};
use crate::values::{Calls, Values};
use crate::{fields, run};
use std::alloc::Global;

/// The greatest number of bytes of a JSON text.
const JSON_LIMIT: usize = 1_048_576;

/// The bytes of `put `, a path, a space and ten digits.
const LONGEST_PUT: usize = 270;

/// The bytes of `drop ` and a path.
const LONGEST_DROP: usize = 260;

/// The bytes of `ask 16 model ` and a name.
const LONGEST_ASK: usize = 4109;

/// The bytes of `run 1000000 ` and a JSON text.
const LONGEST_RUN: usize = 1_048_588;

/// The bytes of `sync`.
const LONGEST_WORD: usize = 4;

const SESSIONS: u32 = 16;

const FUEL_LIMIT: u32 = 1_000_000;

#[tactic(auto, unfolding(crate::specs::Reading::put_at))]
fn put(alloc: Global, bytes: &[u8], at: usize) -> Result<(Command, &[u8]), Stop>
    requires { at + length bytes.now < 2 ^ 63 }
    ensures value { Gives (λ x. (x.0, x.1.now)) result (put_at at bytes.now) }
    ensures within { IfOk result (λ x. length x.1.now ≤ length bytes.now) }
{
    let rest = fields::word(bytes, b"put ")?;
    let (path, rest) = fields::path(alloc, rest, b' ')?;
    let (len, rest) = fields::number(rest, 0, u32::MAX, b'\n')?;
    let len = len as usize;
    let from = at + (bytes.len() - rest.len());
    let rest = fields::text(rest, len, from)?;
    Ok((Command::Put { path, from, len }, rest))
}

#[tactic(auto, unfolding(crate::specs::Reading::drop_at))]
fn drop_file(alloc: Global, bytes: &[u8]) -> Result<(Command, &[u8]), Stop>
    ensures value { Gives (λ x. (x.0, x.1.now)) result (drop_at bytes.now) }
    ensures within { IfOk result (λ x. length x.1.now ≤ length bytes.now) }
{
    let rest = fields::word(bytes, b"drop ")?;
    let (path, rest) = fields::path(alloc, rest, b'\n')?;
    Ok((Command::Drop { path }, rest))
}

#[tactic(auto, unfolding(crate::specs::Reading::issues_at))]
fn issues(alloc: Global, bytes: &[u8]) -> Result<(Query, &[u8]), Stop>
    ensures value { Gives (λ x. (x.0, x.1.now)) result (issues_at bytes.now) }
    ensures within { IfOk result (λ x. length x.1.now ≤ length bytes.now) }
{
    let rest = fields::word(bytes, b"issues")?;
    if rest.is_empty() {
        return Err(Stop::Fault(Fault::Line));
    }
    match rest[0] {
        b'\n' => Ok((Query::Issues, &rest[1..])),
        b' ' => {
            let (path, rest) = fields::path(alloc, &rest[1..], b'\n')?;
            Ok((Query::IssuesOf { path }, rest))
        }
        _ => Err(Stop::Fault(Fault::Malformed)),
    }
}

#[tactic(auto, unfolding(crate::specs::Reading::model_at))]
fn model(alloc: Global, bytes: &[u8]) -> Result<(Query, &[u8]), Stop>
    ensures value { Gives (λ x. (x.0, x.1.now)) result (model_at bytes.now) }
    ensures within { IfOk result (λ x. length x.1.now ≤ length bytes.now) }
{
    let rest = fields::word(bytes, b"model ")?;
    let (name, rest) = fields::name(alloc, rest)?;
    Ok((Query::Model { name }, rest))
}

#[tactic(auto, unfolding(crate::specs::Reading::trace_at))]
fn trace(bytes: &[u8]) -> Result<(Query, &[u8]), Stop>
    ensures value { Gives (λ x. (x.0, x.1.now)) result (trace_at bytes.now) }
    ensures within { IfOk result (λ x. length x.1.now ≤ length bytes.now) }
{
    let rest = fields::word(bytes, b"trace ")?;
    let (number, rest) = fields::number(rest, 1, u32::MAX, b'\n')?;
    Ok((Query::Trace { number }, rest))
}

#[tactic(auto, unfolding(crate::specs::Reading::query_at))]
fn query(alloc: Global, bytes: &[u8]) -> Result<(Query, &[u8]), Stop>
    ensures value { Gives (λ x. (x.0, x.1.now)) result (query_at bytes.now) }
    ensures within { IfOk result (λ x. length x.1.now ≤ length bytes.now) }
{
    if bytes.is_empty() {
        return Err(Stop::Fault(Fault::Line));
    }
    match bytes[0] {
        b'i' => issues(alloc, bytes),
        b'm' => model(alloc, bytes),
        b't' => trace(bytes),
        b'n' => Ok((Query::Notes, fields::word(bytes, b"notes\n")?)),
        b'v' => Ok((Query::Version, fields::word(bytes, b"version\n")?)),
        _ => Err(Stop::Fault(Fault::Malformed)),
    }
}

#[tactic(auto, unfolding(crate::specs::Reading::ask_at))]
fn ask(alloc: Global, bytes: &[u8]) -> Result<(Command, &[u8]), Stop>
    ensures value { Gives (λ x. (x.0, x.1.now)) result (ask_at bytes.now) }
    ensures within { IfOk result (λ x. length x.1.now ≤ length bytes.now) }
{
    let rest = fields::word(bytes, b"ask ")?;
    let (session, rest) = fields::number(rest, 1, SESSIONS, b' ')?;
    let (query, rest) = query(alloc, rest)?;
    Ok((Command::Ask { session, query }, rest))
}

#[tactic(auto, unfolding(crate::specs::Reading::json_at))]
fn json(alloc: Global, bytes: &[u8]) -> Result<((Calls, Values), &[u8]), Stop>
    ensures value { Gives (λ x. (x.0, x.1.now)) result (json_at bytes.now) }
    ensures within { IfOk result (λ x. length x.1.now ≤ length bytes.now) }
{
    let (json, rest) = fields::line(bytes, JSON_LIMIT)?;
    let run = run::run_of(alloc, json)?;
    Ok((run, rest))
}

#[tactic(auto, unfolding(crate::specs::Reading::run_at))]
fn start(alloc: Global, bytes: &[u8]) -> Result<(Command, &[u8]), Stop>
    ensures value { Gives (λ x. (x.0, x.1.now)) result (run_at bytes.now) }
    ensures within { IfOk result (λ x. length x.1.now ≤ length bytes.now) }
{
    let rest = fields::word(bytes, b"run ")?;
    let (fuel, rest) = fields::number(rest, 1, FUEL_LIMIT, b' ')?;
    let ((calls, draws), rest) = json(alloc, rest)?;
    let command = Command::Run { fuel, calls, draws };
    Ok((command, rest))
}

#[tactic(auto, unfolding(crate::specs::Reading::command_at))]
fn command(alloc: Global, bytes: &[u8], at: usize) -> Result<(Command, &[u8]), Stop>
    requires { at + length bytes.now < 2 ^ 63 }
    ensures value { Gives (λ x. (x.0, x.1.now)) result (command_at at bytes.now) }
    ensures within { IfOk result (λ x. length x.1.now ≤ length bytes.now) }
{
    if bytes.is_empty() {
        return Err(Stop::Fault(Fault::Line));
    }
    match bytes[0] {
        b'p' => put(alloc, bytes, at),
        b'd' => drop_file(alloc, bytes),
        b'a' => ask(alloc, bytes),
        b's' => Ok((Command::Sync, fields::word(bytes, b"sync\n")?)),
        b'r' => start(alloc, bytes),
        b'e' => Ok((Command::End, fields::word(bytes, b"end\n")?)),
        _ => Err(Stop::Fault(Fault::Malformed)),
    }
}

/// The command that begins at the place `at`, and the bytes behind it.
fn command_from(alloc: Global, bytes: &[u8], at: usize) -> Result<(Command, &[u8]), Stop>
    requires { at ≤ length bytes.now }
    ensures value { Gives (λ x. (x.0, x.1.now)) result (command_at at (drop at bytes.now)) }
    ensures within { IfOk result (λ x. length x.1.now ≤ length bytes.now) }
{
    command(alloc, &bytes[at..], at)
}

/// The greatest number of bytes of a command's line without its end, by the byte that it begins with.
fn longest(bytes: &[u8]) -> usize
    ensures value { result ≡ longest bytes.now }
    ensures within { result < 2 ^ 32 }
{
    if bytes.is_empty() {
        return LONGEST_RUN;
    }
    match bytes[0] {
        b'p' => LONGEST_PUT,
        b'd' => LONGEST_DROP,
        b'a' => LONGEST_ASK,
        b'r' => LONGEST_RUN,
        _ => LONGEST_WORD,
    }
}

/// To wait for the end of the line that begins at the place `at`.
fn open_line(bytes: &[u8], at: usize) -> Wait
    requires { at ≤ length bytes.now }
    ensures { result ≡ wait.Line (length bytes.now) (at + longest (drop at bytes.now) + 1) }
{
    Wait::Line {
        from: bytes.len(),
        until: at + longest(&bytes[at..]) + 1,
    }
}

/// To wait, unless the input has ended.
fn wait(wait: Wait, at: usize, ended: bool) -> Result<(Next, usize), CommandError>
    ensures more { ended ≡ false → result ≡ Ok (next.Need wait, at) }
    ensures over { ended ≡ true → result ≡ Err (errors.Malformed at) }
{
    if ended {
        return Err(CommandError::Malformed { at });
    }
    Ok((Next::Need(wait), at))
}

/// The command that begins at the place `at`, with the place behind it; or, where a command can still come of the bytes
/// and the input has not `ended`, what to wait for, with the place `at`.
///
/// `Malformed` where no command begins at `at` nor can begin with the bytes there, or where the input ended within one;
/// `Memory` where there is no memory left for the answer.
///
/// A call costs time linear in the line, and none for the text of a `put`. Whoever asks again only once what `Need`
/// names has come, a line end at or behind `from`, or else `until` bytes, reads a stream in time linear in its bytes,
/// however it comes in pieces.
pub fn next_command(
    alloc: Global,
    bytes: &[u8],
    at: usize,
    ended: bool,
) -> Result<(Next, usize), CommandError>
    requires { at ≤ length bytes.now }

    // What is read is spelled so, from `at` up to the place behind it.
    ensures found { (command : Command) (after : ℕ) → result ≡ Ok (next.Command command, after)
        → (after ≤ length bytes.now) × BeginsWith at (drop at bytes.now) command (drop after bytes.now) }
    // What is spelled so is read, whatever follows it.
    ensures only { (command : Command) (rest : List ℕ) → BeginsWith at (drop at bytes.now) command rest
        → IsUnlessMemory result (Ok (next.Command command, length bytes.now - length rest)) }
    // One waits only where a command can still come of the bytes.
    ensures need { (wait : Wait) (after : ℕ) → result ≡ Ok (next.Need wait, after)
        → IsUnfinished at (drop at bytes.now) × (ended ≡ false) × (after ≡ at) × WaitsWell at (drop at bytes.now) wait }
    ensures more { IsUnfinished at (drop at bytes.now) → ended ≡ false → NeedsUnlessMemory result at }
    // The input is refused only where no command begins, nor can, or where it ended too soon.
    ensures malformed { (place : ℕ) → result ≡ Err (errors.Malformed place)
        → (place ≡ at) × BeginsNone at (drop at bytes.now) × (ended ≡ false → IsUnfinished at (drop at bytes.now) → ⊥) }
    ensures refused { BeginsNone at (drop at bytes.now) → (IsUnfinished at (drop at bytes.now) → ended ≡ true)
        → IsUnlessMemory result (Err (errors.Malformed at)) }
{
    match command_from(alloc, bytes, at) {
        Ok((command, after)) => Ok((Next::Command(command), bytes.len() - after.len())),
        Err(Stop::Memory) => Err(CommandError::Memory),
        Err(Stop::Fault(Fault::Malformed)) => Err(CommandError::Malformed { at }),
        Err(Stop::Fault(Fault::Line)) => wait(open_line(bytes, at), at, ended),
        Err(Stop::Fault(Fault::Text { until })) => wait(Wait::Text { until }, at, ended),
    }
}

/// A law of the commands, with nothing to run: no command is a proper front of another, so that bytes have one reading,
/// however they are cut into pieces.
pub fn one_reading()
    ensures { (at : ℕ) (a b x y : List ℕ) (c d : Command) → Spells at a c → Spells at b d → a ++ x ≡ b ++ y → (a ≡ b) × (c ≡ d) }
{}
