//! One turn of a check: the next command, and what is written for it.

ghost use Rattle.std.specs.Prelude.{◌≡◌, ◌⊎◌, ◌≤◌, ◌+◌, [], length, IfOk, IsErrOf};
ghost use Rattle.std.specs.Io.KnownBytes.{Consumes};
ghost use Rattle.rv_io.specs.Counts.{Rises};
ghost use Rattle.stream.specs.State.{taken};
ghost use Rattle.check_stream.specs.Checks.{OneMore};
ghost use Rattle.check_stream.specs.Sends.{Breaks, Writes};
ghost use Rattle.check_stream.specs.Turns.{IsTelling, Steps, TakesFor, Turns};

use crate::fetch::{fetch, fetch_at_hand};
use crate::outbox::write_due;
use crate::session::Session;
use crate::statuses::{MALFORMED, SOURCE_FAILED, TOO_LONG};
use edit_lines::{malformed_line, read_fault_line, too_long_line};
use rv_io::{Sink, Source};
use rv_names::Memory;
use std::alloc::Global;
use stream::{Stream, StreamFault};

/// What is written in one turn.
#[derive(Drop)]
pub enum Turn {
    /// The lines of a command; the check goes on.
    Lines(Vec<u8>),
    /// The last lines, and the status.
    Last { lines: Vec<u8>, status: u8 },
}

/// Why there is no turn.
#[derive(Clone, Copy)]
pub enum Stop {
    /// There was no memory.
    Memory,
    /// The sink failed, and has a front of what was due.
    Sink,
}

/// The last lines of a check that is given no command.
fn tell(alloc: Global, fault: StreamFault) -> Result<Turn, Memory>
    ensures { IfOk result (IsTelling fault) }
{
    let (lines, status) = match fault {
        StreamFault::Malformed { at } => (malformed_line(alloc, at)?.into_bytes(), MALFORMED),
        StreamFault::ReadFault => (read_fault_line().as_bytes().to_vec(alloc)?, SOURCE_FAILED),
        StreamFault::TooLong => (too_long_line().as_bytes().to_vec(alloc)?, TOO_LONG),
        StreamFault::Memory => return Err(Memory),
    };
    Ok(Turn::Last { lines, status })
}

/// Reads the next command and acts on it. The cost is that of the two.
fn take_turn<S: Source>(
    alloc: Global,
    session: &mut Session,
    stream: &mut Stream,
    source: &mut S,
) -> Result<Turn, Memory>
    ensures steps { Steps (S.left source.old) (S.left source.new) stream.old stream.new }
    ensures turns { IfOk result (Turns (Rises (S.faults source.old) (S.faults source.new)) session.old session.new stream.old stream.new) }
    ensures takes { IfOk result (TakesFor
        (Consumes (S.left source.old) (S.left source.new) (taken stream.old stream.new))
        (OneMore (stream.new.place + length stream.new.pending) (S.left source.old) (S.left source.new) (taken stream.old stream.new))) }
    ensures never_falls { S.faults source.old ≤ S.faults source.new }
{
    match fetch(stream, source) {
        Ok(command) => session.act(alloc, command, stream.bytes()),
        Err(fault) => tell(alloc, fault),
    }
}

/// Takes the next command and acts on it. Where it isn't at hand, what is due is written before the source is asked for more.
///
/// The cost is that of the two, and of what is written.
pub fn next_turn<S: Source, K: Sink>(
    alloc: Global,
    session: &mut Session,
    stream: &mut Stream,
    source: &mut S,
    due: &mut Vec<u8>,
    sink: &mut K,
) -> Result<Turn, Stop>
    ensures steps { (IsErrOf result Stop.Sink → ⊥) → Steps (S.left source.old) (S.left source.new) stream.old stream.new }
    ensures writes { (IsErrOf result Stop.Sink → ⊥) → Writes (K.held sink.old) (K.held sink.new) due.old.items due.new.items }
    ensures turns { IfOk result (Turns (Rises (S.faults source.old) (S.faults source.new)) session.old session.new stream.old stream.new) }
    ensures takes { IfOk result (TakesFor
        (Consumes (S.left source.old) (S.left source.new) (taken stream.old stream.new))
        (OneMore (stream.new.place + length stream.new.pending) (S.left source.old) (S.left source.new) (taken stream.old stream.new))) }
    ensures breaks { IsErrOf result Stop.Sink
        → (source.new ≡ source.old) × Breaks (K.held sink.old) (K.held sink.new) due.old.items (Rises (K.faults sink.old) (K.faults sink.new)) }
    // Where the source was asked, nothing is due any more.
    ensures asked { (source.new ≡ source.old) ⊎ (due.new.items ≡ []) }
    ensures source_never_falls { S.faults source.old ≤ S.faults source.new }
    ensures sink_never_falls { K.faults sink.old ≤ K.faults sink.new }
{
    if let Some(command) = fetch_at_hand(stream) {
        return match session.act(alloc, command, stream.bytes()) {
            Ok(turn) => Ok(turn),
            Err(_) => Err(Stop::Memory),
        };
    }
    if write_due(sink, due).is_err() {
        return Err(Stop::Sink);
    }
    match take_turn(alloc, session, stream, source) {
        Ok(turn) => Ok(turn),
        Err(_) => Err(Stop::Memory),
    }
}
