//! A whole check, from a source to a sink.

ghost use Rattle.std.specs.Prelude.{◌≡◌, ◌≤◌};
ghost use Rattle.std.specs.Io.KnownBytes.{Appends};
ghost use Rattle.rv_names.specs.Keys.{Bytes};
ghost use Rattle.rv_io.specs.Counts.{Rises};
ghost use Rattle.check_stream.specs.Checks.{Checked, IsAll, Takes};
ghost use Rattle.check_stream.specs.Progress.{at_first};

use crate::outbox::{post, send_last};
use crate::sending::send;
use crate::session::Session;
use crate::statuses::{NO_MEMORY, SINK_FAILED};
use crate::turn::{Stop, Turn, next_turn};
use rv_io::{Sink, Source};
use std::alloc::Global;
use std::mem::forget;
use stream::Stream;

/// A whole check: acts on the commands of the source's input one after the other, and writes the line of each before it
/// reads on. The lines of commands that came in one piece go out in one write, unless they are much.
///
/// A `put` or a `drop` that is kept is answered by `edit` and its number, from 1; one that is refused changes no file, and
/// is answered by its first cause. A `sync` is answered by how many edits were kept. What ends the check:
///
/// * `end`: the report of the live files, where these have the cut form. The status is then `REFUSED` where an edit was
///   refused, else `ISSUES` where there is an issue, else `NO_ISSUE`. Without that form it is `not yet`, and `UNANSWERED`;
/// * `ask`: `not yet`, and `UNANSWERED`;
/// * bytes that begin no command, a `run` from its first byte on, and an input that ends before: `malformed` with their
///   place in the input, in bytes from 0, and `MALFORMED`;
/// * a source that failed while a command could still come of the bytes at hand: `read fault`, and `SOURCE_FAILED`;
/// * an input of 512 MiB that ends in an unfinished command, and a byte more: `input too long`, and `TOO_LONG`.
///
/// The status is `SINK_FAILED` where the sink failed, which then has a front of what was due, and `NO_MEMORY` where there was no
/// memory, when it has the lines of whole commands.
///
/// The cost is linear in the input, but for the readers of files (`front`), their edits (`journal`), and the report.
///
/// What the files were read as is never freed: a check is the last thing that a program does.
pub fn check_call<S: Source, K: Sink>(alloc: Global, source: &mut S, sink: &mut K) -> u8
    // The bytes that were taken decide the status and the bytes that were written.
    ensures checked { (input : Bytes) × (out : Bytes)
        × Takes result (S.left source.old) (S.left source.new) input
        × Appends (K.held sink.old) (K.held sink.new) out
        × Checked result input out (IsAll (S.left source.old) input)
        (Rises (S.faults source.old) (S.faults source.new)) (Rises (K.faults sink.old) (K.faults sink.new)) }
    ensures source_never_falls { S.faults source.old ≤ S.faults source.new }
    ensures sink_never_falls { K.faults sink.old ≤ K.faults sink.new }
{
    let mut session = Session::new(alloc);
    let status = take_turns(alloc, &mut session, source, sink);
    // The system takes all memory back at once where the program ends, which is much faster than to free each tree before.
    forget(session);
    status
}

/// Takes turns, from the first command on, until the check ends.
fn take_turns<S: Source, K: Sink>(
    alloc: Global,
    session: &mut Session,
    source: &mut S,
    sink: &mut K,
) -> u8
    requires { session.old ≡ at_first }
    ensures checked { (input : Bytes) × (out : Bytes)
        × Takes result (S.left source.old) (S.left source.new) input
        × Appends (K.held sink.old) (K.held sink.new) out
        × Checked result input out (IsAll (S.left source.old) input)
        (Rises (S.faults source.old) (S.faults source.new)) (Rises (K.faults sink.old) (K.faults sink.new)) }
    ensures source_never_falls { S.faults source.old ≤ S.faults source.new }
    ensures sink_never_falls { K.faults sink.old ≤ K.faults sink.new }
{
    let mut stream = Stream::new(alloc);
    let mut due = Vec::new(alloc);
    loop {
        match next_turn(alloc, session, &mut stream, source, &mut due, sink) {
            Ok(Turn::Lines(lines)) => match post(sink, &mut due, &lines) {
                Ok(()) => {}
                Err(_) => return SINK_FAILED,
            },
            Ok(Turn::Last { lines, status }) => return send_last(sink, &mut due, &lines, status),
            Err(Stop::Memory) => return send(sink, &due, NO_MEMORY),
            Err(Stop::Sink) => return SINK_FAILED,
        }
    }
}
