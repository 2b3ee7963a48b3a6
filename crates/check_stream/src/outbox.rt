//! Lines that are due, and how they are written.

ghost use Rattle.std.specs.Prelude.{◌≡◌, ◌≤◌, ◌++◌, [], OnOk, OnErr};
ghost use Rattle.std.specs.Io.KnownBytes.{Appends};
ghost use Rattle.rv_names.specs.Keys.{Bytes};
ghost use Rattle.rv_io.specs.Counts.{Rises};
ghost use Rattle.check_stream.specs.Sends.{Breaks, Sends, Writes};

use crate::sending::send;
use crate::statuses::SINK_FAILED;
use rv_io::{Sink, write_all};

/// Where so many bytes are due, they are written.
const MUCH: usize = 4096;

/// The sink failed, and has a front of what was due.
#[derive(Clone, Copy)]
pub struct SinkFailed;

/// Writes what is due, in one write where the sink takes all. The cost is linear in it, and none where nothing is due.
pub fn write_due<K: Sink>(sink: &mut K, due: &mut Vec<u8>) -> Result<(), SinkFailed>
    ensures ok { OnOk result (Appends (K.held sink.old) (K.held sink.new) due.old.items × (due.new.items ≡ [])) }
    ensures err { OnErr result (Breaks (K.held sink.old) (K.held sink.new) due.old.items (Rises (K.faults sink.old) (K.faults sink.new))) }
    ensures never_falls { K.faults sink.old ≤ K.faults sink.new }
{
    match write_all(sink, due) {
        Ok(()) => {
            due.clear();
            Ok(())
        }
        Err(_) => Err(SinkFailed),
    }
}

/// Lines are due, behind those that are. They are all written where they are much, or where there is no room for more.
pub fn post<K: Sink>(sink: &mut K, due: &mut Vec<u8>, lines: &[u8]) -> Result<(), SinkFailed>
    ensures ok { OnOk result (Writes (K.held sink.old) (K.held sink.new) (due.old.items ++ lines.now) due.new.items) }
    ensures err { OnErr result (Breaks (K.held sink.old) (K.held sink.new) (due.old.items ++ lines.now) (Rises (K.faults sink.old) (K.faults sink.new))) }
    ensures never_falls { K.faults sink.old ≤ K.faults sink.new }
{
    match due.extend_from_slice(lines) {
        Ok(()) => {
            if due.len() < MUCH {
                Ok(())
            } else {
                write_due(sink, due)
            }
        }
        Err(_) => {
            write_due(sink, due)?;
            match write_all(sink, lines) {
                Ok(()) => Ok(()),
                Err(_) => Err(SinkFailed),
            }
        }
    }
}

/// Writes the last lines, behind those that are due, and gives the status; where the sink failed behind a front of them all,
/// it gives `SINK_FAILED`.
pub fn send_last<K: Sink>(sink: &mut K, due: &mut Vec<u8>, lines: &[u8], status: u8) -> u8
    ensures sent { (out : Bytes) × Appends (K.held sink.old) (K.held sink.new) out
        × Sends status (due.old.items ++ lines.now) result out (Rises (K.faults sink.old) (K.faults sink.new)) }
    ensures never_falls { K.faults sink.old ≤ K.faults sink.new }
{
    match post(sink, due, lines) {
        Ok(()) => send(sink, due, status),
        Err(_) => SINK_FAILED,
    }
}
