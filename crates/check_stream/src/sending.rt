//! The last text of a program.

ghost use Rattle.std.specs.Prelude.{◌≤◌};
ghost use Rattle.std.specs.Io.KnownBytes.{Appends};
ghost use Rattle.rv_names.specs.Keys.{Bytes};
ghost use Rattle.rv_io.specs.Counts.{Rises};
ghost use Rattle.check_stream.specs.Sends.{Sends};

use crate::statuses::SINK_FAILED;
use rv_io::{Sink, write_all};

/// Writes the text, and gives the status; where the sink failed behind a front of it, it gives `SINK_FAILED`.
pub fn send<K: Sink>(sink: &mut K, text: &[u8], status: u8) -> u8
    ensures sent { (out : Bytes) × Appends (K.held sink.old) (K.held sink.new) out × Sends status text.now result out (Rises (K.faults sink.old) (K.faults sink.new)) }
    ensures never_falls { K.faults sink.old ≤ K.faults sink.new }
{
    match write_all(sink, text) {
        Ok(()) => status,
        Err(_) => SINK_FAILED,
    }
}
