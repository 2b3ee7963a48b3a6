//! The words of the program.

ghost use Rattle.std.specs.Prelude.{◌≡◌, ◌↔◌, ◌≤◌, IsTrue, ℕ, List};
ghost use Rattle.std.specs.Io.KnownBytes.{Appends};
ghost use Rattle.rv_io.specs.Counts.{Rises};
ghost use Rattle.check_stream.specs.Checks.{IsAll, Checked, Takes};
ghost use Rattle.review.specs.Words.{IsCheck, Refuses};

use check_stream::{check_call, send};
use rv_io::{Gate, Sink, Source};
use std::alloc::Global;

const USAGE: &[u8] = b"usage: review check | serve W | confirm | gen N SIZE | work N SIZE\n";

/// The status where the words are no command.
const NO_COMMAND: u8 = 2;

/// The program, for the words behind its name: `check` runs the stream that the source gives, as `check_call` does, and
/// all other words write the usage line, with status 2, or 5 where the sink failed.
pub fn review_main<R, S: Source + Send, K: Sink + Send, G: Gate>(
    _rt: &R,
    alloc: Global,
    words: &[String],
    source: &mut S,
    sink: &mut K,
    _gate: &G,
) -> u8
    ensures check { IsCheck words.now → (input : List ℕ) × (out : List ℕ)
        × Takes result (S.left source.old) (S.left source.new) input
        × Appends (K.held sink.old) (K.held sink.new) out
        × Checked result input out (IsAll (S.left source.old) input)
        (Rises (S.faults source.old) (S.faults source.new)) (Rises (K.faults sink.old) (K.faults sink.new)) }
    // Other words take nothing from the source.
    ensures usage { (IsCheck words.now → ⊥) → (out : List ℕ)
        × Appends (K.held sink.old) (K.held sink.new) out
        × Refuses result out (Rises (K.faults sink.old) (K.faults sink.new)) }
    ensures untouched { (IsCheck words.now → ⊥) → source.new ≡ source.old }
    ensures source_never_falls { S.faults source.old ≤ S.faults source.new }
    ensures sink_never_falls { K.faults sink.old ≤ K.faults sink.new }
{
    if is_check(words) {
        check_call(alloc, source, sink)
    } else {
        send(sink, USAGE, NO_COMMAND)
    }
}

/// Whether the words are `check` alone.
fn is_check(words: &[String]) -> bool
    ensures { IsTrue result ↔ IsCheck words.now }
{
    match words {
        [word] => word.as_str() == "check",
        _ => false,
    }
}
