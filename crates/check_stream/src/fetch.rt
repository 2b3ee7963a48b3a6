//! The next command that a check takes.

ghost use Rattle.std.specs.Prelude.{◌≡◌, ◌≢◌, ◌≤◌, ◌+◌, true, false, [], length, IfOk, IfErr, OnErr, IsErrOf};
ghost use Rattle.std.specs.Io.KnownBytes.{Consumes};
ghost use Rattle.rv_io.specs.Counts.{Rises};
ghost use Rattle.script.specs.Grammar.{Spells};
ghost use Rattle.stream.specs.State.{taken};
ghost use Rattle.check_stream.specs.Checks.{OneMore};
ghost use Rattle.check_stream.specs.Ends.{run_byte};
ghost use Rattle.check_stream.specs.Turns.{FetchesAtHand, IsTaken, Steps, Stops};

use rv_io::Source;
use script::Command;
use stream::{Stream, StreamFault};

/// Whether the byte is the first one of a `run`.
fn is_run(first: u8) -> bool
    ensures run { result ≡ true → first ≡ run_byte }
    ensures taken { result ≡ false → first ≢ run_byte }
{
    first == b'r'
}

/// The next command of the input. `Malformed` comes at a `run` too: at its first byte, before anything behind it is read.
pub fn fetch<S: Source>(stream: &mut Stream, source: &mut S) -> Result<Command, StreamFault>
    ensures steps { Steps (S.left source.old) (S.left source.new) stream.old stream.new }
    ensures found { IfOk result (λ command. Spells 0 stream.new.last command × IsTaken command) }
    ensures stops { IfErr result (Stops (Rises (S.faults source.old) (S.faults source.new)) stream.new) }
    ensures empty { OnErr result (stream.new.last ≡ []) }
    ensures exact { (IsErrOf result StreamFault.TooLong → ⊥) → Consumes (S.left source.old) (S.left source.new) (taken stream.old stream.new) }
    ensures one_more { IsErrOf result StreamFault.TooLong
        → OneMore (stream.new.place + length stream.new.pending) (S.left source.old) (S.left source.new) (taken stream.old stream.new) }
    ensures never_falls { S.faults source.old ≤ S.faults source.new }
{
    let Some(first) = stream.peek(source)? else {
        return Err(StreamFault::Malformed { at: stream.place() });
    };
    if is_run(first) {
        return Err(StreamFault::Malformed { at: stream.place() });
    }
    stream.next(source)
}

/// The next command, where the bytes at hand hold it whole and a check takes it. Where this is None, nothing was acted on,
/// and `fetch` tells what comes next: at a `run` too, at bytes of which no command can come, and where there was no memory.
pub fn fetch_at_hand(stream: &mut Stream) -> Option<Command>
    ensures { FetchesAtHand stream.old stream.new result }
{
    let first = stream.pending().first().copied()?;
    if is_run(first) {
        return None;
    }
    match stream.next_at_hand() {
        Ok(command) => command,
        Err(_) => None,
    }
}
