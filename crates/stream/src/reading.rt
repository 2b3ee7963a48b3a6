//! More bytes, until there is a command, or a first byte.

ghost use Rattle.std.specs.Prelude.{◌≡◌, ◌≢◌, ◌+◌, ◌-◌, ◌^◌, ◌≤◌, ℕ, true, false, [], length, take, drop, vec_len, Ok, IfOk, IfErr, OnOk, OnErr, IsErrOf};
ghost use Rattle.std.specs.Io.KnownBytes.{IsAtEnd};
ghost use Rattle.rv_io.specs.Counts.{Rises};
ghost use Rattle.rv_io.specs.Moves.{Moves, LosesOne};
ghost use Rattle.script.specs.Grammar.{Spells};
ghost use Rattle.script.specs.Stream.{BeginsNone};
ghost use Rattle.stream.specs.State.{IsNeeded, IsCause, GainsAll, MovesOneMore};
ghost use Rattle.stream.specs.Steps.{Waits, Ends, StopsReading};

use crate::asking::{first, has_come};
use crate::fault::StreamFault;
use rv_io::{More, ReadError, Source, read_more};
use script::{Command, Next, Wait};
use std::alloc::Global;

/// The greatest number of bytes of an input: 512 MiB.
pub const LONGEST_INPUT: usize = 1 << 29;

/// How a reading on ended.
#[derive(Clone, Copy)]
pub enum Heard {
    /// What was waited for may have come.
    More,
    /// The source told its end.
    End,
    /// The source failed.
    Fault,
}

/// Drops the first bytes. The cost is linear in the others, and none where there is nothing to drop.
fn forget(bytes: &mut Vec<u8>, count: usize)
    requires { count ≤ vec_len bytes.old }
    ensures items { bytes.new.items ≡ drop count bytes.old.items }
    ensures len { vec_len bytes.new ≡ vec_len bytes.old - count }
{
    if count == 0 {
        return;
    }
    let len = bytes.len();
    bytes.as_mut_slice().copy_within(count..len, 0);
    bytes.truncate(len - count);
}

/// Reads on until what is waited for may have come: it has, or there are as many bytes as there may be.
///
/// No byte is looked at twice, so the cost is linear in what comes.
fn read_on<S: Source>(
    source: &mut S,
    bytes: &mut Vec<u8>,
    limit: usize,
    wait: Wait,
) -> Result<Heard, StreamFault>
    requires within { vec_len bytes.old ≤ limit }
    requires waits { Waits bytes.old.items wait }
    ensures within { vec_len bytes.new ≤ limit }
    ensures needed { IsNeeded bytes.old.items bytes.new.items }
    ensures moved { (IsErrOf result StreamFault.TooLong → ⊥) → Moves (S.left source.old) (S.left source.new) bytes.old.items bytes.new.items }
    ensures too_long { IsErrOf result StreamFault.TooLong
        → (bytes.new.items ≡ bytes.old.items) × (vec_len bytes.old ≡ limit) × LosesOne (S.left source.old) (S.left source.new) }
    ensures ok { IfOk result (Ends (Rises (S.faults source.old) (S.faults source.new)) (S.left source.old) bytes.old.items bytes.new.items) }
    ensures err { IfErr result StopsReading }
    ensures never_falls { S.faults source.old ≤ S.faults source.new }
{
    loop {
        let from = bytes.len();
        match read_more(source, bytes, limit) {
            Ok(More::Bytes(_)) => {}
            Ok(More::End) => return Ok(Heard::End),
            Err(ReadError::Fault) => return Ok(Heard::Fault),
            Err(ReadError::TooLong) => return Err(StreamFault::TooLong),
            Err(ReadError::Memory) => return Err(StreamFault::Memory),
        }
        if bytes.len() == limit || has_come(bytes, wait, from) {
            return Ok(Heard::More);
        }
    }
}

/// The command with which the bytes from the place `start` on begin, and how many bytes it has. The first of them is at
/// the place `place` of the input.
///
/// Where they are no whole command, those before `start` are dropped, and more are read.
pub fn read_next<S: Source>(
    alloc: Global,
    source: &mut S,
    bytes: &mut Vec<u8>,
    start: &mut usize,
    over: &mut bool,
    place: usize,
) -> Result<(Command, usize), StreamFault>
    requires start { start.old ≤ vec_len bytes.old }
    requires limit { place + (vec_len bytes.old - start.old) ≤ 2 ^ 29 }
    ensures start { start.new ≤ vec_len bytes.new }
    ensures limit { place + (vec_len bytes.new - start.new) ≤ 2 ^ 29 }
    ensures needed { IsNeeded (drop start.old bytes.old.items) (drop start.new bytes.new.items) }
    ensures moved { (IsErrOf result StreamFault.TooLong → ⊥)
        → Moves (S.left source.old) (S.left source.new) (drop start.old bytes.old.items) (drop start.new bytes.new.items) }
    ensures one_more { IsErrOf result StreamFault.TooLong
        → MovesOneMore (S.left source.old) (S.left source.new) (drop start.old bytes.old.items) (drop start.new bytes.new.items) }
    ensures found { IfOk result (λ x. (x.1 ≤ length (drop start.new bytes.new.items)) × Spells 0 (take x.1 (drop start.new bytes.new.items)) x.0) }
    ensures cause { IfErr result (IsCause (Rises (S.faults source.old) (S.faults source.new)) place (drop start.new bytes.new.items) over.new) }
    ensures ended { over.old ≡ false → over.new ≡ true
        → GainsAll (S.left source.old) (drop start.old bytes.old.items) (drop start.new bytes.new.items) × BeginsNone 0 (drop start.new bytes.new.items) }
    ensures over { over.old ≡ true → (source.new ≡ source.old) × (over.new ≡ true) }
    ensures never_falls { S.faults source.old ≤ S.faults source.new }
{
    let mut failed = false;
    loop {
        let (next, len) = first(alloc, &bytes[*start..], place, *over)?;
        let wait = match next {
            Next::Command(command) => return Ok((command, len)),
            Next::Need(wait) => wait,
        };
        if failed {
            return Err(StreamFault::ReadFault);
        }
        forget(bytes, *start);
        *start = 0;
        match read_on(source, bytes, LONGEST_INPUT - place, wait)? {
            Heard::More => {}
            Heard::End => *over = true,
            Heard::Fault => failed = true,
        }
    }
}

/// Reads one piece into a buffer that holds nothing and begins at the place `place` of the input, and answers whether the
/// source told its end.
#[tactic(auto, using(crate::proofs::Nothing::nothing_waits))]
fn read_piece<S: Source>(
    source: &mut S,
    bytes: &mut Vec<u8>,
    place: usize,
) -> Result<bool, StreamFault>
    requires empty { bytes.old.items ≡ [] }
    requires limit { place ≤ 2 ^ 29 }
    ensures limit { place + vec_len bytes.new ≤ 2 ^ 29 }
    ensures small { vec_len bytes.new ≤ 65536 }
    ensures moved { (IsErrOf result StreamFault.TooLong → ⊥) → Moves (S.left source.old) (S.left source.new) [] bytes.new.items }
    ensures one_more { IsErrOf result StreamFault.TooLong → MovesOneMore (S.left source.old) (S.left source.new) [] bytes.new.items }
    ensures more { result ≡ Ok false → bytes.new.items ≢ [] }
    ensures end { result ≡ Ok true → (bytes.new.items ≡ []) × IsAtEnd (S.left source.old) }
    ensures err { OnErr result (bytes.new.items ≡ []) }
    ensures cause { IfErr result (IsCause (Rises (S.faults source.old) (S.faults source.new)) place [] false) }
    ensures never_malformed { (at : ℕ) → IsErrOf result (StreamFault.Malformed at) → ⊥ }
    ensures never_falls { S.faults source.old ≤ S.faults source.new }
{
    match read_more(source, bytes, LONGEST_INPUT - place) {
        Ok(More::Bytes(_)) => Ok(false),
        Ok(More::End) => Ok(true),
        Err(ReadError::Fault) => Err(StreamFault::ReadFault),
        Err(ReadError::TooLong) => Err(StreamFault::TooLong),
        Err(ReadError::Memory) => Err(StreamFault::Memory),
    }
}

/// Reads one piece where no byte is at hand from the place `start` on, unless the source told its end. The first of them
/// is at the place `place` of the input.
#[tactic(auto, using(crate::proofs::Nothing::nothing_none))]
pub fn read_first<S: Source>(
    source: &mut S,
    bytes: &mut Vec<u8>,
    start: &mut usize,
    over: &mut bool,
    place: usize,
) -> Result<(), StreamFault>
    requires start { start.old ≤ vec_len bytes.old }
    requires limit { place + (vec_len bytes.old - start.old) ≤ 2 ^ 29 }
    ensures start { start.new ≤ vec_len bytes.new }
    ensures limit { place + (vec_len bytes.new - start.new) ≤ 2 ^ 29 }
    ensures needed { IsNeeded (drop start.old bytes.old.items) (drop start.new bytes.new.items) }
    ensures at_hand { drop start.old bytes.old.items ≢ []
        → (source.new ≡ source.old) × (drop start.new bytes.new.items ≡ drop start.old bytes.old.items) × (over.new ≡ over.old) }
    ensures moved { (IsErrOf result StreamFault.TooLong → ⊥)
        → Moves (S.left source.old) (S.left source.new) (drop start.old bytes.old.items) (drop start.new bytes.new.items) }
    ensures one_more { IsErrOf result StreamFault.TooLong
        → MovesOneMore (S.left source.old) (S.left source.new) (drop start.old bytes.old.items) (drop start.new bytes.new.items) }
    ensures none { OnOk result (drop start.new bytes.new.items ≡ [] → over.new ≡ true) }
    ensures cause { IfErr result (IsCause (Rises (S.faults source.old) (S.faults source.new)) place (drop start.new bytes.new.items) over.new) }
    ensures never_malformed { (at : ℕ) → IsErrOf result (StreamFault.Malformed at) → ⊥ }
    ensures err { OnErr result ((drop start.old bytes.old.items ≡ []) × (drop start.new bytes.new.items ≡ []) × (over.new ≡ over.old)) }
    ensures ended { over.old ≡ false → over.new ≡ true
        → GainsAll (S.left source.old) (drop start.old bytes.old.items) (drop start.new bytes.new.items) × BeginsNone 0 (drop start.new bytes.new.items) }
    ensures over { over.old ≡ true → (source.new ≡ source.old) × (over.new ≡ true) }
    ensures never_falls { S.faults source.old ≤ S.faults source.new }
{
    if *start < bytes.len() || *over {
        return Ok(());
    }
    bytes.clear();
    *start = 0;
    *over = read_piece(source, bytes, place)?;
    Ok(())
}
