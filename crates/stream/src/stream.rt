//! A stream of commands.

ghost use Rattle.std.specs.Prelude.{◌≡◌, ◌≢◌, ◌+◌, ◌-◌, ◌^◌, ◌≤◌, ℕ, true, false, ⊤, List, [], ◌++◌, length, drop, slice_get, Ok, None, IfOk, IfErr, IfSome, OnErr, IsErrOf};
ghost use Rattle.std.specs.Io.KnownBytes.{Consumes};
ghost use Rattle.rv_io.specs.Counts.{Rises};
ghost use Rattle.script.specs.Grammar.{Spells};
ghost use Rattle.script.specs.Stream.{BeginsNone, IsUnfinished};
ghost use Rattle.stream.specs.State.{bytes_of, taken, IsNeeded, IsAtHand, IsCause, EndsInText, ConsumesOneMore};
ghost use Rattle.stream.specs.Steps.{IsRefusal};

use crate::asking::first;
use crate::fault::StreamFault;
use crate::reading::{read_first, read_next};
use rv_io::Source;
use script::{Command, Next};
use std::alloc::Global;
use std::marker::Model;

/// The commands of an input, read one by one.
///
/// It holds the bytes of the command that it gave last, and those that were read and not acted on: at most one command
/// and a piece of 65,536 bytes. Its memory is that of the longest command so far.
#[derive(Drop)]
pub struct Stream {
    alloc: Global,
    /// What was forgotten, the last command, and what was not acted on.
    bytes: Vec<u8>,
    /// Where the last command begins in `bytes`.
    last: usize,
    /// Where those not acted on begin.
    start: usize,
    /// How many bytes of the input stand before them.
    place: usize,
    /// Whether the source told its end.
    over: bool,
}

impl Model for Stream {
    ghost use Rattle.std.specs.Prelude.{◌+◌, ◌-◌, ◌^◌, ◌≤◌, drop, slice_range, vec_len};
    ghost use Rattle.stream.specs.State.{State};

    ghost Value = { State };

    ghost view = { λ a. record {
      last = slice_range a.bytes.items a.last a.start;
      pending = drop a.start a.bytes.items;
      place = a.place;
      over = a.over;
    } };

    ghost invariant = { λ a. (a.last ≤ a.start) × (a.start ≤ vec_len a.bytes) × (a.place + (vec_len a.bytes - a.start) ≤ 2 ^ 29) };
}

impl Stream {
    /// A stream before the first byte of its input. It takes no memory.
    pub fn new(alloc: Global) -> Stream
        ensures { result ≡ record { last = []; pending = []; place = 0; over = false } }
    {
        Stream {
            alloc,
            bytes: Vec::new(alloc),
            last: 0,
            start: 0,
            place: 0,
            over: false,
        }
    }

    /// The bytes of the command that was given last: none before the first one, after a `peek`, and where none was given.
    /// The text of a `put` is `bytes()[from..from + len]`.
    pub fn bytes(&self) -> &[u8]
        ensures { result.now ≡ self.now.last }
    {
        &self.bytes[self.last..self.start]
    }

    /// The bytes that were read and not acted on. The first of them is at `place`.
    pub fn pending(&self) -> &[u8]
        ensures { result.now ≡ self.now.pending }
    {
        &self.bytes[self.start..]
    }

    /// How many bytes of the input, from 0, stand before those that were not acted on.
    pub fn place(&self) -> usize
        ensures { result ≡ self.now.place }
    {
        self.place
    }

    /// The first byte that was not acted on, which is read where none is at hand; None where the source told its end.
    ///
    /// The source is asked only where no byte is at hand, and no more once it told its end. Nothing is acted on, and the
    /// bytes of the last command are given up.
    ///
    /// `ReadFault` where the source failed; `TooLong` where `LONGEST_INPUT` bytes were taken, all of which were acted on,
    /// and one more came; `Memory` where there was no memory for a piece; never `Malformed`. Asked again after an error,
    /// the stream goes on from there. The cost is at most that of one read.
    pub fn peek<S: Source>(&mut self, source: &mut S) -> Result<Option<u8>, StreamFault>
        // What is held now is what was pending, and then what was taken. Nothing is acted on.
        ensures kept { bytes_of self.new ≡ self.old.pending ++ taken self.old self.new }
        ensures took { (IsErrOf result StreamFault.TooLong → ⊥)
            → Consumes (S.left source.old) (S.left source.new) (taken self.old self.new) }
        ensures one_more { IsErrOf result StreamFault.TooLong
            → ConsumesOneMore (S.left source.old) (S.left source.new) (taken self.old self.new) }
        ensures needed { IsNeeded self.old.pending (bytes_of self.new) }
        ensures at_hand { self.old.pending ≢ [] → (source.new ≡ source.old) × (self.new ≡ record self.old { last = [] }) }
        ensures within { self.new.place + length self.new.pending ≤ 2 ^ 29 }
        ensures place { self.new.place ≡ self.old.place }
        ensures empty { self.new.last ≡ [] }

        // The byte is the first that is pending now, and there is none only at the end.
        ensures found { IfOk result (λ first. first ≡ slice_get self.new.pending 0) }
        ensures none { result ≡ Ok None → self.new.over ≡ true }

        // Each error has its cause, and comes only of a read that was needed and gave nothing.
        ensures cause { IfErr result (IsCause (Rises (S.faults source.old) (S.faults source.new)) self.new.place self.new.pending self.new.over) }
        ensures never_malformed { (at : ℕ) → IsErrOf result (StreamFault.Malformed at) → ⊥ }
        ensures err { OnErr result ((self.old.pending ≡ []) × (self.new ≡ record self.old { last = [] })) }

        // Where the source told its end, all its bytes were taken, and it is asked no more.
        ensures ended { self.old.over ≡ false → self.new.over ≡ true
            → IfSome (S.left source.old) (λ left. taken self.old self.new ≡ left) × BeginsNone 0 (bytes_of self.new) }
        ensures over { self.old.over ≡ true → (source.new ≡ source.old) × (self.new.over ≡ true) }
        ensures never_falls { S.faults source.old ≤ S.faults source.new }
    {
        let asked = read_first(
            source,
            &mut self.bytes,
            &mut self.start,
            &mut self.over,
            self.place,
        );
        self.last = self.start;
        asked?;
        Ok(self.pending().first().copied())
    }

    /// The next command, where the bytes at hand hold it whole; None where a command can still come of them. The source
    /// isn't asked: where this is None, `next` reads on. The `from` of a `put` is a place in the command's own bytes.
    ///
    /// Where no command is given, nothing is acted on, and the bytes of the last one are given up. `Malformed` where the
    /// bytes at `place` begin with no command and none can come of them, or the input ended, as `next` would tell it;
    /// `Memory` where there was no memory; never `ReadFault` or `TooLong`. The cost is linear in the command, and where none
    /// is given in a line.
    pub fn next_at_hand(&mut self) -> Result<Option<Command>, StreamFault>
        // What was pending is held now, and nothing was read.
        ensures kept { bytes_of self.new ≡ self.old.pending }
        ensures over { self.new.over ≡ self.old.over }
        ensures within { self.new.place + length self.new.pending ≤ 2 ^ 29 }

        // The command is what the last bytes spell, and it alone is acted on.
        ensures found { IfOk result (IsAtHand self.new) }
        ensures place { self.new.place ≡ self.old.place + length self.new.last }
        ensures empty { OnErr result (self.new.last ≡ []) }

        // Each error has its cause.
        ensures cause { IfErr result (IsRefusal self.new.place self.new.pending self.new.over) }
    {
        self.last = self.start;
        let (next, len) = first(self.alloc, self.pending(), self.place, self.over)?;
        match next {
            Next::Command(command) => {
                self.start += len;
                self.place += len;
                Ok(Some(command))
            }
            Next::Need(_) => Ok(None),
        }
    }

    /// The next command of the input. The `from` of a `put` is a place in the command's own bytes.
    ///
    /// The source is asked only while none of the bytes at hand are a whole command, and no more once it told its end.
    /// After an error nothing is acted on, and all that was read is kept: asked again, the stream goes on from there.
    /// So `Malformed` comes again, at the same place, without a read.
    ///
    /// `Malformed` where the bytes at `place` begin with no command and none can come of them, or the input ended: of
    /// bytes in a line without an end this may come only with that end, or once no command has so long a line.
    /// `ReadFault` where the source failed, and a command can still come of the bytes at hand; `TooLong` where
    /// `LONGEST_INPUT` bytes were taken, which end in an unfinished command, and one more came; `Memory` where there was
    /// no memory.
    ///
    /// All calls that give a command cost together time linear in the input, however it comes in pieces; one that ends
    /// in an error costs as much as the bytes that it keeps and reads.
    pub fn next<S: Source>(&mut self, source: &mut S) -> Result<Command, StreamFault>
        // What is held now is what was pending, and then what was taken.
        ensures kept { bytes_of self.new ≡ self.old.pending ++ taken self.old self.new }
        ensures took { (IsErrOf result StreamFault.TooLong → ⊥)
            → Consumes (S.left source.old) (S.left source.new) (taken self.old self.new) }
        ensures one_more { IsErrOf result StreamFault.TooLong
            → ConsumesOneMore (S.left source.old) (S.left source.new) (taken self.old self.new) }
        ensures needed { IsNeeded self.old.pending (bytes_of self.new) }
        ensures within { self.new.place + length self.new.pending ≤ 2 ^ 29 }

        // The command is what the last bytes spell, and it alone is acted on.
        ensures found { IfOk result (λ command. Spells 0 self.new.last command) }
        ensures text { IfOk result (EndsInText self.new.last) }
        ensures place { self.new.place ≡ self.old.place + length self.new.last }
        ensures empty { OnErr result (self.new.last ≡ []) }

        // Each error has its cause, and malformed bytes are refused.
        ensures cause { IfErr result (IsCause (Rises (S.faults source.old) (S.faults source.new)) self.new.place self.new.pending self.new.over) }
        ensures refused { BeginsNone 0 (bytes_of self.new) → (IsUnfinished 0 (bytes_of self.new) → self.new.over ≡ true)
            → (IsErrOf result StreamFault.Memory → ⊥) → IsErrOf result (StreamFault.Malformed self.old.place) }

        // Where the source told its end, all its bytes were taken, and it is asked no more.
        ensures ended { self.old.over ≡ false → self.new.over ≡ true
            → IfSome (S.left source.old) (λ left. taken self.old self.new ≡ left) × BeginsNone 0 (bytes_of self.new) }
        ensures over { self.old.over ≡ true → (source.new ≡ source.old) × (self.new.over ≡ true) }
        ensures never_falls { S.faults source.old ≤ S.faults source.new }
    {
        let answer = read_next(
            self.alloc,
            source,
            &mut self.bytes,
            &mut self.start,
            &mut self.over,
            self.place,
        );
        self.last = self.start;
        let (command, len) = answer?;
        self.start += len;
        self.place += len;
        Ok(command)
    }
}
