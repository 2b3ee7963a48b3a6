//! A source and a sink that lie in memory.
ghost use Rattle.std.specs.Prelude.{◌≡◌, ◌↔◌, ◌<◌, ◌≤◌, ◌++◌, [], ℕ, Some, length, take, drop, vec_len, vec_capacity, Contains, IsErr, IfOk, OnErr};
ghost use Rattle.std.specs.Io.{ReadsAtMost, WritesAtMost};
ghost use Rattle.std.specs.Io.KnownBytes.{Appends, Consumes, Keeps};
ghost use Rattle.rv_io.specs.Counts.{raised, Rises};
ghost use Rattle.rv_io.specs.InMemory.{Feed, Store, given_count, after_giving, after_failing, fitting_count};
ghost use Rattle.rv_io.specs.Moves.{TellsEnd};

use crate::error::{Failed, Memory};
use crate::sink::Sink;
use crate::source::Source;
use std::alloc::Global;
use std::marker::Model;

/// A source whose bytes lie in memory, and which fails at chosen calls. It tells its bytes.
#[derive(Debug, Drop)]
pub struct MemSource {
    bytes: Vec<u8>,
    taken: usize,
    piece: usize,
    fails: Vec<u64>,
    calls: u64,
    faults: u64,
}

impl Model for MemSource {
    ghost Value = { Feed };

    ghost view = { λ a. record {
      left = drop a.taken a.bytes.items;
      piece = a.piece;
      fails = a.fails.items;
      calls = a.calls;
      faults = a.faults;
    } };

    ghost invariant = { λ a. (a.taken ≤ vec_len a.bytes) × (0 < a.piece) };
}

impl MemSource {
    /// A source of these bytes, which gives at most `piece` of them at a call, and fails at the calls
    /// whose numbers, from 1, are in `fails`, however often one stands there. Each call goes through
    /// `fails` once.
    pub fn new(bytes: Vec<u8>, piece: usize, fails: Vec<u64>) -> MemSource
        requires { 0 < piece }
        ensures { result ≡ record {
          left = bytes.items;
          piece = piece;
          fails = fails.items;
          calls = 0;
          faults = 0;
        } }
    {
        MemSource {
            bytes,
            taken: 0,
            piece,
            fails,
            calls: 0,
            faults: 0,
        }
    }
}

impl Source for MemSource {
    ghost left = { λ feed. Some feed.left };

    ghost faults = { λ feed. feed.faults };

    /// Gives as many bytes as the piece, the buffer and what is left allow. The rest of `buf` stays.
    fn read(&mut self, buf: &mut [u8]) -> Result<usize, Failed>
        requires { 0 < length buf.old }
        ensures within { ReadsAtMost result buf.new }
        ensures taken { IfOk result (λ n. Consumes (Some self.old.left) (Some self.new.left) (take n buf.new)) }
        ensures end { IfOk result (TellsEnd (Some self.old.left)) }
        ensures kept { OnErr result (Keeps (Some self.old.left) (Some self.new.left)) }
        ensures cause { OnErr result (Rises self.old.faults self.new.faults) }
        ensures never_falls { self.old.faults ≤ self.new.faults }

        // A call fails exactly where its number is in the list, whatever is left.
        ensures failed { IsErr result ↔ Contains self.old.fails (raised self.old.calls) }
        ensures count { IfOk result (λ n. n ≡ given_count self.old (length buf.old)) }
        ensures bytes { IfOk result (λ n. buf.new ≡ take n self.old.left ++ drop n buf.old) }
        ensures ok { IfOk result (λ n. self.new ≡ after_giving self.old n) }
        ensures err { OnErr result (self.new ≡ after_failing self.old) }
        ensures err_kept { OnErr result (buf.new ≡ buf.old) }
    {
        self.calls = self.calls.saturating_add(1);
        if self.fails.contains(&self.calls) {
            self.faults = self.faults.saturating_add(1);
            return Err(Failed);
        }
        let left = &self.bytes[self.taken..];
        let count = self.piece.min(buf.len()).min(left.len());
        buf[..count].copy_from_slice(&left[..count]);
        self.taken += count;
        Ok(count)
    }
}

/// A sink in memory with a fixed room. It tells its bytes.
#[derive(Debug, Drop)]
pub struct MemSink {
    bytes: Vec<u8>,
    room: usize,
    faults: u64,
}

impl Model for MemSink {
    ghost Value = { Store };

    ghost view = { λ a. record { held = a.bytes.items; room = a.room; faults = a.faults } };

    ghost invariant = { λ a. (vec_len a.bytes ≤ a.room) × (a.room ≤ vec_capacity a.bytes) };
}

impl MemSink {
    /// An empty sink for `room` bytes. Its memory is taken here, and no write takes any.
    pub fn new(alloc: Global, room: usize) -> Result<MemSink, Memory>
        ensures { IfOk result (λ sink. sink ≡ record { held = []; room = room; faults = 0 }) }
    {
        let bytes = Vec::with_capacity(alloc, room)?;
        Ok(MemSink {
            bytes,
            room,
            faults: 0,
        })
    }

    /// The bytes that the sink holds.
    pub fn held(&self) -> &[u8]
        ensures { result.now ≡ self.now.held }
    {
        &self.bytes
    }
}

impl Sink for MemSink {
    ghost held = { λ store. Some store.held };

    ghost faults = { λ store. store.faults };

    /// Takes what still fits. It fails exactly where nothing does.
    fn write(&mut self, bytes: &[u8]) -> Result<usize, Failed>
        requires { 0 < length bytes.now }
        ensures within { WritesAtMost result bytes.now }
        ensures some { IfOk result (λ n. 0 < n) }
        ensures appended { IfOk result (λ n. Appends (Some self.old.held) (Some self.new.held) (take n bytes.now)) }
        ensures kept { OnErr result (Keeps (Some self.old.held) (Some self.new.held)) }
        ensures cause { OnErr result (Rises self.old.faults self.new.faults) }
        ensures never_falls { self.old.faults ≤ self.new.faults }

        // A write fails exactly where nothing fits.
        ensures failed { IsErr result ↔ (self.old.room ≤ length self.old.held) }
        ensures count { IfOk result (λ n. n ≡ fitting_count self.old (length bytes.now)) }
        ensures ok { IfOk result (λ n. self.new ≡ record self.old { held = self.old.held ++ take n bytes.now }) }
        ensures err { OnErr result (self.new ≡ record self.old { faults = raised self.old.faults }) }
    {
        let count = bytes.len().min(self.room - self.bytes.len());
        if count == 0 || self.bytes.extend_from_slice(&bytes[..count]).is_err() {
            self.faults = self.faults.saturating_add(1);
            return Err(Failed);
        }
        Ok(count)
    }
}
