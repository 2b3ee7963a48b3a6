//! Where bytes go.
ghost use Rattle.std.specs.Prelude.{◌≡◌, ◌<◌, ◌≤◌, ℕ, List, Option, length, take, IfOk, OnErr};
ghost use Rattle.std.specs.Io.{WritesAtMost};
ghost use Rattle.std.specs.Io.KnownBytes.{Appends, Keeps};
ghost use Rattle.rv_io.specs.Counts.{Rises};

use crate::error::Failed;

/// A sink of bytes that may fail, and counts its faults.
pub trait Sink {
    /// The bytes that the sink holds, where it tells them.
    ghost held: { Self → Option (List ℕ) };

    /// How many faults there were. The count never falls, and stands still at the greatest u64.
    ghost faults: { Self → ℕ };

    /// Appends the first bytes of `bytes`, at least one, and answers how many.
    fn write(&mut self, bytes: &[u8]) -> Result<usize, Failed>
        requires { 0 < length bytes.now }
        ensures within { WritesAtMost result bytes.now }
        ensures some { IfOk result (λ n. 0 < n) }
        ensures appended { IfOk result (λ n. Appends (held self.old) (held self.new) (take n bytes.now)) }

        // After `Failed` nothing was appended, and the count rose.
        ensures kept { OnErr result (Keeps (held self.old) (held self.new)) }
        ensures cause { OnErr result (Rises (faults self.old) (faults self.new)) }
        ensures never_falls { faults self.old ≤ faults self.new };
}
