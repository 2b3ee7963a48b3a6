//! Where bytes come from.
ghost use Rattle.std.specs.Prelude.{◌≡◌, ◌<◌, ◌≤◌, ℕ, List, Option, length, take, IfOk, OnErr};
ghost use Rattle.std.specs.Io.{ReadsAtMost};
ghost use Rattle.std.specs.Io.KnownBytes.{Consumes, Keeps};
ghost use Rattle.rv_io.specs.Counts.{Rises};
ghost use Rattle.rv_io.specs.Moves.{TellsEnd};

use crate::error::Failed;

/// A source of bytes that may fail, and counts its faults.
pub trait Source {
    /// The bytes that are left, where the source tells them.
    ghost left: { Self → Option (List ℕ) };

    /// How many faults there were. The count never falls, and stands still at the greatest u64.
    ghost faults: { Self → ℕ };

    /// Moves the next bytes into the front of `buf`, and answers how many. None are the end of input.
    /// What stands in `buf` behind them, and in all of it after `Failed`, is open.
    fn read(&mut self, buf: &mut [u8]) -> Result<usize, Failed>
        requires { 0 < length buf.old }
        ensures within { ReadsAtMost result buf.new }
        ensures taken { IfOk result (λ n. Consumes (left self.old) (left self.new) (take n buf.new)) }
        ensures end { IfOk result (TellsEnd (left self.old)) }

        // After `Failed` no byte was taken, and the count rose.
        ensures kept { OnErr result (Keeps (left self.old) (left self.new)) }
        ensures cause { OnErr result (Rises (faults self.old) (faults self.new)) }
        ensures never_falls { faults self.old ≤ faults self.new };
}
