ghost use Rattle.std.specs.Prelude.{◌≡◌, ◌+◌, ◌^◌, ◌<◌, ◌≤◌, List, ℕ, Option, length, IfOk};
ghost use Rattle.ft_io.specs.Faults.{CountsFault};
ghost use Rattle.ft_io.specs.Sink.{written_after};

use crate::Failed;

/// What takes bytes, one after the other.
pub trait Sink {
    /// The bytes so far, where the sink tells them.
    ghost written: { Self → Option (List ℕ) };

    /// How often a write failed.
    ghost faults: { Self → ℕ };

    /// Takes some bytes from the front of `from`, at least one, and answers how many. `Failed` takes none.
    fn write(&mut self, from: &[u8]) -> Result<usize, Failed>
        requires some { 0 < length from.now }
        requires countable { faults self.old + 1 < 2 ^ 64 }
        ensures progress { IfOk result (λ count. 1 ≤ count) }
        ensures within { IfOk result (λ count. count ≤ length from.now) }
        ensures written { written self.new ≡ written_after (written self.old) from.now result }
        ensures cause { CountsFault (faults self.old) (faults self.new) result };
}
