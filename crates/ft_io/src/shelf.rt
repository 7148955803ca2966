ghost use Rattle.std.specs.Prelude.{◌≡◌, ◌+◌, ◌^◌, ◌<◌, ◌≤◌, List, ℕ, Option, length, IfOk, IfSome, IsSome, OnOk};
ghost use Rattle.ft_io.specs.Faults.{CountsFault};
ghost use Rattle.ft_io.specs.Shelf.{Files, known_bytes, bytes_of, Reads, reached_after};

use crate::Failed;

/// Files by name, each a row of bytes that can be read at any place.
pub trait Shelf {
    /// The files, where they are known. An operating system's files are not.
    ghost files: { Self → Option Files };

    /// How often a read of that name failed. It may count other names too.
    ghost faults: { Self → List ℕ → ℕ };

    /// How far a file was read: the greatest end of a read that gave bytes. It may count other names too, and is 0 on a new shelf.
    ghost reached: { Self → List ℕ → ℕ };

    /// Reads some of the file's bytes, from the place `at` on, into the front of `into`, and answers how many. It answers 0
    /// exactly where the place is at the file's end or past it. After `Failed`, `into` may hold anything.
    fn read_at(&mut self, name: &str, at: u64, into: &mut [u8]) -> Result<usize, Failed>
        requires room { 0 < length into.old }
        requires end { at + length into.old < 2 ^ 64 }
        requires countable { faults self.old name.now + 1 < 2 ^ 64 }
        ensures within { IfOk result (λ count. count ≤ length into.old) }
        ensures cause { CountsFault (faults self.old name.now) (faults self.new name.now) result }
        ensures reached { reached self.new name.now ≡ reached_after (reached self.old name.now) at result }

        // where the files are known
        ensures present { OnOk result (IfSome (files self.old) (λ known. IsSome (bytes_of known name.now))) }
        ensures content { IfOk result (λ count.
            IfSome (known_bytes (files self.old) name.now) (λ bytes. Reads bytes at count into.new)) }

        // the files stay, and no count falls
        ensures files { files self.new ≡ files self.old }
        ensures other_faults { (other : List ℕ) → faults self.old other ≤ faults self.new other }
        ensures other_reached { (other : List ℕ) → reached self.old other ≤ reached self.new other };
}
