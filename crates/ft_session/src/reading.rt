ghost use Rattle.std.specs.Prelude.{◌≡◌, ◌+◌, ◌^◌, ◌<◌, ◌≤◌, length, string_bytes, vec_len, IfOk, IfSome, IsSome, OnOk, MatchResult};
ghost use Rattle.ft_base.specs.Limits.{max_session_bytes};
ghost use Rattle.ft_io.specs.Faults.{CountsFault};
ghost use Rattle.ft_io.specs.Shelf.{Reads, bytes_of, known_bytes};

use ft_base::MAX_SESSION_BYTES;
use ft_io::{Failed, Shelf};
use std::alloc::{AllocError, Global};

/// How many bytes are read at most: one more than a session may have.
pub(crate) const MOST: u64 = MAX_SESSION_BYTES + 1;

/// A buffer for the pieces.
pub(crate) fn buffer(alloc: Global, size: usize) -> Result<Vec<u8>, AllocError>
    ensures { IfOk result (λ bytes. vec_len bytes ≡ size) }
{
    vec![in alloc; 0u8; size]
}

/// Reads the piece of the file after the bytes that were taken, into the front of the buffer. It answers how many bytes
/// that are, 0 at the file's end.
pub(crate) fn read_piece<S: Shelf>(
    name: &String,
    shelf: &mut S,
    taken: u64,
    buffer: &mut [u8],
) -> Result<usize, Failed>
    requires room { 0 < length buffer.old }
    requires below { taken < max_session_bytes + 1 }
    requires reached { S.reached shelf.old (string_bytes name.now) ≡ taken }
    requires countable { S.faults shelf.old (string_bytes name.now) + 1 < 2 ^ 64 }
    ensures within { IfOk result (λ count. count ≤ length buffer.old) }
    ensures below { IfOk result (λ count. taken + count ≤ max_session_bytes + 1) }
    ensures reached { MatchResult result (λ count. S.reached shelf.new (string_bytes name.now) ≡ taken + count)
        (λ _. S.reached shelf.new (string_bytes name.now) ≡ taken) }
    ensures cause { CountsFault (S.faults shelf.old (string_bytes name.now)) (S.faults shelf.new (string_bytes name.now)) result }
    ensures files { S.files shelf.new ≡ S.files shelf.old }

    // where the files are known
    ensures present { OnOk result (IfSome (S.files shelf.old) (λ known. IsSome (bytes_of known (string_bytes name.now)))) }
    ensures content { IfOk result (λ count. IfSome (known_bytes (S.files shelf.old) (string_bytes name.now)) (λ bytes. Reads bytes taken count buffer.new)) }
{
    let room = buffer.len().min((MOST - taken) as usize);
    shelf.read_at(name.as_str(), taken, &mut buffer[..room])
}
