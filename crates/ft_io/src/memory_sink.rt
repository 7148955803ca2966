ghost use Rattle.std.specs.Prelude.{◌≡◌, ◌+◌, ◌^◌, ◌<◌, ◌≤◌, [], length, IfOk, min, IsErr, ◌↔◌};
ghost use Rattle.ft_io.specs.Faults.{CountsFault};
ghost use Rattle.ft_io.specs.MemorySink.{empty_sink, space_left, count_taken, sink_after};
ghost use Rattle.ft_io.specs.Sink.{written_after};

use crate::{Failed, Sink};
use ft_base::Memory;
use std::alloc::Global;
use std::marker::Model;

/// A sink in memory. It takes as many bytes as it was made for, and fails then. It can be made to take few at once.
#[derive(Drop)]
pub struct MemorySink {
    bytes: Vec<u8>,
    room: usize,
    total: u64,
    piece: usize,
    faults: u64,
}

impl Model for MemorySink {
    ghost use Rattle.std.specs.Prelude.{◌≤◌, vec_len, vec_capacity};
    ghost use Rattle.ft_io.specs.MemorySink.{Held};

    ghost Value = { Held };

    ghost view = { λ sink. record { bytes = sink.bytes.items; room = sink.room; total = sink.total; piece = sink.piece; faults = sink.faults } };

    ghost invariant = { λ sink. (vec_len sink.bytes ≤ sink.room) × (sink.room ≤ vec_capacity sink.bytes) × (1 ≤ sink.piece) };
}

impl MemorySink {
    /// A sink with room for that many bytes, which it takes from memory at once.
    pub fn new(alloc: Global, room: usize) -> Result<MemorySink, Memory>
        ensures { IfOk result (λ sink. sink ≡ empty_sink room) }
    {
        let bytes = Vec::with_capacity(alloc, room)?;
        Ok(MemorySink {
            bytes,
            room,
            total: u64::MAX,
            piece: usize::MAX,
            faults: 0,
        })
    }

    /// From now on the sink fails once it holds that many bytes.
    pub fn fail_after(&mut self, bytes: u64)
        ensures { self.new ≡ record self.old { total = bytes } }
    {
        self.total = bytes;
    }

    /// From now on a write takes at most that many bytes.
    pub fn set_piece(&mut self, most: usize)
        requires { 1 ≤ most }
        ensures { self.new ≡ record self.old { piece = most } }
    {
        self.piece = most;
    }

    /// The bytes so far.
    pub fn written(&self) -> &[u8]
        ensures { result.now ≡ self.now.bytes }
    {
        self.bytes.as_slice()
    }

    // How many bytes it still takes.
    fn space_left(&self) -> usize
        ensures { result ≡ space_left self.now }
    {
        let held = self.bytes.len();
        let total = self.total as usize;
        (self.room - held).min(total.saturating_sub(held))
    }
}

impl Sink for MemorySink {
    ghost use Rattle.std.specs.Prelude.{Some};

    ghost written = { λ sink. Some sink.bytes };

    ghost faults = { λ sink. sink.faults };

    fn write(&mut self, from: &[u8]) -> Result<usize, Failed>
        requires some { 0 < length from.now }
        requires countable { self.old.faults + 1 < 2 ^ 64 }
        ensures progress { IfOk result (λ count. 1 ≤ count) }
        ensures count { IfOk result (λ count. count ≡ count_taken self.old (length from.now)) }
        ensures failed { IsErr result ↔ (space_left self.old ≡ 0) }
        ensures after { self.new ≡ sink_after self.old from.now result }
    {
        let space = self.space_left();
        if space == 0 {
            self.faults += 1;
            return Err(Failed);
        }
        let count = from.len().min(space).min(self.piece);
        self.bytes.extend_from_slice(&from[..count]).unwrap();
        Ok(count)
    }
}
