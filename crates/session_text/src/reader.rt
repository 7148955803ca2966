ghost use Rattle.std.specs.Prelude.{◌≡◌, ◌+◌, ◌++◌, ◌<◌, ◌≤◌, ◌^◌, List, ℕ, [], true, length, is_err, IfOk, IsErr, OnErr, OnOk};
ghost use Rattle.std.specs.Option.{option_to_list};
ghost use Rattle.std.specs.List.{list_all};
ghost use Rattle.session_text.specs.Commands.{commands, whole};
ghost use Rattle.reply_lines.specs.Given.{block_lengths, is_readable};
ghost use Rattle.session_text.specs.Reading.{commands_left, new_reading, whole_left};
ghost use Rattle.session_text.specs.steps.Reached.{bytes_held_back};

use crate::reached::Reached;
use crate::{Command, Commands};
use ft_base::Memory;
use std::alloc::Global;
use std::marker::Model;

/// The reader of a session, whose bytes may come in any pieces. It keeps the unfinished line, and the unfinished block.
#[derive(Drop)]
pub struct Lines_ {
    alloc: Global,
    place: Reached,
    bytes: u64,
    failed: bool,
}

impl Model for Lines_ {
    ghost use Rattle.std.specs.Prelude.{◌≡◌, ◌<◌, ◌^◌, false};
    ghost use Rattle.session_text.specs.Reading.{Reading};
    ghost use Rattle.session_text.specs.steps.Reached.{IsPlace};

    ghost Value = { Reading };

    ghost view = { λ reader. record { place = reader.place; bytes = reader.bytes; failed = reader.failed } };

    ghost invariant = { λ reader. (reader.bytes < 2 ^ 63) × (reader.failed ≡ false → IsPlace reader.place reader.bytes) };
}

impl Lines_ {
    /// Before a session's first byte.
    pub fn new(alloc: Global) -> Lines_
        ensures reading { result ≡ new_reading }
        ensures commands { (session : List ℕ) → commands_left result session ≡ commands session }
        ensures whole { (session : List ℕ) → whole_left result session ≡ whole session }
    {
        Lines_ {
            alloc,
            place: Reached::new(alloc),
            bytes: 0,
            failed: false,
        }
    }

    /// Takes the next bytes of the session, and gives the commands that became whole with them. Once it answered
    /// `Memory`, the reader answers `Memory` from then on.
    pub fn feed(&mut self, piece: &[u8]) -> Result<Commands, Memory>
        requires room { self.old.bytes + length piece.now < 2 ^ 63 }
        ensures commands { IfOk result (λ given. (more : List ℕ) →
            commands_left self.old (piece.now ++ more) ≡ given ++ commands_left self.new more) }
        ensures whole { IfOk result (λ given. (more : List ℕ) →
            whole_left self.old (piece.now ++ more) ≡ given ++ whole_left self.new more) }
        ensures none_held { OnOk result (whole_left self.new [] ≡ []) }
        ensures readable { IfOk result (λ given. list_all is_readable given ≡ true) }
        ensures blocks { IfOk result (λ given. block_lengths given + bytes_held_back self.new.place ≤ bytes_held_back self.old.place + length piece.now) }

        // what the reader counts, and that it fails from then on
        ensures bytes { self.new.bytes ≡ self.old.bytes + length piece.now }
        ensures failed { self.new.failed ≡ is_err result }
        ensures fails_on { self.old.failed ≡ true → IsErr result }
    {
        let taken = self.bytes;
        self.bytes += piece.len() as u64;
        if self.failed {
            return Err(Memory);
        }
        self.failed = true;
        let given = self.place.take_piece(self.alloc, taken, piece)?;
        self.failed = false;
        Ok(given)
    }

    /// Takes the session's end, and gives the command that an unfinished line or block is then. The reader is then as a
    /// new one.
    pub fn end(&mut self) -> Result<Option<Command>, Memory>
        ensures commands { IfOk result (λ last. commands_left self.old [] ≡ option_to_list last) }
        ensures readable { IfOk result (λ last. list_all is_readable (option_to_list last) ≡ true) }
        ensures blocks { IfOk result (λ last. block_lengths (option_to_list last) ≤ bytes_held_back self.old.place) }
        ensures new { OnOk result (self.new ≡ new_reading) }
        ensures failed { OnErr result (self.new.failed ≡ true) }
        ensures bytes { OnErr result (self.new.bytes ≡ self.old.bytes) }
        ensures fails_on { self.old.failed ≡ true → IsErr result }
    {
        if self.failed {
            return Err(Memory);
        }
        self.failed = true;
        let last = self.place.finish(self.alloc, self.bytes)?;
        *self = Lines_::new(self.alloc);
        Ok(last)
    }
}
