ghost use Rattle.std.specs.Prelude.{◌≡◌, ◌+◌, ◌++◌, ◌∷◌, ◌≤◌, ◌<◌, ◌^◌, Bool, List, ℕ, [], true, drop, length, take, Some, None, IfOk, OnOk};
ghost use Rattle.std.specs.List.{list_all};
ghost use Rattle.std.specs.Option.{option_to_list};
ghost use Rattle.reply_lines.specs.Given.{block_lengths, is_readable};
ghost use Rattle.session_text.specs.SizedBlocks.{block_size};
ghost use Rattle.session_text.specs.steps.SizedReading.{IsSizedPlace, after_block, after_first, block_grown, bytes_held, closed_command, last_sized};
ghost use Rattle.session_text.specs.steps.SizedReading.{left_of, number_past as past, sized_commands_from, sized_ended_at, sized_held_length, sized_line_ended};

use crate::add::add;
use crate::parse::{block_size_of, read_line, read_sized_block};
use crate::{Command, Commands};
use ft_base::{Bytes, Memory};
use std::alloc::Global;
use std::marker::Model;
use text_lines::{drop_return, is_skipped, line_end};

/// A command whose block has begun: its line, how many bytes of the block are left, and those that were read.
#[derive(Drop)]
struct SizedBlock {
    line: Vec<u8>,
    left: usize,
    block: Vec<u8>,
}

impl Model for SizedBlock {
    ghost use Rattle.session_text.specs.steps.SizedReading.{SizedOpened};

    ghost Value = { SizedOpened };

    ghost view = { λ begun. record { line = begun.line.items; left = begun.left; block = begun.block.items } };
}

/// How far a session was read whose blocks have lengths: the number of the line that is read, or of the one whose block is; the bytes of
/// the line that hasn't ended; and the command whose block has begun.
#[derive(Drop)]
pub(crate) struct SizedUnfinished {
    number: u64,
    rest: Vec<u8>,
    opened: Option<SizedBlock>,
}

impl Model for SizedUnfinished {
    ghost use Rattle.session_text.specs.steps.SizedReading.{SizedPlace};

    ghost Value = { SizedPlace };

    ghost view = { λ place. record { number = place.number; rest = place.rest.items; opened = place.opened } };
}

/// The number of the line after bytes that begin in the line of that number.
fn number_past(number: u64, bytes: &[u8]) -> u64
    requires { number + length bytes.now < 2 ^ 64 }
    ensures value { result ≡ past number bytes.now }
    ensures bound { result ≤ number + length bytes.now }
{
    let mut current = number;
    for byte in bytes {
        if *byte == b'\n' {
            current += 1;
        }
    }
    current
}

/// The command of a line and its block, behind which those bytes end the block's last line.
fn close(
    alloc: Global,
    number: u64,
    line: &[u8],
    block: Bytes,
    suffix: &[u8],
) -> Result<Command, Memory>
    ensures { IfOk result (λ command. command ≡ closed_command number line.now block suffix.now) }
{
    if !drop_return(suffix).is_empty() {
        return Ok(Command::BadCommand { line: number });
    }
    read_sized_block(alloc, number, line, block)
}

impl SizedUnfinished {
    /// After the session's first line.
    pub(crate) fn new(alloc: Global) -> SizedUnfinished
        ensures { result ≡ after_first }
    {
        SizedUnfinished {
            number: 2,
            rest: Vec::new(alloc),
            opened: None,
        }
    }

    /// How many bytes of the block are left.
    fn left(&self) -> usize
        ensures { result ≡ left_of self.now.opened }
    {
        match &self.opened {
            Some(begun) => begun.left,
            None => 0,
        }
    }

    /// Takes bytes of the block.
    fn grow(&mut self, bytes: &[u8]) -> Result<(), Memory>
        requires { length bytes.now ≤ left_of self.old.opened }
        ensures { OnOk result (self.new ≡ block_grown self.old bytes.now) }
    {
        if let Some(begun) = &mut self.opened {
            begun.block.extend_from_slice(bytes)?;
            begun.left -= bytes.len();
        }
        Ok(())
    }

    /// What the line says that ended, which no block goes before.
    fn end_line(&mut self, alloc: Global) -> Result<Option<Command>, Memory>
        requires room { self.old.number + 1 < 2 ^ 64 }
        requires outside { self.old.opened ≡ None }
        ensures command { IfOk result (λ command. command ≡ (sized_line_ended self.old.number self.old.rest (block_size self.old.rest)).0) }
        ensures place { OnOk result (self.new ≡ (sized_line_ended self.old.number self.old.rest (block_size self.old.rest)).1) }
    {
        let number = self.number;
        let line = std::mem::replace(&mut self.rest, Vec::new(alloc));
        if let Some(left) = block_size_of(&line) {
            self.opened = Some(SizedBlock {
                line,
                left,
                block: Vec::new(alloc),
            });
            return Ok(None);
        }
        self.number = number + 1;
        if is_skipped(&line) {
            return Ok(None);
        }
        Ok(Some(read_line(alloc, true, number, &line)?))
    }

    /// What the line says whose block ended, and the rest of the line behind it.
    fn end_block(&mut self, alloc: Global, begun: SizedBlock) -> Result<Command, Memory>
        requires room { self.old.number + length begun.block + 2 < 2 ^ 64 }
        requires outside { self.old.opened ≡ None }
        ensures command { IfOk result (λ command. command ≡ closed_command self.old.number begun.line begun.block self.old.rest) }
        ensures place { OnOk result (self.new ≡ after_block self.old.number begun.block) }
    {
        let number = self.number;
        let suffix = std::mem::replace(&mut self.rest, Vec::new(alloc));
        let SizedBlock {
            line,
            left: _,
            block,
        } = begun;
        self.number = number_past(number + 1, &block) + 1;
        close(alloc, number, &line, Bytes::from_vec(block), &suffix)
    }

    /// Takes the last part of the line, whose line feed is after it, and gives the command that is whole with it.
    fn end_rest(&mut self, alloc: Global, part: &[u8]) -> Result<Option<Command>, Memory>
        requires room { self.old.number + length (bytes_held self.old) + 2 < 2 ^ 64 }
        ensures command { IfOk result (λ command. command ≡ (sized_ended_at self.old part.now).0) }
        ensures place { OnOk result (self.new ≡ (sized_ended_at self.old part.now).1) }
    {
        self.rest.extend_from_slice(part)?;
        match self.opened.take() {
            None => self.end_line(alloc),
            Some(begun) => Ok(Some(self.end_block(alloc, begun)?)),
        }
    }

    /// Takes a part of the bytes: of the block that has begun, or else up to the next line feed. Adds the command that is whole with them,
    /// and gives what stands after them.
    fn take_part<'a>(
        &mut self,
        alloc: Global,
        bytes: &'a [u8],
        found: &mut Commands,
    ) -> Result<&'a [u8], Memory>
        requires room { self.old.number + length (bytes_held self.old) + length bytes.now + 2 < 2 ^ 64 }
        requires place { IsSizedPlace self.old }
        requires some { 0 < length bytes.now }
        ensures commands { IfOk result (λ suffix. (at_end : Bool) (more : List ℕ) →
            found.old ++ sized_commands_from at_end self.old (bytes.now ++ more) ≡ found.new ++ sized_commands_from at_end self.new (suffix.now ++ more)) }
        ensures readable { OnOk result (list_all is_readable found.old ≡ true → list_all is_readable found.new ≡ true) }
        ensures blocks { IfOk result (λ suffix.
            block_lengths found.new + sized_held_length self.new + length suffix.now ≤ block_lengths found.old + sized_held_length self.old + length bytes.now) }
        ensures place { OnOk result (IsSizedPlace self.new) }
        ensures counted { IfOk result (λ suffix.
            self.new.number + length (bytes_held self.new) + length suffix.now ≤ self.old.number + length (bytes_held self.old) + length bytes.now) }
        ensures shorter { IfOk result (λ suffix. length suffix.now < length bytes.now) }
    {
        let left = self.left();
        if left > 0 {
            let count = left.min(bytes.len());
            self.grow(&bytes[..count])?;
            return Ok(&bytes[count..]);
        }
        let end = line_end(bytes);
        if end == bytes.len() {
            self.rest.extend_from_slice(bytes)?;
            return Ok(&bytes[end..]);
        }
        let command = self.end_rest(alloc, &bytes[..end])?;
        add(found, command)?;
        Ok(&bytes[end + 1..])
    }

    /// Takes the next piece, and gives the commands that are whole with it.
    pub(crate) fn take_piece(&mut self, alloc: Global, piece: &[u8]) -> Result<Commands, Memory>
        requires room { self.old.number + length (bytes_held self.old) + length piece.now + 2 < 2 ^ 64 }
        requires place { IsSizedPlace self.old }
        ensures commands { IfOk result (λ found. (at_end : Bool) (more : List ℕ) →
            sized_commands_from at_end self.old (piece.now ++ more) ≡ found ++ sized_commands_from at_end self.new more) }
        ensures readable { IfOk result (λ found. list_all is_readable found ≡ true) }
        ensures blocks { IfOk result (λ found. block_lengths found + sized_held_length self.new ≤ sized_held_length self.old + length piece.now) }
        ensures place { OnOk result (IsSizedPlace self.new) }
        ensures counted { OnOk result (self.new.number + length (bytes_held self.new) ≤ self.old.number + length (bytes_held self.old) + length piece.now) }
    {
        let mut found = Commands::new(alloc);
        let mut suffix = piece;
        while !suffix.is_empty() {
            suffix = self.take_part(alloc, suffix, &mut found)?;
        }
        Ok(found)
    }

    /// The command that the session's end leaves, if it leaves one.
    pub(crate) fn finish(&mut self, alloc: Global) -> Result<Option<Command>, Memory>
        requires room { self.old.number + length (bytes_held self.old) + 2 < 2 ^ 64 }
        requires place { IsSizedPlace self.old }
        ensures command { IfOk result (λ last. sized_commands_from true self.old [] ≡ option_to_list last) }
        ensures readable { IfOk result (λ last. list_all is_readable (option_to_list last) ≡ true) }
        ensures blocks { IfOk result (λ last. block_lengths (option_to_list last) ≤ sized_held_length self.old) }
    {
        let number = self.number;
        if self.left() > 0 {
            return Ok(Some(Command::BadCommand { line: number }));
        }
        if self.rest.is_empty() && self.opened.is_none() {
            return Ok(None);
        }
        if let Some(command) = self.end_rest(alloc, b"")? {
            return Ok(Some(command));
        }
        self.finish_block(alloc)
    }

    /// The command of a line that ended with the session, if a block was to follow it.
    fn finish_block(&mut self, alloc: Global) -> Result<Option<Command>, Memory>
        requires { self.old.number + length (bytes_held self.old) + 1 < 2 ^ 64 }
        ensures { IfOk result (λ last. last ≡ last_sized self.old) }
    {
        match self.opened.take() {
            None => Ok(None),
            Some(begun) if begun.left > 0 => Ok(Some(Command::BadCommand { line: self.number })),
            Some(begun) => Ok(Some(self.end_block(alloc, begun)?)),
        }
    }
}
