ghost use Rattle.std.specs.Prelude.{◌≡◌, ◌+◌, ◌++◌, ◌≤◌, ◌<◌, ◌^◌, ◌∷◌, Bool, List, ℕ, [], true, drop, length, take, Some, None, IfOk, OnOk};
ghost use Rattle.std.specs.List.{list_all, position_or_len};
ghost use Rattle.reply_lines.specs.Given.{block_lengths, is_readable};
ghost use Rattle.std.specs.Option.{option_map, option_to_list};
ghost use Rattle.ft_base.specs.Characters.{is_line_feed};
ghost use Rattle.session_text.specs.steps.Blocks.{without_last};
ghost use Rattle.session_text.specs.PeriodBlocks.{closes_block, unquoted};
ghost use Rattle.session_text.specs.steps.PeriodReading.{at_start, after_lines, between_lines, commands_from, ended_at, held_length};
ghost use Rattle.session_text.specs.steps.PeriodReading.{is_unended, line_ended, open_at_end, open_lines, place_after};

use crate::add::add;
use crate::line::{is_word, skip_mark};
use crate::parse::{opens_block, read_block, read_line};
use crate::{Command, Commands};
use ft_base::{Bytes, Memory};
use std::alloc::Global;
use std::marker::Model;
use text_lines::{drop_return, is_skipped, line_end};

/// A command whose block is open: its line, and the block's lines so far, each with
/// a line feed after it. The bytes of the line that hasn't ended stand after them.
#[derive(Drop)]
struct OpenBlock {
    line: Vec<u8>,
    number: u64,
    block: Vec<u8>,
    /// How many bytes the line that hasn't ended has so far.
    held: usize,
}

impl Model for OpenBlock {
    ghost use Rattle.session_text.specs.steps.PeriodReading.{OpenLines, open_lines};

    ghost Value = { OpenLines };

    ghost view = { λ pending. open_lines pending.line.items pending.number pending.held pending.block.items };
}

/// How far a session was read: the lines that ended, the command whose block is open, and outside a block the bytes of the line that hasn't ended.
#[derive(Drop)]
pub(crate) struct Unfinished {
    lines: u64,
    rest: Vec<u8>,
    opened: Option<OpenBlock>,
}

impl Model for Unfinished {
    ghost use Rattle.session_text.specs.steps.PeriodReading.{Place, place_of};

    ghost Value = { Place };

    ghost view = { λ place. place_of place.lines place.rest.items place.opened };
}

/// Whether the line ends a block.
fn closes(line: &[u8]) -> bool
    ensures { result ≡ closes_block line.now }
{
    is_word(drop_return(line), ".")
}

/// The line of a block without the period that quotes it.
fn unquote(line: &[u8]) -> &[u8]
    ensures { result.now ≡ unquoted line.now }
{
    if line.starts_with(b".") {
        &line[1..]
    } else {
        line
    }
}

/// The bytes after that many lines, without a byte order mark at the session's start.
fn skip_mark_at_start(lines: u64, bytes: &[u8]) -> &[u8]
    ensures { result.now ≡ after_lines lines bytes.now }
{
    if lines == 0 { skip_mark(bytes) } else { bytes }
}

/// The block's bytes: the line feed after its last line goes.
fn close(mut block: Vec<u8>) -> Bytes
    ensures { result ≡ without_last block.items }
{
    let end = block.len().saturating_sub(1);
    block.truncate(end);
    Bytes::from_vec(block)
}

impl OpenBlock {
    /// The bytes of the line that hasn't ended.
    fn rest(&self) -> &[u8]
        ensures { result.now ≡ self.now.rest }
    {
        &self.block[self.block.len().saturating_sub(self.held)..]
    }

    /// Adds bytes to the line that hasn't ended.
    fn hold(&mut self, bytes: &[u8]) -> Result<(), Memory>
        ensures { OnOk result (self.new ≡ record self.old { rest = self.old.rest ++ bytes.now }) }
    {
        let lines = self.block.len().saturating_sub(self.held);
        self.block.extend_from_slice(bytes)?;
        self.held = self.block.len() - lines;
        Ok(())
    }
}

/// Takes bytes out of the block.
fn remove_bytes(block: &mut Vec<u8>, from: usize, to: usize)
    requires ordered { from ≤ to }
    requires within { to ≤ length block.old.items }
    ensures { block.new.items ≡ take from block.old.items ++ drop to block.old.items }
{
    let end = block.len();
    if from < to {
        block.copy_within(to..end, from);
        block.truncate(end - (to - from));
    }
}

/// The block with a line feed after the line that ended, which is the block's last.
fn with_line(line: Vec<u8>, number: u64, mut block: Vec<u8>) -> Result<OpenBlock, Memory>
    ensures { IfOk result (λ pending. pending ≡ open_lines line.items number 0 (block.items ++ 10 ∷ [])) }
{
    block.push(b'\n')?;
    Ok(OpenBlock {
        line,
        number,
        block,
        held: 0,
    })
}

/// What a line says in an open block that holds nothing of it: the command, where it closes the block, and else the block with the line.
fn end_block_line(
    alloc: Global,
    pending: OpenBlock,
    line: &[u8],
) -> Result<(Option<Command>, Option<OpenBlock>), Memory>
    requires { pending.rest ≡ [] }
    ensures { IfOk result (λ ended. ended ≡ between_lines (line_ended pending.opened.number (Some pending.opened) line.now)) }
{
    let OpenBlock {
        line: head,
        number,
        mut block,
        held: _,
    } = pending;
    if closes(line) {
        let command = read_block(alloc, number, &head, close(block))?;
        return Ok((Some(command), None));
    }
    block.extend_from_slice(unquote(line))?;
    let pending = with_line(head, number, block)?;
    Ok((None, Some(pending)))
}

/// The same for a line that stands at the end of the block.
fn end_held_line(
    alloc: Global,
    lines: u64,
    pending: OpenBlock,
) -> Result<(Option<Command>, Option<OpenBlock>), Memory>
    ensures { IfOk result (λ ended. ended ≡ between_lines (line_ended pending.opened.number (Some pending.opened) (after_lines lines pending.rest))) }
{
    let line = skip_mark_at_start(lines, pending.rest());
    let is_end = closes(line);
    let kept = unquote(line).len();
    let OpenBlock {
        line: head,
        number,
        mut block,
        held,
    } = pending;
    let end = block.len();
    let start = end.saturating_sub(held);
    if is_end {
        block.truncate(start);
        let command = read_block(alloc, number, &head, close(block))?;
        return Ok((Some(command), None));
    }
    remove_bytes(&mut block, start, end - kept);
    let pending = with_line(head, number, block)?;
    Ok((None, Some(pending)))
}

/// What a line says outside a block: a command, or one whose block it opens, or nothing.
fn end_command_line(
    alloc: Global,
    number: u64,
    line: &[u8],
) -> Result<(Option<Command>, Option<OpenBlock>), Memory>
    ensures { IfOk result (λ ended. ended ≡ between_lines (line_ended number None line.now)) }
{
    if is_skipped(line) {
        return Ok((None, None));
    }
    if opens_block(line) {
        let pending = OpenBlock {
            line: Vec::from_slice(alloc, line)?,
            number,
            block: Vec::new(alloc),
            held: 0,
        };
        return Ok((None, Some(pending)));
    }
    Ok((Some(read_line(alloc, false, number, line)?), None))
}

/// What a line says in an open block, whose last part it is.
fn end_inside(
    alloc: Global,
    lines: u64,
    mut pending: OpenBlock,
    part: &[u8],
) -> Result<(Option<Command>, Option<OpenBlock>), Memory>
    ensures { IfOk result (λ ended. ended
        ≡ between_lines (line_ended pending.opened.number (Some pending.opened) (after_lines lines (pending.rest ++ part.now)))) }
{
    if pending.rest().is_empty() {
        return end_block_line(alloc, pending, skip_mark_at_start(lines, part));
    }
    pending.hold(part)?;
    end_held_line(alloc, lines, pending)
}

/// The command that an open block is, where the session ends.
fn left_open(opened: &Option<OpenBlock>) -> Option<Command>
    ensures { option_to_list result ≡ open_at_end (option_map (λ o. o.opened) opened.now) }
{
    match opened {
        Some(pending) => Some(Command::BadCommand {
            line: pending.number,
        }),
        None => None,
    }
}

impl Unfinished {
    /// Before the first byte.
    pub(crate) fn new(alloc: Global) -> Unfinished
        ensures { result ≡ at_start }
    {
        Unfinished {
            lines: 0,
            rest: Vec::new(alloc),
            opened: None,
        }
    }

    /// Takes the last part of the line, whose line feed is after it, and gives the command that is whole with it.
    fn end_rest(&mut self, alloc: Global, part: &[u8]) -> Result<Option<Command>, Memory>
        requires { self.old.lines + 1 < 2 ^ 64 }
        ensures command { IfOk result (λ command. command ≡ (ended_at self.old part.now).0) }
        ensures place { OnOk result (self.new ≡ place_after self.old part.now) }
    {
        let lines = self.lines;
        let (command, opened) = self.end_part(alloc, part)?;
        self.lines = lines + 1;
        self.rest.clear();
        self.opened = opened;
        Ok(command)
    }

    /// What the line says, whose last part it is.
    fn end_part(
        &mut self,
        alloc: Global,
        part: &[u8],
    ) -> Result<(Option<Command>, Option<OpenBlock>), Memory>
        requires { self.old.lines + 1 < 2 ^ 64 }
        ensures ended { IfOk result (λ ended. ended ≡ between_lines (ended_at self.old part.now)) }
        ensures lines { self.new.lines ≡ self.old.lines }
    {
        match self.opened.take() {
            None => self.end_outside(alloc, part),
            Some(pending) => end_inside(alloc, self.lines, pending, part),
        }
    }

    /// The same outside a block.
    fn end_outside(
        &mut self,
        alloc: Global,
        part: &[u8],
    ) -> Result<(Option<Command>, Option<OpenBlock>), Memory>
        requires room { self.old.lines + 1 < 2 ^ 64 }
        requires outside { self.old.opened ≡ None }
        ensures ended { IfOk result (λ ended. ended ≡ between_lines (ended_at self.old part.now)) }
        ensures lines { self.new.lines ≡ self.old.lines }
    {
        let number = self.lines + 1;
        if self.rest.is_empty() {
            return end_command_line(alloc, number, skip_mark_at_start(self.lines, part));
        }
        self.rest.extend_from_slice(part)?;
        end_command_line(alloc, number, skip_mark_at_start(self.lines, &self.rest))
    }

    /// The bytes of the line that hasn't ended.
    pub(crate) fn held(&self) -> &[u8]
        ensures { result.now ≡ self.now.rest }
    {
        match &self.opened {
            Some(pending) => pending.rest(),
            None => &self.rest,
        }
    }

    /// Adds bytes to the line that hasn't ended.
    pub(crate) fn hold(&mut self, bytes: &[u8]) -> Result<(), Memory>
        ensures { OnOk result (self.new ≡ record self.old { rest = self.old.rest ++ bytes.now }) }
    {
        match &mut self.opened {
            Some(pending) => pending.hold(bytes),
            None => Ok(self.rest.extend_from_slice(bytes)?),
        }
    }

    /// Takes the first line, which ends at that place, adds the command that is whole with it, and gives what stands after it.
    fn take_line<'a>(
        &mut self,
        alloc: Global,
        bytes: &'a [u8],
        end: usize,
        found: &mut Commands,
    ) -> Result<&'a [u8], Memory>
        requires room { self.old.lines + 1 < 2 ^ 64 }
        requires unended { is_unended self.old.rest ≡ true }
        requires feed { end ≡ position_or_len is_line_feed bytes.now }
        requires within { end < length bytes.now }
        ensures commands { IfOk result (λ suffix. (at_end : Bool) (more : List ℕ) →
            found.old ++ commands_from at_end self.old (bytes.now ++ more) ≡ found.new ++ commands_from at_end self.new (suffix.now ++ more)) }
        ensures readable { OnOk result (list_all is_readable found.old ≡ true → list_all is_readable found.new ≡ true) }
        ensures blocks { IfOk result (λ suffix.
            block_lengths found.new + held_length self.new + length suffix.now ≤ block_lengths found.old + held_length self.old + length bytes.now) }
        ensures unended { OnOk result (is_unended self.new.rest ≡ true) }
        ensures lines { OnOk result (self.new.lines ≡ self.old.lines + 1) }
        ensures shorter { IfOk result (λ suffix. length suffix.now + end + 1 ≡ length bytes.now) }
    {
        let command = self.end_rest(alloc, &bytes[..end])?;
        add(found, command)?;
        Ok(&bytes[end + 1..])
    }

    /// Takes the next piece, and gives the commands that are whole with it.
    #[tactic(auto, using(crate::proofs::ReadingLemmas::piece_rest, crate::proofs::PlaceLemmas::unended_rest))]
    pub(crate) fn take_piece(&mut self, alloc: Global, piece: &[u8]) -> Result<Commands, Memory>
        requires room { self.old.lines + length piece.now < 2 ^ 64 }
        requires unended { is_unended self.old.rest ≡ true }
        ensures commands { IfOk result (λ found. (at_end : Bool) (more : List ℕ) →
            commands_from at_end self.old (piece.now ++ more) ≡ found ++ commands_from at_end self.new more) }
        ensures readable { IfOk result (λ found. list_all is_readable found ≡ true) }
        ensures blocks { IfOk result (λ found. block_lengths found + held_length self.new ≤ held_length self.old + length piece.now) }
        ensures unended { OnOk result (is_unended self.new.rest ≡ true) }
        ensures lines { OnOk result (self.new.lines ≤ self.old.lines + length piece.now) }
    {
        let mut found = Commands::new(alloc);
        let mut suffix = piece;
        let mut end = line_end(suffix);
        while end < suffix.len() {
            suffix = self.take_line(alloc, suffix, end, &mut found)?;
            end = line_end(suffix);
        }
        self.hold(suffix)?;
        Ok(found)
    }

    /// The command that the session's end leaves, if it leaves one.
    #[tactic(auto, using(crate::proofs::EndLemmas::ends_whole, crate::proofs::EndLemmas::ends_open, crate::proofs::EndLemmas::ends_empty))]
    pub(crate) fn finish(&mut self, alloc: Global) -> Result<Option<Command>, Memory>
        requires room { self.old.lines + 1 < 2 ^ 64 }
        requires unended { is_unended self.old.rest ≡ true }
        ensures command { IfOk result (λ last. commands_from true self.old [] ≡ option_to_list last) }
        ensures readable { IfOk result (λ last. list_all is_readable (option_to_list last) ≡ true) }
        ensures blocks { IfOk result (λ last. block_lengths (option_to_list last) ≤ held_length self.old) }
    {
        if skip_mark_at_start(self.lines, self.held()).is_empty() {
            return Ok(left_open(&self.opened));
        }
        if let Some(command) = self.end_rest(alloc, b"")? {
            return Ok(Some(command));
        }
        Ok(left_open(&self.opened))
    }
}
