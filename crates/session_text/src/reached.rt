ghost use Rattle.std.specs.Prelude.{◌≡◌, ◌+◌, ◌++◌, ◌≤◌, ◌<◌, ◌^◌, Bool, List, ℕ, [], true, length, IfOk, OnOk};
ghost use Rattle.std.specs.List.{list_all};
ghost use Rattle.std.specs.Option.{option_to_list};
ghost use Rattle.reply_lines.specs.Given.{block_lengths, is_readable};
ghost use Rattle.session_text.specs.Commands.{says_second as second_follows};
ghost use Rattle.session_text.specs.steps.Reached.{IsFirstLine, IsPlace, at_front, bytes_held_back, commands_after};

use crate::line::{is_word, skip_mark};
use crate::sized::SizedUnfinished;
use crate::unfinished::Unfinished;
use crate::{Command, Commands};
use ft_base::Memory;
use std::alloc::Global;
use std::marker::Model;
use text_lines::{drop_return, line_end};

/// What blocks end at, if the session's first line is known.
#[derive(Clone, Copy, PartialEq, Eq)]
pub(crate) enum Stage {
    /// The first line hasn't ended.
    FirstLine,
    /// Blocks end at a line that is a period.
    PeriodBlocks,
    /// Blocks have the lengths that their lines tell.
    SizedBlocks,
}

/// How far a session was read: which reader reads it, and its place. The first line is held by the first one.
#[derive(Drop)]
pub(crate) struct Reached {
    stage: Stage,
    lines: Unfinished,
    sized: SizedUnfinished,
}

impl Model for Reached {
    ghost use Rattle.session_text.specs.steps.Reached.{Reached};

    ghost Value = { Reached };

    ghost view = { λ reached. record { stage = reached.stage; lines = reached.lines; sized = reached.sized } };
}

/// Whether a first line says that the session is of format 2.
fn says_second(line: &[u8]) -> bool
    ensures { result ≡ second_follows line.now }
{
    is_word(drop_return(line), "session 2")
}

impl Reached {
    /// Before the first byte.
    pub(crate) fn new(alloc: Global) -> Reached
        ensures { result ≡ at_front }
    {
        Reached {
            stage: Stage::FirstLine,
            lines: Unfinished::new(alloc),
            sized: SizedUnfinished::new(alloc),
        }
    }

    /// Takes the next piece, and gives the commands that are whole with it.
    pub(crate) fn take_piece(
        &mut self,
        alloc: Global,
        taken: u64,
        piece: &[u8],
    ) -> Result<Commands, Memory>
        requires room { taken + length piece.now < 2 ^ 63 }
        requires place { IsPlace self.old taken }
        ensures commands { IfOk result (λ found. (at_end : Bool) (more : List ℕ) →
            commands_after at_end self.old (piece.now ++ more) ≡ found ++ commands_after at_end self.new more) }
        ensures readable { IfOk result (λ found. list_all is_readable found ≡ true) }
        ensures blocks { IfOk result (λ found. block_lengths found + bytes_held_back self.new ≤ bytes_held_back self.old + length piece.now) }
        ensures place { OnOk result (IsPlace self.new (taken + length piece.now)) }
    {
        match self.stage {
            Stage::FirstLine => self.take_first(alloc, taken, piece),
            Stage::PeriodBlocks => self.lines.take_piece(alloc, piece),
            Stage::SizedBlocks => self.sized.take_piece(alloc, piece),
        }
    }

    /// The same where the first line hasn't ended.
    fn take_first(&mut self, alloc: Global, taken: u64, piece: &[u8]) -> Result<Commands, Memory>
        requires room { taken + length piece.now < 2 ^ 63 }
        requires first { self.old.stage ≡ Stage.FirstLine }
        requires place { IsFirstLine self.old.lines self.old.sized taken }
        ensures commands { IfOk result (λ found. (at_end : Bool) (more : List ℕ) →
            commands_after at_end self.old (piece.now ++ more) ≡ found ++ commands_after at_end self.new more) }
        ensures readable { IfOk result (λ found. list_all is_readable found ≡ true) }
        ensures blocks { IfOk result (λ found. block_lengths found + bytes_held_back self.new ≤ bytes_held_back self.old + length piece.now) }
        ensures place { OnOk result (IsPlace self.new (taken + length piece.now)) }
    {
        let end = line_end(piece);
        self.lines.hold(&piece[..end])?;
        if end == piece.len() {
            return Ok(Commands::new(alloc));
        }
        if says_second(skip_mark(self.lines.held())) {
            self.stage = Stage::SizedBlocks;
            return self.sized.take_piece(alloc, &piece[end + 1..]);
        }
        self.stage = Stage::PeriodBlocks;
        self.lines.take_piece(alloc, &piece[end..])
    }

    /// The command that the session's end leaves, if it leaves one.
    pub(crate) fn finish(&mut self, alloc: Global, taken: u64) -> Result<Option<Command>, Memory>
        requires room { taken < 2 ^ 63 }
        requires place { IsPlace self.old taken }
        ensures command { IfOk result (λ last. commands_after true self.old [] ≡ option_to_list last) }
        ensures readable { IfOk result (λ last. list_all is_readable (option_to_list last) ≡ true) }
        ensures blocks { IfOk result (λ last. block_lengths (option_to_list last) ≤ bytes_held_back self.old) }
    {
        match self.stage {
            Stage::FirstLine => self.finish_first(alloc, taken),
            Stage::PeriodBlocks => self.lines.finish(alloc),
            Stage::SizedBlocks => self.sized.finish(alloc),
        }
    }

    /// The same where the first line hasn't ended.
    fn finish_first(&mut self, alloc: Global, taken: u64) -> Result<Option<Command>, Memory>
        requires room { taken < 2 ^ 63 }
        requires first { self.old.stage ≡ Stage.FirstLine }
        requires place { IsFirstLine self.old.lines self.old.sized taken }
        ensures command { IfOk result (λ last. commands_after true self.old [] ≡ option_to_list last) }
        ensures readable { IfOk result (λ last. list_all is_readable (option_to_list last) ≡ true) }
        ensures blocks { IfOk result (λ last. block_lengths (option_to_list last) ≤ bytes_held_back self.old) }
    {
        if says_second(skip_mark(self.lines.held())) {
            return Ok(None);
        }
        self.lines.finish(alloc)
    }
}
