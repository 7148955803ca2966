ghost use Rattle.std.specs.Prelude.{◌≡◌, ◌≤◌, false, true, IfOk, IfSome, IfNone};
ghost use Rattle.text_lines.specs.Lines.{is_skipped, trimmed_line};
ghost use Rattle.session_text.specs.LineCommands.{alone as made_alone, block_command, command_of_block, command_of_line, command_of_sized_block, how_of, insertion};
ghost use Rattle.session_text.specs.LineCommands.{line_command, list_command, name_command, opens_block as block_follows};
ghost use Rattle.session_text.specs.LineCommands.{opens_sized_block as sized_block_follows, query, second_command, watch_command};
ghost use Rattle.ft_base.specs.Limits.{max_session_bytes};
ghost use Rattle.session_text.specs.SizedBlocks.{block_size};
ghost use Rattle.session_text.specs.Words.{is_command_line};

use crate::line::is_word;
use crate::named::{
    read_changes, read_delete, read_drop, read_explain, read_insert, read_load, read_mark,
    read_plain_query, read_print, read_replace, read_show, read_stop, read_thesaurus, read_unmark,
    read_unwatch,
};
use crate::named_with_path::{read_query_at, read_watch};
use crate::size::size_of;
use crate::words::split_word;
use crate::{Command, How};
use ft_base::{Bytes, MAX_LINE_BYTES, Memory};
use std::alloc::Global;
use text_lines::{drop_return, trim_line, word_end};

/// Where an insertion puts its content.
fn read_how(word: &str) -> Option<How>
    ensures { result ≡ how_of word.now }
{
    match word {
        "first" => Some(How::First),
        "last" => Some(How::Last),
        "before" => Some(How::Before),
        "after" => Some(How::After),
        _ => None,
    }
}

/// The command, where nothing is to follow its word.
fn alone(number: u64, rest: &str, command: Command) -> Command
    ensures { result ≡ made_alone number rest.now command }
{
    if rest.is_empty() {
        command
    } else {
        Command::BadCommand { line: number }
    }
}

/// `insert first PATH` and its block, and the like.
fn read_insertion(
    alloc: Global,
    number: u64,
    how: Option<How>,
    path: &str,
    block: Bytes,
) -> Result<Command, Memory>
    ensures { IfOk result (λ command. command ≡ insertion number how path.now block) }
{
    let how = match how {
        Some(how) => how,
        None => return Ok(Command::BadCommand { line: number }),
    };
    read_insert(alloc, number, how, path, block)
}

/// The command with that first word and that rest, and the block after it.
fn read_block_command(
    alloc: Global,
    quotes: bool,
    number: u64,
    word: &str,
    rest: &str,
    block: Bytes,
) -> Result<Command, Memory>
    ensures { IfOk result (λ command. command ≡ block_command quotes number word.now rest.now block) }
{
    if word == "load" {
        return read_load(alloc, quotes, number, rest, block);
    }
    if word == "insert" {
        let (how, path) = split_word(rest);
        return read_insertion(alloc, number, read_how(how), path, block);
    }
    if word == "replace" {
        return read_replace(alloc, number, rest, block);
    }
    read_list_command(alloc, quotes, number, word, rest, block)
}

/// The same for the commands that read a list.
fn read_list_command(
    alloc: Global,
    quotes: bool,
    number: u64,
    word: &str,
    rest: &str,
    block: Bytes,
) -> Result<Command, Memory>
    ensures { IfOk result (λ command. command ≡ list_command quotes number word.now rest.now block) }
{
    if word == "stop" {
        return read_stop(alloc, quotes, number, rest, block);
    }
    if word == "stems" {
        return Ok(alone(number, rest, Command::Stems { block }));
    }
    if word == "abbreviations" {
        return Ok(alone(number, rest, Command::Abbreviations { block }));
    }
    if word == "thesaurus" {
        return read_thesaurus(alloc, quotes, number, rest, block);
    }
    Ok(Command::BadCommand { line: number })
}

/// `query at NAME PATH` wherever the second word is `at`, else `query PATH`.
fn read_query(alloc: Global, quotes: bool, number: u64, rest: &str) -> Result<Command, Memory>
    ensures { IfOk result (λ command. command ≡ query quotes number rest.now) }
{
    let (word, suffix) = split_word(rest);
    if word == "at" {
        return read_query_at(alloc, quotes, number, suffix);
    }
    read_plain_query(alloc, number, rest)
}

/// The command of watches with that first word and that rest.
fn read_watch_command(alloc: Global, number: u64, word: &str, rest: &str) -> Result<Command, Memory>
    ensures { IfOk result (λ command. command ≡ watch_command number word.now rest.now) }
{
    if word == "watch" {
        return read_watch(alloc, number, rest);
    }
    if word == "changes" {
        return read_changes(alloc, number, rest);
    }
    if word == "unwatch" {
        return read_unwatch(alloc, number, rest);
    }
    Ok(Command::BadCommand { line: number })
}

/// The command with that first word and that rest, of those that stand in sessions of format 2 alone.
fn read_second_command(
    alloc: Global,
    number: u64,
    word: &str,
    rest: &str,
) -> Result<Command, Memory>
    ensures { IfOk result (λ command. command ≡ second_command number word.now rest.now) }
{
    if word == "show" {
        return read_show(alloc, number, rest);
    }
    read_watch_command(alloc, number, word, rest)
}

/// The command with that first word and that rest, without a block, in a session of format 2 or of format 1.
fn read_name_command(
    alloc: Global,
    second: bool,
    number: u64,
    word: &str,
    rest: &str,
) -> Result<Command, Memory>
    ensures { IfOk result (λ command. command ≡ name_command second number word.now rest.now) }
{
    if word == "drop" {
        return read_drop(alloc, second, number, rest);
    }
    if word == "mark" {
        return read_mark(alloc, second, number, rest);
    }
    if word == "unmark" {
        return read_unmark(alloc, second, number, rest);
    }
    if word == "stats" {
        return Ok(alone(number, rest, Command::Stats));
    }
    if second {
        return read_second_command(alloc, number, word, rest);
    }
    Ok(Command::BadCommand { line: number })
}

/// The same, and first the commands with a path or a selection.
fn read_line_command(
    alloc: Global,
    second: bool,
    number: u64,
    word: &str,
    rest: &str,
) -> Result<Command, Memory>
    ensures { IfOk result (λ command. command ≡ line_command second number word.now rest.now) }
{
    if word == "query" {
        return read_query(alloc, second, number, rest);
    }
    if word == "print" {
        return read_print(alloc, number, rest);
    }
    if word == "explain" {
        return read_explain(alloc, number, rest);
    }
    if word == "delete" {
        return read_delete(alloc, number, rest);
    }
    read_name_command(alloc, second, number, word, rest)
}

/// What a command line says, unless it is too long or isn't UTF-8.
fn command_text_of(line: &[u8]) -> Option<&str>
    ensures text { IfSome result (λ text. (is_command_line line.now ≡ true) × (text.now ≡ trimmed_line line.now)) }
    ensures none { IfNone result (is_command_line line.now ≡ false) }
{
    if drop_return(line).len() > MAX_LINE_BYTES {
        return None;
    }
    match std::str::from_utf8(trim_line(line)) {
        Ok(text) => Some(text),
        Err(_) => None,
    }
}

/// Whether a block follows the line.
pub(crate) fn opens_block(line: &[u8]) -> bool
    ensures { result ≡ block_follows line.now }
{
    let text = trim_line(line);
    let word = &text[..word_end(text)];
    is_word(word, "load")
        || is_word(word, "insert")
        || is_word(word, "replace")
        || is_word(word, "stop")
        || is_word(word, "stems")
        || is_word(word, "thesaurus")
}

/// The same where blocks have lengths.
fn opens_sized_block(line: &[u8]) -> bool
    ensures { result ≡ sized_block_follows line.now }
{
    let text = trim_line(line);
    opens_block(line) || is_word(&text[..word_end(text)], "abbreviations")
}

/// The command of the line of that number, which no block follows, in a session of format 2 or of format 1.
pub(crate) fn read_line(
    alloc: Global,
    second: bool,
    number: u64,
    line: &[u8],
) -> Result<Command, Memory>
    ensures { IfOk result (λ command. command ≡ command_of_line second number line.now) }
{
    match command_text_of(line) {
        Some(text) => {
            let (word, rest) = split_word(text);
            read_line_command(alloc, second, number, word, rest)
        }
        None => Ok(Command::BadCommand { line: number }),
    }
}

/// The command of the line of that number and the block after it.
pub(crate) fn read_block(
    alloc: Global,
    number: u64,
    line: &[u8],
    block: Bytes,
) -> Result<Command, Memory>
    ensures { IfOk result (λ command. command ≡ command_of_block number line.now block) }
{
    match command_text_of(line) {
        Some(text) => {
            let (word, rest) = split_word(text);
            read_block_command(alloc, false, number, word, rest, block)
        }
        None => Ok(Command::BadCommand { line: number }),
    }
}

/// The same, where the block's length is the line's second word.
pub(crate) fn read_sized_block(
    alloc: Global,
    number: u64,
    line: &[u8],
    block: Bytes,
) -> Result<Command, Memory>
    ensures { IfOk result (λ command. command ≡ command_of_sized_block number line.now block) }
{
    match command_text_of(line) {
        Some(text) => {
            let (word, sized) = split_word(text);
            let (_, rest) = split_word(sized);
            read_block_command(alloc, true, number, word, rest, block)
        }
        None => Ok(Command::BadCommand { line: number }),
    }
}

/// How many bytes the block has that follows the line, where blocks have lengths.
pub(crate) fn block_size_of(line: &[u8]) -> Option<usize>
    ensures size { result ≡ block_size line.now }
    ensures within { IfSome result (λ size. size ≤ max_session_bytes) }
{
    if !opens_sized_block(line) {
        return None;
    }
    let text = command_text_of(line)?;
    let (_, sized) = split_word(text);
    let (size, _) = split_word(sized);
    size_of(size)
}
