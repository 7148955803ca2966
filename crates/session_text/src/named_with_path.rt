//! Commands that a name and a path after their word make.

ghost use Rattle.std.specs.Prelude.{◌≡◌, IfOk, false, true};
ghost use Rattle.session_text.specs.Quoted.{unquoted_on};
ghost use Rattle.session_text.specs.LineCommands.{name_and_path, name_and_path_in, named_with_path, quoted_name_and_path};

use crate::Command;
use crate::quoted::{behind_quote, read_quoted};
use crate::words::{can_name, can_quote, split_word};
use ft_base::{Line, Memory};
use std::alloc::Global;

/// A name and then a path.
fn read_bare(
    alloc: Global,
    number: u64,
    name: &str,
    path: &str,
) -> Result<Result<(Line, Line), Command>, Memory>
    ensures { IfOk result (λ read. read ≡ name_and_path number name.now path.now) }
{
    if path.is_empty() {
        return Ok(Err(Command::BadCommand { line: number }));
    }
    if !can_name(name) {
        return Ok(Err(Command::BadName { line: number }));
    }
    Ok(Ok((Line::read(alloc, name)?, Line::read(alloc, path)?)))
}

/// The same behind the quotation mark with which the name begins.
fn read_behind_quote(
    alloc: Global,
    number: u64,
    quoted: &str,
) -> Result<Result<(Line, Line), Command>, Memory>
    ensures { IfOk result (λ read. read ≡ quoted_name_and_path number (unquoted_on false quoted.now)) }
{
    let Some((name, suffix)) = read_quoted(alloc, quoted)? else {
        return Ok(Err(Command::BadCommand { line: number }));
    };
    let (word, path) = split_word(suffix);
    if !word.is_empty() || path.is_empty() {
        return Ok(Err(Command::BadCommand { line: number }));
    }
    if !can_quote(name.as_str()) {
        return Ok(Err(Command::BadName { line: number }));
    }
    let path = Line::read(alloc, path)?;
    Ok(Ok((name, path)))
}

/// What follows a command's word, where that is to be a name and then a path.
fn read_name_and_path(
    alloc: Global,
    quotes: bool,
    number: u64,
    rest: &str,
) -> Result<Result<(Line, Line), Command>, Memory>
    ensures { IfOk result (λ read. read ≡ name_and_path_in quotes number rest.now) }
{
    if let Some(quoted) = behind_quote(quotes, rest) {
        return read_behind_quote(alloc, number, quoted);
    }
    let (name, path) = split_word(rest);
    read_bare(alloc, number, name, path)
}

/// `query at NAME PATH`.
pub(crate) fn read_query_at(
    alloc: Global,
    quotes: bool,
    number: u64,
    rest: &str,
) -> Result<Command, Memory>
    ensures { IfOk result (λ command. command ≡ named_with_path quotes number rest.now (λ name path. Command.QueryAt name path)) }
{
    Ok(match read_name_and_path(alloc, quotes, number, rest)? {
        Ok((name, path)) => Command::QueryAt { name, path },
        Err(fault) => fault,
    })
}

/// `watch NAME PATH`.
pub(crate) fn read_watch(alloc: Global, number: u64, rest: &str) -> Result<Command, Memory>
    ensures { IfOk result (λ command. command ≡ named_with_path true number rest.now (λ name path. Command.Watch name path)) }
{
    Ok(match read_name_and_path(alloc, true, number, rest)? {
        Ok((name, path)) => Command::Watch { name, path },
        Err(fault) => fault,
    })
}
