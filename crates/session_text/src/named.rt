//! Commands that one name or one text after their word makes.

ghost use Rattle.std.specs.Prelude.{◌≡◌, IfOk, false, true};
ghost use Rattle.session_text.specs.Quoted.{unquoted_on};
ghost use Rattle.session_text.specs.LineCommands.{name_in, named, quoted_name, text_in, with_text};

use crate::quoted::{behind_quote, read_quoted};
use crate::words::{can_name, can_quote, is_single_word};
use crate::{Command, How};
use ft_base::{Bytes, Line, Memory};
use std::alloc::Global;

/// What follows a command's word, where that is to be one name.
fn read_name(
    alloc: Global,
    quotes: bool,
    number: u64,
    rest: &str,
) -> Result<Result<Line, Command>, Memory>
    ensures { IfOk result (λ read. read ≡ name_in quotes number rest.now) }
{
    if let Some(quoted) = behind_quote(quotes, rest) {
        return read_quoted_name(alloc, number, quoted);
    }
    if !is_single_word(rest) {
        return Ok(Err(Command::BadCommand { line: number }));
    }
    if !can_name(rest) {
        return Ok(Err(Command::BadName { line: number }));
    }
    Ok(Ok(Line::read(alloc, rest)?))
}

/// The same behind the quotation mark with which a name begins.
fn read_quoted_name(
    alloc: Global,
    number: u64,
    quoted: &str,
) -> Result<Result<Line, Command>, Memory>
    ensures { IfOk result (λ read. read ≡ quoted_name number (unquoted_on false quoted.now)) }
{
    let Some((name, suffix)) = read_quoted(alloc, quoted)? else {
        return Ok(Err(Command::BadCommand { line: number }));
    };
    if !suffix.is_empty() {
        return Ok(Err(Command::BadCommand { line: number }));
    }
    if !can_quote(name.as_str()) {
        return Ok(Err(Command::BadName { line: number }));
    }
    Ok(Ok(name))
}

/// What follows a command's word, where that is to be a path or a selection.
fn read_text(alloc: Global, number: u64, rest: &str) -> Result<Result<Line, Command>, Memory>
    ensures { IfOk result (λ read. read ≡ text_in number rest.now) }
{
    if rest.is_empty() {
        return Ok(Err(Command::BadCommand { line: number }));
    }
    Ok(Ok(Line::read(alloc, rest)?))
}

/// `load NAME` and its block.
pub(crate) fn read_load(
    alloc: Global,
    quotes: bool,
    number: u64,
    rest: &str,
    block: Bytes,
) -> Result<Command, Memory>
    ensures { IfOk result (λ command. command ≡ named quotes number rest.now (λ name. Command.Load name block)) }
{
    Ok(match read_name(alloc, quotes, number, rest)? {
        Ok(name) => Command::Load { name, block },
        Err(fault) => fault,
    })
}

/// `replace PATH` and its block.
pub(crate) fn read_replace(
    alloc: Global,
    number: u64,
    rest: &str,
    block: Bytes,
) -> Result<Command, Memory>
    ensures { IfOk result (λ command. command ≡ with_text number rest.now (λ path. Command.Replace path block)) }
{
    Ok(match read_text(alloc, number, rest)? {
        Ok(path) => Command::Replace { path, block },
        Err(fault) => fault,
    })
}

/// `insert first PATH` and its block, and the like.
pub(crate) fn read_insert(
    alloc: Global,
    number: u64,
    how: How,
    path: &str,
    block: Bytes,
) -> Result<Command, Memory>
    ensures { IfOk result (λ command. command ≡ with_text number path.now (λ path. Command.Insert how path block)) }
{
    Ok(match read_text(alloc, number, path)? {
        Ok(path) => Command::Insert { how, path, block },
        Err(fault) => fault,
    })
}

/// `stop NAME` and its block.
pub(crate) fn read_stop(
    alloc: Global,
    quotes: bool,
    number: u64,
    rest: &str,
    block: Bytes,
) -> Result<Command, Memory>
    ensures { IfOk result (λ command. command ≡ named quotes number rest.now (λ name. Command.Stop name block)) }
{
    Ok(match read_name(alloc, quotes, number, rest)? {
        Ok(name) => Command::Stop { name, block },
        Err(fault) => fault,
    })
}

/// `thesaurus NAME` and its block.
pub(crate) fn read_thesaurus(
    alloc: Global,
    quotes: bool,
    number: u64,
    rest: &str,
    block: Bytes,
) -> Result<Command, Memory>
    ensures { IfOk result (λ command. command ≡ named quotes number rest.now (λ name. Command.Thesaurus name block)) }
{
    Ok(match read_name(alloc, quotes, number, rest)? {
        Ok(name) => Command::Thesaurus { name, block },
        Err(fault) => fault,
    })
}

/// `drop NAME`.
pub(crate) fn read_drop(
    alloc: Global,
    quotes: bool,
    number: u64,
    rest: &str,
) -> Result<Command, Memory>
    ensures { IfOk result (λ command. command ≡ named quotes number rest.now (λ name. Command.Drop name)) }
{
    Ok(match read_name(alloc, quotes, number, rest)? {
        Ok(name) => Command::Drop { name },
        Err(fault) => fault,
    })
}

/// `mark NAME`.
pub(crate) fn read_mark(
    alloc: Global,
    quotes: bool,
    number: u64,
    rest: &str,
) -> Result<Command, Memory>
    ensures { IfOk result (λ command. command ≡ named quotes number rest.now (λ name. Command.Mark name)) }
{
    Ok(match read_name(alloc, quotes, number, rest)? {
        Ok(name) => Command::Mark { name },
        Err(fault) => fault,
    })
}

/// `unmark NAME`.
pub(crate) fn read_unmark(
    alloc: Global,
    quotes: bool,
    number: u64,
    rest: &str,
) -> Result<Command, Memory>
    ensures { IfOk result (λ command. command ≡ named quotes number rest.now (λ name. Command.Unmark name)) }
{
    Ok(match read_name(alloc, quotes, number, rest)? {
        Ok(name) => Command::Unmark { name },
        Err(fault) => fault,
    })
}

/// `changes NAME`.
pub(crate) fn read_changes(alloc: Global, number: u64, rest: &str) -> Result<Command, Memory>
    ensures { IfOk result (λ command. command ≡ named true number rest.now (λ name. Command.Changes name)) }
{
    Ok(match read_name(alloc, true, number, rest)? {
        Ok(name) => Command::Changes { name },
        Err(fault) => fault,
    })
}

/// `unwatch NAME`.
pub(crate) fn read_unwatch(alloc: Global, number: u64, rest: &str) -> Result<Command, Memory>
    ensures { IfOk result (λ command. command ≡ named true number rest.now (λ name. Command.Unwatch name)) }
{
    Ok(match read_name(alloc, true, number, rest)? {
        Ok(name) => Command::Unwatch { name },
        Err(fault) => fault,
    })
}

/// `query PATH`.
pub(crate) fn read_plain_query(alloc: Global, number: u64, rest: &str) -> Result<Command, Memory>
    ensures { IfOk result (λ command. command ≡ with_text number rest.now (λ path. Command.Query path)) }
{
    Ok(match read_text(alloc, number, rest)? {
        Ok(path) => Command::Query { path },
        Err(fault) => fault,
    })
}

/// `print PATH`.
pub(crate) fn read_print(alloc: Global, number: u64, rest: &str) -> Result<Command, Memory>
    ensures { IfOk result (λ command. command ≡ with_text number rest.now (λ path. Command.Print path)) }
{
    Ok(match read_text(alloc, number, rest)? {
        Ok(path) => Command::Print { path },
        Err(fault) => fault,
    })
}

/// `show PATH`.
pub(crate) fn read_show(alloc: Global, number: u64, rest: &str) -> Result<Command, Memory>
    ensures { IfOk result (λ command. command ≡ with_text number rest.now (λ path. Command.Show path)) }
{
    Ok(match read_text(alloc, number, rest)? {
        Ok(path) => Command::Show { path },
        Err(fault) => fault,
    })
}

/// `explain TEXT`.
pub(crate) fn read_explain(alloc: Global, number: u64, rest: &str) -> Result<Command, Memory>
    ensures { IfOk result (λ command. command ≡ with_text number rest.now (λ text. Command.Explain text)) }
{
    Ok(match read_text(alloc, number, rest)? {
        Ok(text) => Command::Explain { text },
        Err(fault) => fault,
    })
}

/// `delete PATH`.
pub(crate) fn read_delete(alloc: Global, number: u64, rest: &str) -> Result<Command, Memory>
    ensures { IfOk result (λ command. command ≡ with_text number rest.now (λ path. Command.Delete path)) }
{
    Ok(match read_text(alloc, number, rest)? {
        Ok(path) => Command::Delete { path },
        Err(fault) => fault,
    })
}
