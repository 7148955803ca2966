// Sessions and their commands side by side, however the bytes are cut.
ghost use Rattle.std.specs.Prelude.{◌≡◌, ◌+◌, ◌<◌, ◌^◌, length};

use crate::commands::LINES;
use crate::rows::Row;
use crate::sessions::SESSIONS;
use ft_base::{Bytes, Line};
use session_text::{Command, Commands, How, Lines_};
use std::alloc::{AllocError, Global};
use std::process::Abort;
use std::test::Fail;

/// Adds a bar and the bytes.
fn add(out: &mut Vec<u8>, bytes: &[u8]) -> Result<(), AllocError> {
    out.push(b'|')?;
    out.extend_from_slice(bytes)
}

/// Adds a command's word, and its name or text.
fn named(out: &mut Vec<u8>, word: &str, text: &Line) -> Result<(), AllocError> {
    add(out, word.as_bytes())?;
    add(out, text.as_str().as_bytes())
}

/// The same, and the path behind the name.
fn named_with_path(
    out: &mut Vec<u8>,
    word: &str,
    name: &Line,
    path: &Line,
) -> Result<(), AllocError> {
    named(out, word, name)?;
    add(out, path.as_str().as_bytes())
}

/// A command's word, and its name or text, and its block.
fn with_block(out: &mut Vec<u8>, word: &str, text: &Line, block: &Bytes) -> Result<(), AllocError> {
    named(out, word, text)?;
    add(out, block.as_slice())
}

/// Adds a command's word, and its block.
fn block_alone(out: &mut Vec<u8>, word: &str, block: &Bytes) -> Result<(), AllocError> {
    add(out, word.as_bytes())?;
    add(out, block.as_slice())
}

/// Adds a fault, and the line's last digit.
fn at_line(out: &mut Vec<u8>, word: &str, line: u64) -> Result<(), AllocError> {
    add(out, word.as_bytes())?;
    out.push(b'|')?;
    out.push(b'0' + (line % 10) as u8)?;
    Ok(())
}

fn inserted(how: How) -> &'static str {
    match how {
        How::First => "insert first",
        How::Last => "insert last",
        How::Before => "insert before",
        How::After => "insert after",
    }
}

/// Adds the command: its word, and what it holds.
fn show(out: &mut Vec<u8>, command: &Command) -> Result<(), AllocError> {
    match command {
        Command::Load { name, block } => with_block(out, "load", name, block),
        Command::Drop { name } => named(out, "drop", name),
        Command::Insert { how, path, block } => with_block(out, inserted(*how), path, block),
        Command::Replace { path, block } => with_block(out, "replace", path, block),
        Command::Delete { path } => named(out, "delete", path),
        Command::Stop { name, block } => with_block(out, "stop", name, block),
        Command::Stems { block } => block_alone(out, "stems", block),
        Command::Abbreviations { block } => block_alone(out, "abbreviations", block),
        Command::Thesaurus { name, block } => with_block(out, "thesaurus", name, block),
        Command::Query { path } => named(out, "query", path),
        Command::QueryAt { name, path } => named_with_path(out, "query at", name, path),
        Command::Print { path } => named(out, "print", path),
        Command::Show { path } => named(out, "show", path),
        Command::Mark { name } => named(out, "mark", name),
        Command::Unmark { name } => named(out, "unmark", name),
        Command::Watch { name, path } => named_with_path(out, "watch", name, path),
        Command::Changes { name } => named(out, "changes", name),
        Command::Unwatch { name } => named(out, "unwatch", name),
        Command::Explain { text } => named(out, "explain", text),
        Command::Stats => add(out, b"stats"),
        Command::BadCommand { line } => at_line(out, "bad command", *line),
        Command::BadName { line } => at_line(out, "bad name", *line),
    }
}

fn show_all(out: &mut Vec<u8>, commands: &Commands) -> Result<(), AllocError> {
    for command in commands.as_slice() {
        show(out, command)?;
    }
    Ok(())
}

/// Feeds a piece, and adds the commands that became whole with it.
fn feed(out: &mut Vec<u8>, reader: &mut Lines_, piece: &[u8]) -> Result<(), Fail>
    requires { reader.old.bytes + length piece.now < 2 ^ 63 }
    ensures { reader.new.bytes ≡ reader.old.bytes + length piece.now }
{
    let commands = reader.feed(piece)?;
    let shown = show_all(out, &commands);
    std::mem::drop(commands);
    shown?;
    Ok(())
}

/// Ends the session, and adds the command that an unfinished line or block is then.
fn finish(out: &mut Vec<u8>, reader: &mut Lines_) -> Result<(), Fail> {
    let last = reader.end()?;
    let shown = match &last {
        Some(command) => show(out, command),
        None => Ok(()),
    };
    std::mem::drop(last);
    shown?;
    Ok(())
}

/// Feeds the session in two pieces, and adds its commands.
fn feed_cut(out: &mut Vec<u8>, reader: &mut Lines_, prefix: &[u8], back: &[u8]) -> Result<(), Fail>
    requires fresh { reader.old.bytes ≡ 0 }
    requires prefix { length prefix.now < 2 ^ 62 }
    requires back { length back.now < 2 ^ 62 }
{
    feed(out, reader, prefix)?;
    feed(out, reader, back)?;
    finish(out, reader)
}

/// Feeds the session in pieces of so many bytes, the last of which may be shorter, and adds its commands.
fn feed_pieces(
    out: &mut Vec<u8>,
    reader: &mut Lines_,
    session: &[u8],
    size: usize,
) -> Result<(), Fail>
    requires { reader.old.bytes + length session.now < 2 ^ 63 }
{
    let mut rest = session;
    for turn in 0..session.len() {
        let (piece, suffix) = rest.split_at(size.min(rest.len()));
        feed(out, reader, piece)?;
        rest = suffix;
    }
    finish(out, reader)
}

/// The commands of the session, fed in two pieces.
fn read_cut(alloc: Global, prefix: &[u8], back: &[u8]) -> Result<Vec<u8>, Fail>
    requires prefix { length prefix.now < 2 ^ 62 }
    requires back { length back.now < 2 ^ 62 }
{
    let mut out = Vec::new(alloc);
    let mut reader = Lines_::new(alloc);
    let fed = feed_cut(&mut out, &mut reader, prefix, back);
    std::mem::drop(reader);
    fed?;
    Ok(out)
}

/// The commands of the session, fed in pieces of so many bytes.
fn read_pieces(alloc: Global, session: &[u8], size: usize) -> Result<Vec<u8>, Fail>
    requires { length session.now < 2 ^ 62 }
{
    let mut out = Vec::new(alloc);
    let mut reader = Lines_::new(alloc);
    let fed = feed_pieces(&mut out, &mut reader, session, size);
    std::mem::drop(reader);
    fed?;
    Ok(out)
}

/// A session, and its commands.
type CutRow = (&'static [u8], &'static [u8]);

const COMMANDS: [CutRow; 14] = [
    (b"", b""),
    (
        b"frobnicate\nload a b\nx\n.\nmark a/b\nload c",
        b"|bad command|1|bad command|2|bad name|5|bad command|6",
    ),
    (b"\xEF\xBB\xBFstats\nstats", b"|stats|stats"),
    (b"\xEF\xBB\xBF", b""),
    (
        b"load a\r\n<x/>\r\n..y\r\n.\r\ndrop a\r",
        b"|load|a|<x/>\r\n.y\r|drop|a",
    ),
    (
        b"load a\n.\nload b\n\n.\nload c\nx\n. \n.",
        b"|load|a||load|b||load|c|x\n ",
    ),
    (b" \t\n# note\n\r\n  drop \t a\t\n", b"|drop|a"),
    (
        b"query at a/b\nquery at m  //p[1] \nquery at m/ x\nquery\nquery //q",
        b"|bad command|1|query at|m|//p[1]|bad name|3|bad command|4|query|//q",
    ),
    (
        b"insert firstx p\n.\ninsert first  a b\nt\n.\ninsert after\n.\n",
        b"|bad command|1|insert first|a b|t|bad command|6",
    ),
    (
        b"load \"\" x\n.\nstats now\nstems\nrun ran\n.\nload a/b\n.\nstems x\n.\n",
        b"|bad command|1|bad command|3|stems|run ran|bad name|7|bad command|9",
    ),
    (
        b"drop \xFF\n#\xFF\nload \xFF\nx\xFF\n.\nload a\nx\xFF\n.\nunmark \xC3\xA9",
        b"|bad command|1|bad command|3|load|a|x\xFF|bad name|9",
    ),
    (
        b"replace //a\nx\n.\nstop s\nthe\n.\nthesaurus t\n.\ndelete //b\nprint //c\nmark m\nunmark m\nexplain \"a\"\n",
        b"|replace|//a|x|stop|s|the|thesaurus|t||delete|//b|print|//c|mark|m|unmark|m|explain|\"a\"",
    ),
    (b"load a\nx\n..\n.", b"|load|a|x\n."),
    (b"load a\nx\n.\r", b"|load|a|x"),
];

/// Sessions of format 2, and their commands.
const SIZED_COMMANDS: [CutRow; 19] = [
    (b"session 2", b""),
    (b"\xEF\xBB\xBFsession 2\r\nstats", b"|stats"),
    (b" session 2\nstats", b"|bad command|1|stats"),
    (
        b"session 2 \n# x\n\nsession 2\n",
        b"|bad command|1|bad command|4",
    ),
    (
        b"stats\nsession 2\nabbreviations\n",
        b"|stats|bad command|2|bad command|3",
    ),
    (
        b"session 2\nabbreviations 3\ndr.\nstats\n",
        b"|abbreviations|dr.|stats",
    ),
    (
        b"session 2\nabbreviations 0\n\nabbreviations 2\na\n\r\nabbreviations\nabbreviations 1 x\ny\nabbreviations 9\ndr.",
        b"|abbreviations||abbreviations|a\n|bad command|7|bad command|8|bad command|0",
    ),
    (
        b"session 2\nload 3 x\n<a/>\nstats\n",
        b"|bad command|2|stats",
    ),
    (
        b"session 2\nload 4 \"a\"\"b\"\n<a/>\nquery collection()/a\ndrop \"\"\n",
        b"|load|a\"b|<a/>|query|collection()/a|bad name|5",
    ),
    (
        b"session 2\n#\nload 7 a\r\n.\n\n.\r\n.\r\n  stop \t 3  b \nthe\n\ndrop c d\n",
        b"|load|a|.\n\n.\r\n.|stop|b|the|bad command|1",
    ),
    (
        b"session 2\nload 0 x\n\nload 1 y\n\n\nload 0 x\nstats\nstats x\nload 0 x",
        b"|load|x||load|y|\n|bad command|7|bad command|9|load|x|",
    ),
    (
        b"session 2\nload x\nload 01 x\nload +1 x\nload 67108865 x\nload 4294967297 x\nload 2\nx\n\nload",
        b"|bad command|2|bad command|3|bad command|4|bad command|5|bad command|6|bad command|7|bad command|0",
    ),
    (
        b"session 2\nload 2 \xFF\nload 2 a\nxyz\nload 2 a\nx",
        b"|bad command|2|bad command|3|bad command|5",
    ),
    (
        b"session 2\ninsert 1 first a b\nt\ninsert 0 x a\n\nreplace 2 //p\n\xC3\xA9\nstems 7\nrun ran\nthesaurus 0 \"t t\"\n\nstems 0 x\n\nreplace 1\nx\n",
        b"|insert first|a b|t|bad command|4|replace|//p|\xC3\xA9|stems|run ran|thesaurus|t t||bad command|2|bad command|4",
    ),
    (
        b"session 2\ndrop \"a\nmark \"a\"b\nunmark \"a\tb\"\nmark \"\xC3\xA9 \xC2\x80\" \nmark a\"b\nmark \"a\"\"\nmark \"a\" b\nmark \"a\"\r\r\n",
        b"|bad command|2|bad command|3|bad name|4|mark|\xC3\xA9 \xC2\x80|bad name|6|bad command|7|bad command|8|bad command|9",
    ),
    (
        b"session 2\nquery at \"m m\" //p\nquery at \"m\"//p\nquery at \"m\"\nquery at \"\" //p\nquery at m //p\nquery at \"m //p\nquery at m\"m //p\n",
        b"|query at|m m|//p|bad command|3|bad command|4|bad name|5|query at|m|//p|bad command|7|bad name|8",
    ),
    (b"session 2\nload 3 x\nab", b"|bad command|2"),
    (
        b"session 2\nshow //p q\r\nshow\nshow 1 //p\n\nshow at \"m\" //p",
        b"|show|//p q|bad command|3|show|1 //p|show|at \"m\" //p",
    ),
    (
        b"session 2\nwatch w //p\nwatch \"w w\" //p q\r\nwatch w\nchanges \"w w\"\nchanges w x\nunwatch w\nunwatch \"w\tw\"\nwatch 1 //p",
        b"|watch|w|//p|watch|w w|//p q|bad command|4|changes|w w|bad command|6|unwatch|w|bad name|8|watch|1|//p",
    ),
];

/// Cuts the session in two wherever it can be cut, and compares its commands.
fn expect_commands(rt: &impl Abort, alloc: Global, row: CutRow) -> Result<(), Fail> {
    let (session, commands) = row;
    assert!(rt; session.len() < 1000);
    for cut in 0..=session.len() {
        let read = read_cut(alloc, &session[..cut], &session[cut..])?;
        assert!(rt; read.as_slice() == commands, "{cut}");
    }
    Ok(())
}

/// Tries rows one after the other.
fn expect_all_commands(rt: &impl Abort, alloc: Global, rows: &[CutRow]) -> Result<(), Fail> {
    for row in rows {
        expect_commands(rt, alloc, *row)?;
    }
    Ok(())
}

#[test]
fn sessions_are_read_however_they_are_cut_in_two(rt: HostRuntime) -> Result<(), Fail> {
    expect_all_commands(&rt, rt.alloc(), &COMMANDS)
}

#[test]
fn sessions_with_sizes_are_read_however_they_are_cut_in_two(rt: HostRuntime) -> Result<(), Fail> {
    expect_all_commands(&rt, rt.alloc(), &SIZED_COMMANDS)
}

/// How many bytes a piece has.
const SIZES: [usize; 3] = [1, 2, 7];

/// Compares the commands of a session that is fed in pieces of each size with those of the session at once.
fn expect_same(rt: &impl Abort, alloc: Global, session: &[u8]) -> Result<(), Fail> {
    assert!(rt; session.len() < 10_000);
    let commands = read_cut(alloc, session, b"")?;
    for size in &SIZES {
        let read = read_pieces(alloc, session, *size)?;
        assert!(rt; read.as_slice() == commands.as_slice(), "{size}");
    }
    Ok(())
}

/// Tries the sessions of rows one after the other.
fn expect_cuts_same(rt: &impl Abort, alloc: Global, rows: &[CutRow]) -> Result<(), Fail> {
    for row in rows {
        let (session, _commands) = *row;
        expect_same(rt, alloc, session)?;
    }
    Ok(())
}

/// The same for rows that have replies.
fn expect_rows_same(rt: &impl Abort, alloc: Global, rows: &[Row]) -> Result<(), Fail> {
    for row in rows {
        let (session, _output, _status) = *row;
        expect_same(rt, alloc, session.as_bytes())?;
    }
    Ok(())
}

#[test]
fn commands_are_read_in_pieces_as_they_are_at_once(rt: HostRuntime) -> Result<(), Fail> {
    expect_cuts_same(&rt, rt.alloc(), &COMMANDS)
}

#[test]
fn sized_commands_are_read_in_pieces_as_they_are_at_once(rt: HostRuntime) -> Result<(), Fail> {
    expect_cuts_same(&rt, rt.alloc(), &SIZED_COMMANDS)
}

#[test]
fn sessions_are_read_in_pieces_as_they_are_at_once(rt: HostRuntime) -> Result<(), Fail> {
    expect_rows_same(&rt, rt.alloc(), &SESSIONS)
}

#[test]
fn lines_are_read_in_pieces_as_they_are_at_once(rt: HostRuntime) -> Result<(), Fail> {
    expect_rows_same(&rt, rt.alloc(), &LINES)
}
