// A session of a small library: in pieces, over a sink that fills, with a fault at each read, and cut at each byte.
ghost use Rattle.std.specs.Prelude.{◌≤◌, ◌<◌, length};

use crate::rows::NEVER;
use ft_io::{MemoryShelf, MemorySink};
use ft_session::{Status, run};
use plan_runs::Direct;
use std::alloc::{AllocError, Global};
use std::process::Abort;
use std::test::Fail;

/// A command with its block, and the text of its reply.
type AnsweredCommand = (&'static str, &'static str);

const LIBRARY: [AnsweredCommand; 18] = [
    (
        r#"load moby
<?xml version="1.0" encoding="UTF-8"?>
<book id="b1">
  <title>Sea Voyages</title>
  <chapter><title>The Departure</title><p>The ship left the harbour. The crew was cheerful.</p><p>No storm was seen.</p></chapter>
  <chapter><title>The Storm</title><p>A heavy storm struck the ship at night.</p></chapter>
</book>
.
"#,
        "ok\n",
    ),
    (
        r#"load garden
<book id="b2"><title>Garden Notes</title><chapter><title>Roses</title><p>Water the roses at dawn &amp; dusk.</p></chapter></book>
.
"#,
        "ok\n",
    ),
    (
        r#"load cook
<book id="b3"><title>Plain Cooking</title><chapter><title>Fish</title><p>Cook the fish in salted water.</p></chapter></book>
.
"#,
        "ok\n",
    ),
    (
        r#"stop english
the
of
at
a
.
"#,
        "ok\n",
    ),
    (
        r#"stems
roses rose
ships ship
.
"#,
        "ok\n",
    ),
    (
        r#"thesaurus common
synonym | vessel | ship
synonym | storm | tempest
.
"#,
        "ok\n",
    ),
    (
        r#"query collection()//p[. contains text "storm" ftand "ship" window 4 words]
"#,
        r#"= 1
doc("moby")/book[1]/chapter[2]/p[1]
"#,
    ),
    (
        r#"query collection()//p[. contains text "struck a ship" using stop words at "english"]
"#,
        r#"= 1
doc("moby")/book[1]/chapter[2]/p[1]
"#,
    ),
    (
        r#"query collection()//chapter[. contains text "rose" using stemming]
"#,
        r#"= 1
doc("garden")/book[1]/chapter[1]
"#,
    ),
    (
        r#"query collection()//book[. contains text "vessel" using thesaurus at "common" relationship "synonym" at most 2 levels]
"#,
        r#"= 1
doc("moby")/book[1]
"#,
    ),
    (
        r#"query collection()/book[chapter/title contains text "fish"]/title
"#,
        r#"= 1
doc("cook")/book[1]/title[1]
"#,
    ),
    (
        r#"query collection()//p[. contains text "storm" ftand ftnot "ship"]
"#,
        r#"= 1
doc("moby")/book[1]/chapter[1]/p[2]
"#,
    ),
    (
        r#"insert last doc("moby")/book/chapter[2]
<p>The tempest passed.</p>
.
"#,
        "ok\n",
    ),
    (
        r#"delete collection()//p[. contains text "roses"]
"#,
        "ok\n",
    ),
    (
        r#"replace doc("cook")//p[1]
<p>Boil the fish in water.</p>
.
"#,
        "ok\n",
    ),
    (
        r#"insert before doc("garden")/book/chapter
<preface>For Ann.</preface>
.
"#,
        "ok\n",
    ),
    (
        r#"query collection()//p[. contains text "tempest"]
"#,
        r#"= 1
doc("moby")/book[1]/chapter[2]/p[2]
"#,
    ),
    (
        r#"query collection()//book[. contains text "water"]
"#,
        r#"= 1
doc("cook")/book[1]
"#,
    ),
];

/// The session of these commands.
pub(crate) fn library_session(alloc: Global) -> Result<String, AllocError> {
    let mut session = String::new(alloc);
    for row in &LIBRARY {
        let (command, _reply) = *row;
        session.push_str(command)?;
    }
    Ok(session)
}

/// The replies to the first so many commands.
pub(crate) fn first_replies(alloc: Global, count: usize) -> Result<String, AllocError> {
    let mut output = String::new(alloc);
    for row in LIBRARY.iter().take(count) {
        let (_command, reply) = *row;
        output.push_str(reply)?;
    }
    Ok(output)
}

/// What the bytes of the session come through, and what its replies go to: how many bytes are read and written at once, which read
/// fails, and how many bytes the sink takes.
#[derive(Clone, Copy, Drop)]
struct Outside {
    piece: usize,
    failing_read: u64,
    room: u64,
}

/// Where nothing fails, and a read gives as much as is asked for.
const WHOLE: Outside = Outside {
    piece: 65_536,
    failing_read: NEVER,
    room: NEVER,
};

/// Runs the session, and says how it ended and what it wrote.
fn outcome(alloc: Global, session: &[u8], outside: Outside) -> Result<(Status, MemorySink), Fail>
    requires { 1 ≤ outside.piece }
{
    let words = [String::from_str(alloc, "s")?];
    let mut shelf = MemoryShelf::new(alloc);
    shelf.add("s", session)?;
    shelf.fail_call(outside.failing_read);
    shelf.set_piece(outside.piece);
    let mut sink = MemorySink::new(alloc, 65_536)?;
    sink.fail_after(outside.room);
    sink.set_piece(outside.piece);
    let ended = run(alloc, words.as_slice(), Direct, &mut shelf, &mut sink);
    Ok((ended, sink))
}

/// Runs the session, and compares what it writes and how it ends.
fn expect_outcome(
    rt: &impl Abort,
    alloc: Global,
    session: &[u8],
    outside: Outside,
    output: &[u8],
    status: Status,
) -> Result<(), Fail>
    requires { 1 ≤ outside.piece }
{
    let (ended, sink) = outcome(alloc, session, outside)?;
    assert!(rt;
        ended == status && sink.written() == output,
        "{} {}",
        outside.room,
        outside.failing_read
    );
    Ok(())
}

/// How many bytes are read and written at once.
const PIECES: [usize; 3] = [1, 2, 7];

#[test]
fn pieces_change_nothing(rt: HostRuntime) -> Result<(), Fail> {
    let session = library_session(rt.alloc())?;
    let output = first_replies(rt.alloc(), LIBRARY.len())?;
    for piece in &PIECES {
        let outside = Outside {
            piece: (*piece).max(1),
            ..WHOLE
        };
        expect_outcome(
            &rt,
            rt.alloc(),
            session.as_bytes(),
            outside,
            output.as_bytes(),
            Status::Done,
        )?;
    }
    Ok(())
}

#[test]
fn a_sink_that_fills_has_what_it_took(rt: HostRuntime) -> Result<(), Fail> {
    let session = library_session(rt.alloc())?;
    let output = first_replies(rt.alloc(), LIBRARY.len())?;
    let bytes = output.as_bytes();
    for room in 0..bytes.len() {
        let outside = Outside {
            room: room as u64,
            ..WHOLE
        };
        expect_outcome(
            &rt,
            rt.alloc(),
            session.as_bytes(),
            outside,
            &bytes[..room],
            Status::WriteFault,
        )?;
    }
    Ok(())
}

/// Where the session is cut: how many of its commands are whole, and of the next one, which begins at that line, the bytes that are
/// there, and whether the first that isn't there is a letter.
#[derive(Clone, Copy, Drop)]
struct Cut {
    whole: usize,
    line: usize,
    part: &'static [u8],
    before_letter: bool,
}

/// How many lines end in the bytes.
fn count_lines(bytes: &[u8]) -> usize {
    bytes.iter().filter(|byte| **byte == b'\n').count()
}

/// Where the first so many bytes of the session end.
fn cut_after(taken: usize) -> Cut {
    let mut rest = taken;
    let mut line = 1usize;
    for (number, row) in LIBRARY.iter().enumerate() {
        let (command, _reply) = *row;
        let bytes = command.as_bytes();
        if rest < bytes.len() {
            return Cut {
                whole: number,
                line,
                part: &bytes[..rest],
                before_letter: bytes[rest].is_ascii_lowercase(),
            };
        }
        rest -= bytes.len();
        line = line.saturating_add(count_lines(bytes));
    }
    Cut {
        whole: LIBRARY.len(),
        line,
        part: b"",
        before_letter: false,
    }
}

/// How many bytes a read gives while reads fail in turn.
const READ_AT_ONCE: usize = 100;

#[test]
fn commands_that_were_whole_before_a_read_fault_are_answered(rt: HostRuntime) -> Result<(), Fail> {
    let session = library_session(rt.alloc())?;
    // the last of the reads gives no bytes
    for turn in 0..=session.len().div_ceil(READ_AT_ONCE) {
        let cut = cut_after(turn.saturating_mul(READ_AT_ONCE));
        let output = first_replies(rt.alloc(), cut.whole)?;
        let outside = Outside {
            piece: READ_AT_ONCE,
            failing_read: (turn as u64).saturating_add(1),
            ..WHOLE
        };
        expect_outcome(
            &rt,
            rt.alloc(),
            session.as_bytes(),
            outside,
            output.as_bytes(),
            Status::ReadFault,
        )?;
    }
    Ok(())
}

/// Whether the path of a command is whole so far: its last step has a name, and no bracket is open. None of the strings in the
/// session has a bracket.
fn is_whole_path(path: &[u8]) -> bool {
    let opened = path.iter().filter(|byte| **byte == b'[').count();
    let closed = path.iter().filter(|byte| **byte == b']').count();
    opened == closed && path.starts_with(b"collection()/") && !path.ends_with(b"/")
}

/// The path of a command that asks or deletes, so far; no bytes of another command.
fn path_of(part: &'static [u8]) -> &'static [u8] {
    if let Some(path) = part.strip_prefix(b"query ") {
        return path.trim_ascii_end();
    }
    match part.strip_prefix(b"delete ") {
        Some(path) => path.trim_ascii_end(),
        None => b"",
    }
}

/// How many letters stand at the end.
fn length_of_word(path: &[u8]) -> usize {
    path.iter()
        .rev()
        .take_while(|byte| byte.is_ascii_lowercase())
        .count()
}

/// How many bytes stand behind the last quote.
fn length_of_string(path: &[u8]) -> usize {
    path.iter().rev().take_while(|byte| **byte != b'"').count()
}

/// The place at which the beginning of a path of the session stops to be one: that of the quote of a string that nothing closes, or of
/// a keyword of which a part alone is there, and else its end. Keywords stand behind a blank or first, other names behind neither.
fn fault_place(path: &[u8], cuts_word: bool) -> usize {
    let quotes = path.iter().filter(|byte| **byte == b'"').count();
    if quotes % 2 == 1 {
        return path
            .len()
            .saturating_sub(length_of_string(path).saturating_add(1));
    }
    let word = path.len().saturating_sub(length_of_word(path));
    let (before, _word) = path.split_at(word.min(path.len()));
    if cuts_word && (before.is_empty() || before.ends_with(b" ")) {
        word
    } else {
        path.len()
    }
}

/// What is wrong with the part of a command that the end of the session leaves. A block that nothing ends is none. No text where the
/// part is a command of its own.
fn refusal_of(alloc: Global, cut: &Cut) -> Result<String, AllocError> {
    let path = path_of(cut.part);
    let place = fault_place(path, cut.before_letter && !cut.part.ends_with(b" "));
    if path.is_empty() {
        format!(in alloc; "! 1 bad command at line {}\n", cut.line)
    } else if is_whole_path(path) {
        Ok(String::new(alloc))
    } else {
        format!(in alloc; "! 7 query: syntax at {place}\n")
    }
}

/// Whether these bytes are the reply to the part of a command, and the session ends so.
fn ends_with(cut: &Cut, refusal: &str, reply: &[u8], status: Status) -> bool {
    if cut.part.is_empty() {
        reply.is_empty() && status == Status::Done
    } else if refusal.is_empty() {
        (reply.starts_with(b"= ") || reply == b"ok\n".as_slice()) && status == Status::Done
    } else {
        reply == refusal.as_bytes() && status == Status::SomeRefused
    }
}

/// Where a session of the first so many bytes ends: a command that lacks only its last line's end is whole.
fn cut_at_end(taken: usize) -> Cut {
    let next = cut_after(taken.saturating_add(1));
    if next.part.is_empty() {
        next
    } else {
        cut_after(taken)
    }
}

/// Runs the first so many bytes of the session, and compares the replies.
fn expect_cut(rt: &impl Abort, alloc: Global, session: &[u8], taken: usize) -> Result<(), Fail>
    requires { taken ≤ length session.now }
{
    let cut = cut_at_end(taken);
    let output = first_replies(alloc, cut.whole)?;
    let refusal = refusal_of(alloc, &cut)?;
    let (ended, sink) = outcome(alloc, &session[..taken], WHOLE)?;
    let answered = match sink.written().strip_prefix(output.as_bytes()) {
        Some(reply) => ends_with(&cut, refusal.as_str(), reply, ended),
        None => false,
    };
    assert!(rt; answered, "{taken}");
    Ok(())
}

#[test]
fn a_session_that_is_cut_is_answered_as_far_as_it_goes(rt: HostRuntime) -> Result<(), Fail> {
    let session = library_session(rt.alloc())?;
    for taken in 0..=session.len() {
        expect_cut(&rt, rt.alloc(), session.as_bytes(), taken)?;
    }
    Ok(())
}
