// Lists as people write them, and the first bad line of those that aren't.
use crate::rows::{NEVER, is_answered};
use ft_session::Status;
use std::alloc::Global;
use std::process::Abort;
use std::test::Fail;

/// A line of a session, the block after it, and the reply.
type ListRow = (&'static str, &'static [u8], &'static str);

fn expect_list(rt: &impl Abort, alloc: Global, row: &ListRow, status: Status) -> Result<(), Fail> {
    let (command, block, reply) = row;
    let mut session = Vec::from_slice(alloc, command.as_bytes())?;
    session.extend_from_slice(b"\n")?;
    session.extend_from_slice(block)?;
    session.extend_from_slice(b"\n.\n")?;
    let answered = is_answered(alloc, session.as_slice(), NEVER, NEVER, &[*reply], status)?;
    assert!(rt; answered, "{command} {reply}");
    Ok(())
}

const READ: [ListRow; 13] = [
    ("stop s", b"", "ok\n"),
    (
        "stop s",
        b"the\r\n\t of \r\n\n# a comment \xFF\nat\n",
        "ok\n",
    ),
    ("stop s", b"the\n   \n  # of it", "ok\n"),
    ("stop s", b"can't\n3.14\n", "ok\n"),
    ("stop s", b"the\nthe\n", "ok\n"),
    ("stems", b"", "ok\n"),
    ("stems", b"roses rose\nships ship\n", "ok\n"),
    ("stems", b"roses-rose", "ok\n"),
    ("thesaurus t", b"", "ok\n"),
    ("thesaurus t", b"synonym | car | automobile", "ok\n"),
    (
        "thesaurus t",
        b"synonym|car|motor vehicle\r\n\n # | \xFF\n\tuse |\tship | boat \r\n",
        "ok\n",
    ),
    ("thesaurus t", b"- | a | b", "ok\n"),
    ("thesaurus t", b"r | a | b\nr | a | b", "ok\n"),
];

#[test]
fn lists_are_read(rt: HostRuntime) -> Result<(), Fail> {
    for row in READ {
        expect_list(&rt, rt.alloc(), &row, Status::Done)?;
    }
    Ok(())
}

const BAD: [ListRow; 20] = [
    ("stop s", b"the\nof it", "! 6 list: bad line 2\n"),
    ("stop s", b"the\n\n\xFF", "! 6 list: bad line 3\n"),
    ("stop s", b"#\n-", "! 6 list: bad line 2\n"),
    ("stop s", b"the # of", "! 6 list: bad line 1\n"),
    ("stems", b"runs", "! 6 list: bad line 1\n"),
    (
        "stems",
        b"roses rose\nships ship sh",
        "! 6 list: bad line 2\n",
    ),
    ("stems", b"Run run\nrun x", "! 6 list: bad line 2\n"),
    (
        "stems",
        b"# roses\n\nroses\trose \r\nrose \xFF",
        "! 6 list: bad line 4\n",
    ),
    ("thesaurus t", b"synonym | car", "! 6 list: bad line 1\n"),
    ("thesaurus t", b"synonym", "! 6 list: bad line 1\n"),
    (
        "thesaurus t",
        b"# synonym\n\nr | a | b\nr | a | b | c",
        "! 6 list: bad line 4\n",
    ),
    ("thesaurus t", b"r | a | b |", "! 6 list: bad line 1\n"),
    (
        "thesaurus t",
        b"r | a | b\n | a | b",
        "! 6 list: bad line 2\n",
    ),
    ("thesaurus t", b" \t | a | b", "! 6 list: bad line 1\n"),
    ("thesaurus t", b"r | | b", "! 6 list: bad line 1\n"),
    ("thesaurus t", b"r | a | ", "! 6 list: bad line 1\n"),
    ("thesaurus t", b"r | - | b", "! 6 list: bad line 1\n"),
    ("thesaurus t", b"r | a | ...", "! 6 list: bad line 1\n"),
    (
        "thesaurus t",
        b"r | a | b\nr | a | \xFF",
        "! 6 list: bad line 2\n",
    ),
    (
        "thesaurus t",
        b"r | a | b\nr | a\nr | b",
        "! 6 list: bad line 2\n",
    ),
];

#[test]
fn the_first_bad_line_is_told(rt: HostRuntime) -> Result<(), Fail> {
    for row in BAD {
        expect_list(&rt, rt.alloc(), &row, Status::SomeRefused)?;
    }
    Ok(())
}
