// Commands: how lines and blocks are divided, and which lines are none.
use crate::rows::{Row, expect_rows};
use ft_session::Status;
use std::test::Fail;

pub(crate) const LINES: [Row; 5] = [
    // a byte order mark, comments, blanks, carriage returns, and a last line that nothing ends
    (
        "\u{FEFF}# no command\r\n\n \t load\tone \r\n<a>\r\n.\r\n load two\n<a>x\n..\n</a>\n.\n\
         query  collection()//a[. contains text \"x\"]",
        "! 6 document: syntax at 4\nok\n= 1\ndoc(\"two\")/a[1]\n",
        Status::SomeRefused,
    ),
    (
        "load one\n.<a>x\n\n</a>\n.\r\nquery collection()//a[. contains text \"X\"]",
        "ok\n= 1\ndoc(\"one\")/a[1]\n",
        Status::Done,
    ),
    (
        "load one\r\n<a>\r\nHello\r\n</a>\r\n.\r\nquery collection()//a[. contains text \"hello\"]\r\n",
        "ok\n= 1\ndoc(\"one\")/a[1]\n",
        Status::Done,
    ),
    // bad lines and names are refused first
    (
        "frobnicate\nload a b\nx\n.\nmark a/b\nload c",
        "! 1 bad command at line 1\n! 1 bad command at line 2\n! 2 bad name at line 5\n! 1 bad command at line 6\n",
        Status::SomeRefused,
    ),
    // a block is taken whatever else stands in its line
    (
        "stop /\nquery\n.\nstems x y\n.\nfrobnicate",
        "! 2 bad name at line 1\n! 1 bad command at line 4\n! 1 bad command at line 6\n",
        Status::SomeRefused,
    ),
];

#[test]
fn lines_and_blocks_are_divided_as_they_are_written(rt: HostRuntime) -> Result<(), Fail> {
    expect_rows(&rt, rt.alloc(), &LINES)
}

pub(crate) const SIZED: [Row; 3] = [
    // a block needs a length
    (
        "session 2\nload 3 x\n<a/>\nstats\n",
        "! 1 bad command at line 2\n= documents 0 tokens 0 terms 0 marks 0 plans 0 hits 0\n",
        Status::SomeRefused,
    ),
    // names in quotation marks
    (
        "session 2\nload 4 \"a\"\"b\"\n<a/>\nquery collection()/a\ndrop \"\"\n",
        "ok\n= 1\ndoc(\"a\"\"b\")/a[1]\n! 2 bad name at line 5\n",
        Status::SomeRefused,
    ),
    // only the very first line makes a session of format 2
    (
        "stats\nsession 2\nabbreviations\n",
        "= documents 0 tokens 0 terms 0 marks 0 plans 0 hits 0\n! 1 bad command at line 2\n! 1 bad command at line 3\n",
        Status::SomeRefused,
    ),
];

#[test]
fn blocks_have_the_lengths_that_their_lines_tell(rt: HostRuntime) -> Result<(), Fail> {
    expect_rows(&rt, rt.alloc(), &SIZED)
}
