// Lists that sessions bring: which are read, replaced and missed.
use crate::rows::{Row, expect_output, expect_rows};
use call_tests::texts::joined;
use ft_session::Status;
use std::alloc::{AllocError, Global};
use std::process::Abort;
use std::test::Fail;

const LIST_SESSIONS: [Row; 7] = [
    // the line of a block that is no list
    (
        r#"stop s
the
of it
.
stems
runs
.
thesaurus t
synonym | car
.
"#,
        r#"! 6 list: bad line 2
! 6 list: bad line 1
! 6 list: bad line 1
"#,
        Status::SomeRefused,
    ),
    // lines that are skipped are counted, and a key has one stem
    (
        "stop s\n# words\n\n the \n.\nstems\nruns run\nRUNS ran\n.\n\
         thesaurus t\n\nr | a | b\nr | a | -\n.\nstop s\n.\n",
        r#"ok
! 6 list: bad line 2
! 6 list: bad line 3
ok
"#,
        Status::SomeRefused,
    ),
    // a list that is missing is named
    (
        r#"query collection()//a[. contains text "a" using stop words at "nope"]
"#,
        "! 9 no such list: nope\n",
        Status::SomeRefused,
    ),
    // the first in the printed form; each kind has its own names; an option that nothing looks at names a list too
    (
        r#"stop s
the
.
thesaurus t
r | a | b
.
query collection()/a[. contains text "a" using stop words at "t" using thesaurus at "s"]
query collection()/a[. contains text ("a" using stop words at "s" ftor "b" using stop words at "u") using thesaurus at "v"]
query collection()/a[. contains text ("a" using no stop words) using stop words at "w"]
query collection()/a[. contains text "a" using stop words at "nope" ordered]
query collection()/a[. contains text "a" using stop words at "s" ordered]
query collection()/a[. contains text "a" using thesaurus (at "t", at "z")]
"#,
        r#"ok
ok
! 9 no such list: s
! 9 no such list: u
! 9 no such list: w
! 9 no such list: nope
= 0
! 9 no such list: z
"#,
        Status::SomeRefused,
    ),
    // a list is replaced, and a refused one is not
    (
        r#"load x
<a>a x b</a>
.
stop s
the
.
query collection()//a[. contains text "a the b" using stop words at "s"]
query collection()//a[. contains text "a of b" using stop words at "s"]
stop s
the
of it
.
query collection()//a[. contains text "a the b" using stop words at "s"]
query collection()//a[. contains text "a of b" using stop words at "s"]
stop s
of
.
query collection()//a[. contains text "a the b" using stop words at "s"]
query collection()//a[. contains text "a of b" using stop words at "s"]
"#,
        r#"ok
ok
= 1
doc("x")/a[1]
= 0
! 6 list: bad line 2
= 1
doc("x")/a[1]
= 0
ok
= 0
= 1
doc("x")/a[1]
"#,
        Status::SomeRefused,
    ),
    // each kind has names of its own, letter for letter
    (
        r#"stop e
the
.
stop f
of
.
thesaurus t
r | a | b
.
query collection()//a[. contains text "a" using stop words at "e"]
query collection()//a[. contains text "a" using stop words at "f"]
query collection()//a[. contains text "a" using stop words at "E"]
query collection()//a[. contains text "a" using stop words at "t"]
query collection()//a[. contains text "a" using stop words at ""]
query collection()//a[. contains text "a" using thesaurus at "t"]
query collection()//a[. contains text "a" using thesaurus at "f"]
query collection()//a[. contains text "a" using thesaurus at "e"]
thesaurus e
r | b | c
.
query collection()//a[. contains text "a" using thesaurus at "e"]
"#,
        "ok\nok\nok\n= 0\n= 0\n! 9 no such list: E\n! 9 no such list: t\n! 9 no such list: \n= 0\n\
         ! 9 no such list: f\n! 9 no such list: e\nok\n= 0\n",
        Status::SomeRefused,
    ),
    // what a thesaurus reaches stands for the phrase once, however many lines and choices lead to it
    (
        r#"load one
<a>b c b</a>
.
thesaurus t
r | a | b
s | a | b
r | a | c
.
thesaurus u
r | a | c
r | c | b
.
query collection()/a[. contains text "a" occurs exactly 3 times using thesaurus (at "t", at "t", at "u", at "t" at most 1 levels)]
query collection()/a[. contains text "a" occurs exactly 2 times using thesaurus (at "t" relationship "s", at "t" relationship "s")]
query collection()/a[. contains text "a" occurs exactly 1 times using thesaurus (at "u" exactly 1 levels, at "u" exactly 1 levels)]
query collection()/a[. contains text "a" occurs exactly 3 times using thesaurus (at "u" exactly 1 levels, at "u" exactly 2 levels)]
"#,
        "ok\nok\nok\n= 1\ndoc(\"one\")/a[1]\n= 1\ndoc(\"one\")/a[1]\n= 1\ndoc(\"one\")/a[1]\n= 1\ndoc(\"one\")/a[1]\n",
        Status::Done,
    ),
];

/// The names of a thesaurus and a stop list inside parentheses, those outside, and the first that is missing; none is called "".
type MissingRow = ([&'static str; 4], &'static str);

// There are stop lists `e` and `f` and a thesaurus `t`.
const MISSING_ROWS: [MissingRow; 7] = [
    (["t", "e", "t", "f"], ""),
    (["t", "t", "t", "f"], "t"),
    (["e", "e", "t", "f"], "e"),
    (["v", "w", "x", "y"], "v"),
    (["t", "w", "x", "y"], "w"),
    (["t", "e", "x", "y"], "x"),
    (["t", "e", "t", "y"], "y"),
];

/// A selection with these names.
fn naming(alloc: Global, names: [&'static str; 4]) -> Result<String, AllocError> {
    let [inner_thesaurus, inner_stop, outer_thesaurus, outer_stop] = names;
    joined(
        alloc,
        &[
            "((\"a\") using thesaurus at \"",
            inner_thesaurus,
            "\" using stop words (\"w\") except at \"",
            inner_stop,
            "\") using thesaurus at \"",
            outer_thesaurus,
            "\" using stop words (\"w\") except at \"",
            outer_stop,
            "\"",
        ],
    )
}

/// Asks for the selection, alone and after another.
fn expect_missing(rt: &impl Abort, alloc: Global, row: MissingRow) -> Result<(), Fail> {
    let (names, missing) = row;
    let selection = naming(alloc, names)?;
    let session = joined(
        alloc,
        &[
            "stop e\nthe\n.\nstop f\nof\n.\nthesaurus t\nr | a | b\n.\nquery collection()//a[. contains text ",
            selection.as_str(),
            "]\nquery collection()//a[. contains text \"a\" ftor ",
            selection.as_str(),
            "]\n",
        ],
    )?;
    if missing.is_empty() {
        let output = ["ok\nok\nok\n= 0\n= 0\n"];
        return expect_output(rt, alloc, session.as_str(), &output, Status::Done);
    }
    let output = [
        "ok\nok\nok\n! 9 no such list: ",
        missing,
        "\n! 9 no such list: ",
        missing,
        "\n",
    ];
    expect_output(rt, alloc, session.as_str(), &output, Status::SomeRefused)
}

#[test]
fn lists_are_read_and_replaced(rt: HostRuntime) -> Result<(), Fail> {
    expect_rows(&rt, rt.alloc(), &LIST_SESSIONS)
}

#[test]
fn the_first_missing_list_is_named(rt: HostRuntime) -> Result<(), Fail> {
    for row in &MISSING_ROWS {
        expect_missing(&rt, rt.alloc(), *row)?;
    }
    Ok(())
}
