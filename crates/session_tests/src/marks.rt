// Marks: the collection as it was, under a name.
use crate::rows::{Row, expect_output, expect_rows, numbered_lines};
use call_tests::texts::{joined, repeated};
use ft_session::Status;
use std::test::Fail;

pub(crate) const MARKS: [Row; 5] = [
    // a mark keeps what is deleted afterwards
    (
        r#"load m
<d><p>x</p></d>
.
mark before
delete collection()//p
query collection()//p
query at before collection()//p[. contains text "x"]
"#,
        r#"ok
ok
ok
= 0
= 1
doc("m")/d[1]/p[1]
"#,
        Status::Done,
    ),
    // it keeps documents that are dropped, and has none that come later
    (
        r#"load m
<d>x</d>
.
mark one
drop m
load n
<d>x y</d>
.
mark two
query collection()//d[. contains text "x"]
query at one collection()//d[. contains text "x"]
query at one doc("n")//d
query at two doc("n")//d[. contains text "x y"]
unmark one
query at one collection()//d
query at two collection()//d
"#,
        r#"ok
ok
ok
ok
ok
= 1
doc("n")/d[1]
= 1
doc("m")/d[1]
! 8 no such document: n
= 1
doc("n")/d[1]
ok
! 4 no such name: one
= 1
doc("n")/d[1]
"#,
        Status::SomeRefused,
    ),
    // names of marks are their own; what isn't there is told before a fault of the path
    (
        r#"mark a
mark a
load a
<a/>
.
unmark a
unmark a
mark a
query at b /[
query at a /[
query at a
query at
"#,
        r#"ok
! 3 name taken: a
ok
ok
! 4 no such name: a
ok
! 4 no such name: b
! 7 query: syntax at 0
! 1 bad command at line 11
! 1 bad command at line 12
"#,
        Status::SomeRefused,
    ),
    // lists are those of now
    (
        r#"load m
<d>roses</d>
.
mark one
stems
roses rose
.
query at one collection()//d[. contains text "rose" using stemming]
query at one collection()//d[. contains text "x" using stop words at "s"]
stop s
x
.
query at one collection()//d[. contains text "x" using stop words at "s"]
"#,
        r#"ok
ok
ok
= 1
doc("m")/d[1]
! 9 no such list: s
ok
= 1
doc("m")/d[1]
"#,
        Status::SomeRefused,
    ),
    // edits between marks: each mark has its own
    (
        r#"load m
<d><p>one</p></d>
.
mark a
insert last collection()/d
<p>two</p>
.
mark b
replace collection()//p[1]
<q>three</q>
.
query at a collection()//*[. contains text "one"]
query at b collection()//*[. contains text "one two"]
query collection()/d[. contains text "three two"]
query at a collection()/d[. contains text "two"]
query at b collection()/d[. contains text "three"]
"#,
        r#"ok
ok
ok
ok
ok
= 2
doc("m")/d[1]
doc("m")/d[1]/p[1]
= 1
doc("m")/d[1]
= 1
doc("m")/d[1]
= 0
= 0
"#,
        Status::Done,
    ),
];

#[test]
fn marks_keep_the_collection(rt: HostRuntime) -> Result<(), Fail> {
    expect_rows(&rt, rt.alloc(), &MARKS)
}

#[test]
fn marks_are_no_more_than_there_may_be(rt: HostRuntime) -> Result<(), Fail> {
    let alloc = rt.alloc();
    let marks = numbered_lines(alloc, "mark m", 1, 64, "")?;
    let session = joined(
        alloc,
        &[
            marks.as_str(),
            "mark e\nmark m7\nunmark m7\nmark e\nmark m7\n",
        ],
    )?;
    let output = repeated(
        alloc,
        "",
        64,
        "ok\n",
        "! 5 full at 64 marks\n! 3 name taken: m7\nok\nok\n! 5 full at 64 marks\n",
    )?;
    expect_output(
        &rt,
        alloc,
        session.as_str(),
        &[output.as_str()],
        Status::SomeRefused,
    )
}
