// Watches: what came and what went among the nodes that a path selects.
use crate::rows::{Row, expect_output, expect_rows, numbered_lines};
use call_tests::texts::{joined, repeated};
use ft_session::Status;
use std::test::Fail;

const WATCHES: [Row; 9] = [
    // a node that moves to another place goes and comes, and what was told isn't told again
    (
        r#"session 2
load 23 m
<d><p>x</p><p>y</p></d>
watch w collection()//p[. contains text "x"]
insert 8 last collection()/d
<p>x</p>
changes w
delete collection()/d/p[1]
changes w
changes w
"#,
        r#"ok
ok
ok
= 1
+ doc("m")/d[1]/p[3]
ok
= 3
- doc("m")/d[1]/p[1]
- doc("m")/d[1]/p[3]
+ doc("m")/d[1]/p[2]
= 0
"#,
        Status::Done,
    ),
    // what is loaded comes, what is dropped goes, and a document that only stands elsewhere does neither
    (
        r#"session 2
load 8 a
<d>x</d>
load 8 "b ""c"""
<d>x</d>
watch "all of it" collection()/d
drop a
load 8 a
<d>y</d>
changes "all of it"
drop "b ""c"""
load 8 n
<d>z</d>
changes "all of it"
"#,
        r#"ok
ok
ok
ok
ok
= 0
ok
ok
= 2
- doc("b ""c""")/d[1]
+ doc("n")/d[1]
"#,
        Status::Done,
    ),
    // the lists and abbreviations are those of now
    (
        r#"session 2
load 25 x
<a>Dr. Hill had roses</a>
watch stemmed collection()/a[. contains text "rose" using stemming]
watch together collection()/a[. contains text "dr" ftand "hill" same sentence]
watch apart collection()/a[. contains text "dr" ftand "hill" different sentence]
stems 10
roses rose
changes stemmed
abbreviations 3
dr.
changes together
changes apart
"#,
        r#"ok
ok
ok
ok
ok
= 1
+ doc("x")/a[1]
ok
= 1
+ doc("x")/a[1]
= 1
- doc("x")/a[1]
"#,
        Status::Done,
    ),
    // names of watches are their own, and one that is given up may be set anew
    (
        r#"session 2
load 4 a
<a/>
mark a
watch a collection()//a
watch a /[
watch "a" collection()//a
unmark a
drop a
changes a
unwatch a
changes a
unwatch a
watch a collection()//a
changes a
"#,
        r#"ok
ok
ok
! 3 name taken: a
! 3 name taken: a
ok
ok
= 1
- doc("a")/a[1]
ok
! 4 no such name: a
! 4 no such name: a
ok
= 0
"#,
        Status::SomeRefused,
    ),
    // a watch that is refused isn't there
    (
        r#"session 2
watch w /[
watch w doc("my doc")//p
watch w collection()//p[. contains text "x" using stop words at "s"]
changes w
changes "my watch"
"#,
        r#"! 7 query: syntax at 0
! 8 no such document: my doc
! 9 no such list: s
! 4 no such name: w
! 4 no such name: my watch
"#,
        Status::SomeRefused,
    ),
    // where the path's document is gone nothing is told, and the lines that were kept stay
    (
        r#"session 2
load 15 m
<d><p/><p/></d>
watch w doc("m")//p
drop m
changes w
changes w
load 11 m
<d><p/></d>
changes w
changes w
"#,
        r#"ok
ok
ok
! 8 no such document: m
! 8 no such document: m
ok
= 1
- doc("m")/d[1]/p[2]
= 0
"#,
        Status::SomeRefused,
    ),
    // a watch uses the plan of a text that was asked before, and what is told of it uses none
    (
        r#"session 2
load 8 x
<a>x</a>
watch w collection()/a[. contains text "x"]
stats
query collection()/a[. contains text "x"]
watch v collection()/a[. contains text "x"]
stats
changes w
changes v
unwatch v
stats
"#,
        r#"ok
ok
= documents 1 tokens 1 terms 1 marks 0 plans 1 hits 0
= 1
doc("x")/a[1]
ok
= documents 1 tokens 1 terms 1 marks 0 plans 1 hits 2
= 0
= 0
ok
= documents 1 tokens 1 terms 1 marks 0 plans 1 hits 2
"#,
        Status::Done,
    ),
    // what stands behind the words
    (
        r#"session 2
watch
watch w
watch "w"//p
watch a/b collection()//p
changes
changes a b
changes a/b
unwatch
unwatch "a
watches w collection()//p
"#,
        r#"! 1 bad command at line 2
! 1 bad command at line 3
! 1 bad command at line 4
! 2 bad name at line 5
! 1 bad command at line 6
! 1 bad command at line 7
! 2 bad name at line 8
! 1 bad command at line 9
! 1 bad command at line 10
! 1 bad command at line 11
"#,
        Status::SomeRefused,
    ),
    // sessions of format 1 have no such commands
    (
        r#"watch w collection()//p
changes w
unwatch w
mark w
"#,
        r#"! 1 bad command at line 1
! 1 bad command at line 2
! 1 bad command at line 3
ok
"#,
        Status::SomeRefused,
    ),
];

#[test]
fn watches_tell_what_came_and_went(rt: HostRuntime) -> Result<(), Fail> {
    expect_rows(&rt, rt.alloc(), &WATCHES)
}

#[test]
fn watches_are_no_more_than_there_may_be(rt: HostRuntime) -> Result<(), Fail> {
    let alloc = rt.alloc();
    let watches = numbered_lines(alloc, "watch w", 1, 64, " collection()//p")?;
    let session = joined(
        alloc,
        &[
            "session 2\n",
            watches.as_str(),
            "watch e /[\nwatch w7 collection()//p\nunwatch w7\nwatch e collection()//p\nwatch w7 collection()//p\nchanges e\n",
        ],
    )?;
    let output = repeated(
        alloc,
        "",
        64,
        "ok\n",
        "! 5 full at 64 watches\n! 3 name taken: w7\nok\nok\n! 5 full at 64 watches\n= 0\n",
    )?;
    expect_output(
        &rt,
        alloc,
        session.as_str(),
        &[output.as_str()],
        Status::SomeRefused,
    )
}
