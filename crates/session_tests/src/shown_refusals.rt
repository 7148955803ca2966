// What `show` refuses, and in which order.
use crate::rows::{Row, expect_rows};
use ft_session::Status;
use std::test::Fail;

const REFUSED: [Row; 6] = [
    // no predicate, another one, more than one test, or parentheses round it
    (
        r#"session 2
load 21 x
<a k="x"><b>x</b></a>
show collection()/a
show collection()/a[1]
show collection()/a[@k]
show collection()/a[@k = "x"]
show collection()/a[b]
show collection()/a[b contains text "x"]
show collection()/a[./b contains text "x"]
show collection()/a[not(. contains text "x")]
show collection()/a[. contains text "x" and @k]
show collection()/a[. contains text "x" or . contains text "y"]
show collection()/a[. contains text "x"][1]
show collection()/a[. contains text "x"]/b
show collection()/a[(. contains text "x")]
show collection()/a[ ( . contains text "x" ) ]
show collection()/a[((. contains text ("x")))]
show collection()/a[. contains text ("x")]
show collection()/a[. contains text (("x") ) ]
"#,
        r#"ok
! 15 nothing to show
! 15 nothing to show
! 15 nothing to show
! 15 nothing to show
! 15 nothing to show
! 15 nothing to show
! 15 nothing to show
! 15 nothing to show
! 15 nothing to show
! 15 nothing to show
! 15 nothing to show
! 15 nothing to show
! 15 nothing to show
! 15 nothing to show
! 15 nothing to show
= 1
doc("x")/a[1]
[x]
= 1
doc("x")/a[1]
[x]
"#,
        Status::SomeRefused,
    ),
    // `occurs` under a filter, and `ftnot` and `occurs` in `ftnot`
    (
        r#"session 2
load 12 x
<a>x x y</a>
show collection()/a[. contains text "x" occurs at least 2 times window 2 words]
show collection()/a[. contains text ftnot (ftnot "x")]
show collection()/a[. contains text "y" ftand ftnot ("z" ftand ftnot "x")]
show collection()/a[. contains text ftnot ("x" occurs at least 3 times)]
show collection()/a[. contains text "y" ftor ftnot ("x" occurs at least 3 times)]
show collection()/a[. contains text ftnot ("x" ftand "z" ordered)]
show collection()/a[. contains text "x" occurs at least 2 times ftand ("x" ftand "y" ordered)]
"#,
        r#"ok
! 15 nothing to show
! 15 nothing to show
! 15 nothing to show
! 15 nothing to show
! 15 nothing to show
= 1
doc("x")/a[1]
x x y
= 1
doc("x")/a[1]
[x] [x] [y]
"#,
        Status::SomeRefused,
    ),
    // first what is wrong with the path, a document and a list that are missing
    (
        r#"session 2
show collection()/a[. contains text ftnot ftnot "a"]
show /[
show doc("no doc")/a
show doc("n")/a[. contains text "x" using stop words at "s"]
show collection()/a[. contains text "x" using stop words at "s"]
show collection()/a[. contains text "x" using stop words at "s"]/b
show collection()/a[(. contains text "x" using thesaurus at "t")]
show collection()/a
show collection()/a[. contains text "x"]
"#,
        r#"! 7 query: syntax at 37
! 7 query: syntax at 0
! 8 no such document: no doc
! 8 no such document: n
! 9 no such list: s
! 9 no such list: s
! 9 no such list: t
! 15 nothing to show
= 0
"#,
        Status::SomeRefused,
    ),
    // a plan is kept for each selection of a path that is shown, and none by a refusal
    (
        r#"session 2
load 10 x
<a>x y</a>
show collection()/a[. contains text "x"][1]
stats
show collection()/a[. contains text "x"]
stats
query collection()/a[. contains text "x"]
stats
show collection()/a[. contains text "x"][1]
show collection()/a[. contains text ftnot (ftnot "y")]
stats
show collection()/a[. contains text "y"][. contains text "x"]
stats
"#,
        r#"ok
! 15 nothing to show
= documents 1 tokens 2 terms 2 marks 0 plans 0 hits 0
= 1
doc("x")/a[1]
[x] y
= documents 1 tokens 2 terms 2 marks 0 plans 1 hits 0
= 1
doc("x")/a[1]
= documents 1 tokens 2 terms 2 marks 0 plans 1 hits 1
! 15 nothing to show
! 15 nothing to show
= documents 1 tokens 2 terms 2 marks 0 plans 1 hits 1
= 1
doc("x")/a[1]
[x] y
= documents 1 tokens 2 terms 2 marks 0 plans 2 hits 2
"#,
        Status::SomeRefused,
    ),
    // what stands behind the word
    (
        "session 2\nshow\nshow \t \nshows collection()/a\nshow at m collection()/a\n",
        r#"! 1 bad command at line 2
! 1 bad command at line 3
! 1 bad command at line 4
! 7 query: syntax at 0
"#,
        Status::SomeRefused,
    ),
    // sessions of format 1 have no such command
    (
        r#"show collection()/a
stats
.
"#,
        r#"! 1 bad command at line 1
= documents 0 tokens 0 terms 0 marks 0 plans 0 hits 0
! 1 bad command at line 3
"#,
        Status::SomeRefused,
    ),
];

#[test]
fn paths_that_show_nothing_are_refused(rt: HostRuntime) -> Result<(), Fail> {
    expect_rows(&rt, rt.alloc(), &REFUSED)
}
