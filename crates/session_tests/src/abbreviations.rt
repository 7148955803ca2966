// Abbreviations: behind them a period ends no sentence.
use crate::rows::{Row, expect_rows};
use ft_session::Status;
use std::test::Fail;

const ABBREVIATIONS: [Row; 7] = [
    // what is there is read anew, and marks stay as they are
    (
        r#"session 2
load 19 "my doc"
<a>Dr. Hill ran</a>
mark m
query collection()/a[. contains text "dr" ftand "hill" same sentence]
abbreviations 3
dr.
query collection()/a[. contains text "dr" ftand "hill" same sentence]
query at m collection()/a[. contains text "dr" ftand "hill" same sentence]
"#,
        r#"ok
ok
= 0
ok
= 1
doc("my doc")/a[1]
= 0
"#,
        Status::Done,
    ),
    // what is loaded later is read under them
    (
        r#"session 2
abbreviations 4
e.g.
load 24 x
<a>Use e.g. this. Go</a>
query collection()/a[. contains text "e.g" ftand "this" same sentence]
query collection()/a[. contains text "this" ftand "go" same sentence]
"#,
        r#"ok
ok
= 1
doc("x")/a[1]
= 0
"#,
        Status::Done,
    ),
    // so is what comes by an edit
    (
        r#"session 2
load 8 x
<a>a</a>
abbreviations 3
dr.
insert 9 last collection()/a
 Dr. Hill
query collection()/a[. contains text "dr" ftand "hill" same sentence]
"#,
        r#"ok
ok
ok
= 1
doc("x")/a[1]
"#,
        Status::Done,
    ),
    // a list comes in the place of the one before
    (
        "session 2\n\
         load 19 x\n\
         <a>Dr. Hill ran</a>\n\
         abbreviations 18\n\
         # titles\n\n\tDr \r\nmr\n\
         query collection()/a[. contains text \"dr\" ftand \"hill\" same sentence]\n\
         abbreviations 3\nmr.\n\
         query collection()/a[. contains text \"dr\" ftand \"hill\" same sentence]\n\
         abbreviations 2\nDR\n\
         query collection()/a[. contains text \"dr\" ftand \"hill\" same sentence]\n\
         abbreviations 0\n\n\
         query collection()/a[. contains text \"dr\" ftand \"hill\" same sentence]\n",
        "ok\nok\n= 1\ndoc(\"x\")/a[1]\nok\n= 0\nok\n= 1\ndoc(\"x\")/a[1]\nok\n= 0\n",
        Status::Done,
    ),
    // a list with a bad line leaves the one before
    (
        r#"session 2
load 19 x
<a>Dr. Hill ran</a>
abbreviations 3
dr.
abbreviations 11
mr.
no rule
abbreviations 1
-
query collection()/a[. contains text "dr" ftand "hill" same sentence]
"#,
        r#"ok
ok
! 6 list: bad line 2
! 6 list: bad line 1
= 1
doc("x")/a[1]
"#,
        Status::SomeRefused,
    ),
    // nothing but a length stands behind the word
    (
        r#"session 2
abbreviations
abbreviations 3 x
dr.
abbreviations 4
dr."#,
        r#"! 1 bad command at line 2
! 1 bad command at line 3
! 1 bad command at line 5
"#,
        Status::SomeRefused,
    ),
    // sessions of format 1 have no such command
    (
        r#"load x
<a>Dr. Hill ran</a>
.
abbreviations
abbreviations 3
dr.
query collection()/a[. contains text "dr" ftand "hill" same sentence]
"#,
        r#"ok
! 1 bad command at line 4
! 1 bad command at line 5
! 1 bad command at line 6
= 0
"#,
        Status::SomeRefused,
    ),
];

#[test]
fn abbreviations_are_read(rt: HostRuntime) -> Result<(), Fail> {
    expect_rows(&rt, rt.alloc(), &ABBREVIATIONS)
}
