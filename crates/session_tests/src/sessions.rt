// Whole sessions: documents that are loaded, asked, printed and taken out.
use crate::rows::{Row, expect_rows};
use ft_session::Status;
use std::test::Fail;

pub(crate) const SESSIONS: [Row; 16] = [
    ("", "", Status::Done),
    (
        r#"load one
<a>Hello world</a>
.
query collection()//a[. contains text "hello"]
"#,
        r#"ok
= 1
doc("one")/a[1]
"#,
        Status::Done,
    ),
    ("query collection()//a\n", "= 0\n", Status::Done),
    // a name is taken once
    (
        r#"load one
<a>Hello world</a>
.
query collection()//a[. contains text "hello"]
load one
<a>Hello world</a>
.
query collection()//a[. contains text "hello"]"#,
        r#"ok
= 1
doc("one")/a[1]
! 3 name taken: one
= 1
doc("one")/a[1]
"#,
        Status::SomeRefused,
    ),
    // a document is taken out
    (
        "load one\n<a b=\"1\">x</a>\n.\ndrop one\n",
        "ok\nok\n",
        Status::Done,
    ),
    (
        r#"load x
<a>w</a>
.
load y
<a>w</a>
.
load z
<a>w</a>
.
drop y
query collection()//a[. contains text "w"]
drop y
load y
<a>w</a>
.
query collection()//a[. contains text "w"]
"#,
        r#"ok
ok
ok
ok
= 2
doc("x")/a[1]
doc("z")/a[1]
! 4 no such name: y
ok
= 3
doc("x")/a[1]
doc("z")/a[1]
doc("y")/a[1]
"#,
        Status::SomeRefused,
    ),
    ("drop y", "! 4 no such name: y\n", Status::SomeRefused),
    // each element has its place among those of its name
    (
        r#"load m
<d><p>x</p><q>y</q><p>y<p>Y z</p></p></d>
.
load n
<p>y</p>
.
query collection()//p[. contains text "y"]
query collection()//d[. contains text "yy"]
"#,
        r#"ok
ok
= 3
doc("m")/d[1]/p[2]
doc("m")/d[1]/p[2]/p[1]
doc("n")/p[1]
= 0
"#,
        Status::Done,
    ),
    // roots alone are looked at after one slash
    (
        r#"load m
<d><p>New Mexico</p><p>New York</p></d>
.
load n
<p-1.x>York<p-1.x>new</p-1.x></p-1.x>
.
query collection()//p[. contains text "new" ftand ftnot "york"]
query collection()/p[. contains text "new"]
query collection()/d[. contains text "mexico new"]
query collection()/p-1.x[. contains text "new"]
query collection()//p-1.x[. contains text "new"]
"#,
        r#"ok
ok
= 1
doc("m")/d[1]/p[1]
= 0
= 1
doc("m")/d[1]
= 1
doc("n")/p-1.x[1]
= 2
doc("n")/p-1.x[1]
doc("n")/p-1.x[1]/p-1.x[1]
"#,
        Status::Done,
    ),
    // an element has the texts below it
    (
        r#"load n
<a>x <a>y</a> z</a>
.
query collection()//a[. contains text "y"]
query collection()//a[. contains text "y z"]
"#,
        r#"ok
= 2
doc("n")/a[1]
doc("n")/a[1]/a[1]
= 1
doc("n")/a[1]
"#,
        Status::Done,
    ),
    // documents are in the order of loading
    (
        r#"load z
<a><b>x</b><b/></a>
.
load m
<b><a>x</a></b>
.
load a
<b>x</b>
.
query collection()//b
query collection()//*[. contains text "x"]
query doc("m")//*
drop z
load z
<b/>
.
query collection()/b
"#,
        r#"ok
ok
ok
= 4
doc("z")/a[1]/b[1]
doc("z")/a[1]/b[2]
doc("m")/b[1]
doc("a")/b[1]
= 5
doc("z")/a[1]
doc("z")/a[1]/b[1]
doc("m")/b[1]
doc("m")/b[1]/a[1]
doc("a")/b[1]
= 2
doc("m")/b[1]
doc("m")/b[1]/a[1]
ok
ok
= 3
doc("m")/b[1]
doc("a")/b[1]
doc("z")/b[1]
"#,
        Status::Done,
    ),
    // each element is printed in one line
    (
        r#"load x
<a t='1'>x<!-- c -->y &lt; <b></b></a>
.
print collection()/a[@t = "1"]
print collection()//c
"#,
        r#"ok
= 1
<a t="1">xy &lt; <b/></a>
= 0
"#,
        Status::Done,
    ),
    (
        r#"load x
<a>
<p>u<p k="1">v</p></p></a>
.
load y
<p>w</p>
.
print collection()//p
print doc("y")//*
"#,
        r#"ok
ok
= 3
<p>u<p k="1">v</p></p>
<p k="1">v</p>
<p>w</p>
= 1
<p>w</p>
"#,
        Status::Done,
    ),
    // lists and documents are missed in an empty collection
    (
        r#"query collection()//a[. contains text "a" using stop words at "nope"]
query doc("y")//a
query collection()//a[. contains text "a"]
"#,
        r#"! 9 no such list: nope
! 8 no such document: y
= 0
"#,
        Status::SomeRefused,
    ),
    // a refused command leaves the documents and lists as they were
    (
        r#"load a
<a>the x</a>
.
stop s
the
.
load a
<b/>
.
load b
<b>
.
stop s
of it
.
query collection()//*[. contains text "of x" using stop words at "s"]
query collection()//*[. contains text "the x" using stop words at "s"]
"#,
        r#"ok
ok
! 3 name taken: a
! 6 document: syntax at 3
! 6 list: bad line 1
= 0
= 1
doc("a")/a[1]
"#,
        Status::SomeRefused,
    ),
    // books, with lists of words
    (
        r#"load moby
<?xml version="1.0" encoding="UTF-8"?>
<book id="b1">
  <title>Sea Voyages</title>
  <chapter><title>The Departure</title><p>The ship left the harbour. The crew was cheerful.</p><p>No storm was seen.</p></chapter>
  <chapter><title>The Storm</title><p>A heavy storm struck the ship at night.</p></chapter>
</book>
.
load garden
<book id="b2"><title>Garden Notes</title><chapter><title>Roses</title><p>Water the roses at dawn &amp; dusk.</p></chapter></book>
.
load cook
<book id="b3"><title>Plain Cooking</title><chapter><title>Fish</title><p>Cook the fish in salted water.</p></chapter></book>
.
stop english
the
of
at
a
.
stems
roses rose
ships ship
.
thesaurus common
synonym | vessel | ship
synonym | storm | tempest
.
query collection()//p[. contains text "struck a ship" using stop words at "english"]
query collection()//chapter[. contains text "rose" using stemming]
query collection()//book[. contains text "vessel" using thesaurus at "common" relationship "synonym" at most 2 levels]
query collection()/book[chapter/title contains text "fish"]/title
query collection()//p[. contains text "storm" ftand ftnot "ship"]
"#,
        r#"ok
ok
ok
ok
ok
ok
= 1
doc("moby")/book[1]/chapter[2]/p[1]
= 1
doc("garden")/book[1]/chapter[1]
= 1
doc("moby")/book[1]
= 1
doc("cook")/book[1]/title[1]
= 1
doc("moby")/book[1]/chapter[1]/p[2]
"#,
        Status::Done,
    ),
];

#[test]
fn sessions_are_answered(rt: HostRuntime) -> Result<(), Fail> {
    expect_rows(&rt, rt.alloc(), &SESSIONS)
}
