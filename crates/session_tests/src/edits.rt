// Edits: content that is inserted, replaced and deleted, and what is then found.
use crate::rows::{Row, expect_rows};
use ft_session::Status;
use std::test::Fail;

pub(crate) const EDITS: [Row; 14] = [
    // texts that come beside each other are one text, and their words are read anew
    (
        r#"load m
<d>foo<b>x</b>bar</d>
.
delete collection()//b
query collection()/d[. contains text "foobar"]
query collection()/d[. contains text "foo"]
print collection()/d
"#,
        r#"ok
ok
= 1
doc("m")/d[1]
= 0
= 1
<d>foobar</d>
"#,
        Status::Done,
    ),
    // an element that comes between two words ends a paragraph
    (
        r#"load m
<d>red<b/>blue</d>
.
query collection()/d[. contains text "red" ftand "blue" same paragraph]
insert after collection()//b
<p/>
.
query collection()/d[. contains text "red" ftand "blue" same paragraph]
"#,
        r#"ok
= 1
doc("m")/d[1]
ok
= 0
"#,
        Status::Done,
    ),
    // what can't be edited is refused, and nothing changes
    (
        r#"load x
<a><p>u</p><p>v</p></a>
.
replace collection()//p
<q/>
.
delete collection()//z
delete collection()/a
delete collection()//p
print collection()/a
"#,
        r#"ok
! 11 many targets: 2
! 10 no target
! 12 root target
ok
= 1
<a/>
"#,
        Status::SomeRefused,
    ),
    // an element below one that goes is passed over
    (
        r#"load x
<a><b>x<b>y</b></b>z</a>
.
delete collection()//b
print collection()/a
"#,
        "ok\nok\n= 1\n<a>z</a>\n",
        Status::Done,
    ),
    (
        r#"load x
<a>foo<b/></a>
.
insert before collection()//b
bar
.
print collection()/a[. contains text "foobar"]
"#,
        "ok\nok\n= 1\n<a>foobar<b/></a>\n",
        Status::Done,
    ),
    // the four ways to insert, and a replacement by more than one node and by none
    (
        r#"load x
<a>m<b>n</b>o</a>
.
insert first collection()//b
<c/>1
.
insert last collection()//b
2<c/>
.
insert before collection()//b
3<e/>
.
insert after collection()//b
4
.
print collection()/a
replace collection()//e
5<f>6</f>
.
print collection()/a
replace collection()//b
.
print collection()/a
"#,
        r#"ok
ok
ok
ok
ok
= 1
<a>m3<e/><b><c/>1n2<c/></b>4o</a>
ok
= 1
<a>m35<f>6</f><b><c/>1n2<c/></b>4o</a>
ok
= 1
<a>m35<f>6</f>4o</a>
"#,
        Status::Done,
    ),
    // an insertion of nothing is done, where its place is there
    (
        r#"load x
<a><b/></a>
.
insert first collection()//b
.
insert first collection()//c
.
print collection()/a
"#,
        "ok\nok\n! 10 no target\n= 1\n<a><b/></a>\n",
        Status::SomeRefused,
    ),
    // beside the root nothing is inserted, and into it something is
    (
        r#"load x
<a/>
.
insert before collection()/a
y
.
insert after collection()/a
y
.
replace collection()/a
<b/>
.
insert first collection()/a
y
.
insert last collection()/a
<b>z</b>
.
print collection()/a
"#,
        r#"ok
! 12 root target
! 12 root target
! 12 root target
ok
ok
= 1
<a>y<b>z</b></a>
"#,
        Status::SomeRefused,
    ),
    // the first fault is told: of the block, of the path, the document, a list, how many there are, a root among them
    (
        r#"load x
<a><a/></a>
.
insert first //a[
<b>
.
insert first //a[
<b/>
.
insert first doc("y")//a[. contains text "q" using stop words at "s"]
<b/>
.
insert first collection()//a[. contains text "q" using stop words at "s"]
<b/>
.
insert before collection()//c
<b/>
.
insert before collection()//a
<b/>
.
delete collection()//a
print collection()//a
"#,
        r#"ok
! 6 document: syntax at 3
! 7 query: syntax at 0
! 8 no such document: y
! 9 no such list: s
! 10 no target
! 11 many targets: 2
! 12 root target
= 2
<a><a/></a>
<a/>
"#,
        Status::SomeRefused,
    ),
    // elements of several documents go at once
    (
        r#"load x
<a><p>u</p>v</a>
.
load y
<a><p>w</p><p>u</p></a>
.
load z
<a>u</a>
.
delete collection()//p[. contains text "u"]
print collection()/a
query collection()/a[. contains text "u"]
"#,
        r#"ok
ok
ok
ok
= 3
<a>v</a>
<a><p>w</p></a>
<a>u</a>
= 1
doc("z")/a[1]
"#,
        Status::Done,
    ),
    // one document alone is edited where the path begins with it, and its elements are named anew
    (
        r#"load x
<a><p>u</p></a>
.
load y
<a><p>u</p></a>
.
insert before doc("y")//p
<p>n</p>
.
query collection()//p[. contains text "u"]
"#,
        r#"ok
ok
ok
= 2
doc("x")/a[1]/p[1]
doc("y")/a[1]/p[2]
"#,
        Status::Done,
    ),
    // a text that was joined may be divided again, and its words are found as they stand
    (
        r#"load x
<a>new <b/>mexico</a>
.
query collection()/a[. contains text "new mexico"]
replace collection()//b
york
.
query collection()/a[. contains text "new yorkmexico"]
insert first collection()/a
<i>old</i>
.
query collection()/a[. contains text "old new"]
delete collection()//i
query collection()/a[. contains text "old"]
drop x
query collection()//a
"#,
        r#"ok
= 1
doc("x")/a[1]
ok
= 1
doc("x")/a[1]
ok
= 1
doc("x")/a[1]
ok
= 0
ok
= 0
"#,
        Status::Done,
    ),
    // what comes may have too many levels
    (
        r#"load x
<a><b/></a>
.
insert last collection()//b
<c><d/></c>
.
query collection()//c[d]
"#,
        "ok\nok\n= 1\ndoc(\"x\")/a[1]/b[1]/c[1]\n",
        Status::Done,
    ),
    // a fragment is content: texts, elements, references and comments
    (
        r#"load x
<a/>
.
insert last collection()/a
x &amp; y<!-- c --> z
.
print collection()/a
insert last collection()/a
<b k='1'/>
.
query collection()/a/b[@k = "1"]
insert last collection()/a
</a>
.
"#,
        r#"ok
ok
= 1
<a>x &amp; y z</a>
ok
= 1
doc("x")/a[1]/b[1]
! 6 document: syntax at 1
"#,
        Status::SomeRefused,
    ),
];

#[test]
fn elements_are_edited(rt: HostRuntime) -> Result<(), Fail> {
    expect_rows(&rt, rt.alloc(), &EDITS)
}
