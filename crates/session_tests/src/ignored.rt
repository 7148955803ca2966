// Elements that are ignored in what is searched.
use crate::rows::{Row, expect_rows};
use ft_session::Status;
use std::test::Fail;

// What is left of an element's text.
const LEFT: [Row; 5] = [
    // words stand beside each other once what was between them is gone
    (
        r#"load x
<a>storm <note>no</note> night</a>
.
query collection()/a[. contains text "storm night"]
query collection()/a[. contains text "storm night" without content note]
query collection()/a[. contains text "no" without content note]
query collection()/a[. contains text "storm night" without content b]
query collection()/a[. contains text "storm" ftand "night" window 2 words]
query collection()/a[. contains text "storm" ftand "night" window 2 words without content note]
query collection()/a[. contains text "night" at start without content note]
"#,
        r#"ok
= 0
= 1
doc("x")/a[1]
= 0
= 0
= 0
= 1
doc("x")/a[1]
= 0
"#,
        Status::Done,
    ),
    // a sentence or a paragraph that has ended stays ended
    (
        r#"load x
<a>storm <note>no</note> night</a>
.
load y
<a>storm <b>no. Yes</b> night</a>
.
query collection()/a[. contains text "storm" ftand "night" same paragraph without content note]
query collection()/a[. contains text "storm" ftand "night" same paragraph without content b]
query collection()/a[. contains text "storm" ftand "night" same sentence without content b]
query collection()/a[. contains text "storm" ftand "night" window 2 sentences]
query collection()/a[. contains text "storm" ftand "night" window 2 sentences without content b | note]
query collection()/a[. contains text "storm" ftand "night" distance exactly 0 sentences without content note | b]
"#,
        r#"ok
ok
= 1
doc("y")/a[1]
= 1
doc("y")/a[1]
= 0
= 1
doc("y")/a[1]
= 2
doc("x")/a[1]
doc("y")/a[1]
= 2
doc("x")/a[1]
doc("y")/a[1]
"#,
        Status::Done,
    ),
    // nothing is left of what is ignored itself, or stands below what is
    (
        r#"load x
<a>storm <note>no</note> night</a>
.
query collection()/a[. contains text "storm" without content .]
query collection()/a[. contains text ftnot "storm" without content .]
query collection()/a[. contains text "storm" occurs exactly 0 times without content .]
query collection()/a[. contains text "storm" entire content without content .]
query collection()/a[note contains text "no" without content .]
query collection()/a[note contains text ftnot "no" without content .]
query collection()//*[. contains text "no" without content note]
query collection()//*[. contains text "no" without content *]
"#,
        r#"ok
= 0
= 1
doc("x")/a[1]
= 1
doc("x")/a[1]
= 0
= 0
= 1
doc("x")/a[1]
= 1
doc("x")/a[1]/note[1]
= 1
doc("x")/a[1]/note[1]
"#,
        Status::Done,
    ),
    // parts that lie in one another, several of them, and paths with steps further down
    (
        r#"load x
<a>one <b>two <c>three</c> four</b> five <b>six</b> seven <c>eight</c></a>
.
query collection()/a[. contains text "one five seven eight" without content b]
query collection()/a[. contains text "one five seven eight" without content b | b/c]
query collection()/a[. contains text "one five seven" without content b | c | .//c]
query collection()/a[. contains text "one two four five six seven" without content .//c]
query collection()/a[. contains text "one two four five six seven eight" without content b/c]
query collection()/a[. contains text "one two three four five seven" without content b[2]]
query collection()/a[. contains text "one two three four five six seven" entire content without content c]
query collection()/a[. contains text "one five seven eight" entire content without content c|b]
query collection()/a[. contains text "one five seven" entire content without content *]
"#,
        r#"ok
= 1
doc("x")/a[1]
= 1
doc("x")/a[1]
= 1
doc("x")/a[1]
= 1
doc("x")/a[1]
= 1
doc("x")/a[1]
= 1
doc("x")/a[1]
= 1
doc("x")/a[1]
= 0
= 1
doc("x")/a[1]
"#,
        Status::Done,
    ),
    // the paths begin at the element of the predicate, and not at the one that is searched; what stands elsewhere changes nothing
    (
        r#"load x
<r><a>one <b>two</b></a><a>three <b>one two</b></a><b>one</b></r>
.
query collection()/r[a contains text "one two" without content b]
query collection()/r[a contains text "one" entire content without content a/b]
query collection()/r[a contains text "three" entire content without content a/b]
query collection()/r[a contains text "one two" without content a[1]]
query collection()/r[a contains text "one two" without content a[2]]
query collection()/r[a contains text "one two" without content a]
query collection()/r/a[b contains text "two" without content b][1]
query collection()/r/a[. contains text "one two" without content .//c]
"#,
        r#"ok
= 1
doc("x")/r[1]
= 1
doc("x")/r[1]
= 1
doc("x")/r[1]
= 1
doc("x")/r[1]
= 1
doc("x")/r[1]
= 0
= 0
= 2
doc("x")/r[1]/a[1]
doc("x")/r[1]/a[2]
"#,
        Status::Done,
    ),
];

// Words that are needed and stand only in what is ignored, only outside of it, or nowhere, and several selections over what is left.
const NEEDED: [Row; 2] = [
    (
        r#"load x
<r><p>storm <n>rare</n> night</p><p>rare <n>storm</n> night</p><p>night <n>so</n></p><p>storm <n>so</n></p></r>
.
query collection()/r/p[. contains text "rare" without content n]
query collection()/r/p[. contains text "storm" without content n]
query collection()/r/p[. contains text "so" without content n]
query collection()/r/p[. contains text "gone" without content n]
query collection()/r/p[. contains text ftnot "rare" without content n]
query collection()/r/p[. contains text "rare" ftor "storm" without content n]
query collection()/r/p[. contains text "rare" ftand "storm" without content n]
query collection()/r/p[. contains text {"rare", "storm"} all without content n]
query collection()/r/p[. contains text "storm night" without content n]
query collection()/r/p[. contains text "rare" occurs at most 0 times without content n]
query collection()/r/p[. contains text "storm" ftand "night" ordered without content n]
query collection()/r/p[. contains text "rare" at start without content n]
query collection()/r/p[. contains text "night" not in "storm night" without content n]
query collection()/r/p[. contains text ("night" occurs exactly 1 times ftand ftnot "rare") window 3 words without content n]
query collection()/r/p[. contains text "STORM" using case sensitive without content n]
"#,
        r#"ok
= 1
doc("x")/r[1]/p[2]
= 2
doc("x")/r[1]/p[1]
doc("x")/r[1]/p[4]
= 0
= 0
= 3
doc("x")/r[1]/p[1]
doc("x")/r[1]/p[3]
doc("x")/r[1]/p[4]
= 3
doc("x")/r[1]/p[1]
doc("x")/r[1]/p[2]
doc("x")/r[1]/p[4]
= 0
= 0
= 1
doc("x")/r[1]/p[1]
= 3
doc("x")/r[1]/p[1]
doc("x")/r[1]/p[3]
doc("x")/r[1]/p[4]
= 1
doc("x")/r[1]/p[1]
= 1
doc("x")/r[1]/p[2]
= 2
doc("x")/r[1]/p[2]
doc("x")/r[1]/p[3]
= 3
doc("x")/r[1]/p[1]
doc("x")/r[1]/p[2]
doc("x")/r[1]/p[3]
= 0
"#,
        Status::Done,
    ),
    // the same is ignored for several selections, or something else, and of another element
    (
        r#"load x
<r><p>storm <n>rare</n> night</p><p>rare <n>storm</n> night</p><p>night <n>so</n></p><p>storm <n>so</n></p></r>
.
query collection()/r/p[. contains text "storm" without content n and . contains text "night" without content n]
query collection()/r/p[. contains text "rare" without content n or . contains text "storm night" without content n]
query collection()/r/p[. contains text "storm night" without content n and . contains text "rare" without content b]
query collection()/r/p[. contains text "night" without content n and . contains text ftnot "night" without content .]
query collection()/r/p[. contains text "night" without content n and . contains text "night" without content .]
query collection()/r/p[n contains text ftnot "so" without content n and . contains text "night" without content n]
query collection()/r/p[. contains text "night" without content n][. contains text "rare" without content n]
"#,
        r#"ok
= 1
doc("x")/r[1]/p[1]
= 2
doc("x")/r[1]/p[1]
doc("x")/r[1]/p[2]
= 1
doc("x")/r[1]/p[1]
= 3
doc("x")/r[1]/p[1]
doc("x")/r[1]/p[2]
doc("x")/r[1]/p[3]
= 0
= 3
doc("x")/r[1]/p[1]
doc("x")/r[1]/p[2]
doc("x")/r[1]/p[3]
= 1
doc("x")/r[1]/p[2]
"#,
        Status::Done,
    ),
];

// Conditions beside others, and selections in what is ignored.
const CONDITIONS: [Row; 2] = [
    (
        r#"load x
<r><p>storm <n>at sea</n> night</p><p>storm <n>inland</n> night</p><p>storm night</p></r>
.
query collection()//p[. contains text "storm night" without content n]
query collection()//p[. contains text "storm night" without content n[. contains text "sea"]]
query collection()//p[. contains text "storm night" without content n[. contains text ftnot "sea"]]
query collection()//p[not(. contains text "storm night" without content n[. contains text "sea"])]
query collection()//p[. contains text "storm night" without content n and n]
query collection()//p[. contains text "storm night" without content n][n]
query collection()//p[. contains text "storm night" or . contains text "sea" without content b]
query collection()//p[. contains text "storm night" without content n and . contains text "inland"]
query collection()//p[. contains text "storm night" without content n and . contains text "night storm" without content n]
query collection()//p[. contains text "storm night" without content n[. contains text "sea" without content .]]
query collection()//p[. contains text "storm night" without content n[not(. contains text "sea" without content b)]][1]
"#,
        r#"ok
= 3
doc("x")/r[1]/p[1]
doc("x")/r[1]/p[2]
doc("x")/r[1]/p[3]
= 2
doc("x")/r[1]/p[1]
doc("x")/r[1]/p[3]
= 2
doc("x")/r[1]/p[2]
doc("x")/r[1]/p[3]
= 1
doc("x")/r[1]/p[2]
= 2
doc("x")/r[1]/p[1]
doc("x")/r[1]/p[2]
= 2
doc("x")/r[1]/p[1]
doc("x")/r[1]/p[2]
= 2
doc("x")/r[1]/p[1]
doc("x")/r[1]/p[3]
= 1
doc("x")/r[1]/p[2]
= 0
= 1
doc("x")/r[1]/p[3]
= 1
doc("x")/r[1]/p[2]
"#,
        Status::Done,
    ),
    // a selection's text ends before `without`, and one in what is ignored counts behind it
    (
        r#"load x
<a>storm <n>no</n> night</a>
.
query collection()/a[. contains text "storm" without content n]
stats
query collection()/a[. contains text "storm"]
stats
query collection()/a[. contains text "storm night"   without content n[. contains text "no"]]
stats
query collection()/a[. contains text "no" without content n[. contains text "storm night"]]
stats
query collection()/a[. contains text "x" using stop words at "s" without content n[. contains text "y" using stop words at "t"]]
query collection()/a[. contains text "x" without content n[. contains text "y" using stop words at "t"]][. contains text "z" using stop words at "s"]
query doc("y")/a[. contains text "x" using stop words at "s" without content n]
query collection()/a[. contains text "storm" without content]
query collection()/a[. contains text "storm" without content n |]
stats
"#,
        r#"ok
= 1
doc("x")/a[1]
= documents 1 tokens 3 terms 3 marks 0 plans 1 hits 0
= 1
doc("x")/a[1]
= documents 1 tokens 3 terms 3 marks 0 plans 1 hits 1
= 1
doc("x")/a[1]
= documents 1 tokens 3 terms 3 marks 0 plans 3 hits 1
= 1
doc("x")/a[1]
= documents 1 tokens 3 terms 3 marks 0 plans 3 hits 3
! 9 no such list: s
! 9 no such list: t
! 8 no such document: y
! 7 query: syntax at 54
! 7 query: syntax at 58
= documents 1 tokens 3 terms 3 marks 0 plans 3 hits 3
"#,
        Status::SomeRefused,
    ),
];

// Commands along such paths, in both formats.
const COMMANDS: [Row; 2] = [
    (
        r#"load x
<r><a>storm <n>no</n> night</a><a>storm night</a></r>
.
mark m
print collection()//a[. contains text "storm night" without content n][n]
insert last collection()//a[. contains text "storm night" without content n][n]
<b>late</b>
.
print collection()/r
query collection()//a[. contains text "night late" without content n]
query at m collection()//a[. contains text "night late" without content n]
query at m collection()//a[. contains text "storm night" without content n]
replace collection()//n[. contains text ftnot "storm" without content .]
<c/>
.
print collection()/r
delete collection()//a[. contains text "storm night" entire content without content b]
print collection()/r
delete collection()/r[. contains text ftnot "storm" without content a]
"#,
        r#"ok
ok
= 1
<a>storm <n>no</n> night</a>
ok
= 1
<r><a>storm <n>no</n> night<b>late</b></a><a>storm night</a></r>
= 1
doc("x")/r[1]/a[1]
= 0
= 2
doc("x")/r[1]/a[1]
doc("x")/r[1]/a[2]
ok
= 1
<r><a>storm <c/> night<b>late</b></a><a>storm night</a></r>
ok
= 1
<r/>
! 12 root target
"#,
        Status::SomeRefused,
    ),
    (
        r#"session 2
load 37 x
<a>Dr. <n>Old</n> Storm <n>no</n></a>
load 9 y
<a>Dr</a>
watch w collection()/a[. contains text "dr storm" same sentence without content n]
changes w
abbreviations 3
dr.
changes w
replace 9 doc("x")/a/n[1]
<b>in</b>
changes w
unwatch w
show collection()/a[. contains text "dr storm" without content n]
show collection()/a[. contains text "storm" without content n][. contains text "dr"]
show collection()/a[. contains text "storm"]
explain "storm" without content n
"#,
        r#"ok
ok
ok
= 0
ok
= 1
+ doc("x")/a[1]
ok
= 1
- doc("x")/a[1]
ok
! 15 nothing to show
= 1
doc("x")/a[1]
[Dr] in Storm no
= 1
doc("x")/a[1]
Dr in [Storm] no
! 7 query: syntax at 8
"#,
        Status::SomeRefused,
    ),
];

#[test]
fn what_is_ignored_is_left_out(rt: HostRuntime) -> Result<(), Fail> {
    expect_rows(&rt, rt.alloc(), &LEFT)
}

#[test]
fn needed_words_that_are_ignored(rt: HostRuntime) -> Result<(), Fail> {
    expect_rows(&rt, rt.alloc(), &NEEDED)
}

#[test]
fn ignored_elements_in_conditions(rt: HostRuntime) -> Result<(), Fail> {
    expect_rows(&rt, rt.alloc(), &CONDITIONS)
}

#[test]
fn commands_along_paths_that_ignore(rt: HostRuntime) -> Result<(), Fail> {
    expect_rows(&rt, rt.alloc(), &COMMANDS)
}
