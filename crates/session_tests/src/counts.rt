// Counts, kept plans and hits.
use crate::rows::{Row, expect_output, expect_rows, numbered_lines};
use call_tests::texts::{joined, repeated};
use ft_session::Status;
use std::alloc::{AllocError, Global};
use std::process::Abort;
use std::test::Fail;

pub(crate) const COUNTS: [Row; 8] = [
    (
        "stats\n",
        "= documents 0 tokens 0 terms 0 marks 0 plans 0 hits 0\n",
        Status::Done,
    ),
    (
        r#"load one
<a>Hello world</a>
.
query collection()//a[. contains text "hello"]
query collection()//a[. contains text "hello"]
stats
"#,
        r#"ok
= 1
doc("one")/a[1]
= 1
doc("one")/a[1]
= documents 1 tokens 2 terms 2 marks 0 plans 1 hits 1
"#,
        Status::Done,
    ),
    // words that differ in case alone have one key; what is dropped and edited counts no more
    (
        r#"load x
<a>Hello hello <b>there</b></a>
.
load y
<a>HELLO all</a>
.
mark m
stats
delete collection()//b
stats
drop y
stats
unmark m
stats
"#,
        r#"ok
ok
ok
= documents 2 tokens 5 terms 3 marks 1 plans 0 hits 0
ok
= documents 2 tokens 4 terms 2 marks 1 plans 0 hits 0
ok
= documents 1 tokens 2 terms 1 marks 1 plans 0 hits 0
ok
= documents 1 tokens 2 terms 1 marks 0 plans 0 hits 0
"#,
        Status::Done,
    ),
    // a text is kept as it is written, and one that stands twice in a path is a hit
    (
        r#"query collection()//a[. contains text "x"]
query collection()//a[. contains text 'x']
query collection()//a[. contains text "x" and b contains text "x"]
stats
print collection()//a[. contains text "x"]
mark m
query at m collection()//a[. contains text 'x']
stats
"#,
        r#"= 0
= 0
= 0
= documents 0 tokens 0 terms 0 marks 0 plans 2 hits 2
= 0
ok
= 0
= documents 0 tokens 0 terms 0 marks 1 plans 2 hits 4
"#,
        Status::Done,
    ),
    // refused commands and `explain` keep none
    (
        r#"query collection()//a[. contains text "x"][
query doc("y")//a[. contains text "x"]
query collection()//a[. contains text "x" using stop words at "s"]
delete collection()//a[. contains text "x"]
query at m collection()//a[. contains text "x"]
explain "x"
stats
"#,
        r#"! 7 query: syntax at 37
! 8 no such document: y
! 9 no such list: s
! 10 no target
! 4 no such name: m
= "x"
= documents 0 tokens 0 terms 0 marks 0 plans 0 hits 0
"#,
        Status::SomeRefused,
    ),
    // a list that is read empties them, and one that isn't doesn't
    (
        r#"query collection()//a[. contains text "x"]
stop s
two words
.
stats
query collection()//a[. contains text "x"]
stop s
word
.
stats
query collection()//a[. contains text "x"]
stems
.
stats
query collection()//a[. contains text "x"]
thesaurus t
.
stats
"#,
        r#"= 0
! 6 list: bad line 1
= documents 0 tokens 0 terms 0 marks 0 plans 1 hits 0
= 0
ok
= documents 0 tokens 0 terms 0 marks 0 plans 0 hits 1
= 0
ok
= documents 0 tokens 0 terms 0 marks 0 plans 0 hits 1
= 0
ok
= documents 0 tokens 0 terms 0 marks 0 plans 0 hits 1
"#,
        Status::SomeRefused,
    ),
    // edits keep those of their paths, and empty nothing
    (
        r#"load x
<a>u<b>v</b></a>
.
query collection()//b[. contains text "v"]
insert last collection()//b[. contains text "v"]
 w
.
stats
replace collection()//b[. contains text "w"]
<c>z</c>
.
stats
delete collection()//c[. contains text "z"]
stats
query collection()//b[. contains text "v"]
stats
"#,
        r#"ok
= 1
doc("x")/a[1]/b[1]
ok
= documents 1 tokens 3 terms 3 marks 0 plans 1 hits 1
ok
= documents 1 tokens 2 terms 2 marks 0 plans 2 hits 1
ok
= documents 1 tokens 1 terms 1 marks 0 plans 3 hits 1
= 0
= documents 1 tokens 1 terms 1 marks 0 plans 3 hits 2
"#,
        Status::Done,
    ),
    // a plan is made under the lists that are there when it is asked
    (
        r#"load x
<a>roses</a>
.
query collection()//a[. contains text "rose" using stemming]
stems
roses rose
.
query collection()//a[. contains text "rose" using stemming]
edit
stats
"#,
        r#"ok
= 0
ok
= 1
doc("x")/a[1]
! 1 bad command at line 9
= documents 1 tokens 1 terms 1 marks 0 plans 1 hits 0
"#,
        Status::SomeRefused,
    ),
];

#[test]
fn what_is_held_is_counted(rt: HostRuntime) -> Result<(), Fail> {
    expect_rows(&rt, rt.alloc(), &COUNTS)
}

#[test]
fn so_many_plans_are_kept(rt: HostRuntime) -> Result<(), Fail> {
    let alloc = rt.alloc();
    let prefix = "query collection()/a[. contains text \"w";
    let queries = numbered_lines(alloc, prefix, 1, 65, "\"]")?;
    let further = "query collection()/a[. contains text \"w1\"]\nstats\n\
                   query collection()/a[. contains text \"w65\"]\nstats\n";
    let session = joined(alloc, &[queries.as_str(), further])?;
    let output = repeated(
        alloc,
        "",
        66,
        "= 0\n",
        "= documents 0 tokens 0 terms 0 marks 0 plans 64 hits 0\n\
         = 0\n= documents 0 tokens 0 terms 0 marks 0 plans 64 hits 1\n",
    )?;
    expect_output(
        &rt,
        alloc,
        session.as_str(),
        &[output.as_str()],
        Status::Done,
    )
}

/// Commands whose paths have the words `a` and `b`, and their replies. When 63 other words were asked after them, the one word is kept, the
/// other one isn't, and there are so many hits once the first of them was asked.
type UsedRow = (
    &'static str,
    &'static str,
    &'static str,
    &'static str,
    &'static str,
);

const USED: [UsedRow; 5] = [
    (
        "query collection()/a[. contains text \"a\" and . contains text \"b\"]\n",
        "= 0\n",
        "b",
        "a",
        "1",
    ),
    (
        "query collection()/a[b[. contains text \"b\"] and . contains text \"a\"]\n",
        "= 0\n",
        "a",
        "b",
        "1",
    ),
    // both are used again, in the other order
    (
        "query collection()/a[. contains text \"b\" and . contains text \"a\"]\n\
         print collection()/a[. contains text \"a\" and . contains text \"b\"]\n",
        "= 0\n= 0\n",
        "b",
        "a",
        "3",
    ),
    // one is used again, before a new one and after it
    (
        "query collection()/a[. contains text \"b\"]\n\
         query collection()/a[. contains text \"b\" and . contains text \"a\"]\n",
        "= 0\n= 0\n",
        "a",
        "b",
        "2",
    ),
    (
        "query collection()/a[. contains text \"b\"]\n\
         query collection()/a[. contains text \"a\" and . contains text \"b\"]\n",
        "= 0\n= 0\n",
        "b",
        "a",
        "2",
    ),
];

/// A query for a word, and the counts.
fn counted_query(alloc: Global, word: &str) -> Result<String, AllocError> {
    let query = "query collection()/a[. contains text \"";
    joined(alloc, &[query, word, "\"]\nstats\n"])
}

/// What is written for it where no document is there and 64 plans are kept.
fn counted_hits(alloc: Global, hits: &str) -> Result<String, AllocError> {
    let counts = "= 0\n= documents 0 tokens 0 terms 0 marks 0 plans 64 hits ";
    joined(alloc, &[counts, hits, "\n"])
}

fn expect_used(rt: &impl Abort, alloc: Global, row: &UsedRow) -> Result<(), Fail> {
    let (commands, replies, kept, gone, hits) = row;
    let prefix = "query collection()/a[. contains text \"w";
    let others = numbered_lines(alloc, prefix, 1, 63, "\"]")?;
    let kept = counted_query(alloc, kept)?;
    let gone = counted_query(alloc, gone)?;
    let session = joined(
        alloc,
        &[commands, others.as_str(), kept.as_str(), gone.as_str()],
    )?;
    let found = repeated(alloc, replies, 63, "= 0\n", "")?;
    let counts = counted_hits(alloc, hits)?;
    let output = [found.as_str(), counts.as_str(), counts.as_str()];
    expect_output(rt, alloc, session.as_str(), &output, Status::Done)
}

#[test]
fn texts_are_used_in_the_order_of_their_path(rt: HostRuntime) -> Result<(), Fail> {
    for row in &USED {
        expect_used(&rt, rt.alloc(), row)?;
    }
    Ok(())
}
