// Paths, with the elements that they select.
use crate::rows::expect_output;
use call_tests::texts::joined;
use ft_session::Status;
use std::alloc::Global;
use std::process::Abort;
use std::test::Fail;

/// A path, and the reply to a query with it.
type PathRow = (&'static str, &'static str);

// Paths in `<a><b>x</b><b>y</b><c><b>x y</b></c></a>`.
const LETTERS: &str = "<a><b>x</b><b>y</b><c><b>x y</b></c></a>";

const LETTER_ROWS: [PathRow; 7] = [
    ("collection()//b[2]", "= 1\ndoc(\"x\")/a[1]/b[2]\n"),
    (r#"collection()//b[. contains text "x"][2]"#, "= 0\n"),
    (
        r#"collection()/a[c/b contains text "x y" and not(@k)]"#,
        "= 1\ndoc(\"x\")/a[1]\n",
    ),
    (r#"doc("x")/a"#, "= 1\ndoc(\"x\")/a[1]\n"),
    ("collection()/b", "= 0\n"),
    // a name that stands where a keyword could is a name
    ("collection()/a[not(not)]", "= 1\ndoc(\"x\")/a[1]\n"),
    ("collection()/a[not or c]", "= 1\ndoc(\"x\")/a[1]\n"),
];

const LISTED: &str = "<r><e>a</e><e>b</e><e>a b</e><d><e>a</e><e>a b c</e></d></r>";

const LISTED_ROWS: [PathRow; 5] = [
    // each list is counted by itself
    (
        "collection()//e[2]",
        "= 2\ndoc(\"x\")/r[1]/e[2]\ndoc(\"x\")/r[1]/d[1]/e[2]\n",
    ),
    // a predicate sees what those before it have left
    (
        r#"collection()//e[. contains text "a"][2]"#,
        "= 2\ndoc(\"x\")/r[1]/e[3]\ndoc(\"x\")/r[1]/d[1]/e[2]\n",
    ),
    (
        r#"collection()//e[2][. contains text "a"]"#,
        "= 1\ndoc(\"x\")/r[1]/d[1]/e[2]\n",
    ),
    // the selections of a path are two, also where their texts are the same
    (
        r#"collection()//*[e contains text "c" or . contains text "c"]"#,
        "= 3\ndoc(\"x\")/r[1]\ndoc(\"x\")/r[1]/d[1]\ndoc(\"x\")/r[1]/d[1]/e[2]\n",
    ),
    (
        r#"collection()//e[. contains text "a"][. contains text "b"][not(. contains text "c")]"#,
        "= 1\ndoc(\"x\")/r[1]/e[3]\n",
    ),
];

/// Loads the text as document `x`, and compares the reply to a query.
fn expect_query(
    rt: &impl Abort,
    alloc: Global,
    document: &'static str,
    row: PathRow,
) -> Result<(), Fail> {
    let (path, reply) = row;
    let session = joined(alloc, &["load x\n", document, "\n.\nquery ", path, "\n"])?;
    expect_output(rt, alloc, session.as_str(), &["ok\n", reply], Status::Done)
}

#[test]
fn steps_select_elements(rt: HostRuntime) -> Result<(), Fail> {
    for row in &LETTER_ROWS {
        expect_query(&rt, rt.alloc(), LETTERS, *row)?;
    }
    Ok(())
}

#[test]
fn predicates_filter_lists(rt: HostRuntime) -> Result<(), Fail> {
    for row in &LISTED_ROWS {
        expect_query(&rt, rt.alloc(), LISTED, *row)?;
    }
    Ok(())
}
