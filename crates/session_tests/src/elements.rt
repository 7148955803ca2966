// The elements to which the steps of a path lead, and the lines that name elements.
use crate::asked_elements::{Judge, led, tree_of};
use crate::rows::expect_output;
use call_tests::texts::{joined, repeated};
use element_lines::push_names;
use ft_session::Status;
use std::alloc::Global;
use std::process::Abort;
use std::test::Fail;
use text_list::TextList;

/// A document that is loaded as `x`, a command and a path without its `collection()`, and the replies, in parts.
type Asked = (
    &'static str,
    &'static str,
    &'static str,
    &'static [&'static str],
);

/// Loads the document, and gives a command for the path.
fn expect_elements(rt: &impl Abort, alloc: Global, row: &Asked) -> Result<(), Fail> {
    let (document, command, path, replies) = row;
    let session = joined(
        alloc,
        &[
            "load x\n",
            document,
            "\n.\n",
            command,
            " collection()",
            path,
            "\n",
        ],
    )?;
    expect_output(rt, alloc, session.as_str(), *replies, Status::Done)
}

pub(crate) const LETTERS: &str = "<a><b>x</b><b>y</b><c><b>x y</b></c></a>";

pub(crate) const NESTED: &str = "<r><a><b/><a><b/><a/><b/></a><b/></a><x><a><b/></a></x><b/></r>";

const STEPS: [Asked; 14] = [
    (LETTERS, "query", "/a", &["ok\n= 1\ndoc(\"x\")/a[1]\n"]),
    (LETTERS, "query", "/b", &["ok\n= 0\n"]),
    (
        LETTERS,
        "query",
        "/a/*",
        &["ok\n= 3\ndoc(\"x\")/a[1]/b[1]\ndoc(\"x\")/a[1]/b[2]\ndoc(\"x\")/a[1]/c[1]\n"],
    ),
    (
        LETTERS,
        "query",
        "//*",
        &[
            "ok\n= 5\ndoc(\"x\")/a[1]\ndoc(\"x\")/a[1]/b[1]\ndoc(\"x\")/a[1]/b[2]\n",
            "doc(\"x\")/a[1]/c[1]\ndoc(\"x\")/a[1]/c[1]/b[1]\n",
        ],
    ),
    (
        LETTERS,
        "query",
        "//b",
        &["ok\n= 3\ndoc(\"x\")/a[1]/b[1]\ndoc(\"x\")/a[1]/b[2]\ndoc(\"x\")/a[1]/c[1]/b[1]\n"],
    ),
    (
        NESTED,
        "query",
        "//a//b",
        &[
            "ok\n= 5\ndoc(\"x\")/r[1]/a[1]/b[1]\ndoc(\"x\")/r[1]/a[1]/a[1]/b[1]\n",
            "doc(\"x\")/r[1]/a[1]/a[1]/b[2]\ndoc(\"x\")/r[1]/a[1]/b[2]\n",
            "doc(\"x\")/r[1]/x[1]/a[1]/b[1]\n",
        ],
    ),
    (
        NESTED,
        "query",
        "//a/b",
        &[
            "ok\n= 5\ndoc(\"x\")/r[1]/a[1]/b[1]\ndoc(\"x\")/r[1]/a[1]/a[1]/b[1]\n",
            "doc(\"x\")/r[1]/a[1]/a[1]/b[2]\ndoc(\"x\")/r[1]/a[1]/b[2]\n",
            "doc(\"x\")/r[1]/x[1]/a[1]/b[1]\n",
        ],
    ),
    (
        NESTED,
        "query",
        "//a/a",
        &["ok\n= 2\ndoc(\"x\")/r[1]/a[1]/a[1]\ndoc(\"x\")/r[1]/a[1]/a[1]/a[1]\n"],
    ),
    (
        NESTED,
        "query",
        "/r/x//b",
        &["ok\n= 1\ndoc(\"x\")/r[1]/x[1]/a[1]/b[1]\n"],
    ),
    // numbers count in the list under each parent by itself
    (
        LETTERS,
        "query",
        "//b[2]",
        &["ok\n= 1\ndoc(\"x\")/a[1]/b[2]\n"],
    ),
    (
        LETTERS,
        "query",
        "//b[1]",
        &["ok\n= 2\ndoc(\"x\")/a[1]/b[1]\ndoc(\"x\")/a[1]/c[1]/b[1]\n"],
    ),
    (LETTERS, "query", "//b[0]", &["ok\n= 0\n"]),
    (LETTERS, "query", "//b[1000000]", &["ok\n= 0\n"]),
    (
        LETTERS,
        "query",
        "//b[. contains text \"y\"][1]",
        &["ok\n= 2\ndoc(\"x\")/a[1]/b[2]\ndoc(\"x\")/a[1]/c[1]/b[1]\n"],
    ),
];

#[test]
fn steps_lead_in_document_order(rt: HostRuntime) -> Result<(), Fail> {
    for row in STEPS {
        expect_elements(&rt, rt.alloc(), &row)?;
    }
    Ok(())
}

const LINES: [Asked; 8] = [
    ("<a/>", "query", "//*", &["ok\n= 1\ndoc(\"x\")/a[1]\n"]),
    (
        "<d><p>x</p><q/><p/></d>",
        "query",
        "//*",
        &[
            "ok\n= 4\ndoc(\"x\")/d[1]\ndoc(\"x\")/d[1]/p[1]\ndoc(\"x\")/d[1]/q[1]\n",
            "doc(\"x\")/d[1]/p[2]\n",
        ],
    ),
    (
        "<a>x <b/> y <b/> z</a>",
        "query",
        "//*",
        &["ok\n= 3\ndoc(\"x\")/a[1]\ndoc(\"x\")/a[1]/b[1]\ndoc(\"x\")/a[1]/b[2]\n"],
    ),
    (
        "<a><a><a/><a/></a><b/><a><a/></a></a>",
        "query",
        "//*",
        &[
            "ok\n= 7\ndoc(\"x\")/a[1]\ndoc(\"x\")/a[1]/a[1]\ndoc(\"x\")/a[1]/a[1]/a[1]\n",
            "doc(\"x\")/a[1]/a[1]/a[2]\ndoc(\"x\")/a[1]/b[1]\ndoc(\"x\")/a[1]/a[2]\n",
            "doc(\"x\")/a[1]/a[2]/a[1]\n",
        ],
    ),
    (
        "<straße t=\"1\"><b t=\"2\"/></straße>",
        "query",
        "//*",
        &["ok\n= 2\ndoc(\"x\")/straße[1]\ndoc(\"x\")/straße[1]/b[1]\n"],
    ),
    ("<a></a>", "print", "//*", &["ok\n= 1\n<a/>\n"]),
    (
        "<a t='1'>x <b u=\"&quot;\"/> 1 &lt; 2</a>",
        "print",
        "//*",
        &["ok\n= 2\n<a t=\"1\">x <b u=\"&quot;\"/> 1 &lt; 2</a>\n<b u=\"&quot;\"/>\n"],
    ),
    (
        "<a><b>x<c/></b><b>y</b></a>",
        "print",
        "//*",
        &["ok\n= 4\n<a><b>x<c/></b><b>y</b></a>\n<b>x<c/></b>\n<c/>\n<b>y</b>\n"],
    ),
];

#[test]
fn a_line_names_each_step_or_prints_all_below(rt: HostRuntime) -> Result<(), Fail> {
    for row in LINES {
        expect_elements(&rt, rt.alloc(), &row)?;
    }
    Ok(())
}

/// How many elements `a` a document has, each the only child of the one before it, how many predicates `[.//a ..]` stand one inside the
/// other after `/a`, and the reply.
type Chained = (usize, usize, &'static str);

const CHAINS: [Chained; 5] = [
    (9, 8, "ok\n= 1\ndoc(\"x\")/a[1]\n"),
    (8, 8, "ok\n= 0\n"),
    (40, 8, "ok\n= 1\ndoc(\"x\")/a[1]\n"),
    (65, 64, "ok\n= 1\ndoc(\"x\")/a[1]\n"),
    (64, 64, "ok\n= 0\n"),
];

fn expect_chained(rt: &impl Abort, alloc: Global, row: &Chained) -> Result<(), Fail> {
    let (elements, levels, reply) = row;
    let opened = repeated(alloc, "load x\n", *elements, "<a>", "")?;
    let loaded = repeated(
        alloc,
        opened.as_str(),
        *elements,
        "</a>",
        "\n.\nquery collection()/a",
    )?;
    let begun = repeated(alloc, loaded.as_str(), *levels, "[.//a", "")?;
    let session = repeated(alloc, begun.as_str(), *levels, "]", "\n")?;
    expect_output(rt, alloc, session.as_str(), &[*reply], Status::Done)
}

#[test]
fn a_predicate_inside_others_is_worked_out_once_for_an_element(
    rt: HostRuntime,
) -> Result<(), Fail> {
    for row in &CHAINS {
        expect_chained(&rt, rt.alloc(), row)?;
    }
    Ok(())
}

/// Names all elements of the document, the last one first.
fn expect_names_backwards(
    rt: &impl Abort,
    alloc: Global,
    document: &str,
    wanted: &[&str],
) -> Result<(), Fail> {
    let tree = tree_of(alloc, document)?;
    let mut test = Judge {
        tree: &tree,
        nodes: &[],
        unsatisfied: &[],
        asked: 0,
    };
    let mut found = led(alloc, "collection()//*", &mut test)?;
    found.reverse();
    let mut lines = TextList::new(alloc);
    push_names(alloc, "x", &tree, &found, &mut lines)?;
    assert!(rt; lines.len() == wanted.len(), "{document}");
    for (number, text) in wanted.iter().enumerate() {
        if number < lines.len() {
            assert!(rt; lines.get(number) == *text, "{document}");
        }
    }
    Ok(())
}

const BACKWARDS: [(&str, &[&str]); 1] = [(
    "<d><p>x</p><q/><p><q/><q/></p></d>",
    &[
        "doc(\"x\")/d[1]/p[2]/q[2]",
        "doc(\"x\")/d[1]/p[2]/q[1]",
        "doc(\"x\")/d[1]/p[2]",
        "doc(\"x\")/d[1]/q[1]",
        "doc(\"x\")/d[1]/p[1]",
        "doc(\"x\")/d[1]",
    ],
)];

#[test]
fn elements_are_named_in_any_order(rt: HostRuntime) -> Result<(), Fail> {
    for (document, wanted) in BACKWARDS {
        expect_names_backwards(&rt, rt.alloc(), document, wanted)?;
    }
    Ok(())
}
