// Paths that are read: their roots, steps and predicates, and their selections.
use crate::texts::joined;
use ft_base::Memory;
use ft_syntax::print_selection;
use path_grammar::{Condition, NameTest, PathRoot, Predicate, RelativePaths, Step, Steps};
use path_subset::{ReadPath, read_path};
use std::alloc::Global;
use std::process::Abort;
use std::test::Fail;

/// A path, and a list of what it has: its root, for each step its slashes, its name and its predicates, and whether some text in it is
/// asked for without content.
type FormRow = (&'static str, &'static str);

const FORMS: [FormRow; 26] = [
    ("collection()//b[2]", "collection //b [2]"),
    (r#"doc("x")/a"#, "doc x /a"),
    (r#"doc("")/x-1"#, "doc  /x-1"),
    ("doc('')/*", "doc  /*"),
    ("collection ( ) / a [0]", "collection /a [0]"),
    (r#"doc("a""b")/a[not]"#, "doc a\"b /a [exists not]"),
    ("collection()/a[not/a]", "collection /a [exists not]"),
    ("collection()/a[not (@k)]", "collection /a [not]"),
    ("collection()/a[@k]", "collection /a [attribute k]"),
    ("collection()/a[@k = 'v']", "collection /a [attribute k v]"),
    ("collection()/a[(b)]", "collection /a [exists b]"),
    ("collection()/a[b or c and d]", "collection /a [or]"),
    ("collection()/a[(b or c) and d]", "collection /a [and]"),
    ("collection()/a[.]", "collection /a [exists .]"),
    (
        r#"collection()/a[*[b]/contains contains text "x"]"#,
        "collection /a [contains *]",
    ),
    ("collection()/or[and]", "collection /or [exists and]"),
    (
        r#"collection()/a[. contains text "a"] [1]//b/c[d][e][2]"#,
        "collection /a [contains .] [1] //b /c [exists d] [exists e] [2]",
    ),
    (
        r#"collection()/a[a. contains text "x"]"#,
        "collection /a [contains a.]",
    ),
    (
        r#"collection()/a[. contains text "x"]"#,
        "collection /a [contains .]",
    ),
    (
        r#"collection()/a[. contains text "x" without content b/c | . | not and d]"#,
        "collection /a [and] without content",
    ),
    (
        r#"collection()/a[. contains text "x" without content b/c | . | not]"#,
        "collection /a [contains . without b without . without not] without content",
    ),
    (
        r#"collection()/a[without[content contains text "x" without content b]]"#,
        "collection /a [exists without] without content",
    ),
    ("collection()/a[x-1]", "collection /a [exists x-1]"),
    ("collection()/a[not]", "collection /a [exists not]"),
    ("collection()/a[0]", "collection /a [0]"),
    ("collection()/a[0001000000]", "collection /a [1000000]"),
];

/// Adds what kind of root a path has, and how the document is called.
fn add_root(text: &mut String, root: &PathRoot) -> Result<(), Memory> {
    match root {
        PathRoot::Collection => text.push_str("collection")?,
        PathRoot::Doc(name) => {
            text.push_str("doc ")?;
            text.push_str(name.as_str())?;
        }
    }
    Ok(())
}

/// The name that a step asks for.
fn step_name(step: &Step) -> &str {
    match &step.test {
        NameTest::Any => "*",
        NameTest::Name(name) => name.as_str(),
    }
}

/// The name of the first of some steps.
fn first_name(steps: &Steps) -> &str {
    if steps.is_empty() {
        return ".";
    }
    step_name(steps.get(0))
}

/// Adds the name with which each of the ignored paths begins.
fn add_ignored(text: &mut String, ignored: &RelativePaths) -> Result<(), Memory> {
    for path in ignored.as_slice() {
        text.push_str(" without ")?;
        text.push_str(first_name(&path.steps))?;
    }
    Ok(())
}

/// Adds what kind of condition this is, with the name with which it begins.
fn add_condition(text: &mut String, condition: &Condition) -> Result<(), Memory> {
    match condition {
        Condition::Or(_) => text.push_str("or")?,
        Condition::And(_) => text.push_str("and")?,
        Condition::Not(_) => text.push_str("not")?,
        Condition::Attribute { name, value } => {
            text.push_str("attribute ")?;
            text.push_str(name.as_str())?;
            if let Some(value) = value {
                text.push(' ')?;
                text.push_str(value.as_str())?;
            }
        }
        Condition::Exists(steps) => {
            text.push_str("exists ")?;
            text.push_str(first_name(steps))?;
        }
        Condition::Contains { steps, ignored, .. } => {
            text.push_str("contains ")?;
            text.push_str(first_name(steps))?;
            add_ignored(text, ignored)?;
        }
    }
    Ok(())
}

/// Adds a predicate.
fn add_predicate(text: &mut String, predicate: &Predicate) -> Result<(), Memory> {
    text.push_str(" [")?;
    match predicate {
        Predicate::Number(number) => write!(text, "{number}")?,
        Predicate::Holds(condition) => add_condition(text, condition)?,
    }
    text.push(']')?;
    Ok(())
}

/// Adds a step with its predicates.
fn add_step(text: &mut String, step: &Step) -> Result<(), Memory> {
    text.push_str(if step.deep { " //" } else { " /" })?;
    text.push_str(step_name(step))?;
    for predicate in step.predicates.as_slice() {
        add_predicate(text, predicate)?;
    }
    Ok(())
}

/// What a path has.
fn form_of(alloc: Global, path: &ReadPath) -> Result<String, Memory> {
    let mut text = String::new(alloc);
    add_root(&mut text, path.root())?;
    for step in path.steps().as_slice() {
        add_step(&mut text, step)?;
    }
    if path.has_without() {
        text.push_str(" without content")?;
    }
    Ok(text)
}

/// Compares what the path has.
fn expect_form(rt: &impl Abort, alloc: Global, row: FormRow) -> Result<(), Fail> {
    let (text, form) = row;
    let path = read_path(alloc, text)?;
    let found = form_of(alloc, &path);
    std::mem::drop(path);
    let found = found?;
    assert!(rt; found.as_str() == form, "{text}");
    Ok(())
}

/// Tries rows one after the other.
fn expect_forms(rt: &impl Abort, alloc: Global, rows: &[FormRow]) -> Result<(), Fail> {
    for row in rows {
        expect_form(rt, alloc, *row)?;
    }
    Ok(())
}

#[test]
fn roots_steps_and_predicates_are_read(rt: HostRuntime) -> Result<(), Fail> {
    expect_forms(&rt, rt.alloc(), &FORMS)
}

/// A path, how many selections it has, the number of one of them, its printed form, and where it begins and ends.
type SelectionRow = (&'static str, usize, usize, &'static str, usize, usize);

const SELECTIONS: [SelectionRow; 9] = [
    (
        r#"collection()/a[c/b contains text "x y" and not(@k)]"#,
        1,
        0,
        r#""x y""#,
        33,
        38,
    ),
    (
        r#"collection()/a[. contains text "a" or é contains text {'b'} any word]/c"#,
        2,
        0,
        r#""a""#,
        31,
        34,
    ),
    (
        r#"collection()/a[. contains text "a" or é contains text {'b'} any word]/c"#,
        2,
        1,
        r#""b" any word"#,
        55,
        69,
    ),
    (
        r#"collection()/a[. contains text "a"] [1]"#,
        1,
        0,
        r#""a""#,
        31,
        34,
    ),
    (
        r#"collection()/a[. contains text ("a" ftand "b") ordered ]"#,
        1,
        0,
        r#""a" ftand "b" ordered"#,
        31,
        54,
    ),
    (
        r#"collection()/a[b[. contains text "a"] contains text "b"]"#,
        2,
        1,
        r#""b""#,
        52,
        55,
    ),
    (
        r#"collection()/a[. contains text "a" occurs at least 2 times without content b]"#,
        1,
        0,
        r#""a" occurs at least 2 times"#,
        31,
        58,
    ),
    (
        r#"collection()/a[. contains text "a" without content b[c contains text "w"]]"#,
        2,
        0,
        r#""a""#,
        31,
        34,
    ),
    (
        r#"collection()/a[. contains text "a" without content b[c contains text "w"]]"#,
        2,
        1,
        r#""w""#,
        69,
        72,
    ),
];

/// Whether the path has so many selections, and that of the number is printed so and stands from one place to the other.
fn has_selection(
    alloc: Global,
    path: &ReadPath,
    count: usize,
    number: usize,
    printed: &str,
    from: usize,
    to: usize,
) -> Result<bool, Memory> {
    if path.selection_count() != count || number >= count {
        return Ok(false);
    }
    let extent = path.selection_extent(number);
    let text = print_selection(alloc, path.selection(number))?;
    Ok(text.as_str() == printed && extent.from == from && extent.to == to)
}

fn expect_selection(rt: &impl Abort, alloc: Global, row: SelectionRow) -> Result<(), Fail> {
    let (text, count, number, printed, from, to) = row;
    let path = read_path(alloc, text)?;
    let agrees = has_selection(alloc, &path, count, number, printed, from, to);
    std::mem::drop(path);
    let agrees = agrees?;
    assert!(rt; agrees, "{text}");
    Ok(())
}

/// Tries rows one after the other.
fn expect_selections(rt: &impl Abort, alloc: Global, rows: &[SelectionRow]) -> Result<(), Fail> {
    for row in rows {
        expect_selection(rt, alloc, *row)?;
    }
    Ok(())
}

#[test]
fn selections_are_numbered_in_the_order_of_the_text(rt: HostRuntime) -> Result<(), Fail> {
    expect_selections(&rt, rt.alloc(), &SELECTIONS)
}

// Selections that go on as far as they can before an `and`.
const LONGEST: [&str; 5] = [
    r#""a" using thesaurus at "t" at least 1 levels"#,
    r#""a" using thesaurus at "t" at start"#,
    r#""a" using thesaurus at "t" at end"#,
    r#""a" using thesaurus at "t" at most 2 levels at start"#,
    "\"a\u{1}\u{7F}b\"",
];

fn expect_longest(rt: &impl Abort, alloc: Global, printed: &str) -> Result<(), Fail> {
    let text = joined(
        alloc,
        &["collection()/a[. contains text ", printed, " and b]"],
    )?;
    let path = read_path(alloc, text.as_str())?;
    let to = printed.len().saturating_add(31);
    let agrees = has_selection(alloc, &path, 1, 0, printed, 31, to);
    std::mem::drop(path);
    let agrees = agrees?;
    assert!(rt; agrees, "{text}");
    Ok(())
}

/// Tries selections one after the other.
fn expect_all_longest(
    rt: &impl Abort,
    alloc: Global,
    selections: &[&'static str],
) -> Result<(), Fail> {
    for printed in selections {
        expect_longest(rt, alloc, printed)?;
    }
    Ok(())
}

#[test]
fn selections_are_read_as_long_as_can_be(rt: HostRuntime) -> Result<(), Fail> {
    expect_all_longest(&rt, rt.alloc(), &LONGEST)
}
