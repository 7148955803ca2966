// Judges of the tests' own: what a path selects follows what its judge says.
ghost use Rattle.std.specs.Prelude.{not, true};
ghost use Rattle.plan_runs.specs.Judgement.{by_definition};

use crate::rows::{NEVER, is_answered_by};
use call_tests::texts::joined;
use ft_base::{DocId, Span, Steps};
use ft_session::Status;
use plan_runs::{Direct, Judge, Run};
use std::alloc::Global;
use std::cell::Cell;
use std::process::Abort;
use std::sync::ledger::Ledger;
use std::test::Fail;

/// Says what the run says. It counts the elements for which it is asked, and skips what the run skips, or nothing.
#[derive(Clone, Copy)]
struct Counting<'c> {
    skips: bool,
    asked: &'c Cell<u32>,
}

impl<'c> Judge for Counting<'c> {
    ghost says = { by_definition };

    fn judge<L: Ledger>(
        &self,
        run: &mut Run<'_>,
        doc: DocId,
        span: Span,
        moves: &mut Steps<L>,
    ) -> bool {
        self.asked.set(self.asked.get().wrapping_add(1));
        run.test(doc, span, moves)
    }

    fn lacks<L: Ledger>(
        &self,
        run: &mut Run<'_>,
        doc: DocId,
        span: Span,
        moves: &mut Steps<L>,
    ) -> bool {
        if self.skips {
            run.lacks(doc, span, moves)
        } else {
            false
        }
    }

    fn skip_to(&self, run: &Run<'_>, doc: DocId, from: u32) -> u32 {
        if self.skips {
            run.skip_to(doc, from)
        } else {
            0
        }
    }
}

/// Says the contrary of what the run says.
#[derive(Clone, Copy)]
struct Contrary;

impl Judge for Contrary {
    ghost says = { λ form lists tokens. not (by_definition form lists tokens) };

    fn judge<L: Ledger>(
        &self,
        run: &mut Run<'_>,
        doc: DocId,
        span: Span,
        moves: &mut Steps<L>,
    ) -> bool {
        !run.test(doc, span, moves)
    }

    fn lacks<L: Ledger>(
        &self,
        _run: &mut Run<'_>,
        _doc: DocId,
        _span: Span,
        _moves: &mut Steps<L>,
    ) -> bool {
        false
    }

    fn skip_to(&self, _run: &Run<'_>, _doc: DocId, _from: u32) -> u32 {
        0
    }
}

/// Says that each element satisfies each selection, and asks no run.
#[derive(Clone, Copy)]
struct Content;

impl Judge for Content {
    ghost says = { λ form lists tokens. true };

    fn judge<L: Ledger>(
        &self,
        _run: &mut Run<'_>,
        _doc: DocId,
        _span: Span,
        _moves: &mut Steps<L>,
    ) -> bool {
        true
    }

    fn lacks<L: Ledger>(
        &self,
        _run: &mut Run<'_>,
        _doc: DocId,
        _span: Span,
        _moves: &mut Steps<L>,
    ) -> bool {
        false
    }

    fn skip_to(&self, _run: &Run<'_>, _doc: DocId, _from: u32) -> u32 {
        0
    }
}

/// Says that no element satisfies a selection, and asks no run. It counts the elements for which it is asked, and skips up to
/// the same place of each document.
#[derive(Clone, Copy)]
struct Discontent<'c> {
    skips_to: u32,
    asked: &'c Cell<u32>,
}

impl<'c> Judge for Discontent<'c> {
    ghost use Rattle.std.specs.Prelude.{false};

    ghost says = { λ form lists tokens. false };

    fn judge<L: Ledger>(
        &self,
        _run: &mut Run<'_>,
        _doc: DocId,
        _span: Span,
        _moves: &mut Steps<L>,
    ) -> bool {
        self.asked.set(self.asked.get().wrapping_add(1));
        false
    }

    fn lacks<L: Ledger>(
        &self,
        _run: &mut Run<'_>,
        _doc: DocId,
        _span: Span,
        _moves: &mut Steps<L>,
    ) -> bool {
        false
    }

    fn skip_to(&self, _run: &Run<'_>, _doc: DocId, _from: u32) -> u32 {
        self.skips_to
    }
}

const LOAD: &str = "load one\n<a>Hello <b>world</b></a>\n.\n";

const A: &str = "= 1\ndoc(\"one\")/a[1]\n";

const B: &str = "= 1\ndoc(\"one\")/a[1]/b[1]\n";

const BOTH: &str = "= 2\ndoc(\"one\")/a[1]\ndoc(\"one\")/a[1]/b[1]\n";

const NONE: &str = "= 0\n";

/// A command, and its reply where `Direct`, `Contrary` and `Content` are asked.
type JudgedRow = (&'static str, &'static str, &'static str, &'static str);

const JUDGED: [JudgedRow; 17] = [
    (
        "query collection()//a[. contains text \"hello\"]",
        A,
        NONE,
        A,
    ),
    ("query collection()//a[. contains text \"bye\"]", NONE, A, A),
    (
        "query collection()//*[. contains text \"hello\"]",
        A,
        B,
        BOTH,
    ),
    (
        "query collection()//a[not(. contains text \"hello\")]",
        NONE,
        A,
        NONE,
    ),
    (
        "print collection()//b[. contains text \"hello\"]",
        NONE,
        "= 1\n<b>world</b>\n",
        "= 1\n<b>world</b>\n",
    ),
    // where there is no selection no judge is asked
    ("query collection()//b", B, B, B),
    // a word that isn't in the document rules the document out where it has to be there
    (
        "query collection()//a[. contains text ftnot \"bye\"]",
        A,
        NONE,
        A,
    ),
    (
        "query collection()//a[. contains text \"bye\" occurs at least 0 times]",
        A,
        NONE,
        A,
    ),
    (
        "query collection()//a[. contains text \"bye\" occurs at most 1 times]",
        A,
        NONE,
        A,
    ),
    (
        "query collection()//a[. contains text \"bye\" occurs at least 1 times]",
        NONE,
        A,
        A,
    ),
    (
        "query collection()//a[. contains text \"bye\" ftor \"hello\"]",
        A,
        NONE,
        A,
    ),
    (
        "query collection()//a[. contains text \"bye\" ftand \"hello\"]",
        NONE,
        A,
        A,
    ),
    // and where no predicate can be true without it
    (
        "query collection()//a[. contains text \"bye\" or . contains text \"hello\"]",
        A,
        A,
        A,
    ),
    (
        "query collection()//a[. contains text \"bye\" and . contains text \"hello\"]",
        NONE,
        NONE,
        A,
    ),
    (
        "query collection()//a[not(. contains text \"bye\")]",
        A,
        NONE,
        NONE,
    ),
    (
        "query collection()//a[. contains text \"bye\"]/b",
        NONE,
        B,
        B,
    ),
    (
        "query collection()//a[b[. contains text \"bye\"]]",
        NONE,
        A,
        A,
    ),
];

/// Compares the reply to a command where this judge is asked.
fn expect_judged<J: Judge + Drop>(
    rt: &impl Abort,
    alloc: Global,
    judge: J,
    command: &str,
    reply: &str,
) -> Result<(), Fail> {
    expect_judged_of(rt, alloc, judge, LOAD, command, reply)
}

/// The same after another load.
fn expect_judged_of<J: Judge + Drop>(
    rt: &impl Abort,
    alloc: Global,
    judge: J,
    load: &str,
    command: &str,
    reply: &str,
) -> Result<(), Fail> {
    let session = joined(alloc, &[load, command])?;
    let output = ["ok\n", reply];
    let answered = is_answered_by(
        alloc,
        session.as_bytes(),
        judge,
        NEVER,
        NEVER,
        &output,
        Status::Done,
    )?;
    assert!(rt; answered, "{command}");
    Ok(())
}

#[test]
fn what_a_path_selects_follows_its_judge(rt: HostRuntime) -> Result<(), Fail> {
    let alloc = rt.alloc();
    for (command, direct, contrary, content) in &JUDGED {
        expect_judged(&rt, alloc, Direct, command, direct)?;
        expect_judged(&rt, alloc, Contrary, command, contrary)?;
        expect_judged(&rt, alloc, Content, command, content)?;
    }
    Ok(())
}

const SHOWN_LOAD: &str = "session 2\nload 25 one\n<a>Hello <b>world</b></a>\n";

const MARKED: &str = "= 1\ndoc(\"one\")/a[1]\n[Hello] world\n";

const UNMARKED: &str = "= 1\ndoc(\"one\")/a[1]\nHello world\n";

const UNMARKED_B: &str = "= 1\ndoc(\"one\")/a[1]/b[1]\nworld\n";

const JUDGED_SHOWN: [JudgedRow; 3] = [
    (
        "show collection()/a[. contains text \"hello\"]",
        MARKED,
        NONE,
        MARKED,
    ),
    (
        "show collection()/a[. contains text \"bye\"]",
        NONE,
        UNMARKED,
        UNMARKED,
    ),
    (
        "show collection()//b[. contains text \"hello\"]",
        NONE,
        UNMARKED_B,
        UNMARKED_B,
    ),
];

#[test]
fn what_a_judge_alone_selects_has_no_marks(rt: HostRuntime) -> Result<(), Fail> {
    let alloc = rt.alloc();
    for (command, direct, contrary, content) in &JUDGED_SHOWN {
        expect_judged_of(&rt, alloc, Direct, SHOWN_LOAD, command, direct)?;
        expect_judged_of(&rt, alloc, Contrary, SHOWN_LOAD, command, contrary)?;
        expect_judged_of(&rt, alloc, Content, SHOWN_LOAD, command, content)?;
    }
    Ok(())
}

/// Up to where a judge skips each document, a command, its reply, and for how many elements the judge is asked.
type CountedRow = (u32, &'static str, &'static str, u32);

const COUNTED: [CountedRow; 6] = [
    (
        0,
        "query collection()//*[. contains text \"hello\"]",
        NONE,
        2,
    ),
    (
        u32::MAX,
        "query collection()//*[. contains text \"hello\"]",
        NONE,
        0,
    ),
    (
        u32::MAX,
        "print doc(\"one\")/a[. contains text \"hello\"]/b",
        NONE,
        0,
    ),
    (
        u32::MAX,
        "query collection()//*[. contains text \"hello\" or . contains text \"world\"]",
        NONE,
        0,
    ),
    (
        u32::MAX,
        "query collection()//a[not(. contains text \"hello\")]",
        A,
        1,
    ),
    (u32::MAX, "query collection()//b", B, 0),
];

#[test]
fn no_element_is_looked_at_in_documents_that_are_ruled_out(rt: HostRuntime) -> Result<(), Fail> {
    let alloc = rt.alloc();
    for (skips_to, command, reply, wanted) in &COUNTED {
        let asked = Cell::new(0);
        let judge = Discontent {
            skips_to: *skips_to,
            asked: &asked,
        };
        expect_judged(&rt, alloc, judge, command, reply)?;
        assert!(rt; asked.get() == *wanted, "{command}");
    }
    Ok(())
}

const HITS: &str = "load one\n<r><p>a</p><p>a</p><p>a</p><p>b rare</p><p>c</p><p>c</p><p>c</p>\
    <p>d<q>rare</q></p><p>e</p><p>e</p></r>\n.\n";

const FOURTH: &str = "= 1\ndoc(\"one\")/r[1]/p[4]\n";

const EIGHTH: &str = "= 1\ndoc(\"one\")/r[1]/p[8]\n";

const BOTH_HITS: &str = "= 2\ndoc(\"one\")/r[1]/p[4]\ndoc(\"one\")/r[1]/p[8]\n";

const OTHERS: &str = "= 8\ndoc(\"one\")/r[1]/p[1]\ndoc(\"one\")/r[1]/p[2]\ndoc(\"one\")/r[1]/p[3]\n\
    doc(\"one\")/r[1]/p[5]\ndoc(\"one\")/r[1]/p[6]\ndoc(\"one\")/r[1]/p[7]\n\
    doc(\"one\")/r[1]/p[9]\ndoc(\"one\")/r[1]/p[10]\n";

/// What the paragraphs have to contain, the reply, and for how many of them the judge is asked.
type SkippedRow = (&'static str, &'static str, u32);

const SKIPPED: [SkippedRow; 9] = [
    // one that doesn't have what is asked for tells where the next one may be, and none is asked up to there
    ("\"rare\"", BOTH_HITS, 5),
    ("\"b rare\"", FOURTH, 3),
    ("\"d\" ftand \"rare\"", EIGHTH, 3),
    ("\"d\" ftor \"rare\"", BOTH_HITS, 5),
    ("{\"rare\", \"d\"} all", EIGHTH, 3),
    ("(\"d\" ftand \"rare\") window 2 words", EIGHTH, 3),
    // the words are there, and not as they are wanted
    ("\"rare\" at start", NONE, 5),
    ("\"rare d\"", NONE, 3),
    // a part that needn't occur skips nothing, and the others do
    ("ftnot \"d\" ftand \"rare\"", FOURTH, 5),
];

/// Selections that don't need their words: each paragraph is asked for.
const UNSKIPPED: [&str; 2] = ["ftnot \"rare\"", "\"rare\" occurs at most 0 times"];

/// Compares the reply to a command, and for how many paragraphs a judge is asked that skips or doesn't.
fn expect_asked(
    rt: &impl Abort,
    alloc: Global,
    skips: bool,
    command: &str,
    reply: &str,
    wanted: u32,
) -> Result<(), Fail> {
    let asked = Cell::new(0);
    let judge = Counting {
        skips,
        asked: &asked,
    };
    expect_judged_of(rt, alloc, judge, HITS, command, reply)?;
    assert!(rt; asked.get() == wanted, "{command}");
    Ok(())
}

#[test]
fn elements_between_hits_are_skipped(rt: HostRuntime) -> Result<(), Fail> {
    let alloc = rt.alloc();
    for (selection, reply, wanted) in &SKIPPED {
        let command = joined(
            alloc,
            &["query collection()//p[. contains text ", selection, "]"],
        )?;
        expect_asked(&rt, alloc, true, command.as_str(), reply, *wanted)?;
        expect_asked(&rt, alloc, false, command.as_str(), reply, 10)?;
    }
    for selection in &UNSKIPPED {
        let command = joined(
            alloc,
            &["query collection()//p[. contains text ", selection, "]"],
        )?;
        expect_asked(&rt, alloc, true, command.as_str(), OTHERS, 10)?;
    }
    Ok(())
}
