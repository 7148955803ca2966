// Replies that no command is given yet, and their texts.
use ft_base::Line;
use reply_lines::{Counts, FullOf, LimitOf, Refusal, Reply, print_reply};
use std::alloc::Global;
use std::process::Abort;
use std::test::Fail;

/// Compares the text of a reply.
fn expect_text(rt: &impl Abort, alloc: Global, reply: Reply, text: &str) -> Result<(), Fail> {
    let printed = print_reply(alloc, &reply);
    std::mem::drop(reply);
    let printed = printed?;
    assert!(rt; printed.as_str() == text, "{text}");
    Ok(())
}

#[test]
fn replies_that_are_not_given_yet_have_their_texts(rt: HostRuntime) -> Result<(), Fail> {
    let alloc = rt.alloc();
    expect_text(
        &rt,
        alloc,
        Reply::Explained(Line::read(alloc, "a-b")?),
        "= a-b\n",
    )?;
    let counts = Counts {
        documents: 1,
        tokens: 20,
        terms: 3,
        marks: 0,
        plans: 64,
        hits: 5,
    };
    expect_text(
        &rt,
        alloc,
        Reply::Counts(counts),
        "= documents 1 tokens 20 terms 3 marks 0 plans 64 hits 5\n",
    )
}

#[test]
fn refusals_that_are_not_given_yet_have_their_texts(rt: HostRuntime) -> Result<(), Fail> {
    let alloc = rt.alloc();
    let what = FullOf::Marks;
    expect_text(
        &rt,
        alloc,
        Reply::Refused(Refusal::Full { what }),
        "! 5 full at 64 marks\n",
    )?;
    expect_text(
        &rt,
        alloc,
        Reply::Refused(Refusal::NoTarget),
        "! 10 no target\n",
    )?;
    expect_text(
        &rt,
        alloc,
        Reply::Refused(Refusal::ManyTargets { count: 2 }),
        "! 11 many targets: 2\n",
    )?;
    expect_text(
        &rt,
        alloc,
        Reply::Refused(Refusal::RootTarget),
        "! 12 root target\n",
    )
}

const LIMITS: [(LimitOf, &str); 3] = [
    (LimitOf::Depth, "! 13 limit: depth\n"),
    (LimitOf::Nodes, "! 13 limit: nodes\n"),
    (LimitOf::Tokens, "! 13 limit: tokens\n"),
];

#[test]
fn limits_of_edits_have_their_texts(rt: HostRuntime) -> Result<(), Fail> {
    for row in &LIMITS {
        let (what, text) = *row;
        expect_text(
            &rt,
            rt.alloc(),
            Reply::Refused(Refusal::Limit { what }),
            text,
        )?;
    }
    Ok(())
}
