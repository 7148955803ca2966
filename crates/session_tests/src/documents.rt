// Blocks that are no documents, with the fault of each and its place.
use crate::rows::{NEVER, is_answered};
use call_tests::texts::joined;
use ft_session::Status;
use std::alloc::Global;
use std::process::Abort;
use std::test::Fail;

/// The bytes of a block, and its fault.
type BlockRow = (&'static [u8], &'static str);

const BLOCKS: [BlockRow; 7] = [
    (b"<a><b>x</b>\n", "syntax at 11"),
    (b"<a></b>\n", "syntax at 5"),
    (b"<a x=\"1\" x=\"2\"/>\n", "syntax at 10"),
    (b"<a><![CDATA[x]]></a>\n", "syntax at 5"),
    (b"<!DOCTYPE a><a/>\n", "syntax at 2"),
    (b"<a>\xFF</a>\n", "not utf-8 at 3"),
    (b"", "syntax at 0"),
];

/// Compares the refusal of a block.
fn expect_refusal(rt: &impl Abort, alloc: Global, block: &[u8], fault: &str) -> Result<(), Fail> {
    let mut session = Vec::from_slice(alloc, b"load x\n")?;
    session.extend_from_slice(block)?;
    session.extend_from_slice(b".\n")?;
    let answered = is_answered(
        alloc,
        session.as_slice(),
        NEVER,
        NEVER,
        &["! 6 document: ", fault, "\n"],
        Status::SomeRefused,
    )?;
    assert!(rt; answered, "{fault}");
    Ok(())
}

#[test]
fn blocks_that_are_no_documents_are_refused_with_the_place(rt: HostRuntime) -> Result<(), Fail> {
    for row in &BLOCKS {
        let (block, fault) = *row;
        expect_refusal(&rt, rt.alloc(), block, fault)?;
    }
    Ok(())
}

/// Thirty-nine attributes with different names.
const ATTRIBUTES: &str =
    "a='' b='' c='' d='' e='' f='' g='' h='' i='' j='' k='' l='' m='' n='' o='' p='' q='' r='' s='' t='' u='' v='' w='' x='' \
     y='' z='' A='' B='' C='' D='' E='' F='' G='' H='' I='' J='' K='' L='' M=''";

/// What stands after these attributes in the tag of an element that is in one with the same; the reply, and how the session ends.
type AttributeRow = (&'static str, &'static str, Status);

const REPEATED: &str = "! 6 document: syntax at 397\n";

// The name of the last attribute is new, is among the first of the tag, or among those after them.
const MANY_ATTRIBUTES: [AttributeRow; 5] = [
    (" N=''", "ok\n", Status::Done),
    (" a=''", REPEATED, Status::SomeRefused),
    (" p=''", REPEATED, Status::SomeRefused),
    (" q=''", REPEATED, Status::SomeRefused),
    (" M=''", REPEATED, Status::SomeRefused),
];

fn expect_attributes(rt: &impl Abort, alloc: Global, row: AttributeRow) -> Result<(), Fail> {
    let (last, output, status) = row;
    let session = joined(
        alloc,
        &[
            "load x\n<a ",
            ATTRIBUTES,
            "><b ",
            ATTRIBUTES,
            last,
            "/></a>\n.\n",
        ],
    )?;
    let answered = is_answered(alloc, session.as_bytes(), NEVER, NEVER, &[output], status)?;
    assert!(rt; answered, "{last}");
    Ok(())
}

#[test]
fn an_element_of_many_attributes_has_each_name_once(rt: HostRuntime) -> Result<(), Fail> {
    for row in &MANY_ATTRIBUTES {
        expect_attributes(&rt, rt.alloc(), *row)?;
    }
    Ok(())
}
