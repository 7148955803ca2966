// Documents as texts: what is printed of those that are read, and where the others go wrong.
use crate::rows::{NEVER, is_answered};
use call_tests::texts::repeated;
use ft_session::Status;
use std::alloc::Global;
use std::process::Abort;
use std::test::Fail;

/// A block that is loaded, and the replies to that and to printing what was loaded.
type Block = (&'static [u8], &'static str);

/// Loads the block as a document and prints it.
fn expect_print(rt: &impl Abort, alloc: Global, row: &Block, status: Status) -> Result<(), Fail> {
    let (block, replies) = row;
    let mut session = Vec::from_slice(alloc, b"load x\n")?;
    session.extend_from_slice(block)?;
    session.extend_from_slice(b"\n.\nprint collection()/*\n")?;
    let answered = is_answered(alloc, session.as_slice(), NEVER, NEVER, &[*replies], status)?;
    assert!(rt; answered, "{replies}");
    Ok(())
}

const PRINTED: [Block; 17] = [
    (
        b"<a t='1'>x<!-- c -->y &lt; <b></b></a>",
        "ok\n= 1\n<a t=\"1\">xy &lt; <b/></a>\n",
    ),
    (
        b"<?xml version='1.0'?>\n<!-- -- --><a/> <?x?>\r\n",
        "ok\n= 1\n<a/>\n",
    ),
    (b"<!----><a/>", "ok\n= 1\n<a/>\n"),
    (b"<??><a/>", "ok\n= 1\n<a/>\n"),
    (b"<a>\r<!-- -->\n</a>", "ok\n= 1\n<a>&#10;&#10;</a>\n"),
    (
        b"<a>\r&#10;\r\n\r</a>",
        "ok\n= 1\n<a>&#10;&#10;&#10;&#10;</a>\n",
    ),
    (
        b"<a x='\r&#10;\r\n\t\"'/>",
        "ok\n= 1\n<a x=\" &#10;  &quot;\"/>\n",
    ),
    (
        b"<a>&#13;]]>&gt;&#x1F600;</a>",
        "ok\n= 1\n<a>&#13;]]&gt;&gt;\u{1F600}</a>\n",
    ),
    (
        b"\xEF\xBB\xBF<a >&amp;&quot;&apos;</a >",
        "ok\n= 1\n<a>&amp;\"'</a>\n",
    ),
    (
        b"<\xEF\xBB\xBFa></\xEF\xBB\xBFa>",
        "ok\n= 1\n<\u{FEFF}a/>\n",
    ),
    (
        b"<a>&#xD8000;&#000000000000065;</a>",
        "ok\n= 1\n<a>\u{D8000}A</a>\n",
    ),
    // what was printed is read back as the same
    (
        b"<a v='&amp;&lt;&quot;&#9;&#13;&#10;&gt;\t&apos;'/>",
        "ok\n= 1\n<a v=\"&amp;&lt;&quot;&#9;&#13;&#10;> '\"/>\n",
    ),
    (
        b"<a v=\"&amp;&lt;&quot;&#9;&#13;&#10;> '\"/>",
        "ok\n= 1\n<a v=\"&amp;&lt;&quot;&#9;&#13;&#10;> '\"/>\n",
    ),
    (
        b"<a>&amp;&lt;>&#13;\n\t\"'</a>",
        "ok\n= 1\n<a>&amp;&lt;&gt;&#13;&#10;\t\"'</a>\n",
    ),
    (
        b"<a>&amp;&lt;&gt;&#13;&#10;\t\"'</a>",
        "ok\n= 1\n<a>&amp;&lt;&gt;&#13;&#10;\t\"'</a>\n",
    ),
    (
        b"<\xC3\xA9 v=\"\xC3\x9F\xF0\x9F\x98\x80\" w=\"\"><b><c></c></b>\xC3\xBC<d/></\xC3\xA9>",
        "ok\n= 1\n<é v=\"ß\u{1F600}\" w=\"\"><b><c/></b>ü<d/></é>\n",
    ),
    (
        b"<\xC3\xA9 v=\"\xC3\x9F\xF0\x9F\x98\x80\" w=\"\"><b><c/></b>\xC3\xBC<d/></\xC3\xA9>",
        "ok\n= 1\n<é v=\"ß\u{1F600}\" w=\"\"><b><c/></b>ü<d/></é>\n",
    ),
];

#[test]
fn documents_are_printed_on_one_line(rt: HostRuntime) -> Result<(), Fail> {
    for row in PRINTED {
        expect_print(&rt, rt.alloc(), &row, Status::Done)?;
    }
    Ok(())
}

const FAULTY: [Block; 38] = [
    (b"<a><b>x</b>", "! 6 document: syntax at 11\n= 0\n"),
    (b"<a></b>", "! 6 document: syntax at 5\n= 0\n"),
    (b"<a x=\"1\" x=\"2\"/>", "! 6 document: syntax at 10\n= 0\n"),
    (b"<a><![CDATA[x]]></a>", "! 6 document: syntax at 5\n= 0\n"),
    (b"<!DOCTYPE a><a/>", "! 6 document: syntax at 2\n= 0\n"),
    (
        b"<?xml version='1.0'?>\n<!DO--><a/>",
        "! 6 document: syntax at 24\n= 0\n",
    ),
    (b"", "! 6 document: syntax at 0\n= 0\n"),
    (
        b"\xEF\xBB\xBF\xEF\xBB\xBF<a/>",
        "! 6 document: syntax at 3\n= 0\n",
    ),
    (b"<a>&#xD800;</a>", "! 6 document: syntax at 10\n= 0\n"),
    (b"<a>&#0;</a>", "! 6 document: syntax at 6\n= 0\n"),
    (b"<a>&#65535;</a>", "! 6 document: syntax at 10\n= 0\n"),
    (b"<a>&#xFFFE;</a>", "! 6 document: syntax at 10\n= 0\n"),
    (b"<a>&#1114112;</a>", "! 6 document: syntax at 11\n= 0\n"),
    (b"<a>&#x110000;</a>", "! 6 document: syntax at 11\n= 0\n"),
    (b"<a>&#99999999;</a>", "! 6 document: syntax at 11\n= 0\n"),
    (b"<a><!-x", "! 6 document: syntax at 6\n= 0\n"),
    (b"<a>&ax;</a>", "! 6 document: syntax at 5\n= 0\n"),
    (b"<a>&gtx", "! 6 document: syntax at 6\n= 0\n"),
    (b"<a>&foo;</a>", "! 6 document: syntax at 4\n= 0\n"),
    (b"<a>&;</a>", "! 6 document: syntax at 4\n= 0\n"),
    (b"<1", "! 6 document: syntax at 1\n= 0\n"),
    (b"<a/><b/>", "! 6 document: syntax at 5\n= 0\n"),
    (b"<a/>x", "! 6 document: syntax at 4\n= 0\n"),
    (b"<a/ >", "! 6 document: syntax at 3\n= 0\n"),
    (b"<a x=\"1\"y=\"2\"/>", "! 6 document: syntax at 8\n= 0\n"),
    (b"<ab></a>", "! 6 document: syntax at 7\n= 0\n"),
    (b"<a></ab>", "! 6 document: syntax at 6\n= 0\n"),
    (b"<a>&#X41;</a>", "! 6 document: syntax at 5\n= 0\n"),
    (b"<a x=\"1\" x", "! 6 document: syntax at 10\n= 0\n"),
    (
        b"<a x=\"1\" x =\"2\"/>",
        "! 6 document: syntax at 10\n= 0\n",
    ),
    (b"<!-->", "! 6 document: syntax at 5\n= 0\n"),
    (b"<!--->", "! 6 document: syntax at 6\n= 0\n"),
    (b"<?>", "! 6 document: syntax at 3\n= 0\n"),
    (b"<a\x01/>", "! 6 document: syntax at 2\n= 0\n"),
    (b"<a>\x01</a>", "! 6 document: syntax at 3\n= 0\n"),
    (b"<a x='<'/>", "! 6 document: syntax at 6\n= 0\n"),
    (b"<a x=1/>", "! 6 document: syntax at 5\n= 0\n"),
    (b"<a>\xFF</a>", "! 6 document: not utf-8 at 3\n= 0\n"),
];

#[test]
fn faults_are_where_the_text_goes_wrong(rt: HostRuntime) -> Result<(), Fail> {
    for row in FAULTY {
        expect_print(&rt, rt.alloc(), &row, Status::SomeRefused)?;
    }
    Ok(())
}

/// A text that stands after `<a>` so many times, what stands after it, and the reply.
type Repeated = (&'static str, usize, &'static str, &'static str);

fn expect_repeated(rt: &impl Abort, alloc: Global, row: &Repeated) -> Result<(), Fail> {
    let (piece, count, suffix, reply) = row;
    let session = repeated(alloc, "load x\n<a>", *count, piece, suffix)?;
    let answered = is_answered(
        alloc,
        session.as_bytes(),
        NEVER,
        NEVER,
        &[*reply],
        Status::SomeRefused,
    )?;
    assert!(rt; answered, "{piece}");
    Ok(())
}

// The 1,000,001st node is an element after a text, or what stands where it would begin is no node.
const FULL: [Repeated; 2] = [
    (
        "x<b/>",
        500_000,
        "</a>\n.\n",
        "! 6 document: nodes at 2499999\n",
    ),
    (
        "<b/>",
        999_999,
        "&foo;\n.\n",
        "! 6 document: nodes at 3999999\n",
    ),
];

#[test]
fn a_document_has_a_million_nodes_at_most(rt: HostRuntime) -> Result<(), Fail> {
    for row in FULL {
        expect_repeated(&rt, rt.alloc(), &row)?;
    }
    Ok(())
}
