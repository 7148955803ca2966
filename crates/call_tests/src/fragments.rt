// Fragments as texts: what is printed of those that are read, and where the others go wrong.
use doc_profile::{DocFault, print_tree, read_fragment};
use std::alloc::Global;
use std::process::Abort;
use std::test::Fail;

/// Reads the fragment, and compares what is printed of its nodes, with a bar after each, or the place of its fault.
fn expect_fragment(
    rt: &impl Abort,
    alloc: Global,
    fragment: &[u8],
    printed: &str,
    fault: Option<usize>,
) -> Result<(), Fail> {
    match read_fragment(alloc, fragment) {
        Ok(kids) => {
            let mut all = String::new(alloc);
            for kid in kids.as_slice() {
                all.push_str(print_tree(alloc, kid)?.as_str())?;
                all.push('|')?;
            }
            assert!(rt; fault.is_none() && all.as_str() == printed);
        }
        Err(DocFault::Syntax { at }) => assert!(rt; fault == Some(at)),
        Err(_) => return Err(Fail::from("another fault")),
    }
    Ok(())
}

const FRAGMENTS: [(&[u8], &str, Option<usize>); 5] = [
    (b"", "", None),
    (b"x<a/>y&amp;<!-- -->z", "x|<a/>|y&amp;z|", None),
    (b"</", "", Some(1)),
    (b"<a>", "", Some(3)),
    (b"\xEF\xBB\xBF<a/><b/>", "\u{FEFF}|<a/>|<b/>|", None),
];

#[test]
fn a_fragment_is_content(rt: HostRuntime) -> Result<(), Fail> {
    for (fragment, printed, fault) in FRAGMENTS {
        expect_fragment(&rt, rt.alloc(), fragment, printed, fault)?;
    }
    Ok(())
}
