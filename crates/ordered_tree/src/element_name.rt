//! Names of elements that are looked for, and the marks by which most of the others are told from them.

ghost use Rattle.std.specs.Prelude.{◌≡◌, ◌≢◌, ℕ, List, slice_index_or, IfSome, IsFalse, IsTrue};
ghost use Rattle.ordered_tree.specs.steps.Heads.{mark_of};

/// The longest name whose mark says all of it.
pub(crate) const LONGEST_MARKED: usize = 7;

/// A name of elements that is looked for. It is made once for many nodes.
#[derive(Clone, Copy)]
pub struct ElementName<'a> {
    pub(crate) name: &'a str,
    pub(crate) mark: [u8; 8],
    ghost marked: { mark ≡ mark_of name.now },
}

impl<'a> ElementName<'a> {
    /// The name, made ready.
    pub fn new(name: &'a str) -> ElementName<'a>
        ensures { result.name.now ≡ name.now }
    {
        ElementName {
            name,
            mark: mark_of(name),
        }
    }
}

/// The mark of a name: its first seven bytes, zeros after a shorter one, and one more than its length, where 9 stands for each longer one.
#[tactic(auto, unfolding(crate::specs::steps::Heads::mark_of))]
pub(crate) fn mark_of(name: &str) -> [u8; 8]
    ensures { result ≡ mark_of name.now }
{
    let bytes = name.as_bytes();
    [
        byte_at(bytes, 0),
        byte_at(bytes, 1),
        byte_at(bytes, 2),
        byte_at(bytes, 3),
        byte_at(bytes, 4),
        byte_at(bytes, 5),
        byte_at(bytes, 6),
        bytes.len().min(LONGEST_MARKED + 1) as u8 + 1,
    ]
}

/// The name of which this is the mark, where the mark says all of it.
pub(crate) fn marked_name(mark: &[u8; 8]) -> Option<&str>
    ensures { (name : List ℕ) → mark.now ≡ mark_of name → IfSome result (λ marked. marked.now ≡ name) }
{
    let last = mark[LONGEST_MARKED] as usize;
    if last == 0 || last > LONGEST_MARKED + 1 {
        return None;
    }
    match str::from_utf8(&mark[..last - 1]) {
        Ok(name) => Some(name),
        Err(_) => None,
    }
}

/// The byte at a place, from 0; after the last one, 0.
fn byte_at(bytes: &[u8], at: usize) -> u8
    ensures { result ≡ slice_index_or bytes.now at 0 }
{
    if at < bytes.len() { bytes[at] } else { 0 }
}

/// Whether two marks are the same. They are compared as one number, since walks ask it of each node.
pub(crate) fn same_mark(mark: &[u8; 8], other: &[u8; 8]) -> bool
    ensures same { IsTrue result → mark.now ≡ other.now }
    ensures other { IsFalse result → mark.now ≢ other.now }
{
    u64::from_le_bytes(*mark) == u64::from_le_bytes(*other)
}
