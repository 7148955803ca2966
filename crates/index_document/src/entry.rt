ghost use Rattle.std.specs.Prelude.{◌≡◌, ◌++◌, IfOk, OnOk};
ghost use Rattle.index_document.specs.Rows.{entries, leaf_entries};
ghost use Rattle.index_document.specs.steps.Groups.{IsSortedFrom};

use crate::TermLeaf;
use ft_base::Memory;
use postings::Row;
use std::alloc::Global;

/// A word of a document: its term, and the row for the place at which it stands.
#[derive(Clone, Copy, PartialEq, Eq)]
pub struct Entry {
    pub term: u32,
    pub row: Row,
}

/// The same entries in the order of their terms, and those of one term in the order in which they were.
pub(crate) fn sorted(entries: Vec<Entry>) -> Result<Vec<Entry>, Memory>
    ensures { IfOk result (λ made. IsSortedFrom entries.items made.items) }
{
    let mut made = entries;
    made.sort_by_key(|entry| entry.term)?;
    Ok(made)
}

/// The words of the leaf with their rows, in order.
pub(crate) fn entries_of_leaf(alloc: Global, leaf: &TermLeaf) -> Result<Vec<Entry>, Memory>
    ensures { IfOk result (λ made. made.items ≡ leaf_entries leaf.now) }
{
    let mut made = Vec::new(alloc);
    add_entries(&mut made, leaf)?;
    Ok(made)
}

/// The words of the leaves with their rows, in order.
pub(crate) fn entries_of_leaves(alloc: Global, leaves: &Vec<TermLeaf>) -> Result<Vec<Entry>, Memory>
    ensures { IfOk result (λ made. made.items ≡ entries leaves.now.items) }
{
    let mut made = Vec::new(alloc);
    for leaf in leaves {
        add_entries(&mut made, leaf)?;
    }
    Ok(made)
}

/// Puts the words of a leaf with their rows after the others. Where a leaf has more than places of 32 bits count, no memory is found.
fn add_entries(made: &mut Vec<Entry>, leaf: &TermLeaf) -> Result<(), Memory>
    ensures { OnOk result (made.new.items ≡ made.old.items ++ leaf_entries leaf.now) }
{
    let number = leaf.leaf();
    let mut offset = 0u32;
    for term in leaf.terms() {
        let row = Row {
            leaf: number,
            offset,
        };
        made.push(Entry { term: *term, row })?;
        match offset.checked_add(1) {
            Some(next) => offset = next,
            None => return Err(Memory),
        }
    }
    Ok(())
}
