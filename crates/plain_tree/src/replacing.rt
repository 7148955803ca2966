//! Children that make way for others.

ghost use Rattle.std.specs.Prelude.{◌≡◌, ◌≤◌, ◌++◌, drop, false, length, map, take, IfOk, IsTrue, OnErr, OnOk};
ghost use Rattle.plain_tree.specs.Document.{Nodes, are_joined, begins_with_text, nodes};
ghost use Rattle.plain_tree.specs.Edits.{append, joined};
ghost use Rattle.plain_tree.specs.View.{node};

use crate::copying::copy_kids;
use crate::joining::join_all;
use crate::tree::{Kids, Tree};
use ft_base::Memory;
use std::alloc::Global;

/// Puts content in the place of the children from the number `from` on, before the number `to`, both from 0, and joins texts. Where
/// memory runs out, the children stay as they were.
pub(crate) fn replace_range(
    alloc: Global,
    row: &mut Vec<Tree>,
    from: usize,
    to: usize,
    content: Kids,
) -> Result<(), Memory>
    requires order { from ≤ to }
    requires within { to ≤ length row.old.items }
    requires joined { IsTrue (are_joined (nodes (map node row.old.items))) }
    ensures ok { OnOk result (nodes (map node row.new.items)
        ≡ joined (append (nodes (map node (take from row.old.items))) (append (nodes (map node content)) (nodes (map node (drop to row.old.items)))))) }
    ensures err { OnErr result (row.new.items ≡ row.old.items) }
{
    let first = before_text(row.as_slice(), from);
    let last = after_text(row.as_slice(), to);
    let between = joined_nodes(alloc, &row[first..from], content, &row[to..last])?;
    put_between(row, first, last, between)
}

/// The number, or that of a text directly before it.
fn before_text(row: &[Tree], number: usize) -> usize
    requires within { number ≤ length row.now }
    requires joined { IsTrue (are_joined (nodes (map node row.now))) }
    ensures order { result ≤ number }
    ensures apart { (ns : Nodes) → IsTrue (are_joined ns) → IsTrue (are_joined (append (nodes (map node (take result row.now))) ns)) }
{
    if number == 0 {
        return 0;
    }
    match &row[number - 1] {
        Tree::Text { .. } => number - 1,
        Tree::Elem { .. } => number,
    }
}

/// The number, or that after a text that it is the number of.
fn after_text(row: &[Tree], number: usize) -> usize
    requires within { number ≤ length row.now }
    requires joined { IsTrue (are_joined (nodes (map node row.now))) }
    ensures order { number ≤ result }
    ensures within { result ≤ length row.now }
    ensures apart { begins_with_text (nodes (map node (drop result row.now))) ≡ false }
{
    if number == row.len() {
        return number;
    }
    match &row[number] {
        Tree::Text { .. } => number + 1,
        Tree::Elem { .. } => number,
    }
}

/// A copy of what stands before, the content, and a copy of what stands after it, joined.
fn joined_nodes(
    alloc: Global,
    prefix: &[Tree],
    content: Kids,
    suffix: &[Tree],
) -> Result<Vec<Tree>, Memory>
    ensures { IfOk result (λ list. nodes (map node list.items)
        ≡ joined (append (nodes (map node prefix.now)) (append (nodes (map node content)) (nodes (map node suffix.now))))) }
{
    let mut list = Vec::new(alloc);
    join_all(alloc, &mut list, copy_kids(alloc, prefix)?)?;
    join_all(alloc, &mut list, content)?;
    join_all(alloc, &mut list, copy_kids(alloc, suffix)?)?;
    Ok(list)
}

/// Puts nodes in the place of the children from the number `first` on, before the number `last`. Where memory runs out, the children
/// stay as they were.
fn put_between(
    row: &mut Vec<Tree>,
    first: usize,
    last: usize,
    mut between: Vec<Tree>,
) -> Result<(), Memory>
    requires order { first ≤ last }
    requires within { last ≤ length row.old.items }
    ensures ok { OnOk result (row.new.items ≡ take first row.old.items ++ (between.items ++ drop last row.old.items)) }
    ensures err { OnErr result (row.new.items ≡ row.old.items) }
{
    row.reserve(between.len())?;
    // Those after come first, then those before, so that those that make way are the last.
    row.rotate_left(last);
    row.truncate(row.len() - (last - first));
    let rest_count = row.len() - first;
    let Ok(()) = row.append(&mut between) else {
        unreachable!()
    };
    row.rotate_left(rest_count);
    Ok(())
}
