//! Stamps of documents that change, and where the stamp of a document stands.

ghost use Rattle.std.specs.Prelude.{◌≡◌, ◌+◌, ◌<◌, ◌^◌, cond, length, slice_set};
ghost use Rattle.stamped_documents.specs.Stamps.{renewed, restamped};
ghost use Rattle.stamped_documents.specs.steps.Places.{documents_before};

use document_store::Collection;
use ft_base::Line;
use ordered_tree::NodeRefs;

/// Gives a new stamp to each document for which the list has an item: of the numbers from `next` on the one at the document's place.
pub(crate) fn restamp(stamps: &mut Vec<u64>, targets: &[NodeRefs], next: u64)
    requires { next + length stamps.old.items < 2 ^ 64 }
    ensures { stamps.new.items ≡ restamped next targets.now stamps.old.items }
{
    for number in 0..targets.len().min(stamps.len()) {
        set_if(
            !targets[number].is_empty(),
            stamps,
            number,
            next + number as u64,
        );
    }
}

/// Gives a new stamp to one document, if it changes.
fn set_if(changes: bool, stamps: &mut Vec<u64>, number: usize, stamp: u64)
    requires { number < length stamps.old.items }
    ensures { stamps.new.items ≡ cond changes (slice_set stamps.old.items number stamp) stamps.old.items }
{
    if changes {
        stamps[number] = stamp;
    }
}

/// Gives a new stamp to each document, from `next` on.
pub(crate) fn renew(stamps: &mut Vec<u64>, next: u64)
    requires { next + length stamps.old.items < 2 ^ 64 }
    ensures { stamps.new.items ≡ renewed next stamps.old.items }
{
    for number in 0..stamps.len() {
        stamps[number] = next + number as u64;
    }
}

/// How many documents stand before the one of the name: all, if there is none.
pub(crate) fn place_of(collection: &Collection, name: &Line) -> usize
    ensures { result ≡ documents_before name.now collection.now.documents }
{
    // No place is too great for its type, as the clause of `len` says of them all.
    let _count = collection.len();
    let mut place = 0;
    for (known, _) in collection.documents().iter() {
        if known.as_str() == name.as_str() {
            return place;
        }
        place += 1;
    }
    place
}
