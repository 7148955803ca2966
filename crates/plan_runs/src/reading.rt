//! Places of terms read without cursors: a step is counted for each term. What is read of rows besides cursors is read here alone.

ghost use Rattle.std.specs.Prelude.{◌≡◌, ◌+◌, length, map};
ghost use Rattle.index_versions.specs.FirstPlaces.{soonest};
ghost use Rattle.index_versions.specs.Terms.{first_in};

use ft_base::{DocId, Span, Steps};
use index_versions::TermSources;
use std::sync::ledger::Ledger;

/// The first place of one of the terms in the part of the document, and `None` where none has one there.
pub(crate) fn first_in<L: Ledger>(
    terms: &TermSources<'_>,
    doc: DocId,
    part: Span,
    moves: &mut Steps<L>,
) -> Option<u32>
    ensures says { result ≡ soonest (map (first_in doc.0 part) terms.now) }
    ensures counted { moves.new ≡ moves.old + length terms.now }
{
    count_steps(terms.len(), moves);
    terms.first_in(doc, part)
}

/// What `first_in` says, sought on from the part that was sought last.
pub(crate) fn seek_in<L: Ledger>(
    terms: &mut TermSources<'_>,
    doc: DocId,
    part: Span,
    moves: &mut Steps<L>,
) -> Option<u32>
    ensures says { result ≡ soonest (map (first_in doc.0 part) terms.old) }
    ensures same { terms.new ≡ terms.old }
    ensures counted { moves.new ≡ moves.old + length terms.old }
{
    count_steps(terms.len(), moves);
    terms.seek_in(doc, part)
}

/// Counts so many steps.
fn count_steps<L: Ledger>(count: usize, moves: &mut Steps<L>)
    ensures { moves.new ≡ moves.old + count }
{
    for _step in 0..count {
        moves.tick();
    }
}
