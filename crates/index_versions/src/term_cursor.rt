ghost use Rattle.std.specs.Prelude.{◌≡◌, ◌+◌, [], true};
ghost use Rattle.ft_base.specs.Hits.{hit_place};
ghost use Rattle.index_cursors.specs.SpanHits.{hits_in};

use ft_base::{FirstWords, Hit, Hits, Span, Steps};
use index_cursors::{BreakView, Cursor};
use index_document::TermPlaces;
use std::marker::Model;
use std::sync::ledger::Ledger;

/// The hits of a term in the span at which the cursor was aimed last, and a place among them. Before that it has none. A
/// `TermSource` aims it.
#[derive(Drop)]
pub struct TermCursor<'v> {
    cursor: Option<Cursor<'v>>,
}

impl<'v> Model for TermCursor<'v> {
    ghost use Rattle.ft_base.specs.Hits.{HitPlace};
    ghost use Rattle.index_versions.specs.steps.Found.{place_of};

    ghost Value = { HitPlace };

    ghost view = { λ inside. place_of inside.cursor };
}

impl<'v> TermCursor<'v> {
    /// A cursor that wasn't aimed yet.
    pub fn new() -> TermCursor<'v>
        ensures { result ≡ hit_place [] 0 }
    {
        TermCursor { cursor: None }
    }

    /// Aims it at those of the places that are in the span, at the first of them, and counts one step. It searches from
    /// where it stands.
    pub(crate) fn aim<L: Ledger>(
        &mut self,
        places: TermPlaces<'v>,
        breaks: BreakView<'v>,
        span: Span,
        steps: &mut Steps<L>,
    )
        ensures aimed { self.new ≡ hit_place (hits_in breaks.entry.breaks.now span places.entry) 0 }
        ensures counted { steps.new ≡ steps.old + 1 }
    {
        if let Some(cursor) = &mut self.cursor {
            cursor.aim(places, breaks, span, steps);
            return;
        }
        self.cursor = Some(Cursor::new(places, breaks, span, steps));
    }

    /// Aims it at no place, and counts one step.
    pub(crate) fn empty<L: Ledger>(&mut self, steps: &mut Steps<L>)
        ensures aimed { self.new ≡ hit_place [] 0 }
        ensures counted { steps.new ≡ steps.old + 1 }
    {
        steps.tick();
        self.cursor = None;
    }
}

impl<'v> Hits for TermCursor<'v> {
    ghost stand = { λ cursor. cursor };

    ghost plain = { λ cursor. true };

    fn here(&self) -> Option<Hit> {
        match &self.cursor {
            Some(cursor) => cursor.here(),
            None => None,
        }
    }

    fn next<L: Ledger>(&mut self, steps: &mut Steps<L>) {
        match &mut self.cursor {
            Some(cursor) => cursor.next(steps),
            None => {}
        }
    }

    fn seek<L: Ledger>(&mut self, from: u32, steps: &mut Steps<L>) {
        match &mut self.cursor {
            Some(cursor) => cursor.seek(from, steps),
            None => {}
        }
    }

    fn rewind(&mut self) {
        match &mut self.cursor {
            Some(cursor) => cursor.rewind(),
            None => {}
        }
    }
}

impl<'v> FirstWords for TermCursor<'v> {
    fn first_word(&self) -> Option<u32> {
        match &self.cursor {
            Some(cursor) => cursor.first_word(),
            None => None,
        }
    }
}
