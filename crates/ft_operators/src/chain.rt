//! The filters round a selection, and whether they keep a hit of it.

ghost use Rattle.std.specs.Prelude.{◌≡◌, ◌≤◌, ◌+◌, ◌++◌, length, vec_capacity};
ghost use Rattle.all_matches.specs.Filters.{keeps};

use crate::bounds::Bounds;
use crate::kept_bounds::kept_bounds;
use all_matches::Window;
use ft_base::{Filter, Hit, Memory};
use std::alloc::Global;
use window_distance::{Includes, keeps};

/// The filters round a selection, put from the outside to the inside, each with the includes that it sees and the window
/// that is chosen.
///
/// It takes its memory when it is opened. Putting a filter and taking it away take none.
#[derive(Drop)]
pub struct Chain {
    links: Vec<ChainLink>,
    /// The includes of all filters, one after the other.
    hits: Vec<Hit>,
}

/// A filter of a chain. Its includes end where those of the next one begin.
#[derive(Clone, Copy)]
pub(crate) struct ChainLink {
    pub(crate) kind: Filter,
    pub(crate) window: Option<Window>,
    /// How many includes stand before its own.
    pub(crate) start: usize,
}

impl Chain {
    ghost use Rattle.std.specs.Prelude.{◌≡◌, ◌≤◌, ◌<◌, ◌+◌, ◌∷◌, [], drop, length, true, IfOk};
    ghost use Rattle.ft_base.specs.Lists.{is_not_empty};
    ghost use Rattle.all_matches.specs.Chain.{kept_by};
    ghost use Rattle.ft_operators.specs.Bounds.{everywhere};
    ghost use Rattle.ft_operators.specs.KeptBounds.{chain_bounds};
    ghost use Rattle.ft_operators.specs.Chains.{first_includes, links_of, spare_filters, spare_hits, IsOpen};

    /// A chain without filters, with room for so many filters and includes.
    pub fn open(alloc: Global, filters: usize, hits: usize) -> Result<Chain, Memory>
        ensures { IfOk result (λ chain. IsOpen filters hits chain) }
    {
        let links = Vec::with_capacity(alloc, filters)?;
        let hits = Vec::with_capacity(alloc, hits)?;
        Ok(Chain { links, hits })
    }

    /// Puts a filter inside the others, with its includes and its window.
    pub fn push(&mut self, filter: &Filter, includes: &Includes<'_>, window: Option<Window>)
        requires filters { 0 < spare_filters self.old }
        requires hits { length includes.now ≤ spare_hits self.old }
        ensures links { links_of self.new ≡ record { kind = filter.now; includes = includes.now; choice = window } ∷ links_of self.old }
        ensures filters { spare_filters self.old ≤ spare_filters self.new + 1 }
        ensures hits { spare_hits self.old ≤ spare_hits self.new + length includes.now }
    {
        let link = ChainLink {
            kind: *filter,
            window,
            start: self.hits.len(),
        };
        self.links.push_reserved(link);
        put_all(includes.hits(), &mut self.hits);
    }

    /// Takes the innermost filter away, and gives back its room.
    pub fn pop(&mut self)
        requires { is_not_empty (links_of self.old) ≡ true }
        ensures links { links_of self.new ≡ drop 1 (links_of self.old) }
        ensures filters { spare_filters self.old + 1 ≤ spare_filters self.new }
        ensures hits { spare_hits self.old + length (first_includes (links_of self.old)) ≤ spare_hits self.new }
    {
        match self.links.pop() {
            Some(link) => self.hits.truncate(link.start),
            None => {}
        }
    }

    /// Whether each filter keeps the hit.
    pub(crate) fn keeps(&self, hit: &Hit) -> bool
        ensures { result ≡ kept_by (links_of self.now) hit.now }
    {
        let mut number = self.links.len();
        let mut hits = self.hits.as_slice();
        while number > 0 {
            number -= 1;
            let link = &self.links[number];
            let (outer, own) = hits.split_at(link.start.min(hits.len()));
            if !keeps_within(link, own, hit) {
                return false;
            }
            hits = outer;
        }
        true
    }

    /// The bounds in which each hit lies that each filter keeps.
    pub(crate) fn bounds(&self) -> Bounds
        ensures { result ≡ chain_bounds (links_of self.now) everywhere }
    {
        let mut bounds = Bounds::everywhere();
        let mut number = self.links.len();
        let mut hits = self.hits.as_slice();
        while number > 0 {
            number -= 1;
            let link = &self.links[number];
            let (outer, own) = hits.split_at(link.start.min(hits.len()));
            bounds = kept_bounds(&link.kind, own, link.window, bounds);
            hits = outer;
        }
        bounds
    }
}

/// Puts hits after the others, for which there is room.
fn put_all(hits: &[Hit], held: &mut Vec<Hit>)
    requires { length held.old.items + length hits.now ≤ vec_capacity held.old }
    ensures hits { held.new.items ≡ held.old.items ++ hits.now }
    ensures room { vec_capacity held.old ≤ vec_capacity held.new }
{
    let _ = held.extend_from_slice(hits);
}

/// Whether a filter with these includes keeps the hit.
fn keeps_within(link: &ChainLink, includes: &[Hit], hit: &Hit) -> bool
    ensures { result ≡ keeps link.now.kind includes.now link.now.window hit.now }
{
    keeps(&link.kind, &Includes::of(includes), link.window, hit)
}
