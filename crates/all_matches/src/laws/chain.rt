//! Filters round a selection, one link after the other.

ghost use Rattle.std.specs.Prelude.{◌≡◌, List, [], ◌∷◌, Option, true};
ghost use Rattle.ft_base.specs.declared.filter.Filter.{Filter};
ghost use Rattle.ft_base.specs.declared.hit.Hit.{Hit};
ghost use Rattle.all_matches.specs.declared.window.Window.{Window};
ghost use Rattle.all_matches.specs.Chain.{Link, kept_by, link_of};
ghost use Rattle.all_matches.specs.Ways.{Way, by_filter, clean_under};

/// A way through a filter is clean under a chain exactly where what stands inside the filter is clean under the chain with the filter put
/// before it.
pub fn chain_law()
    ensures { (links : List Link) (way : Way) (kind : Filter) (choice : Option Window)
        → clean_under (kept_by links) (by_filter way kind choice) ≡ clean_under (kept_by (link_of way kind choice ∷ links)) way }
{}

/// The chain without links keeps every exclude, so that a way that is clean under it has a Match without excludes.
pub fn empty_chain_law()
    ensures { (way : Way) → clean_under (kept_by []) way ≡ clean_under (λ hit. true) way }
{}
