//! Windows round the includes.

ghost use Rattle.std.specs.Prelude.{◌≡◌, ℕ, List, length, nat_lt};
ghost use Rattle.ft_base.specs.declared.filter.Filter.TheVariants as F;
ghost use Rattle.ft_base.specs.declared.hit.Hit.{Hit};
ghost use Rattle.ft_base.specs.declared.span.Span.{Span};
ghost use Rattle.ft_base.specs.declared.unit.TextUnit.{TextUnit};
ghost use Rattle.all_matches.specs.Filters.{passes, choices};

/// A window filter keeps a Match exactly where there is a window round its includes.
pub fn some_window_law()
    ensures { (size : ℕ) (kind : TextUnit) (includes : List Hit) (item : Span)
        → passes (F.Window size kind) includes item ≡ nat_lt 0 (length (choices (F.Window size kind) includes)) }
{}
