//! A selection is satisfied exactly where one of its ways is clean.

ghost use Rattle.std.specs.Prelude.{◌≡◌, Bool, true};
ghost use Rattle.std.specs.List.{list_any};
ghost use Rattle.ft_base.specs.declared.hit.Hit.{Hit};
ghost use Rattle.ft_base.specs.declared.span.Span.{Span};
ghost use Rattle.all_matches.specs.Boolean.{survives};
ghost use Rattle.all_matches.specs.Ways.{Operator, clean_under, is_plain, matches_of, ways_of};

/// Some Match of a selection has no exclude that a test keeps exactly where one of the ways of choosing its includes, its sides and
/// its windows is clean under that test. Negated selections stand neither inside one another nor inside mild not.
pub fn ways_law()
    ensures { (item : Span) (operator : Operator) (kept : Hit → Bool) → is_plain operator ≡ true
        → list_any (survives kept) (matches_of item operator) ≡ list_any (clean_under kept) (ways_of item operator) }
{}
