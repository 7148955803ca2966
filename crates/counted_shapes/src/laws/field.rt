//! Of one field, what its Matches are made of.

ghost use Rattle.std.specs.Prelude.{◌≡◌, Bool, List, ◌&&◌, ◌||◌, not, filter, length};
ghost use Rattle.std.specs.List.{list_any};
ghost use Rattle.ft_base.specs.declared.hit.Hit.{Hit};
ghost use Rattle.ft_base.specs.declared.hit.Match.{Match};
ghost use Rattle.ft_base.specs.declared.range.Range.{Range};
ghost use Rattle.all_matches.specs.Boolean.{ft_and, ft_not, ft_or};
ghost use Rattle.all_matches.specs.Times.{ft_times, number_in_range};
ghost use Rattle.counted_shapes.specs.Fields.{made_in};

/// Whether some Match is made in a field is a truth value for Or, And and Not, and a count for `occurs`, whatever the Matches exclude.
pub fn field_law()
    ensures ft_or { (field : Hit → Bool) (left right : List Match)
        → list_any (made_in field) (ft_or left right) ≡ (list_any (made_in field) left || list_any (made_in field) right) }
    ensures ft_and { (field : Hit → Bool) (left right : List Match)
        → list_any (made_in field) (ft_and left right) ≡ (list_any (made_in field) left && list_any (made_in field) right) }
    ensures ft_not { (field : Hit → Bool) (matches : List Match)
        → list_any (made_in field) (ft_not matches) ≡ not (list_any (made_in field) matches) }
    ensures occurs { (field : Hit → Bool) (range : Range) (matches : List Match)
        → list_any (made_in field) (ft_times range matches) ≡ number_in_range range (length (filter (made_in field) matches)) }
{}
