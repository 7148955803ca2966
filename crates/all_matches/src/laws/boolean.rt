//! `ftor`, `ftand`, `ftnot` and `occurs` as truth values and counts.

ghost use Rattle.std.specs.Prelude.{◌≡◌, Bool, true, List, ◌&&◌, ◌||◌, not, filter, length};
ghost use Rattle.std.specs.List.{list_any, list_all};
ghost use Rattle.ft_base.specs.declared.hit.Hit.{Hit};
ghost use Rattle.ft_base.specs.declared.hit.Match.{Match};
ghost use Rattle.ft_base.specs.declared.range.Range.{Range};
ghost use Rattle.all_matches.specs.Boolean.{ft_or, ft_and, ft_not, is_clean, satisfied, survives};
ghost use Rattle.all_matches.specs.Times.{ft_times, number_in_range};

/// Or is satisfied where one side is.
pub fn or_law()
    ensures { (left right : List Match) → satisfied (ft_or left right) ≡ (satisfied left || satisfied right) }
{}

/// And is satisfied where both sides are.
pub fn and_law()
    ensures { (left right : List Match) → satisfied (ft_and left right) ≡ (satisfied left && satisfied right) }
{}

/// Not is satisfied where its operand isn't.
pub fn not_law()
    ensures { (matches : List Match) → satisfied (ft_not matches) ≡ not (satisfied matches) }
{}

/// `occurs` is satisfied where the number of the Matches without excludes is in its range.
pub fn occurs_law()
    ensures { (range : Range) (matches : List Match) → satisfied (ft_times range matches) ≡ number_in_range range (length (filter is_clean matches)) }
{}

/// A negated selection has one Match for each choice of an include from each Match of its operand. Where the operand has no
/// excludes, some choice has no exclude that a test keeps exactly where no Match of the operand has all its includes kept.
pub fn choice_law()
    ensures { (kept : Hit → Bool) (matches : List Match) → list_all is_clean matches ≡ true
        → list_any (survives kept) (ft_not matches) ≡ not (list_any (λ m. list_all kept m.includes) matches) }
{}
