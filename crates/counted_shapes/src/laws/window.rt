//! Windows and scopes on one Match, by the fields that they are.

ghost use Rattle.std.specs.Prelude.{◌≡◌, ◌↔◌, ℕ, true};
ghost use Rattle.ft_base.specs.Lists.{is_not_empty};
ghost use Rattle.ft_base.specs.declared.filter.Filter.TheVariants as F;
ghost use Rattle.ft_base.specs.declared.hit.Match.{Match};
ghost use Rattle.ft_base.specs.declared.span.Span.{Span};
ghost use Rattle.ft_base.specs.declared.unit.TextUnit.{TextUnit};
ghost use Rattle.ft_base.specs.declared.unit.TextUnit.TheVariants as U;
ghost use Rattle.all_matches.specs.Boolean.{satisfied};
ghost use Rattle.all_matches.specs.Filters.{filtered_match};
ghost use Rattle.counted_shapes.specs.Fields.{in_unit, in_window, made_in};

/// A window filter leaves something without excludes of a Match with an include exactly where the Match is made in some window of the size.
pub fn window_law()
    ensures { (size : ℕ) (kind : TextUnit) (item : Span) (m : Match) → is_not_empty m.includes ≡ true
        → (satisfied (filtered_match (F.Window size kind) item m) ≡ true) ↔ ((last : ℕ) × (made_in (in_window size kind last) m ≡ true)) }
{}

/// `same sentence` and `same paragraph` do so exactly where the Match is made in some sentence, some paragraph.
pub fn scope_law()
    ensures sentence { (item : Span) (m : Match) → is_not_empty m.includes ≡ true
        → (satisfied (filtered_match F.SameSentence item m) ≡ true) ↔ ((number : ℕ) × (made_in (in_unit U.Sentences number) m ≡ true)) }
    ensures paragraph { (item : Span) (m : Match) → is_not_empty m.includes ≡ true
        → (satisfied (filtered_match F.SameParagraph item m) ≡ true) ↔ ((number : ℕ) × (made_in (in_unit U.Paragraphs number) m ≡ true)) }
{}
