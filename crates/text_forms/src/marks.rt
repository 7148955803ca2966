ghost use Rattle.std.specs.Prelude.{◌≡◌};
ghost use Rattle.text_forms.specs.Forms.{is_nonspacing_mark};

use unicode::properties::GeneralCategory;

/// Whether the character has the general category Mn.
#[tactic(auto, unfolding(crate::specs::Forms::is_nonspacing_mark))]
pub fn is_nonspacing_mark(c: char) -> bool
    ensures { result ≡ is_nonspacing_mark c }
{
    GeneralCategory::for_char(c) == GeneralCategory::NonspacingMark
}
