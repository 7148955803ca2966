ghost use Rattle.std.specs.Prelude.{◌≡◌};
ghost use Rattle.ucd_category.specs.GeneralCategory.{general_category};
ghost use Rattle.text_forms.specs.Cases.{is_upper_or_title, is_lower_or_title, is_lower_text, is_upper_text};

use unicode::properties::GeneralCategory;

/// Whether no character of the text is an uppercase or titlecase letter (general categories Lu and Lt).
pub fn is_lower_only(text: &str) -> bool
    ensures { result ≡ is_lower_text text.now }
{
    text.chars().all(|c| !is_upper_or_title(c))
}

/// Whether no character of the text is a lowercase or titlecase letter (general categories Ll and Lt).
pub fn is_upper_only(text: &str) -> bool
    ensures { result ≡ is_upper_text text.now }
{
    text.chars().all(|c| !is_lower_or_title(c))
}

fn is_upper_or_title(c: char) -> bool
    ensures { result ≡ is_upper_or_title (general_category c) }
{
    if c.is_ascii() {
        return c.is_ascii_uppercase();
    }
    matches!(
        GeneralCategory::for_char(c),
        GeneralCategory::UppercaseLetter | GeneralCategory::TitlecaseLetter
    )
}

fn is_lower_or_title(c: char) -> bool
    ensures { result ≡ is_lower_or_title (general_category c) }
{
    if c.is_ascii() {
        return c.is_ascii_lowercase();
    }
    matches!(
        GeneralCategory::for_char(c),
        GeneralCategory::LowercaseLetter | GeneralCategory::TitlecaseLetter
    )
}
