ghost use Rattle.std.specs.Prelude.{◌≡◌};
ghost use Rattle.match_options.specs.WordTests as spec;

use crate::comparing::{case_of, is_on};
use ft_base::{Case, Options};

/// The form in which words are compared, as case and diacritics choose it.
#[derive(Clone, Copy, PartialEq, Eq)]
pub struct FormChoice {
    pub case: Case,
    pub diacritics_sensitive: bool,
}

impl FormChoice {
    /// The choice of options.
    pub fn of(options: &Options) -> FormChoice
        ensures { result ≡ spec.choice_of options.now }
    {
        FormChoice {
            case: case_of(options),
            diacritics_sensitive: is_on(options.diacritics_sensitive),
        }
    }

    /// Whether the keys of words say all that is asked of them.
    pub fn is_by_key(self) -> bool
        ensures { result ≡ spec.is_by_key self }
    {
        self.case == Case::Insensitive && !self.diacritics_sensitive
    }
}
