//! The words of a text, as far as a plan looks at them.

ghost use Rattle.std.specs.Prelude.{◌≡◌, IfOk};
ghost use Rattle.plan_compiler.specs.TextWords as spec;

use crate::lists::Lists;
use crate::looks::Looks;
use ft_base::{Line, Memory};
use match_options::{Forms, forms_as};
use std::alloc::Global;

/// A word of a text.
#[derive(Drop)]
pub struct TextWord {
    pub forms: Forms,
    /// The stem of its key, or empty where no stem is looked at.
    pub stem: Line,
}

impl TextWord {
    ghost use Rattle.plan_compiler.specs.TextWords.{word_as};

    /// What is looked at of a word.
    pub fn new(alloc: Global, looks: Looks, lists: &Lists, word: &str) -> Result<TextWord, Memory>
        ensures { IfOk result (λ text. text ≡ word_as looks lists.now.stems word.now) }
    {
        let forms = forms_as(alloc, looks.all_forms, word)?;
        let stem = stem_as(alloc, looks.stems, lists, forms.key.as_str())?;
        Ok(TextWord { forms, stem })
    }
}

fn stem_as(alloc: Global, asked: bool, lists: &Lists, key: &str) -> Result<Line, Memory>
    ensures { IfOk result (λ stem. stem ≡ spec.stem_as asked lists.now.stems key.now) }
{
    if asked {
        Line::read(alloc, lists.stem(key))
    } else {
        Ok(Line::from_string(String::new(alloc)))
    }
}
