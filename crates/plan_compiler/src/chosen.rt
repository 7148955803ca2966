ghost use Rattle.std.specs.Prelude.{◌≡◌};
ghost use Rattle.ft_base.specs.Selection.{no_options};
ghost use Rattle.all_matches.specs.Meaning as meaning;
ghost use Rattle.plan_compiler.specs.ChosenOptions.{options_of};

use ft_base::{Case, Line, Options, StopChoice, ThesaurusChoice};

/// The options that hold at a place of a selection.
#[derive(Clone, Copy)]
pub(crate) struct Chosen<'a> {
    pub(crate) case: Option<Case>,
    pub(crate) diacritics_sensitive: Option<bool>,
    pub(crate) stemming: Option<bool>,
    pub(crate) thesaurus: Option<&'a ThesaurusChoice>,
    pub(crate) stop_words: Option<&'a StopChoice>,
    pub(crate) language: Option<&'a Line>,
    pub(crate) wildcards: Option<bool>,
}

/// No option at all.
pub(crate) fn none_chosen<'a>() -> Chosen<'a>
    ensures { options_of result ≡ no_options }
{
    Chosen {
        case: None,
        diacritics_sensitive: None,
        stemming: None,
        thesaurus: None,
        stop_words: None,
        language: None,
        wildcards: None,
    }
}

/// The options that hold inside, where others hold outside: of each group the one that stands further in.
pub(crate) fn inside<'a>(inner: &'a Options, outer: &Chosen<'a>) -> Chosen<'a>
    ensures { options_of result ≡ meaning.inside inner.now (options_of outer.now) }
{
    Chosen {
        case: inner.case.or(outer.case),
        diacritics_sensitive: inner.diacritics_sensitive.or(outer.diacritics_sensitive),
        stemming: inner.stemming.or(outer.stemming),
        thesaurus: inner.thesaurus.as_ref().or(outer.thesaurus),
        stop_words: inner.stop_words.as_ref().or(outer.stop_words),
        language: inner.language.as_ref().or(outer.language),
        wildcards: inner.wildcards.or(outer.wildcards),
    }
}
