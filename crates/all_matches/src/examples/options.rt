//! Options round a selection on small texts, by computation.
#![tactic(auto, unfolding(crate::specs::Meaning::sat_under, crate::specs::Meaning::all_matches, crate::specs::Meaning::phrase_count))]

ghost use Rattle.std.specs.Prelude.{◌≡◌, true, false, [], ◌∷◌, codes, Some, None};
ghost use Rattle.ft_base.specs.declared.options.Case.TheVariants as C;
ghost use Rattle.ft_base.specs.declared.options.StopChoice.TheVariants as S;
ghost use Rattle.ft_base.specs.declared.options.StopSource.TheVariants as W;
ghost use Rattle.ft_base.specs.declared.options.ThesaurusChoice.TheVariants as T;
ghost use Rattle.ft_base.specs.declared.words.Mode.TheVariants as M;
ghost use Rattle.ft_base.specs.Selection.{words, with_options};
ghost use Rattle.all_matches.specs.Examples.{plain, text, also_x, under_options, is_sensitive, is_on, is_english, word_a, word_inside};
ghost use Rattle.all_matches.specs.Examples.{stemmed, marked, with_wildcards, in_case, in_language, stopped, with_thesaurus};
ghost use Rattle.all_matches.specs.Meaning.{sat};

/// Of two options of one group the inner one holds, whether it is the one that lets the word pass or the outer one is.
pub fn inner_options()
    ensures case { sat (under_options (λ options. is_sensitive options.case))
        (word_inside (in_case C.Sensitive) (in_case C.Lower)) (text (codes "a")) ≡ true }
    ensures outer_case { sat (under_options (λ options. is_sensitive options.case))
        (word_inside (in_case C.Lower) (in_case C.Sensitive)) (text (codes "a")) ≡ false }
    ensures diacritics { sat (under_options (λ options. is_on options.diacritics_sensitive))
        (word_inside (marked true) (marked false)) (text (codes "a")) ≡ true }
    ensures outer_diacritics { sat (under_options (λ options. is_on options.diacritics_sensitive))
        (word_inside (marked false) (marked true)) (text (codes "a")) ≡ false }
    ensures stemming { sat (under_options (λ options. is_on options.stemming))
        (word_inside (stemmed true) (stemmed false)) (text (codes "a")) ≡ true }
    ensures outer_stemming { sat (under_options (λ options. is_on options.stemming))
        (word_inside (stemmed false) (stemmed true)) (text (codes "a")) ≡ false }
    ensures wildcards { sat (under_options (λ options. is_on options.wildcards))
        (word_inside (with_wildcards true) (with_wildcards false)) (text (codes "a")) ≡ true }
    ensures outer_wildcards { sat (under_options (λ options. is_on options.wildcards))
        (word_inside (with_wildcards false) (with_wildcards true)) (text (codes "a")) ≡ false }
    ensures language { sat (under_options (λ options. is_english options.language))
        (word_inside (in_language (codes "en")) (in_language (codes "de"))) (text (codes "a")) ≡ true }
    ensures outer_language { sat (under_options (λ options. is_english options.language))
        (word_inside (in_language (codes "de")) (in_language (codes "en"))) (text (codes "a")) ≡ false }
{}

/// The same of stop words and thesauri.
pub fn inner_lists()
    ensures stop_words { sat plain
        (word_inside (stopped (S.Sets (record { except = false; source = W.Written (codes "a" ∷ []) } ∷ []))) (stopped S.No)) (text (codes "x")) ≡ true }
    ensures outer_stop_words { sat plain
        (word_inside (stopped S.No) (stopped (S.Sets (record { except = false; source = W.Written (codes "a" ∷ []) } ∷ [])))) (text (codes "x")) ≡ false }
    ensures thesaurus { sat also_x
        (word_inside (with_thesaurus (T.Uses (record { name = codes "list"; relationship = None; levels = None } ∷ []))) (with_thesaurus T.No))
        (text (codes "x")) ≡ true }
    ensures outer_thesaurus { sat also_x
        (word_inside (with_thesaurus T.No) (with_thesaurus (T.Uses (record { name = codes "list"; relationship = None; levels = None } ∷ []))))
        (text (codes "x")) ≡ false }
{}

/// Options further out hold where no option of their group stands further in, and the options of the words are the innermost.
pub fn outer_options()
    ensures of_another_group { sat (under_options (λ options. is_on options.stemming))
        (word_inside (with_wildcards true) (stemmed true)) (text (codes "a")) ≡ true }
    ensures of_the_words { sat (under_options (λ options. is_on options.stemming))
        (with_options (words record { values = codes "a" ∷ []; mode = M.Any; times = None; options = stemmed false }) (stemmed true))
        (text (codes "a")) ≡ false }
    ensures no_option { sat (under_options (λ options. is_on options.stemming)) word_a (text (codes "a")) ≡ false }
{}
