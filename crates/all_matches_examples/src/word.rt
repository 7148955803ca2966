//! Words on small texts, by computation.
#![tactic(auto, unfolding(all_matches::specs::Meaning::sat_under, all_matches::specs::Meaning::all_matches, all_matches::specs::Meaning::phrase_count))]

ghost use Rattle.std.specs.Prelude.{◌≡◌, true, false, [], ◌∷◌, codes, Some, None};
ghost use Rattle.ft_base.specs.declared.words.Mode.TheVariants as M;
ghost use Rattle.ft_base.specs.declared.options.StopChoice.TheVariants as S;
ghost use Rattle.ft_base.specs.declared.options.StopSource.TheVariants as W;
ghost use Rattle.ft_base.specs.declared.options.ThesaurusChoice.TheVariants as T;
ghost use Rattle.ft_base.specs.Selection.{no_options, with_options};
ghost use Rattle.all_matches.specs.Examples.{plain, also_x, text, value, quoted, stopped, with_thesaurus};
ghost use Rattle.all_matches.specs.Meaning.{sat};
ghost use Rattle.all_matches.specs.Variants.{any_word, word, pattern, is_pattern, reached_keys};

/// `{"a b", "c"} all words` and `any word`.
pub fn modes_by_words()
    ensures all_words_but_one { sat plain (value M.AllWords None (codes "a b" ∷ codes "c" ∷ [])) (text (codes "a c")) ≡ false }
    ensures any_word { sat plain (value M.AnyWord None (codes "a b" ∷ codes "c" ∷ [])) (text (codes "b")) ≡ true }
    ensures no_word_of_any { sat plain (value M.AnyWord None (codes "a b" ∷ codes "c" ∷ [])) (text (codes "x")) ≡ false }
{}

/// `"propagating of errors" using stop words ..`, with two lists, or one that is written as texts of several words.
pub fn lists_of_stop_words()
    ensures in_one_of_two_lists { sat plain
        (with_options (quoted (codes "propagating of errors")) (record no_options {
          stop_words = Some (S.Sets
              (record { except = false; source = W.At (codes "short") } ∷ record { except = false; source = W.Written (codes "few" ∷ []) } ∷ []));
        }))
        (text (codes "propagating few errors")) ≡ true }
    ensures one_of_the_words_of_one_text { sat plain
        (with_options (quoted (codes "propagating of errors"))
        (record no_options { stop_words = Some (S.Sets (record { except = false; source = W.Written (codes "x" ∷ codes "few of" ∷ []) } ∷ [])) }))
        (text (codes "propagating few errors")) ≡ true }
{}

/// `"a b" using stop words ("c") except ("d")` and the like: a word is one where some list holds it, and no later one takes it out.
pub fn words_of_no_list()
    ensures of_no_list { sat plain
        (with_options (quoted (codes "a b")) (stopped (S.Sets (record { except = false; source = W.Written (codes "c" ∷ []) } ∷ []))))
        (text (codes "x b")) ≡ false }
    ensures not_taken_out_of_what_is_no_list { sat plain
        (with_options (quoted (codes "a b")) (stopped (S.Sets
        (record { except = false; source = W.Written (codes "c" ∷ []) } ∷ record { except = true; source = W.Written (codes "d" ∷ []) } ∷ []))))
        (text (codes "x b")) ≡ false }
    ensures not_taken_out { sat plain
        (with_options (quoted (codes "a b")) (stopped (S.Sets
        (record { except = false; source = W.Written (codes "a" ∷ []) } ∷ record { except = true; source = W.Written (codes "d" ∷ []) } ∷ []))))
        (text (codes "x b")) ≡ true }
{}

/// A thesaurus reaches nothing from a phrase that holds a pattern, whatever else it holds.
pub fn patterns_under_thesauri()
    ensures beside_a_word { reached_keys also_x (Some (T.Uses (record { name = codes "list"; relationship = None; levels = None } ∷ [])))
        (word (codes "a") ∷ pattern (codes "b") ∷ []) ≡ [] }
    ensures no_pattern { is_pattern any_word ≡ false }
    ensures not_reached { sat (record also_x { items_of = λ options string. pattern string ∷ [] })
        (with_options (quoted (codes "a")) (with_thesaurus (T.Uses (record { name = codes "list"; relationship = None; levels = None } ∷ []))))
        (text (codes "x")) ≡ false }
{}
