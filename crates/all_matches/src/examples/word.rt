//! Words on small texts, by computation.
#![tactic(auto, unfolding(crate::specs::Meaning::sat_under, crate::specs::Meaning::all_matches, crate::specs::Meaning::phrase_count))]

ghost use Rattle.std.specs.Prelude.{◌≡◌, true, false, [], ◌∷◌, codes, Some, None};
ghost use Rattle.ft_base.specs.declared.range.Range.TheVariants as R;
ghost use Rattle.ft_base.specs.declared.words.Mode.TheVariants as M;
ghost use Rattle.ft_base.specs.declared.options.StopChoice.TheVariants as S;
ghost use Rattle.ft_base.specs.declared.options.StopSource.TheVariants as W;
ghost use Rattle.ft_base.specs.Selection.{with_options};
ghost use Rattle.all_matches.specs.Examples.{plain, text, value, quoted};
ghost use Rattle.ft_base.specs.Selection.{no_options};
ghost use Rattle.all_matches.specs.Meaning.{sat};

/// `{"a b", "c"} all` and `all words`.
pub fn modes()
    ensures all { sat plain (value M.All None (codes "a b" ∷ codes "c" ∷ [])) (text (codes "a c b")) ≡ false }
    ensures all_words { sat plain (value M.AllWords None (codes "a b" ∷ codes "c" ∷ [])) (text (codes "a c b")) ≡ true }
    ensures any { sat plain (value M.Any None (codes "a b" ∷ codes "c" ∷ [])) (text (codes "a c b")) ≡ true }
    ensures phrase { sat plain (value M.Phrase None (codes "a" ∷ codes "c b" ∷ [])) (text (codes "a c b")) ≡ true }
    ensures phrase_in_order { sat plain (value M.Phrase None (codes "c" ∷ codes "a" ∷ [])) (text (codes "a c b")) ≡ false }
    ensures all_words_without_some { sat plain (value M.AllWords None (codes "a" ∷ codes " " ∷ [])) (text (codes "a")) ≡ true }
    ensures all_without_some { sat plain (value M.All None (codes "a" ∷ codes " " ∷ [])) (text (codes "a")) ≡ false }
    ensures no_word { sat plain (value M.AllWords None (codes " " ∷ [])) (text (codes "a")) ≡ false }
{}

/// `"a" occurs ..`.
pub fn times()
    ensures from_above_to { sat plain (value M.Any (Some (R.FromTo 3 2)) (codes "a" ∷ [])) (text (codes "b")) ≡ false }
    ensures none_is_enough { sat plain (value M.Any (Some (R.AtLeast 0)) (codes "a" ∷ [])) (text (codes "b")) ≡ true }
    ensures exactly { sat plain (value M.Any (Some (R.Exactly 2)) (codes "a" ∷ [])) (text (codes "a b a")) ≡ true }
    ensures not_exactly { sat plain (value M.Any (Some (R.Exactly 1)) (codes "a" ∷ [])) (text (codes "a b a")) ≡ false }
    ensures at_most { sat plain (value M.Any (Some (R.AtMost 1)) (codes "a" ∷ [])) (text (codes "a b a")) ≡ false }
    ensures overlapping { sat plain (value M.Any (Some (R.Exactly 2)) (codes "a a" ∷ [])) (text (codes "a a a")) ≡ true }
    ensures each_phrase { sat plain (value M.Any (Some (R.Exactly 2)) (codes "a" ∷ codes "a" ∷ [])) (text (codes "a")) ≡ true }
{}

/// `"propagating of errors" using stop words ("of")`: a stop word stands for any one word.
pub fn stop_words()
    ensures one_word { sat plain
        (with_options (quoted (codes "propagating of errors"))
        (record no_options { stop_words = Some (S.Sets (record { except = false; source = W.Written (codes "of" ∷ []) } ∷ [])) }))
        (text (codes "propagating few errors")) ≡ true }
    ensures no_word { sat plain
        (with_options (quoted (codes "propagating of errors"))
        (record no_options { stop_words = Some (S.Sets (record { except = false; source = W.Written (codes "of" ∷ []) } ∷ [])) }))
        (text (codes "propagating errors")) ≡ false }
    ensures listed { sat plain
        (with_options (quoted (codes "propagating of errors"))
        (record no_options { stop_words = Some (S.Sets (record { except = false; source = W.At (codes "short") } ∷ [])) }))
        (text (codes "propagating few errors")) ≡ true }
    ensures excepted { sat plain
        (with_options (quoted (codes "propagating of errors")) (record no_options {
          stop_words = Some (S.Sets
              (record { except = false; source = W.At (codes "short") } ∷ record { except = true; source = W.Written (codes "of" ∷ []) } ∷ []));
        }))
        (text (codes "propagating few errors")) ≡ false }
{}
