//! Best hits, by computation.
#![tactic(auto, unfolding(crate::specs::Best::best, all_matches::specs::Meaning::all_matches, all_matches::specs::Meaning::phrase_count))]

ghost use Rattle.std.specs.Prelude.{◌≡◌, ◌∷◌, ◌++◌, [], codes, None, Some};
ghost use Rattle.ft_base.specs.declared.filter.Filter.TheVariants as F;
ghost use Rattle.ft_base.specs.declared.options.Case.TheVariants as C;
ghost use Rattle.ft_base.specs.declared.range.Range.TheVariants as R;
ghost use Rattle.ft_base.specs.declared.unit.TextUnit.TheVariants as U;
ghost use Rattle.ft_base.specs.declared.words.Mode.TheVariants as M;
ghost use Rattle.ft_base.specs.Selection.{filtered, mild_not, no_options, not_of, with_options};
ghost use Rattle.all_matches.specs.Examples.{but_not, in_case, is_sensitive, quoted, sentence, text, two_and, two_or, under_options, value, word_a, word_b, word_x};
ghost use Rattle.best_hits.specs.Best.{best, spans_of};
ghost use Rattle.best_hits.specs.Examples.{place, places, shown};

/// Of a phrase the first hit, of a value its first Match; of `occurs` as many Matches as it asks for at least.
pub fn words_shown()
    ensures a_word { shown word_a (text (codes "x a a")) ≡ place 2 ∷ [] }
    ensures a_phrase { shown (quoted (codes "a b")) (text (codes "a a b")) ≡ places 2 3 ∷ [] }
    ensures any { shown (value M.Any None (codes "b" ∷ codes "a" ∷ [])) (text (codes "a b")) ≡ place 2 ∷ [] }
    ensures any_that_stands { shown (value M.Any None (codes "x" ∷ codes "a" ∷ [])) (text (codes "a b")) ≡ place 1 ∷ [] }
    ensures all { shown (value M.All None (codes "b" ∷ codes "a" ∷ [])) (text (codes "a b a")) ≡ place 2 ∷ place 1 ∷ [] }
    ensures at_least { shown (value M.Any (Some (R.AtLeast 2)) (codes "a" ∷ [])) (text (codes "a x a a")) ≡ place 1 ∷ place 3 ∷ [] }
    ensures exactly { shown (value M.Any (Some (R.Exactly 2)) (codes "a" ∷ [])) (text (codes "a x a")) ≡ place 1 ∷ place 3 ∷ [] }
    ensures from_one { shown (value M.Any (Some (R.FromTo 1 3)) (codes "a" ∷ [])) (text (codes "a x a")) ≡ place 1 ∷ [] }
    ensures at_most { shown (value M.Any (Some (R.AtMost 2)) (codes "a" ∷ [])) (text (codes "a x a")) ≡ [] }
    ensures phrase_by_phrase { shown (value M.Any (Some (R.AtLeast 2)) (codes "a" ∷ codes "b" ∷ [])) (text (codes "b a b a")) ≡ place 2 ∷ place 4 ∷ [] }
{}

/// Of an Or its first satisfied operand alone, of an And one operand after the other, of a Not nothing.
pub fn operators_shown()
    ensures or_first { shown (two_or word_a word_b) (text (codes "b a")) ≡ place 2 ∷ [] }
    ensures or_second { shown (two_or word_x word_b) (text (codes "b a")) ≡ place 1 ∷ [] }
    ensures or_not { shown (two_or (not_of word_x) word_a) (text (codes "a")) ≡ [] }
    ensures and { shown (two_and word_b word_a) (text (codes "a b")) ≡ place 2 ∷ place 1 ∷ [] }
    ensures but_not { shown (but_not word_a word_b) (text (codes "a a")) ≡ place 1 ∷ [] }
    ensures not { shown (not_of word_x) (text (codes "a")) ≡ [] }
    ensures under_its_options { spans_of (best (under_options (λ options. is_sensitive options.case)) no_options 1 (text (codes "a"))
        (with_options word_a (in_case C.Sensitive))) ≡ place 1 ∷ [] }
    ensures under_other_options { spans_of (best (under_options (λ options. is_sensitive options.case)) no_options 1 (text (codes "a")) word_a) ≡ [] }
{}

/// Under a filter the least includes of a Match without excludes: behind a window and a distance the joined hit.
pub fn filters_shown()
    ensures ordered { shown (filtered (two_and word_a word_b) F.Ordered) (text (codes "a a b b")) ≡ place 1 ∷ place 3 ∷ [] }
    ensures a_later_operand { shown (filtered (two_or word_b word_a) F.Ordered) (text (codes "a b")) ≡ place 1 ∷ [] }
    ensures a_shorter_hit { shown (filtered (two_or (quoted (codes "a b")) word_a) F.Ordered) (text (codes "a b")) ≡ place 1 ∷ [] }
    ensures fewer_hits { shown (filtered (two_or (two_and word_a word_b) word_a) F.Ordered) (text (codes "a b")) ≡ place 1 ∷ [] }
    ensures distance { shown (filtered (two_and word_a word_b) (F.Distance (R.AtMost 2) U.Words)) (text (codes "a x x x b a")) ≡ places 5 6 ∷ [] }
    ensures window { shown (filtered (two_and word_a word_b) (F.Window 6 U.Words)) (text (codes "a x x x b a")) ≡ places 1 5 ∷ [] }
    ensures no_exclude { shown (filtered (but_not word_a word_b) F.SameSentence) (sentence 1 (codes "a b") ++ sentence 2 (codes "a")) ≡ place 3 ∷ [] }
    ensures standing_out { shown (mild_not word_a (quoted (codes "a b"))) (text (codes "a b a")) ≡ place 3 ∷ [] }
    ensures least_of_not_in { shown (mild_not (two_or word_b word_a) word_x) (text (codes "a b")) ≡ place 1 ∷ [] }
    ensures beside_others { shown (two_and word_b (filtered (two_or word_b word_a) F.Ordered)) (text (codes "a b")) ≡ place 2 ∷ place 1 ∷ [] }
{}
