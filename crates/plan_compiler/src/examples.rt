//! Prices of small selections, and which are cheap, by computation.
#![tactic(auto, unfolding(crate::specs::Price::price_under, crate::specs::Price::prices_under, crate::specs::CheapSelections::is_cheap_under, crate::specs::CheapSelections::are_cheap_under, all_matches::specs::Allowed::without_times, all_matches::specs::Allowed::each_without_times, counted_shapes::specs::Held::needs_hit, counted_shapes::specs::Held::each_needs_hit, counted_shapes::specs::Held::some_needs_hit, counted_shapes::specs::Shapes::is_bare, counted_shapes::specs::Shapes::is_shape, counted_shapes::specs::Shapes::are_shapes))]

ghost use Rattle.std.specs.Prelude.{◌≡◌, ◌+◌, ◌*◌, ◌∷◌, ◌++◌, [], true, false, codes, replicate, None, Some};
ghost use Rattle.ft_base.specs.declared.filter.Filter.TheVariants as F;
ghost use Rattle.ft_base.specs.declared.options.StopChoice.TheVariants as S;
ghost use Rattle.ft_base.specs.declared.options.StopSource.TheVariants as W;
ghost use Rattle.ft_base.specs.declared.options.ThesaurusChoice.TheVariants as T;
ghost use Rattle.ft_base.specs.declared.range.Range.TheVariants as R;
ghost use Rattle.ft_base.specs.declared.unit.TextUnit.TheVariants as U;
ghost use Rattle.ft_base.specs.declared.words.Mode.TheVariants as M;
ghost use Rattle.ft_base.specs.Selection.{no_options, and_of, filtered, mild_not, none, not_of, with_options, words};
ghost use Rattle.all_matches.specs.Examples.{quoted, stemmed, stopped, twice_a, two_and, two_or};
ghost use Rattle.all_matches.specs.Examples.{value, with_thesaurus, word_a, word_b, word_c, word_x};
ghost use Rattle.plan_compiler.specs.CheapSelections.{is_cheap, is_cheap_or_counted};
ghost use Rattle.plan_compiler.specs.Price.{price_under};
ghost use Rattle.plan_compiler.specs.PriceExamples.{lexicon, price_of, terms};

/// Two moves for each place of a word in the span, and 64 for its term.
pub fn prices_of_words()
    ensures frequent { price_of word_a ≡ 2 * 3 + 64 }
    ensures rare { price_of word_b ≡ 2 + 64 }
    ensures elsewhere { price_of word_c ≡ 64 }
    ensures nowhere { price_of word_x ≡ 0 }
    ensures whatever_times { price_of twice_a ≡ 2 * 3 + 64 }
    ensures no_word { price_of (quoted (codes " ")) ≡ 0 }
{}

/// Each item of each phrase adds its own, in every mode.
pub fn prices_of_phrases()
    ensures phrase { price_of (quoted (codes "a b")) ≡ (2 * 3 + 64) + (2 + 64) }
    ensures twice { price_of (quoted (codes "a a")) ≡ 2 * (2 * 3 + 64) }
    ensures any { price_of (value M.Any None (codes "a" ∷ codes "b" ∷ [])) ≡ (2 * 3 + 64) + (2 + 64) }
    ensures all_words { price_of (value M.AllWords None (codes "a b" ∷ codes "c" ∷ [])) ≡ (2 * 3 + 64) + (2 + 64) + 64 }
    ensures as_one { price_of (value M.Phrase None (codes "a" ∷ codes "b" ∷ [])) ≡ (2 * 3 + 64) + (2 + 64) }
{}

/// Options say which words pass an item, and which variants a phrase has.
pub fn prices_under_options()
    ensures two_terms { price_of (with_options word_a (stemmed true)) ≡ 2 * 4 + 64 * 2 }
    ensures own_options { price_of (with_options (words record { values = codes "a" ∷ []; mode = M.Any; times = None; options = stemmed true })
        (stemmed false)) ≡ 2 * 4 + 64 * 2 }
    ensures any_word { price_of (with_options (quoted (codes "b a"))
        (stopped (S.Sets (record { except = false; source = W.Written (codes "a" ∷ []) } ∷ [])))) ≡ (2 + 64) + (2 * 5 + 64 * 4) }
    ensures reached { price_of (with_options word_a
        (with_thesaurus (T.Uses (record { name = codes "t"; relationship = None; levels = None } ∷ [])))) ≡ (2 * 3 + 64) + (2 + 64) + 64 }
{}

/// Operators add the prices of their operands, and a filter adds nothing.
pub fn prices_of_operators()
    ensures and { price_of (two_and word_a word_b) ≡ (2 * 3 + 64) + (2 + 64) }
    ensures or { price_of (two_or word_a word_b) ≡ (2 * 3 + 64) + (2 + 64) }
    ensures not { price_of (not_of word_b) ≡ 2 + 64 }
    ensures mild_not { price_of (mild_not word_a word_b) ≡ (2 * 3 + 64) + (2 + 64) }
    ensures ordered { price_of (filtered (two_and word_a word_b) F.Ordered) ≡ (2 * 3 + 64) + (2 + 64) }
    ensures window { price_of (filtered (two_and word_a word_b) (F.Window 2 U.Words)) ≡ (2 * 3 + 64) + (2 + 64) }
    ensures beside { price_of (two_and word_b (filtered word_a F.AtStart)) ≡ (2 + 64) + (2 * 3 + 64) }
    ensures options_inside { price_of (filtered (with_options word_a (stemmed true)) F.Ordered) ≡ 2 * 4 + 64 * 2 }
    ensures options_round { price_of (with_options (mild_not word_b (filtered word_a F.Ordered)) (stemmed true)) ≡ (2 + 64) + (2 * 4 + 64 * 2) }
{}

/// Words are cheap, whatever phrases they are and however often they have to occur, and so is what `ftor`, `ftand`, `ftnot` and options make
/// of cheap selections; `not in` is not.
pub fn cheap_selections()
    ensures word { is_cheap lexicon word_a ≡ true }
    ensures phrase { is_cheap lexicon (quoted (codes "a b")) ≡ true }
    ensures whatever_times { is_cheap lexicon twice_a ≡ true }
    ensures or { is_cheap lexicon (two_or word_a word_b) ≡ true }
    ensures and { is_cheap lexicon (two_and word_a word_b) ≡ true }
    ensures not { is_cheap lexicon (not_of word_b) ≡ true }
    ensures options { is_cheap lexicon (with_options word_a (stemmed true)) ≡ true }
    ensures mild_not { is_cheap lexicon (mild_not word_a word_b) ≡ false }
    ensures or_over_it { is_cheap lexicon (two_or word_a (mild_not word_a word_b)) ≡ false }
    ensures and_over_it { is_cheap lexicon (two_and (mild_not word_a word_b) word_a) ≡ false }
    ensures not_over_it { is_cheap lexicon (not_of (mild_not word_a word_b)) ≡ false }
    ensures options_over_it { is_cheap lexicon (with_options (mild_not word_a word_b) (stemmed true)) ≡ false }
{}

/// Of filters, `ordered` and a window in words, over single words that `ftand` joins, or over one.
pub fn cheap_filters()
    ensures ordered { is_cheap lexicon (filtered (two_and word_a word_b) F.Ordered) ≡ true }
    ensures window { is_cheap lexicon (filtered (two_and word_a word_b) (F.Window 2 U.Words)) ≡ true }
    ensures one_word { is_cheap lexicon (filtered word_a F.Ordered) ≡ true }
    ensures under_not { is_cheap lexicon (not_of (filtered (two_and word_a word_b) F.Ordered)) ≡ true }
    ensures sentences { is_cheap lexicon (filtered (two_and word_a word_b) (F.Window 2 U.Sentences)) ≡ false }
    ensures paragraphs { is_cheap lexicon (filtered (two_and word_a word_b) (F.Window 2 U.Paragraphs)) ≡ false }
    ensures distance { is_cheap lexicon (filtered (two_and word_a word_b) (F.Distance (R.AtMost 2) U.Words)) ≡ false }
    ensures scope { is_cheap lexicon (filtered (two_and word_a word_b) F.SameSentence) ≡ false }
    ensures anchor { is_cheap lexicon (filtered word_a F.AtStart) ≡ false }
    ensures choice { is_cheap lexicon (filtered (two_or word_a word_b) F.Ordered) ≡ false }
    ensures negated { is_cheap lexicon (filtered (two_and word_a (not_of word_b)) F.Ordered) ≡ false }
    ensures two_filters { is_cheap lexicon (filtered (filtered word_a F.Ordered) F.Ordered) ≡ false }
    ensures nested { is_cheap lexicon (filtered (two_and (two_and word_a word_b) word_c) F.Ordered) ≡ false }
    ensures options_between { is_cheap lexicon (filtered (with_options word_a (stemmed true)) F.Ordered) ≡ false }
    ensures nothing { is_cheap lexicon (filtered (and_of none) F.Ordered) ≡ false }
{}

/// A single word is one phrase, without `occurs`; each variant of it is one item, and no stop word.
pub fn single_words()
    ensures occurs { is_cheap lexicon (filtered (two_and word_b twice_a) F.Ordered) ≡ false }
    ensures two_items { is_cheap lexicon (filtered (two_and word_b (quoted (codes "a b"))) F.Ordered) ≡ false }
    ensures two_phrases { is_cheap lexicon (filtered (value M.Any None (codes "a" ∷ codes "b" ∷ [])) F.Ordered) ≡ false }
    ensures one_of_all { is_cheap lexicon (filtered (value M.AllWords None (codes "a" ∷ [])) F.Ordered) ≡ true }
    ensures each_word { is_cheap lexicon (filtered (value M.AnyWord None (codes "a b" ∷ [])) F.Ordered) ≡ false }
    ensures as_one { is_cheap lexicon (filtered (value M.Phrase None (codes "a" ∷ codes "b" ∷ [])) F.Ordered) ≡ false }
    ensures without_variants { is_cheap lexicon (filtered (quoted (codes " ")) F.Ordered) ≡ true }
    ensures no_phrase { is_cheap lexicon (filtered (value M.AllWords None (codes " " ∷ [])) F.Ordered) ≡ false }
    ensures reached { is_cheap lexicon (with_options (filtered word_a F.Ordered)
        (with_thesaurus (T.Uses (record { name = codes "t"; relationship = None; levels = None } ∷ [])))) ≡ false }
    ensures own_options { is_cheap lexicon (filtered (words record {
      values = codes "a" ∷ [];
      mode = M.Any;
      times = None;
      options = with_thesaurus (T.Uses (record { name = codes "t"; relationship = None; levels = None } ∷ []));
    }) F.Ordered) ≡ false }
    ensures any_word { is_cheap lexicon (with_options (filtered (two_and word_b word_a) F.Ordered)
        (stopped (S.Sets (record { except = false; source = W.Written (codes "a" ∷ []) } ∷ [])))) ≡ false }
    ensures other_word { is_cheap lexicon (with_options (filtered (two_and word_b word_a) F.Ordered)
        (stopped (S.Sets (record { except = false; source = W.Written (codes "c" ∷ []) } ∷ [])))) ≡ true }
{}

/// Words that are counted in windows, sentences or paragraphs are not cheap, but may be told apart: with `occurs` under one such filter alone,
/// and so that one of them has to occur.
pub fn counted_selections()
    ensures not_cheap { is_cheap lexicon (filtered twice_a (F.Window 2 U.Words)) ≡ false }
    ensures window { is_cheap_or_counted lexicon (filtered twice_a (F.Window 2 U.Words)) ≡ true }
    ensures sentences { is_cheap_or_counted lexicon (filtered twice_a (F.Window 2 U.Sentences)) ≡ true }
    ensures scope { is_cheap_or_counted lexicon (filtered (two_and twice_a (not_of word_b)) F.SameSentence) ≡ true }
    ensures phrase { is_cheap_or_counted lexicon (filtered (two_and twice_a (quoted (codes "a b"))) F.SameParagraph) ≡ true }
    ensures beside { is_cheap_or_counted lexicon (two_or word_b (filtered twice_a F.SameSentence)) ≡ true }
    ensures under_not { is_cheap_or_counted lexicon (not_of (filtered twice_a F.SameSentence)) ≡ true }
    ensures options { is_cheap_or_counted lexicon (with_options (filtered twice_a F.SameSentence) (stemmed true)) ≡ true }
    ensures cheap { is_cheap_or_counted lexicon (filtered (two_and word_a word_b) F.Ordered) ≡ true }
    ensures ordered { is_cheap_or_counted lexicon (filtered twice_a F.Ordered) ≡ false }
    ensures choice { is_cheap_or_counted lexicon (filtered (two_or twice_a word_b) F.SameSentence) ≡ false }
    ensures none_needed { is_cheap_or_counted lexicon (filtered (value M.Any (Some (R.AtMost 2)) (codes "a" ∷ [])) F.SameSentence) ≡ false }
    ensures nothing_counted { is_cheap_or_counted lexicon (filtered word_a F.SameSentence) ≡ false }
    ensures mild_not { is_cheap_or_counted lexicon (two_or (mild_not word_a word_b) (filtered twice_a F.SameSentence)) ≡ false }
{}

/// A thousand times `a`, then `c c`, then a thousand times `b`, in a window of two words or without it: two moves for each `a` and each `b`,
/// and 64 for each of the two terms.
pub fn price_of_a_long_text()
    ensures with_words_between { price_under lexicon no_options terms (replicate 1000 (codes "a") ++ codes "c" ∷ codes "c" ∷ replicate 1000 (codes "b"))
        (filtered (two_and word_a word_b) (F.Window 2 U.Words)) ≡ 4128 }
    ensures without_them { price_under lexicon no_options terms (replicate 1000 (codes "a") ++ replicate 1000 (codes "b"))
        (filtered (two_and word_a word_b) (F.Window 2 U.Words)) ≡ 4128 }
{}
