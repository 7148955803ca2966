//! The faults of small selections, by computation.

ghost use Rattle.std.specs.Prelude.{◌≡◌, [], ◌∷◌, true, false, Some, None, codes};
ghost use Rattle.ft_base.specs.declared.fault.QueryFault.TheVariants as Q;
ghost use Rattle.ft_base.specs.declared.filter.Filter.TheVariants as F;
ghost use Rattle.ft_base.specs.declared.options.Case.TheVariants as C;
ghost use Rattle.ft_base.specs.declared.range.Range.TheVariants as R;
ghost use Rattle.ft_base.specs.declared.unit.TextUnit.TheVariants as U;
ghost use Rattle.ft_base.specs.declared.words.Mode.TheVariants as M;
ghost use Rattle.selection_grammar.specs.Tree.{and_of, mild_not, not_of, or_of, filtered, with_options, trees_of};
ghost use Rattle.selection_grammar.specs.declared.parsed.MatchOption.TheVariants as O;
ghost use Rattle.selection_faults.specs.Examples.{counted, occurring, quoted, quoted_with, strings_from, using_at, value};
ghost use Rattle.selection_faults.specs.Faults.{fault_of};

/// As many phrases are read as a selection may have, and the string with which there are more is named.
pub fn phrases()
    ensures sixty_four { fault_of (value M.Any (strings_from 32 64)) ≡ None }
    ensures sixty_five { fault_of (value M.Any (strings_from 32 65)) ≡ Some (Q.Phrases 608) }
    ensures in_one_phrase { fault_of (value M.Phrase (strings_from 32 65)) ≡ Some (Q.Phrases 608) }
{}

/// One option of each group on one selection.
pub fn options()
    ensures on_and_off { fault_of (quoted_with 32 (codes "a") (using_at 36 (O.Stemming true) ∷ using_at 51 (O.Stemming false) ∷ [])) ≡ Some (Q.OptionTwice 51) }
    ensures case { fault_of (quoted_with 32 (codes "a") (using_at 36 (O.Case C.Lower) ∷ using_at 52 (O.Diacritics true)
        ∷ using_at 79 (O.Case C.Sensitive) ∷ [])) ≡ Some (Q.OptionTwice 79) }
    ensures further_in { fault_of
        (with_options (quoted_with 33 (codes "a") (using_at 37 (O.Stemming true) ∷ [])) (using_at 53 (O.Stemming false) ∷ [])) ≡ None }
{}

/// Patterns, where wildcards are on for their string: an option that stands further in counts.
pub fn wildcards()
    ensures bounds { fault_of (quoted_with 32 (codes ".{2,1}") (using_at 41 (O.Wildcards true) ∷ [])) ≡ Some (Q.BadWildcard 32) }
    ensures backslash { fault_of (quoted_with 32 (codes "ab\\") (using_at 38 (O.Wildcards true) ∷ [])) ≡ Some (Q.BadWildcard 32) }
    ensures around { fault_of (with_options (quoted 33 (codes ".{2,1}")) (using_at 43 (O.Wildcards true) ∷ [])) ≡ Some (Q.BadWildcard 33) }
    ensures off_inside { fault_of
        (with_options (quoted_with 33 (codes ".{2,1}") (using_at 42 (O.Wildcards false) ∷ [])) (using_at 62 (O.Wildcards true) ∷ [])) ≡ None }
    ensures off { fault_of (quoted 32 (codes ".{2,1}")) ≡ None }
{}

/// `ftnot` and `occurs` where they are not allowed.
pub fn excludes()
    ensures in_mild_not { fault_of (mild_not (quoted 32 (codes "a")) (not_of 43 (quoted 49 (codes "b")))) ≡ Some (Q.MildNotExclude 43) }
    ensures times_in_mild_not { fault_of (mild_not (counted 32 (codes "a") 36) (quoted 65 (codes "b"))) ≡ Some (Q.MildNotExclude 36) }
    ensures nested { fault_of (filtered (not_of 33 (not_of 40 (quoted 46 (codes "a")))) (F.Window 3 U.Words)) ≡ Some (Q.InsideFilter 40) }
    ensures times_in_filter { fault_of (filtered (counted 32 (codes "a") 36) F.Ordered) ≡ Some (Q.InsideFilter 36) }
    ensures nested_without_filter { fault_of (not_of 32 (not_of 39 (quoted 45 (codes "a")))) ≡ None }
    ensures one_outside { fault_of
        (not_of 32 (filtered (and_of (trees_of (quoted 40 (codes "a") ∷ not_of 50 (quoted 56 (codes "b")) ∷ []))) (F.Window 3 U.Words))) ≡ None }
{}

/// `occurs` under a filter: in a counted shape that asks for a hit, under one filter that counts in a window, a sentence or a paragraph.
pub fn counted_shapes()
    ensures in_a_window { fault_of (filtered (counted 32 (codes "a") 36) (F.Window 2 U.Sentences)) ≡ None }
    ensures in_one_sentence { fault_of (filtered (and_of (trees_of (occurring M.Any (R.AtMost 2) 32 (codes "a") 36 ∷ quoted 62 (codes "b") ∷ []))) F.SameSentence) ≡ None }
    ensures in_one_paragraph { fault_of (not_of 32 (filtered (counted 39 (codes "a") 43) F.SameParagraph)) ≡ None }
    ensures beside_a_negation { fault_of (filtered (and_of (trees_of (counted 32 (codes "a") 36 ∷ not_of 68 (quoted 74 (codes "b")) ∷ []))) F.SameSentence) ≡ None }
    ensures under_options { fault_of
        (filtered (with_options (occurring M.Phrase (R.Exactly 2) 33 (codes "a b") 46) (using_at 69 (O.Stemming true) ∷ [])) F.SameSentence) ≡ None }
    ensures that_asks_for_none { fault_of (filtered (occurring M.Any (R.AtMost 0) 32 (codes "a") 36) (F.Window 2 U.Words)) ≡ Some (Q.InsideFilter 36) }
    ensures from_none { fault_of (filtered (occurring M.Any (R.FromTo 0 2) 32 (codes "a") 36) F.SameSentence) ≡ Some (Q.InsideFilter 36) }
    ensures of_all { fault_of (filtered (occurring M.All (R.Exactly 2) 32 (codes "a") 40) F.SameSentence) ≡ Some (Q.InsideFilter 40) }
    ensures in_different_sentences { fault_of (filtered (counted 32 (codes "a") 36) F.DifferentSentence) ≡ Some (Q.InsideFilter 36) }
    ensures at_a_distance { fault_of (filtered (counted 32 (codes "a") 36) (F.Distance (R.AtMost 1) U.Words)) ≡ Some (Q.InsideFilter 36) }
    ensures in_a_choice { fault_of (filtered (or_of (trees_of (counted 32 (codes "a") 36 ∷ quoted 68 (codes "b") ∷ []))) F.SameSentence) ≡ Some (Q.InsideFilter 36) }
    ensures negated { fault_of
        (filtered (and_of (trees_of (quoted 32 (codes "a") ∷ not_of 43 (counted 50 (codes "b") 54) ∷ []))) F.SameSentence) ≡ Some (Q.InsideFilter 54) }
    ensures under_another_filter { fault_of (filtered (filtered (counted 32 (codes "a") 36) F.SameSentence) F.Ordered) ≡ Some (Q.InsideFilter 36) }
    ensures beside_another_filter { fault_of
        (filtered (and_of (trees_of (filtered (quoted 33 (codes "b")) F.Ordered ∷ counted 54 (codes "a") 58 ∷ []))) F.SameSentence) ≡ Some (Q.InsideFilter 58) }
    ensures in_mild_not { fault_of (mild_not (filtered (counted 33 (codes "a") 37) F.SameSentence) (quoted 84 (codes "b"))) ≡ Some (Q.MildNotExclude 37) }
{}

/// Of several faults the one at the least place counts, and at one place the one whose kind stands first.
pub fn several()
    ensures least_place { fault_of (filtered (mild_not (quoted 32 (codes "a")) (counted 43 (codes "b") 47)) F.Ordered) ≡ Some (Q.MildNotExclude 47) }
    ensures earlier_place { fault_of
        (quoted_with 32 (codes "ab\\") (using_at 38 (O.Wildcards true) ∷ using_at 54 (O.Wildcards true) ∷ [])) ≡ Some (Q.BadWildcard 32) }
{}
