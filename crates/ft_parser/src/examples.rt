//! The selections of small texts, by computation.

ghost use Rattle.std.specs.Prelude.{◌≡◌, [], ◌∷◌, Some, None, codes};
ghost use Rattle.ft_base.specs.Selection.{mild_not, not_of, filtered, with_options};
ghost use Rattle.ft_base.specs.declared.filter.Filter.TheVariants as F;
ghost use Rattle.ft_base.specs.declared.range.Range.TheVariants as R;
ghost use Rattle.ft_base.specs.declared.unit.TextUnit.TheVariants as U;
ghost use Rattle.ft_base.specs.declared.words.Mode.TheVariants as M;
ghost use Rattle.ft_syntax.specs.Examples.{value, quoted, two_or, two_and};
ghost use Rattle.ft_parser.specs.Selections.{selection_in};

/// `ftand` binds closer than `ftor`, `not in` closer than both, and it groups to the left.
pub fn levels()
    ensures or_and { selection_in (codes "'a' ftor 'b' ftand 'c'") ≡ Some (two_or (quoted (codes "a")) (two_and (quoted (codes "b")) (quoted (codes "c")))) }
    ensures in_parentheses { selection_in (codes "(('a') ftor 'b') ftand 'c'")
        ≡ Some (two_and (two_or (quoted (codes "a")) (quoted (codes "b"))) (quoted (codes "c"))) }
    ensures to_the_left { selection_in (codes "'a' not in 'b' not in ftnot 'c'")
        ≡ Some (mild_not (mild_not (quoted (codes "a")) (quoted (codes "b"))) (not_of (quoted (codes "c")))) }
    ensures not_whole { selection_in (codes "'a' ftand") ≡ None }
{}

/// Modes, ranges and filters.
pub fn words_and_filters()
    ensures all_words { selection_in (codes "{'a b', 'c'} all words occurs from 2 to 3 times")
        ≡ Some (value (codes "a b" ∷ codes "c" ∷ []) M.AllWords (Some (R.FromTo 2 3))) }
    ensures any { selection_in (codes "{'a', 'b'} any ordered") ≡ Some (filtered (value (codes "a" ∷ codes "b" ∷ []) M.Any None) F.Ordered) }
    ensures in_turn { selection_in (codes "'a' distance at most 3 words at end")
        ≡ Some (filtered (filtered (quoted (codes "a")) (F.Distance (R.AtMost 3) U.Words)) F.AtEnd) }
    ensures on_all { selection_in (codes "'a' ftor 'b' at end") ≡ Some (filtered (two_or (quoted (codes "a")) (quoted (codes "b"))) F.AtEnd) }
    ensures no_keyword_alone { selection_in (codes "'a' window 3") ≡ None }
{}
