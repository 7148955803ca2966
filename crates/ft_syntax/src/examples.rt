//! Printed forms, by computation.
#![tactic(auto, unfolding(crate::specs::Symbols::printed, crate::specs::Symbols::symbols, crate::specs::Spacing::set_out))]

ghost use Rattle.std.specs.Prelude.{◌≡◌, [], ◌∷◌, codes, None, Some, true, false};
ghost use Rattle.ft_base.specs.declared.filter.Filter.TheVariants as F;
ghost use Rattle.ft_base.specs.declared.options.Case.TheVariants as C;
ghost use Rattle.ft_base.specs.declared.options.StopChoice.TheVariants as S;
ghost use Rattle.ft_base.specs.declared.options.StopSource.TheVariants as W;
ghost use Rattle.ft_base.specs.declared.options.ThesaurusChoice.TheVariants as T;
ghost use Rattle.ft_base.specs.declared.range.Range.TheVariants as R;
ghost use Rattle.ft_base.specs.declared.unit.TextUnit.TheVariants as U;
ghost use Rattle.ft_base.specs.declared.words.Mode.TheVariants as M;
ghost use Rattle.ft_base.specs.Selection.{words, or_of, and_of, mild_not, not_of, filtered, with_options, none, more};
ghost use Rattle.ft_base.specs.Selection.{no_options};
ghost use Rattle.ft_syntax.specs.Examples.{value, quoted, two_or, two_and};
ghost use Rattle.ft_syntax.specs.Symbols.{printed};

/// Values, modes and ranges of times.
pub fn printed_words()
    ensures one { printed (value (codes "a b" ∷ []) M.Any None) ≡ codes "\"a b\"" }
    ensures two { printed (value (codes "a b" ∷ codes "c" ∷ []) M.All None) ≡ codes "{\"a b\", \"c\"} all" }
    ensures any_word { printed (value (codes "a b" ∷ []) M.AnyWord None) ≡ codes "\"a b\" any word" }
    ensures all_words { printed (value (codes "a b" ∷ []) M.AllWords None) ≡ codes "\"a b\" all words" }
    ensures phrase { printed (value (codes "a" ∷ codes "b" ∷ []) M.Phrase None) ≡ codes "{\"a\", \"b\"} phrase" }
    ensures quotation_marks { printed (value (codes "a \"b\"" ∷ []) M.Any None) ≡ codes "\"a \"\"b\"\"\"" }
    ensures no_letter { printed (value (codes "" ∷ []) M.Any None) ≡ codes "\"\"" }
    ensures exactly { printed (value (codes "a" ∷ []) M.Any (Some (R.Exactly 2))) ≡ codes "\"a\" occurs exactly 2 times" }
    ensures at_least { printed (value (codes "a" ∷ []) M.All (Some (R.AtLeast 0))) ≡ codes "\"a\" all occurs at least 0 times" }
    ensures at_most { printed (value (codes "a" ∷ []) M.Any (Some (R.AtMost 1000000))) ≡ codes "\"a\" occurs at most 1000000 times" }
    ensures from_to { printed (value (codes "a" ∷ []) M.Any (Some (R.FromTo 3 2))) ≡ codes "\"a\" occurs from 3 to 2 times" }
{}

/// Filters stand after their operand, from left to right.
pub fn printed_filters()
    ensures ordered { printed (filtered (quoted (codes "a")) F.Ordered) ≡ codes "\"a\" ordered" }
    ensures window { printed (filtered (quoted (codes "a")) (F.Window 3 U.Words)) ≡ codes "\"a\" window 3 words" }
    ensures distance { printed (filtered (quoted (codes "a")) (F.Distance (R.FromTo 0 4) U.Sentences)) ≡ codes "\"a\" distance from 0 to 4 sentences" }
    ensures paragraphs { printed (filtered (quoted (codes "a")) (F.Distance (R.AtMost 1) U.Paragraphs)) ≡ codes "\"a\" distance at most 1 paragraphs" }
    ensures same_sentence { printed (filtered (quoted (codes "a")) F.SameSentence) ≡ codes "\"a\" same sentence" }
    ensures same_paragraph { printed (filtered (quoted (codes "a")) F.SameParagraph) ≡ codes "\"a\" same paragraph" }
    ensures different_sentence { printed (filtered (quoted (codes "a")) F.DifferentSentence) ≡ codes "\"a\" different sentence" }
    ensures different_paragraph { printed (filtered (quoted (codes "a")) F.DifferentParagraph) ≡ codes "\"a\" different paragraph" }
    ensures anchors { printed (filtered (filtered (quoted (codes "a")) F.AtStart) F.AtEnd) ≡ codes "\"a\" at start at end" }
    ensures entire { printed (filtered (quoted (codes "a")) F.EntireContent) ≡ codes "\"a\" entire content" }
{}

/// Parentheses stand round an operand that holds less closely than its place wants.
pub fn printed_levels()
    ensures or_and { printed (two_or (two_and (quoted (codes "a")) (quoted (codes "b"))) (quoted (codes "c"))) ≡ codes "\"a\" ftand \"b\" ftor \"c\"" }
    ensures and_or { printed (two_and (two_or (quoted (codes "a")) (quoted (codes "b"))) (quoted (codes "c"))) ≡ codes "(\"a\" ftor \"b\") ftand \"c\"" }
    ensures or_or { printed (two_or (two_or (quoted (codes "a")) (quoted (codes "b"))) (quoted (codes "c"))) ≡ codes "(\"a\" ftor \"b\") ftor \"c\"" }
    ensures mild_not_left { printed (mild_not (mild_not (quoted (codes "a")) (quoted (codes "b"))) (quoted (codes "c")))
        ≡ codes "\"a\" not in \"b\" not in \"c\"" }
    ensures mild_not_right { printed (mild_not (quoted (codes "a")) (mild_not (quoted (codes "b")) (quoted (codes "c"))))
        ≡ codes "\"a\" not in (\"b\" not in \"c\")" }
    ensures not_and { printed (two_and (not_of (quoted (codes "a"))) (quoted (codes "b"))) ≡ codes "ftnot \"a\" ftand \"b\"" }
    ensures not_not { printed (not_of (not_of (quoted (codes "a")))) ≡ codes "ftnot (ftnot \"a\")" }
    ensures not_over_or { printed (not_of (two_or (quoted (codes "a")) (not_of (quoted (codes "b"))))) ≡ codes "ftnot (\"a\" ftor ftnot \"b\")" }
    ensures filter_over_or { printed (filtered (two_or (quoted (codes "a")) (quoted (codes "b"))) F.AtEnd) ≡ codes "\"a\" ftor \"b\" at end" }
    ensures filter_inside { printed (two_and (filtered (quoted (codes "a")) F.AtEnd) (quoted (codes "b"))) ≡ codes "(\"a\" at end) ftand \"b\"" }
    ensures with_options_round { printed (with_options (quoted (codes "a")) (record no_options { stemming = Some true })) ≡ codes "(\"a\") using stemming" }
    ensures with_options_inside { printed
        (not_of (with_options (two_or (quoted (codes "a")) (quoted (codes "b"))) (record no_options { wildcards = Some false })))
        ≡ codes "ftnot (\"a\" ftor \"b\") using no wildcards" }
{}

/// Options stand in one order, each with `using`, and only those that were given.
pub fn printed_options()
    ensures insensitive { printed (words (record {
      values = codes "a" ∷ [];
      mode = M.Any;
      times = None;
      options = record no_options { case = Some C.Insensitive; diacritics_sensitive = Some false };
    }))
        ≡ codes "\"a\" using case insensitive using diacritics insensitive" }
    ensures sensitive { printed (words (record {
      values = codes "a" ∷ [];
      mode = M.All;
      times = Some (R.Exactly 1);
      options = record no_options { case = Some C.Sensitive; diacritics_sensitive = Some true };
    }))
        ≡ codes "\"a\" all occurs exactly 1 times using case sensitive using diacritics sensitive" }
    ensures letters { printed
        (with_options (with_options (quoted (codes "a")) (record no_options { case = Some C.Lower })) (record no_options { case = Some C.Upper }))
        ≡ codes "((\"a\") using lowercase) using uppercase" }
    ensures all_off { printed (with_options (quoted (codes "a")) (record {
      case = None;
      diacritics_sensitive = None;
      stemming = Some false;
      thesaurus = Some T.No;
      stop_words = Some S.No;
      language = None;
      wildcards = Some false;
    }))
        ≡ codes "(\"a\") using no stemming using no thesaurus using no stop words using no wildcards" }
    ensures language { printed
        (with_options (quoted (codes "a")) (record no_options { language = Some (codes "en"); wildcards = Some true; stemming = Some true }))
        ≡ codes "(\"a\") using stemming using language \"en\" using wildcards" }
    ensures one_thesaurus { printed (with_options (quoted (codes "a"))
        (record no_options { thesaurus = Some (T.Uses (record { name = codes "t"; relationship = Some (codes "r"); levels = Some (R.AtMost 2) } ∷ [])) }))
        ≡ codes "(\"a\") using thesaurus at \"t\" relationship \"r\" at most 2 levels" }
    ensures two_thesauri { printed (with_options (quoted (codes "a")) (record no_options {
      thesaurus = Some (T.Uses
          (record { name = codes "t"; relationship = None; levels = None }
          ∷ record { name = codes "u"; relationship = None; levels = Some (R.FromTo 1 2) } ∷ []));
    }))
        ≡ codes "(\"a\") using thesaurus (at \"t\", at \"u\" from 1 to 2 levels)" }
    ensures stop_terms { printed (with_options (quoted (codes "a")) (record no_options {
      stop_words = Some (S.Sets
          (record { except = false; source = W.At (codes "s") }
          ∷ record { except = true; source = W.Written (codes "of" ∷ codes "at" ∷ []) }
          ∷ record { except = false; source = W.Written (codes "in" ∷ []) } ∷ []));
    }))
        ≡ codes "(\"a\") using stop words at \"s\" except (\"of\", \"at\") union (\"in\")" }
{}
