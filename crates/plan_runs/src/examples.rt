//! Prices of small selections at spans of documents, and what can be skipped, by computation.
#![tactic(auto, unfolding(plan_compiler::specs::Price::price_under, plan_compiler::specs::Price::prices_under))]

ghost use Rattle.std.specs.Prelude.{◌≡◌, ◌+◌, ◌∷◌, [], codes, false, true, None, Some};
ghost use Rattle.ft_base.specs.Selection.{Form};
ghost use Rattle.all_matches.specs.Examples.{plain, quoted, span};
ghost use Rattle.index_meaning.specs.Examples.{bare, greeting, short};
ghost use Rattle.index_phrases.specs.declared.word_terms.WordTerms.TheVariants as Terms;
ghost use Rattle.index_versions.specs.Terms.{version_term};
ghost use Rattle.plan_compiler.specs.Lexicon.{lexicon};
ghost use Rattle.plan_compiler.specs.NamedLists.{NamedLists};
ghost use Rattle.plan_runs.specs.RunMeaning.{run_of};
ghost use Rattle.plan_runs.specs.RunPrice.{price, price_at};
ghost use Rattle.plan_runs.specs.steps.Skips.{ends_before, latest, variant_skip, variants_skip, word_skip};

/// The terms are those of all documents of the version, and the words those of the span.
pub fn prices_at_spans()
    ensures over_documents { price plain (quoted (codes "world")) (short ∷ bare ∷ []) (codes "world" ∷ []) ≡ 2 + 64 }
    ensures at_a_span { (form : Form) → (lists : NamedLists) → price_at (run_of form lists (short ∷ greeting ∷ [])) 7 (span 2 4)
        ≡ price (lexicon lists) form (short ∷ greeting ∷ []) (codes "hello" ∷ codes "world" ∷ []) }
{}

/// A span can be skipped that ends at the first place of what it needs. Where all of several are needed the last one counts, and one that
/// stands nowhere decides; of variants the first one counts.
pub fn skips()
    ensures ends_there { ends_before 4 (Some 4) ≡ true }
    ensures ends_after { ends_before 5 (Some 4) ≡ false }
    ensures nothing_known { ends_before 1 (Some 0) ≡ false }
    ensures nowhere { ends_before 9 None ≡ true }
    ensures last { latest (Some 3 ∷ Some 7 ∷ Some 5 ∷ []) ≡ Some 7 }
    ensures one_nowhere { latest (Some 3 ∷ None ∷ Some 5 ∷ []) ≡ None }
    ensures of_none { latest [] ≡ Some 0 }
    ensures word { word_skip 3 (span 1 9) (Terms.Of (version_term (short ∷ bare ∷ []) 0 ∷ [])) ≡ Some 1 }
    ensures after_the_word { word_skip 3 (span 2 9) (Terms.Of (version_term (short ∷ bare ∷ []) 0 ∷ [])) ≡ None }
    ensures no_term { word_skip 3 (span 1 9) (Terms.Of []) ≡ None }
    ensures any_word { word_skip 3 (span 1 9) Terms.Any ≡ Some 0 }
    ensures with_any_word { variant_skip 3 (span 1 9) (Terms.Any ∷ Terms.Of (version_term (short ∷ bare ∷ []) 0 ∷ []) ∷ []) ≡ Some 1 }
    ensures one_variant { variants_skip 3 (span 1 9) ((Terms.Of [] ∷ []) ∷ (Terms.Of (version_term (short ∷ bare ∷ []) 0 ∷ []) ∷ []) ∷ []) ≡ Some 1 }
    ensures no_variant { variants_skip 3 (span 1 9) [] ≡ None }
{}
