//! Which plans are decided by which way, by computation.
#![tactic(auto, unfolding(crate::specs::steps::JoinedPhrases::joined_of, crate::specs::steps::NearPlans::is_near))]

ghost use Rattle.std.specs.Prelude.{◌≡◌, [], ◌∷◌, true, false, None, Some};
ghost use Rattle.ft_base.specs.declared.filter.Filter.{Filter};
ghost use Rattle.ft_base.specs.declared.filter.Filter.TheVariants as F;
ghost use Rattle.ft_base.specs.declared.range.Range.TheVariants.{AtMost, Exactly};
ghost use Rattle.ft_base.specs.declared.unit.TextUnit.TheVariants.{Sentences, Words};
ghost use Rattle.match_options.specs.declared.word_matching.WordTest.TheVariants as Test;
ghost use Rattle.plan_compiler.specs.declared.item_matching.ItemTest.TheVariants.{Any, ByForms};
ghost use Rattle.plan_compiler.specs.declared.operator_plan.OperatorPlan.{OperatorPlan, Phrase, Choice', Both', MildNot', Negated', Filtered'};
ghost use Rattle.plan_compiler.specs.declared.operator_plan.PhraseTests.{PhraseTests};
ghost use Rattle.spot_merges.specs.declared.edge.Edge.TheVariants as E;
ghost use Rattle.spot_merges.specs.declared.outside.Outside.TheVariants as O;
ghost use Rattle.plan_kinds.specs.Examples.{a_word, any_word, numbered, some_phrases, some_words, two_words};
ghost use Rattle.plan_compiler.specs.CheapPlans.{is_single};
ghost use Rattle.plan_kinds.specs.steps.JoinedPhrases.{joined_of};
ghost use Rattle.plan_kinds.specs.steps.MergeKinds.{merge_kind, merge_of};
ghost use Rattle.plan_kinds.specs.steps.PassKinds.{pass_kind, pass_of};
ghost use Rattle.plan_kinds.specs.steps.NearPlans.{is_near};
ghost use Rattle.plan_kinds.specs.steps.OutsidePhrases.{outside_of};
ghost use Rattle.plan_kinds.specs.steps.PlacedPhrases.{edge_of};
ghost use Rattle.plan_kinds.specs.declared.merge_kind.MergeKind.TheVariants as M;
ghost use Rattle.plan_kinds.specs.declared.pass_kind.PassKind.TheVariants as P;

/// Phrases that are joined by `ftand`, and numbered one after the other. A phrase of no variants is as good as one of words.
pub fn joined_phrases()
    ensures one { joined_of (Phrase (numbered 3)) ≡ Some (some_words 3 3) }
    ensures two { (p : _) → joined_of (Both' p (Phrase (numbered 1)) (Phrase (numbered 2))) ≡ Some (some_words 1 2) }
    ensures of_one_number { (p : _) → joined_of (Both' p (Phrase (numbered 1)) (Phrase (numbered 1))) ≡ None }
    ensures a_choice { (p : _) (left right : OperatorPlan) → joined_of (Choice' p left right) ≡ None }
    ensures a_word { is_single (ByForms Test.Never ∷ []) ≡ true }
    ensures any_word { is_single (Any ∷ []) ≡ false }
    ensures two_words { is_single (ByForms Test.Never ∷ ByForms Test.Never ∷ []) ≡ false }
{}

/// Filters over single words.
pub fn merges()
    ensures window { merge_kind (F.Window 9 Words) (some_words 1 3) ≡ Some (M.Close 9) }
    ensures window_in_sentences { merge_kind (F.Window 9 Sentences) (some_words 1 3) ≡ None }
    ensures sentence { merge_kind F.SameSentence (some_words 1 3) ≡ Some M.InSentence }
    ensures distance { merge_kind (F.Distance (AtMost 5) Words) (some_words 1 2) ≡ Some (M.Close 7) }
    ensures distance_over_three { merge_kind (F.Distance (AtMost 5) Words) (some_words 1 3) ≡ None }
    ensures over_phrases { (filter : Filter) → merge_kind filter (some_phrases 1 3) ≡ None }
    ensures with_its_operand { (p : _) → merge_of (Filtered' p (Phrase (numbered 1)) F.Ordered) ≡ Some (M.InOrder, Phrase (numbered 1)) }
{}

/// Filters over phrases.
pub fn passes()
    ensures in_order { pass_kind F.Ordered (some_phrases 1 3) ≡ Some P.InOrder }
    ensures distance { pass_kind (F.Distance (AtMost 5) Words) (some_phrases 3 4) ≡ Some (P.Apart (AtMost 5) Words) }
    ensures another_distance { pass_kind (F.Distance (Exactly 5) Words) (some_words 3 4) ≡ Some (P.Apart (Exactly 5) Words) }
    ensures distance_in_sentences { pass_kind (F.Distance (AtMost 5) Sentences) (some_phrases 3 4) ≡ Some (P.Apart (AtMost 5) Sentences) }
    ensures distance_over_three { pass_kind (F.Distance (AtMost 5) Words) (some_phrases 3 5) ≡ None }
    ensures over_one { pass_kind (F.Distance (AtMost 5) Words) (some_phrases 3 3) ≡ None }
    ensures with_its_operand { (p : _) → pass_of (Filtered' p (Phrase (numbered 1)) F.Ordered) ≡ Some (P.InOrder, Phrase (numbered 1)) }
    ensures no_filter { (p : _) (left right : OperatorPlan) → pass_of (Both' p left right) ≡ None }
{}

/// Windows and scopes over phrases, at any depth, and nothing else.
pub fn near()
    ensures a_window { (p q : _) (left right : PhraseTests) → is_near (Filtered' p (Both' q (Phrase left) (Phrase right)) (F.Window 9 Words)) ≡ true }
    ensures a_choice { (p q : _) (left right : PhraseTests) → is_near (Filtered' p (Choice' q (Phrase left) (Phrase right)) F.SameParagraph) ≡ true }
    ensures nested { (p q r : _) (left right : PhraseTests)
        → is_near (Filtered' p (Both' q (Filtered' r (Phrase left) (F.Window 2 Sentences)) (Phrase right)) F.SameSentence) ≡ true }
    ensures in_order { (p : _) (found : PhraseTests) → is_near (Filtered' p (Phrase found) F.Ordered) ≡ false }
    ensures order_inside { (p q : _) (found : PhraseTests) → is_near (Filtered' p (Filtered' q (Phrase found) F.Ordered) (F.Window 9 Words)) ≡ false }
    ensures different { (p : _) (found : PhraseTests) → is_near (Filtered' p (Phrase found) F.DifferentSentence) ≡ false }
    ensures a_distance { (p : _) (found : PhraseTests) → is_near (Filtered' p (Phrase found) (F.Distance (AtMost 9) Words)) ≡ false }
    ensures negated { (p q r : _) (left right : PhraseTests)
        → is_near (Filtered' p (Both' q (Phrase left) (Negated' r (Phrase right))) (F.Window 9 Words)) ≡ false }
    ensures not_in { (p q : _) (left right : PhraseTests) → is_near (Filtered' p (MildNot' q (Phrase left) (Phrase right)) (F.Window 9 Words)) ≡ false }
{}

/// A filter at an edge of the text, over one phrase.
pub fn phrases_at_edges()
    ensures start { (p : _) (found : PhraseTests) → edge_of (Filtered' p (Phrase found) F.AtStart) ≡ Some (E.Start, found) }
    ensures end { (p : _) (found : PhraseTests) → edge_of (Filtered' p (Phrase found) F.AtEnd) ≡ Some (E.End, found) }
    ensures entire { (p : _) (found : PhraseTests) → edge_of (Filtered' p (Phrase found) F.EntireContent) ≡ Some (E.Both, found) }
    ensures in_order { (p : _) (found : PhraseTests) → edge_of (Filtered' p (Phrase found) F.Ordered) ≡ None }
    ensures over_two { (p q : _) (left right : OperatorPlan) → edge_of (Filtered' p (Both' q left right) F.AtStart) ≡ None }
{}

/// `not in` over two phrases, and over nothing else.
pub fn phrases_not_in_another()
    ensures two { (p : _) (left right : PhraseTests) → outside_of (MildNot' p (Phrase left) (Phrase right)) ≡ Some (O.Cover, left, right) }
    ensures over_a_choice { (p q : _) (a b : OperatorPlan) (right : PhraseTests) → outside_of (MildNot' p (Choice' q a b) (Phrase right)) ≡ None }
    ensures over_a_filter { (p q : _) (operand : OperatorPlan) (kind : Filter) (left : PhraseTests)
        → outside_of (MildNot' p (Phrase left) (Filtered' q operand kind)) ≡ None }
    ensures both { (p : _) (left right : OperatorPlan) → outside_of (Both' p left right) ≡ None }
{}

/// A window in words over a single word and another one that is negated, in either order, and over nothing else.
pub fn words_without_another()
    ensures in_a_window { (p : _) (q : _) (r : _)
        → outside_of (Filtered' p (Both' q (Phrase (a_word 1)) (Negated' r (Phrase (a_word 2)))) (F.Window 9 Words))
        ≡ Some (O.Window 9, a_word 1, a_word 2) }
    ensures negated_first { (p : _) (q : _) (r : _)
        → outside_of (Filtered' p (Both' q (Negated' r (Phrase (a_word 1))) (Phrase (a_word 2))) (F.Window 9 Words))
        ≡ Some (O.Window 9, a_word 2, a_word 1) }
    ensures in_sentences { (p : _) (q : _) (r : _)
        → outside_of (Filtered' p (Both' q (Phrase (a_word 1)) (Negated' r (Phrase (a_word 2)))) (F.Window 9 Sentences)) ≡ None }
    ensures at_a_distance { (p : _) (q : _) (r : _)
        → outside_of (Filtered' p (Both' q (Phrase (a_word 1)) (Negated' r (Phrase (a_word 2)))) (F.Distance (AtMost 9) Words)) ≡ None }
    ensures in_one_sentence { (p : _) (q : _) (r : _)
        → outside_of (Filtered' p (Both' q (Phrase (a_word 1)) (Negated' r (Phrase (a_word 2)))) F.SameSentence) ≡ None }
    ensures a_phrase { (p : _) (q : _) (r : _)
        → outside_of (Filtered' p (Both' q (Phrase (two_words 1)) (Negated' r (Phrase (a_word 2)))) (F.Window 9 Words)) ≡ None }
    ensures without_a_phrase { (p : _) (q : _) (r : _)
        → outside_of (Filtered' p (Both' q (Phrase (a_word 1)) (Negated' r (Phrase (two_words 2)))) (F.Window 9 Words)) ≡ None }
    ensures any_word { (p : _) (q : _) (r : _)
        → outside_of (Filtered' p (Both' q (Phrase (any_word 1)) (Negated' r (Phrase (a_word 2)))) (F.Window 9 Words)) ≡ None }
    ensures two_negations { (p : _) (q : _) (r s : _) (left right : PhraseTests)
        → outside_of (Filtered' p (Both' q (Negated' r (Phrase left)) (Negated' s (Phrase right))) (F.Window 9 Words)) ≡ None }
    ensures no_negation { (p : _) (q : _) (left right : PhraseTests)
        → outside_of (Filtered' p (Both' q (Phrase left) (Phrase right)) (F.Window 9 Words)) ≡ None }
    ensures a_negation_alone { (p : _) (r : _) (found : PhraseTests)
        → outside_of (Filtered' p (Negated' r (Phrase found)) (F.Window 9 Words)) ≡ None }
{}
