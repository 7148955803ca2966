//! Marks, and why edits are refused, by computation.
#![tactic(auto, unfolding(crate::specs::PathPrices::moves_for, crate::specs::Step::step))]

ghost use Rattle.std.specs.Prelude.{◌≡◌, ◌∷◌, [], ℕ, List, codes, false, true, None, Some};
ghost use Rattle.index_meaning.specs.Documents.{Numbered};
ghost use Rattle.path_grammar.specs.declared.path.PathRoot.TheVariants as roots;
ghost use Rattle.path_meaning.specs.Collection.{Named};
ghost use Rattle.plain_tree.specs.declared.place.How.TheVariants as ways;
ghost use Rattle.plan_runs.specs.Judgement.{Judgement};
ghost use Rattle.reply_lines.specs.declared.command.Command.TheVariants as command;
ghost use Rattle.reply_lines.specs.declared.reply.Refusal.TheVariants as refusal;
ghost use Rattle.reply_lines.specs.declared.reply.Reply.TheVariants as reply;
ghost use Rattle.session_state.specs.declared.edit.Targets.TheVariants as many;
ghost use Rattle.session_state.specs.Edits.{leads_through, target_refusal, targets_refused};
ghost use Rattle.session_state.specs.Held.{nothing_held};
ghost use Rattle.session_state.specs.Marks.{mark_named, mark_put, mark_taken, version_of_mark};
ghost use Rattle.session_state.specs.PathPrices.{moves_for};
ghost use Rattle.session_state.specs.State.{opening, Mark};
ghost use Rattle.session_state.specs.Step.{step};

/// A mark comes after the others under a name of its own, and is found and given up by it.
pub fn marks_by_their_names()
    ensures first { (ds : List Named) → (keys : List (List ℕ))
        → mark_put [] (codes "m") ds keys ≡ (record { name = codes "m"; documents = ds; abbreviations = keys } ∷ [], reply.Done) }
    ensures taken { (m : Mark) → (ds : List Named) → (keys : List (List ℕ)) → mark_put (record m { name = codes "m" } ∷ []) (codes "m") ds keys
        ≡ (record m { name = codes "m" } ∷ [], reply.Refused (refusal.NameTaken (codes "m"))) }
    ensures found { (m n : Mark) → mark_named (codes "n") (record m { name = codes "m" } ∷ record n { name = codes "n" } ∷ [])
        ≡ Some (record n { name = codes "n" }) }
    ensures given_up { (m n : Mark) → mark_taken (record m { name = codes "m" } ∷ record n { name = codes "n" } ∷ []) (codes "m")
        ≡ (record n { name = codes "n" } ∷ [], reply.Done) }
    ensures not_there { mark_taken [] (codes "m") ≡ ([], reply.Refused (refusal.NoSuchName (codes "m"))) }
    ensures version { (m n : Mark) → (v w : List Numbered)
        → version_of_mark (codes "n") (record m { name = codes "m" } ∷ record n { name = codes "n" } ∷ []) (v ∷ w ∷ []) ≡ w }
{}

/// An edit is refused where there is no element, where there are several and it may be of one alone, and of a root that wouldn't stay.
pub fn targets_that_are_refused()
    ensures none { targets_refused many.Any None 0 false ≡ Some refusal.NoTarget }
    ensures many { targets_refused many.One None 2 true ≡ Some (refusal.ManyTargets 2) }
    ensures root { targets_refused many.Any None 2 true ≡ Some refusal.RootTarget }
    ensures beside_root { targets_refused many.One (Some ways.After) 1 true ≡ Some refusal.RootTarget }
    ensures into_root { targets_refused many.One (Some ways.Last) 1 true ≡ None }
    ensures several { targets_refused many.Any None 3 false ≡ None }
{}

/// A path goes through the document that it begins with, or through each.
pub fn documents_on_the_way()
    ensures all { leads_through roots.Collection (codes "d") ≡ true }
    ensures one { leads_through (roots.Doc (codes "d")) (codes "d") ≡ true }
    ensures other { leads_through (roots.Doc (codes "d")) (codes "e") ≡ false }
{}

/// At a mark that isn't there a query is refused, and no cursor moves.
pub fn queries_at_no_mark()
    ensures reply { (says : Judgement) → (path : List ℕ)
        → step says opening (command.QueryAt (codes "m") path) ≡ (opening, reply.Refused (refusal.NoSuchName (codes "m"))) }
    ensures moves { (says : Judgement) → (path : List ℕ) → moves_for says nothing_held (command.QueryAt (codes "m") path) ≡ 0 }
{}
