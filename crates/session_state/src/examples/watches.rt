//! Watches, what went and what came, and which documents are asked again, by computation.
#![tactic(auto, unfolding(crate::specs::Step::step, crate::specs::StampsAfter::standings_after))]

ghost use Rattle.std.specs.Prelude.{◌≡◌, ◌+◌, ◌∷◌, [], ℕ, List, codes, false, true, None, Some};
ghost use Rattle.path_meaning.specs.Collection.{Named};
ghost use Rattle.plan_runs.specs.Judgement.{Judgement};
ghost use Rattle.reply_lines.specs.declared.command.Command.TheVariants as command;
ghost use Rattle.reply_lines.specs.declared.reply.Refusal.TheVariants as refusal;
ghost use Rattle.reply_lines.specs.declared.reply.Reply.TheVariants as reply;
ghost use Rattle.standing_queries.specs.Answers.{all_lines, Answers};
ghost use Rattle.session_state.specs.Held.{Held};
ghost use Rattle.session_state.specs.Standings.{answers_now, standing_of, unknown_price, with_standing, without_standing};
ghost use Rattle.session_state.specs.StampsAfter.{changes_stamps, changes_watches, standings_after};
ghost use Rattle.session_state.specs.State.{State, Watch};
ghost use Rattle.session_state.specs.Step.{has_path, step};
ghost use Rattle.session_state.specs.Watches.{change_answered, changed, watch_answered, watch_named, watch_refusal, watch_taken, watched, with_lines};

/// A watch comes after the others under a name of its own, and is found and given up by it.
pub fn watches_by_their_names()
    ensures free { (w : Watch) → watch_refusal (codes "v") (record w { name = codes "w" } ∷ []) ≡ None }
    ensures taken { (w : Watch) → watch_refusal (codes "w") (record w { name = codes "w" } ∷ []) ≡ Some (refusal.NameTaken (codes "w")) }
    ensures set { (state : State) (w : Watch) (lines : List (List ℕ))
        → watch_answered (record state { watches = w ∷ [] }) (codes "v") (codes "/a") (reply.Nodes lines)
        ≡ (record state { watches = w ∷ record { name = codes "v"; path = codes "/a"; lines = lines } ∷ [] }, reply.Done) }
    ensures refused { (state : State) → watch_answered state (codes "v") (codes "/a") (reply.Refused refusal.NoTarget)
        ≡ (state, reply.Refused refusal.NoTarget) }
    ensures found { (v w : Watch) → watch_named (codes "w") (record v { name = codes "v" } ∷ record w { name = codes "w" } ∷ [])
        ≡ Some (record w { name = codes "w" }) }
    ensures given_up { (v w : Watch) → watch_taken (record v { name = codes "v" } ∷ record w { name = codes "w" } ∷ []) (codes "v")
        ≡ (record w { name = codes "w" } ∷ [], reply.Done) }
    ensures not_there { watch_taken [] (codes "v") ≡ ([], reply.Refused (refusal.NoSuchName (codes "v"))) }
{}

/// Kept lines that aren't there any more go, then those of now come that weren't; the lines of now are kept then. A refused path keeps the
/// old ones.
pub fn changes_of_watches()
    ensures told { (state : State) (w : Watch) → (change_answered (record state { watches = [] }) (codes "w")
        (record w { lines = codes "a" ∷ codes "b" ∷ [] }) (reply.Nodes (codes "c" ∷ codes "b" ∷ []))).1
        ≡ reply.Changed (codes "- a" ∷ codes "+ c" ∷ []) }
    ensures kept { (v w : Watch) → with_lines (codes "w") (codes "c" ∷ []) (record v { name = codes "v" } ∷ record w { name = codes "w" } ∷ [])
        ≡ record v { name = codes "v" } ∷ record w { name = codes "w"; lines = codes "c" ∷ [] } ∷ [] }
    ensures refused { (state : State) (w : Watch) → change_answered state (codes "w") w (reply.Refused (refusal.NoSuchDoc (codes "d")))
        ≡ (state, reply.Refused (refusal.NoSuchDoc (codes "d"))) }
    ensures not_there { (says : Judgement) (state : State) → changed says (record state { watches = [] }) (codes "w")
        ≡ (record state { watches = [] }, reply.Refused (refusal.NoSuchName (codes "w"))) }
{}

/// A document whose stamp is known costs nothing, also where it has no lines, and another what it is asked for.
pub fn documents_that_are_asked_again()
    ensures unknown { (price : Named → ℕ) (d e : Named) → unknown_price ((1, []) ∷ []) price (1 ∷ 2 ∷ []) (d ∷ e ∷ []) ≡ 0 + (price e + 0) }
    ensures gone { (price : Named → ℕ) → unknown_price ((1, []) ∷ []) price [] [] ≡ 0 }
    ensures none_kept { (price : Named → ℕ) (d : Named) → unknown_price [] price (1 ∷ []) (d ∷ []) ≡ price d + 0 }
    ensures now { (lines : Named → List (List ℕ)) (d e : Named) → answers_now lines (4 ∷ 2 ∷ []) (d ∷ e ∷ []) ≡ (4, lines d) ∷ (2, lines e) ∷ [] }
    ensures first { (v w : Watch) (a b : Answers)
        → standing_of (codes "w") (record v { name = codes "v" } ∷ record w { name = codes "w" } ∷ []) (a ∷ b ∷ []) ≡ b }
    ensures asked { (v w : Watch) (a b new : Answers)
        → with_standing (codes "w") new (record v { name = codes "v" } ∷ record w { name = codes "w" } ∷ []) (a ∷ b ∷ []) ≡ a ∷ new ∷ [] }
    ensures given_up { (v w : Watch) (a b : Answers)
        → without_standing (codes "v") (record v { name = codes "v" } ∷ record w { name = codes "w" } ∷ []) (a ∷ b ∷ []) ≡ b ∷ [] }
{}

/// What the commands do to watches and stamps: a list gives all documents new stamps, and no query touches a watch.
pub fn commands_and_watches()
    ensures watch { (says : Judgement) (state : State) (name path : List ℕ) → step says state (command.Watch name path) ≡ watched says state name path }
    ensures stop { (name block : List ℕ) → changes_stamps (command.Stop name block) ≡ true }
    ensures mark { (name : List ℕ) → changes_stamps (command.Mark name) ≡ false }
    ensures query { (path : List ℕ) → changes_watches (command.Query path) ≡ false }
    ensures asks { (name : List ℕ) → has_path (command.Changes name) ≡ true }
    ensures gives_up { (name : List ℕ) → has_path (command.Unwatch name) ≡ false }
    ensures kept { (says : Judgement) (held : Held) (path : List ℕ) → standings_after says held (command.Query path) ≡ held.standings }
{}
