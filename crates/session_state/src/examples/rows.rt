//! How many rows of the index commands put and take, in small documents, by computation.
#![tactic(auto, unfolding(crate::specs::Step::rows_for,
// where steps lead
path_meaning::specs::Meaning::stepped, path_meaning::specs::Meaning::led, path_meaning::specs::Meaning::filtered, path_meaning::specs::Meaning::filtered_by,
// what a path selects
path_meaning::specs::Meaning::selected))]

ghost use Rattle.std.specs.Prelude.{◌≡◌, ◌∷◌, [], ℕ, List, codes, None, Some, Ok, Err};
ghost use Rattle.document_store.specs.declared.fault.NotLoaded.{NotLoaded};
ghost use Rattle.document_store.specs.Documents.{loadable, tokens_loaded, tokens_named, touched_in};
ghost use Rattle.doc_profile.specs.Readings.{fragment_of};
ghost use Rattle.doc_profile.specs.declared.fault.DocFault.{DocFault};
ghost use Rattle.ft_base.specs.declared.fault.QueryFault.{QueryFault};
ghost use Rattle.index_meaning.specs.Documents.{Numbered};
ghost use Rattle.ordered_tree.specs.Counts.{word_count};
ghost use Rattle.path_grammar.specs.Spellings.{below, child};
ghost use Rattle.path_grammar.specs.declared.path.PathRoot.TheVariants.{Collection, Doc};
ghost use Rattle.path_meaning.specs.Examples.{nested};
ghost use Rattle.path_subset.specs.Answer.{path_read};
ghost use Rattle.plain_tree.specs.Document.{Node};
ghost use Rattle.plain_tree.specs.declared.place.How.TheVariants as ways;
ghost use Rattle.plan_compiler.specs.NamedLists.{NamedLists};
ghost use Rattle.plan_runs.specs.Judgement.{Judgement};
ghost use Rattle.reply_lines.specs.declared.command.Command.TheVariants as command;
ghost use Rattle.session_state.specs.declared.edit.Targets.TheVariants as many;
ghost use Rattle.session_state.specs.Edits.{deletion, touched_read, touched_with};
ghost use Rattle.session_state.specs.PriceExamples.{two_held, with_selections};
ghost use Rattle.session_state.specs.State.{State, opening};
ghost use Rattle.session_state.specs.Step.{rows_for};

/// A document that is loaded puts a row for each of its tokens, and one that is taken out takes as many; one that is refused puts none.
pub fn rows_of_documents()
    ensures loaded { (root : Node) → tokens_loaded [] (codes "n") (Ok root) ≡ word_count root }
    ensures name_taken { (root other : Node) → tokens_loaded (record { name = codes "n"; root = other } ∷ []) (codes "n") (Ok root) ≡ 0 }
    ensures no_document { (why : NotLoaded) → tokens_loaded [] (codes "n") (Err why) ≡ 0 }
    ensures second { (a b : Node) → tokens_named (record { name = codes "m"; root = a } ∷ record { name = codes "n"; root = b } ∷ []) (codes "n")
        ≡ word_count b }
    ensures not_there { (a : Node) → tokens_named (record { name = codes "m"; root = a } ∷ []) (codes "n") ≡ 0 }
{}

/// Which commands put and take rows: those that load a document, take one out or edit elements.
pub fn rows_of_commands()
    ensures load { (says : Judgement) → (block : List ℕ)
        → rows_for says opening (command.Load (codes "n") block) ≡ tokens_loaded [] (codes "n") (loadable block) }
    ensures drop { (says : Judgement) → (lists : NamedLists) → (version : List Numbered)
        → rows_for says (two_held lists version).state (command.Drop (codes "n")) ≡ word_count nested }
    ensures delete { (says : Judgement) → (state : State) → (path : List ℕ)
        → rows_for says state (command.Delete path) ≡ touched_read says state many.Any deletion (path_read path) }
    ensures insert { (says : Judgement) → (state : State) → (path block : List ℕ)
        → rows_for says state (command.Insert ways.Last path block) ≡ touched_with says state (Some ways.Last) path (fragment_of block) }
    ensures replace { (says : Judgement) → (state : State) → (path block : List ℕ)
        → rows_for says state (command.Replace path block) ≡ touched_with says state None path (fragment_of block) }
    ensures abbreviations { (says : Judgement) → (state : State) → (block : List ℕ) → rows_for says state (command.Abbreviations block) ≡ 0 }
    ensures query { (says : Judgement) → (state : State) → (path : List ℕ) → rows_for says state (command.Query path) ≡ 0 }
    ensures unmark { (says : Judgement) → (state : State) → (name : List ℕ) → rows_for says state (command.Unmark name) ≡ 0 }
{}

/// An edit puts and takes rows for the elements that its path selects, document by document; none, where it is refused.
pub fn rows_of_edits()
    ensures deleted { (says : Judgement) → (lists : NamedLists) → (version : List Numbered)
        → touched_read says (two_held lists version).state many.Any deletion (Ok (with_selections Collection (below (codes "b") [] ∷ []) []))
        ≡ touched_in deletion (((1 ∷ []) ∷ (2 ∷ []) ∷ (3 ∷ 1 ∷ []) ∷ []) ∷ [] ∷ []) (two_held lists version).state.documents }
    ensures in_one { (says : Judgement) → (lists : NamedLists) → (version : List Numbered)
        → touched_read says (two_held lists version).state many.One deletion
        (Ok (with_selections (Doc (codes "n")) (child (codes "a") [] ∷ child (codes "a") [] ∷ []) []))
        ≡ touched_in deletion ([] ∷ ((2 ∷ []) ∷ []) ∷ []) (two_held lists version).state.documents }
    ensures none { (says : Judgement) → (lists : NamedLists) → (version : List Numbered)
        → touched_read says (two_held lists version).state many.Any deletion (Ok (with_selections Collection (below (codes "z") [] ∷ []) [])) ≡ 0 }
    ensures too_many { (says : Judgement) → (lists : NamedLists) → (version : List Numbered)
        → touched_read says (two_held lists version).state many.One deletion (Ok (with_selections Collection (below (codes "b") [] ∷ []) [])) ≡ 0 }
    ensures roots { (says : Judgement) → (lists : NamedLists) → (version : List Numbered)
        → touched_read says (two_held lists version).state many.Any deletion (Ok (with_selections Collection (child (codes "a") [] ∷ []) [])) ≡ 0 }
    ensures no_path { (says : Judgement) → (state : State) → (fault : QueryFault) → touched_read says state many.Any deletion (Err fault) ≡ 0 }
    ensures no_fragment { (says : Judgement) → (state : State) → (path : List ℕ) → (fault : DocFault)
        → touched_with says state (Some ways.First) path (Err fault) ≡ 0 }
{}
