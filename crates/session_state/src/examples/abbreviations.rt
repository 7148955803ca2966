//! Abbreviations that come, and those that marks keep, by computation.
#![tactic(auto, unfolding(crate::specs::Step::step, crate::specs::Paths::satisfies))]

ghost use Rattle.std.specs.Prelude.{◌≡◌, ◌∷◌, [], ℕ, List, codes, false, true, Ok, Err};
ghost use Rattle.ft_base.specs.Selection.{Form};
ghost use Rattle.ignore_view.specs.Without.{without};
ghost use Rattle.kept_plans.specs.Kept.{Kept};
ghost use Rattle.path_meaning.specs.Collection.{Named};
ghost use Rattle.path_meaning.specs.Elements.{Element};
ghost use Rattle.plan_compiler.specs.NamedLists.{NamedLists};
ghost use Rattle.plan_runs.specs.Judgement.{Judgement};
ghost use Rattle.reply_lines.specs.declared.command.Command.TheVariants as command;
ghost use Rattle.reply_lines.specs.declared.reply.Refusal.TheVariants as refusal;
ghost use Rattle.reply_lines.specs.declared.reply.Reply.TheVariants as reply;
ghost use Rattle.tokenizer.specs.Tokens.{tokens};
ghost use Rattle.word_lists.specs.KeySets.{key_set_of};
ghost use Rattle.session_state.specs.Abbreviations.{abbreviations_put};
ghost use Rattle.session_state.specs.IgnoredText.{ignored_places};
ghost use Rattle.session_state.specs.Marks.{at_mark, marked};
ghost use Rattle.session_state.specs.Paths.{satisfies};
ghost use Rattle.session_state.specs.State.{Mark, State, Watch};
ghost use Rattle.session_state.specs.Step.{changes_documents, changes_version, step};

/// Abbreviations take the place of those that were there: documents, lists, marks, watches and kept plans stay. A bad line changes nothing.
pub fn abbreviations_that_come()
    ensures put { (ds : List Named) (old new : List (List ℕ)) (lists : NamedLists) (marks : List Mark) (watches : List Watch) (kept : Kept)
        → abbreviations_put (record { documents = ds; abbreviations = old; lists = lists; marks = marks; watches = watches; kept = kept }) (Ok new)
        ≡ (record { documents = ds; abbreviations = new; lists = lists; marks = marks; watches = watches; kept = kept }, reply.Done) }
    ensures bad_line { (state : State) → abbreviations_put state (Err 3) ≡ (state, reply.Refused (refusal.List 3)) }
    ensures command { (says : Judgement) (state : State) (block : List ℕ)
        → step says state (command.Abbreviations block) ≡ abbreviations_put state (key_set_of block) }
    ensures no_document { (block : List ℕ) → changes_documents (command.Abbreviations block) ≡ false }
    ensures version { (block : List ℕ) → changes_version (command.Abbreviations block) ≡ true }
    ensures other_version { (block : List ℕ) → changes_version (command.Stems block) ≡ false }
{}

/// A mark keeps the abbreviations of its moment, and at the mark they are those of the state, with the lists and the plans of now.
pub fn abbreviations_at_marks()
    ensures kept { (state : State) (keys : List (List ℕ)) → (marked (record state { abbreviations = keys; marks = [] }) (codes "m")).0.marks
        ≡ record { name = codes "m"; documents = state.documents; abbreviations = keys } ∷ [] }
    ensures stays { (state : State) (m : Mark) (new : List (List ℕ))
        → (abbreviations_put (record state { marks = m ∷ [] }) (Ok new)).0.marks ≡ m ∷ [] }
    ensures at { (state : State) (name : List ℕ) (ds : List Named) (keys : List (List ℕ))
        → at_mark state (record { name = name; documents = ds; abbreviations = keys }) ≡ record state { documents = ds; abbreviations = keys } }
{}

/// What is asked of an element is asked of its tokens under the abbreviations, without those of the elements that are ignored.
pub fn elements_under_abbreviations()
    ensures second { (says : Judgement) (keys : List (List ℕ)) (lists : NamedLists) (f g : Form) (ignored e : Element)
        → satisfies says keys lists (f ∷ g ∷ []) 1 (ignored ∷ []) e ≡ says g lists (without (tokens keys e.node) (ignored_places e ignored ∷ [])) }
    ensures after { (says : Judgement) (keys : List (List ℕ)) (lists : NamedLists) (f : Form) (e : Element)
        → satisfies says keys lists (f ∷ []) 1 [] e ≡ false }
{}
