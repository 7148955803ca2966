//! What a query selects, what is shown of it, and that a refused command changes nothing, said aloud, whatever the judge of a session says.

ghost use Rattle.std.specs.Prelude.{◌≡◌, ◌≤◌, ◌+◌, ℕ, Bool, true, List, map, filter, flat_map, None, Ok, Some, AllPairs};
ghost use Rattle.ft_base.specs.Selection.{Form};
ghost use Rattle.element_lines.specs.Lines.{element_line};
ghost use Rattle.path_meaning.specs.Collection.{Named, documents};
ghost use Rattle.index_cursors.specs.SpanHits.{is_inside};
ghost use Rattle.ordered_tree.specs.Counts.{word_count};
ghost use Rattle.path_meaning.specs.Elements.{Element, elements, node_at};
ghost use Rattle.path_meaning.specs.Order.{Before};
ghost use Rattle.path_subset.specs.Answer.{path_read};
ghost use Rattle.path_subset.specs.Paths.{PathForm};
ghost use Rattle.plain_tree.specs.Document.{Node};
ghost use Rattle.plan_runs.specs.Judgement.{Judgement};
ghost use Rattle.reply_lines.specs.Replies.{is_refusal};
ghost use Rattle.reply_lines.specs.declared.command.Command.{Command};
ghost use Rattle.reply_lines.specs.declared.command.Command.TheVariants.{Query, Show};
ghost use Rattle.reply_lines.specs.declared.reply.Refusal.TheVariants.{NothingToShow};
ghost use Rattle.reply_lines.specs.declared.reply.Reply.TheVariants.{Nodes, Refused, Shown};
ghost use Rattle.session_state.specs.IgnoredText.{ignored_places, places_after, words_before};
ghost use Rattle.session_state.specs.MarkedWords.{marked_lines, shown_form};
ghost use Rattle.session_state.specs.Paths.{selected_in, IsAnswered};
ghost use Rattle.session_state.specs.State.{State};
ghost use Rattle.session_state.specs.Step.{step};

use path_meaning::laws::{elements_law, order_law};

/// Where the path of a query can be read, and all that it names is there, the reply names, document by document in the order of
/// loading, the elements that the path selects.
pub fn query_law()
    ensures { (says : Judgement) (state : State) (text : List ℕ) (p : PathForm) → Ok p ≡ path_read text → IsAnswered state p
        → (step says state (Query text)).1 ≡ Nodes (flat_map
        (λ (d : Named). map (element_line d.name d.root) (selected_in says state.abbreviations state.lists p d.root))
        (documents p.path.root state.documents)) }
{}

/// `show` tells the elements that the path selects, each by its name and its words, of which those are marked that the best hits of the path's
/// last selection cover. Where there is no such selection, or its hits can't be shown, there is nothing to show.
pub fn show_law()
    ensures elements { (says : Judgement) (state : State) (text : List ℕ) (p : PathForm) (form : Form)
        → Ok p ≡ path_read text → IsAnswered state p → Some form ≡ shown_form text p
        → (step says state (Show text)).1 ≡ Shown (flat_map
        (λ (d : Named). flat_map (marked_lines state.abbreviations state.lists form d.name d.root)
        (selected_in says state.abbreviations state.lists p d.root))
        (documents p.path.root state.documents)) }
    ensures nothing { (says : Judgement) (state : State) (text : List ℕ) (p : PathForm)
        → Ok p ≡ path_read text → IsAnswered state p → None ≡ shown_form text p
        → (step says state (Show text)).1 ≡ Refused NothingToShow }
{}

/// Where an element is ignored in another one of the document, a word of that one is ignored exactly where it stands in the document at the
/// place of a word of the ignored one.
pub fn ignored_law()
    ensures { (root : Node) (e ignored : Element) (place : ℕ) → node_at root e.place ≡ Some e.node → node_at root ignored.place ≡ Some ignored.node
        → 1 ≤ place → place ≤ word_count e.node
        → is_inside (ignored_places e ignored) place
        ≡ is_inside (places_after (words_before root ignored.place) (word_count ignored.node)) (words_before root e.place + place) }
{}

/// Those elements of a document are the ones that pass a test, in document order, each once.
pub fn selected_law()
    ensures members { (says : Judgement) (state : State) (p : PathForm) (d : Named)
        → (q : Element → Bool) × (selected_in says state.abbreviations state.lists p d.root ≡ filter q (elements d.root)) }
    ensures order { (says : Judgement) (state : State) (p : PathForm) (d : Named) → AllPairs Before (selected_in says state.abbreviations state.lists p d.root) }
{
    elements_law();
    order_law();
}

/// A command that is refused leaves the state as it is, whatever the judge says.
pub fn refused_law()
    ensures { (says : Judgement) (state : State) (command : Command) → is_refusal (step says state command).1 ≡ true → (step says state command).0 ≡ state }
{}
