//! What a session answers to a query, and what it shows, said aloud, whatever its judge says.

ghost use Rattle.std.specs.Prelude.{◌≡◌, ℕ, List, map, flat_map, Some, Ok};
ghost use Rattle.std.specs.List.{slice_get};
ghost use Rattle.element_lines.specs.Lines.{element_line};
ghost use Rattle.ft_base.specs.Selection.{Form};
ghost use Rattle.path_meaning.specs.Collection.{Named, documents};
ghost use Rattle.path_subset.specs.Answer.{path_read};
ghost use Rattle.path_subset.specs.Paths.{PathForm};
ghost use Rattle.plan_runs.specs.Judgement.{Judgement};
ghost use Rattle.session_text.specs.Commands.{commands};
ghost use Rattle.reply_lines.specs.declared.command.Command.TheVariants.{Query, Show};
ghost use Rattle.reply_lines.specs.declared.reply.Reply.TheVariants.{Nodes, Shown};
ghost use Rattle.session_state.specs.MarkedWords.{marked_lines, shown_form};
ghost use Rattle.session_state.specs.Paths.{selected_in, IsAnswered};
ghost use Rattle.ft_session.specs.Output.{replies_to};
ghost use Rattle.ft_session.specs.Queries.{state_before};

/// Where a session's command of some number is a query whose path can be read, and all that it names is there, the reply of that number names, document by
/// document in the order of loading, the elements that the path selects under the abbreviations of then.
pub fn query_law()
    ensures { (says : Judgement) (session : List ℕ) (number : ℕ) (text : List ℕ) (p : PathForm)
        → Some (Query text) ≡ slice_get (commands session) number → Ok p ≡ path_read text → IsAnswered (state_before says session number) p
        → slice_get (replies_to says session) number ≡ Some (Nodes (flat_map
        (λ (d : Named). map (element_line d.name d.root)
        (selected_in says (state_before says session number).abbreviations (state_before says session number).lists p d.root))
        (documents p.path.root (state_before says session number).documents))) }
{
    session_state::laws::query_law();
}

/// Where it is `show`, and the best hits of the path's last selection can be shown, the reply of that number shows those elements, each by its name
/// and its words, of which those are marked that the best hits cover.
pub fn show_law()
    ensures { (says : Judgement) (session : List ℕ) (number : ℕ) (text : List ℕ) (p : PathForm) (form : Form)
        → Some (Show text) ≡ slice_get (commands session) number → Ok p ≡ path_read text → IsAnswered (state_before says session number) p
        → Some form ≡ shown_form text p
        → slice_get (replies_to says session) number ≡ Some (Shown (flat_map
        (λ (d : Named). flat_map
        (marked_lines (state_before says session number).abbreviations (state_before says session number).lists form d.name d.root)
        (selected_in says (state_before says session number).abbreviations (state_before says session number).lists p d.root))
        (documents p.path.root (state_before says session number).documents))) }
{
    session_state::laws::show_law();
}
