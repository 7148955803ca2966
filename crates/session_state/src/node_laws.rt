//! What holds of the nodes of a document in an index, and of the words at their spans: each law is the contract of a function that does nothing but
//! call the laws on which it stands.

ghost use Rattle.std.specs.Prelude.{◌≡◌, ℕ, All, Contains, List, [], map, true};
ghost use Rattle.ft_base.specs.declared.ids.NodeRef.{NodeRef};
ghost use Rattle.ft_base.specs.declared.span.Span.{Span};
ghost use Rattle.ft_base.specs.declared.token.Token.{Token};
ghost use Rattle.ignore_view.specs.Holes.{tokens_without};
ghost use Rattle.ignore_view.specs.Without.{without};
ghost use Rattle.index_meaning.specs.Documents as indexed;
ghost use Rattle.index_meaning.specs.Documents.{Document, document_at};
ghost use Rattle.index_phrases.specs.Phrases.{words_at};
ghost use Rattle.index_phrases.specs.Tokens.{IsSpan, span_tokens};
ghost use Rattle.index_updates.specs.Follows.{Follows};
ghost use Rattle.ordered_tree.specs.Numbered.{Numbered};
ghost use Rattle.ordered_tree.specs.Stands.{OnNode, references, span};
ghost use Rattle.path_meaning.specs.Elements.{Element};
ghost use Rattle.path_nodes.specs.References.{IsElement, element_of};
ghost use Rattle.plan_runs.specs.Judgement.{HaveWordsOf};
ghost use Rattle.session_state.specs.IgnoredText.{tokens_left};
ghost use Rattle.session_state.specs.PathPrices.{words_of};
ghost use Rattle.session_state.specs.SelectionTests.{is_there, span_at};
ghost use Rattle.tokenizer.specs.Tokens.{tokens};

use ignore_view::laws::{holes_in_spans, without_is_counted, without_nothing, without_same_places};
use index_phrases::laws::{span_numbers_law, span_tokens_law};
use ordered_tree::laws::{count_law, one_node_law, shift_law, words_inside_law};
use path_nodes::laws::spots_law;
use tokenizer::words_law;

/// A reference that names a node is one of the document's, and a span that is found of the node is the one at which runs are asked.
pub fn node_law()
    ensures there { (root : Numbered) (r : NodeRef) → is_there root r ≡ true → Contains (references root) r }
    ensures span { (root : Numbered) (r : NodeRef) (at : Span) → is_there root r ≡ true → OnNode root r (λ s. at ≡ span s) → at ≡ span_at root r }
    ensures element { (root : Numbered) (r : NodeRef) → IsElement root r → OnNode root r (λ s. span_at root r ≡ span s) }
{
    spots_law();
    one_node_law();
}

/// Where a version follows a tree, the span of a node is one of the document, and has the tokens and the words of the node.
pub fn span_law()
    ensures there { (abbreviations : List (List ℕ)) (version : List indexed.Numbered) (doc : ℕ) (root : Numbered) (r : NodeRef)
        → Follows abbreviations version doc root → is_there root r ≡ true → IsSpan (span_at root r) (document_at doc version) }
    ensures tokens { (abbreviations : List (List ℕ)) (version : List indexed.Numbered) (doc : ℕ) (root : Numbered) (r : NodeRef)
        → Follows abbreviations version doc root → is_there root r ≡ true
        → span_tokens (span_at root r) (document_at doc version) ≡ tokens abbreviations (element_of root r).node }
    ensures words { (abbreviations : List (List ℕ)) (version : List indexed.Numbered) (doc : ℕ) (root : Numbered) (r : NodeRef)
        → Follows abbreviations version doc root → is_there root r ≡ true
        → words_at (span_at root r) (document_at doc version) ≡ words_of (element_of root r) }
{
    spots_law();
    words_inside_law();
    shift_law();
    words_law();
    index_updates::laws::words_law();
    span_tokens_law();
    span_numbers_law();
}

/// Where nothing is ignored all tokens of an element are left. What is left of its span without those of others is what is left of the element
/// without them, and its words are some of its own.
pub fn left_law()
    ensures nothing { (abbreviations : List (List ℕ)) (e : Element) → tokens_left abbreviations [] e ≡ tokens abbreviations e.node }
    ensures span { (abbreviations : List (List ℕ)) (root : Numbered) (r : NodeRef) (others : List NodeRef) (document : Document)
        → is_there root r ≡ true → All (λ other. is_there root other ≡ true) others
        → span_tokens (span_at root r) document ≡ tokens abbreviations (element_of root r).node
        → tokens_without (span_at root r) (map (span_at root) others) document
        ≡ tokens_left abbreviations (map (element_of root) others) (element_of root r) }
    ensures words { (tokens : List Token) (holes : List Span) → HaveWordsOf (without tokens holes) tokens }
{
    words_law();
    count_law();
    without_nothing();
    without_same_places();
    without_is_counted();
    holes_in_spans();
}
