//! Whether documents would exceed a limit after an edit.

ghost use Rattle.std.specs.Prelude.{◌≡◌, map, nat_lt};
ghost use Rattle.std.specs.List.{list_any};
ghost use Rattle.doc_grammar.specs.Limits.{height, node_count};
ghost use Rattle.ft_base.specs.Limits.{max_depth, max_nodes, max_tokens};
ghost use Rattle.ordered_tree.specs.Counts.{word_count};
ghost use Rattle.document_store.specs.Documents.{limit_of};
ghost use Rattle.document_store.specs.steps.Planning.{root_after};

use crate::fault::NotEdited;
use crate::planning::Planned;
use ft_base::{MAX_DEPTH, MAX_NODES, MAX_TOKENS};

/// The limit that some of the documents exceed that an edit makes.
pub(crate) fn exceeded(planned: &[Planned]) -> Option<NotEdited>
    ensures { result ≡ limit_of (map root_after planned.now) }
{
    if any_too_deep(planned) {
        Some(NotEdited::TooDeep)
    } else if any_with_too_many_nodes(planned) {
        Some(NotEdited::TooManyNodes)
    } else if any_with_too_many_tokens(planned) {
        Some(NotEdited::TooManyTokens)
    } else {
        None
    }
}

/// Whether one of the documents has too many levels of elements after the edit.
fn any_too_deep(planned: &[Planned]) -> bool
    ensures { result ≡ list_any (λ p. nat_lt max_depth (height (root_after p))) planned.now }
{
    planned.iter().any(|one| is_too_deep(one))
}

/// Whether one of them has too many elements and texts.
fn any_with_too_many_nodes(planned: &[Planned]) -> bool
    ensures { result ≡ list_any (λ p. nat_lt max_nodes (node_count (root_after p))) planned.now }
{
    planned.iter().any(|one| has_too_many_nodes(one))
}

/// Whether one of them has too many tokens.
fn any_with_too_many_tokens(planned: &[Planned]) -> bool
    ensures { result ≡ list_any (λ p. nat_lt max_tokens (word_count (root_after p))) planned.now }
{
    planned.iter().any(|one| has_too_many_tokens(one))
}

/// Whether the document has too many levels of elements after the edit.
fn is_too_deep(planned: &Planned) -> bool
    ensures { result ≡ nat_lt max_depth (height (root_after planned.now)) }
{
    planned.draft.depth() > MAX_DEPTH
}

/// Whether it has too many elements and texts.
fn has_too_many_nodes(planned: &Planned) -> bool
    ensures { result ≡ nat_lt max_nodes (node_count (root_after planned.now)) }
{
    planned.draft.node_count() > MAX_NODES
}

/// Whether it has too many tokens.
fn has_too_many_tokens(planned: &Planned) -> bool
    ensures { result ≡ nat_lt max_tokens (word_count (root_after planned.now)) }
{
    planned.draft.has_more_tokens_than(MAX_TOKENS)
}
