//! Windows and scopes over phrases that are joined by `ftor` and `ftand`, as a tree of lists of hits.

use crate::field::{Field, field_of};
use crate::position::Position;
use ft_base::{Filter, Memory};
use ft_operators::PhraseHits;
use std::alloc::Global;
use std::mem::drop;

/// A selection of phrases under `ftor`, `ftand`, windows and scopes, nested in any way, and where a pass through the ends of
/// their hits stands.
///
/// It takes all its memory when it is made, and is aimed at one span after the other.
#[cycle(tree)]
#[derive(Drop)]
pub enum NearTree<P> {
    Phrase(NearPhrase<P>),
    /// One of two sides.
    Either(Box<NearPair<P>>),
    /// Both of two sides.
    Both(Box<NearPair<P>>),
    /// What lies in a window, a sentence or a paragraph.
    Within(Box<NearWindow<P>>),
}

/// A phrase: the lists of its hits, as one for each of its variants.
#[derive(Drop)]
pub struct NearPhrase<P> {
    pub(crate) lists: Vec<P>,
    /// The latest start of the hits that were passed.
    pub(crate) start: Option<Position>,
}

/// Two sides of a selection.
#[cycle(tree)]
#[derive(Drop)]
pub struct NearPair<P> {
    pub(crate) left: NearTree<P>,
    pub(crate) right: NearTree<P>,
}

/// A selection under a window or a scope.
#[cycle(tree)]
#[derive(Drop)]
pub struct NearWindow<P> {
    pub(crate) operand: NearTree<P>,
    pub(crate) field: Field,
    /// The latest start of what was passed and lies in the field.
    pub(crate) start: Option<Position>,
}

impl<P: PhraseHits + Drop> NearTree<P> {
    ghost use Rattle.std.specs.Prelude.{◌≡◌, ◌++◌, true, IfOk};
    ghost use Rattle.all_matches.specs.Ways.{either, through_filter, together};
    ghost use Rattle.ft_operators.specs.Standing.{one_aims, two_aims};
    ghost use Rattle.phrase_merges.specs.Near.{is_field};
    ghost use Rattle.phrase_merges.specs.NearTrees.{lists_aims, near_aims, near_lists};
    ghost use Rattle.phrase_merges.specs.Rows.{aims_of};

    /// A phrase, by the lists of its hits.
    pub fn phrase(lists: Vec<P>) -> NearTree<P>
        ensures aims { near_aims P.state result ≡ lists_aims (aims_of P.state lists.items) }
        ensures lists { near_lists P.state result ≡ aims_of P.state lists.items }
    {
        NearTree::Phrase(NearPhrase { lists, start: None })
    }

    /// One side or the other (the standard's FTOr).
    pub fn either(
        alloc: Global,
        left: NearTree<P>,
        right: NearTree<P>,
    ) -> Result<NearTree<P>, Memory>
        ensures aims { IfOk result (λ tree. near_aims P.state tree ≡ two_aims either (near_aims P.state left) (near_aims P.state right)) }
        ensures lists { IfOk result (λ tree. near_lists P.state tree ≡ near_lists P.state left ++ near_lists P.state right) }
    {
        match Box::new(alloc, NearPair { left, right }) {
            Ok(pair) => Ok(NearTree::Either(pair)),
            Err(failed) => {
                drop(failed);
                Err(Memory)
            }
        }
    }

    /// Both sides (the standard's FTAnd).
    pub fn both(alloc: Global, left: NearTree<P>, right: NearTree<P>) -> Result<NearTree<P>, Memory>
        ensures aims { IfOk result (λ tree. near_aims P.state tree ≡ two_aims together (near_aims P.state left) (near_aims P.state right)) }
        ensures lists { IfOk result (λ tree. near_lists P.state tree ≡ near_lists P.state left ++ near_lists P.state right) }
    {
        match Box::new(alloc, NearPair { left, right }) {
            Ok(pair) => Ok(NearTree::Both(pair)),
            Err(failed) => {
                drop(failed);
                Err(Memory)
            }
        }
    }

    /// What a window, `same sentence` or `same paragraph` keeps of the operand (the standard's FTPosFilter).
    pub fn within(
        alloc: Global,
        operand: NearTree<P>,
        filter: Filter,
    ) -> Result<NearTree<P>, Memory>
        requires { is_field filter ≡ true }
        ensures aims { IfOk result (λ tree. near_aims P.state tree ≡ one_aims (λ operator. through_filter operator filter) (near_aims P.state operand)) }
        ensures lists { IfOk result (λ tree. near_lists P.state tree ≡ near_lists P.state operand) }
    {
        let window = NearWindow {
            operand,
            field: field_of(filter),
            start: None,
        };
        match Box::new(alloc, window) {
            Ok(window) => Ok(NearTree::Within(window)),
            Err(failed) => {
                drop(failed);
                Err(Memory)
            }
        }
    }
}
