//! The includes of the present way of a node, put one after the other into memory that was taken before.

ghost use Rattle.std.specs.Prelude.{◌≡◌, ◌≤◌, ◌<◌, ◌++◌, ◌∷◌, [], length, drop, option_to_list, vec_capacity};
ghost use Rattle.ft_operators.specs.declared.course.Course.{Course};
ghost use Rattle.all_matches.specs.Filters.{after};
ghost use Rattle.all_matches.specs.Join.{join};
ghost use Rattle.ft_operators.specs.steps.Forms.{phrase_of};
ghost use Rattle.ft_operators.specs.steps.Nodes.{standing};
ghost use Rattle.ft_operators.specs.steps.Walking.{Gathered, IsHeld, Replaced};

use crate::PhraseHits;
use crate::node::Node;
use ft_base::{Filter, Hit};
use window_distance::{Includes, join};

/// Puts the includes of the present way of the node after the hits that are held, where there is room for them.
pub(crate) fn gather<P: PhraseHits>(node: &Node<P>, held: &mut Vec<Hit>)
    ensures { (course : Course) → Gathered (standing P.state course node.now)
        (vec_capacity held.old) (vec_capacity held.new) held.old.items held.new.items }
{
    match node {
        Node::Phrase(phrase) => put_present(phrase, held),
        Node::Choice(fork) => {
            if fork.second {
                gather(&fork.right, held);
            } else {
                gather(&fork.left, held);
            }
        }
        Node::Both(pair) => {
            gather(&pair.left, held);
            gather(&pair.right, held);
        }
        Node::MildNot(pair) => gather(&pair.left, held),
        Node::Negated(_) => {}
        Node::Filtered(sieve) => {
            let place = held.len();
            gather(&sieve.operand, held);
            replace_after(&sieve.kind, place, held);
        }
    }
}

/// Holds the includes of the present way of the node alone, where the walk is at one.
pub(crate) fn hold<P: PhraseHits>(node: &Node<P>, there: bool, held: &mut Vec<Hit>)
    ensures { (course : Course) → IsHeld there (standing P.state course node.now) (vec_capacity held.old) (vec_capacity held.new) held.new.items }
{
    if there {
        held.clear();
        gather(node, held);
    }
}

/// Puts the present hit of a phrase, if there is one.
fn put_present<P: PhraseHits>(phrase: &P, held: &mut Vec<Hit>)
    ensures { Gathered (phrase_of (P.state phrase.now)) (vec_capacity held.old) (vec_capacity held.new) held.old.items held.new.items }
{
    if let Some(hit) = phrase.here() {
        put(hit, held);
    }
}

/// Puts a hit, where there is room for it.
fn put(hit: Hit, held: &mut Vec<Hit>)
    ensures hit { length held.old.items < vec_capacity held.old → held.new.items ≡ held.old.items ++ hit ∷ [] }
    ensures from { length held.old.items ≤ length held.new.items }
    ensures room { vec_capacity held.old ≤ vec_capacity held.new }
{
    let _ = held.push(hit);
}

/// Puts what a filter makes of the hits from a place on in their place.
fn replace_after(kind: &Filter, place: usize, held: &mut Vec<Hit>)
    requires { place ≤ length held.old.items }
    ensures { Replaced place (after kind.now (drop place held.old.items))
        (vec_capacity held.old) (vec_capacity held.new) held.old.items held.new.items }
{
    match *kind {
        Filter::Window(..) | Filter::Distance(..) => replace_joined(place, held),
        _ => {}
    }
}

/// Puts the joined hit of the hits from a place on in their place.
fn replace_joined(place: usize, held: &mut Vec<Hit>)
    requires { place ≤ length held.old.items }
    ensures { Replaced place (option_to_list (join (drop place held.old.items)))
        (vec_capacity held.old) (vec_capacity held.new) held.old.items held.new.items }
{
    let joined = join(&Includes::of(&held[place..]));
    held.truncate(place);
    if let Some(hit) = joined {
        put(hit, held);
    }
}
