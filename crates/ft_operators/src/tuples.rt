//! The ways in which a selection with filters may be satisfied, by the hits that each needs.

ghost use Rattle.std.specs.Prelude.{◌≤◌, vec_capacity};
ghost use Rattle.ft_operators.specs.steps.Nodes.{shape_of};

use crate::PhraseHits;
use crate::aiming::aim_node;
use crate::building::{both_node, choice_node, filtered_node, mild_not_node, negated_node};
use crate::chain::Chain;
use crate::chain_room::{ChainRoom, no_room, wider, with_filter};
use crate::choosing::sieve_window;
use crate::cleaning::{is_clean, some_is_clean};
use crate::comparing::least_of_clean;
use crate::course::{every, tellings};
use crate::gathering::hold;
use crate::joining::joined_memory;
use crate::measuring::told_of;
use crate::node::Node;
use crate::ordering::comes_in_order;
use crate::own_span::own_span;
use crate::walking::{first, go_on};
use all_matches::Window;
use ft_base::{DocId, Filter, Hit, Memory, Span, Steps};
use std::alloc::Global;
use std::mem::drop;
use std::sync::ledger::Ledger;
use window_distance::Includes;

/// A selection whose phrases are aimed at a span of a document, and a walk through the ways in which its includes, its
/// sides and its windows can be chosen, from the first to the last.
///
/// It takes all its memory when it is made. Aiming it and walking take none, so that it is made once and aimed at one
/// span after the other.
#[derive(Drop)]
pub struct Tuples<P> {
    pub(crate) node: Node<P>,
    pub(crate) item: Span,
    /// Whether the walk is at a way.
    pub(crate) there: bool,
    /// The includes of the way.
    pub(crate) held: Vec<Hit>,
    /// How much room a chain needs.
    room: ChainRoom,
    ghost fits: { (shape_of node).room ≤ vec_capacity held },
    ghost filters: { (shape_of node).filters ≤ room.filters },
    ghost hits: { (shape_of node).hits ≤ room.hits },
}

impl<P: PhraseHits + Drop> Tuples<P> {
    ghost use Rattle.std.specs.Prelude.{◌≡◌, ◌≤◌, [], filter, map, true, vec_capacity, IfOk, OnOk};
    ghost use Rattle.ft_base.specs.Lists.{is_not_empty};
    ghost use Rattle.all_matches.specs.Boolean.{satisfied};
    ghost use Rattle.all_matches.specs.Chain.{kept_by};
    ghost use Rattle.all_matches.specs.Ways.{apart, either, is_plain, matches_of, negated, through_filter, together};
    ghost use Rattle.all_matches.specs.Ways.{clean_under, way_includes, ways_of};
    ghost use Rattle.best_hits.specs.Best.{spans_of};
    ghost use Rattle.best_hits.specs.Least.{least as least_of};
    ghost use Rattle.ft_operators.specs.Chains.{clean_now, links_of, outer_window, spare_filters, spare_hits, IsKept};
    ghost use Rattle.ft_operators.specs.Tuples.{room_of, walk_of};
    ghost use Rattle.ft_operators.specs.Walk.{aimed_walk, at_first_way, at_next_way, before_first, joined_walk, made_walk, nowhere, own_span};
    ghost use Rattle.ft_operators.specs.Walk.{phrase_walk, tuple_of, walk_at};
    ghost use Rattle.ft_operators.specs.steps.Nodes.{frame_of, shape_of};

    /// The hits of one phrase.
    pub fn one(alloc: Global, phrase: P) -> Result<Tuples<P>, Memory>
        ensures { IfOk result (λ tuples. walk_of P.state tuples ≡ phrase_walk (P.state phrase)) }
    {
        let held = Vec::with_capacity(alloc, 1)?;
        Ok(Tuples::unaimed(Node::Phrase(phrase), held, no_room()))
    }

    /// The ways of one side or the other (the standard's FTOr).
    pub fn choice(alloc: Global, left: Tuples<P>, right: Tuples<P>) -> Result<Tuples<P>, Memory>
        ensures { IfOk result (λ tuples. walk_of P.state tuples ≡ joined_walk either (walk_of P.state left) (walk_of P.state right)) }
    {
        let Ok(held) = joined_memory(alloc, &left.held, &right.held) else {
            drop((left, right));
            return Err(Memory);
        };
        let node = choice_node(alloc, left.node, right.node)?;
        Ok(Tuples::unaimed(node, held, wider(left.room, right.room)))
    }

    /// A way of the one side with a way of the other (the standard's FTAnd).
    pub fn both(alloc: Global, left: Tuples<P>, right: Tuples<P>) -> Result<Tuples<P>, Memory>
        ensures { IfOk result (λ tuples. walk_of P.state tuples ≡ joined_walk together (walk_of P.state left) (walk_of P.state right)) }
    {
        let Ok(held) = joined_memory(alloc, &left.held, &right.held) else {
            drop((left, right));
            return Err(Memory);
        };
        let node = both_node(alloc, left.node, right.node)?;
        Ok(Tuples::unaimed(node, held, wider(left.room, right.room)))
    }

    /// The ways of the left side that stand out of each way of the right one (the standard's FTMildNot).
    pub fn mild_not(alloc: Global, left: Tuples<P>, right: Tuples<P>) -> Result<Tuples<P>, Memory>
        ensures { IfOk result (λ tuples. walk_of P.state tuples ≡ joined_walk apart (walk_of P.state left) (walk_of P.state right)) }
    {
        let Ok(held) = joined_memory(alloc, &left.held, &right.held) else {
            drop((left, right));
            return Err(Memory);
        };
        let node = mild_not_node(alloc, left.node, right.node)?;
        Ok(Tuples::unaimed(node, held, left.room))
    }

    /// The one way of a negated selection, which has no include (the standard's FTUnaryNot).
    pub fn negated(alloc: Global, operand: Tuples<P>) -> Result<Tuples<P>, Memory>
        ensures { IfOk result (λ tuples. walk_of P.state tuples ≡ made_walk negated (walk_of P.state operand)) }
    {
        let node = negated_node(alloc, operand.node)?;
        Ok(Tuples::unaimed(node, operand.held, no_room()))
    }

    /// The ways of the operand that go through a filter, each once for each window that a window filter has (the
    /// standard's FTPosFilter).
    pub fn filtered(alloc: Global, operand: Tuples<P>, filter: Filter) -> Result<Tuples<P>, Memory>
        ensures { IfOk result (λ tuples. walk_of P.state tuples ≡ made_walk (λ operator. through_filter operator filter) (walk_of P.state operand)) }
    {
        let Some(room) = with_filter(operand.room, &operand.held) else {
            drop(operand);
            return Err(Memory);
        };
        let node = filtered_node(alloc, operand.node, filter)?;
        Ok(Tuples::unaimed(node, operand.held, room))
    }

    /// The node with memory for its hits, before the first way.
    fn unaimed(node: Node<P>, held: Vec<Hit>, room: ChainRoom) -> Tuples<P>
        requires fits { (shape_of node).room ≤ vec_capacity held }
        requires filters { (shape_of node).filters ≤ room.filters }
        requires hits { (shape_of node).hits ≤ room.hits }
        ensures { walk_of P.state result ≡ before_first nowhere (frame_of P.state node).aims (frame_of P.state node).operator }
    {
        Tuples {
            node,
            item: Span { from: 1, to: 1 },
            there: false,
            held,
            room,
        }
    }

    /// For how many filters, and for how many includes before them, a chain must have room where it is asked whether
    /// a way is clean. No call changes it.
    pub fn room(&self) -> (usize, usize)
        ensures filters { result.0 ≡ (room_of self.now).filters }
        ensures hits { result.1 ≡ (room_of self.now).hits }
    {
        (self.room.filters, self.room.hits)
    }

    /// Aims the phrases at the span of the document, and stands before the first way there. The item of filters is
    /// the span, told in its own numbers.
    pub fn aim<L: Ledger>(&mut self, doc: DocId, span: Span, steps: &mut Steps<L>)
        requires { (walk_of P.state self.old).aims.may doc.0 span ≡ true }
        ensures walk { walk_of P.state self.new ≡ aimed_walk doc.0 span (walk_of P.state self.old) }
        ensures room { room_of self.new ≡ room_of self.old }
        ensures grown { steps.old ≤ steps.new }
    {
        aim_node(&mut self.node, doc, span, steps);
        self.item = own_span(span);
        self.there = false;
    }

    /// Goes to the first way, and says whether there is one.
    pub fn first<L: Ledger>(&mut self, steps: &mut Steps<L>) -> bool
        ensures walk { walk_of P.state self.new ≡ at_first_way (walk_of P.state self.old) }
        ensures there { result ≡ is_not_empty ((walk_of P.state self.new).rest) }
        ensures room { room_of self.new ≡ room_of self.old }
        ensures grown { steps.old ≤ steps.new }
    {
        let every = every(self.item);
        self.there = first(&mut self.node, every, &mut self.held, steps);
        hold(&self.node, self.there, &mut self.held);
        self.there
    }

    /// Goes from a way to the next one, and says whether there is one.
    pub fn next<L: Ledger>(&mut self, steps: &mut Steps<L>) -> bool
        requires { is_not_empty ((walk_of P.state self.old).rest) ≡ true }
        ensures walk { walk_of P.state self.new ≡ at_next_way (walk_of P.state self.old) }
        ensures there { result ≡ is_not_empty ((walk_of P.state self.new).rest) }
        ensures room { room_of self.new ≡ room_of self.old }
        ensures grown { steps.old ≤ steps.new }
    {
        let every = every(self.item);
        self.there = go_on(&mut self.node, every, &mut self.held, steps);
        hold(&self.node, self.there, &mut self.held);
        self.there
    }

    /// The includes of the way, and `None` exactly before the first one and at the end.
    pub fn here(&self) -> Option<Includes<'_>>
        ensures { result ≡ (walk_of P.state self.now).tuple }
    {
        if self.there {
            Some(Includes::of(&self.held))
        } else {
            None
        }
    }

    /// The window of the way, where the outermost operator is a window filter; `None` too before the first way and
    /// at the end.
    pub fn window(&self) -> Option<Window>
        requires { (walk_of P.state self.now).tuple ≡ tuple_of ((walk_of P.state self.now).rest) }
        ensures { result ≡ outer_window ((walk_of P.state self.now).operator) ((walk_of P.state self.now).rest) }
    {
        if !self.there {
            return None;
        }
        match &self.node {
            Node::Filtered(sieve) => sieve_window(sieve, &self.held),
            Node::Phrase(_) => None,
            Node::Choice(_) => None,
            Node::Both(_) => None,
            Node::MildNot(_) => None,
            Node::Negated(_) => None,
        }
    }

    /// Whether the negated selections that the way is made of leave no exclude which the filters round them and those of
    /// the chain keep. They stand neither inside one another nor inside mild not; else nothing is said of the answer.
    pub fn clean<L: Ledger>(&mut self, chain: &mut Chain, steps: &mut Steps<L>) -> bool
        requires there { is_not_empty ((walk_of P.state self.old).rest) ≡ true }
        requires filters { (room_of self.old).filters ≤ spare_filters chain.old }
        requires hits { (room_of self.old).hits ≤ spare_hits chain.old }
        ensures clean { is_plain ((walk_of P.state self.old).operator) ≡ true
            → result ≡ clean_now (kept_by (links_of chain.old)) ((walk_of P.state self.old).rest) }
        ensures walk { walk_of P.state self.new ≡ walk_at ((walk_of P.state self.old).rest) (walk_of P.state self.old) }
        ensures room { room_of self.new ≡ room_of self.old }
        ensures chain { IsKept chain.old chain.new }
        ensures grown { steps.old ≤ steps.new }
    {
        let every = every(self.item);
        let clean = is_clean(&mut self.node, every, chain, &mut self.held, steps);
        hold(&self.node, self.there, &mut self.held);
        clean
    }

    /// Aims the phrases at the span of the document, and says whether the selection is satisfied there: whether one of
    /// its ways leaves no exclude. Negated selections stand neither inside one another nor inside mild not; else nothing
    /// is said of the answer.
    ///
    /// However large the windows of a filter are, in a way of its operand it goes through no more of them than the first
    /// number of the joined hit and one: those that begin at a word, and the first one. Where a distance with a greatest
    /// value stands inside, or a mild not, it looks at each hit before it goes through the ways.
    pub fn satisfied_at<L: Ledger>(
        &mut self,
        doc: DocId,
        span: Span,
        chain: &mut Chain,
        steps: &mut Steps<L>,
    ) -> bool
        requires may { (walk_of P.state self.old).aims.may doc.0 span ≡ true }
        requires none { links_of chain.old ≡ [] }
        requires filters { (room_of self.old).filters ≤ spare_filters chain.old }
        requires hits { (room_of self.old).hits ≤ spare_hits chain.old }
        ensures answer { is_plain ((walk_of P.state self.old).aims.operators doc.0 span) ≡ true
            → result ≡ satisfied (matches_of (own_span span) ((walk_of P.state self.old).aims.operators doc.0 span)) }
        ensures walk { walk_of P.state self.new ≡ aimed_walk doc.0 span (walk_of P.state self.old) }
        ensures room { room_of self.new ≡ room_of self.old }
        ensures chain { IsKept chain.old chain.new }
        ensures grown { steps.old ≤ steps.new }
    {
        self.aim(doc, span, steps);
        let told = told_of(&mut self.node, steps);
        let tellings = tellings(self.item, told.extents, told.beside);
        some_is_clean(&mut self.node, tellings, chain, &mut self.held, steps)
    }

    /// Aims the phrases at the span of the document, and puts the includes of one of its clean ways in the place of what `least` holds:
    /// those that come first, hit by hit by their places; and no hit where no way is clean. Negated selections stand neither inside one
    /// another nor inside mild not; else nothing is said of what is put. It goes through no more ways than `satisfied_at` does where none is
    /// clean and, where one hit of each of some phrases is chosen and no filter joins them, ends at the first clean one. It takes no memory
    /// but for `least`.
    pub fn least_at<L: Ledger>(
        &mut self,
        doc: DocId,
        span: Span,
        chain: &mut Chain,
        least: &mut Vec<Hit>,
        steps: &mut Steps<L>,
    ) -> Result<(), Memory>
        requires may { (walk_of P.state self.old).aims.may doc.0 span ≡ true }
        requires none { links_of chain.old ≡ [] }
        requires filters { (room_of self.old).filters ≤ spare_filters chain.old }
        requires hits { (room_of self.old).hits ≤ spare_hits chain.old }
        ensures least { OnOk result (is_plain ((walk_of P.state self.old).aims.operators doc.0 span) ≡ true
            → spans_of least.new.items ≡ spans_of (least_of (map way_includes
            (filter (clean_under (kept_by [])) (ways_of (own_span span) ((walk_of P.state self.old).aims.operators doc.0 span)))))) }
        ensures walk { walk_of P.state self.new ≡ aimed_walk doc.0 span (walk_of P.state self.old) }
        ensures room { room_of self.new ≡ room_of self.old }
        ensures chain { IsKept chain.old chain.new }
        ensures grown { steps.old ≤ steps.new }
    {
        self.aim(doc, span, steps);
        let in_order = comes_in_order(&mut self.node, steps);
        let told = told_of(&mut self.node, steps);
        let tellings = tellings(self.item, told.extents, told.beside);
        least_of_clean(
            &mut self.node,
            tellings,
            in_order,
            chain,
            &mut self.held,
            least,
            steps,
        )
    }
}
