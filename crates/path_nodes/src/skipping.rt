ghost use Rattle.std.specs.Prelude.{◌≡◌, ◌≤◌, map, true};
ghost use Rattle.path_grammar.specs.Form as form;
ghost use Rattle.path_grammar.specs.View as view;
ghost use Rattle.path_nodes.specs.Asked.{OfPredicates, MayAsk};
ghost use Rattle.path_nodes.specs.References.{IsElement, element_of};
ghost use Rattle.path_nodes.specs.steps.RuledOut.{KeepNoneUnder, KeepNothing};

use crate::TextTest;
use crate::ruling_out::skip_predicates;
use ft_base::Span;
use ordered_tree::{DocTree, NodeRef};
use path_grammar::Predicates;

/// Positions of words from `from` on and before `to`: predicates are known to keep no element whose words stand there.
#[derive(Clone, Copy)]
pub(crate) struct Stretch {
    pub(crate) from: u32,
    pub(crate) to: u32,
}

impl Stretch {
    /// Nothing is known so far.
    pub(crate) fn new() -> Stretch
        ensures { result.to ≡ 0 }
    {
        Stretch { from: 0, to: 0 }
    }

    /// Whether all positions of a span are in it.
    fn holds(&self, span: Span) -> bool
        ensures after { result ≡ true → self.now.from ≤ span.from }
        ensures ends_before { result ≡ true → span.to ≤ self.now.to }
    {
        self.from <= span.from && span.to <= self.to
    }
}

/// Whether predicates are known to keep no element at or below this one: what the test knows by now is asked for, unless the stretch
/// that it told last has the element's words.
pub(crate) fn is_skipped<T: TextTest>(
    tree: &DocTree,
    predicates: &Predicates,
    element: NodeRef,
    test: &T,
    stretch: &mut Stretch,
) -> bool
    requires element { IsElement tree.now.root element }
    requires asked { OfPredicates (MayAsk tree.now.root (T.meaning test.now)) (form.predicates (map view.predicate predicates.now)) }
    requires stretch { KeepNothing tree.now.root (T.meaning test.now) stretch.old.from stretch.old.to
        (form.predicates (map view.predicate predicates.now)) }
    ensures kept { result ≡ true
        → KeepNoneUnder tree.now.root (T.meaning test.now) (form.predicates (map view.predicate predicates.now)) (element_of tree.now.root element) }
    ensures stretch { KeepNothing tree.now.root (T.meaning test.now) stretch.new.from stretch.new.to
        (form.predicates (map view.predicate predicates.now)) }
{
    if predicates.is_empty() {
        return false;
    }
    let span = tree.span_of(element);
    ask_beyond(tree, predicates, span, test, stretch);
    stretch.holds(span)
}

/// Asks up to where predicates are known to keep nothing from a span's first position on, where the span isn't in the stretch.
fn ask_beyond<T: TextTest>(
    tree: &DocTree,
    predicates: &Predicates,
    span: Span,
    test: &T,
    stretch: &mut Stretch,
)
    requires asked { OfPredicates (MayAsk tree.now.root (T.meaning test.now)) (form.predicates (map view.predicate predicates.now)) }
    requires stretch { KeepNothing tree.now.root (T.meaning test.now) stretch.old.from stretch.old.to
        (form.predicates (map view.predicate predicates.now)) }
    ensures { KeepNothing tree.now.root (T.meaning test.now) stretch.new.from stretch.new.to
        (form.predicates (map view.predicate predicates.now)) }
{
    if stretch.holds(span) {
        return;
    }
    *stretch = Stretch {
        from: span.from,
        to: skip_predicates(tree, predicates, span.from, test),
    };
}
