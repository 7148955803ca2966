ghost use Rattle.std.specs.Prelude.{◌≡◌, [], ◌∷◌, ◌++◌, IfOk, MatchOption};
ghost use Rattle.plain_tree.specs.View.{node};
ghost use Rattle.tokenizer.specs.Parts.{events};
ghost use Rattle.tokenizer.specs.steps.Walks.{event_of, stack_left, events_left};

use ft_base::{Line, Memory};
use plain_tree::{Kids, Tree};
use std::alloc::Global;

/// A tag or a text.
#[derive(Clone, Copy)]
pub(crate) enum Event<'a> {
    /// A start tag or an end tag, by its element's name.
    Tag(&'a str),
    Text(&'a str),
}

/// An element whose start tag was passed, and the number of its children that were begun.
#[derive(Drop)]
pub(crate) struct Open<'a> {
    name: &'a Line,
    kids: &'a Kids,
    begun: usize,
}

/// A walk over the tags and texts of a tree, in the order in which it is written. It keeps the open elements on a stack
/// of its own, so that a deep tree takes no more of the program's stack than a flat one.
#[derive(Drop)]
pub(crate) struct Walk<'a> {
    root: Option<&'a Tree>,
    elements: Vec<Open<'a>>,
}

impl<'a> Walk<'a> {
    pub(crate) fn new(alloc: Global, root: &'a Tree) -> Walk<'a>
        ensures { events_left result ≡ events (node root.now) }
    {
        Walk {
            root: Some(root),
            elements: Vec::new(alloc),
        }
    }

    /// The next tag or text.
    pub(crate) fn next(&mut self) -> Result<Option<Event<'a>>, Memory>
        ensures { IfOk result (λ next. MatchOption next (events_left self.old ≡ [])
            (λ event. events_left self.old ≡ event_of event ∷ events_left self.new)) }
    {
        if let Some(root) = self.root.take() {
            return Ok(Some(begin(&mut self.elements, root)?));
        }
        let Some(element) = self.elements.pop() else {
            return Ok(None);
        };
        if element.begun >= element.kids.len() {
            return Ok(Some(Event::Tag(element.name.as_str())));
        }
        let kid = element.kids.get(element.begun);
        self.elements.push(Open {
            name: element.name,
            kids: element.kids,
            begun: element.begun + 1,
        })?;
        Ok(Some(begin(&mut self.elements, kid)?))
    }
}

/// The first tag or text of a tree. An element is then the innermost of the open ones.
fn begin<'a>(elements: &mut Vec<Open<'a>>, tree: &'a Tree) -> Result<Event<'a>, Memory>
    ensures { IfOk result (λ event. events (node tree.now) ++ stack_left elements.old.items
        ≡ event_of event ∷ stack_left elements.new.items) }
{
    match tree {
        Tree::Text { text } => Ok(Event::Text(text.as_str())),
        Tree::Elem { name, kids, .. } => {
            elements.push(Open {
                name,
                kids,
                begun: 0,
            })?;
            Ok(Event::Tag(name.as_str()))
        }
    }
}
