ghost use Rattle.std.specs.Prelude.{◌≡◌, ℕ, List, Contains, IfSome, IsTrue, Some, option_map};
ghost use Rattle.ordered_tree.specs.Numbered.{plain, is_element, has_name, name_of, attrs_of, attribute, children, first_of};
ghost use Rattle.ordered_tree.specs.Part.{part};
ghost use Rattle.ordered_tree.specs.Stands.{OnNode, references, span};
ghost use Rattle.tokenizer.specs.Tokens.{tokens};

use crate::attrs::find_attr;
use crate::element_name::{ElementName, LONGEST_MARKED, marked_name, same_mark};
use crate::slot::Held;
use crate::{DocTree, NodeRef};
use ft_base::Span;

impl DocTree {
    /// Whether the node is an element; else it is a text.
    pub fn is_element(&self, node: NodeRef) -> bool
        requires { Contains (references self.now.root) node }
        ensures { OnNode self.now.root node (λ s. result ≡ is_element s.node) }
    {
        self.head(node).mark[LONGEST_MARKED] != 0
    }

    /// Whether the node is an element of this name.
    pub fn is_named(&self, node: NodeRef, wanted: &ElementName<'_>) -> bool
        requires { Contains (references self.now.root) node }
        ensures { OnNode self.now.root node (λ s. result ≡ has_name wanted.now.name.now s.node) }
    {
        if !same_mark(&self.head(node).mark, &wanted.mark) {
            return false;
        }
        wanted.name.len() <= LONGEST_MARKED || self.holds_name(node, wanted.name)
    }

    /// The same, by the name itself.
    fn holds_name(&self, node: NodeRef, wanted: &str) -> bool
        requires { Contains (references self.now.root) node }
        ensures { OnNode self.now.root node (λ s. result ≡ has_name wanted.now s.node) }
    {
        match self.slot(node).held {
            Held::Element { name, .. } => name.as_str() == wanted,
            Held::Text { .. } | Held::Free => false,
        }
    }

    /// The name of an element.
    pub fn name(&self, node: NodeRef) -> &str
        requires there { Contains (references self.now.root) node }
        requires element { OnNode self.now.root node (λ s. IsTrue (is_element s.node)) }
        ensures { OnNode self.now.root node (λ s. name_of s.node ≡ Some result.now) }
    {
        match marked_name(&self.head(node).mark) {
            Some(name) => name,
            None => self.kept_name(node),
        }
    }

    /// The same, where the name itself is kept.
    fn kept_name(&self, node: NodeRef) -> &str
        requires there { Contains (references self.now.root) node }
        requires element { OnNode self.now.root node (λ s. IsTrue (is_element s.node)) }
        ensures { OnNode self.now.root node (λ s. name_of s.node ≡ Some result.now) }
    {
        match self.slot(node).held {
            Held::Element { name, .. } => name.as_str(),
            Held::Text { .. } | Held::Free => "",
        }
    }

    /// The value of a node's attribute of this name; a text has no attributes.
    pub fn attr(&self, node: NodeRef, name: &str) -> Option<&str>
        requires { Contains (references self.now.root) node }
        ensures { OnNode self.now.root node (λ s. option_map (λ value. value.now) result ≡ attribute name.now (attrs_of s.node)) }
    {
        match self.slot(node).held {
            Held::Element { attrs, .. } => find_attr(attrs, name),
            Held::Text { .. } | Held::Free => None,
        }
    }

    /// The first child of a node; a text has none.
    pub fn first_child(&self, node: NodeRef) -> Option<NodeRef>
        requires { Contains (references self.now.root) node }
        ensures first { OnNode self.now.root node (λ s. result ≡ first_of (children s.node)) }
        ensures there { IfSome result (Contains (references self.now.root)) }
    {
        self.head(node).first_child.node()
    }

    /// The sibling after a node.
    pub fn next(&self, node: NodeRef) -> Option<NodeRef>
        requires { Contains (references self.now.root) node }
        ensures next { OnNode self.now.root node (λ s. result ≡ s.around.next) }
        ensures there { IfSome result (Contains (references self.now.root)) }
    {
        self.head(node).next.node()
    }

    /// The element of which a node is a child; the root has none.
    pub fn parent(&self, node: NodeRef) -> Option<NodeRef>
        requires { Contains (references self.now.root) node }
        ensures parent { OnNode self.now.root node (λ s. result ≡ s.around.parent) }
        ensures there { IfSome result (Contains (references self.now.root)) }
    {
        self.head(node).parent.node()
    }

    /// The positions of the node's words in the document, counted from 1.
    pub fn span_of(&self, node: NodeRef) -> Span
        requires { Contains (references self.now.root) node }
        ensures positions { OnNode self.now.root node (λ s. result ≡ span s) }
        ensures tokens { (abbreviations : List (List ℕ))
            → OnNode self.now.root node (λ s. part (tokens abbreviations (plain self.now.root)) result ≡ tokens abbreviations (plain s.node)) }
    {
        let head = self.head(node);
        let from = head.before + 1;
        Span {
            from,
            to: from + head.words,
        }
    }
}
