ghost use Rattle.std.specs.Prelude.{◌≡◌, Some};
ghost use Rattle.path_meaning.specs.Meaning as meaning;
ghost use Rattle.path_nodes.specs.References.{IsElement, element_of};

use ft_base::Line;
use ordered_tree::{DocTree, NodeRef};

/// Whether the element has an attribute of this name and, where a value is wanted, the first one has that value.
pub(crate) fn has_attribute(
    tree: &DocTree,
    node: NodeRef,
    name: &Line,
    value: &Option<Line>,
) -> bool
    requires { IsElement tree.now.root node }
    ensures { result ≡ meaning.has_value value.now (meaning.value_of name.now (element_of tree.now.root node).node) }
{
    match tree.attr(node, name.as_str()) {
        Some(found) => is_wanted(value, found),
        None => false,
    }
}

/// Whether a value is the wanted one, where one is wanted.
fn is_wanted(wanted: &Option<Line>, value: &str) -> bool
    ensures { result ≡ meaning.has_value wanted.now (Some value.now) }
{
    match wanted {
        Some(wanted) => wanted.as_str() == value,
        None => true,
    }
}
