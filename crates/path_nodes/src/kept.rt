ghost use Rattle.std.specs.Prelude.{◌≡◌, ◌∷◌, [], ◌++◌, OnOk, if◌then◌else◌};

use crate::Nodes;
use ft_base::Memory;
use ordered_tree::NodeRef;

/// Puts a node to the end where it is wanted.
pub(crate) fn push_if(wanted: bool, node: NodeRef, nodes: &mut Nodes) -> Result<(), Memory>
    ensures { OnOk result (nodes.new ≡ nodes.old ++ (if wanted then node ∷ [] else [])) }
{
    if wanted {
        nodes.push(node)?;
    }
    Ok(())
}

/// Puts nodes after others.
pub(crate) fn append(nodes: &mut Nodes, more: &Nodes) -> Result<(), Memory>
    ensures { OnOk result (nodes.new ≡ nodes.old ++ more.now) }
{
    for node in more.as_slice() {
        nodes.push(*node)?;
    }
    Ok(())
}
