//! Compiled selections, opened over a version by themselves.

ghost use Rattle.std.specs.Prelude.{◌≡◌, ◌≤◌, IfOk};
ghost use Rattle.plan_runs.specs.OpenedParts.{IsPart, MayHold, part_of, part_says};

use crate::asked_place::AskedPlace;
use crate::choosing::Opening;
use crate::holding::node_holds;
use crate::opening::open_node;
use crate::run_node::RunNode;
use ft_base::{DocId, Memory, Span, Steps};
use index_versions::Version;
use plan_compiler::Node;
use std::sync::ledger::Ledger;

/// A compiled selection, opened over a version, which says of spans of its documents whether their tokens satisfy it.
#[derive(Drop)]
pub struct OpenedPart<'v> {
    pub(crate) version: &'v Version,
    pub(crate) node: RunNode<'v>,
}

impl<'v> OpenedPart<'v> {
    /// The compiled selection over the version.
    pub fn open(opening: &Opening<'v>, node: &Node) -> Result<OpenedPart<'v>, Memory>
        ensures { IfOk result (λ part. IsPart opening.now.looks opening.now.lists.now.stems opening.now.version.now (part_of part) node.now) }
    {
        let version = opening.version;
        let node = open_node(opening, node)?;
        Ok(OpenedPart { version, node })
    }

    /// Whether the tokens of the span of the document satisfy it. It takes no memory.
    pub fn holds<L: Ledger>(&mut self, doc: DocId, span: Span, moves: &mut Steps<L>) -> bool
        requires { MayHold doc.0 span (part_of self.old) }
        ensures says { result ≡ part_says (part_of self.old) doc.0 span }
        ensures same { part_of self.new ≡ part_of self.old }
        ensures grown { moves.old ≤ moves.new }
    {
        let version = self.version;
        let place = AskedPlace { version, doc, span };
        node_holds(&place, &mut self.node, moves)
    }
}
