ghost use Rattle.std.specs.Prelude.{◌≡◌, [], map};
ghost use Rattle.doc_profile.specs.Faults.{AreWithin};
ghost use Rattle.session_state.specs.declared.edit.Targets.TheVariants as many;
ghost use Rattle.plain_tree.specs.Document.{nodes};
ghost use Rattle.plain_tree.specs.View.{node};

use plain_tree::{How, Kids};

/// How many elements an edit may be of.
#[derive(Clone, Copy)]
pub(crate) enum Targets {
    One,
    Any,
}

/// What is done to elements: content comes into or beside them, or, where it isn't said how, into their place. Content comes to one
/// element alone.
#[derive(Clone, Copy)]
pub(crate) struct Edit<'a> {
    pub(crate) targets: Targets,
    pub(crate) how: Option<How>,
    pub(crate) content: &'a Kids,
    ghost within: { AreWithin (nodes (map node content.now)) },
    ghost once: { targets ≡ many.Any → content.now ≡ [] },
}
