ghost use Rattle.std.specs.Prelude.{◌≡◌, ◌<◌, length, map, slice_index_or};
ghost use Rattle.ft_syntax.specs.View.{form};
ghost use Rattle.path_grammar.specs.Form as path;
ghost use Rattle.path_grammar.specs.View.{step};
ghost use Rattle.path_subset.specs.Paths.{read_form};

use ft_base::Items;
use ft_syntax::Selection;
use path_grammar::{Path, PathRoot, Steps};

/// A part of a text: how many bytes are before it, and how many before what stands after it.
#[derive(Clone, Copy, Debug, PartialEq, Eq)]
pub struct Extent {
    pub from: usize,
    pub to: usize,
}

/// A selection of a path, and where it stands in the path's text.
#[derive(Drop)]
pub(crate) struct Found {
    pub(crate) selection: Selection,
    pub(crate) extent: Extent,
}

/// A path that was read, with its selections. They are numbered from 0 in the order of the text.
#[derive(Drop)]
pub struct ReadPath {
    pub(crate) path: Path,
    pub(crate) selections: Items<Found>,
}

impl ReadPath {
    /// Where the path begins.
    pub fn root(&self) -> &PathRoot
        ensures { result.now ≡ (read_form self.now).path.root }
    {
        &self.path.root
    }

    /// The steps of the path, one or more.
    pub fn steps(&self) -> &Steps
        ensures { path.steps (map step result.now) ≡ (read_form self.now).path.steps }
    {
        &self.path.steps
    }

    /// How many selections the path has.
    pub fn selection_count(&self) -> usize
        ensures { result ≡ length (read_form self.now).selections }
    {
        self.selections.len()
    }

    /// The selection of that number.
    pub fn selection(&self, number: usize) -> &Selection
        requires { number < length (read_form self.now).selections }
        ensures { form result.now ≡ slice_index_or (map (λ s. s.form) (read_form self.now).selections) number (form result.now) }
    {
        &self.selections.get(number).selection
    }

    /// Where the selection of that number stands in the path's text: from its first symbol to the end of its last.
    pub fn selection_extent(&self, number: usize) -> Extent
        requires { number < length (read_form self.now).selections }
        ensures { result ≡ slice_index_or (map (λ s. s.extent) (read_form self.now).selections) number result }
    {
        self.selections.get(number).extent
    }
}
