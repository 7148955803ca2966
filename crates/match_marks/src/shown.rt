//! Selections that are compiled to be shown, opened over a version of the index.

ghost use Rattle.std.specs.Prelude.{◌≡◌, ◌<◌, ◌≤◌, []};
ghost use Rattle.ft_operators.specs.Chains.{links_of, spare_filters, spare_hits};
ghost use Rattle.ft_operators.specs.Tuples.{room_of};

use ft_base::Hit;
use ft_operators::{Chain, Tuples};
use index_phrases::PhraseCursor;
use plan_runs::OpenedPart;

/// What is shown of a selection, over a version.
#[cycle(shown)]
#[derive(Drop)]
pub(crate) enum Shown<'v> {
    /// Words: the includes of their first ways.
    First(FirstRun<'v>),
    /// The first part that holds.
    Or(Vec<ShownRun<'v>>),
    /// Each part, one after the other.
    And(Vec<Shown<'v>>),
    Nothing,
    /// A selection with filters or `not in`: the least includes of its clean ways.
    Least(LeastRun<'v>),
    /// A window in words round phrases: the joined hit of the least way.
    Window(WindowRun<'v>),
}

/// A part of a choice.
#[cycle(shown)]
#[derive(Drop)]
pub(crate) struct ShownRun<'v> {
    pub(crate) part: OpenedPart<'v>,
    pub(crate) shown: Shown<'v>,
}

/// A walk, of which so many ways are shown.
#[derive(Drop)]
pub(crate) struct FirstRun<'v> {
    pub(crate) tuples: Tuples<PhraseCursor<'v>>,
    pub(crate) most: u32,
}

/// A walk with a chain of filters, which has the room that the walk needs, and with memory for the least includes.
#[derive(Drop)]
pub(crate) struct LeastRun<'v> {
    pub(crate) tuples: Tuples<PhraseCursor<'v>>,
    pub(crate) chain: Chain,
    pub(crate) least: Vec<Hit>,
    ghost none: { links_of chain ≡ [] },
    ghost filters: { (room_of tuples).filters ≤ spare_filters chain },
    ghost hits: { (room_of tuples).hits ≤ spare_hits chain },
}

/// The phrases in a window of so many words, one at least. No hit of a phrase begins or ends before an earlier one.
#[derive(Drop)]
pub(crate) struct WindowRun<'v> {
    pub(crate) phrases: Vec<Tuples<PhraseCursor<'v>>>,
    pub(crate) size: u32,
    ghost some: { 0 < size },
}
