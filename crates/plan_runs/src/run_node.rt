//! The tree of a run: the compiled selection, with the terms of a version and cursors in place of tests of words.

use crate::run_counts::RunCounts;
use crate::run_hits::RunHits;
use crate::run_merge::RunMerge;
use crate::run_near::RunNear;
use crate::run_placed::RunPlaced;
use crate::run_ways::RunWays;
use ft_base::Range;
use index_phrases::WordTerms;
use index_versions::TermCursor;
use place_merges::Variant;

/// A selection, opened over a version.
#[derive(Drop)]
pub(crate) enum RunNode<'v> {
    Words(RunWords<'v>),
    /// One of the parts.
    Or(Vec<RunNode<'v>>),
    /// All parts.
    And(Vec<RunNode<'v>>),
    Not(Box<RunNode<'v>>),
    /// A selection with filters or `not in`, by its ways.
    Ways(Box<RunWays<'v>>),
    /// Windows and scopes over phrases, by one pass through the ends of their hits.
    Near(Box<RunNear<'v>>),
    /// Another filter over phrases, by one pass through their hits.
    Hits(Box<RunHits<'v>>),
    /// A filter over single words, by a merge of their hits.
    Merge(RunMerge<'v>),
    /// A phrase at an edge of the text, or outside another one, by the spots at which they stand.
    Placed(RunPlaced<'v>),
    /// Words that are counted in one window, sentence or paragraph.
    Counted(RunCounts<'v>),
}

/// The words of a selection.
#[derive(Drop)]
pub(crate) struct RunWords<'v> {
    pub(crate) phrases: Vec<RunPhrase<'v>>,
    /// Whether a hit of each phrase is wanted, and not of one of them.
    pub(crate) all: bool,
    /// How often they have to occur, if this was written.
    pub(crate) times: Option<Range>,
}

/// A phrase with all that it stands for, the variants of one length together.
#[derive(Drop)]
pub(crate) struct RunPhrase<'v> {
    pub(crate) groups: Vec<RunGroup<'v>>,
}

/// Variants of a phrase: what their words may be, and a cursor for each of the terms.
#[derive(Drop)]
pub(crate) struct RunGroup<'v> {
    pub(crate) terms: Vec<Vec<WordTerms<'v>>>,
    pub(crate) variants: Vec<Variant<TermCursor<'v>>>,
}
