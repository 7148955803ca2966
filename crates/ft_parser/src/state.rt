use ft_base::{Items, Line, Memory, Mode, StopTerm, ThesaurusUse};
use selection_grammar::{Parsed, Placed, PlacedOption, PlacedString, PlacedTimes};
use std::alloc::Global;

/// What every function of the reader is handed: where it takes memory, and the symbols that it reads.
#[derive(Clone, Copy)]
pub(crate) struct Reader<'a> {
    pub(crate) alloc: Global,
    pub(crate) symbols: &'a [Placed],
}

/// What options stand after: words, or a selection in parentheses.
#[derive(Drop)]
pub(crate) enum Primary {
    Phrases(Items<PlacedString>, Mode, Option<PlacedTimes>),
    Inner(Parsed),
}

/// An operand with whole options, and the place of the `ftnot` before it.
#[derive(Drop)]
pub(crate) struct Operand {
    pub(crate) negation: Option<usize>,
    pub(crate) primary: Primary,
    pub(crate) options: Items<PlacedOption>,
}

/// What stands to the left of an operand: before the last `ftor`, after it before the last `ftand`, and after that before
/// `not in`.
#[derive(Drop)]
pub(crate) struct Left {
    pub(crate) ors: Vec<Parsed>,
    pub(crate) ands: Vec<Parsed>,
    pub(crate) mild: Option<Parsed>,
}

/// An open parenthesis: what stands to the left of it, and the place of the `ftnot` before it.
#[derive(Drop)]
pub(crate) struct Frame {
    pub(crate) left: Left,
    pub(crate) negation: Option<usize>,
}

/// What stands around the operand under way.
#[derive(Drop)]
pub(crate) struct Context {
    /// The open parentheses, the innermost last.
    pub(crate) outer: Vec<Frame>,
    /// What stands to the left of it inside the innermost.
    pub(crate) left: Left,
}

/// A stop word option that has these terms.
#[derive(Drop)]
pub(crate) struct Stops {
    pub(crate) operand: Operand,
    pub(crate) at: usize,
    pub(crate) terms: Items<StopTerm>,
}

/// A thesaurus option with the name and the relationship of its last thesaurus.
#[derive(Drop)]
pub(crate) struct Uses {
    pub(crate) operand: Operand,
    pub(crate) at: usize,
    pub(crate) name: Line,
    pub(crate) relationship: Option<Line>,
}

/// What the operand under way has got to.
#[derive(Drop)]
pub(crate) enum Stage {
    /// It has not begun, but for `ftnot`.
    Wanted(Option<usize>),
    /// Strings in braces.
    InBraces(Option<usize>, Items<PlacedString>),
    /// A value.
    Valued(Option<usize>, Items<PlacedString>),
    /// A value and `any`.
    AnyOf(Option<usize>, Items<PlacedString>),
    /// A value and `all`.
    AllOf(Option<usize>, Items<PlacedString>),
    /// A value and its whole mode.
    Moded(Option<usize>, Items<PlacedString>, Mode),
    /// Whole options.
    Given(Operand),
    /// Stop words.
    StopTerms(Stops),
    /// Strings of a further term, and whether it is after `except`.
    StopStrings(Stops, bool, Items<PlacedString>),
    /// A thesaurus outside parentheses.
    Thesaurus(Uses),
    /// One inside parentheses, after whole ones.
    ThesaurusIn(Uses, Items<ThesaurusUse>),
    /// Whole ones inside parentheses.
    ThesauriIn(Operand, usize, Items<ThesaurusUse>),
    /// A whole selection with a filter.
    WithFilter(Parsed),
}

/// Where the reader stands between two constructs.
#[derive(Drop)]
pub(crate) struct State {
    pub(crate) context: Context,
    pub(crate) stage: Stage,
}

/// Why reading stops.
#[derive(Clone, Copy)]
pub(crate) enum Halt {
    /// The symbol of that number can't stand there.
    Stuck(usize),
    Memory,
}

impl From<Memory> for Halt {
    ghost use Rattle.std.specs.Prelude.{◌≡◌};
    ghost use Rattle.ft_parser.specs.declared.state.Halt.{Halt};
    ghost use Rattle.ft_parser.specs.declared.state.Halt.TheVariants as the_halt;

    ghost from_gives = { λ _ halt. halt ≡ the_halt.Memory };

    fn from(_memory: Memory) -> Halt {
        Halt::Memory
    }
}
