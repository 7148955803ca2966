use crate::path::Found;
use ft_base::{Items, Line};
use path_grammar::{Condition, NameTest, PathRoot, Predicate, RelativePath, Step};

/// A step to which further predicates may belong, and the steps before it.
#[derive(Drop)]
pub(crate) struct LastStep {
    pub(crate) before: Vec<Step>,
    pub(crate) deep: bool,
    pub(crate) test: NameTest,
    pub(crate) filters: Vec<Predicate>,
}

/// `contains text` with the selection of this number, after these steps, and the paths after `without content`, but for the one under way.
#[derive(Drop)]
pub(crate) struct Ignoring {
    pub(crate) before: Vec<Step>,
    pub(crate) selection: usize,
    pub(crate) paths: Vec<RelativePath>,
}

/// The conditions to the left of the one under way: those before the last `or`, and after it those before the last `and`; and where an
/// ignored path is under way, what it belongs to.
#[derive(Drop)]
pub(crate) struct Joint {
    pub(crate) ors: Vec<Condition>,
    pub(crate) ands: Vec<Condition>,
    pub(crate) ignoring: Option<Ignoring>,
}

/// An open bracket or parenthesis, and what stands to the left of it.
#[derive(Drop)]
pub(crate) enum Frame {
    /// `[` after a step
    Brackets(Joint, LastStep),
    Parentheses(Joint),
    /// `not (`
    Negation(Joint),
}

/// What was read last.
#[derive(Drop)]
pub(crate) enum Stage {
    /// `.`, or the root of the path: no step yet.
    NoStep,
    /// `/` or, where it is deep, `//`, after these steps.
    Slashes(Vec<Step>, bool),
    Stepped(LastStep),
    /// What a condition stands after, and whether that is `[`.
    Wanted(bool),
    Number(u32),
    /// The name `not`, in the place of a condition.
    NotName,
    AtSign,
    /// `@` and a name.
    Attribute(Line),
    /// `@`, a name and `=`.
    Equals(Line),
    /// A condition that can't go on.
    Ended(Condition),
    /// `contains`, after these steps.
    Contains(Vec<Step>),
    /// The selection of this number, after those steps.
    Selected(Vec<Step>, usize),
    /// `without`, after that.
    Without(Vec<Step>, usize),
    /// What an ignored path stands after: `content`, or `|`.
    PathWanted,
}

/// Where the reader stands after the root: the open brackets and parentheses, the innermost last, and what is inside them.
#[derive(Drop)]
pub(crate) struct Inner {
    pub(crate) frames: Vec<Frame>,
    pub(crate) joint: Joint,
    pub(crate) stage: Stage,
}

/// Where a symbol leads after the root.
#[derive(Drop)]
pub(crate) enum Way {
    On(Inner),
    /// Before a selection, after `contains text` and these steps.
    Selection(Vec<Frame>, Joint, Vec<Step>),
}

/// What of the root was read.
#[derive(Drop)]
pub(crate) enum RootStage {
    Nothing,
    CollectionName,
    CollectionOpen,
    DocName,
    DocOpen,
    DocText(Line),
}

/// Where the reader stands between two symbols.
#[derive(Drop)]
pub(crate) enum State {
    AtRoot(RootStage),
    Along(PathRoot, Inner),
}

/// Where the reader stands, and the selections that it has read.
#[derive(Drop)]
pub(crate) struct ReadSoFar {
    pub(crate) state: State,
    pub(crate) found: Items<Found>,
}
