use ft_base::{Items, Line};

/// Where a path begins.
#[derive(Drop)]
pub enum PathRoot {
    /// Each document, in the order of loading
    Collection,
    /// The document of this name
    Doc(Line),
}

/// A path: from the documents of its root along its steps.
#[derive(Drop)]
pub struct Path {
    pub root: PathRoot,
    pub steps: Steps,
}

/// Which names an element may have.
#[derive(Drop)]
pub enum NameTest {
    /// `*`
    Any,
    Name(Line),
}

/// Steps, one after the other.
pub type Steps = Items<Step>;

/// A path from an element: its steps.
#[cycle(path)]
#[derive(Drop)]
pub struct RelativePath {
    pub steps: Steps,
}

/// Paths from an element, in the order of the text.
pub type RelativePaths = Items<RelativePath>;

/// A step to the children of an element or, where it is deep, to all elements below it.
#[cycle(path)]
#[derive(Drop)]
pub struct Step {
    /// `//`
    pub deep: bool,
    pub test: NameTest,
    pub predicates: Predicates,
}

/// The predicates of a step, in the order in which they filter.
pub type Predicates = Items<Predicate>;

/// What filters the elements of a step.
#[cycle(path)]
#[derive(Drop)]
pub enum Predicate {
    /// The element at this place is kept, counted from 1.
    Number(u32),
    /// The elements are kept of which this is true.
    Holds(Condition),
}

/// What is true or false of an element.
#[cycle(path)]
#[derive(Drop)]
pub enum Condition {
    /// `or`, between two or more
    Or(Items<Condition>),
    /// `and`, between two or more
    And(Items<Condition>),
    Not(Box<Condition>),
    /// The element has the attribute and, where a value is written, that value.
    Attribute {
        name: Line,
        value: Option<Line>,
    },
    /// The steps from the element lead to some element.
    Exists(Steps),
    /// Some element to which the steps lead satisfies the selection of this number, when what the ignored paths lead to
    /// is taken out of it. The selections of a path are numbered from 0 in the order of its text.
    Contains {
        steps: Steps,
        selection: usize,
        ignored: RelativePaths,
    },
}
