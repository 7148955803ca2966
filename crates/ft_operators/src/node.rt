use ft_base::Filter;

/// A selection whose phrases are lists of hits, and where a walk through its ways stands.
#[cycle(tree)]
#[derive(Drop)]
pub(crate) enum Node<P> {
    Phrase(P),
    /// One of two sides: first all ways of the left one, then those of the right one.
    Choice(Box<Fork<P>>),
    /// Both of two sides.
    Both(Box<Pair<P>>),
    /// The left side, where it stands out of each way of the right one.
    MildNot(Box<Pair<P>>),
    Negated(Box<Negation<P>>),
    Filtered(Box<Sieve<P>>),
}

#[cycle(tree)]
#[derive(Drop)]
pub(crate) struct Pair<P> {
    pub(crate) left: Node<P>,
    pub(crate) right: Node<P>,
}

#[cycle(tree)]
#[derive(Drop)]
pub(crate) struct Fork<P> {
    pub(crate) left: Node<P>,
    pub(crate) right: Node<P>,
    /// Whether the walk is on the right side.
    pub(crate) second: bool,
}

#[cycle(tree)]
#[derive(Drop)]
pub(crate) struct Negation<P> {
    pub(crate) operand: Node<P>,
    /// Whether the one way is still to come, or there.
    pub(crate) there: bool,
}

#[cycle(tree)]
#[derive(Drop)]
pub(crate) struct Sieve<P> {
    pub(crate) operand: Node<P>,
    pub(crate) kind: Filter,
    /// How many choices of the filter were used in the operand's present way.
    pub(crate) lead: u64,
}
