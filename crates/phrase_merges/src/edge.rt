/// The first or the last number of a hit in a unit.
#[derive(Clone, Copy)]
pub(crate) enum Edge {
    Start,
    End,
}
