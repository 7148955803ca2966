use ft_base::QueryFault;

/// A fault of a selection, with its place beside it.
#[derive(Clone, Copy)]
pub struct PlacedFault {
    pub at: usize,
    pub fault: QueryFault,
}
