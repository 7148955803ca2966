/// What joins the operands of a selection.
#[derive(Clone, Copy)]
pub enum Connective {
    /// `ftor` (the standard's FTOr)
    Or,
    /// `ftand` (the standard's FTAnd)
    And,
}
