use crate::SharedLines;

/// What a query answers for one document.
#[derive(Drop)]
pub struct Turn {
    /// What the document has been since it was loaded or edited last: another number after each change.
    pub stamp: u64,
    /// The lines of now. `None` stands for those that are kept under the stamp.
    pub fresh: Option<SharedLines>,
}
