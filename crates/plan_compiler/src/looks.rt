/// What is looked at of each word of a text.
#[derive(Clone, Copy)]
pub struct Looks {
    /// All its forms, and not its key alone.
    pub all_forms: bool,
    /// Its stem.
    pub stems: bool,
}
