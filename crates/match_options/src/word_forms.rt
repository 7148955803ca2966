use ft_base::Line;

/// The forms of a word under which it is compared.
#[derive(Drop)]
pub struct Forms {
    /// Without case and without diacritics.
    pub key: Line,
    /// Without case.
    pub plain_case: Line,
    /// Without diacritics.
    pub plain_marks: Line,
    /// In canonical decomposition alone.
    pub exact: Line,
    /// Whether it has no uppercase and no titlecase letter.
    pub lower: bool,
    /// Whether it has no lowercase and no titlecase letter.
    pub upper: bool,
}
