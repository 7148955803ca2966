use index_versions::TermSources;

/// Which words may stand at a place: any, or those of these terms.
#[derive(Drop)]
pub enum WordTerms<'v> {
    Any,
    Of(TermSources<'v>),
}
