use crate::phrase::Phrase;
use ft_base::Bytes;

/// Where a line leads from its first phrase: the relation, and the second phrase.
#[derive(Drop)]
pub struct Link {
    pub relation: Bytes,
    pub to: Phrase,
}
