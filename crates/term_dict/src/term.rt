/// A term: a word as it stands, and the key under which it is found.
#[derive(Clone, Copy)]
pub struct Term<'a> {
    pub key: &'a str,
    pub word: &'a str,
}
