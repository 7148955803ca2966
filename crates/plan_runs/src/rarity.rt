//! Which words are rare, so that they are asked first. No answer depends on it.

use index_phrases::WordTerms;

/// The number of the word, from 0, that the fewest documents have; the first of several. Documents count once for each term.
pub(crate) fn rarest(words: &Vec<WordTerms<'_>>) -> usize {
    let mut number = 0;
    let mut fewest = u64::MAX;
    for index in 0..words.len() {
        let documents = documents_with(&words[index]);
        if documents < fewest {
            fewest = documents;
            number = index;
        }
    }
    number
}

/// In how many documents the word stands, the documents of each of its terms together; any word is in more than all.
fn documents_with(word: &WordTerms<'_>) -> u64 {
    match word {
        WordTerms::Any => u64::MAX,
        WordTerms::Of(sources) => sources.document_count(),
    }
}
