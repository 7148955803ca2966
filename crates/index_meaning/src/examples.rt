//! The definitions on small lists and small documents.

mod dictionary;
mod documents;
mod entries;

pub use dictionary::{apart_examples, id_examples, named_examples, place_examples};
pub use documents::{
    counted_documents, documents_by_number, leaves_by_number, leaves_that_come, leaves_that_go,
    places_of_words, rows_in_order, terms_once, words_of_documents,
};
pub use entries::{changed_entries, entries_in_order, entries_of_a_key};
