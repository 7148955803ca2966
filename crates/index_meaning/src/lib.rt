//! What an index means, as definitions: terms and their order; dictionaries of terms, each with an id that stays;
//! documents by their numbers, each with its leaves and their words; the rows, the terms and the counts that follow
//! from them; and where a word stands in a document. No code but examples.
#![tactic(auto)]

pub mod examples;
