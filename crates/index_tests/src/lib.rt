//! Worked rows of the index, and of what decides selections over it: calls that no session shows, with their answers. What their
//! contracts don't say is that memory suffices.
//!
//! Each file has one subject.
#![tactic(auto)]

#[cfg(test)]
mod counted_places;
#[cfg(test)]
mod counts_of_documents;
#[cfg(test)]
mod cursors;
#[cfg(test)]
mod dictionaries;
#[cfg(test)]
mod document_indexes;
#[cfg(test)]
mod positional_filters;
#[cfg(test)]
mod updates;
#[cfg(test)]
mod versions;
#[cfg(test)]
mod walks;
