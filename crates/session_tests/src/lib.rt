//! Worked rows: sessions with the replies to their commands, and calls of what sessions stand on.
//!
//! Each file has one subject. A row is a line of a table, and each test tries one table in a loop.
#![tactic(auto)]

#[cfg(test)]
mod abbreviations;
#[cfg(test)]
mod asked_again;
#[cfg(test)]
mod asked_elements;
#[cfg(test)]
mod commands;
#[cfg(test)]
mod compared_words;
#[cfg(test)]
mod counted;
#[cfg(test)]
mod counts;
#[cfg(test)]
mod cut_sessions;
#[cfg(test)]
mod document_texts;
#[cfg(test)]
mod documents;
#[cfg(test)]
mod edit_limits;
#[cfg(test)]
mod edits;
#[cfg(test)]
mod elements;
#[cfg(test)]
mod explained;
#[cfg(test)]
mod failures;
#[cfg(test)]
mod filtered_choices;
#[cfg(test)]
mod filters;
#[cfg(test)]
mod ignored;
#[cfg(test)]
mod judges;
#[cfg(test)]
mod library;
#[cfg(test)]
mod limits;
#[cfg(test)]
mod list_files;
#[cfg(test)]
mod lists;
#[cfg(test)]
mod marks;
#[cfg(test)]
mod named_lists;
#[cfg(test)]
mod options;
#[cfg(test)]
mod options_under_lists;
#[cfg(test)]
mod path_faults;
#[cfg(test)]
mod paths;
#[cfg(test)]
mod query_faults;
#[cfg(test)]
mod rows;
#[cfg(test)]
mod selection_texts;
#[cfg(test)]
mod selections;
#[cfg(test)]
mod sessions;
#[cfg(test)]
mod shown;
#[cfg(test)]
mod shown_refusals;
#[cfg(test)]
mod watches;
#[cfg(test)]
mod words_found;
