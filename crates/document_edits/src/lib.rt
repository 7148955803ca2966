//! What an edit makes of a document, where elements are known by their places, and how it is made of a document in slots and of
//! its index.
//!
//! `draft_edit` makes the document after an edit; `apply_draft` puts it into slots, and changes the leaves of the index. The laws
//! and the examples are each the contract of a function without a body.
#![tactic(auto)]

mod drafts;
pub mod examples;
pub mod laws;

pub use drafts::{EditedDoc, apply_draft, draft_edit};
pub use tree_edits::Draft;
