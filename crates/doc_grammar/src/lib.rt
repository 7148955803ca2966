//! What a document is as text: its grammar, the texts that begin a document, the limits, and laws about them.
#![tactic(auto)]

pub mod laws;
