//! Why a collection stays as it is.

use doc_profile::DocFault;

/// Why a document isn't loaded.
#[derive(Clone, Copy, PartialEq, Eq)]
pub enum NotLoaded {
    /// There is a document of that name.
    NameTaken,
    /// There are as many documents as there may be (`MAX_DOCUMENTS`).
    Full,
    /// The block isn't read as a document.
    Document(DocFault),
    /// The document has more than `MAX_TOKENS` tokens.
    TooManyTokens,
}

/// Why a document isn't taken out.
#[derive(Clone, Copy, PartialEq, Eq)]
pub enum NotRemoved {
    /// There is no document of that name.
    NoSuchName,
}

/// Why documents aren't edited: what one of them would have too much of.
#[derive(Clone, Copy, PartialEq, Eq)]
pub enum NotEdited {
    /// More than `MAX_DEPTH` levels of elements.
    TooDeep,
    /// More than `MAX_NODES` elements and texts.
    TooManyNodes,
    /// More than `MAX_TOKENS` tokens.
    TooManyTokens,
}
