/// How many bytes a session may have.
pub const MAX_SESSION_BYTES: u64 = 67_108_864;

/// How many bytes of a session are read at once, at most.
pub const MAX_PIECE_BYTES: usize = 65_536;

/// How many bytes a command line may have, without its line end.
pub const MAX_LINE_BYTES: usize = 65_536;

/// How many bytes a name of a session may have, that of a document, a list or a mark; of one in quotation marks, how many
/// characters.
pub const MAX_NAME_BYTES: usize = 64;

/// How many documents a session holds at once, at most.
pub const MAX_DOCUMENTS: usize = 4_096;

/// How many marks a session holds at once, at most.
pub const MAX_MARKS: usize = 64;

/// How many stop lists a session holds at once, at most, and how many thesauri.
pub const MAX_LISTS: usize = 64;

/// How deep the elements of a document may stand in one another, in levels; the root is at level 1.
pub const MAX_DEPTH: usize = 200;

/// How many nodes a document may have, elements and texts together.
pub const MAX_NODES: usize = 1_000_000;

/// How many tokens a document may have.
pub const MAX_TOKENS: usize = 1_000_000;

/// How many parentheses of a selection may be open at once, and how many brackets and parentheses of a path.
pub const MAX_OPEN: usize = 64;

/// How many filters of a selection may stand directly round one another.
pub const MAX_FILTERS: usize = 64;

/// How many phrases the strings of a selection may make.
pub const MAX_PHRASES: usize = 64;

/// The greatest number in a query.
pub const MAX_NUMBER: u32 = 1_000_000;
