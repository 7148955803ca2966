use crate::How;
use ft_base::{Bytes, Items, Line};

/// A command of a session. A name has at least one character and at most `MAX_NAME_BYTES`: letters, digits, periods, low lines and hyphens,
/// or, where it stood in quotation marks, any but controls (U+0000 to U+001F, U+007F). A path or a selection is UTF-8 that isn't empty,
/// and is read where the command is carried out.
#[derive(Drop)]
pub enum Command {
    /// Load the document in the block under the name.
    Load { name: Line, block: Bytes },
    /// Take the document out.
    Drop { name: Line },
    /// Put the fragment in the block at the node.
    Insert { how: How, path: Line, block: Bytes },
    /// Put the fragment in the block in the node's place.
    Replace { path: Line, block: Bytes },
    /// Take the nodes out.
    Delete { path: Line },
    /// Read the stop list in the block.
    Stop { name: Line, block: Bytes },
    /// Read the dictionary of stems in the block.
    Stems { block: Bytes },
    /// Read the abbreviations in the block, behind which a period ends no sentence.
    Abbreviations { block: Bytes },
    /// Read the thesaurus in the block.
    Thesaurus { name: Line, block: Bytes },
    /// Print the nodes that the path selects.
    Query { path: Line },
    /// Print the nodes that the path selects in the collection of the mark.
    QueryAt { name: Line, path: Line },
    /// Print the nodes as text.
    Print { path: Line },
    /// Print the nodes that the path selects, each with its words, of which those are marked that meet the path's last test.
    Show { path: Line },
    /// Keep the collection as it is under the name.
    Mark { name: Line },
    /// Give the mark up.
    Unmark { name: Line },
    /// Keep the nodes that the path selects now under the name, so that `Changes` tells what came and what went.
    Watch { name: Line, path: Line },
    /// Print what came and what went among the nodes that the watch's path selects, and keep those of now.
    Changes { name: Line },
    /// Give the watch up.
    Unwatch { name: Line },
    /// Print the rewritten selection.
    Explain { text: Line },
    /// Print counts.
    Stats,
    /// The line of that number, counted from 1, is no command, or its block is open at the session's end.
    BadCommand { line: u64 },
    /// The line of that number has a name that isn't one.
    BadName { line: u64 },
}

/// A list of commands.
pub type Commands = Items<Command>;
