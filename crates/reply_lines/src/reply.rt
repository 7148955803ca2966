ghost use Rattle.std.specs.Prelude.{◌≡◌};
ghost use Rattle.reply_lines.specs.Replies.{is_refusal};

use doc_profile::DocFault;
use ft_base::{Line, QueryFault};
use text_list::TextList;

/// What a command is answered.
#[derive(Drop)]
pub enum Reply {
    /// The command did what it says.
    Done,
    /// The lines that name the selected nodes, in the order of the documents.
    Nodes(TextList),
    /// The selected nodes, each printed in one line.
    Texts(TextList),
    /// Two lines for each selected node: the line that names it, and one with its words, of which the marked ones stand in brackets.
    Shown(TextList),
    /// The lines that name nodes which a watch's path selects no longer, each behind `- `, then those which it selects only now, each behind `+ `.
    Changed(TextList),
    /// The printed form of the rewritten selection.
    Explained(Line),
    /// What the session holds.
    Counts(Counts),
    /// The command was refused, and changed nothing.
    Refused(Refusal),
}

/// How much a session holds: documents, their tokens, distinct token keys, marks, kept plans, and how often a kept plan was used.
#[derive(Clone, Copy, PartialEq, Eq)]
pub struct Counts {
    pub documents: u64,
    pub tokens: u64,
    pub terms: u64,
    pub marks: u64,
    pub plans: u64,
    pub hits: u64,
}

/// How many watches a session holds at once, at most.
pub const MAX_WATCHES: usize = 64;

/// What there are as many of as there may be.
#[derive(Clone, Copy, PartialEq, Eq)]
pub enum FullOf {
    Documents,
    Marks,
    StopLists,
    Thesauri,
    Watches,
}

/// What a document would have too much of.
#[derive(Clone, Copy, PartialEq, Eq)]
pub enum LimitOf {
    Depth,
    Nodes,
    Tokens,
}

/// Why a command was refused. A line counts from 1, a place counts bytes from 0.
#[derive(Drop)]
pub enum Refusal {
    /// The line is no command, or its block is open at the session's end.
    BadCommand { line: u64 },
    /// The line has a name that isn't one.
    BadName { line: u64 },
    /// There is a document, a mark or a watch of that name.
    NameTaken { name: Line },
    /// There is no document, no mark or no watch of that name.
    NoSuchName { name: Line },
    /// There are as many as there may be.
    Full { what: FullOf },
    /// The block isn't read as a document or a fragment.
    Document(DocFault),
    /// The document has more than `MAX_TOKENS` tokens.
    TooManyTokens,
    /// The block isn't a list: the line of the block, from 1.
    List { line: u64 },
    /// The path or the selection has that fault.
    Query(QueryFault),
    /// The path names a document that isn't there.
    NoSuchDoc { name: Line },
    /// A selection names a list that isn't there.
    NoSuchList { name: Line },
    /// The path selects no node.
    NoTarget,
    /// The path selects more than one node.
    ManyTargets { count: u64 },
    /// The path selects a root element.
    RootTarget,
    /// A document would have too many levels, nodes or tokens.
    Limit { what: LimitOf },
    /// The path doesn't end in a test whose words can be marked.
    NothingToShow,
}

impl Reply {
    /// Whether the command was refused.
    pub fn is_refusal(&self) -> bool
        ensures { result ≡ is_refusal self.now }
    {
        match self {
            Reply::Refused(_) => true,
            _ => false,
        }
    }
}
