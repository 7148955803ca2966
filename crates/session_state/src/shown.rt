ghost use Rattle.std.specs.Prelude.{◌≡◌};
ghost use Rattle.session_state.specs.Paths.{reply_with};

use reply_lines::Reply;
use text_list::TextList;

/// What a command shows of the elements that its path selects.
#[derive(Clone, Copy)]
pub(crate) enum Shown {
    /// The lines that name them
    Names,
    /// Their printed forms
    Texts,
}

/// The reply that shows the lines.
pub(crate) fn reply_with(shown: Shown, lines: TextList) -> Reply
    ensures { result ≡ reply_with shown lines }
{
    match shown {
        Shown::Names => Reply::Nodes(lines),
        Shown::Texts => Reply::Texts(lines),
    }
}
