ghost use Rattle.std.specs.Prelude.{◌≡◌};
ghost use Rattle.ft_session.specs.Output.{portion_of};

use made_sessions::short;

/// What is written of a reply.
#[derive(Clone, Copy)]
pub(crate) enum Portion {
    /// All of its text
    Whole,
    /// Its first line where it begins with `=`, and else nothing: so much is written of the replies to a made session
    Short,
}

/// What is written of the text of a reply.
pub(crate) fn portion_of(portion: Portion, text: &[u8]) -> &[u8]
    ensures { result.now ≡ portion_of portion text.now }
{
    match portion {
        Portion::Whole => text,
        Portion::Short => short(text),
    }
}
