ghost use Rattle.std.specs.Prelude.{◌≡◌, ◌+◌, ◌^◌, ◌<◌, ◌≤◌, length, MatchResult};
ghost use Rattle.ft_session.specs.Run.{TookPrefix, with_text};

use ft_io::{Failed, Sink};

/// Writes the whole text, in as many writes as the sink wants. Where a write fails, the sink took a prefix of the text.
/// Nothing is written for an empty text.
pub(crate) fn write_all<K: Sink>(sink: &mut K, text: &[u8]) -> Result<(), Failed>
    requires { K.faults sink.old + 1 < 2 ^ 64 }
    ensures written { MatchResult result
        (λ _. K.written sink.new ≡ with_text (K.written sink.old) text.now)
        (λ _. TookPrefix (K.written sink.old) (K.written sink.new) text.now) }
    ensures cause { MatchResult result
        (λ _. K.faults sink.new ≡ K.faults sink.old)
        (λ _. K.faults sink.old < K.faults sink.new) }
{
    let mut at = 0;
    while at < text.len() {
        at += sink.write(&text[at..])?;
    }
    Ok(())
}
