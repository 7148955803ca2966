//! Where a phrase has to stand to be at an edge of a span.

ghost use Rattle.std.specs.Prelude.{◌≡◌};
ghost use Rattle.spot_merges.specs.Edges as spec;

use ft_base::Span;

/// The edges of a span at which a phrase may stand.
#[derive(Clone, Copy)]
pub enum Edge {
    /// It begins with the first word of the span.
    Start,
    /// It ends with the last one.
    End,
    /// Both, so that there are no other words.
    Both,
}

/// The place at which so many words stand at that edge of the span; `None` where the span hasn't as many, where there has to be no other
/// word but is one, and for no words.
pub fn edge_place(edge: Edge, span: Span, words: usize) -> Option<u32>
    ensures { result ≡ spec.edge_place edge span words }
{
    if words == 0 || words > span.to.saturating_sub(span.from) as usize {
        return None;
    }
    match edge {
        Edge::Start => Some(span.from),
        Edge::End => Some(span.to - words as u32),
        Edge::Both => {
            if words as u32 == span.to - span.from {
                Some(span.from)
            } else {
                None
            }
        }
    }
}
