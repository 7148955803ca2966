ghost use Rattle.std.specs.Prelude.{◌≡◌};
ghost use Rattle.ft_operators.specs.Walk.{own_span};

use ft_base::Span;

/// The span, told in its own numbers: its first word is the first.
pub(crate) fn own_span(span: Span) -> Span
    ensures { result ≡ own_span span }
{
    let before = span.from.saturating_sub(1);
    Span {
        from: span.from - before,
        to: span.to.saturating_sub(before),
    }
}
