ghost use Rattle.std.specs.Prelude.{◌≡◌, ◌+◌, ◌-◌, true};
ghost use Rattle.ft_base.specs.Hits.{hit_place};
ghost use Rattle.index_cursors.specs.SpanHits.{words_in};

use crate::BreakView;
use ft_base::{Hit, Hits, Span, Steps};
use std::marker::Model;
use std::sync::ledger::Ledger;

/// All places of a span of a document, each as the hit of a single word, and a place in this list.
#[derive(Drop)]
pub struct Every<'v> {
    breaks: BreakView<'v>,
    from: u32,
    to: u32,
    at: u32,
}

impl<'v> Model for Every<'v> {
    ghost use Rattle.std.specs.Prelude.{◌≤◌, ◌-◌, map};
    ghost use Rattle.std.specs.List.{range_with_len};
    ghost use Rattle.ft_base.specs.Hits.{HitPlace, hit_place};
    ghost use Rattle.index_cursors.specs.SpanHits.{word_hit};

    ghost Value = { HitPlace };

    ghost view = { λ inside.
        hit_place (map (word_hit inside.breaks.breaks.now) (range_with_len inside.from (inside.to - inside.from))) (inside.at - inside.from) };

    ghost invariant = { λ inside. (inside.from ≤ inside.at) × (inside.at - inside.from ≤ inside.to - inside.from) };
}

impl<'v> Every<'v> {
    /// All places of the span, at the first of them. Counts one step.
    pub fn new<L: Ledger>(breaks: BreakView<'v>, span: Span, steps: &mut Steps<L>) -> Every<'v>
        ensures list { result ≡ hit_place (words_in breaks.entry.breaks.now span) 0 }
        ensures counted { steps.new ≡ steps.old + 1 }
    {
        steps.tick();
        Every {
            breaks,
            from: span.from,
            to: span.to,
            at: span.from,
        }
    }
}

impl<'v> Hits for Every<'v> {
    ghost stand = { λ every. every };

    ghost plain = { λ every. true };

    fn here(&self) -> Option<Hit> {
        if self.at >= self.to {
            return None;
        }
        Some(self.breaks.hit(self.at))
    }

    fn next<L: Ledger>(&mut self, steps: &mut Steps<L>) {
        steps.tick();
        if self.at < self.to {
            self.at += 1;
        }
    }

    fn seek<L: Ledger>(&mut self, from: u32, steps: &mut Steps<L>) {
        steps.tick();
        self.at = moved(self.at, self.to, from);
    }

    fn rewind(&mut self) {
        self.at = self.from;
    }
}

/// The place moved on to that position, but not after the end.
fn moved(at: u32, to: u32, position: u32) -> u32
    ensures { result ≡ at + ((to - at) - ((to - at) - (position - at))) }
{
    if position <= at {
        return at;
    }
    if to <= at {
        return at;
    }
    if position < to { position } else { to }
}
