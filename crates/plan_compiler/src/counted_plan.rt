//! Counted shapes, compiled.

ghost use Rattle.std.specs.Prelude.{◌≡◌, nat_lt, true};
ghost use Rattle.std.specs.List.{list_any};

use crate::operator_plan::PhraseTests;
use counted_shapes::Field;
use ft_base::Items;

/// Words that are counted in one window, sentence or paragraph, compiled. One of the items asks for a hit.
#[derive(Drop)]
pub struct CountedPlan {
    /// In what they are counted.
    pub field: Field,
    pub items: Items<CountedWords>,
    pub ghost asks: { list_any (λ item. nat_lt 0 item.least) items ≡ true },
}

/// Words, and how often they have to occur.
#[derive(Drop)]
pub struct CountedWords {
    /// The least number of hits.
    pub least: u32,
    /// The greatest number of hits, if there is one.
    pub most: Option<u32>,
    /// The phrases, whose hits are counted together.
    pub phrases: Items<PhraseTests>,
}
