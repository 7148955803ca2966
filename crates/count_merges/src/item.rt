ghost use Rattle.std.specs.Prelude.{◌≡◌};

use crate::passing::Passed;
use place_merges::Variant;

/// Phrases of which so many hits are asked for.
#[derive(Drop)]
pub struct CountedItem<H> {
    /// The least number of hits.
    pub least: u32,
    /// The greatest number of hits, if there is one.
    pub most: Option<u32>,
    /// The variants of the phrases. A place counts once in each group.
    pub groups: Vec<VariantGroup<H>>,
}

/// The variants of one phrase that have the same number of words, once for the hits that come into a window and once for those that go out of it.
#[derive(Drop)]
pub struct VariantGroup<H> {
    /// How many words each variant has. No hit of one that has more or fewer counts.
    pub words: u32,
    /// The variants, whose hits come in.
    pub front: Vec<Variant<H>>,
    /// The same variants with sources of their own, whose hits go out.
    pub back: Vec<Variant<H>>,
    /// Which spots of the front were passed.
    pub(crate) come: Passed,
    /// Which spots of the back were passed.
    pub(crate) gone: Passed,
}

impl<H> VariantGroup<H> {
    /// The group of these variants.
    pub fn new(words: u32, front: Vec<Variant<H>>, back: Vec<Variant<H>>) -> VariantGroup<H>
        ensures words { result.words ≡ words }
        ensures front { result.front ≡ front }
        ensures back { result.back ≡ back }
    {
        VariantGroup {
            words,
            front,
            back,
            come: Passed::NONE,
            gone: Passed::NONE,
        }
    }
}
