ghost use Rattle.std.specs.Prelude.{◌≡◌, IsTrue, option_map};
ghost use Rattle.ft_base.specs.Hits.{hit_at, is_sorted};

use crate::Hits;

/// A list of hits that tells where the hit at its place begins without the hit's other numbers.
pub trait FirstWords: Hits {
    /// The first word of the hit at the place, and `None` exactly at the end of the list.
    fn first_word(&self) -> Option<u32>
        ensures first { result ≡ option_map (λ hit. hit.from) (hit_at (Self.stand self.now)) }
        ensures sorted { IsTrue (is_sorted ((Self.stand self.now).hits)) };
}
