ghost use Rattle.std.specs.Prelude.{◌≡◌};

use ft_base::Hit;
use std::marker::Model;

/// The hits that one Match includes, lent, in the order in which the Match has them.
#[derive(Drop)]
pub struct Includes<'a> {
    hits: &'a [Hit],
}

impl<'a> Model for Includes<'a> {
    ghost use Rattle.std.specs.Prelude.{List};
    ghost use Rattle.ft_base.specs.declared.hit.Hit.{Hit};

    ghost Value = { List Hit };

    ghost view = { λ inside. inside.hits.now };
}

impl<'a> Includes<'a> {
    /// Makes them of a list of hits.
    pub fn of(hits: &'a [Hit]) -> Includes<'a>
        ensures hits { result ≡ hits.now }
    {
        Includes { hits }
    }

    /// The list.
    pub fn hits(&self) -> &'a [Hit]
        ensures hits { result.now ≡ self.now }
    {
        self.hits
    }
}
