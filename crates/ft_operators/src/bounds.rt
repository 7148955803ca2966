use ft_base::Hit;

/// Where hits of phrases are sought. A hit lies in the bounds where it does so in each unit, and begins early enough or late
/// enough for its phrase.
#[derive(Clone, Copy)]
pub struct Bounds {
    pub words: UnitBounds,
    pub sentences: UnitBounds,
    pub paragraphs: UnitBounds,
    pub order: OrderBound,
}

/// Numbers of words, sentences or paragraphs from one on, up to another, where there is one.
#[derive(Clone, Copy)]
pub struct UnitBounds {
    /// The first number in the bounds.
    pub from: u64,
    /// The first number behind them.
    pub to: Option<u64>,
}

/// A phrase, by its number in the selection, and the word at or after which the hits of later phrases begin.
#[derive(Clone, Copy)]
pub struct OrderBound {
    pub query: u32,
    pub from: u32,
}

impl Bounds {
    ghost use Rattle.std.specs.Prelude.{◌≡◌};
    ghost use Rattle.ft_operators.specs.Bounds.{everywhere, lies_in};

    /// The bounds in which each hit lies.
    pub fn everywhere() -> Bounds
        ensures { result ≡ everywhere }
    {
        let all = UnitBounds { from: 0, to: None };
        Bounds {
            words: all,
            sentences: all,
            paragraphs: all,
            order: OrderBound { query: 0, from: 0 },
        }
    }

    /// Whether the hit lies in the bounds.
    pub fn has(&self, hit: &Hit) -> bool
        ensures { result ≡ lies_in self.now hit.now }
    {
        self.words.has(hit.from, hit.to)
            && self.sentences.has(hit.sent_from, hit.sent_to)
            && self.paragraphs.has(hit.para_from, hit.para_to)
            && self.order.allows(hit)
    }
}

impl UnitBounds {
    ghost use Rattle.std.specs.Prelude.{◌≡◌};
    ghost use Rattle.ft_operators.specs.Bounds.{lies_between};

    /// Whether what begins with the first number and ends with the last one lies in the bounds.
    fn has(&self, first: u32, last: u32) -> bool
        ensures { result ≡ lies_between self.now first last }
    {
        let ends = match self.to {
            Some(to) => u64::from(last) < to,
            None => true,
        };
        self.from <= u64::from(first) && ends
    }
}

impl OrderBound {
    ghost use Rattle.std.specs.Prelude.{◌≡◌};
    ghost use Rattle.ft_operators.specs.Bounds.{is_allowed};

    /// Whether the hit is none of a later phrase, or begins late enough.
    fn allows(&self, hit: &Hit) -> bool
        ensures { result ≡ is_allowed self.now hit.now }
    {
        self.from <= hit.from || hit.query <= self.query
    }
}
