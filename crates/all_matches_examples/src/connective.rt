//! Or, And and Not of Matches, in their order, by computation.

ghost use Rattle.std.specs.Prelude.{◌≡◌, ◌==◌, ◌∷◌, [], true, false};
ghost use Rattle.ft_base.specs.HitExamples.{word};
ghost use Rattle.all_matches.specs.Boolean.{ft_or, ft_and, ft_not, with_include, with_exclude, survives};
ghost use Rattle.all_matches.specs.Hits.{match_of_hit};
ghost use Rattle.all_matches.specs.Times.{at_least};

/// The Matches of the left side stand before those of the right side, and so do the parts of two that are joined.
pub fn left_before_right()
    ensures of_or { ft_or (match_of_hit (word 2) ∷ []) (match_of_hit (word 1) ∷ []) ≡ match_of_hit (word 2) ∷ match_of_hit (word 1) ∷ [] }
    ensures of_and { ft_and (record { includes = word 4 ∷ []; excludes = word 3 ∷ [] } ∷ []) (record { includes = word 2 ∷ []; excludes = word 1 ∷ [] } ∷ [])
        ≡ record { includes = word 4 ∷ word 2 ∷ []; excludes = word 3 ∷ word 1 ∷ [] } ∷ [] }
{}

/// Of a Match that is negated each include comes as an exclude, then each exclude as an include, before what the others need.
pub fn parts_turned_about()
    ensures of_one { ft_not (record { includes = word 1 ∷ []; excludes = word 2 ∷ [] } ∷ [])
        ≡ record { includes = []; excludes = word 1 ∷ [] } ∷ record { includes = word 2 ∷ []; excludes = [] } ∷ [] }
    ensures include { with_include (word 1) (record { includes = word 2 ∷ []; excludes = word 3 ∷ [] })
        ≡ record { includes = word 1 ∷ word 2 ∷ []; excludes = word 3 ∷ [] } }
    ensures exclude { with_exclude (word 1) (record { includes = word 2 ∷ []; excludes = word 3 ∷ [] })
        ≡ record { includes = word 2 ∷ []; excludes = word 1 ∷ word 3 ∷ [] } }
{}

/// Of the choices of at least so many Matches those with the first of them stand first.
pub fn choices_of_matches()
    ensures at_least_one { at_least 1 (match_of_hit (word 1) ∷ match_of_hit (word 2) ∷ [])
        ≡ record { includes = word 1 ∷ word 2 ∷ []; excludes = [] } ∷ match_of_hit (word 1) ∷ match_of_hit (word 2) ∷ [] }
{}

/// A Match survives a test that keeps none of its excludes, whatever it says of the includes.
pub fn matches_that_survive()
    ensures without_excludes { survives (λ hit. true) (match_of_hit (word 1)) ≡ true }
    ensures an_include_alone_is_kept { survives (λ hit. hit.from == 1) (record { includes = word 1 ∷ []; excludes = word 2 ∷ [] }) ≡ true }
    ensures one_of_two_excludes_is_kept { survives (λ hit. hit.from == 2) (record { includes = word 1 ∷ []; excludes = word 3 ∷ word 2 ∷ [] }) ≡ false }
{}
