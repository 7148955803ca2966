//! What goes and what comes, by computation.
#![tactic(auto)]

ghost use Rattle.std.specs.Prelude.{◌≡◌, [], ◌∷◌, codes, None, Some};
ghost use Rattle.standing_queries.specs.Answers.{all_lines, answers_of, kept_under};
ghost use Rattle.standing_queries.specs.Changes.{changes};

/// Each line that isn't there any more goes, in the order in which they were kept; then each new one comes, in the order of now.
pub fn lines_that_change()
    ensures nothing { changes (codes "a" ∷ codes "b" ∷ []) (codes "a" ∷ codes "b" ∷ []) ≡ [] }
    ensures none { changes [] [] ≡ [] }
    ensures first { changes [] (codes "b" ∷ codes "a" ∷ []) ≡ codes "+ b" ∷ codes "+ a" ∷ [] }
    ensures last { changes (codes "b" ∷ codes "a" ∷ []) [] ≡ codes "- b" ∷ codes "- a" ∷ [] }
    ensures gone_before_come { changes (codes "a" ∷ codes "c" ∷ []) (codes "b" ∷ []) ≡ codes "- a" ∷ codes "- c" ∷ codes "+ b" ∷ [] }
    ensures kept_between { changes (codes "a" ∷ codes "b" ∷ codes "c" ∷ []) (codes "d" ∷ codes "b" ∷ []) ≡ codes "- a" ∷ codes "- c" ∷ codes "+ d" ∷ [] }
    ensures other_order { changes (codes "a" ∷ codes "b" ∷ []) (codes "b" ∷ codes "a" ∷ []) ≡ [] }
    ensures prefix { changes (codes "ab" ∷ []) (codes "a" ∷ []) ≡ codes "- ab" ∷ codes "+ a" ∷ [] }
    ensures twice { changes (codes "a" ∷ codes "a" ∷ []) (codes "b" ∷ codes "b" ∷ []) ≡ codes "- a" ∷ codes "- a" ∷ codes "+ b" ∷ codes "+ b" ∷ [] }
    ensures once_less { changes (codes "a" ∷ codes "a" ∷ []) (codes "a" ∷ []) ≡ [] }
{}

/// A turn brings its lines, or stands for those kept under its stamp. An answer whose stamp isn't there any more is gone.
pub fn turns()
    ensures fresh { answers_of [] (record { stamp = 1; fresh = Some (codes "a" ∷ []) } ∷ []) ≡ (1, codes "a" ∷ []) ∷ [] }
    ensures kept { answers_of ((1, codes "a" ∷ []) ∷ (2, codes "b" ∷ []) ∷ []) (record { stamp = 2; fresh = None } ∷ []) ≡ (2, codes "b" ∷ []) ∷ [] }
    ensures fresh_over_kept { answers_of ((1, codes "a" ∷ []) ∷ []) (record { stamp = 1; fresh = Some [] } ∷ []) ≡ (1, []) ∷ [] }
    ensures unknown { answers_of ((1, codes "a" ∷ []) ∷ []) (record { stamp = 2; fresh = None } ∷ []) ≡ (2, []) ∷ [] }
    ensures order_of_now { answers_of ((1, codes "a" ∷ []) ∷ (2, codes "b" ∷ []) ∷ []) (record { stamp = 2; fresh = None } ∷ record { stamp = 1; fresh = None } ∷ [])
        ≡ (2, codes "b" ∷ []) ∷ (1, codes "a" ∷ []) ∷ [] }
    ensures known { kept_under 2 ((1, codes "a" ∷ []) ∷ (2, []) ∷ []) ≡ Some [] }
    ensures not_known { kept_under 3 ((1, codes "a" ∷ []) ∷ (2, []) ∷ []) ≡ None }
    ensures lines_in_order { all_lines ((2, codes "c" ∷ codes "a" ∷ []) ∷ (1, []) ∷ (3, codes "b" ∷ []) ∷ []) ≡ codes "c" ∷ codes "a" ∷ codes "b" ∷ [] }
{}
