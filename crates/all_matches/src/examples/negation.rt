//! `ftnot` and `not in` on small texts, by computation.
#![tactic(auto, unfolding(crate::specs::Meaning::sat_under, crate::specs::Meaning::all_matches, crate::specs::Meaning::phrase_count))]

ghost use Rattle.std.specs.Prelude.{◌≡◌, true, false, codes};
ghost use Rattle.ft_base.specs.declared.range.Range.TheVariants as R;
ghost use Rattle.ft_base.specs.declared.unit.TextUnit.TheVariants as U;
ghost use Rattle.ft_base.specs.declared.filter.Filter.TheVariants as F;
ghost use Rattle.ft_base.specs.Selection.{mild_not, not_of, filtered};
ghost use Rattle.all_matches.specs.Examples.{plain, text, quoted, two_and};
ghost use Rattle.all_matches.specs.Meaning.{sat};

/// `"mexico" not in "new mexico"`.
pub fn mild_not_by_cover()
    ensures covered { sat plain (mild_not (quoted (codes "mexico")) (quoted (codes "new mexico"))) (text (codes "new mexico")) ≡ false }
    ensures one_stands_out { sat plain (mild_not (quoted (codes "mexico")) (quoted (codes "new mexico"))) (text (codes "new mexico mexico")) ≡ true }
{}

/// A filter over a Match without includes: a window gives none, and a distance drops the exclude.
pub fn no_includes()
    ensures window { sat plain (filtered (not_of (quoted (codes "x"))) (F.Window 3 U.Words)) (text (codes "y")) ≡ false }
    ensures distance { sat plain (filtered (not_of (quoted (codes "x"))) (F.Distance (R.AtMost 3) U.Words)) (text (codes "x")) ≡ true }
    ensures twice { sat plain (not_of (not_of (quoted (codes "a")))) (text (codes "a")) ≡ true }
{}

/// An exclude counts where the filter keeps it: each window keeps its own.
pub fn excludes_under_filters()
    ensures each_window { sat plain (filtered (two_and (quoted (codes "a")) (not_of (quoted (codes "b")))) (F.Window 2 U.Words))
        (text (codes "b a b")) ≡ false }
    ensures some_window { sat plain (filtered (two_and (quoted (codes "a")) (not_of (quoted (codes "b")))) (F.Window 2 U.Words)) (text (codes "a b")) ≡ true }
    ensures near { sat plain (filtered (two_and (quoted (codes "a")) (not_of (quoted (codes "b")))) (F.Distance (R.AtMost 3) U.Words))
        (text (codes "a b")) ≡ false }
    ensures either_is_left_out { sat plain
        (filtered (two_and (quoted (codes "a")) (not_of (two_and (quoted (codes "b")) (quoted (codes "c"))))) (F.Window 3 U.Words))
        (text (codes "b a x c")) ≡ true }
{}
