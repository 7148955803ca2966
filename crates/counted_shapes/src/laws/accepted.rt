//! Selections that may be filtered, and counted shapes.

ghost use Rattle.std.specs.Prelude.{◌≡◌, true};
ghost use Rattle.ft_base.specs.Selection.{Form};
ghost use Rattle.all_matches.specs.Allowed.{has_plain_nots, is_allowed};
ghost use Rattle.counted_shapes.specs.Accepted.{is_accepted};
ghost use Rattle.counted_shapes.specs.Shapes.{is_shape};

/// Where each `ftnot` and `occurs` may stand as under filters without counted shapes, it may stand. A counted shape has no `ftnot` in another.
pub fn accepted_law()
    ensures allowed { (form : Form) → is_allowed form ≡ true → is_accepted form ≡ true }
    ensures plain { (form : Form) → is_shape form ≡ true → has_plain_nots form ≡ true }
{}
