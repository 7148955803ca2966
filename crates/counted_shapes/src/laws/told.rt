//! What lies in a field by its first and its last number, and numbers that are told from another one on.

ghost use Rattle.std.specs.Prelude.{◌≡◌, ◌&&◌, ℕ, List, map, nat_le, true};
ghost use Rattle.ft_base.specs.declared.hit.Hit.{Hit};
ghost use Rattle.ft_base.specs.declared.unit.TextUnit.{TextUnit};
ghost use Rattle.all_matches.specs.Positions.{end_in, start_in};
ghost use Rattle.counted_shapes.specs.Fields.{in_unit, in_window, is_in_window};
ghost use Rattle.counted_shapes.specs.Shapes.{Counted, fit_in_unit, fit_in_window};
ghost use Rattle.counted_shapes.specs.Told.{IsTold};

/// A hit that doesn't end before its beginning lies in a window where its first and its last number do, and in a sentence or paragraph where it lies
/// in the window of that one alone.
pub fn lies_law()
    ensures window { (size : ℕ) (kind : TextUnit) (last : ℕ) (hit : Hit) → nat_le (start_in kind hit) (end_in kind hit) ≡ true
        → in_window size kind last hit ≡ (is_in_window size last (start_in kind hit) && is_in_window size last (end_in kind hit)) }
    ensures unit { (kind : TextUnit) (number : ℕ) (hit : Hit) → nat_le (start_in kind hit) (end_in kind hit) ≡ true
        → in_unit kind number hit ≡ in_window 1 kind number hit }
{}

/// Items whose hits are told from another number on, as those of a part of a document are, fit where they fitted.
pub fn told_law<A>()
    ensures window { (before : ℕ) (kind : TextUnit) (told plain : A → Counted) → ((a : A) → IsTold before kind (told a) (plain a)) → (size : ℕ) (items : List A)
        → fit_in_window size kind (map told items) ≡ fit_in_window size kind (map plain items) }
    ensures unit { (before : ℕ) (kind : TextUnit) (told plain : A → Counted) → ((a : A) → IsTold before kind (told a) (plain a)) → (items : List A)
        → fit_in_unit kind (map told items) ≡ fit_in_unit kind (map plain items) }
{}
