//! What holds of a walk over the characters of a text.

ghost use Rattle.std.specs.Prelude.{◌≡◌, ◌+◌, ◌∷◌, ◌++◌, [], List, ℕ, length, encode_utf8};
ghost use Rattle.std.specs.Str.{IsUtf8, chars};
ghost use Rattle.ft_base.specs.steps.Walk.{Walk};

/// What loops over `char_indices` keep: a walk begins at place 0, goes on by a character and its bytes, and has passed all
/// of a text's characters where nothing is left.
pub fn walks()
    ensures start { (text : List ℕ) → Walk text [] 0 text }
    ensures further { (text prefix rest left : List ℕ) (place next c : ℕ) → Walk text prefix place rest →
        rest ≡ encode_utf8 c ++ left → next ≡ place + length (encode_utf8 c) → Walk text (prefix ++ c ∷ []) next left }
    ensures end { (text prefix rest : List ℕ) (place : ℕ) → Walk text prefix place rest → length rest ≡ 0 → IsUtf8 text →
        prefix ≡ chars text }
{}
