//! The definitions on short texts, by computation.

ghost use Rattle.std.specs.Prelude.{◌≡◌, ◌∷◌, [], codes, false, true};
ghost use Rattle.tokenizer.specs.Parts.{word, gap_characters, is_abbreviation, parts_behind, without_period};
ghost use Rattle.tokenizer.specs.steps.Behind.{spares};

/// Only one period is left out, and only where it comes first behind an abbreviation.
pub fn periods_behind_abbreviations()
    ensures one { without_period true (codes ".") ≡ [] }
    ensures first_of_two { without_period true (codes "..") ≡ codes "." }
    ensures not_first { without_period true (codes ").") ≡ codes ")." }
    ensures another_mark { without_period true (codes "!") ≡ codes "!" }
    ensures nothing { without_period true [] ≡ [] }
    ensures behind_no_abbreviation { without_period false (codes ".") ≡ codes "." }
    ensures behind_no_word { spares (codes "dr" ∷ []) (codes "Dr. Who") (record { from = 0; to = 0 }) ≡ false }
{}

/// A word is an abbreviation by its key, which has no case; the set holds keys, not words.
pub fn abbreviations()
    ensures listed { is_abbreviation (codes "mr" ∷ codes "dr" ∷ []) (codes "DR") ≡ true }
    ensures another_word { is_abbreviation (codes "dr" ∷ []) (codes "drs") ≡ false }
    ensures no_key { is_abbreviation (codes "Dr" ∷ []) (codes "Dr") ≡ false }
    ensures none { is_abbreviation [] (codes "dr") ≡ false }
    ensures before { spares (codes "dr" ∷ []) (codes "Dr. Who") (record { from = 0; to = 2 }) ≡ true }
{}

/// Of each word it is the period directly behind it that is left out: none behind other characters, none behind the word after it.
pub fn parts_of_segments()
    ensures spared { parts_behind (codes "dr" ∷ []) false (codes "Dr" ∷ codes "." ∷ codes " " ∷ codes "Who" ∷ [])
        ≡ word (codes "Dr") ∷ gap_characters [] ∷ gap_characters (codes " ") ∷ word (codes "Who") ∷ [] }
    ensures second_period { parts_behind (codes "dr" ∷ []) false (codes "Dr" ∷ codes "." ∷ codes "." ∷ [])
        ≡ word (codes "Dr") ∷ gap_characters [] ∷ gap_characters (codes ".") ∷ [] }
    ensures behind_parenthesis { parts_behind (codes "dr" ∷ []) false (codes "Dr" ∷ codes ")" ∷ codes "." ∷ [])
        ≡ word (codes "Dr") ∷ gap_characters (codes ")") ∷ gap_characters (codes ".") ∷ [] }
    ensures behind_another_word { parts_behind (codes "dr" ∷ []) false (codes "Dr" ∷ codes " " ∷ codes "Who" ∷ codes "." ∷ [])
        ≡ word (codes "Dr") ∷ gap_characters (codes " ") ∷ word (codes "Who") ∷ gap_characters (codes ".") ∷ [] }
    ensures no_set { parts_behind [] false (codes "Dr" ∷ codes "." ∷ [])
        ≡ word (codes "Dr") ∷ gap_characters (codes ".") ∷ [] }
    ensures told { parts_behind (codes "dr" ∷ []) true (codes "." ∷ codes "Dr" ∷ [])
        ≡ gap_characters [] ∷ word (codes "Dr") ∷ [] }
{}
