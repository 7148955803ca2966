//! The grammar of patterns, and how they are read.

ghost use Rattle.std.specs.Prelude.{◌≡◌, List, ℕ, Some};
ghost use Rattle.match_options.specs.declared.atom.Atom.{Atom};
ghost use Rattle.match_options.specs.Grammar.{Pattern};
ghost use Rattle.match_options.specs.Patterns.{atoms_of};

/// The atoms that are read are those that spell the text, and a text that is spelled so is read.
pub fn pattern_law()
    ensures read { (text : List ℕ) (atoms : List Atom) → atoms_of text ≡ Some atoms → Pattern text atoms }
    ensures spelled { (text : List ℕ) (atoms : List Atom) → Pattern text atoms → atoms_of text ≡ Some atoms }
{}
