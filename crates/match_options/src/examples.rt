//! The atoms of small patterns, by computation.
#![tactic(auto, unfolding(crate::specs::Patterns::atoms_of, crate::specs::Patterns::atoms_after))]

ghost use Rattle.std.specs.Prelude.{◌≡◌, true, false, [], ◌∷◌, codes, Some, None};
ghost use Rattle.match_options.specs.declared.atom.Atom.TheVariants.{Letter};
ghost use Rattle.match_options.specs.Examples.{from_to, at_least};
ghost use Rattle.ft_base.specs.Letters.{number_of};
ghost use Rattle.match_options.specs.Patterns.{atoms_of, is_pattern};

/// The five forms that begin with a period; the longest one is taken.
pub fn periods()
    ensures one { atoms_of (codes "t.") ≡ Some (Letter 116 ∷ from_to 1 1 ∷ []) }
    ensures at_most_one { atoms_of (codes ".?t") ≡ Some (from_to 0 1 ∷ Letter 116 ∷ []) }
    ensures any_number { atoms_of (codes "t.*") ≡ Some (Letter 116 ∷ at_least 0 ∷ []) }
    ensures at_least_one { atoms_of (codes "t.+t") ≡ Some (Letter 116 ∷ at_least 1 ∷ Letter 116 ∷ []) }
    ensures two_periods { atoms_of (codes "..?") ≡ Some (from_to 1 1 ∷ from_to 0 1 ∷ []) }
    ensures a_star_after { atoms_of (codes ".**") ≡ Some (at_least 0 ∷ Letter 42 ∷ []) }
{}

/// `.{n,m}`, and what is no such form.
pub fn braces()
    ensures from_to { atoms_of (codes "t.{2,2}t") ≡ Some (Letter 116 ∷ from_to 2 2 ∷ Letter 116 ∷ []) }
    ensures zeros { atoms_of (codes ".{00,007}") ≡ Some (from_to 0 7 ∷ []) }
    ensures a_million { atoms_of (codes ".{0,1000000}") ≡ Some (from_to 0 1000000 ∷ []) }
    ensures past_a_million { atoms_of (codes ".{0,1000001}") ≡ None }
    ensures low_above_high { atoms_of (codes ".{2,1}") ≡ None }
    ensures no_comma { atoms_of (codes ".{2}") ≡ None }
    ensures no_high { atoms_of (codes ".{2,}") ≡ None }
    ensures no_low { atoms_of (codes ".{,2}") ≡ None }
    ensures a_blank { atoms_of (codes ".{1, 2}") ≡ None }
    ensures open { atoms_of (codes ".{1,2") ≡ None }
    ensures braces_alone { atoms_of (codes "{1}") ≡ Some (Letter 123 ∷ Letter 49 ∷ Letter 125 ∷ []) }
{}

/// A backslash makes the next character a letter; none may stand at the end.
pub fn literals()
    ensures period { atoms_of (codes "a\\.") ≡ Some (Letter 97 ∷ Letter 46 ∷ []) }
    ensures backslash { atoms_of (codes "\\\\") ≡ Some (Letter 92 ∷ []) }
    ensures letter { atoms_of (codes "\\a.") ≡ Some (Letter 97 ∷ from_to 1 1 ∷ []) }
    ensures at_the_end { atoms_of (codes "ab\\") ≡ None }
    ensures after_a_period { atoms_of (codes ".\\") ≡ None }
    ensures nothing { atoms_of [] ≡ None }
{}
