//! The definitions on small numbers, by computation.
ghost use Rattle.std.specs.Prelude.{◌≡◌, ◌∷◌, [], false, true};
ghost use Rattle.index_groups.specs.Groups.{in_group, may_be, same_group};

/// Documents whose numbers are 64 apart are in the same group.
pub fn groups_of_documents()
    ensures same { same_group 3 67 ≡ true }
    ensures next { same_group 3 4 ≡ false }
{}

/// The group of a document is the bit of its number modulo 64, the first bit being the lowest.
pub fn groups_as_bits()
    ensures first { in_group 0b1001 0 ≡ true }
    ensures second { in_group 0b1001 1 ≡ false }
    ensures fourth { in_group 0b1001 3 ≡ true }
    ensures around { in_group 0b1001 67 ≡ true }
    ensures not_around { in_group 0b1001 66 ≡ false }
    ensures none { in_group 0 5 ≡ false }
{}

/// The groups of a term stand at its number, and there are none after the last one.
pub fn groups_by_number()
    ensures there { may_be (0 ∷ 0b100 ∷ []) 1 2 ≡ true }
    ensures other_document { may_be (0 ∷ 0b100 ∷ []) 1 3 ≡ false }
    ensures other_term { may_be (0 ∷ 0b100 ∷ []) 0 2 ≡ false }
    ensures after { may_be (0 ∷ 0b100 ∷ []) 2 2 ≡ false }
{}
