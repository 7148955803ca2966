//! The words that elements of a document have in common, by computation.

ghost use Rattle.std.specs.Prelude.{◌≡◌, ◌+◌, ◌∷◌, [], ℕ, List, codes};
ghost use Rattle.ordered_tree.specs.Counts.{word_count};
ghost use Rattle.path_meaning.specs.Elements.{placed};
ghost use Rattle.path_meaning.specs.Examples.{elem};
ghost use Rattle.plain_tree.specs.Document.{Node, text};
ghost use Rattle.session_state.specs.IgnoredText.{ignored_places, places_after, words_before};

/// What stands before a place: nothing before an element itself, its children before the one that is or has the node, and in that child
/// what is before the node.
pub fn words_before_places()
    ensures itself { (m n : Node) → words_before (elem (codes "a") (m ∷ n ∷ [])) [] ≡ 0 }
    ensures first { (bytes : List ℕ) (n : Node) → words_before (elem (codes "a") (text bytes ∷ n ∷ [])) (1 ∷ []) ≡ 0 }
    ensures third { (m n : Node) (bytes : List ℕ) → words_before (elem (codes "a") (m ∷ n ∷ text bytes ∷ [])) (3 ∷ []) ≡ word_count m + (word_count n + 0) }
    ensures in_a_child { (m n : Node) (bytes : List ℕ)
        → words_before (elem (codes "a") (m ∷ elem (codes "b") (n ∷ text bytes ∷ []) ∷ [])) (2 ∷ 2 ∷ []) ≡ word_count m + (word_count n + 0) }
    ensures after_a_child { (m n : Node) (bytes : List ℕ)
        → words_before (elem (codes "a") (elem (codes "b") (m ∷ n ∷ []) ∷ text bytes ∷ [])) (2 ∷ []) ≡ (word_count m + (word_count n + 0)) + 0 }
{}

/// An element has in common with one below it the words of that one, where they stand in it; with itself and with one above it all its
/// words; with one that stands beside it none.
pub fn words_in_common()
    ensures itself { (m : Node) → ignored_places (placed (2 ∷ []) (elem (codes "b") (m ∷ []))) (placed (2 ∷ []) (elem (codes "b") (m ∷ [])))
        ≡ places_after 0 (word_count m + 0) }
    ensures below { (m n : Node) → ignored_places (placed [] (elem (codes "a") (m ∷ elem (codes "b") (n ∷ []) ∷ []))) (placed (2 ∷ []) (elem (codes "b") (n ∷ [])))
        ≡ places_after (word_count m + 0) (word_count n + 0) }
    ensures below_at_its_place { (m n : Node)
        → ignored_places (placed (4 ∷ []) (elem (codes "a") (m ∷ elem (codes "b") (n ∷ []) ∷ []))) (placed (4 ∷ 2 ∷ []) (elem (codes "b") (n ∷ [])))
        ≡ places_after (word_count m + 0) (word_count n + 0) }
    ensures parent { (m n : Node) → ignored_places (placed (2 ∷ []) (elem (codes "b") (n ∷ []))) (placed [] (elem (codes "a") (m ∷ elem (codes "b") (n ∷ []) ∷ [])))
        ≡ places_after 0 (word_count n + 0) }
    ensures further_above { (m n : Node) → ignored_places (placed (4 ∷ 1 ∷ 2 ∷ []) n) (placed (4 ∷ []) m) ≡ places_after 0 (word_count n) }
    ensures sibling { (m n : Node) → ignored_places (placed (2 ∷ []) m) (placed (3 ∷ []) n) ≡ places_after 0 0 }
    ensures below_a_sibling { (m n : Node) → ignored_places (placed (2 ∷ []) m) (placed (3 ∷ 1 ∷ []) n) ≡ places_after 0 0 }
    ensures beside_its_parent { (m n : Node) → ignored_places (placed (2 ∷ 1 ∷ []) m) (placed (3 ∷ []) n) ≡ places_after 0 0 }
    ensures later_below { (m n : Node) → ignored_places (placed (2 ∷ 3 ∷ []) m) (placed (2 ∷ 1 ∷ []) n) ≡ places_after 0 0 }
{}
