//! The steps and lines of elements in `<d><p>x</p><q/><p/></d>`, and lines of words, by computation.
#![tactic(auto, unfolding(crate::specs::LocationSteps::steps_below), using(std::proofs::lemmas::Fmt::decimal_digit))]

ghost use Rattle.std.specs.Prelude.{◌≡◌, [], ◌∷◌, codes};
ghost use Rattle.element_lines.specs.Examples.{paragraphs, span};
ghost use Rattle.element_lines.specs.Lines.{place_line};
ghost use Rattle.element_lines.specs.LocationSteps.{step, steps_to};
ghost use Rattle.element_lines.specs.Marked.{marked_line};

/// A step has the number of a child among the children of its name.
pub fn steps_of_places()
    ensures root { steps_to paragraphs [] ≡ step (codes "d") 1 ∷ [] }
    ensures first { steps_to paragraphs (1 ∷ []) ≡ step (codes "d") 1 ∷ step (codes "p") 1 ∷ [] }
    ensures other_name { steps_to paragraphs (2 ∷ []) ≡ step (codes "d") 1 ∷ step (codes "q") 1 ∷ [] }
    ensures second { steps_to paragraphs (3 ∷ []) ≡ step (codes "d") 1 ∷ step (codes "p") 2 ∷ [] }
{}

/// A line names a document and the steps to an element.
pub fn lines_of_steps()
    ensures root { place_line (codes "x") (steps_to paragraphs []) ≡ codes "doc(\"x\")/d[1]" }
    ensures quoted { place_line (codes "x\"y \"") (steps_to paragraphs []) ≡ codes "doc(\"x\"\"y \"\"\")/d[1]" }
    ensures second { place_line (codes "x") (steps_to paragraphs (3 ∷ [])) ≡ codes "doc(\"x\")/d[1]/p[2]" }
{}

/// Words at the places of a span stand in brackets, each by itself. Spans may overlap, may be empty and may end behind the last word.
pub fn lines_of_words()
    ensures none { marked_line [] (codes "a" ∷ codes "b" ∷ []) ≡ codes "a b" }
    ensures one { marked_line (span 2 3 ∷ []) (codes "a" ∷ codes "b" ∷ codes "c" ∷ []) ≡ codes "a [b] c" }
    ensures more { marked_line (span 1 3 ∷ []) (codes "a" ∷ codes "b" ∷ codes "c" ∷ []) ≡ codes "[a] [b] c" }
    ensures apart { marked_line (span 3 4 ∷ span 1 2 ∷ []) (codes "a" ∷ codes "b" ∷ codes "c" ∷ []) ≡ codes "[a] b [c]" }
    ensures overlapping { marked_line (span 2 4 ∷ span 1 3 ∷ span 2 3 ∷ []) (codes "a" ∷ codes "b" ∷ codes "c" ∷ codes "d" ∷ []) ≡ codes "[a] [b] [c] d" }
    ensures empty { marked_line (span 1 1 ∷ []) (codes "a" ∷ []) ≡ codes "a" }
    ensures past_the_end { marked_line (span 2 9 ∷ span 5 6 ∷ []) (codes "a" ∷ codes "b" ∷ []) ≡ codes "a [b]" }
    ensures as_written { marked_line (span 1 2 ∷ []) (codes "Can't" ∷ codes "3.14" ∷ []) ≡ codes "[Can't] 3.14" }
    ensures no_word { marked_line (span 1 2 ∷ []) [] ≡ [] }
{}
