//! Levels and what is reached, in the words of chains of lines.

ghost use Rattle.std.specs.Prelude.{◌≡◌, ℕ, ◌↔◌, List, [], map, filter, fold, Option, Contains};
ghost use Rattle.std.specs.List.Sorted.{IsStrictlySortedBy};
ghost use Rattle.thesaurus_file.specs.Chains.{IsLevel, IsReached};
ghost use Rattle.thesaurus_file.specs.Expansion.{expanded, level};
ghost use Rattle.thesaurus_file.specs.Links.{Links, links_from, with_link};
ghost use Rattle.thesaurus_file.specs.Phrases.{Phrase, phrase_cmp, phrase_eq};
ghost use Rattle.thesaurus_file.specs.declared.levels.Levels.{Levels};
ghost use Rattle.thesaurus_file.specs.declared.link.Link.{Link};

/// The links of a phrase are those of the lines that begin with it, in the order of the lines.
pub fn links_law()
    ensures { (lines : List (Phrase × Link)) (phrase : Phrase)
        → links_from (fold with_link [] lines) phrase ≡ map (λ line. line.1) (filter (λ line. phrase_eq phrase line.0) lines) }
{}

/// A phrase is in a level where a chain of that many lines leads to it, and none of fewer.
pub fn level_law()
    ensures { (thesaurus : Links) (relation : Option (List ℕ)) (n : ℕ) (start phrase : Phrase)
        → Contains (level thesaurus relation n start) phrase ↔ IsLevel thesaurus relation n start phrase }
{}

/// The phrases of a level are in their order, each once.
pub fn order_law()
    ensures { (thesaurus : Links) (relation : Option (List ℕ)) (n : ℕ) (start : Phrase)
        → IsStrictlySortedBy phrase_cmp (level thesaurus relation n start) }
{}

/// What is reached is the phrase itself and each phrase whose level is in the range.
pub fn reached_law()
    ensures { (thesaurus : Links) (relation : Option (List ℕ)) (levels : Levels) (start phrase : Phrase)
        → Contains (expanded thesaurus relation levels start) phrase ↔ IsReached thesaurus relation levels start phrase }
{}
