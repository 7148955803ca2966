//! What an index has of the document of a tree: each law is the contract of a function without a body.

ghost use Rattle.std.specs.Prelude.{◌≡◌, ℕ, List, map};
ghost use Rattle.index_meaning.specs.Documents.{token_count, words_of};
ghost use Rattle.index_meaning.specs.Index.{index};
ghost use Rattle.ordered_tree.specs.Counts.{word_count};
ghost use Rattle.ordered_tree.specs.Numbered.{Numbered, plain};
ghost use Rattle.tokenizer.specs.Tokens.{words_in};
ghost use Rattle.index_updates.specs.Follows.{tree_document, under_tokens, under_tree};

/// The words of a tree's leaves, one leaf after the other, are those of its texts, and so of its tokens: a row of an index for each.
pub fn words_law()
    ensures words { (abbreviations : List (List ℕ)) (root : Numbered) → words_of (tree_document abbreviations root) ≡ words_in (plain root) }
    ensures count { (abbreviations : List (List ℕ)) (root : Numbered) → token_count (tree_document abbreviations root) ≡ word_count (plain root) }
{}

/// An index has of trees what it has of their tokens, whatever leaves these are in.
pub fn tokens_law()
    ensures { (key : List ℕ → List ℕ) (abbreviations : List (List ℕ)) (trees : List (ℕ × Numbered))
        → index key (map (under_tree abbreviations) trees) ≡ index key (map (under_tokens abbreviations) trees) }
{}
