//! What holds: each law is the contract of a function without a body.

ghost use Rattle.std.specs.Prelude.{◌≡◌, ℕ, List, map};
ghost use Rattle.plain_tree.specs.Document.{Node};
ghost use Rattle.tokenizer.specs.Tokens.{tokens, words_in};

/// Whatever the abbreviations are, the tokens of a node have the words of its texts.
pub fn words_law()
    ensures { (abbreviations : List (List ℕ)) (n : Node) → map (λ token. token.word) (tokens abbreviations n) ≡ words_in n }
{}
