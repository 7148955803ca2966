//! What holds: each law is the contract of a function without a body.

ghost use Rattle.std.specs.Prelude.{◌≡◌, ◌≢◌, ◌≤◌, ◌+◌, ℕ, List, length, All, AllPairs, Contains};
ghost use Rattle.plain_tree.specs.Document.{Node};
ghost use Rattle.ordered_tree.specs.Counts.{word_count};
ghost use Rattle.ordered_tree.specs.Numbered.{Numbered, plain, reference};
ghost use Rattle.ordered_tree.specs.Numbering.{numbered};
ghost use Rattle.ordered_tree.specs.Part.{part};
ghost use Rattle.ordered_tree.specs.Stands.{Stand, stands, stands_in, references, span};
ghost use Rattle.tokenizer.specs.Tokens.{tokens, words_in};

/// The tokens of a node by itself are the document's tokens at the places of the node's span, with sentences and paragraphs
/// counted from 1 again, whatever the abbreviations are.
pub fn shift_law()
    ensures { (abbreviations : List (List ℕ)) (root : Numbered)
        → All (λ s. part (tokens abbreviations (plain root)) (span s) ≡ tokens abbreviations (plain s.node)) (stands_in root) }
{}

/// The words of a node are as many as are counted of it.
pub fn count_law()
    ensures { (n : Node) → length (words_in n) ≡ word_count n }
{}

/// The words of a node, and those before it, are among the document's.
pub fn words_inside_law()
    ensures { (root : Numbered) → All (λ s. s.around.before + word_count (plain s.node) ≤ word_count (plain root)) (stands_in root) }
{}

/// A document whose nodes get references is the same without them.
pub fn numbered_law()
    ensures { (n : Node) (first : ℕ) → plain (numbered first n) ≡ n }
{}

/// A reference names one node, where no two nodes have the same.
pub fn one_node_law()
    ensures { (root : Numbered) → AllPairs (λ a b. a ≢ b) (references root) → (s t : Stand)
        → Contains (stands_in root) s → Contains (stands_in root) t → reference s.node ≡ reference t.node → s ≡ t }
{}

/// What is below a node of a document is in the document, with the same around it.
pub fn below_law()
    ensures { (root : Numbered) → All (λ s. All (Contains (stands_in root)) (stands s.around s.node)) (stands_in root) }
{}
