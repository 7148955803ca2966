//! What holds of documents as texts.

ghost use Rattle.std.specs.Prelude.{◌≡◌, ◌≤◌, ◌∷◌, [], ℕ, List, true};
ghost use Rattle.plain_tree.specs.Document.{Node, is_document, nodes};
ghost use Rattle.doc_grammar.specs.Limits.{Limit, Passes, heights, nodes_count};
ghost use Rattle.doc_grammar.specs.Printed.{ArePrintable, IsPrintable, printed};
ghost use Rattle.doc_grammar.specs.Texts.{Kind, Spells};

/// A text spells one document, or one fragment, at most.
pub fn one_reading()
    ensures { (kind : Kind) (text : List ℕ) (ks ls : List Node) → Spells kind text ks → Spells kind text ls → ks ≡ ls }
{}

/// What is printed of a document is a text that spells it.
pub fn printed_spells()
    ensures { (tree : Node) → IsPrintable tree → is_document tree ≡ true → Spells Kind.document (printed tree) (tree ∷ []) }
{}

/// What a text spells can be printed.
pub fn spelled_is_printable()
    ensures document { (text : List ℕ) (tree : Node) → Spells Kind.document text (tree ∷ []) → IsPrintable tree }
    ensures fragment { (text : List ℕ) (kids : List Node) → Spells Kind.fragment text kids → ArePrintable (nodes kids) }
{}

/// A text passes no limit that the nodes which it spells keep.
pub fn limits_of_nodes()
    ensures { (max_depth max_nodes : ℕ) (kind : Kind) (text : List ℕ) (kids : List Node) → Spells kind text kids
        → heights (nodes kids) ≤ max_depth → nodes_count (nodes kids) ≤ max_nodes →
        (prefix : List ℕ) (limit : Limit) → Passes max_depth max_nodes kind text prefix limit → ⊥ }
{}
