//! What holds: each law is the contract of a function without a body.

ghost use Rattle.std.specs.Prelude.{◌≡◌, ◌∷◌, [], ℕ, List, Ok, Err, true};
ghost use Rattle.std.specs.Str.{IsUtf8, chars};
ghost use Rattle.plain_tree.specs.Document.{Node, is_document, nodes};
ghost use Rattle.doc_grammar.specs.Texts.{Kind, Spells, mark_len, without_mark};
ghost use Rattle.doc_profile.specs.Faults.{AreWithin, Fits, IsFaultOf, IsWithin};
ghost use Rattle.doc_profile.specs.Readings.{document_of, fragment_of};
ghost use Rattle.doc_profile.specs.declared.fault.DocFault.{DocFault};

/// What bytes are read as is right by the grammar: what they spell, within the limits, or their first fault; and what
/// bytes spell within the limits is what they are read as.
pub fn reading_law()
    ensures document { (bytes : List ℕ) (doc : Node) → document_of bytes ≡ Ok doc →
        IsUtf8 bytes × Spells Kind.document (without_mark (chars bytes)) (doc ∷ []) × Fits Kind.document (without_mark (chars bytes))
        × IsWithin doc × (is_document doc ≡ true) }
    ensures document_fault { (bytes : List ℕ) (fault : DocFault) → document_of bytes ≡ Err fault →
        IsFaultOf Kind.document bytes (without_mark (chars bytes)) (mark_len (chars bytes)) fault }
    ensures every_document { (bytes : List ℕ) (doc : Node) → IsUtf8 bytes → Spells Kind.document (without_mark (chars bytes)) (doc ∷ [])
        → IsWithin doc → document_of bytes ≡ Ok doc }
    ensures fragment { (bytes : List ℕ) (kids : List Node) → fragment_of bytes ≡ Ok kids →
        IsUtf8 bytes × Spells Kind.fragment (chars bytes) kids × Fits Kind.fragment (chars bytes) × AreWithin (nodes kids) }
    ensures fragment_fault { (bytes : List ℕ) (fault : DocFault) → fragment_of bytes ≡ Err fault →
        IsFaultOf Kind.fragment bytes (chars bytes) 0 fault }
    ensures every_fragment { (bytes : List ℕ) (kids : List Node) → IsUtf8 bytes → Spells Kind.fragment (chars bytes) kids
        → AreWithin (nodes kids) → fragment_of bytes ≡ Ok kids }
{}
