//! What holds of rewritten selections.

ghost use Rattle.std.specs.Prelude.{◌≡◌, List};
ghost use Rattle.all_matches.specs.Meaning.{sat};
ghost use Rattle.all_matches.specs.Variants.{Lexicon};
ghost use Rattle.ft_base.specs.Selection.{Form};
ghost use Rattle.ft_base.specs.declared.token.Token.{Token};
ghost use Rattle.ft_rewriter.specs.Rewriting.{rewritten};

/// A text satisfies a rewritten selection exactly where it satisfies the selection.
pub fn satisfaction_law()
    ensures { (lexicon : Lexicon) (form : Form) (tokens : List Token) → sat lexicon (rewritten form) tokens ≡ sat lexicon form tokens }
{}
