//! Whether a text satisfies a selection, as truth values and counts of its parts.

ghost use Rattle.std.specs.Prelude.{◌≡◌, ◌+◌, ℕ, List, not};
ghost use Rattle.ft_base.specs.declared.options.Options.{Options};
ghost use Rattle.ft_base.specs.declared.token.Token.{Token};
ghost use Rattle.ft_base.specs.declared.words.Words.{Words};
ghost use Rattle.ft_base.specs.Selection.{Form, Forms, words, or_of, and_of, not_of, with_options};
ghost use Rattle.all_matches.specs.Boolean.{satisfied};
ghost use Rattle.all_matches.specs.Compositional.{some_form, each_form_passes, enough, occurrences};
ghost use Rattle.all_matches.specs.Meaning.{inside, all_matches, sat_under};
ghost use Rattle.all_matches.specs.Variants.{Lexicon};

/// A text satisfies `ftor` where it satisfies one of the operands.
pub fn sat_or_law()
    ensures { (lexicon : Lexicon) (options : Options) (forms : Forms) (tokens : List Token)
        → sat_under lexicon options (or_of forms) tokens ≡ some_form (λ form. sat_under lexicon options form tokens) forms }
{}

/// A text satisfies `ftand` where it satisfies all operands.
pub fn sat_and_law()
    ensures { (lexicon : Lexicon) (options : Options) (forms : Forms) (tokens : List Token)
        → sat_under lexicon options (and_of forms) tokens ≡ each_form_passes (λ form. sat_under lexicon options form tokens) forms }
{}

/// A text satisfies `ftnot` where it doesn't satisfy the operand.
pub fn sat_not_law()
    ensures { (lexicon : Lexicon) (options : Options) (form : Form) (tokens : List Token)
        → sat_under lexicon options (not_of form) tokens ≡ not (sat_under lexicon options form tokens) }
{}

/// Options before a selection hold inside it.
pub fn sat_options_law()
    ensures { (lexicon : Lexicon) (options inner : Options) (form : Form) (tokens : List Token)
        → sat_under lexicon options (with_options form inner) tokens ≡ sat_under lexicon (inside inner options) form tokens }
{}

/// A text satisfies words where they occur often enough in it.
pub fn sat_words_law()
    ensures { (lexicon : Lexicon) (options : Options) (value : Words) (tokens : List Token)
        → sat_under lexicon options (words value) tokens ≡ enough value.times (occurrences lexicon (inside value.options options) value tokens) }
{}

/// A selection is satisfied whichever number its first phrase has.
pub fn numbering_law()
    ensures { (lexicon : Lexicon) (options : Options) (first second : ℕ) (tokens : List Token) (form : Form)
        → satisfied (all_matches lexicon options (first + second) tokens form) ≡ satisfied (all_matches lexicon options second tokens form) }
{}
