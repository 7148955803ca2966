//! Selections under a window or a scope, by what holds in one field.

ghost use Rattle.std.specs.Prelude.{◌≡◌, ◌↔◌, ℕ, List, true};
ghost use Rattle.ft_base.specs.Selection.{Form, filtered};
ghost use Rattle.ft_base.specs.declared.filter.Filter.TheVariants as F;
ghost use Rattle.ft_base.specs.declared.options.Options.{Options};
ghost use Rattle.ft_base.specs.declared.token.Token.{Token};
ghost use Rattle.ft_base.specs.declared.unit.TextUnit.{TextUnit};
ghost use Rattle.ft_base.specs.declared.unit.TextUnit.TheVariants as U;
ghost use Rattle.all_matches.specs.Meaning.{sat_under};
ghost use Rattle.all_matches.specs.Variants.{Lexicon};
ghost use Rattle.counted_shapes.specs.Held.{HoldsInUnit, HoldsInWindow, is_boolean, needs_hit};

/// A text satisfies a window, `same sentence` or `same paragraph` round a selection without filters and mild not, however deep, that asks for a
/// hit, exactly where the selection holds in some window of the size, some sentence, some paragraph, as if nothing else were in the text.
pub fn fits_law()
    ensures window { (lexicon : Lexicon) (options : Options) (size : ℕ) (kind : TextUnit) (form : Form) (tokens : List Token)
        → is_boolean form ≡ true → needs_hit form ≡ true
        → (sat_under lexicon options (filtered form (F.Window size kind)) tokens ≡ true) ↔ HoldsInWindow size kind lexicon options tokens form }
    ensures same_sentence { (lexicon : Lexicon) (options : Options) (form : Form) (tokens : List Token) → is_boolean form ≡ true → needs_hit form ≡ true
        → (sat_under lexicon options (filtered form F.SameSentence) tokens ≡ true) ↔ HoldsInUnit U.Sentences lexicon options tokens form }
    ensures same_paragraph { (lexicon : Lexicon) (options : Options) (form : Form) (tokens : List Token) → is_boolean form ≡ true → needs_hit form ≡ true
        → (sat_under lexicon options (filtered form F.SameParagraph) tokens ≡ true) ↔ HoldsInUnit U.Paragraphs lexicon options tokens form }
{}
