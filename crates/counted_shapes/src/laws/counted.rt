//! Counted shapes under a window or a scope, by counts of their items.

ghost use Rattle.std.specs.Prelude.{◌≡◌, ◌↔◌, ℕ, Bool, List, nat_lt, Some, true};
ghost use Rattle.std.specs.List.{list_all, list_any};
ghost use Rattle.ft_base.specs.Selection.{Form, filtered};
ghost use Rattle.ft_base.specs.declared.filter.Filter.{Filter};
ghost use Rattle.ft_base.specs.declared.filter.Filter.TheVariants as F;
ghost use Rattle.ft_base.specs.declared.hit.Hit.{Hit};
ghost use Rattle.ft_base.specs.declared.options.Options.{Options};
ghost use Rattle.ft_base.specs.declared.token.Token.{Token};
ghost use Rattle.ft_base.specs.declared.unit.TextUnit.{TextUnit};
ghost use Rattle.ft_base.specs.declared.unit.TextUnit.TheVariants as U;
ghost use Rattle.all_matches.specs.Meaning.{sat_under};
ghost use Rattle.all_matches.specs.Variants.{Lexicon};
ghost use Rattle.counted_shapes.specs.Accepted.{field_of, fit_in};
ghost use Rattle.counted_shapes.specs.Fields.{in_unit, in_window};
ghost use Rattle.counted_shapes.specs.Held.{holds_in, is_boolean, needs_hit};
ghost use Rattle.counted_shapes.specs.declared.field.Field.{Field};
ghost use Rattle.counted_shapes.specs.Shapes.{Counted, fit_in_unit, fit_in_window, has_enough, is_shape, items_of};

/// A counted shape, which is Boolean, holds in a field exactly where each of its items has enough there, and it asks for a hit exactly where one
/// of them does.
pub fn items_law()
    ensures holds { (lexicon : Lexicon) (options : Options) (tokens : List Token) (field : Hit → Bool) (form : Form) → is_shape form ≡ true
        → holds_in field lexicon options tokens form ≡ list_all (has_enough field) (items_of lexicon options tokens form) }
    ensures needs_hit { (lexicon : Lexicon) (options : Options) (tokens : List Token) (form : Form) → is_shape form ≡ true
        → needs_hit form ≡ list_any (λ item. nat_lt 0 item.least) (items_of lexicon options tokens form) }
    ensures boolean { (form : Form) → is_shape form ≡ true → is_boolean form ≡ true }
{}

/// Of items of which one asks for a hit, some window of the size has enough of each and not too many exactly where one has that ends where a hit
/// comes in or has just gone, and some sentence or paragraph exactly where one has in which a hit begins.
pub fn events_law()
    ensures window { (size : ℕ) (kind : TextUnit) (items : List Counted) → list_any (λ item. nat_lt 0 item.least) items ≡ true
        → (fit_in_window size kind items ≡ true) ↔ ((last : ℕ) × (list_all (has_enough (in_window size kind last)) items ≡ true)) }
    ensures unit { (kind : TextUnit) (items : List Counted) → list_any (λ item. nat_lt 0 item.least) items ≡ true
        → (fit_in_unit kind items ≡ true) ↔ ((number : ℕ) × (list_all (has_enough (in_unit kind number)) items ≡ true)) }
{}

/// A text satisfies a window, `same sentence` or `same paragraph` round a counted shape that asks for a hit exactly where its items fit: one window,
/// sentence or paragraph has enough of each and not too many.
pub fn counted_law()
    ensures window { (lexicon : Lexicon) (options : Options) (size : ℕ) (kind : TextUnit) (form : Form) (tokens : List Token)
        → is_shape form ≡ true → needs_hit form ≡ true
        → sat_under lexicon options (filtered form (F.Window size kind)) tokens ≡ fit_in_window size kind (items_of lexicon options tokens form) }
    ensures same_sentence { (lexicon : Lexicon) (options : Options) (form : Form) (tokens : List Token) → is_shape form ≡ true → needs_hit form ≡ true
        → sat_under lexicon options (filtered form F.SameSentence) tokens ≡ fit_in_unit U.Sentences (items_of lexicon options tokens form) }
    ensures same_paragraph { (lexicon : Lexicon) (options : Options) (form : Form) (tokens : List Token) → is_shape form ≡ true → needs_hit form ≡ true
        → sat_under lexicon options (filtered form F.SameParagraph) tokens ≡ fit_in_unit U.Paragraphs (items_of lexicon options tokens form) }
    ensures in_field { (lexicon : Lexicon) (options : Options) (kind : Filter) (field : Field) (form : Form) (tokens : List Token)
        → field_of kind ≡ Some field → is_shape form ≡ true → needs_hit form ≡ true
        → sat_under lexicon options (filtered form kind) tokens ≡ fit_in field (items_of lexicon options tokens form) }
{}
