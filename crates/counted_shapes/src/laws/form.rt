//! Of one field, what selections are made of.

ghost use Rattle.std.specs.Prelude.{◌≡◌, ℕ, Bool, List, true};
ghost use Rattle.std.specs.List.{list_all, list_any};
ghost use Rattle.ft_base.specs.Lists.{is_not_empty};
ghost use Rattle.ft_base.specs.Selection.{Form};
ghost use Rattle.ft_base.specs.declared.hit.Hit.{Hit};
ghost use Rattle.ft_base.specs.declared.options.Options.{Options};
ghost use Rattle.ft_base.specs.declared.token.Token.{Token};
ghost use Rattle.all_matches.specs.Meaning.{all_matches};
ghost use Rattle.all_matches.specs.Numbering.{shifted_hit};
ghost use Rattle.all_matches.specs.Variants.{Lexicon};
ghost use Rattle.counted_shapes.specs.Fields.{made_in};
ghost use Rattle.counted_shapes.specs.Held.{holds_in, is_boolean, needs_hit};

/// A selection without filters and mild not, at any depth, has a Match that is made in a field exactly where it holds there. The field doesn't
/// look at the numbers of phrases.
pub fn form_law()
    ensures { (lexicon : Lexicon) (options : Options) (tokens : List Token) (field : Hit → Bool) (form : Form) → is_boolean form ≡ true
        → ((by : ℕ) (hit : Hit) → field (shifted_hit by hit) ≡ field hit)
        → list_any (made_in field) (all_matches lexicon options 1 tokens form) ≡ holds_in field lexicon options tokens form }
{}

/// A selection that asks for a hit has an include in each of its Matches.
pub fn needs_hit_law()
    ensures { (lexicon : Lexicon) (options : Options) (first : ℕ) (tokens : List Token) (form : Form) → needs_hit form ≡ true
        → list_all (λ m. is_not_empty m.includes) (all_matches lexicon options first tokens form) ≡ true }
{}
