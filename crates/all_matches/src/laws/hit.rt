//! The hits of a phrase as a list.

ghost use Rattle.std.specs.Prelude.{◌≡◌, ◌≤◌, true, ℕ, suc, List, length, map, filter};
ghost use Rattle.ft_base.specs.declared.options.Options.{Options};
ghost use Rattle.ft_base.specs.declared.span.Span.{Span};
ghost use Rattle.ft_base.specs.declared.token.Token.{Token};
ghost use Rattle.all_matches.specs.Hits.{hits};
ghost use Rattle.ft_base.specs.Hits.{is_sorted};
ghost use Rattle.all_matches.specs.Spans.{renumbered, in_span, lies_in_span, told_in_span};
ghost use Rattle.all_matches.specs.Variants.{Item, Lexicon};

/// The hits of a phrase are listed by first word, then by last word, each once.
pub fn sorted_hits_law()
    ensures { (lexicon : Lexicon) (options : Options) (number : ℕ) (phrase : List Item) (tokens : List Token)
        → is_sorted (hits lexicon options number phrase tokens) ≡ true }
{}

/// The hits of a phrase in a part of a text are those of the text that lie in it, their places counted from the part's first token, and their
/// sentences and paragraphs numbered as the part's tokens are.
pub fn span_hits_law()
    ensures { (lexicon : Lexicon) (options : Options) (number : ℕ) (phrase : List Item) (tokens : List Token) (span : Span) (sentences paragraphs : ℕ → ℕ)
        → 1 ≤ span.from → span.from ≤ span.to → span.to ≤ suc (length tokens)
        → hits lexicon options number phrase (map (renumbered sentences paragraphs) (in_span span tokens))
        ≡ map (told_in_span sentences paragraphs span) (filter (lies_in_span span) (hits lexicon options number phrase tokens)) }
{}
