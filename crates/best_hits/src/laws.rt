//! What best hits are.

ghost use Rattle.std.specs.Prelude.{◌≡◌, ◌≢◌, ◌+◌, [], ℕ, List, false, filter, flat_map, map, take, true};
ghost use Rattle.std.specs.List.{list_any};
ghost use Rattle.ft_base.specs.declared.hit.Hit.{Hit};
ghost use Rattle.ft_base.specs.declared.options.Options.{Options};
ghost use Rattle.ft_base.specs.declared.token.Token.{Token};
ghost use Rattle.ft_base.specs.declared.words.Words.{Words};
ghost use Rattle.ft_base.specs.Selection.{Form};
ghost use Rattle.all_matches.specs.Allowed.{may_be_filtered};
ghost use Rattle.all_matches.specs.Boolean.{satisfied};
ghost use Rattle.all_matches.specs.Chain.{kept_by};
ghost use Rattle.all_matches.specs.Meaning.{all_matches, value_matches};
ghost use Rattle.all_matches.specs.Operators.{operator_of, value_operator};
ghost use Rattle.all_matches.specs.Spans.{whole_text};
ghost use Rattle.all_matches.specs.Variants.{Lexicon};
ghost use Rattle.all_matches.specs.Ways.{clean_under, way_includes, ways_of};
ghost use Rattle.best_hits.specs.Best.{best, Gives, includes_of, SomeOf, spans_of};
ghost use Rattle.best_hits.specs.Least.{comes_before, least, least_includes};
ghost use Rattle.best_hits.specs.Showable.{can_show};

/// The best hits of a selection that can be shown, where the tokens satisfy it, are the includes of some Match of it without excludes.
pub fn best_law()
    ensures { (lexicon : Lexicon) (options : Options) (first : ℕ) (tokens : List Token) (form : Form) → can_show form ≡ true
        → satisfied (all_matches lexicon options first tokens form) ≡ true
        → SomeOf (Gives (best lexicon options first tokens form)) (all_matches lexicon options first tokens form) }
{}

/// The least of some lists of hits is one of them, and none comes before it.
pub fn least_law()
    ensures among { (lists : List (List Hit)) → lists ≢ [] → SomeOf (λ list. list ≡ least lists) lists }
    ensures least { (lists : List (List Hit)) → list_any (λ list. comes_before list (least lists)) lists ≡ false }
{}

/// The ways of words have the includes of their Matches, one after the other, and so the first of them those of the first Matches.
pub fn words_law()
    ensures each { (lexicon : Lexicon) (options : Options) (first : ℕ) (value : Words) (tokens : List Token)
        → map way_includes (ways_of (whole_text tokens) (value_operator lexicon options first value tokens))
        ≡ map (λ m. m.includes) (value_matches lexicon options first value tokens) }
    ensures first { (lexicon : Lexicon) (options : Options) (first : ℕ) (value : Words) (tokens : List Token) (most : ℕ)
        → flat_map way_includes (take most (ways_of (whole_text tokens) (value_operator lexicon options first value tokens)))
        ≡ includes_of (take most (value_matches lexicon options first value tokens)) }
{}

/// The least includes of the Matches without excludes stand at the places of the least includes of the clean ways.
pub fn least_by_ways_law()
    ensures { (lexicon : Lexicon) (options : Options) (first : ℕ) (tokens : List Token) (form : Form) → may_be_filtered form ≡ true
        → spans_of (least_includes (all_matches lexicon options first tokens form))
        ≡ spans_of (least (map way_includes
        (filter (clean_under (kept_by [])) (ways_of (whole_text tokens) (operator_of lexicon options first tokens form))))) }
{}

/// The places of the best hits don't depend on the number of the first phrase.
pub fn best_numbering_law()
    ensures { (lexicon : Lexicon) (options : Options) (first second : ℕ) (tokens : List Token) (form : Form)
        → spans_of (best lexicon options (first + second) tokens form) ≡ spans_of (best lexicon options second tokens form) }
{}
