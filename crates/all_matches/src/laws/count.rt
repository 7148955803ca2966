//! How often words occur, as sums and products of numbers of places.

ghost use Rattle.std.specs.Prelude.{◌≡◌, List, map, sum};
ghost use Rattle.ft_base.specs.declared.options.Options.{Options};
ghost use Rattle.ft_base.specs.declared.token.Token.{Token};
ghost use Rattle.ft_base.specs.declared.words.Words.{Words};
ghost use Rattle.all_matches.specs.Compositional.{occurrences};
ghost use Rattle.all_matches.specs.Counting.{by_length, hit_count, places, value_count};
ghost use Rattle.all_matches.specs.Hits.{passes_item};
ghost use Rattle.all_matches.specs.Variants.{Item, Lexicon, variants};

/// A value occurs as often as its phrases together under `any` and `phrase`, and under `all` as often as there are ways to choose a hit
/// of each phrase.
pub fn occurrences_law()
    ensures { (lexicon : Lexicon) (options : Options) (value : Words) (tokens : List Token)
        → occurrences lexicon options value tokens ≡ value_count lexicon options value tokens }
{}

/// A phrase has a hit at each place for each length of which one of its variants begins there.
pub fn places_law()
    ensures { (lexicon : Lexicon) (options : Options) (phrase : List Item) (tokens : List Token)
        → hit_count lexicon options tokens phrase
        ≡ sum (map (λ group. places (passes_item lexicon options) group.1 tokens) (by_length (variants lexicon options phrase))) }
{}
