//! AllMatches that satisfy alike.

ghost use Rattle.std.specs.Prelude.{◌≡◌, ◌+◌, ℕ, List, true};
ghost use Rattle.std.specs.List.{list_all};
ghost use Rattle.ft_base.specs.declared.filter.Filter.{Filter};
ghost use Rattle.ft_base.specs.declared.hit.Match.{Match};
ghost use Rattle.ft_base.specs.declared.options.Options.{Options};
ghost use Rattle.ft_base.specs.declared.span.Span.{Span};
ghost use Rattle.ft_base.specs.declared.token.Token.{Token};
ghost use Rattle.ft_base.specs.Selection.{Form};
ghost use Rattle.all_matches.specs.Boolean.{ft_and, ft_not, ft_or, is_clean, satisfied};
ghost use Rattle.all_matches.specs.Filters.{ft_filtered};
ghost use Rattle.all_matches.specs.MildNot.{ft_mild_not};
ghost use Rattle.match_sets.specs.Alike.{Alike};
ghost use Rattle.all_matches.specs.Meaning.{phrase_count};
ghost use Rattle.all_matches.specs.Operators.{operator_of};
ghost use Rattle.all_matches.specs.Variants.{Lexicon};
ghost use Rattle.all_matches.specs.Ways.{Operator, is_plain, matches_of};
ghost use Rattle.match_sets.specs.Numbers.{keeps_turns, renumbered};
ghost use Rattle.match_sets.specs.United.{IsNumbered, IsUnited};

/// Or, And, mild not and filters keep AllMatches alike, and Not those without excludes.
pub fn alike_law()
    ensures ft_or { (a b c d : List Match) → Alike a b → Alike c d → Alike (ft_or a c) (ft_or b d) }
    ensures ft_and { (a b c d : List Match) → Alike a b → Alike c d → Alike (ft_and a c) (ft_and b d) }
    ensures mild_not { (a b c d : List Match) → Alike a b → Alike c d → Alike (ft_mild_not a c) (ft_mild_not b d) }
    ensures ft_not { (a b : List Match) → list_all is_clean a ≡ true → list_all is_clean b ≡ true → Alike a b → Alike (ft_not a) (ft_not b) }
    ensures filter { (kind : Filter) (item : Span) (a b : List Match) → Alike a b → Alike (ft_filtered kind item a) (ft_filtered kind item b) }
    ensures satisfied { (a b : List Match) → Alike a b → satisfied a ≡ satisfied b }
{}

/// Or, And, Not and mild not look at no numbers, and filters at the order of those of two includes, and of an exclude and an include.
pub fn renumbering_law()
    ensures ft_or { (number : ℕ → ℕ) (a b : List Match) → renumbered number (ft_or a b) ≡ ft_or (renumbered number a) (renumbered number b) }
    ensures ft_and { (number : ℕ → ℕ) (a b : List Match) → renumbered number (ft_and a b) ≡ ft_and (renumbered number a) (renumbered number b) }
    ensures mild_not { (number : ℕ → ℕ) (a b : List Match) → renumbered number (ft_mild_not a b) ≡ ft_mild_not (renumbered number a) (renumbered number b) }
    ensures ft_not { (number : ℕ → ℕ) (a : List Match) → renumbered number (ft_not a) ≡ ft_not (renumbered number a) }
    ensures filter { (number : ℕ → ℕ) (kind : Filter) (item : Span) (a : List Match) → list_all (keeps_turns number) a ≡ true
        → ft_filtered kind item (renumbered number a) ≡ renumbered number (ft_filtered kind item a) }
{}

/// An operator is satisfied exactly where it is with choices of phrases united: their equal hits count once, and of numbers nothing tells but that
/// those of a right side come after those of the left one. What is negated stays where it was.
pub fn united_law()
    ensures satisfied { (item : Span) (first next start end : ℕ) (operator united : Operator) → IsNumbered first next operator → IsUnited start end operator united
        → is_plain operator ≡ true → satisfied (matches_of item united) ≡ satisfied (matches_of item operator) }
    ensures plain { (start end : ℕ) (operator united : Operator) → IsUnited start end operator united → is_plain united ≡ is_plain operator }
{}

/// The phrases of the operator of a selection are numbered in the order in which they stand there.
pub fn numbered_law()
    ensures { (lexicon : Lexicon) (options : Options) (first : ℕ) (tokens : List Token) (form : Form)
        → IsNumbered first (first + phrase_count lexicon options form) (operator_of lexicon options first tokens form) }
{}
