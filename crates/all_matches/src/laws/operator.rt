//! A selection, its operator, and the ways in which it is satisfied.

ghost use Rattle.std.specs.Prelude.{◌≡◌, ℕ, List, [], true};
ghost use Rattle.std.specs.List.{list_any};
ghost use Rattle.ft_base.specs.declared.filter.Filter.{Filter};
ghost use Rattle.ft_base.specs.declared.options.Options.{Options};
ghost use Rattle.ft_base.specs.declared.token.Token.{Token};
ghost use Rattle.ft_base.specs.Selection.{Form, mild_not, filtered};
ghost use Rattle.all_matches.specs.Allowed.{without_times, has_plain_nots, may_be_filtered, is_allowed};
ghost use Rattle.all_matches.specs.Boolean.{satisfied};
ghost use Rattle.all_matches.specs.Chain.{kept_by};
ghost use Rattle.all_matches.specs.Meaning.{all_matches};
ghost use Rattle.all_matches.specs.Operators.{operator_of};
ghost use Rattle.all_matches.specs.Spans.{whole_text};
ghost use Rattle.all_matches.specs.Variants.{Lexicon};
ghost use Rattle.all_matches.specs.Ways.{clean_under, is_plain, matches_of, ways_of};

/// The AllMatches of the operator of a selection without `occurs` are those of the selection.
pub fn operator_law()
    ensures { (lexicon : Lexicon) (options : Options) (first : ℕ) (tokens : List Token) (form : Form) → without_times form ≡ true
        → matches_of (whole_text tokens) (operator_of lexicon options first tokens form) ≡ all_matches lexicon options first tokens form }
{}

/// Where `ftnot` stands neither in another nor in `not in`, the negated operands of the operator don't either.
pub fn plain_operator_law()
    ensures { (lexicon : Lexicon) (options : Options) (first : ℕ) (tokens : List Token) (form : Form) → has_plain_nots form ≡ true
        → is_plain (operator_of lexicon options first tokens form) ≡ true }
{}

/// What is allowed as a selection with a filter, and as `not in`, may stand under a further filter, so that the laws here speak of it.
pub fn allowed_law()
    ensures filter { (form : Form) (kind : Filter) → is_allowed (filtered form kind) ≡ true → may_be_filtered (filtered form kind) ≡ true }
    ensures mild_not { (left right : Form) → is_allowed (mild_not left right) ≡ true → may_be_filtered (mild_not left right) ≡ true }
{}

/// A selection that may stand under a filter, with its filters, is satisfied exactly where one of its ways is clean under the chain without links.
pub fn filtered_selection_law()
    ensures { (lexicon : Lexicon) (options : Options) (first : ℕ) (tokens : List Token) (form : Form) → may_be_filtered form ≡ true
        → satisfied (all_matches lexicon options first tokens form)
        ≡ list_any (clean_under (kept_by [])) (ways_of (whole_text tokens) (operator_of lexicon options first tokens form)) }
{}
