//! What holds of the tokens that are left where some are ignored, whatever text and holes they are of.
ghost use Rattle.std.specs.Prelude.{◌≡◌, ◌≤◌, ◌+◌, ◌-◌, ℕ, List, [], length, map, true};
ghost use Rattle.std.specs.List.{list_any};
ghost use Rattle.ft_base.specs.declared.span.Span.{Span};
ghost use Rattle.ft_base.specs.declared.token.Token.{Token};
ghost use Rattle.ignore_view.specs.Holes.{holes_in};
ghost use Rattle.ignore_view.specs.Without.{are_counted, covers, is_left_out, kept_from, without};

/// Where nothing is ignored, a text stays as it is, if its sentences and paragraphs are counted from 1.
pub fn without_nothing()
    ensures { (tokens : List Token) → are_counted tokens ≡ true → without tokens [] ≡ tokens }
{}

/// Where a hole holds all places of a text, nothing is left.
pub fn without_all()
    ensures { (tokens : List Token) (holes : List Span) → list_any (λ hole. covers hole tokens) holes ≡ true → without tokens holes ≡ [] }
{}

/// Only the places that holes cover count: not the order of the holes, nor how often one is there, nor those that lie outside.
pub fn without_same_places()
    ensures { (tokens : List Token) (a b : List Span)
        → ((place : ℕ) → 1 ≤ place → place ≤ length tokens → is_left_out a place ≡ is_left_out b place) → without tokens a ≡ without tokens b }
{}

/// What is left has sentences and paragraphs that are counted from 1, and their words are those of the tokens that are kept.
pub fn without_is_counted()
    ensures counted { (tokens : List Token) (holes : List Span) → are_counted (without tokens holes) ≡ true }
    ensures words { (tokens : List Token) (holes : List Span)
        → map (λ token. token.word) (without tokens holes) ≡ map (λ token. token.word) (kept_from holes 1 tokens) }
    ensures fewer { (tokens : List Token) (holes : List Span) → length (without tokens holes) ≤ length tokens }
{}

/// A hole of a document covers a place of a span, in the numbers of the span, where it covers the document's own place.
pub fn holes_in_spans()
    ensures { (span : Span) (holes : List Span) (place : ℕ) → is_left_out (holes_in span holes) place ≡ is_left_out holes (place + (span.from - 1)) }
{}
