//! What the parts of a path stand for.

ghost use Rattle.std.specs.Prelude.{◌≡◌, ℕ, List, map, Option};
ghost use Rattle.path_grammar.specs.Form as form;
ghost use Rattle.path_grammar.specs.View.{step, predicate, condition, relative_path};
ghost use Rattle.path_grammar.specs.declared.path.Step.{Step};
ghost use Rattle.path_grammar.specs.declared.path.Condition.{Condition, Or, Exists, Contains};
ghost use Rattle.path_grammar.specs.declared.path.Predicate.{Number, Holds};
ghost use Rattle.path_grammar.specs.declared.path.RelativePath.{RelativePath};

/// Predicates, and conditions on what steps lead to and on others, as their plain data.
pub fn views_law()
    ensures number { (k : ℕ) → predicate (Number k) ≡ form.number k }
    ensures holds { (c : Condition) → predicate (Holds c) ≡ form.holds (condition c) }
    ensures either { (parts : List Condition) → condition (Or parts) ≡ form.or_of (form.conditions (map condition parts)) }
    ensures exists { (further : List Step) → condition (Exists further) ≡ form.exists (form.steps (map step further)) }
    ensures contains { (further : List Step) (selection : ℕ) (ignored : List RelativePath)
        → condition (Contains further selection ignored) ≡ form.contains (form.steps (map step further)) selection (form.paths (map relative_path ignored)) }
{}
