//! What holds of each path.

ghost use Rattle.std.specs.Prelude.{◌≡◌, ℕ, Bool, true, false, ◌&&◌, List, [], ◌∷◌, ◌++◌, filter, map, Some, All, AllPairs};
ghost use Rattle.std.specs.List.{list_all};
ghost use Rattle.plain_tree.specs.Document.{Node};
ghost use Rattle.path_meaning.specs.Elements.{Element, element_at, elements, node_at};
ghost use Rattle.path_grammar.specs.declared.path.NameTest.{NameTest};
ghost use Rattle.path_grammar.specs.Form.{Step, step, Steps, steps, Predicate, holds, predicates, Condition, and_of, conditions, Paths, no_paths, path_then};
ghost use Rattle.path_meaning.specs.Meaning.{is_named, is_true, led, filtered, ignored, selected};
ghost use Rattle.path_meaning.specs.Order.{precedes, Before};

/// What a path selects in a document are those of its elements that pass some test.
pub fn elements_law()
    ensures { (satisfies : ℕ → List Element → Element → Bool) (path : Steps) (root : Node)
        → (p : Element → Bool) × (selected satisfies path root ≡ filter p (elements root)) }
{}

/// It stands in document order, each element once.
pub fn order_law()
    ensures ordered { (satisfies : ℕ → List Element → Element → Bool) (path : Steps) (root : Node) → AllPairs Before (selected satisfies path root) }
    ensures once { (place : List ℕ) → precedes place place ≡ false }
{}

/// Steps go on from what the steps before them lead to.
pub fn steps_law()
    ensures { (satisfies : ℕ → List Element → Element → Bool) (all : List Element) (first second : List Step) (items : List Element)
        → led satisfies all (steps (first ++ second)) items ≡ led satisfies all (steps second) (led satisfies all (steps first) items) }
{}

/// Predicates see what the predicates before them have left.
pub fn predicates_law()
    ensures { (satisfies : ℕ → List Element → Element → Bool) (all : List Element) (first second : List Predicate) (items : List Element)
        → filtered satisfies all (predicates (first ++ second)) items
        ≡ filtered satisfies all (predicates second) (filtered satisfies all (predicates first) items) }
{}

/// Two conditions one after the other are the one that joins them by `and`.
pub fn conditions_law()
    ensures { (satisfies : ℕ → List Element → Element → Bool) (all : List Element) (a b : Condition) (items : List Element)
        → filtered satisfies all (predicates (holds a ∷ holds b ∷ [])) items
        ≡ filtered satisfies all (predicates (holds (and_of (conditions (a ∷ b ∷ []))) ∷ [])) items }
{}

/// What is ignored stands in document order, each element once, and the order of the paths doesn't matter.
pub fn ignored_law()
    ensures ordered { (satisfies : ℕ → List Element → Element → Bool) (root : Node) (paths : Paths) (e : Element)
        → AllPairs Before (ignored satisfies (elements root) paths e) }
    ensures either_order { (satisfies : ℕ → List Element → Element → Bool) (all : List Element) (a b : Steps) (e : Element)
        → ignored satisfies all (path_then a (path_then b no_paths)) e ≡ ignored satisfies all (path_then b (path_then a no_paths)) e }
{}

/// The place of each element of a document leads to it.
pub fn places_law()
    ensures { (root : Node) → All (λ e. node_at root e.place ≡ Some e.node) (elements root) }
{}

/// `//`, a test of names and conditions select those of the document's elements that pass the test and of which each condition is true.
pub fn deep_step_law()
    ensures { (satisfies : ℕ → List Element → Element → Bool) (test : NameTest) (tests : List Condition) (root : Node)
        → selected satisfies (steps (step true test (predicates (map holds tests)) ∷ [])) root
        ≡ filter (λ e. is_named test e.node && list_all (λ c. is_true satisfies (elements root) c e) tests) (elements root) }
{}

/// `/`, a test of names and conditions select the root, where it passes the test and each condition is true of it.
pub fn root_step_law()
    ensures { (satisfies : ℕ → List Element → Element → Bool) (test : NameTest) (tests : List Condition) (root : Node)
        → selected satisfies (steps (step false test (predicates (map holds tests)) ∷ [])) root
        ≡ filter (λ e. is_named test e.node && list_all (λ c. is_true satisfies (elements root) c e) tests) (element_at [] root) }
{}
