//! Prices of paths in small documents, by computation.
#![tactic(auto, unfolding(crate::specs::PathPrices::element_price, crate::specs::PathPrices::moves_for, crate::specs::PathPrices::asks_cheaply,
// which selections are cheap
plan_compiler::specs::CheapSelections::is_cheap_under,
// where steps lead
path_meaning::specs::Meaning::stepped, path_meaning::specs::Meaning::led,
// what predicates keep
path_meaning::specs::Meaning::filtered, path_meaning::specs::Meaning::filtered_by, path_meaning::specs::Meaning::is_true, path_meaning::specs::Meaning::ignored,
// what satisfies a selection
crate::specs::Paths::satisfies,
// what steps ask
path_meaning::specs::Tests::step_tests, path_meaning::specs::Tests::steps_tests, path_meaning::specs::Tests::selected_tests,
// what predicates ask
path_meaning::specs::Tests::predicates_tests, path_meaning::specs::Tests::predicate_tests, path_meaning::specs::Tests::condition_tests, path_meaning::specs::Tests::ignored_tests))]

ghost use Rattle.std.specs.Prelude.{◌≡◌, ◌∷◌, [], ℕ, List, codes, false, true, Ok, Err};
ghost use Rattle.std.specs.List.{sum_by};
ghost use Rattle.ft_base.specs.declared.fault.QueryFault.TheVariants as faults;
ghost use Rattle.ft_base.specs.Selection.{Form, mild_not};
ghost use Rattle.all_matches.specs.Examples.{word_a, word_b};
ghost use Rattle.index_meaning.specs.Documents.{Numbered};
ghost use Rattle.path_grammar.specs.declared.path.PathRoot.TheVariants.{Collection, Doc};
ghost use Rattle.path_meaning.specs.Elements.{Element};
ghost use Rattle.path_meaning.specs.Examples.{letters, nested};
ghost use Rattle.path_subset.specs.Answer.{path_read};
ghost use Rattle.path_subset.specs.Paths.{PathForm};
ghost use Rattle.plan_runs.specs.Judgement.{Judgement};
ghost use Rattle.plan_compiler.specs.Lexicon.{lexicon};
ghost use Rattle.plan_compiler.specs.NamedLists.{NamedLists};
ghost use Rattle.plan_runs.specs.RunPrice.{price};
ghost use Rattle.reply_lines.specs.declared.command.Command.TheVariants as command;
ghost use Rattle.tokenizer.specs.Tokens.{words_in};
ghost use Rattle.session_state.specs.KeptTexts.{text_at};
ghost use Rattle.session_state.specs.Held.{Held};
ghost use Rattle.session_state.specs.PathPrices.{asks_cheaply, element_price, is_cheap_path, moves_for, path_price, price_in, read_price, words_of};
ghost use Rattle.session_state.specs.State.{State};
ghost use Rattle.session_state.specs.PriceExamples.{both_asked, first_asked, named_b, two_held, with_selections};

/// The selections of a path are numbered from 0, and one that isn't there costs nothing.
pub fn prices_at_elements()
    ensures words { (e : Element) → words_of e ≡ words_in e.node }
    ensures first { (f g : List (List ℕ) → ℕ) → (e : Element) → element_price (f ∷ g ∷ []) 0 e ≡ f (words_of e) }
    ensures second { (f g : List (List ℕ) → ℕ) → (e : Element) → element_price (f ∷ g ∷ []) 1 e ≡ g (words_of e) }
    ensures after { (f g : List (List ℕ) → ℕ) → (e : Element) → element_price (f ∷ g ∷ []) 2 e ≡ 0 }
{}

/// A path costs in a document what its tests do: each predicate asks of the elements that those before it have left.
pub fn prices_in_documents()
    ensures one { (says : Judgement) → (keys : List (List ℕ)) → (lists : NamedLists) → (version : List Numbered) → (f g : Form)
        → price_in says keys lists version (with_selections Collection first_asked (f ∷ g ∷ [])) letters
        ≡ sum_by (λ e. price (lexicon lists) f version (words_of e)) named_b }
    ensures none_left { (keys : List (List ℕ)) → (lists : NamedLists) → (version : List Numbered) → (f g : Form)
        → price_in (λ form lists tokens. false) keys lists version (with_selections Collection both_asked (f ∷ g ∷ [])) letters
        ≡ sum_by (λ e. price (lexicon lists) f version (words_of e)) named_b }
    ensures all_left { (keys : List (List ℕ)) → (lists : NamedLists) → (version : List Numbered) → (f g : Form)
        → price_in (λ form lists tokens. true) keys lists version (with_selections Collection both_asked (f ∷ g ∷ [])) letters
        ≡ sum_by (λ form. sum_by (λ e. price (lexicon lists) form version (words_of e)) named_b) (f ∷ g ∷ []) }
{}

/// A path costs what it does in the documents of its root, over the lists and the version that a session holds.
pub fn prices_of_paths()
    ensures all { (says : Judgement) → (lists : NamedLists) → (version : List Numbered) → (f : Form)
        → path_price says (two_held lists version) (with_selections Collection first_asked (f ∷ []))
        ≡ sum_by (price_in says [] lists version (with_selections Collection first_asked (f ∷ []))) (letters ∷ nested ∷ []) }
    ensures one { (says : Judgement) → (lists : NamedLists) → (version : List Numbered) → (f : Form)
        → path_price says (two_held lists version) (with_selections (Doc (codes "n")) first_asked (f ∷ []))
        ≡ sum_by (price_in says [] lists version (with_selections (Doc (codes "n")) first_asked (f ∷ []))) (nested ∷ []) }
    ensures not_there { (says : Judgement) → (lists : NamedLists) → (version : List Numbered) → (f : Form)
        → path_price says (two_held lists version) (with_selections (Doc (codes "o")) first_asked (f ∷ [])) ≡ 0 }
{}

/// A text that is no path costs nothing, nor does a command that has none.
pub fn prices_of_commands()
    ensures path { (says : Judgement) → (held : Held) → (p : PathForm) → read_price says held (Ok p) ≡ path_price says held p }
    ensures no_path { (says : Judgement) → (held : Held) → read_price says held (Err (faults.Syntax 0)) ≡ 0 }
    ensures query { (says : Judgement) → (held : Held) → (text : List ℕ) → moves_for says held (command.Query text) ≡ read_price says held (path_read text) }
    ensures print { (says : Judgement) → (held : Held) → (text : List ℕ) → moves_for says held (command.Print text) ≡ read_price says held (path_read text) }
    ensures show { (says : Judgement) → (held : Held) → (text : List ℕ) → moves_for says held (command.Show text) ≡ read_price says held (path_read text) }
    ensures drop { (says : Judgement) → (held : Held) → (name : List ℕ) → moves_for says held (command.Drop name) ≡ 0 }
    ensures abbreviations { (says : Judgement) → (held : Held) → (block : List ℕ) → moves_for says held (command.Abbreviations block) ≡ 0 }
{}

/// A path is cheap where each of its selections is; a command asks cheaply where its path is cheap, or where it has none.
pub fn cheap_paths()
    ensures all { (lists : NamedLists) → is_cheap_path lists (Ok (with_selections Collection both_asked (word_a ∷ word_b ∷ []))) ≡ true }
    ensures none_asked { (lists : NamedLists) → is_cheap_path lists (Ok (with_selections Collection [] [])) ≡ true }
    ensures first_not { (lists : NamedLists) → is_cheap_path lists (Ok (with_selections Collection both_asked (mild_not word_a word_b ∷ word_b ∷ []))) ≡ false }
    ensures last_not { (lists : NamedLists) → is_cheap_path lists (Ok (with_selections Collection both_asked (word_a ∷ mild_not word_a word_b ∷ []))) ≡ false }
    ensures no_path { (lists : NamedLists) → is_cheap_path lists (Err (faults.Syntax 0)) ≡ true }
    ensures query { (state : State) → (text : List ℕ) → asks_cheaply state (command.Query text) ≡ is_cheap_path state.lists (path_read text) }
    ensures at_a_mark { (state : State) → (name text : List ℕ) → asks_cheaply state (command.QueryAt name text) ≡ is_cheap_path state.lists (path_read text) }
    ensures delete { (state : State) → (text : List ℕ) → asks_cheaply state (command.Delete text) ≡ is_cheap_path state.lists (path_read text) }
    ensures drop { (state : State) → (name : List ℕ) → asks_cheaply state (command.Drop name) ≡ true }
    ensures no_watch { (state : State) → (name : List ℕ) → asks_cheaply (record state { watches = [] }) (command.Changes name) ≡ true }
{}

/// What stands at an extent of a text: a selection as it is written, with its quotes; nothing after the text's end.
pub fn texts_at_extents()
    ensures inside { text_at (codes "//p[. contains text 'b']") (record { from = 20; to = 23 }) ≡ codes "'b'" }
    ensures to_the_end { text_at (codes "'b'") (record { from = 0; to = 3 }) ≡ codes "'b'" }
    ensures nothing { text_at (codes "'b'") (record { from = 2; to = 2 }) ≡ [] }
    ensures after { text_at (codes "'b'") (record { from = 2; to = 9 }) ≡ codes "'" }
{}
