//! Plans: selections compiled, so that texts can be tested against them.
//!
//! Truth values and counts tell whether a text satisfies what stands outside filters and `not in`; under them the ways tell it, in which
//! hits may be chosen, or counts of hits in one window, sentence or paragraph. No AllMatches are made. `plan_runs` opens a plan over a version of an index.
//!
//! Of a plan whose selection can be shown `compile_shown` makes what shows the best hits of a text that satisfies it, from the selection as it was read.
#![tactic(auto)]

mod chosen;
mod compiling;
mod compiling_counts;
mod compiling_operators;
mod compiling_phrases;
mod compiling_shown;
mod compiling_words;
mod counted_plan;
pub mod examples;
mod fault;
mod item_matching;
mod joining;
mod laws;
mod lists;
mod looks;
mod missing;
mod node;
mod operator_plan;
mod phrase_plan;
mod plan;
mod reaching;
mod reading;
mod served;
mod shown_plan;
mod stops;
mod text_word;
mod times;
mod uniting;
mod variants;
mod words_plan;

pub use compiling_shown::compile_shown;
pub use counted_plan::{CountedPlan, CountedWords};
pub use fault::CompileFault;
pub use item_matching::ItemTest;
pub use laws::missing_law;
pub use lists::Lists;
pub use looks::Looks;
pub use node::Node;
pub use operator_plan::{
    FilteredPlan, NegatedPlan, OperatorPlan, OperatorSides, PhraseTests, WaysPlan,
};
pub use phrase_plan::PhrasePlan;
pub use plan::Plan;
pub use shown_plan::{FirstWays, ShownNode, ShownPart, ShownPlan};
pub use text_word::TextWord;
pub use words_plan::WordsPlan;
