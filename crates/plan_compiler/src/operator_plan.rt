//! Selections with filters and `not in`, compiled.

ghost use Rattle.std.specs.Prelude.{◌≡◌, true};
ghost use Rattle.all_matches.specs.Ways.{is_plain};
ghost use Rattle.plan_compiler.specs.Operators.{LookedText, operator_at};

use crate::item_matching::ItemTest;
use ft_base::{Filter, Items};

/// A selection with filters or `not in`, compiled. No negated selection stands in another one, nor in `not in`.
#[derive(Drop)]
pub struct WaysPlan {
    pub operator: OperatorPlan,
    pub ghost plain: { (text : LookedText) → is_plain (operator_at text operator) ≡ true },
}

/// A phrase, or what is made of phrases.
#[cycle(operator)]
#[derive(Drop)]
pub enum OperatorPlan {
    Phrase(PhraseTests),
    /// One of two sides.
    Choice(Box<OperatorSides>),
    /// Both of two sides.
    Both(Box<OperatorSides>),
    /// The left side, where it stands out of the right one.
    MildNot(Box<OperatorSides>),
    Negated(Box<NegatedPlan>),
    Filtered(Box<FilteredPlan>),
}

#[cycle(operator)]
#[derive(Drop)]
pub struct OperatorSides {
    pub left: OperatorPlan,
    pub right: OperatorPlan,
}

#[cycle(operator)]
#[derive(Drop)]
pub struct NegatedPlan {
    pub operand: OperatorPlan,
}

#[cycle(operator)]
#[derive(Drop)]
pub struct FilteredPlan {
    pub operand: OperatorPlan,
    pub kind: Filter,
}

/// The phrase of that number in its selection: what the words of each of its variants have to be.
#[derive(Drop)]
pub struct PhraseTests {
    pub number: u32,
    pub variants: Items<Items<ItemTest>>,
}
