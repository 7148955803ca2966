ghost use Rattle.std.specs.Prelude.{◌≡◌, ◌≤◌, true};
ghost use Rattle.std.specs.List.{list_all, list_any};
ghost use Rattle.all_matches.specs.Chain.{kept_by};
ghost use Rattle.all_matches.specs.Ways.{matches_of, without_negation};
ghost use Rattle.ft_operators.specs.Chains.{links_of};
ghost use Rattle.ft_operators.specs.Tuples.{room_of, walk_of};
ghost use Rattle.ft_operators.specs.Walk.{before_first};

use crate::chain::Chain;
use crate::cleaning::some_is_kept;
use crate::course::firsts;
use crate::extent::untold;
use crate::{PhraseHits, Tuples};
use ft_base::Steps;
use std::sync::ledger::Ledger;

/// Whether some Match of a negated selection has all its hits kept by the chain. No negated selection stands inside; else
/// nothing is said of the answer. The walk is left before its first way.
pub fn probe<P: PhraseHits + Drop, L: Ledger>(
    negated: &mut Tuples<P>,
    chain: &Chain,
    steps: &mut Steps<L>,
) -> bool
    ensures kept { without_negation ((walk_of P.state negated.old).operator) ≡ true
        → result ≡ list_any (λ m. list_all (kept_by (links_of chain.now)) m.includes)
        (matches_of (walk_of P.state negated.old).item ((walk_of P.state negated.old).operator)) }
    ensures walk { walk_of P.state negated.new
        ≡ before_first (walk_of P.state negated.old).item (walk_of P.state negated.old).aims (walk_of P.state negated.old).operator }
    ensures room { room_of negated.new ≡ room_of negated.old }
    ensures grown { steps.old ≤ steps.new }
{
    negated.there = false;
    let firsts = firsts(negated.item, chain.bounds(), untold(), None);
    some_is_kept(&mut negated.node, firsts, chain, &mut negated.held, steps)
}
