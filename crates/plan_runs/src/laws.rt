//! What the judge of a session says.

ghost use Rattle.std.specs.Prelude.{◌≡◌, List};
ghost use Rattle.ft_base.specs.Selection.{Form};
ghost use Rattle.ft_base.specs.declared.token.Token.{Token};
ghost use Rattle.all_matches.specs.Meaning.{sat};
ghost use Rattle.plan_compiler.specs.Lexicon.{lexicon};
ghost use Rattle.plan_compiler.specs.NamedLists.{NamedLists};

use crate::judge::{Direct, Judge};

/// `Direct` says that tokens satisfy a selection where they satisfy it by the standard's definitions, under these lists.
pub fn direct_law()
    ensures { (form : Form) (lists : NamedLists) (tokens : List Token) → ⟦<Direct as Judge>⟧.says form lists tokens ≡ sat (lexicon lists) form tokens }
{}
