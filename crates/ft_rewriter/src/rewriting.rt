ghost use Rattle.std.specs.Prelude.{◌≡◌, true, IfOk, List};
ghost use Rattle.all_matches.specs.Meaning.{sat};
ghost use Rattle.all_matches.specs.Variants.{Lexicon};
ghost use Rattle.counted_shapes.specs.Accepted.{is_accepted};
ghost use Rattle.ft_base.specs.declared.token.Token.{Token};
ghost use Rattle.ft_rewriter.specs.Rewriting.{rewritten};
ghost use Rattle.ft_syntax.specs.View.{form};

use crate::given::given;
use crate::simplified::simplified;
use ft_base::{Memory, Options};
use ft_syntax::Selection;
use std::alloc::Global;

/// The options are given to the words, and what then stands there is simplified.
fn give_and_simplify(alloc: Global, selection: &Selection) -> Result<Selection, Memory>
    ensures { IfOk result (λ simple. form simple ≡ rewritten (form selection.now)) }
{
    let given = given(alloc, &Options::none(), selection)?;
    let rewritten = simplified(alloc, &given);
    std::mem::drop(given);
    rewritten
}

/// The selection in a simpler form, which the same texts satisfy: options stand at words alone, `ftnot` before words, `not in` and
/// selections with filters, and no operand of `ftor` or `ftand` twice. In it `ftnot` and `occurs` stand where they may, if they did before.
pub fn rewrite(alloc: Global, selection: &Selection) -> Result<Selection, Memory>
    ensures is { IfOk result (λ simple. form simple ≡ rewritten (form selection.now)) }
    ensures says_the_same { IfOk result (λ simple. (lexicon : Lexicon) (tokens : List Token)
        → sat lexicon (form simple) tokens ≡ sat lexicon (form selection.now) tokens) }
    ensures accepted { IfOk result (λ simple. is_accepted (form selection.now) ≡ true → is_accepted (form simple) ≡ true) }
{
    give_and_simplify(alloc, selection)
}
