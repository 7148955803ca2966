//! Plans are kept once the command is accepted that used them.

ghost use Rattle.std.specs.Prelude.{◌≡◌, if◌then◌else◌, IfOk, OnErr};
ghost use Rattle.kept_plans.specs.Kept.{all_used};
ghost use Rattle.kept_plans.specs.Preparation.{texts_of, with_kept};
ghost use Rattle.kept_plans.specs.Next.{IsNext};
ghost use Rattle.session_state.specs.KeptTexts.{kept_by};

use crate::paths::ReadyPath;
use ft_base::Memory;
use kept_plans::Prepared;
use reply_lines::Reply;

/// Hands a reply on, and keeps the plans of its path where the command wasn't refused.
pub(crate) fn keep_accepted(
    prepared: &mut Prepared,
    ready: ReadyPath,
    answered: Result<Reply, Memory>,
) -> Result<Reply, Memory>
    requires { IsNext prepared.old ready.plans.items ready.next }
    ensures same { result ≡ answered }
    ensures kept { IfOk answered (λ reply. prepared.new ≡ kept_by (texts_of ready.plans.items) reply prepared.old) }
    ensures err { OnErr answered (prepared.new ≡ prepared.old) }
{
    match answered {
        Ok(reply) => {
            keep_if(!reply.is_refusal(), prepared, ready);
            Ok(reply)
        }
        Err(memory) => {
            drop(ready);
            Err(memory)
        }
    }
}

/// Keeps the plans of a path, or lets them go.
fn keep_if(keep: bool, prepared: &mut Prepared, ready: ReadyPath)
    requires { IsNext prepared.old ready.plans.items ready.next }
    ensures { prepared.new ≡ (if keep then with_kept (all_used (texts_of ready.plans.items) prepared.old.kept) prepared.old else prepared.old) }
{
    let ReadyPath {
        path,
        plans,
        next,
        ..
    } = ready;
    drop(path);
    if keep {
        prepared.keep(plans.as_slice(), next);
        drop(plans);
    } else {
        drop((plans, next));
    }
}
