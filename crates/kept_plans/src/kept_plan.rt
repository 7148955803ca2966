//! Plans with the texts of their selections.

ghost use Rattle.std.specs.Prelude.{◌≡◌, IfErr, IfOk, IsTrue, None, bytes_eq};
ghost use Rattle.counted_shapes.specs.Accepted.{is_accepted};
ghost use Rattle.ft_rewriter.specs.Code.{form_numbers};
ghost use Rattle.ft_syntax.specs.View.{form};
ghost use Rattle.plan_compiler.specs.Missing.{first_missing, IsMissing};
ghost use Rattle.plan_compiler.specs.PlanMeaning.{plan_form, plan_lists};
ghost use Rattle.kept_plans.specs.PlanOf.{plan_of};

use ft_base::{Bytes, Items, Memory};
use ft_syntax::Selection;
use plan_compiler::{CompileFault, Lists, Plan};
use std::alloc::Global;
use std::marker::Model;
use std::rc::Rc;

/// A plan, the text of its selection as it is written, and the numbers of the selection, which no other has.
#[derive(Drop)]
pub struct TextPlan {
    text: Bytes,
    numbers: Items<u32>,
    plan: Plan,
    ghost same: { numbers ≡ form_numbers (plan_form plan) },
    ghost there: { first_missing (plan_lists plan) (plan_form plan) ≡ None },
}

/// A plan with the text of its selection, which may be held at several places.
#[derive(Drop)]
pub struct KeptPlan {
    shared: Rc<TextPlan>,
}

impl Model for KeptPlan {
    ghost use Rattle.kept_plans.specs.PlanOf.{PlanOf};
    ghost use Rattle.kept_plans.specs.Codes.{plan_code};

    ghost Value = { PlanOf };

    ghost coded = { plan_code };

    ghost use Rattle.plan_compiler.specs.PlanMeaning.{plan_form, plan_lists};

    ghost view = { λ kept. record {
      text = kept.shared.value.text;
      form = plan_form kept.shared.value.plan;
      lists = plan_lists kept.shared.value.plan;
    } };
}

impl KeptPlan {
    /// The plan of a selection that has that text and these numbers. A list that it names and that isn't there is a fault.
    pub(crate) fn compile(
        alloc: Global,
        text: &[u8],
        numbers: Items<u32>,
        selection: &Selection,
        lists: &Lists,
    ) -> Result<KeptPlan, CompileFault>
        requires accepted { IsTrue (is_accepted (form selection.now)) }
        requires numbers { numbers ≡ form_numbers (form selection.now) }
        ensures plan { IfOk result (λ plan. plan ≡ plan_of text.now (form selection.now) lists.now) }
        ensures there { IfOk result (λ _. first_missing lists.now (form selection.now) ≡ None) }
        ensures missing { IfErr result (λ fault. IsMissing fault (first_missing lists.now (form selection.now))) }
    {
        let text = Bytes::from_slice(alloc, text)?;
        match Plan::compile(alloc, selection, lists) {
            Ok(plan) => Ok(KeptPlan {
                shared: share_plan(
                    alloc,
                    TextPlan {
                        text,
                        numbers,
                        plan,
                    },
                )?,
            }),
            Err(fault) => Err(fault),
        }
    }

    /// The same plan once more; nothing is copied.
    pub(crate) fn share(&self) -> Result<KeptPlan, Memory>
        ensures { IfOk result (λ same. same ≡ self.now) }
    {
        let shared = self.shared.clone()?;
        Ok(KeptPlan { shared })
    }

    /// The plan.
    pub fn plan(&self) -> &Plan
        ensures form { plan_form result.now ≡ self.now.form }
        ensures lists { plan_lists result.now ≡ self.now.lists }
    {
        &self.shared.plan
    }

    /// The text of its selection.
    pub(crate) fn text(&self) -> &[u8]
        ensures { result.now ≡ self.now.text }
    {
        self.shared.text.as_slice()
    }

    /// Whether its selection has these numbers. The lists that it names are there.
    pub(crate) fn has_numbers(&self, numbers: &[u32]) -> bool
        ensures numbers { result ≡ bytes_eq numbers.now (form_numbers self.now.form) }
        ensures there { first_missing self.now.lists self.now.form ≡ None }
    {
        numbers == self.shared.numbers.as_slice()
    }
}

fn share_plan(alloc: Global, plan: TextPlan) -> Result<Rc<TextPlan>, Memory>
    ensures { IfOk result (λ shared. shared.value ≡ plan) }
{
    Ok(Rc::new(alloc, plan)?)
}
