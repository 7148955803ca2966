//! Plans by the texts of their selections, in the order in which they were used.

ghost use Rattle.std.specs.Prelude.{◌≡◌, ◌+◌, ◌<◌, ◌^◌, [], if◌then◌else◌, All, Contains, IfOk, IfSome, None, OnOk, length, true};
ghost use Rattle.std.specs.List.{list_all};
ghost use Rattle.std.specs.NonZero.{non_zero_usize_get};
ghost use Rattle.ft_rewriter.specs.Code.{form_numbers};
ghost use Rattle.plan_compiler.specs.Missing.{first_missing};
ghost use Rattle.plan_compiler.specs.NamedLists.{NamedLists};
ghost use Rattle.kept_plans.specs.Kept.{all_used, is_kept};
ghost use Rattle.kept_plans.specs.Preparation.{texts_of};
ghost use Rattle.kept_plans.specs.steps.Recent.{kept_of, with_first, ComesFirst};

use crate::kept_plan::KeptPlan;
use crate::limits::MAX_PLANS;
use ft_base::Memory;
use lru::LruCache;
use std::alloc::Global;
use std::marker::Model;
use std::num::NonZeroUsize;

/// Plans by their texts, one for each. The plan that was used last comes first; where there are too many, the last one goes.
#[derive(Drop)]
pub struct RecentPlans {
    plans: LruCache<Vec<u8>, KeptPlan>,
}

impl Model for RecentPlans {
    ghost use Rattle.std.specs.Prelude.{List};
    ghost use Rattle.std.specs.Coded.{coded_list};
    ghost use Rattle.std.specs.Map.{values_of};
    ghost use Rattle.kept_plans.specs.PlanOf.{PlanOf};
    ghost use Rattle.kept_plans.specs.Codes.{plan_code};
    ghost use Rattle.kept_plans.specs.steps.Recent.{IsRecent};

    ghost Value = { List PlanOf };

    ghost coded = { coded_list plan_code };

    ghost view = { λ inside. values_of inside.plans.entries };

    ghost invariant = { λ inside. IsRecent inside.plans };
}

impl RecentPlans {
    /// No plan.
    pub(crate) fn new(alloc: Global) -> Result<RecentPlans, Memory>
        ensures { IfOk result (λ plans. plans ≡ []) }
    {
        let plans = LruCache::new(alloc, most())?;
        Ok(RecentPlans { plans })
    }

    /// How many there are.
    pub(crate) fn len(&self) -> usize
        ensures { result ≡ length self.now }
    {
        self.plans.len()
    }

    /// Lets all of them go.
    pub(crate) fn clear(&mut self)
        ensures { self.new ≡ [] }
    {
        self.plans.clear();
    }

    /// Whether one of them has that text.
    pub(crate) fn has(&self, text: &[u8]) -> bool
        ensures { result ≡ is_kept text.now (texts_of self.now) }
    {
        self.plans.contains(text)
    }

    /// Whether each of these texts has a plan among them.
    pub(crate) fn have_all(&self, used: &[KeptPlan]) -> bool
        ensures { result ≡ list_all (λ plan. is_kept plan.text (texts_of self.now)) used.now }
    {
        used.iter().all(|plan| self.has(plan.text()))
    }

    /// The plan of a selection with that text and these numbers, if there is one.
    pub(crate) fn find(&self, text: &[u8], numbers: &[u32]) -> Option<&KeptPlan>
        ensures among { IfSome result (λ plan. Contains self.now plan.now) }
        ensures text { IfSome result (λ plan. plan.now.text ≡ text.now) }
        ensures numbers { IfSome result (λ plan. form_numbers plan.now.form ≡ numbers.now) }
        ensures there { IfSome result (λ plan. first_missing plan.now.lists plan.now.form ≡ None) }
    {
        let plan = self.find_text(text)?;
        if plan.has_numbers(numbers) {
            Some(plan)
        } else {
            None
        }
    }

    /// The plan that has that text, if there is one.
    fn find_text(&self, text: &[u8]) -> Option<&KeptPlan>
        ensures among { IfSome result (λ plan. Contains self.now plan.now) }
        ensures text { IfSome result (λ plan. plan.now.text ≡ text.now) }
    {
        self.plans.peek(text)
    }

    /// Puts the plan with that text first, which takes no memory.
    pub(crate) fn promote(&mut self, text: &[u8])
        requires { is_kept text.now (texts_of self.old) ≡ true }
        ensures { ComesFirst text.now self.old self.new }
    {
        self.plans.promote(text);
    }

    /// Puts a plan first, in the place of one that has its text, and answers whether there was one.
    fn put(&mut self, alloc: Global, plan: &KeptPlan) -> Result<bool, Memory>
        ensures had { IfOk result (λ had. had ≡ is_kept plan.now.text (texts_of self.old)) }
        ensures plans { OnOk result (self.new ≡ with_first plan.now self.old) }
    {
        let text = Vec::from_slice(alloc, plan.text())?;
        let old = self.plans.put(text, plan.share()?)?;
        Ok(old.is_some())
    }

    /// Uses plans, one after the other, and answers how many hits there are then.
    pub(crate) fn put_all(
        &mut self,
        alloc: Global,
        used: &[KeptPlan],
        hits: u64,
    ) -> Result<u64, Memory>
        requires { hits + length used.now < 2 ^ 64 }
        ensures kept { IfOk result (λ after. kept_of self.new after ≡ all_used (texts_of used.now) (kept_of self.old hits)) }
        ensures under { OnOk result ((lists : NamedLists) → All (λ plan. plan.lists ≡ lists) used.now → All (λ plan. plan.lists ≡ lists) self.old
            → All (λ plan. plan.lists ≡ lists) self.new) }
    {
        let mut after = hits;
        for plan in used {
            let had = self.put(alloc, plan)?;
            after = hits_after(after, had);
        }
        Ok(after)
    }

    /// The same plans once more, in the same order.
    pub(crate) fn copy(&self, alloc: Global) -> Result<RecentPlans, Memory>
        ensures { IfOk result (λ copy. copy ≡ self.now) }
    {
        let mut copy = RecentPlans::new(alloc)?;
        for (_text, plan) in self.plans.iter().rev() {
            copy.put(alloc, plan)?;
        }
        Ok(copy)
    }
}

/// How many plans are kept, at most.
fn most() -> NonZeroUsize
    ensures { non_zero_usize_get result ≡ MAX_PLANS }
{
    NonZeroUsize::MIN.saturating_add(MAX_PLANS - 1)
}

/// The hits after a use of a text.
fn hits_after(hits: u64, is_hit: bool) -> u64
    requires { hits + 1 < 2 ^ 64 }
    ensures { result ≡ (if is_hit then hits + 1 else hits) }
{
    if is_hit { hits + 1 } else { hits }
}
