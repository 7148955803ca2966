//! Lists, and the plans that are kept under them.

ghost use Rattle.std.specs.Prelude.{◌≡◌, ℕ, ◌+◌, ◌<◌, ◌^◌, ◌↔◌, IfErr, IfOk, IsTrue, List, None, OnErr, OnOk, length, true};
ghost use Rattle.counted_shapes.specs.Accepted.{is_accepted};
ghost use Rattle.ft_syntax.specs.View.{form};
ghost use Rattle.plan_compiler.specs.Missing.{first_missing, IsMissing};
ghost use Rattle.plan_compiler.specs.NamedLists.{with_stems, with_stop_list, with_thesaurus};
ghost use Rattle.kept_plans.specs.Kept.{all_used, is_kept, used};
ghost use Rattle.kept_plans.specs.PlanOf.{plan_of};
ghost use Rattle.kept_plans.specs.Preparation.{texts_of, CanKeep, nothing_prepared, with_kept, with_new_lists};
ghost use Rattle.kept_plans.specs.Next.{IsNext};
ghost use Rattle.kept_plans.specs.steps.Recent.{AllKept};

use crate::kept_plan::KeptPlan;
use crate::next_plans::NextPlans;
use crate::recent_plans::RecentPlans;
use ft_base::Memory;
use ft_rewriter::numbers_of;
use ft_syntax::Selection;
use plan_compiler::{CompileFault, Lists};
use std::alloc::Global;
use std::marker::Model;
use thesaurus_file::Thesaurus;
use word_lists::{KeySet, Stems};

/// The lists that selections name, and plans that were made under them, by the texts of their selections. The text that was used last
/// comes first.
#[derive(Drop)]
pub struct Prepared {
    alloc: Global,
    lists: Lists,
    plans: RecentPlans,
    /// How often a text was used again.
    hits: u64,
}

impl Model for Prepared {
    ghost use Rattle.kept_plans.specs.Preparation.{Preparation};
    ghost use Rattle.kept_plans.specs.Codes.{preparation_code};

    ghost Value = { Preparation };

    ghost coded = { preparation_code };

    ghost use Rattle.std.specs.Prelude.{◌≡◌, All};
    ghost use Rattle.kept_plans.specs.Preparation.{prepared};

    ghost view = { λ inside. prepared inside.lists inside.plans inside.hits };

    ghost invariant = { λ inside. All (λ plan. plan.lists ≡ inside.lists) inside.plans };
}

impl Prepared {
    /// No list, and no plan.
    pub fn new(alloc: Global) -> Result<Prepared, Memory>
        ensures { IfOk result (λ prepared. prepared ≡ nothing_prepared) }
    {
        let plans = RecentPlans::new(alloc)?;
        Ok(Prepared {
            alloc,
            lists: Lists::new(alloc),
            plans,
            hits: 0,
        })
    }

    /// The lists.
    pub fn lists(&self) -> &Lists
        ensures { result.now ≡ self.now.lists }
    {
        &self.lists
    }

    /// Puts a stop list under a name, as `Lists::set_stop` does. Then no plan is kept.
    pub fn set_stop(&mut self, name: &str, list: KeySet) -> Result<(), Memory>
        ensures ok { OnOk result (self.new ≡ with_new_lists (with_stop_list name.now list self.old.lists) self.old) }
        ensures err { OnErr result (self.new ≡ self.old) }
    {
        self.lists.set_stop(name, list)?;
        self.plans.clear();
        Ok(())
    }

    /// Puts a thesaurus under a name, as `Lists::set_thesaurus` does. Then no plan is kept.
    pub fn set_thesaurus(&mut self, name: &str, list: Thesaurus) -> Result<(), Memory>
        ensures ok { OnOk result (self.new ≡ with_new_lists (with_thesaurus name.now list self.old.lists) self.old) }
        ensures err { OnErr result (self.new ≡ self.old) }
    {
        self.lists.set_thesaurus(name, list)?;
        self.plans.clear();
        Ok(())
    }

    /// Takes the dictionary for all stems. Then no plan is kept.
    pub fn set_stems(&mut self, stems: Stems) -> Result<(), Memory>
        ensures ok { OnOk result (self.new ≡ with_new_lists (with_stems stems self.old.lists) self.old) }
        ensures err { OnErr result (self.new ≡ self.old) }
    {
        self.lists.set_stems(stems)?;
        self.plans.clear();
        Ok(())
    }

    /// How many plans are kept.
    pub fn plans_kept(&self) -> usize
        ensures { result ≡ length self.now.kept.texts }
    {
        self.plans.len()
    }

    /// How often a text was used again whose plan was kept.
    pub fn hits(&self) -> u64
        ensures { result ≡ self.now.kept.hits }
    {
        self.hits
    }

    /// Whether so many hits more can be counted, which are of 64 bits. Who uses plans asks this first, and finds no memory for them where
    /// it isn't so.
    pub fn can_count(&self, more: usize) -> bool
        ensures { IsTrue result ↔ (self.now.kept.hits + more < 2 ^ 64) }
    {
        self.hits.checked_add(more as u64).is_some()
    }

    /// The plan of a selection that has that text, under the lists: the one that is kept, or one that is compiled now. A list that the
    /// selection names and that isn't there is a fault: the first one in the order of its printed form.
    pub fn plan(&self, text: &[u8], selection: &Selection) -> Result<KeptPlan, CompileFault>
        requires accepted { IsTrue (is_accepted (form selection.now)) }
        ensures plan { IfOk result (λ plan. plan ≡ plan_of text.now (form selection.now) self.now.lists) }
        ensures there { IfOk result (λ _. first_missing self.now.lists (form selection.now) ≡ None) }
        ensures missing { IfErr result (λ fault. IsMissing fault (first_missing self.now.lists (form selection.now))) }
    {
        let numbers = numbers_of(self.alloc, selection)?;
        match self.plans.find(text, numbers.as_slice()) {
            Some(plan) => Ok(plan.share()?),
            None => KeptPlan::compile(self.alloc, text, numbers, selection, &self.lists),
        }
    }

    /// What will be put in place once the command is accepted that uses these plans.
    pub fn next(&self, used: &[KeptPlan]) -> Result<NextPlans, Memory>
        requires { CanKeep self.now used.now }
        ensures { IfOk result (IsNext self.now used.now) }
    {
        if self.plans.have_all(used) {
            return Ok(NextPlans::Same);
        }
        let mut plans = self.plans.copy(self.alloc)?;
        match plans.put_all(self.alloc, used, self.hits) {
            Ok(hits) => Ok(NextPlans::Others { plans, hits }),
            Err(memory) => {
                drop(plans);
                Err(memory)
            }
        }
    }

    /// Uses the texts of plans, one after the other, and keeps the plans: what was made ready for them is put in place, which takes no
    /// memory.
    pub fn keep(&mut self, used: &[KeptPlan], next: NextPlans)
        requires { IsNext self.old used.now next }
        ensures { self.new ≡ with_kept (all_used (texts_of used.now) self.old.kept) self.old }
    {
        match next {
            NextPlans::Same => self.use_again(used),
            NextPlans::Others { plans, hits } => {
                self.plans = plans;
                self.hits = hits;
            }
        }
    }

    /// Uses the texts of plans that are kept, one after the other.
    fn use_again(&mut self, used: &[KeptPlan])
        requires kept { AllKept (texts_of used.now) self.old.kept.texts }
        requires counted { self.old.kept.hits + length used.now < 2 ^ 64 }
        ensures { self.new ≡ with_kept (all_used (texts_of used.now) self.old.kept) self.old }
    {
        for plan in used {
            self.use_text(plan.text());
        }
    }

    /// Uses a text whose plan is kept.
    fn use_text(&mut self, text: &[u8])
        requires kept { is_kept text.now self.old.kept.texts ≡ true }
        requires counted { self.old.kept.hits + 1 < 2 ^ 64 }
        ensures used { self.new ≡ with_kept (used text.now self.old.kept) self.old }
        ensures stay { (other : List ℕ) → is_kept other self.old.kept.texts ≡ true → is_kept other self.new.kept.texts ≡ true }
    {
        self.plans.promote(text);
        self.hits += 1;
    }
}
