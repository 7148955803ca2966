//! Paths along which commands may go, and the reply to a path: the elements that it selects, or why it is refused.

ghost use Rattle.std.specs.Prelude.{◌≡◌, ◌≢◌, ◌≤◌, ◌+◌, ◌^◌, ◌<◌, IfErr, IfOk, IsTrue, None, Ok, OnErr, OnOk, flat_map, length, map, true};
ghost use Rattle.std.specs.List.{list_all};
ghost use Rattle.std.specs.Option.{option_copied};
ghost use Rattle.counted_shapes.specs.Accepted.{is_accepted};
ghost use Rattle.document_store.specs.Loaded.{to_document};
ghost use Rattle.kept_plans.specs.Preparation.{CanKeep};
ghost use Rattle.kept_plans.specs.Next.{IsNext};
ghost use Rattle.path_grammar.specs.Form as form;
ghost use Rattle.path_grammar.specs.View.{step};
ghost use Rattle.path_meaning.specs.Collection.{documents as documents_of};
ghost use Rattle.path_subset.specs.Answer.{path_read};
ghost use Rattle.path_subset.specs.Paths.{read_form};
ghost use Rattle.session_state.specs.PathPrices.{is_cheap_path, read_price};
ghost use Rattle.session_state.specs.Paths as paths;
ghost use Rattle.session_state.specs.PlannedPaths.{planned_lines, plans_under, prices_in, run_over, HasItsPlans, has_cheap_plans};
ghost use Rattle.session_state.specs.ReadyPaths.{kept_for, path_refusal, IsReady, IsRefused};
ghost use Rattle.session_state.specs.StateView.{held_of, state_of};

use crate::asked_runs::Abbreviated;
use crate::keeping::keep_accepted;
use crate::planned::{PlannedPath, open_runs, plan_selections};
use crate::selected::collect_lines;
use crate::shown::{Shown, reply_with};
use allowed_selections::laws::selected_law;
use document_store::{Collection, Documents};
use ft_base::{Line, Memory, QueryFault, Steps};
use kept_plans::{KeptPlan, NextPlans, Prepared};
use path_grammar::PathRoot;
use path_subset::laws::spelled_law;
use path_subset::{ReadPath, read_path};
use plan_compiler::CompileFault;
use plan_runs::Judge;
use reply_lines::{Refusal, Reply};
use std::alloc::Global;
use std::marker::Brand;
use std::sync::ledger::Ledger;

/// A path with a plan for each of its selections, and what is kept of plans once the command is accepted that goes along it.
#[derive(Drop)]
pub(crate) struct ReadyPath {
    pub(crate) alloc: Global,
    pub(crate) path: ReadPath,
    pub(crate) plans: Vec<KeptPlan>,
    pub(crate) next: NextPlans,
}

/// A path along which a command may go, or why it is refused.
#[derive(Drop)]
pub(crate) enum Ready {
    Path(ReadyPath),
    Refused(Refusal),
}

/// Why there are no plans of a path.
#[derive(Drop)]
enum PlanFault {
    Refused(Refusal),
    Memory,
}

impl From<Memory> for PlanFault {
    ghost use Rattle.std.specs.Prelude.{◌≡◌};
    ghost use Rattle.session_state.specs.declared.paths.PlanFault.TheVariants as fault;

    ghost from_gives = { λ _ error. error ≡ fault.Memory };

    fn from(_memory: Memory) -> PlanFault {
        PlanFault::Memory
    }
}

impl ReadyPath {
    /// The path by its plans.
    pub(crate) fn planned(&self) -> PlannedPath<'_>
        ensures root { result.root.now ≡ (read_form self.now.path).path.root }
        ensures steps { form.steps (map step result.steps.now) ≡ (read_form self.now.path).path.steps }
        ensures plans { result.plans.now ≡ self.now.plans.items }
    {
        PlannedPath {
            alloc: self.alloc,
            root: self.path.root(),
            steps: self.path.steps(),
            plans: self.plans.as_slice(),
        }
    }
}

/// The path that a text is, with its plans; or why it is refused, by the documents and the lists that are there.
pub(crate) fn ready_path(
    alloc: Global,
    collection: &Collection,
    prepared: &Prepared,
    text: &str,
) -> Result<Ready, Memory>
    ensures { IfOk result (IsReady collection.now.documents prepared.now text.now) }
{
    match read_path(alloc, text) {
        Ok(path) => ready_read(collection, prepared, text, alloc, path),
        Err(fault) => Ok(Ready::Refused(refusal_of(fault)?)),
    }
}

/// The same for a path that was read.
fn ready_read(
    collection: &Collection,
    prepared: &Prepared,
    text: &str,
    alloc: Global,
    path: ReadPath,
) -> Result<Ready, Memory>
    requires { path_read text.now ≡ Ok (read_form path) }
    ensures { IfOk result (IsReady collection.now.documents prepared.now text.now) }
{
    spelled_law();
    selected_law();
    match plans_of(alloc, collection, prepared, text.as_bytes(), &path) {
        Ok(plans) => Ok(Ready::Path(ready_with(prepared, alloc, path, plans)?)),
        Err(PlanFault::Refused(why)) => {
            drop(path);
            Ok(Ready::Refused(why))
        }
        Err(PlanFault::Memory) => {
            drop(path);
            Err(Memory)
        }
    }
}

/// A path with these plans, for which it is made ready what is kept of them.
fn ready_with(
    prepared: &Prepared,
    alloc: Global,
    path: ReadPath,
    plans: Vec<KeptPlan>,
) -> Result<ReadyPath, Memory>
    requires { CanKeep prepared.now plans.items }
    ensures path { IfOk result (λ ready. read_form ready.path ≡ read_form path) }
    ensures plans { IfOk result (λ ready. ready.plans.items ≡ plans.items) }
    ensures next { IfOk result (λ ready. IsNext prepared.now ready.plans.items ready.next) }
{
    match prepared.next(plans.as_slice()) {
        Ok(next) => Ok(ReadyPath {
            alloc,
            path,
            plans,
            next,
        }),
        Err(memory) => {
            drop(path);
            drop(plans);
            Err(memory)
        }
    }
}

/// The plans of a path whose document is there, in the order of its selections.
fn plans_of(
    alloc: Global,
    collection: &Collection,
    prepared: &Prepared,
    text: &[u8],
    path: &ReadPath,
) -> Result<Vec<KeptPlan>, PlanFault>
    requires { IsTrue (list_all is_accepted (paths.selections_of (read_form path.now))) }
    ensures plans { IfOk result (λ plans. plans.items ≡ plans_under prepared.now.lists text.now (read_form path.now)) }
    ensures document { IfOk result (λ _. paths.missing_document (read_form path.now).path.root collection.now.documents ≡ None) }
    ensures lists { IfOk result (λ _. paths.missing_list prepared.now.lists (paths.selections_of (read_form path.now)) ≡ None) }
    ensures counted { IfOk result (λ _. prepared.now.kept.hits + length (read_form path.now).selections < 2 ^ 64) }
    ensures refused { IfErr result (λ fault. IsRefused fault (path_refusal collection.now.documents prepared.now.lists (Ok (read_form path.now)))) }
{
    if let Some(name) = missing_document(collection.documents(), path.root()) {
        let name = Line::read(alloc, name)?;
        return Err(PlanFault::Refused(Refusal::NoSuchDoc { name }));
    }
    if !prepared.can_count(path.selection_count()) {
        return Err(PlanFault::Memory);
    }
    match plan_selections(alloc, path, prepared, text) {
        Ok(plans) => Ok(plans),
        Err(CompileFault::NoSuchList { name }) => {
            Err(PlanFault::Refused(Refusal::NoSuchList { name }))
        }
        Err(CompileFault::Memory) => Err(PlanFault::Memory),
    }
}

/// The refusal of a path, or of a selection, with that fault. Want of memory is none.
fn refusal_of(fault: QueryFault) -> Result<Refusal, Memory>
    ensures refusal { IfOk result (λ why. why ≡ Refusal.Query fault) }
    ensures known { OnOk result (fault ≢ QueryFault.Memory) }
{
    match fault {
        QueryFault::Memory => Err(Memory),
        _ => Ok(Refusal::Query(fault)),
    }
}

/// The reply that refuses a path, or a selection, with that fault. Want of memory is none.
pub(crate) fn refuse(fault: QueryFault) -> Result<Reply, Memory>
    ensures refusal { IfOk result (λ reply. reply ≡ Reply.Refused (Refusal.Query fault)) }
    ensures known { OnOk result (fault ≢ QueryFault.Memory) }
{
    Ok(Reply::Refused(refusal_of(fault)?))
}

/// The reply to a path, by the documents and the lists that are there, and by what the judge says. Where it isn't refused, the plans
/// of its selections are kept.
pub(crate) fn answer_path<J: Judge, M: Ledger>(
    alloc: Global,
    judge: &J,
    collection: &Collection,
    prepared: &mut Prepared,
    shown: Shown,
    text: &str,
    moves: &mut Steps<M>,
) -> Result<Reply, Memory>
    ensures reply { IfOk result (λ reply. reply ≡ paths.answer J.says shown (state_of collection.now prepared.old.lists) text.now) }
    ensures kept { IfOk result (λ reply. prepared.new ≡ kept_for text.now reply prepared.old) }
    ensures err { OnErr result (prepared.new ≡ prepared.old) }
    ensures moves { moves.old ≤ moves.new }
    ensures price { is_cheap_path prepared.old.lists (path_read text.now) ≡ true
        → moves.new ≤ moves.old + read_price J.says (held_of collection.now prepared.old.lists) (path_read text.now) }
{
    match ready_path(alloc, collection, prepared, text) {
        Ok(Ready::Path(ready)) => {
            let answered = answer_planned::<J, Brand, M>(
                judge,
                collection,
                shown,
                &ready.planned(),
                moves,
            );
            keep_accepted(prepared, ready, answered)
        }
        Ok(Ready::Refused(why)) => Ok(Reply::Refused(why)),
        Err(memory) => Err(memory),
    }
}

/// The reply to a path by its plans. A run of each is opened once, over the version of the index, and with it the judge is asked of
/// the elements.
fn answer_planned<J: Judge, A: Abbreviated, M: Ledger>(
    judge: &J,
    collection: &Collection,
    shown: Shown,
    planned: &PlannedPath<'_>,
    moves: &mut Steps<M>,
) -> Result<Reply, Memory>
    requires plans { HasItsPlans planned.now }
    requires abbreviations { collection.now.abbreviations ≡ A.abbreviations }
    ensures reply { IfOk result (λ reply. reply
        ≡ paths.reply_with shown (flat_map (planned_lines J.says A.abbreviations shown planned.now)
        (documents_of planned.now.root.now collection.now.documents))) }
    ensures moves { moves.old ≤ moves.new }
    ensures price { has_cheap_plans planned.now ≡ true → moves.new
        ≤ moves.old
        + prices_in J.says A.abbreviations planned.now (map (run_over collection.now.version) planned.now.plans.now)
        (documents_of planned.now.root.now collection.now.documents) }
{
    let documents = collection.documents();
    let mut runs = open_runs(planned.alloc, planned.plans, collection.version())?;
    let lines = collect_lines::<J, A, M>(
        judge,
        documents,
        shown,
        planned,
        runs.as_mut_slice(),
        moves,
    );
    drop(runs);
    match lines {
        Ok(lines) => Ok(reply_with(shown, lines)),
        Err(memory) => Err(memory),
    }
}

/// The name of the document with which a path begins, if there is none of that name.
fn missing_document<'a>(documents: &Documents, root: &'a PathRoot) -> Option<&'a str>
    ensures { option_copied result ≡ paths.missing_document root.now (map to_document documents.now) }
{
    match root {
        PathRoot::Collection => None,
        PathRoot::Doc(name) => {
            if documents.contains_key(name) {
                None
            } else {
                Some(name.as_str())
            }
        }
    }
}
