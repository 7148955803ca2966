//! Paths that are watched: what they answer now, and what went and what came since they were asked last.

ghost use Rattle.std.specs.Prelude.{◌≡◌, ◌≤◌, ◌+◌, ◌++◌, ◌∷◌, [], bytes_eq, false, map, true, IfOk, None, OnErr, OnOk};
ghost use Rattle.indexmap.specs.IndexMap.{insert_entry};
ghost use Rattle.path_meaning.specs.Collection.{documents as documents_of};
ghost use Rattle.path_subset.specs.Answer.{path_read};
ghost use Rattle.session_state.specs.KeptWatches.{kept_watch};
ghost use Rattle.session_state.specs.PathPrices.{is_cheap_path, is_cheap_watch, price_of_changes, price_of_unknown, read_price};
ghost use Rattle.session_state.specs.PlannedPaths.{prices_in, run_over, HasItsPlans, has_cheap_plans};
ghost use Rattle.session_state.specs.Standings.{answers_now, answers_to, lines_read, standings_changed, unknown_price, without_standing, AreKnown};
ghost use Rattle.session_state.specs.Watches.{changed, unwatched, watch_named, watch_refusal, watched};
ghost use Rattle.session_state.specs.steps.Again.{IsAgain, held_with};
ghost use Rattle.session_state.specs.steps.Chosen.{price_through};
ghost use Rattle.session_state.specs.steps.Turns.{planned_through};
ghost use Rattle.standing_queries.specs.Answers.{all_lines};
ghost use Rattle.standing_queries.specs.Changes.{changes as changes_between};
ghost use Rattle.reply_lines.specs.Replies.{is_refusal};

use crate::asked_runs::Abbreviated;
use crate::keeping::keep_accepted;
use crate::marks::no_such_name;
use crate::paths::{Ready, ready_path};
use crate::planned::PlannedPath;
use crate::session::Session;
use crate::turns::turns_of;
use crate::watches::{KeptWatch, Watches};
use ft_base::{Line, Memory, Steps};
use kept_plans::Prepared;
use plan_runs::Judge;
use reply_lines::{Refusal, Reply};
use stamped_documents::Stamped;
use standing_queries::Standing;
use std::alloc::Global;
use std::marker::Brand;
use std::sync::ledger::Ledger;
use text_list::TextList;

/// What a watch answers now.
#[derive(Drop)]
pub(crate) enum Again {
    /// The watch with what its path answers now, and what went and what came since it was asked last.
    Answers { watch: KeptWatch, changes: TextList },
    /// Its path is refused.
    Refused(Refusal),
}

/// What a path answers now of which nothing is kept.
fn first_answers<J: Judge, A: Abbreviated, M: Ledger>(
    judge: &J,
    stamped: &Stamped,
    path: &PlannedPath<'_>,
    moves: &mut Steps<M>,
) -> Result<Standing, Memory>
    requires plans { HasItsPlans path.now }
    requires abbreviations { stamped.now.indexed.abbreviations ≡ A.abbreviations }
    ensures standing { IfOk result (λ standing. standing
        ≡ answers_now (planned_through J.says A.abbreviations path.now) stamped.now.stamps stamped.now.indexed.documents) }
    ensures moves { moves.old ≤ moves.new }
    ensures price { has_cheap_plans path.now ≡ true → moves.new
        ≤ moves.old
        + prices_in J.says A.abbreviations path.now (map (run_over stamped.now.indexed.version) path.now.plans.now)
        (documents_of path.now.root.now stamped.now.indexed.documents) }
{
    let none = Standing::empty(path.alloc);
    let turns = turns_of::<J, A, M>(
        judge,
        stamped.collection(),
        stamped.stamps(),
        &none,
        path,
        moves,
    )?;
    Standing::new(path.alloc, turns.as_slice())
}

/// What a path answers now, and what went and what came since the kept answers. Documents that these know are not asked.
fn next_answers<J: Judge, A: Abbreviated, M: Ledger>(
    judge: &J,
    stamped: &Stamped,
    kept: &Standing,
    path: &PlannedPath<'_>,
    moves: &mut Steps<M>,
) -> Result<(Standing, TextList), Memory>
    requires plans { HasItsPlans path.now }
    requires abbreviations { stamped.now.indexed.abbreviations ≡ A.abbreviations }
    requires known { AreKnown kept.now (planned_through J.says A.abbreviations path.now) stamped.now.stamps stamped.now.indexed.documents }
    ensures standing { IfOk result (λ next. next.0
        ≡ answers_now (planned_through J.says A.abbreviations path.now) stamped.now.stamps stamped.now.indexed.documents) }
    ensures changes { IfOk result (λ next. next.1 ≡ changes_between (all_lines kept.now)
        (all_lines (answers_now (planned_through J.says A.abbreviations path.now) stamped.now.stamps stamped.now.indexed.documents))) }
    ensures moves { moves.old ≤ moves.new }
    ensures price { has_cheap_plans path.now ≡ true → moves.new
        ≤ moves.old
        + unknown_price kept.now (price_through J.says A.abbreviations path.now (map (run_over stamped.now.indexed.version) path.now.plans.now))
        stamped.now.stamps stamped.now.indexed.documents }
{
    let turns = turns_of::<J, A, M>(
        judge,
        stamped.collection(),
        stamped.stamps(),
        kept,
        path,
        moves,
    )?;
    kept.turn(path.alloc, turns.as_slice())
}

/// Sets a watch under the name that keeps what the path answers now, which has that text.
fn set_watch<J: Judge, A: Abbreviated, M: Ledger>(
    judge: &J,
    stamped: &Stamped,
    watches: &mut Watches,
    name: &Line,
    text: &Line,
    path: &PlannedPath<'_>,
    moves: &mut Steps<M>,
) -> Result<Reply, Memory>
    requires plans { HasItsPlans path.now }
    requires abbreviations { stamped.now.indexed.abbreviations ≡ A.abbreviations }
    ensures done { IfOk result (λ reply. reply ≡ Reply.Done) }
    ensures set { OnOk result (watches.new ≡ insert_entry bytes_eq watches.old name.now
        (kept_watch text.now (answers_now (planned_through J.says A.abbreviations path.now) stamped.now.stamps stamped.now.indexed.documents))) }
    ensures err { OnErr result (watches.new ≡ watches.old) }
    ensures moves { moves.old ≤ moves.new }
    ensures price { has_cheap_plans path.now ≡ true → moves.new
        ≤ moves.old
        + prices_in J.says A.abbreviations path.now (map (run_over stamped.now.indexed.version) path.now.plans.now)
        (documents_of path.now.root.now stamped.now.indexed.documents) }
{
    let standing = first_answers::<J, A, M>(judge, stamped, path, moves)?;
    let Ok(text) = Line::read(path.alloc, text.as_str()) else {
        drop(standing);
        return Err(Memory);
    };
    let watch = KeptWatch {
        path: text,
        standing,
    };
    match watches.put(name, watch) {
        Ok(()) => Ok(Reply::Done),
        Err(memory) => Err(memory),
    }
}

/// What a watch answers now, by its path with its plans.
fn answer_planned<J: Judge, A: Abbreviated, M: Ledger>(
    judge: &J,
    stamped: &Stamped,
    watch: &KeptWatch,
    path: &PlannedPath<'_>,
    moves: &mut Steps<M>,
) -> Result<Again, Memory>
    requires plans { HasItsPlans path.now }
    requires abbreviations { stamped.now.indexed.abbreviations ≡ A.abbreviations }
    requires known { AreKnown watch.now.standing (planned_through J.says A.abbreviations path.now) stamped.now.stamps stamped.now.indexed.documents }
    ensures again { IfOk result (λ again. again ≡ Again.Answers
        (kept_watch watch.now.path (answers_now (planned_through J.says A.abbreviations path.now) stamped.now.stamps stamped.now.indexed.documents))
        (changes_between (all_lines watch.now.standing)
        (all_lines (answers_now (planned_through J.says A.abbreviations path.now) stamped.now.stamps stamped.now.indexed.documents)))) }
    ensures moves { moves.old ≤ moves.new }
    ensures price { has_cheap_plans path.now ≡ true → moves.new
        ≤ moves.old
        + unknown_price watch.now.standing
        (price_through J.says A.abbreviations path.now (map (run_over stamped.now.indexed.version) path.now.plans.now))
        stamped.now.stamps stamped.now.indexed.documents }
{
    let text = Line::read(path.alloc, watch.path.as_str())?;
    match next_answers::<J, A, M>(judge, stamped, &watch.standing, path, moves) {
        Ok((standing, changes)) => {
            let watch = KeptWatch {
                path: text,
                standing,
            };
            Ok(Again::Answers { watch, changes })
        }
        Err(memory) => {
            drop(text);
            Err(memory)
        }
    }
}

/// What a watch answers now, by the documents and the lists that are there. The plans of its path that are kept are used, and stay as they are.
fn answer_again<J: Judge, M: Ledger>(
    alloc: Global,
    judge: &J,
    stamped: &Stamped,
    prepared: &Prepared,
    watch: &KeptWatch,
    moves: &mut Steps<M>,
) -> Result<Again, Memory>
    requires known { AreKnown watch.now.standing (lines_read J.says stamped.now.indexed.abbreviations prepared.now.lists (path_read watch.now.path))
        stamped.now.stamps stamped.now.indexed.documents }
    ensures again { IfOk result (IsAgain J.says (held_with stamped.now prepared.now.lists) watch.now) }
    ensures moves { moves.old ≤ moves.new }
    ensures price { is_cheap_path prepared.now.lists (path_read watch.now.path) ≡ true → moves.new
        ≤ moves.old + price_of_unknown J.says (held_with stamped.now prepared.now.lists) watch.now.standing (path_read watch.now.path) }
{
    match ready_path(alloc, stamped.collection(), prepared, watch.path.as_str()) {
        Ok(Ready::Path(ready)) => {
            let again = answer_planned::<J, Brand, M>(
                judge,
                stamped,
                watch,
                &ready.planned(),
                moves,
            );
            drop(ready);
            again
        }
        Ok(Ready::Refused(why)) => Ok(Again::Refused(why)),
        Err(memory) => Err(memory),
    }
}

impl<J: Judge + Drop> Session<J> {
    /// Watches the path under the name: the lines of now are kept.
    pub(crate) fn watch<M: Ledger>(
        &mut self,
        name: &Line,
        path: &Line,
        moves: &mut Steps<M>,
    ) -> Result<Reply, Memory>
        ensures answer { IfOk result (λ reply. (self.new.state, reply) ≡ watched J.says self.old.state name.now path.now) }
        ensures err { OnErr result (self.new ≡ self.old) }
        ensures version { self.new.version ≡ self.old.version }
        ensures mark_versions { self.new.mark_versions ≡ self.old.mark_versions }
        ensures stamps { self.new.stamps ≡ self.old.stamps }
        ensures standings { IfOk result (λ reply. is_refusal reply ≡ false
            → self.new.standings ≡ self.old.standings ++ answers_to J.says self.old path.now ∷ []) }
        ensures standings_refused { IfOk result (λ reply. is_refusal reply ≡ true → self.new.standings ≡ self.old.standings) }
        ensures moves { moves.old ≤ moves.new }
        ensures price { is_cheap_path self.old.state.lists (path_read path.now) ≡ true
            → moves.new ≤ moves.old + read_price J.says self.old (path_read path.now) }
    {
        match self.watches.refusal(name) {
            Ok(None) => self.watch_new(name, path, moves),
            Ok(Some(why)) => Ok(Reply::Refused(why)),
            Err(memory) => Err(memory),
        }
    }

    /// The same under a name that no watch has, where there are fewer than there may be.
    fn watch_new<M: Ledger>(
        &mut self,
        name: &Line,
        path: &Line,
        moves: &mut Steps<M>,
    ) -> Result<Reply, Memory>
        requires { watch_refusal name.now self.old.state.watches ≡ None }
        ensures answer { IfOk result (λ reply. (self.new.state, reply) ≡ watched J.says self.old.state name.now path.now) }
        ensures err { OnErr result (self.new ≡ self.old) }
        ensures version { self.new.version ≡ self.old.version }
        ensures mark_versions { self.new.mark_versions ≡ self.old.mark_versions }
        ensures stamps { self.new.stamps ≡ self.old.stamps }
        ensures standings { IfOk result (λ reply. is_refusal reply ≡ false
            → self.new.standings ≡ self.old.standings ++ answers_to J.says self.old path.now ∷ []) }
        ensures standings_refused { IfOk result (λ reply. is_refusal reply ≡ true → self.new.standings ≡ self.old.standings) }
        ensures moves { moves.old ≤ moves.new }
        ensures price { is_cheap_path self.old.state.lists (path_read path.now) ≡ true
            → moves.new ≤ moves.old + read_price J.says self.old (path_read path.now) }
    {
        // The documents' stamps are different numbers, as the clauses of `stamps` say.
        let _stamps = self.stamped.stamps();
        match ready_path(
            self.alloc,
            self.stamped.collection(),
            &self.prepared,
            path.as_str(),
        ) {
            Ok(Ready::Path(ready)) => {
                let set = set_watch::<J, Brand, M>(
                    &self.judge,
                    &self.stamped,
                    &mut self.watches,
                    name,
                    path,
                    &ready.planned(),
                    moves,
                );
                keep_accepted(&mut self.prepared, ready, set)
            }
            Ok(Ready::Refused(why)) => Ok(Reply::Refused(why)),
            Err(memory) => Err(memory),
        }
    }

    /// What went and what came since the watch of the name was asked last; the lines of now are kept.
    pub(crate) fn changes<M: Ledger>(
        &mut self,
        name: &Line,
        moves: &mut Steps<M>,
    ) -> Result<Reply, Memory>
        ensures answer { IfOk result (λ reply. (self.new.state, reply) ≡ changed J.says self.old.state name.now) }
        ensures err { OnErr result (self.new ≡ self.old) }
        ensures version { self.new.version ≡ self.old.version }
        ensures mark_versions { self.new.mark_versions ≡ self.old.mark_versions }
        ensures stamps { self.new.stamps ≡ self.old.stamps }
        ensures standings { IfOk result (λ reply. is_refusal reply ≡ false
            → self.new.standings ≡ standings_changed J.says self.old name.now (watch_named name.now self.old.state.watches)) }
        ensures standings_refused { IfOk result (λ reply. is_refusal reply ≡ true → self.new.standings ≡ self.old.standings) }
        ensures moves { moves.old ≤ moves.new }
        ensures price { is_cheap_watch self.old.state.lists (watch_named name.now self.old.state.watches) ≡ true
            → moves.new ≤ moves.old + price_of_changes J.says self.old name.now (watch_named name.now self.old.state.watches) }
    {
        let Some(watch) = self.watches.get(name) else {
            return no_such_name(self.alloc, name);
        };
        // The documents' stamps are different numbers, as the clauses of `stamps` say.
        let _stamps = self.stamped.stamps();
        match answer_again(
            self.alloc,
            &self.judge,
            &self.stamped,
            &self.prepared,
            watch,
            moves,
        ) {
            Ok(Again::Answers { watch, changes }) => {
                put_changed(&mut self.watches, name, watch, changes)
            }
            Ok(Again::Refused(why)) => Ok(Reply::Refused(why)),
            Err(memory) => Err(memory),
        }
    }

    /// Gives the watch of the name up.
    pub(crate) fn unwatch(&mut self, name: &Line) -> Result<Reply, Memory>
        ensures answer { IfOk result (λ reply. (self.new.state, reply) ≡ unwatched self.old.state name.now) }
        ensures err { OnErr result (self.new ≡ self.old) }
        ensures version { self.new.version ≡ self.old.version }
        ensures mark_versions { self.new.mark_versions ≡ self.old.mark_versions }
        ensures stamps { self.new.stamps ≡ self.old.stamps }
        ensures standings { IfOk result (λ reply. is_refusal reply ≡ false
            → self.new.standings ≡ without_standing name.now self.old.state.watches self.old.standings) }
        ensures standings_refused { IfOk result (λ reply. is_refusal reply ≡ true → self.new.standings ≡ self.old.standings) }
    {
        self.watches.remove(name)
    }
}

/// Puts a watch with its answers of now in the place of the one of the name, and replies what changed.
fn put_changed(
    watches: &mut Watches,
    name: &Line,
    next: KeptWatch,
    changes: TextList,
) -> Result<Reply, Memory>
    ensures reply { IfOk result (λ reply. reply ≡ Reply.Changed changes) }
    ensures put { OnOk result (watches.new ≡ insert_entry bytes_eq watches.old name.now next) }
    ensures err { OnErr result (watches.new ≡ watches.old) }
{
    match watches.put(name, next) {
        Ok(()) => Ok(Reply::Changed(changes)),
        Err(memory) => {
            drop(changes);
            Err(memory)
        }
    }
}
