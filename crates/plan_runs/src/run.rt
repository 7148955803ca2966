//! Plans opened over a version of the index, and tested at spans of its documents.

ghost use Rattle.std.specs.Prelude.{◌≡◌, ◌≤◌, ◌+◌, ◌*◌, true, false, List, IfOk};
ghost use Rattle.ft_base.specs.declared.span.Span.{Span};
ghost use Rattle.ft_base.specs.declared.token.Token.{Token};
ghost use Rattle.all_matches.specs.Meaning.{sat};
ghost use Rattle.index_meaning.specs.Documents.{document_at, has_document, token_count};
ghost use Rattle.index_phrases.specs.Tokens.{span_tokens};
ghost use Rattle.plan_compiler.specs.CheapSelections.{is_cheap, is_cheap_or_counted};
ghost use Rattle.plan_compiler.specs.Lexicon.{lexicon};
ghost use Rattle.plan_runs.specs.Judgement.{HaveWordsOf};
ghost use Rattle.plan_runs.specs.RunPrice.{price_at};

use crate::asked_place::AskedPlace;
use crate::choosing::Opening;
use crate::holding::node_holds;
use crate::looking_up::look_up;
use crate::opening::open_node;
use crate::ruled_out::{RuledOut, skip_from};
use crate::run_node::RunNode;
use ft_base::{DocId, Memory, Span, Steps};
use index_versions::Version;
use plan_compiler::Plan;
use std::alloc::Global;
use std::marker::Model;
use std::sync::ledger::Ledger;

/// A plan opened over a version of the index, which stays as it is as long as the run is there. Contracts see the selection and the
/// lists of the plan, and the documents of the version.
#[derive(Drop)]
pub struct Run<'v> {
    pub(crate) plan: &'v Plan,
    pub(crate) version: &'v Version,
    pub(crate) root: RunNode<'v>,
    /// What is known of the document that was looked up or tested last
    pub(crate) ruled_out: RuledOut,
}

impl<'v> Model for Run<'v> {
    ghost use Rattle.plan_runs.specs.steps.OpenedWords.{IsOpened};
    ghost use Rattle.plan_compiler.specs.PlanMeaning.{plan_form, plan_lists};
    ghost use Rattle.plan_runs.specs.steps.RuledOut.{HasNone};
    ghost use Rattle.plan_runs.specs.RunCode.{run_code};
    ghost use Rattle.plan_runs.specs.RunMeaning.{RunMeaning, run_of};
    ghost use Rattle.plan_runs.specs.steps.RunShapes.{shape};

    ghost Value = { RunMeaning };

    ghost coded = { run_code };

    ghost view = { λ inside. run_of (plan_form inside.plan.now) (plan_lists inside.plan.now) inside.version.now };

    ghost invariant = { λ inside.
        IsOpened inside.plan.now.looks inside.plan.now.lists.stems inside.version.now (shape inside.root) inside.plan.now.root
        × HasNone (run_of (plan_form inside.plan.now) (plan_lists inside.plan.now) inside.version.now) inside.ruled_out.doc.0 inside.ruled_out.from
        inside.ruled_out.to };
}

impl<'v> Run<'v> {
    ghost use Rattle.plan_compiler.specs.PlanMeaning.{plan_form, plan_lists};
    ghost use Rattle.plan_runs.specs.RunMeaning.{run_of};

    /// The plan over a version of the index: its words and patterns are resolved to terms of the version.
    pub fn open(alloc: Global, plan: &'v Plan, version: &'v Version) -> Result<Run<'v>, Memory>
        ensures { IfOk result (λ run. run ≡ run_of (plan_form plan.now) (plan_lists plan.now) version.now) }
    {
        let opening = Opening {
            alloc,
            version,
            looks: plan.looks,
            lists: &plan.lists,
        };
        let root = open_node(&opening, &plan.root)?;
        Ok(Run {
            plan,
            version,
            root,
            ruled_out: RuledOut::new(),
        })
    }

    /// The version of the index that it is over.
    pub fn version(&self) -> &Version
        ensures { result.now ≡ self.now.version }
    {
        self.version
    }

    /// The plan of this run over another version.
    pub fn open_over<'w>(&'w self, alloc: Global, version: &'w Version) -> Result<Run<'w>, Memory>
        ensures { IfOk result (λ run. run ≡ run_of self.now.form self.now.lists version.now) }
    {
        Run::open(alloc, self.plan, version)
    }

    /// Whether the tokens of the span of the document satisfy the plan's selection. It moves cursors forward, counts each move, and takes
    /// no memory. The moves of a cheap selection are at most its price at the span, and at most twice its price where words are counted in
    /// windows, sentences or paragraphs as well. Where the tokens don't satisfy it, it may look how far the words that the selection needs
    /// are, and count a move for each term of theirs: no span in between is tested by cursors.
    pub fn test<L: Ledger>(&mut self, doc: DocId, span: Span, moves: &mut Steps<L>) -> bool
        requires there { has_document doc.0 self.old.version ≡ true }
        requires inside { (1 ≤ span.from) × (span.from ≤ span.to) × (span.to ≤ token_count (document_at doc.0 self.old.version) + 1) }
        ensures says { result ≡ sat (lexicon self.old.lists) self.old.form (span_tokens span (document_at doc.0 self.old.version)) }
        ensures same { self.new ≡ self.old }
        ensures price { is_cheap (lexicon self.old.lists) self.old.form ≡ true → moves.new ≤ moves.old + price_at self.old doc.0 span }
        ensures counted { is_cheap_or_counted (lexicon self.old.lists) self.old.form ≡ true
            → moves.new ≤ moves.old + 2 * price_at self.old doc.0 span }
        ensures grown { moves.old ≤ moves.new }
    {
        if self.ruled_out.holds(doc, span) {
            return false;
        }
        let version = self.version;
        let place = AskedPlace { version, doc, span };
        if node_holds(&place, &mut self.root, moves) {
            return true;
        }
        if self.ruled_out.pauses() {
            return false;
        }
        let to = skip_from(doc, span.from, &self.root, moves);
        self.ruled_out = self.ruled_out.answered(doc, span, to);
        false
    }

    /// Whether it is known that no tokens whose words all stand in the span of the document satisfy the plan's selection, whichever of them
    /// are taken and in whatever order, sentences and paragraphs they are: words that it needs don't stand there. False says nothing. It
    /// looks how far these words are, counts a move for each term of theirs, and takes no memory.
    pub fn lacks<L: Ledger>(&mut self, doc: DocId, span: Span, moves: &mut Steps<L>) -> bool
        requires there { has_document doc.0 self.old.version ≡ true }
        requires inside { (1 ≤ span.from) × (span.from ≤ span.to) × (span.to ≤ token_count (document_at doc.0 self.old.version) + 1) }
        ensures none { result ≡ true → (tokens : List Token) → HaveWordsOf tokens (span_tokens span (document_at doc.0 self.old.version))
            → sat (lexicon self.old.lists) self.old.form tokens ≡ false }
        ensures same { self.new ≡ self.old }
        ensures price { is_cheap (lexicon self.old.lists) self.old.form ≡ true → moves.new ≤ moves.old + price_at self.old doc.0 span }
        ensures grown { moves.old ≤ moves.new }
    {
        if self.ruled_out.holds(doc, span) {
            return true;
        }
        let to = skip_from(doc, span.from, &self.root, moves);
        self.ruled_out = self.ruled_out.answered(doc, span, to);
        self.ruled_out.holds(doc, span)
    }

    /// Looks the words that the selection needs up in the document's directory of terms, and reads no row: of a document in which one
    /// that is needed doesn't stand all is ruled out. Who asks much of one document looks each of them up there once. After words that
    /// are needed and aren't there nothing is looked up.
    pub fn look_up(&mut self, doc: DocId)
        ensures { self.new ≡ self.old }
    {
        let may = look_up(doc, &mut self.root);
        self.ruled_out = self.ruled_out.looked_up(doc, may);
    }

    /// A place up to which it is known that the document can be skipped: no span of it that starts at `from` or after, and ends there
    /// or before it, satisfies the plan's selection, since words that it needs stand further on. 0 says nothing, and the greatest
    /// number says that nothing is left in the document. It tells what `look_up`, `test` and `lacks` found, and reads nothing.
    pub fn skip_to(&self, doc: DocId, from: u32) -> u32
        requires there { has_document doc.0 self.now.version ≡ true }
        ensures none { (span : Span)
            → (1 ≤ span.from) × (span.from ≤ span.to) × (span.to ≤ token_count (document_at doc.0 self.now.version) + 1)
            → from ≤ span.from → span.to ≤ result
            → sat (lexicon self.now.lists) self.now.form (span_tokens span (document_at doc.0 self.now.version)) ≡ false }
    {
        self.ruled_out.skip_to(doc, from)
    }
}
