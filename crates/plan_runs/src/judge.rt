//! Who says whether the tokens of an element satisfy a selection.

ghost use Rattle.std.specs.Prelude.{◌≡◌, ◌≤◌, ◌+◌, true, false, List};
ghost use Rattle.ft_base.specs.declared.span.Span.{Span};
ghost use Rattle.ft_base.specs.declared.token.Token.{Token};
ghost use Rattle.index_meaning.specs.Documents.{document_at, has_document, token_count};
ghost use Rattle.index_phrases.specs.Tokens.{span_tokens};
ghost use Rattle.plan_compiler.specs.CheapSelections.{is_cheap};
ghost use Rattle.plan_compiler.specs.Lexicon.{lexicon};
ghost use Rattle.plan_runs.specs.Judgement.{HaveWordsOf, Judgement};
ghost use Rattle.plan_runs.specs.RunPrice.{price_at};

use crate::run::Run;
use ft_base::{DocId, Span, Steps};
use std::sync::ledger::Ledger;

/// Says whether the tokens of an element satisfy a selection. A session asks its judge for each `contains text`, and hands it the
/// run of the selection over the version of its index.
pub trait Judge {
    /// Whether tokens satisfy a selection under lists, as judges of this type say it. It never changes.
    ghost says: { Judgement };

    /// Whether the tokens of the span of the document satisfy the selection of the run, under its lists. The run stays over its
    /// selection, its lists and its version. It takes no memory, and counts the moves of cursors; those of a cheap selection are no more
    /// than its price there.
    fn judge<L: Ledger>(
        &self,
        run: &mut Run<'_>,
        doc: DocId,
        span: Span,
        moves: &mut Steps<L>,
    ) -> bool
        requires there { has_document doc.0 run.old.version ≡ true }
        requires inside { (1 ≤ span.from) × (span.from ≤ span.to) × (span.to ≤ token_count (document_at doc.0 run.old.version) + 1) }
        ensures says { result ≡ says run.old.form run.old.lists (span_tokens span (document_at doc.0 run.old.version)) }
        ensures same { run.new ≡ run.old }
        ensures grown { moves.old ≤ moves.new }
        ensures price { is_cheap (lexicon run.old.lists) run.old.form ≡ true → moves.new ≤ moves.old + price_at run.old doc.0 span };

    /// Whether it is known that of no tokens whose words all stand in the span of the document `judge` says that they satisfy the selection of
    /// the run: not of those of the span, nor of what is left of it. False says nothing. The run stays over its selection, its lists and
    /// its version. It takes no memory, and counts what it reads of the index, for no more than the price of a cheap selection there.
    fn lacks<L: Ledger>(
        &self,
        run: &mut Run<'_>,
        doc: DocId,
        span: Span,
        moves: &mut Steps<L>,
    ) -> bool
        requires there { has_document doc.0 run.old.version ≡ true }
        requires inside { (1 ≤ span.from) × (span.from ≤ span.to) × (span.to ≤ token_count (document_at doc.0 run.old.version) + 1) }
        ensures none { result ≡ true → (tokens : List Token) → HaveWordsOf tokens (span_tokens span (document_at doc.0 run.old.version))
            → says run.old.form run.old.lists tokens ≡ false }
        ensures same { run.new ≡ run.old }
        ensures grown { moves.old ≤ moves.new }
        ensures price { is_cheap (lexicon run.old.lists) run.old.form ≡ true → moves.new ≤ moves.old + price_at run.old doc.0 span };

    /// A place up to which it is known that the document can be skipped: of no span of it that starts at `from` or after, and ends
    /// there or before it, does `judge` say that its tokens satisfy the selection of the run. 0 says nothing, and the greatest number
    /// says that nothing is left in the document. It moves no cursor, reads no row of the index and takes no memory.
    fn skip_to(&self, run: &Run<'_>, doc: DocId, from: u32) -> u32
        requires there { has_document doc.0 run.now.version ≡ true }
        ensures none { (span : Span)
            → (1 ≤ span.from) × (span.from ≤ span.to) × (span.to ≤ token_count (document_at doc.0 run.now.version) + 1)
            → from ≤ span.from → span.to ≤ result
            → says run.now.form run.now.lists (span_tokens span (document_at doc.0 run.now.version)) ≡ false };
}

/// The judge that asks the run itself. It says what the standard's definitions say.
#[derive(Clone, Copy)]
pub struct Direct;

impl Judge for Direct {
    ghost use Rattle.plan_runs.specs.Judgement.{by_definition};

    ghost says = { by_definition };

    fn judge<L: Ledger>(
        &self,
        run: &mut Run<'_>,
        doc: DocId,
        span: Span,
        moves: &mut Steps<L>,
    ) -> bool {
        run.test(doc, span, moves)
    }

    fn lacks<L: Ledger>(
        &self,
        run: &mut Run<'_>,
        doc: DocId,
        span: Span,
        moves: &mut Steps<L>,
    ) -> bool {
        run.lacks(doc, span, moves)
    }

    fn skip_to(&self, run: &Run<'_>, doc: DocId, from: u32) -> u32 {
        run.skip_to(doc, from)
    }
}
