ghost use Rattle.std.specs.Prelude.{◌≡◌, ◌≢◌, IfOk, Ok, OnOk};
ghost use Rattle.doc_profile.specs.Faults.{IsWithin};
ghost use Rattle.document_store.specs.Documents.{loadable, with_few_tokens};
ghost use Rattle.document_store.specs.LoadView.{outcome, IsFoundUnder};

use crate::fault::NotLoaded;
use crate::loaded::Loadable;
use doc_profile::{DocFault, read_doc};
use ft_base::Memory;
use ordered_tree::laws::numbered_law;
use ordered_tree::load_doc;
use plain_tree::PlainDoc;
use std::alloc::Global;
use tokenizer::TokenFault;
use word_lists::KeySet;

/// What a block is: a document that can be loaded, or why none can.
#[derive(Drop)]
pub(crate) enum Outcome {
    Document(Loadable),
    NotLoaded(NotLoaded),
}

/// That a block has that fault. Want of memory is none of it.
fn refuse(fault: DocFault) -> Result<NotLoaded, Memory>
    ensures fault { IfOk result (λ why. why ≡ NotLoaded.Document fault) }
    ensures known { OnOk result (fault ≢ DocFault.Memory) }
{
    match fault {
        DocFault::Memory => Err(Memory),
        _ => Ok(NotLoaded::Document(fault)),
    }
}

/// Reads the block as a document with references. Its breaks are those under the abbreviations.
pub(crate) fn read_document(
    alloc: Global,
    block: &[u8],
    abbreviations: &KeySet,
) -> Result<Outcome, Memory>
    ensures outcome { IfOk result (λ read. outcome read ≡ loadable block.now) }
    ensures found { IfOk result (IsFoundUnder abbreviations.now) }
{
    match read_doc(alloc, block) {
        Ok(document) => load(alloc, document, abbreviations),
        Err(fault) => Ok(Outcome::NotLoaded(refuse(fault)?)),
    }
}

/// The document with references, unless it has too many tokens.
fn load(alloc: Global, document: PlainDoc, abbreviations: &KeySet) -> Result<Outcome, Memory>
    requires { IsWithin document }
    ensures outcome { IfOk result (λ read. outcome read ≡ with_few_tokens (Ok document)) }
    ensures found { IfOk result (IsFoundUnder abbreviations.now) }
{
    numbered_law();
    match load_doc(alloc, document, abbreviations) {
        Ok(read) => Ok(Outcome::Document(Loadable { read })),
        Err(TokenFault::Tokens) => Ok(Outcome::NotLoaded(NotLoaded::TooManyTokens)),
        Err(TokenFault::Memory) => Err(Memory),
    }
}
