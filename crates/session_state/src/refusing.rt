//! Why commands are refused, by what was answered where their work was to be done.

ghost use Rattle.std.specs.Prelude.{◌≡◌, ◌≢◌, IfOk, OnOk};
ghost use Rattle.session_state.specs.DocumentReplies.{edit_refusal, exceeded, load_refusal, removal_refusal};

use doc_profile::DocFault;
use document_store::{NotEdited, NotLoaded, NotRemoved};
use ft_base::{Line, Memory};
use reply_lines::{FullOf, LimitOf, Refusal, Reply};
use std::alloc::Global;

/// The refusal of a block with that fault. Want of memory is none.
pub(crate) fn refuse_block(fault: DocFault) -> Result<Reply, Memory>
    ensures refusal { IfOk result (λ reply. reply ≡ Reply.Refused (Refusal.Document fault)) }
    ensures known { OnOk result (fault ≢ DocFault.Memory) }
{
    match fault {
        DocFault::Memory => Err(Memory),
        _ => Ok(Reply::Refused(Refusal::Document(fault))),
    }
}

/// Why no document is loaded under the name.
pub(crate) fn refuse_load(alloc: Global, name: &Line, why: NotLoaded) -> Result<Refusal, Memory>
    ensures { IfOk result (λ refusal. refusal ≡ load_refusal name.now why) }
{
    match why {
        NotLoaded::NameTaken => {
            let name = Line::read(alloc, name.as_str())?;
            Ok(Refusal::NameTaken { name })
        }
        NotLoaded::Full => {
            let what = FullOf::Documents;
            Ok(Refusal::Full { what })
        }
        NotLoaded::Document(fault) => Ok(Refusal::Document(fault)),
        NotLoaded::TooManyTokens => Ok(Refusal::TooManyTokens),
    }
}

/// Why no document of the name is taken out.
pub(crate) fn refuse_removal(alloc: Global, name: &Line, why: NotRemoved) -> Result<Refusal, Memory>
    ensures { IfOk result (λ refusal. refusal ≡ removal_refusal name.now why) }
{
    match why {
        NotRemoved::NoSuchName => {
            let name = Line::read(alloc, name.as_str())?;
            Ok(Refusal::NoSuchName { name })
        }
    }
}

/// Why documents are not edited.
pub(crate) fn refuse_edit(why: NotEdited) -> Refusal
    ensures { result ≡ edit_refusal why }
{
    let what = limit_exceeded(why);
    Refusal::Limit { what }
}

/// What a document would have too much of.
fn limit_exceeded(why: NotEdited) -> LimitOf
    ensures { result ≡ exceeded why }
{
    match why {
        NotEdited::TooDeep => LimitOf::Depth,
        NotEdited::TooManyNodes => LimitOf::Nodes,
        NotEdited::TooManyTokens => LimitOf::Tokens,
    }
}
