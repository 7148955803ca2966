//! The reply to a selection that is to be explained: how it is printed once it is rewritten.

ghost use Rattle.std.specs.Prelude.{◌≡◌, IfOk, Ok};
ghost use Rattle.ft_syntax.specs.Symbols.{printed};
ghost use Rattle.ft_syntax.specs.View.{form};
ghost use Rattle.session_state.specs.Explained as spec;

use crate::paths::refuse;
use ft_base::Memory;
use ft_parser::read_selection;
use ft_rewriter::rewrite;
use ft_syntax::{Selection, print_selection};
use reply_lines::Reply;
use std::alloc::Global;

/// The rewritten selection, printed, or the first fault of a text that is none. No list is looked at.
pub(crate) fn explain(alloc: Global, text: &str) -> Result<Reply, Memory>
    ensures { IfOk result (λ reply. reply ≡ spec.explained text.now) }
{
    match read_selection(alloc, text) {
        Ok(selection) => explain_read(alloc, selection),
        Err(fault) => refuse(fault),
    }
}

/// The same for a selection that was read.
fn explain_read(alloc: Global, selection: Selection) -> Result<Reply, Memory>
    ensures { IfOk result (λ reply. reply ≡ spec.explained_read (Ok (form selection))) }
{
    let simple = rewrite(alloc, &selection);
    std::mem::drop(selection);
    match simple {
        Ok(simple) => print_simple(alloc, simple),
        Err(memory) => Err(memory),
    }
}

/// The same for one that was rewritten.
fn print_simple(alloc: Global, simple: Selection) -> Result<Reply, Memory>
    ensures { IfOk result (λ reply. reply ≡ Reply.Explained (printed (form simple))) }
{
    let line = print_selection(alloc, &simple);
    std::mem::drop(simple);
    match line {
        Ok(text) => Ok(Reply::Explained(text)),
        Err(memory) => Err(memory),
    }
}
