//! The lists that selections name, as the commands that bring them put them there.

ghost use Rattle.std.specs.Prelude.{◌≡◌, IfOk, OnErr};
ghost use Rattle.thesaurus_file.specs.Lines.{thesaurus_of};
ghost use Rattle.word_lists.specs.Stems.{stems_of};
ghost use Rattle.word_lists.specs.KeySets.{key_set_of};
ghost use Rattle.session_state.specs.Lists.{with_prepared, Answers, stems_put, stop_list_put, thesaurus_put};

use ft_base::{ListFault, MAX_LISTS, Memory};
use kept_plans::Prepared;
use reply_lines::{FullOf, Refusal, Reply};
use std::alloc::Global;
use thesaurus_file::Thesaurus;
use word_lists::{KeySet, Stems};

/// Puts the stop list that the block is under the name, unless the name is new and there are as many as there may be, or the
/// block is no stop list.
pub(crate) fn put_stop_list(
    alloc: Global,
    prepared: &mut Prepared,
    name: &str,
    block: &[u8],
) -> Result<Reply, Memory>
    ensures answer { IfOk result (λ reply. (prepared.new, reply)
        ≡ with_prepared prepared.old (stop_list_put prepared.old.lists name.now (key_set_of block.now))) }
    ensures err { OnErr result (prepared.new ≡ prepared.old) }
{
    if !prepared.lists().has_stop(name) && prepared.lists().stop_count() >= MAX_LISTS {
        let what = FullOf::StopLists;
        return Ok(Reply::Refused(Refusal::Full { what }));
    }
    match KeySet::read(alloc, block) {
        Ok(list) => {
            prepared.set_stop(name, list)?;
            Ok(Reply::Done)
        }
        Err(fault) => refuse_list(fault),
    }
}

/// Puts the thesaurus that the block is under the name, unless the name is new and there are as many as there may be, or the
/// block is no thesaurus.
pub(crate) fn put_thesaurus(
    alloc: Global,
    prepared: &mut Prepared,
    name: &str,
    block: &[u8],
) -> Result<Reply, Memory>
    ensures answer { IfOk result (λ reply. (prepared.new, reply)
        ≡ with_prepared prepared.old (thesaurus_put prepared.old.lists name.now (thesaurus_of block.now))) }
    ensures err { OnErr result (prepared.new ≡ prepared.old) }
{
    if !prepared.lists().has_thesaurus(name) && prepared.lists().thesaurus_count() >= MAX_LISTS {
        let what = FullOf::Thesauri;
        return Ok(Reply::Refused(Refusal::Full { what }));
    }
    match Thesaurus::read(alloc, block) {
        Ok(list) => {
            prepared.set_thesaurus(name, list)?;
            Ok(Reply::Done)
        }
        Err(fault) => refuse_list(fault),
    }
}

/// Puts the dictionary of stems that the block is in the place of the one that is there, unless the block is none.
pub(crate) fn put_stems(
    alloc: Global,
    prepared: &mut Prepared,
    block: &[u8],
) -> Result<Reply, Memory>
    ensures answer { IfOk result (λ reply. (prepared.new, reply) ≡ with_prepared prepared.old (stems_put prepared.old.lists (stems_of block.now))) }
    ensures err { OnErr result (prepared.new ≡ prepared.old) }
{
    match Stems::read(alloc, block) {
        Ok(stems) => {
            prepared.set_stems(stems)?;
            Ok(Reply::Done)
        }
        Err(fault) => refuse_list(fault),
    }
}

/// The refusal of a block that is no list. Want of memory is none.
pub(crate) fn refuse_list(fault: ListFault) -> Result<Reply, Memory>
    ensures { IfOk result (λ reply. Answers fault reply) }
{
    match fault {
        ListFault::BadLine { line } => Ok(Reply::Refused(Refusal::List { line: line as u64 })),
        ListFault::Memory => Err(Memory),
    }
}
