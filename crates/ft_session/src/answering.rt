ghost use Rattle.std.specs.Prelude.{◌≡◌, ◌+◌, ◌^◌, ◌<◌, IfErr, IfOk, IsErrOf, OnErr, OnOk};
ghost use Rattle.std.specs.List.{list_any};
ghost use Rattle.reply_lines.specs.Replies.{is_refusal, reply_text};
ghost use Rattle.session_state.specs.Step.{replies, state_after, step};
ghost use Rattle.ft_session.specs.Output.{portion_of as portion_text, portions_of};
ghost use Rattle.ft_session.specs.Run.{TookPrefix, with_text};

use crate::portion::{Portion, portion_of};
use crate::writing::write_all;
use ft_base::{Memory, Steps};
use ft_io::{Failed, Sink};
use plan_runs::Judge;
use reply_lines::{Command, Commands, Reply, print_reply};
use session_state::Session;
use std::alloc::Global;
use std::sync::ledger::Ledger;

/// Why not all replies were written.
#[derive(Clone, Copy)]
pub(crate) enum AnswerError {
    Fault,
    Memory,
}

impl From<Memory> for AnswerError {
    ghost use Rattle.ft_session.specs.declared.answering.AnswerError.TheVariants as unanswered;

    ghost from_gives = { λ _ error. error ≡ unanswered.Memory };

    fn from(_memory: Memory) -> AnswerError {
        AnswerError::Memory
    }
}

impl From<Failed> for AnswerError {
    ghost use Rattle.ft_session.specs.declared.answering.AnswerError.TheVariants as unanswered;

    ghost from_gives = { λ _ error. error ≡ unanswered.Fault };

    fn from(_failed: Failed) -> AnswerError {
        AnswerError::Fault
    }
}

/// Steps one command, writes so much of its reply, and says whether that is a refusal.
pub(crate) fn answer<J: Judge + Drop, K: Sink, L: Ledger, M: Ledger>(
    alloc: Global,
    session: &mut Session<J>,
    command: &Command,
    sink: &mut K,
    moves: &mut Steps<M>,
    rows: &mut Steps<L>,
    portion: Portion,
) -> Result<bool, AnswerError>
    requires { K.faults sink.old + 1 < 2 ^ 64 }
    ensures state { OnOk result (session.new.state ≡ (step J.says session.old.state command.now).0) }
    ensures refused { IfOk result (λ refused. refused ≡ is_refusal (step J.says session.old.state command.now).1) }
    ensures written { OnOk result (K.written sink.new
        ≡ with_text (K.written sink.old) (portion_text portion (reply_text (step J.says session.old.state command.now).1))) }
    ensures prefix { OnErr result (TookPrefix (K.written sink.old) (K.written sink.new)
        (portion_text portion (reply_text (step J.says session.old.state command.now).1))) }
    ensures faults { OnOk result (K.faults sink.new ≡ K.faults sink.old) }
    ensures cause { IsErrOf result AnswerError.Fault → K.faults sink.old < K.faults sink.new }
{
    let reply = session.step(command, moves, rows)?;
    let answered = write_reply(alloc, &reply, sink, portion);
    drop(reply);
    answered
}

/// Writes so much of a reply, and says whether it is a refusal.
fn write_reply<K: Sink>(
    alloc: Global,
    reply: &Reply,
    sink: &mut K,
    portion: Portion,
) -> Result<bool, AnswerError>
    requires { K.faults sink.old + 1 < 2 ^ 64 }
    ensures refused { IfOk result (λ refused. refused ≡ is_refusal reply.now) }
    ensures written { OnOk result (K.written sink.new ≡ with_text (K.written sink.old) (portion_text portion (reply_text reply.now))) }
    ensures prefix { OnErr result (TookPrefix (K.written sink.old) (K.written sink.new) (portion_text portion (reply_text reply.now))) }
    ensures faults { OnOk result (K.faults sink.new ≡ K.faults sink.old) }
    ensures cause { IsErrOf result AnswerError.Fault → K.faults sink.old < K.faults sink.new }
{
    let text = print_reply(alloc, reply)?;
    write_all(sink, portion_of(portion, text.as_str().as_bytes()))?;
    Ok(reply.is_refusal())
}

/// Answers the commands, one after the other, with so much of each reply, and says whether one is a refusal.
pub(crate) fn answer_all<J: Judge + Drop, K: Sink, L: Ledger, M: Ledger>(
    alloc: Global,
    session: &mut Session<J>,
    commands: &[Command],
    sink: &mut K,
    moves: &mut Steps<M>,
    rows: &mut Steps<L>,
    portion: Portion,
) -> Result<bool, AnswerError>
    requires { K.faults sink.old + 1 < 2 ^ 64 }
    ensures state { OnOk result (session.new.state ≡ state_after J.says session.old.state commands.now) }
    ensures refused { IfOk result (λ refused. refused ≡ list_any is_refusal (replies J.says session.old.state commands.now)) }
    ensures written { OnOk result (K.written sink.new ≡ with_text (K.written sink.old) (portions_of portion (replies J.says session.old.state commands.now))) }
    ensures prefix { OnErr result (TookPrefix (K.written sink.old) (K.written sink.new) (portions_of portion (replies J.says session.old.state commands.now))) }
    ensures faults { OnOk result (K.faults sink.new ≡ K.faults sink.old) }
    ensures cause { IsErrOf result AnswerError.Fault → K.faults sink.old < K.faults sink.new }
{
    let mut refused = false;
    for command in commands {
        refused |= answer(alloc, session, command, sink, moves, rows, portion)?;
    }
    Ok(refused)
}
