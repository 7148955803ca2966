//! A session that is made up and answered, for measurements.

ghost use Rattle.std.specs.Prelude.{◌≡◌, ◌++◌, ◌∷◌, [], ◌+◌, ◌^◌, ◌<◌, ◌≤◌, IfOk, IsErrOf, OnErr, OnOk};
ghost use Rattle.ft_base.specs.Limits.{max_documents};
ghost use Rattle.made_sessions.specs.Made.{made};
ghost use Rattle.session_text.specs.Commands.{commands};
ghost use Rattle.session_text.specs.Reading.{new_reading};
ghost use Rattle.session_state.specs.State.{opening};
ghost use Rattle.ft_session.specs.Output.{has_refusal, short_output};
ghost use Rattle.ft_session.specs.Run.{TookPrefix, with_text};

use crate::answering::{AnswerError, answer_all};
use crate::portion::Portion;
use ft_base::{Memory, Steps};
use ft_io::Sink;
use made_sessions::make_session;
use plan_runs::Judge;
use reply_lines::{Command, Commands};
use session_state::Session;
use session_text::Lines_;
use std::alloc::Global;
use std::sync::ledger::{Blank, Ledger};

/// Makes a session of so many documents and answers its commands. Of each reply that begins with `=` the first line is written, and of others
/// nothing. It says whether a reply is a refusal.
pub(crate) fn answer_made<J: Judge + Drop, K: Sink, L: Ledger, M: Ledger>(
    alloc: Global,
    count: u32,
    judge: J,
    sink: &mut K,
    moves: Blank,
    rows: Blank,
) -> Result<bool, AnswerError>
    requires some { 1 ≤ count }
    requires within { count ≤ max_documents }
    requires sink_countable { K.faults sink.old + 1 < 2 ^ 64 }
    requires moves_name { moves.name ≡ M.name }
    requires moves_parts { moves.parts ≡ M.parts }
    requires moves_whole { 0 < moves.parts }
    requires rows_name { rows.name ≡ L.name }
    requires rows_parts { rows.parts ≡ L.parts }
    requires rows_whole { 0 < rows.parts }
    ensures refused { IfOk result (λ refused. refused ≡ has_refusal J.says (made count)) }
    ensures written { OnOk result (K.written sink.new ≡ with_text (K.written sink.old) (short_output J.says (made count))) }
    ensures prefix { OnErr result (TookPrefix (K.written sink.old) (K.written sink.new) (short_output J.says (made count))) }
    ensures faults { OnOk result (K.faults sink.new ≡ K.faults sink.old) }
    ensures cause { IsErrOf result AnswerError.Fault → K.faults sink.old < K.faults sink.new }
{
    let mut session = Session::new(alloc, judge)?;
    let mut moves = Steps::<M>::new(moves);
    let mut rows = Steps::<L>::new(rows);
    let answered = answer_commands(alloc, count, &mut session, sink, &mut moves, &mut rows);
    drop(session);
    answered
}

/// The same for a session that holds nothing yet.
#[tactic(auto, unfolding(crate::specs::Output::replies_to))]
fn answer_commands<J: Judge + Drop, K: Sink, L: Ledger, M: Ledger>(
    alloc: Global,
    count: u32,
    session: &mut Session<J>,
    sink: &mut K,
    moves: &mut Steps<M>,
    rows: &mut Steps<L>,
) -> Result<bool, AnswerError>
    requires some { 1 ≤ count }
    requires within { count ≤ max_documents }
    requires opening { session.old.state ≡ opening }
    requires sink_countable { K.faults sink.old + 1 < 2 ^ 64 }
    ensures refused { IfOk result (λ refused. refused ≡ has_refusal J.says (made count)) }
    ensures written { OnOk result (K.written sink.new ≡ with_text (K.written sink.old) (short_output J.says (made count))) }
    ensures prefix { OnErr result (TookPrefix (K.written sink.old) (K.written sink.new) (short_output J.says (made count))) }
    ensures faults { OnOk result (K.faults sink.new ≡ K.faults sink.old) }
    ensures cause { IsErrOf result AnswerError.Fault → K.faults sink.old < K.faults sink.new }
{
    let commands = made_commands(alloc, count)?;
    let answered = answer_all(
        alloc,
        session,
        commands.as_slice(),
        sink,
        moves,
        rows,
        Portion::Short,
    );
    std::mem::drop(commands);
    answered
}

/// The commands of a made session of so many documents.
fn made_commands(alloc: Global, count: u32) -> Result<Commands, Memory>
    requires some { 1 ≤ count }
    requires within { count ≤ max_documents }
    ensures { IfOk result (λ found. found ≡ commands (made count)) }
{
    let session = make_session(alloc, count)?;
    let mut reader = Lines_::new(alloc);
    let found = read_commands(&mut reader, session.as_slice());
    std::mem::drop((reader, session));
    found
}

/// The commands of a session, by a reader that has taken nothing yet.
fn read_commands(reader: &mut Lines_, session: &[u8]) -> Result<Commands, Memory>
    requires { reader.old ≡ new_reading }
    ensures { IfOk result (λ found. found ≡ commands session.now) }
{
    let given = reader.feed(session)?;
    match reader.end() {
        Ok(Some(last)) => with_last(given, last),
        Ok(None) => Ok(given),
        Err(memory) => {
            std::mem::drop(given);
            Err(memory)
        }
    }
}

/// The commands with one more after them.
fn with_last(given: Commands, last: Command) -> Result<Commands, Memory>
    ensures { IfOk result (λ all. all ≡ given ++ last ∷ []) }
{
    let mut all = given;
    all.push(last)?;
    Ok(all)
}
