ghost use Rattle.std.specs.Prelude.{◌≡◌, ◌++◌, ◌+◌, ◌^◌, ◌<◌, [], List, ℕ, length, string_bytes, IfOk, IsErrOf, OnErr, OnOk};
ghost use Rattle.std.specs.List.{list_any};
ghost use Rattle.session_text.specs.Reading.{commands_left, new_reading};
ghost use Rattle.reply_lines.specs.Replies.{is_refusal};
ghost use Rattle.session_state.specs.State.{opening};
ghost use Rattle.session_state.specs.Step.{replies};
ghost use Rattle.ft_session.specs.Output.{texts_of};
ghost use Rattle.ft_session.specs.steps.Pieces.{Answered, FileAnswered};
ghost use Rattle.ft_session.specs.Run.{TookPrefix, with_text};

use crate::answering::{AnswerError, answer, answer_all};
use crate::portion::Portion;
use crate::reading::{MOST, buffer, read_piece};
use ft_base::{MAX_PIECE_BYTES, Memory, Steps};
use ft_io::{Shelf, Sink};
use plan_runs::Judge;
use session_state::Session;
use session_text::Lines_;
use std::alloc::{AllocError, Global};
use std::sync::ledger::{Blank, Ledger};

/// Why a session was not answered to its end.
#[derive(Clone, Copy)]
pub(crate) enum Stopped {
    ReadFault,
    WriteFault,
    TooLong,
    Memory,
}

impl From<AnswerError> for Stopped {
    ghost use Rattle.ft_session.specs.steps.Pieces.{stopped_by};

    ghost from_gives = { λ error stopped. stopped ≡ stopped_by error };

    fn from(error: AnswerError) -> Stopped {
        match error {
            AnswerError::Fault => Stopped::WriteFault,
            AnswerError::Memory => Stopped::Memory,
        }
    }
}

impl From<Memory> for Stopped {
    ghost use Rattle.ft_session.specs.declared.pieces.Stopped.TheVariants as stops;

    ghost from_gives = { λ _ stopped. stopped ≡ stops.Memory };

    fn from(_memory: Memory) -> Stopped {
        Stopped::Memory
    }
}

impl From<AllocError> for Stopped {
    ghost use Rattle.ft_session.specs.declared.pieces.Stopped.TheVariants as stops;

    ghost from_gives = { λ _ stopped. stopped ≡ stops.Memory };

    fn from(_error: AllocError) -> Stopped {
        Stopped::Memory
    }
}

/// A session that is being answered: the reader of its bytes, and what it holds.
#[derive(Drop)]
struct Answering<J: Judge + Drop> {
    alloc: Global,
    lines: Lines_,
    session: Session<J>,
}

/// Takes the next piece of the session and answers the commands that became whole with it. It says whether a reply is a
/// refusal.
fn answer_piece<J: Judge + Drop, K: Sink, L: Ledger, M: Ledger>(
    answering: &mut Answering<J>,
    piece: &[u8],
    sink: &mut K,
    moves: &mut Steps<M>,
    rows: &mut Steps<L>,
) -> Result<bool, AnswerError>
    requires countable { K.faults sink.old + 1 < 2 ^ 64 }
    requires room { answering.old.lines.bytes + length piece.now < 2 ^ 63 }
    ensures answered { IfOk result (λ refused.
        Answered J.says answering.old.lines answering.new.lines answering.old.session.state answering.new.session.state piece.now refused (K.written sink.old)
        (K.written sink.new)) }
    ensures prefix { OnErr result ((more : List ℕ) → TookPrefix (K.written sink.old) (K.written sink.new)
        (texts_of (replies J.says answering.old.session.state (commands_left answering.old.lines (piece.now ++ more))))) }
    ensures bytes { answering.new.lines.bytes ≡ answering.old.lines.bytes + length piece.now }
    ensures faults { OnOk result (K.faults sink.new ≡ K.faults sink.old) }
    ensures cause { IsErrOf result AnswerError.Fault → K.faults sink.old < K.faults sink.new }
{
    let given = answering.lines.feed(piece)?;
    answer_all(
        answering.alloc,
        &mut answering.session,
        given.as_slice(),
        sink,
        moves,
        rows,
        Portion::Whole,
    )
}

/// Takes the session's end and answers the command that an unfinished line or block is then. It says whether a reply is a
/// refusal.
fn answer_end<J: Judge + Drop, K: Sink, L: Ledger, M: Ledger>(
    answering: &mut Answering<J>,
    sink: &mut K,
    moves: &mut Steps<M>,
    rows: &mut Steps<L>,
) -> Result<bool, AnswerError>
    requires { K.faults sink.old + 1 < 2 ^ 64 }
    ensures refused { IfOk result (λ refused. refused
        ≡ list_any is_refusal (replies J.says answering.old.session.state (commands_left answering.old.lines []))) }
    ensures written { OnOk result (K.written sink.new
        ≡ with_text (K.written sink.old) (texts_of (replies J.says answering.old.session.state (commands_left answering.old.lines [])))) }
    ensures prefix { OnErr result (TookPrefix (K.written sink.old) (K.written sink.new)
        (texts_of (replies J.says answering.old.session.state (commands_left answering.old.lines [])))) }
    ensures faults { OnOk result (K.faults sink.new ≡ K.faults sink.old) }
    ensures cause { IsErrOf result AnswerError.Fault → K.faults sink.old < K.faults sink.new }
{
    match answering.lines.end()? {
        Some(command) => {
            let session = &mut answering.session;
            let answered = answer(
                answering.alloc,
                session,
                &command,
                sink,
                moves,
                rows,
                Portion::Whole,
            );
            drop(command);
            answered
        }
        None => Ok(false),
    }
}

/// Reads a session's file piece by piece, until its end comes or one byte more than a session may have was read, and answers
/// each command before the next piece is read. It says whether a reply is a refusal.
pub(crate) fn answer_file<J: Judge + Drop, S: Shelf, K: Sink, L: Ledger, M: Ledger>(
    alloc: Global,
    name: &String,
    judge: J,
    shelf: &mut S,
    sink: &mut K,
    moves: Blank,
    rows: Blank,
) -> Result<bool, Stopped>
    requires fresh { S.reached shelf.old (string_bytes name.now) ≡ 0 }
    requires shelf_countable { S.faults shelf.old (string_bytes name.now) + 1 < 2 ^ 64 }
    requires sink_countable { K.faults sink.old + 1 < 2 ^ 64 }
    requires moves_name { moves.name ≡ M.name }
    requires moves_parts { moves.parts ≡ M.parts }
    requires moves_whole { 0 < moves.parts }
    requires rows_name { rows.name ≡ L.name }
    requires rows_parts { rows.parts ≡ L.parts }
    requires rows_whole { 0 < rows.parts }
    ensures { FileAnswered J.says (S.files shelf.old) (string_bytes name.now) (S.reached shelf.new (string_bytes name.now))
        (S.faults shelf.old (string_bytes name.now)) (S.faults shelf.new (string_bytes name.now)) (K.faults sink.old) (K.faults sink.new)
        (K.written sink.old) (K.written sink.new) result }
{
    let session = Session::new(alloc, judge)?;
    let mut answering = Answering {
        alloc,
        lines: Lines_::new(alloc),
        session,
    };
    let mut moves = Steps::<M>::new(moves);
    let mut rows = Steps::<L>::new(rows);
    let answered = answer_pieces(&mut answering, name, shelf, sink, &mut moves, &mut rows);
    drop(answering);
    answered
}

/// The same for a session of which nothing was taken yet.
fn answer_pieces<J: Judge + Drop, S: Shelf, K: Sink, L: Ledger, M: Ledger>(
    answering: &mut Answering<J>,
    name: &String,
    shelf: &mut S,
    sink: &mut K,
    moves: &mut Steps<M>,
    rows: &mut Steps<L>,
) -> Result<bool, Stopped>
    requires reading { answering.old.lines ≡ new_reading }
    requires opening { answering.old.session.state ≡ opening }
    requires fresh { S.reached shelf.old (string_bytes name.now) ≡ 0 }
    requires shelf_countable { S.faults shelf.old (string_bytes name.now) + 1 < 2 ^ 64 }
    requires sink_countable { K.faults sink.old + 1 < 2 ^ 64 }
    ensures { FileAnswered J.says (S.files shelf.old) (string_bytes name.now) (S.reached shelf.new (string_bytes name.now))
        (S.faults shelf.old (string_bytes name.now)) (S.faults shelf.new (string_bytes name.now)) (K.faults sink.old) (K.faults sink.new)
        (K.written sink.old) (K.written sink.new) result }
{
    let mut piece = buffer(answering.alloc, MAX_PIECE_BYTES)?;
    let mut taken = 0;
    let mut refused = false;
    while taken < MOST {
        let Ok(count) = read_piece(name, shelf, taken, &mut piece) else {
            return Err(Stopped::ReadFault);
        };
        if count == 0 {
            refused |= answer_end(answering, sink, moves, rows)?;
            return Ok(refused);
        }
        refused |= answer_piece(answering, &piece[..count], sink, moves, rows)?;
        taken += count as u64;
    }
    Err(Stopped::TooLong)
}
