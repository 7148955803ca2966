ghost use Rattle.std.specs.Prelude.{◌≡◌, ◌≢◌, ◌⊎◌, ◌↔◌, ◌+◌, ◌^◌, ◌<◌, ◌≤◌, None, length, map, take, IfSome, IsSome, IsSomeAnd, OnSome, string_bytes};
ghost use Rattle.std.specs.Option.{ForSome, option_copied, option_map};
ghost use Rattle.ft_base.specs.Limits.{max_session_bytes};
ghost use Rattle.ft_io.specs.Shelf.{bytes_of, known_bytes};
ghost use Rattle.made_sessions.specs.Asked.{asked_count};
ghost use Rattle.made_sessions.specs.Made.{made};
ghost use Rattle.ft_session.specs.Output.{output, output_of_whole, short_output};
ghost use Rattle.ft_session.specs.Run.{AnswersAll, AnswersMade, IsFinished, TookPrefix, first_of, is_file_word, session_file, with_text};

use crate::answering::AnswerError;
use crate::made::answer_made;
use crate::pieces::{Stopped, answer_file};
use crate::status::Status;
use ft_io::{Shelf, Sink};
use made_sessions::asked_count;
use plan_runs::Judge;
use std::alloc::Global;
use std::marker::Brand;
use std::sync::ledger::Blank;

/// The session's file that the words of a call name: one word that isn't empty and doesn't begin with a hyphen.
fn file_of(words: &[String]) -> Option<&String>
    ensures file { option_map string_bytes (option_copied result) ≡ session_file (map string_bytes words.now) }
    ensures asks_for_none { OnSome result (asked_count (map string_bytes words.now) ≡ None) }
{
    match words {
        [word] if !word.is_empty() && !word.starts_with("-") => Some(word),
        _ => None,
    }
}

/// Reads the session's file that the words name, does its commands in order and writes the reply to each.
///
/// Where the words are `--make` and a number, or `--make=` and the number in one word, a session of so many documents is made up in its
/// place, nothing is read, and of each reply that begins with `=` the first line is written, and of others nothing.
///
/// The words are the arguments of a call, without the program's name. The file is read in pieces of at most `MAX_PIECE_BYTES`, and
/// each command is answered before the piece after its last byte is read. The judge is asked of each `contains text`, and the
/// clauses hold for any: what a path selects is told by what its judge says.
pub fn run<J: Judge + Drop, S: Shelf, K: Sink>(
    alloc: Global,
    words: &[String],
    judge: J,
    shelf: &mut S,
    sink: &mut K,
) -> Status
    requires fresh { ForSome (first_of (map string_bytes words.now)) (λ name. S.reached shelf.old name ≡ 0) }
    requires shelf_countable { ForSome (first_of (map string_bytes words.now)) (λ name. S.faults shelf.old name + 1 < 2 ^ 64) }
    requires sink_countable { K.faults sink.old + 1 < 2 ^ 64 }

    // The headline: the replies to the session's commands, in order, and which of the two statuses it is.
    ensures answers { IsFinished result → IfSome (session_file (map string_bytes words.now)) (λ name.
        IfSome (S.files shelf.old) (λ files. IsSomeAnd (bytes_of files name) (λ session.
        AnswersAll J.says session (S.reached shelf.new name) (K.written sink.old) (K.written sink.new) result))) }
    ensures limit { IsFinished result → IfSome (session_file (map string_bytes words.now)) (λ name. S.reached shelf.new name ≤ max_session_bytes) }

    // Whatever the status, no more than a prefix of those replies is written.
    ensures prefix { IfSome (session_file (map string_bytes words.now)) (λ name. IfSome (known_bytes (S.files shelf.old) name) (λ session.
        TookPrefix (K.written sink.old) (K.written sink.new) (output J.says session))) }

    // The words name no session's file and ask for no made session.
    ensures usage { (result ≡ Status.Usage)
        ↔ ((session_file (map string_bytes words.now) ≡ None) × (asked_count (map string_bytes words.now) ≡ None)) }
    ensures usage_leaves_shelf { result ≡ Status.Usage → shelf.new ≡ shelf.old }
    ensures usage_leaves_sink { result ≡ Status.Usage → sink.new ≡ sink.old }

    // A fault is one that was counted in this call, under the session's name or at the sink.
    ensures read_fault { result ≡ Status.ReadFault → IfSome (session_file (map string_bytes words.now)) (λ name.
        S.faults shelf.old name < S.faults shelf.new name) }
    ensures read_fault_writes { result ≡ Status.ReadFault → IfSome (session_file (map string_bytes words.now)) (λ name.
        IfSome (known_bytes (S.files shelf.old) name) (λ session.
        K.written sink.new ≡ with_text (K.written sink.old) (output_of_whole J.says (take (S.reached shelf.new name) session)))) }
    ensures write_fault { result ≡ Status.WriteFault → K.faults sink.old < K.faults sink.new }

    // The session is too long: one byte more than it may have was read. Then too the commands that were whole are answered.
    ensures too_long { result ≡ Status.TooLong → IfSome (session_file (map string_bytes words.now)) (λ name.
        (S.reached shelf.new name ≡ max_session_bytes + 1) × (K.faults sink.new ≡ K.faults sink.old)) }
    ensures too_long_only { IfSome (session_file (map string_bytes words.now)) (λ name.
        S.reached shelf.new name ≡ max_session_bytes + 1 → K.faults sink.new ≡ K.faults sink.old → (result ≡ Status.TooLong) ⊎ (result ≡ Status.Memory)) }
    ensures too_long_writes { result ≡ Status.TooLong → IfSome (session_file (map string_bytes words.now)) (λ name.
        IfSome (known_bytes (S.files shelf.old) name) (λ session.
        K.written sink.new ≡ with_text (K.written sink.old) (output_of_whole J.says (take (S.reached shelf.new name) session)))) }

    // Where nothing fails and the session isn't too long, it is answered, unless memory runs out.
    ensures complete { IfSome (session_file (map string_bytes words.now)) (λ name.
        S.faults shelf.new name ≡ S.faults shelf.old name → K.faults sink.new ≡ K.faults sink.old →
        IfSome (known_bytes (S.files shelf.old) name) (λ session. length session ≤ max_session_bytes →
        IsFinished result ⊎ (result ≡ Status.Memory))) }

    // Whatever the status, one byte more than a session may have is the last that is read.
    ensures reached_most { IfSome (session_file (map string_bytes words.now)) (λ name. S.reached shelf.new name ≤ max_session_bytes + 1) }

    // The same of a made session, for which nothing is read.
    ensures made_answers { IsFinished result → IfSome (asked_count (map string_bytes words.now)) (λ count.
        AnswersMade J.says (made count) (K.written sink.old) (K.written sink.new) result) }
    ensures made_prefix { IfSome (asked_count (map string_bytes words.now)) (λ count.
        TookPrefix (K.written sink.old) (K.written sink.new) (short_output J.says (made count))) }
    ensures made_leaves_shelf { IsSome (asked_count (map string_bytes words.now)) → shelf.new ≡ shelf.old }
    ensures made_reads_nothing { IsSome (asked_count (map string_bytes words.now)) → (result ≢ Status.ReadFault) × (result ≢ Status.TooLong) }
    ensures made_complete { IsSome (asked_count (map string_bytes words.now)) → K.faults sink.new ≡ K.faults sink.old →
        IsFinished result ⊎ (result ≡ Status.Memory) }
{
    if let Some(name) = file_of(words) {
        return match answer_file::<J, S, K, Brand, Brand>(
            alloc,
            name,
            judge,
            shelf,
            sink,
            Blank::new(1),
            Blank::new(1),
        ) {
            Ok(true) => Status::SomeRefused,
            Ok(false) => Status::Done,
            Err(Stopped::ReadFault) => Status::ReadFault,
            Err(Stopped::WriteFault) => Status::WriteFault,
            Err(Stopped::TooLong) => Status::TooLong,
            Err(Stopped::Memory) => Status::Memory,
        };
    }
    let Some(count) = asked_count(words) else {
        return Status::Usage;
    };
    match answer_made::<J, K, Brand, Brand>(
        alloc,
        count,
        judge,
        sink,
        Blank::new(1),
        Blank::new(1),
    ) {
        Ok(true) => Status::SomeRefused,
        Ok(false) => Status::Done,
        Err(AnswerError::Fault) => Status::WriteFault,
        Err(AnswerError::Memory) => Status::Memory,
    }
}
