// Commands that are asked again where memory ran out.
ghost use Rattle.std.specs.Prelude.{◌≡◌, ◌<◌, ◌^◌, length};

use crate::library::{first_replies, library_session};
use ft_base::{Line, Memory, Steps};
use plan_runs::Direct;
use session_state::Session;
use session_text::{Command, Commands, Lines_, Reply, print_reply};
use std::alloc::Global;
use std::marker::Brand;
use std::process::Abort;
use std::sync::ledger::{Blank, Ledger};
use std::test::Fail;

/// The commands of a session.
fn commands_of(alloc: Global, session: &[u8]) -> Result<Commands, Memory>
    requires { length session.now < 2 ^ 62 }
{
    let mut reader = Lines_::new(alloc);
    let commands = reader.feed(session);
    std::mem::drop(reader);
    commands
}

/// Carries the command out, once more where memory ran out. It is there then.
fn reply_to<L: Ledger, M: Ledger>(
    rt: &impl Abort,
    session: &mut Session<Direct>,
    command: &Command,
    moves: &mut Steps<M>,
    rows: &mut Steps<L>,
) -> Result<Reply, Memory> {
    match session.step(command, moves, rows) {
        Ok(reply) => Ok(reply),
        Err(Memory) => {
            let reply = session.step(command, moves, rows);
            assert!(rt; reply.is_ok());
            reply
        }
    }
}

/// The reply as it is printed.
fn text_of(alloc: Global, reply: Reply) -> Result<Line, Memory> {
    let text = print_reply(alloc, &reply);
    std::mem::drop(reply);
    text
}

/// Carries the commands out, and adds the texts of their replies.
fn add_replies<L: Ledger, M: Ledger>(
    rt: &impl Abort,
    alloc: Global,
    session: &mut Session<Direct>,
    commands: &[Command],
    output: &mut String,
    moves: &mut Steps<M>,
    rows: &mut Steps<L>,
) -> Result<(), Memory> {
    for command in commands {
        let reply = reply_to(rt, session, command, moves, rows)?;
        let text = text_of(alloc, reply)?;
        output.push_str(text.as_str())?;
    }
    Ok(())
}

/// The texts of the replies to these commands, the first of a session.
fn replies_of<L: Ledger, M: Ledger>(
    rt: &impl Abort,
    alloc: Global,
    commands: &Commands,
    moves: Blank,
    rows: Blank,
) -> Result<String, Memory>
    requires moves_name { moves.name ≡ M.name }
    requires moves_parts { moves.parts ≡ M.parts }
    requires moves_whole { 0 < moves.parts }
    requires rows_name { rows.name ≡ L.name }
    requires rows_parts { rows.parts ≡ L.parts }
    requires rows_whole { 0 < rows.parts }
{
    let mut session = Session::new(alloc, Direct)?;
    let mut output = String::new(alloc);
    let mut moves = Steps::<M>::new(moves);
    let mut rows = Steps::<L>::new(rows);
    let added = add_replies(
        rt,
        alloc,
        &mut session,
        commands.as_slice(),
        &mut output,
        &mut moves,
        &mut rows,
    );
    std::mem::drop(session);
    added?;
    Ok(output)
}

/// The same, counted by counters of its own.
fn replies_to(rt: &impl Abort, alloc: Global, commands: &Commands) -> Result<String, Memory> {
    replies_of::<Brand, Brand>(rt, alloc, commands, Blank::new(1), Blank::new(1))
}

// `tools/refuse-memory` lets each growth in turn be refused in this test. What was answered is then as it is where none is refused, and
// so is the session's state, as far as its counts tell it.
#[test]
fn a_command_is_answered_when_it_is_asked_again(rt: HostRuntime) -> Result<(), Fail> {
    let alloc = rt.alloc();
    let mut session = library_session(alloc)?;
    session.push_str("stats\n")?;
    assert!(rt; session.len() < 10_000);
    let commands = commands_of(alloc, session.as_bytes())?;
    let first = replies_to(&rt, alloc, &commands)?;
    let second = replies_to(&rt, alloc, &commands)?;
    let wanted = first_replies(alloc, usize::MAX)?;
    assert!(rt;
        first == second && first.starts_with(wanted.as_str()),
        "{first}"
    );
    Ok(())
}
