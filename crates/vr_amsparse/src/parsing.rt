//! Reading the commands of a text.
ghost use Rattle.std.specs.Prelude.{◌≡◌, Some, IfOk, OnOk, IfErr, length};
ghost use Rattle.vr_amsparse.specs.Run.{Went, run, ended, read, nodes_in};
ghost use Rattle.vr_amsparse.specs.Stops.{Stops};
ghost use Rattle.vr_amsparse.specs.Commands.{IsCommands, CauseOf, fault_at};

use crate::command::Commands;
use crate::fault::{AmsFault, CommandFault};
use crate::opens::outermost_group;
use crate::state::{State, Stop, first_state, step};
use std::alloc::Global;
use vr_amsparse_grammar::{AmsCause, DataNames, Seen};
use vr_scan::{TokenKind, Tokens};

/// The commands of a list of tokens, where these are the names of the data of the step: the commands
/// of Access Method Services Commands in the forms that the tables of `vr_amsparse_grammar` have.
///
/// Each token is looked at once. `Text` is the first fault, exactly where the tokens are no list of
/// commands; `Memory` may come at any time.
pub fn parse(alloc: Global, tokens: &Tokens, names: &DataNames) -> Result<Commands, AmsFault>
    ensures commands { IfOk result (IsCommands tokens.now names.now) }
    ensures fault { IfErr result (CauseOf tokens.now names.now) }
{
    match read_commands(alloc, tokens, names) {
        Ok(commands) => Ok(commands),
        Err(Stop::Memory) => Err(AmsFault::Memory),
        Err(Stop::Bad(cause, at)) => Err(AmsFault::Text(fault_at(tokens, cause, at))),
    }
}

/// A fault at a token.
fn fault_at(tokens: &Tokens, cause: AmsCause, at: usize) -> CommandFault
    ensures { result ≡ fault_at tokens.now cause at }
{
    if at < tokens.len() {
        CommandFault {
            cause,
            line: tokens.line(at),
            column: tokens.column(at),
        }
    } else {
        CommandFault {
            cause,
            line: 0,
            column: 0,
        }
    }
}

/// The commands, or the fault and its token.
fn read_commands(alloc: Global, tokens: &Tokens, names: &DataNames) -> Result<Commands, Stop>
    ensures commands { IfOk result (λ commands.
        nodes_in (read tokens.now names.now) ≡ Some commands) }
    ensures bad { IfErr result (Stops (read tokens.now names.now)) }
{
    let mut state = first_state(alloc);
    read_text(alloc, tokens, names, &mut state)?;
    Ok(state.nodes)
}

/// Takes all tokens, and the end of the text.
fn read_text(
    alloc: Global,
    tokens: &Tokens,
    names: &DataNames,
    state: &mut State,
) -> Result<(), Stop>
    ensures ok { OnOk result (nodes_in (run tokens.now names.now (Went state.old) 0 tokens.now)
        ≡ Some state.new.nodes) }
    ensures bad { IfErr result (Stops (run tokens.now names.now (Went state.old) 0 tokens.now)) }
{
    read_tokens(alloc, tokens, names, state)?;
    end_text(alloc, tokens, names, state)
}

/// Takes all tokens.
fn read_tokens(
    alloc: Global,
    tokens: &Tokens,
    names: &DataNames,
    state: &mut State,
) -> Result<(), Stop>
    ensures ok { OnOk result (run tokens.now names.now (Went state.old) 0 tokens.now
        ≡ ended tokens.now names.now state.new (length tokens.now)) }
    ensures bad { IfErr result (Stops (run tokens.now names.now (Went state.old) 0 tokens.now)) }
{
    for at in 0..tokens.len() {
        let seen = Seen {
            at,
            kind: tokens.kind(at),
            text: tokens.text(at),
        };
        match step(alloc, tokens, names, state, seen) {
            Ok(()) => {}
            Err(stop) => return Err(stop),
        }
    }
    Ok(())
}

/// Takes the end of the text.
fn end_text(
    alloc: Global,
    tokens: &Tokens,
    names: &DataNames,
    state: &mut State,
) -> Result<(), Stop>
    ensures ok { OnOk result (nodes_in (ended tokens.now names.now state.old (length tokens.now))
        ≡ Some state.new.nodes) }
    ensures bad { IfErr result (Stops (ended tokens.now names.now state.old (length tokens.now))) }
{
    let seen = Seen {
        at: tokens.len(),
        kind: TokenKind::End,
        text: b"",
    };
    step(alloc, tokens, names, state, seen)?;
    match outermost_group(&mut state.opens) {
        Some(at) => Err(Stop::Bad(AmsCause::DoOrEndAlone, at)),
        None => Ok(()),
    }
}
