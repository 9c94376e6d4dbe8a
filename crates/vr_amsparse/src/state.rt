//! How far a command text has been read, and what a token does to it.
ghost use Rattle.std.specs.Prelude.{◌≡◌, ◌+◌, IfOk, OnOk, IfErr, min};
ghost use Rattle.vr_scan.specs.Token.{token_at};
ghost use Rattle.vr_amsparse.specs.Run.{first_state, variable_at, number_at, comparison_at};
ghost use Rattle.vr_amsparse.specs.Run.{condition_at, setting_at, within_of, with_node, ended_command};
ghost use Rattle.vr_amsparse.specs.Run.{with_command, finished, restaged, in_else, grouped, branched};
ghost use Rattle.vr_amsparse.specs.Run.{group_ended, begun, granted, applied, is_other, ready, act_for};
ghost use Rattle.vr_amsparse.specs.Run.{step, Went};
ghost use Rattle.vr_amsparse.specs.Stops.{Stops};

use crate::act::{Act, Around, Place, act_at};
use crate::command::{Branch, CodeVariable, Command, Comparison, Condition, Node, Setting, Within};
use crate::opens::{Open, Opens, Stage, complete, settle};
use crate::orders::command_of;
use crate::values::text_after;
use crate::verb::{comparison_named, variable_named};
use std::alloc::Global;
use vr_amsparse_grammar::{AmsCause, DataNames, Given, Point, Section, Seen};
use vr_scan::{TokenKind, Tokens};
use vr_text::number_in;
use vr_types::{Items, OutOfMemory};

/// How far a text has been read.
#[derive(Drop)]
pub(crate) struct State {
    /// What is due next.
    pub(crate) place: Place,
    /// The first word of the command under way.
    pub(crate) start: usize,
    /// Its parameters so far.
    pub(crate) given: Items<Given>,
    /// The commands so far.
    pub(crate) nodes: Items<Node>,
    /// The IFs that are open.
    pub(crate) opens: Opens,
}

/// Why reading stopped: a fault and its token, or memory ran out.
#[derive(Clone, Copy)]
pub(crate) enum Stop {
    Bad(AmsCause, usize),
    Memory,
}

impl From<OutOfMemory> for Stop {
    ghost use Rattle.std.specs.Prelude.{◌≡◌};
    ghost use Rattle.vr_amsparse.specs.declared.state.Stop.TheVariants.{Memory};

    ghost from_gives = { λ _ stop. stop ≡ Memory };

    fn from(_error: OutOfMemory) -> Stop {
        Stop::Memory
    }
}

/// Before a command.
pub(crate) fn first_state(alloc: Global) -> State
    ensures { result ≡ first_state }
{
    State {
        place: Place::Command,
        start: 0,
        given: Items::new(alloc),
        nodes: Items::new(alloc),
        opens: Opens::new(alloc),
    }
}

/// The code that the token names that stands so many tokens after the first.
fn variable_after(tokens: &Tokens, start: usize, ahead: usize) -> CodeVariable
    ensures { result ≡ variable_at tokens.now (start + ahead) }
{
    variable_named(text_after(tokens, start, ahead)).unwrap_or(CodeVariable::LastCode)
}

/// The number that such a token writes.
fn number_after(tokens: &Tokens, start: usize, ahead: usize) -> u64
    ensures { result ≡ number_at tokens.now (start + ahead) }
{
    number_in(text_after(tokens, start, ahead)).unwrap_or(0)
}

/// The comparison that such a token says.
fn comparison_after(tokens: &Tokens, start: usize, ahead: usize) -> Comparison
    ensures { result ≡ comparison_at tokens.now (start + ahead) }
{
    comparison_named(text_after(tokens, start, ahead)).unwrap_or(Comparison::Equal)
}

/// The condition of an IF.
fn condition_at(tokens: &Tokens, start: usize) -> Condition
    ensures { result ≡ condition_at tokens.now start }
{
    Condition {
        variable: variable_after(tokens, start, 1),
        comparison: comparison_after(tokens, start, 2),
        number: number_after(tokens, start, 3),
    }
}

/// The setting of a SET.
fn setting_at(tokens: &Tokens, start: usize) -> Setting
    ensures { result ≡ setting_at tokens.now start }
{
    Setting {
        variable: variable_after(tokens, start, 1),
        code: at_most_16(number_after(tokens, start, 3)),
    }
}

/// A code: a number above 16 counts as 16.
fn at_most_16(number: u64) -> u8
    ensures { result ≡ min 16 number }
{
    if number < 16 { number as u8 } else { 16 }
}

/// The branch that a command stands in.
fn within_of(top: Option<Open>) -> Option<Within>
    ensures { result ≡ within_of top }
{
    match top {
        None => None,
        Some(one) => Some(Within {
            node: one.node,
            branch: one.branch,
        }),
    }
}

/// The line of a token, 0 past the last.
fn line_at(tokens: &Tokens, at: usize) -> u32
    ensures { result ≡ (token_at tokens.now at).line }
{
    if at < tokens.len() {
        tokens.line(at)
    } else {
        0
    }
}

/// Adds a command in its place.
fn push_node(tokens: &Tokens, state: &mut State, command: Command) -> Result<(), OutOfMemory>
    ensures { OnOk result (state.new ≡ with_node tokens.now state.old command) }
{
    let line = line_at(tokens, state.start);
    let within = within_of(state.opens.top());
    state.nodes.push(Node {
        line,
        within,
        command,
    })?;
    Ok(())
}

/// The command that ends with this list of parameters.
fn ended_command(
    alloc: Global,
    section: Section,
    tokens: &Tokens,
    state: &State,
) -> Result<Option<Command>, OutOfMemory>
    ensures { IfOk result (λ command. command ≡ ended_command section tokens.now state.now) }
{
    match section {
        Section::SetEnd => Ok(Some(Command::Set(setting_at(tokens, state.start)))),
        _ => command_of(alloc, section, tokens, state.given.as_slice()),
    }
}

/// The end of a command.
fn finish(tokens: &Tokens, state: &mut State, command: Command) -> Result<(), OutOfMemory>
    ensures { OnOk result (state.new ≡ with_command tokens.now state.old command) }
{
    push_node(tokens, state, command)?;
    state.place = Place::Command;
    complete(&mut state.opens);
    Ok(())
}

/// The end of the command that ends with this list.
fn finish_list(
    alloc: Global,
    tokens: &Tokens,
    state: &mut State,
    section: Section,
) -> Result<(), Stop>
    ensures ok { OnOk result (finished tokens.now state.old
        (ended_command section tokens.now state.old) ≡ Went state.new) }
    ensures bad { IfErr result (Stops (finished tokens.now state.old
        (ended_command section tokens.now state.old))) }
{
    match ended_command(alloc, section, tokens, state)? {
        None => Err(Stop::Bad(AmsCause::ParameterMissing, state.start)),
        Some(command) => Ok(finish(tokens, state, command)?),
    }
}

/// The condition of an IF is complete.
fn branch_if(tokens: &Tokens, state: &mut State) -> Result<(), OutOfMemory>
    ensures { OnOk result (state.new ≡ branched tokens.now state.old) }
{
    let node = state.nodes.len();
    let condition = condition_at(tokens, state.start);
    push_node(tokens, state, Command::If(condition))?;
    state.opens.push(Open {
        node,
        branch: Branch::Then,
        stage: Stage::Single,
    })?;
    state.place = Place::Branch;
    Ok(())
}

/// Brings the innermost IF to another stage.
fn restage(opens: &mut Opens, stage: Stage)
    ensures { opens.new ≡ restaged stage opens.old }
{
    if let Some(one) = opens.top() {
        opens.set_top(Open {
            node: one.node,
            branch: one.branch,
            stage,
        });
    }
}

/// Brings the innermost IF into its branch of ELSE.
fn enter_else(opens: &mut Opens)
    ensures { opens.new ≡ in_else opens.old }
{
    if let Some(one) = opens.top() {
        opens.set_top(Open {
            node: one.node,
            branch: Branch::Else,
            stage: Stage::Single,
        });
    }
}

/// DO, token `at`.
fn group(state: &mut State, at: usize)
    ensures { state.new ≡ grouped state.old at }
{
    restage(&mut state.opens, Stage::Group(at));
    state.place = Place::Command;
}

/// END.
fn end_group(state: &mut State)
    ensures { state.new ≡ group_ended state.old }
{
    restage(&mut state.opens, Stage::Single);
    complete(&mut state.opens);
    state.place = Place::GroupEnd;
}

/// A command begins.
fn begin(alloc: Global, state: &mut State, at: usize, place: Place)
    ensures { state.new ≡ begun state.old at place }
{
    state.given = Items::new(alloc);
    state.start = at;
    state.place = place;
}

/// A parameter is given.
fn give(state: &mut State, given: Given, point: Point) -> Result<(), OutOfMemory>
    ensures { OnOk result (state.new ≡ granted state.old given point) }
{
    state.given.push(given)?;
    state.place = Place::Within(point);
    Ok(())
}

/// What a token does to the state.
fn apply(alloc: Global, tokens: &Tokens, state: &mut State, at: usize, act: Act) -> Result<(), Stop>
    ensures ok { OnOk result (applied tokens.now state.old at act ≡ Went state.new) }
    ensures bad { IfErr result (Stops (applied tokens.now state.old at act)) }
{
    match act {
        Act::Stay => {}
        Act::Complete => {
            state.place = Place::Command;
            complete(&mut state.opens);
        }
        Act::Go(place) => state.place = place,
        Act::Begin(place) => begin(alloc, state, at, place),
        Act::Give(given, point) => give(state, given, point)?,
        Act::Else => {
            state.place = Place::Branch;
            enter_else(&mut state.opens);
        }
        Act::Do => group(state, at),
        Act::EndGroup => end_group(state),
        Act::Finish(section) => finish_list(alloc, tokens, state, section)?,
        Act::Condition => branch_if(tokens, state)?,
        Act::Missing => return Err(Stop::Bad(AmsCause::ParameterMissing, state.start)),
        Act::Bad(cause) => return Err(Stop::Bad(cause, at)),
    }
    Ok(())
}

/// Whether a token is neither an end nor ELSE.
fn is_other(kind: TokenKind, text: &[u8]) -> bool
    ensures { result ≡ is_other kind text.now }
{
    match kind {
        TokenKind::End => false,
        TokenKind::Word => text != b"ELSE".as_slice(),
        _ => true,
    }
}

/// Before the step of a token.
fn make_ready(state: &mut State, kind: TokenKind, text: &[u8])
    ensures { state.new ≡ ready state.old kind text.now }
{
    if is_other(kind, text) {
        settle(&mut state.opens);
    }
}

/// What a token does.
fn act_of(
    alloc: Global,
    state: &State,
    seen: Seen<'_>,
    names: &DataNames,
) -> Result<Act, OutOfMemory>
    ensures { IfOk result (λ act. act
        ≡ act_for names.now state.now seen.entry.at seen.entry.kind seen.entry.text.now) }
{
    let around = Around {
        top: state.opens.top(),
        depth: state.opens.len(),
    };
    act_at(
        alloc,
        state.place,
        seen,
        state.given.as_slice(),
        names,
        around,
    )
}

/// The step of a token.
#[tactic(auto, unfolding(crate::specs::Run::step))]
pub(crate) fn step(
    alloc: Global,
    tokens: &Tokens,
    names: &DataNames,
    state: &mut State,
    seen: Seen<'_>,
) -> Result<(), Stop>
    ensures ok { OnOk result (step tokens.now names.now state.old seen.entry.at seen.entry.kind
        seen.entry.text.now ≡ Went state.new) }
    ensures bad { IfErr result (Stops (step tokens.now names.now state.old seen.entry.at
        seen.entry.kind seen.entry.text.now)) }
{
    make_ready(state, seen.kind, seen.text);
    let act = act_of(alloc, state, seen, names)?;
    apply(alloc, tokens, state, seen.at, act)
}
