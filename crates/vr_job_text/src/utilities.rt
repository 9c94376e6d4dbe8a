//! The commands and the data of a step of IDCAMS.
ghost use Rattle.std.specs.Prelude.{◌≡◌, ◌++◌, drop, OnOk, IfOk, IfErr};
ghost use Rattle.vr_scan.specs.Scan.{IsTokens};
ghost use Rattle.vr_amsparse.specs.Commands.{IsCommands};
ghost use Rattle.vr_job_text.specs.Utilities.{lines_of_kind, command_lines, names_of_kind, padded};
ghost use Rattle.vr_job_text.specs.Utilities.{data_names, cards_of, data_of_kind, data_of};
ghost use Rattle.vr_job_text.specs.Utilities.{AreCommands, ScanFaultBy, TokenFaultBy};
ghost use Rattle.vr_job_text.specs.Utilities.{UtilityFaultBy};

use crate::fault::{JobFault, ams_fault, scan_fault};
use crate::job::DataCards;
use crate::reading::{Part, PartKind};
use std::alloc::Global;
use vr_amsparse::{AmsFault, Commands, DataNames, parse};
use vr_scan::{ScanFault, Tokens, scan};
use vr_text::Lines;
use vr_types::{Bytes, Items, OutOfMemory, bytes};

/// The commands of the parts of a step.
pub(crate) fn commands_in(alloc: Global, parts: &[Part]) -> Result<Commands, JobFault>
    ensures commands { IfOk result (AreCommands (command_lines parts.now) (data_names parts.now)) }
    ensures fault { IfErr result
        (UtilityFaultBy (command_lines parts.now) (data_names parts.now)) }
{
    let lines = command_lines(alloc, parts)?;
    let names = data_names(alloc, parts)?;
    read_commands(alloc, &lines, &names)
}

/// The commands of lines.
#[tactic(auto, using(crate::proofs::Faults::commands_are, crate::proofs::Faults::tokens_refuse, crate::proofs::Faults::commands_refuse))]
fn read_commands(alloc: Global, lines: &Lines, names: &DataNames) -> Result<Commands, JobFault>
    ensures commands { IfOk result (AreCommands lines.now names.now) }
    ensures fault { IfErr result (UtilityFaultBy lines.now names.now) }
{
    match tokens_of(alloc, lines) {
        Ok(tokens) => commands_of(alloc, &tokens, names),
        Err(fault) => Err(fault),
    }
}

/// The tokens of lines.
fn tokens_of(alloc: Global, lines: &Lines) -> Result<Tokens, JobFault>
    ensures tokens { IfOk result (IsTokens lines.now) }
    ensures fault { IfErr result (ScanFaultBy lines.now) }
{
    match scan(alloc, lines) {
        Ok(tokens) => Ok(tokens),
        Err(ScanFault::Form(fault)) => Err(JobFault::Text(scan_fault(fault))),
        Err(ScanFault::Memory) => Err(JobFault::Memory),
    }
}

/// The commands of tokens.
fn commands_of(alloc: Global, tokens: &Tokens, names: &DataNames) -> Result<Commands, JobFault>
    ensures commands { IfOk result (IsCommands tokens.now names.now) }
    ensures fault { IfErr result (TokenFaultBy tokens.now names.now) }
{
    match parse(alloc, tokens, names) {
        Ok(commands) => Ok(commands),
        Err(AmsFault::Text(fault)) => Err(JobFault::Text(ams_fault(fault))),
        Err(AmsFault::Memory) => Err(JobFault::Memory),
    }
}

/// Adds lines at the end of others.
fn add_lines<'a>(lines: &mut Lines<'a>, more: &Lines<'a>) -> Result<(), OutOfMemory>
    ensures { OnOk result (lines.new ≡ lines.old ++ more.now) }
{
    for at in 0..more.len() {
        lines.push(more.number(at), more.text(at))?;
    }
    Ok(())
}

/// Adds the lines of a part that is commands.
fn add_commands<'a>(lines: &mut Lines<'a>, part: &Part<'a>) -> Result<(), OutOfMemory>
    ensures { OnOk result (lines.new ≡ lines.old ++ lines_of_kind part.now.kind part.now.lines) }
{
    match part.kind {
        PartKind::Commands => add_lines(lines, &part.lines),
        PartKind::Deck(_) => Ok(()),
        PartKind::Data(_) => Ok(()),
    }
}

/// The lines of the commands of a step.
fn command_lines<'a>(alloc: Global, parts: &[Part<'a>]) -> Result<Lines<'a>, OutOfMemory>
    ensures { IfOk result (λ lines. lines ≡ command_lines parts.now) }
{
    let mut lines = Lines::new(alloc);
    for part in parts {
        add_commands(&mut lines, part)?;
    }
    Ok(lines)
}

/// Adds the name of a part that is data.
fn add_name(alloc: Global, names: &mut DataNames, kind: &PartKind) -> Result<(), OutOfMemory>
    ensures { OnOk result (names.new ≡ names.old ++ names_of_kind kind.now) }
{
    match kind {
        PartKind::Data(name) => names.push(name.copy(alloc)?),
        PartKind::Deck(_) => Ok(()),
        PartKind::Commands => Ok(()),
    }
}

/// The names of the data of a step.
fn data_names(alloc: Global, parts: &[Part]) -> Result<DataNames, OutOfMemory>
    ensures { IfOk result (λ names. names ≡ data_names parts.now) }
{
    let mut names = DataNames::new(alloc);
    for part in parts {
        add_name(alloc, &mut names, &part.kind)?;
    }
    Ok(names)
}

/// As many blanks as a data card may have.
const BLANKS: [u8; 80] = [b' '; 80];

/// What is left of blanks after this many.
#[tactic(auto, using(crate::proofs::Blanks::none_left))]
fn blanks_after<'a>(blanks: &'a [u8], count: usize) -> &'a [u8]
    ensures { result.now ≡ drop count blanks.now }
{
    if count < blanks.len() {
        &blanks[count..]
    } else {
        &blanks[blanks.len()..]
    }
}

/// A data card, filled with blanks.
#[tactic(auto, using(crate::proofs::Blanks::blanks_left))]
fn padded(alloc: Global, card: &[u8]) -> Result<Bytes, OutOfMemory>
    ensures { IfOk result (λ filled. filled ≡ padded card.now) }
{
    let mut filled = bytes(alloc, card)?;
    filled.extend(blanks_after(BLANKS.as_slice(), card.len()))?;
    Ok(filled)
}

/// Data cards, each filled with blanks.
fn cards_of(alloc: Global, lines: &Lines) -> Result<Items<Bytes>, OutOfMemory>
    ensures { IfOk result (λ cards. cards ≡ cards_of lines.now) }
{
    let mut cards = Items::new(alloc);
    for at in 0..lines.len() {
        cards.push(padded(alloc, lines.text(at))?)?;
    }
    Ok(cards)
}

/// Adds a part that is data.
fn add_data(alloc: Global, inputs: &mut Items<DataCards>, part: &Part) -> Result<(), OutOfMemory>
    ensures { OnOk result (inputs.new ≡ inputs.old ++ data_of_kind part.now.kind part.now.lines) }
{
    match &part.kind {
        PartKind::Data(name) => {
            let name = name.copy(alloc)?;
            let cards = cards_of(alloc, &part.lines)?;
            Ok(inputs.push(DataCards { name, cards })?)
        }
        PartKind::Deck(_) => Ok(()),
        PartKind::Commands => Ok(()),
    }
}

/// The data of a step.
pub(crate) fn data_of(alloc: Global, parts: &[Part]) -> Result<Items<DataCards>, OutOfMemory>
    ensures { IfOk result (λ inputs. inputs ≡ data_of parts.now) }
{
    let mut inputs = Items::new(alloc);
    for part in parts {
        add_data(alloc, &mut inputs, part)?;
    }
    Ok(inputs)
}
