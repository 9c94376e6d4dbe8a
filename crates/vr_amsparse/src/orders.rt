//! The command that given parameters make.
ghost use Rattle.std.specs.Prelude.{◌≡◌, IfOk};
ghost use Rattle.vr_amsparse.specs.Orders.{entry_kind_of, delete_command, source_of, from_of, to_of};
ghost use Rattle.vr_amsparse.specs.Orders.{repro_of, repro_command, build_of, build_command, form_of};
ghost use Rattle.vr_amsparse.specs.Orders.{print_by, print_command, list_command, verify_command};
ghost use Rattle.vr_amsparse.specs.Orders.{examine_command, command_of};

use crate::command::{
    BuildCommand, Command, DeleteCommand, From, ListCommand, PrintCommand, PrintForm, ReproCommand,
    Source, To,
};
use crate::defining::{alter_command, define_alternate, define_cluster, define_path};
use crate::values::{choice_for, is_first, is_second, name_for, names_for, number_for, text_for};
use std::alloc::Global;
use vr_amsparse_grammar::{Choice, Given, Section, Slot, given_for};
use vr_catalog::EntryKind;
use vr_scan::Tokens;
use vr_types::{Name, OutOfMemory};

/// Of which kind DELETE's entries have to be.
fn entry_kind_of(choice: Option<Choice>) -> Option<EntryKind>
    ensures { result ≡ entry_kind_of choice }
{
    match choice {
        None => None,
        Some(Choice::First) => Some(EntryKind::Cluster),
        Some(Choice::Second) => Some(EntryKind::Alternate),
        Some(Choice::Third) => Some(EntryKind::Path),
    }
}

/// DELETE.
fn delete_command(
    alloc: Global,
    tokens: &Tokens,
    given: &[Given],
) -> Result<Option<Command>, OutOfMemory>
    ensures { IfOk result (λ command. command ≡ delete_command tokens.now given.now) }
{
    if given_for(given, Slot::Entry).is_none() {
        return Ok(None);
    }
    let kind = entry_kind_of(choice_for(given, Slot::EntryKind));
    let names = names_for(alloc, tokens, given, Slot::Entry)?;
    Ok(Some(Command::Delete(DeleteCommand { names, kind })))
}

/// INFILE or INDATASET.
fn source_of(alloc: Global, tokens: &Tokens, given: &[Given]) -> Result<Option<Source>, OutOfMemory>
    ensures { IfOk result (λ source. source ≡ source_of tokens.now given.now) }
{
    if is_first(choice_for(given, Slot::Source)) {
        return Ok(Some(Source::Data(text_for(alloc, tokens, given, Slot::Source)?)));
    }
    match name_for(alloc, tokens, given, Slot::Source)? {
        None => Ok(None),
        Some(name) => Ok(Some(Source::DataSet(name))),
    }
}

/// FROMKEY or SKIP.
fn from_of(alloc: Global, tokens: &Tokens, given: &[Given]) -> Result<From, OutOfMemory>
    ensures { IfOk result (λ from. from ≡ from_of tokens.now given.now) }
{
    match choice_for(given, Slot::From) {
        None => Ok(From::Start),
        Some(Choice::First) => Ok(From::Key(text_for(alloc, tokens, given, Slot::From)?)),
        Some(Choice::Second) => Ok(From::Skip(number_for(tokens, given, Slot::From, 0, 0))),
        Some(Choice::Third) => Ok(From::Start),
    }
}

/// TOKEY or COUNT.
fn to_of(alloc: Global, tokens: &Tokens, given: &[Given]) -> Result<To, OutOfMemory>
    ensures { IfOk result (λ to. to ≡ to_of tokens.now given.now) }
{
    match choice_for(given, Slot::To) {
        None => Ok(To::End),
        Some(Choice::First) => Ok(To::Key(text_for(alloc, tokens, given, Slot::To)?)),
        Some(Choice::Second) => Ok(To::Count(number_for(tokens, given, Slot::To, 0, 0))),
        Some(Choice::Third) => Ok(To::End),
    }
}

/// REPRO of a source into a target.
fn repro_of(
    source: Option<Source>,
    target: Option<Name>,
    from: From,
    to: To,
    replace: bool,
) -> Option<Command>
    ensures { result ≡ repro_of source target from to replace }
{
    match source {
        None => None,
        Some(source) => match target {
            None => None,
            Some(target) => Some(Command::Repro(ReproCommand {
                source,
                target,
                from,
                to,
                replace,
            })),
        },
    }
}

/// REPRO.
fn repro_command(
    alloc: Global,
    tokens: &Tokens,
    given: &[Given],
) -> Result<Option<Command>, OutOfMemory>
    ensures { IfOk result (λ command. command ≡ repro_command tokens.now given.now) }
{
    let replace = is_first(choice_for(given, Slot::Replace));
    let source = source_of(alloc, tokens, given)?;
    let target = name_for(alloc, tokens, given, Slot::Target)?;
    let from = from_of(alloc, tokens, given)?;
    let to = to_of(alloc, tokens, given)?;
    Ok(repro_of(source, target, from, to, replace))
}

/// BLDINDEX of an alternate index over a base.
fn build_of(base: Option<Name>, alternate: Option<Name>) -> Option<Command>
    ensures { result ≡ build_of base alternate }
{
    match base {
        None => None,
        Some(base) => match alternate {
            None => None,
            Some(alternate) => Some(Command::BuildIndex(BuildCommand { base, alternate })),
        },
    }
}

/// BLDINDEX.
fn build_command(
    alloc: Global,
    tokens: &Tokens,
    given: &[Given],
) -> Result<Option<Command>, OutOfMemory>
    ensures { IfOk result (λ command. command ≡ build_command tokens.now given.now) }
{
    let base = name_for(alloc, tokens, given, Slot::Source)?;
    let alternate = name_for(alloc, tokens, given, Slot::Target)?;
    Ok(build_of(base, alternate))
}

/// How PRINT shows a record.
fn form_of(choice: Option<Choice>) -> PrintForm
    ensures { result ≡ form_of choice }
{
    match choice {
        None => PrintForm::Dump,
        Some(Choice::First) => PrintForm::Character,
        Some(Choice::Second) => PrintForm::Hex,
        Some(Choice::Third) => PrintForm::Dump,
    }
}

/// PRINT of a data set.
fn print_by(
    alloc: Global,
    tokens: &Tokens,
    given: &[Given],
    source: Name,
) -> Result<Command, OutOfMemory>
    ensures { IfOk result (λ command. command ≡ print_by tokens.now given.now source) }
{
    let form = form_of(choice_for(given, Slot::Form));
    let from = from_of(alloc, tokens, given)?;
    let to = to_of(alloc, tokens, given)?;
    Ok(Command::Print(PrintCommand {
        source,
        form,
        from,
        to,
    }))
}

/// PRINT.
fn print_command(
    alloc: Global,
    tokens: &Tokens,
    given: &[Given],
) -> Result<Option<Command>, OutOfMemory>
    ensures { IfOk result (λ command. command ≡ print_command tokens.now given.now) }
{
    match name_for(alloc, tokens, given, Slot::Source)? {
        None => Ok(None),
        Some(source) => Ok(Some(print_by(alloc, tokens, given, source)?)),
    }
}

/// LISTCAT.
fn list_command(alloc: Global, tokens: &Tokens, given: &[Given]) -> Result<Command, OutOfMemory>
    ensures { IfOk result (λ command. command ≡ list_command tokens.now given.now) }
{
    let all = is_second(choice_for(given, Slot::Detail));
    let entries = names_for(alloc, tokens, given, Slot::Entries)?;
    Ok(Command::ListCatalog(ListCommand { entries, all }))
}

/// VERIFY.
fn verify_command(
    alloc: Global,
    tokens: &Tokens,
    given: &[Given],
) -> Result<Option<Command>, OutOfMemory>
    ensures { IfOk result (λ command. command ≡ verify_command tokens.now given.now) }
{
    match name_for(alloc, tokens, given, Slot::Name)? {
        None => Ok(None),
        Some(name) => Ok(Some(Command::Verify(name))),
    }
}

/// EXAMINE.
fn examine_command(
    alloc: Global,
    tokens: &Tokens,
    given: &[Given],
) -> Result<Option<Command>, OutOfMemory>
    ensures { IfOk result (λ command. command ≡ examine_command tokens.now given.now) }
{
    match name_for(alloc, tokens, given, Slot::Name)? {
        None => Ok(None),
        Some(name) => Ok(Some(Command::Examine(name))),
    }
}

/// The command that ends with this list, if there is one, and all is given that it has to have.
pub(crate) fn command_of(
    alloc: Global,
    section: Section,
    tokens: &Tokens,
    given: &[Given],
) -> Result<Option<Command>, OutOfMemory>
    ensures { IfOk result (λ command. command ≡ command_of section tokens.now given.now) }
{
    match section {
        Section::ClusterParts => define_cluster(alloc, tokens, given),
        Section::AlternateParts => define_alternate(alloc, tokens, given),
        Section::PathEnd => define_path(alloc, tokens, given),
        Section::Alter => alter_command(alloc, tokens, given),
        Section::Delete => delete_command(alloc, tokens, given),
        Section::Repro => repro_command(alloc, tokens, given),
        Section::BuildIndex => build_command(alloc, tokens, given),
        Section::Print => print_command(alloc, tokens, given),
        Section::ListCatalog => Ok(Some(list_command(alloc, tokens, given)?)),
        Section::Verify => verify_command(alloc, tokens, given),
        Section::Examine => examine_command(alloc, tokens, given),
        _ => Ok(None),
    }
}
