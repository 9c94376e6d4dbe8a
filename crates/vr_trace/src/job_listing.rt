//! The listing of a job.
ghost use Rattle.std.specs.Prelude.{◌≡◌, ◌++◌, ◌∷◌, [], codes, map, OnOk, IfOk};
ghost use Rattle.std.specs.Fmt.{decimal};
ghost use Rattle.std.specs.List.{flat_map};
ghost use Rattle.vr_history.specs.Merged as merging;
ghost use Rattle.vr_trace.specs.Code as coded;
ghost use Rattle.vr_trace.specs.Lines.{field};
ghost use Rattle.vr_trace.specs.Listing as listed;
ghost use Rattle.vr_trace.specs.Numbering.{numbered_of, held_decks};

use crate::code::{job_code, step_code};
use crate::histories::Histories;
use crate::kept::{FileNames, KeptDeck, KeptDeckStep, KeptDecks, KeptStep, KeptSteps};
use crate::line::{NEW_LINE, verb, write_field, write_file, write_result, write_values};
use crate::merging::{Merged, NumberedEntry, merge};
use crate::report::StepReport;
use std::alloc::Global;
use vr_history::What;
use vr_types::{Bytes, OutOfMemory, Reply, Request};

/// What a job prints whose steps ran and left these reports, and the volumes with these histories: for
/// each step of decks its decks by their numbers, each with a line for each of its requests on any
/// volume, in the order of the merged history; for each step of IDCAMS the lines of the next report,
/// as long as one is left; and the codes. Out of memory is its one error.
pub fn listing(
    alloc: Global,
    steps: &KeptSteps,
    reports: &[StepReport],
    histories: &Histories,
) -> Result<Bytes, OutOfMemory>
    ensures { IfOk result (λ text. text
        ≡ listed.listing_of steps.now reports.now histories.now) }
{
    let merged = merge(alloc, histories)?;
    let mut out = Bytes::new(alloc);
    write_steps(
        alloc,
        &mut out,
        steps.as_slice(),
        reports,
        histories,
        &merged,
    )?;
    let code = job_code(steps, reports, histories);
    write_code(alloc, &mut out, b"JOB CODE ", code)?;
    Ok(out)
}

/// Writes a keyword, a code and the end of the line.
fn write_code(alloc: Global, out: &mut Bytes, keyword: &[u8], code: u8) -> Result<(), OutOfMemory>
    ensures { OnOk result (out.new ≡ out.old ++ (field keyword.now code ++ 10 ∷ [])) }
{
    write_field(alloc, out, keyword, u64::from(code))?;
    out.push(NEW_LINE)
}

/// Writes the lines of the steps: each step of IDCAMS takes the next report.
fn write_steps(
    alloc: Global,
    out: &mut Bytes,
    steps: &[KeptStep],
    reports: &[StepReport],
    histories: &Histories,
    merged: &Merged<'_>,
) -> Result<(), OutOfMemory>
    requires { merged.now ≡ merging.merged histories.now }
    ensures { OnOk result (out.new
        ≡ out.old ++ listed.steps_listing histories.now steps.now reports.now) }
{
    let mut left = reports;
    for step in steps {
        match step {
            KeptStep::Decks(step) => write_step(alloc, out, step, histories, merged)?,
            KeptStep::Utilities(name) => {
                if let Some((report, later)) = left.split_first() {
                    write_report(alloc, out, name.as_slice(), report)?;
                    left = later;
                }
            }
        }
    }
    Ok(())
}

/// Writes the lines of a step of decks.
fn write_step(
    alloc: Global,
    out: &mut Bytes,
    step: &KeptDeckStep,
    histories: &Histories,
    merged: &Merged<'_>,
) -> Result<(), OutOfMemory>
    requires { merged.now ≡ merging.merged histories.now }
    ensures { OnOk result (out.new ≡ out.old ++ listed.step_listing histories.now step.now) }
{
    write_heading(out, step.name.as_slice(), b" DECKS")?;
    write_decks(alloc, out, &step.decks, merged.as_slice())?;
    let code = step_code(&step.decks, histories);
    write_step_code(alloc, out, step.name.as_slice(), code)
}

/// Writes the lines of a step of IDCAMS.
fn write_report(
    alloc: Global,
    out: &mut Bytes,
    name: &[u8],
    report: &StepReport,
) -> Result<(), OutOfMemory>
    ensures { OnOk result (out.new ≡ out.old ++ listed.report_listing name.now report.now) }
{
    write_heading(out, name, b" IDCAMS")?;
    out.extend(report.lines.as_slice())?;
    write_step_code(alloc, out, name, report.code)
}

/// Writes the first line of a step, with its program.
fn write_heading(out: &mut Bytes, name: &[u8], program: &[u8]) -> Result<(), OutOfMemory>
    ensures { OnOk result (out.new ≡ out.old ++ listed.step_line name.now program.now) }
{
    out.extend(b"STEP ")?;
    out.extend(name)?;
    out.extend(program)?;
    out.push(NEW_LINE)
}

/// Writes the last line of a step.
fn write_step_code(alloc: Global, out: &mut Bytes, name: &[u8], code: u8) -> Result<(), OutOfMemory>
    ensures { OnOk result (out.new
        ≡ out.old ++ listed.step_line name.now (field (codes " CODE ") code)) }
{
    out.extend(b"STEP ")?;
    out.extend(name)?;
    write_code(alloc, out, b" CODE ", code)
}

/// Writes the lines of the decks, by their numbers.
fn write_decks(
    alloc: Global,
    out: &mut Bytes,
    decks: &KeptDecks,
    entries: &[NumberedEntry<'_>],
) -> Result<(), OutOfMemory>
    ensures { OnOk result (out.new
        ≡ out.old ++ listed.decks_lines (map numbered_of entries.now) decks.now) }
{
    let ordered = by_number(alloc, decks.as_slice())?;
    write_ordered(alloc, out, ordered.as_slice(), entries)
}

/// The decks by their numbers.
fn by_number<'a>(alloc: Global, decks: &'a [KeptDeck]) -> Result<Vec<&'a KeptDeck>, OutOfMemory>
    ensures { IfOk result (λ ordered. held_decks ordered.items ≡ listed.by_number decks.now) }
{
    let mut ordered = Vec::new(alloc);
    for deck in decks {
        ordered.push(deck)?;
    }
    ordered.sort_by_key(|deck| deck.number)?;
    Ok(ordered)
}

/// Writes the lines of the decks in this order.
fn write_ordered(
    alloc: Global,
    out: &mut Bytes,
    decks: &[&KeptDeck],
    entries: &[NumberedEntry<'_>],
) -> Result<(), OutOfMemory>
    ensures { OnOk result (out.new ≡ out.old
        ++ flat_map (listed.deck_lines (map numbered_of entries.now)) (held_decks decks.now)) }
{
    for deck in decks {
        write_deck(alloc, out, deck, entries)?;
    }
    Ok(())
}

/// Writes the lines of a deck.
fn write_deck(
    alloc: Global,
    out: &mut Bytes,
    deck: &KeptDeck,
    entries: &[NumberedEntry<'_>],
) -> Result<(), OutOfMemory>
    ensures { OnOk result (out.new
        ≡ out.old ++ listed.deck_lines (map numbered_of entries.now) deck.now) }
{
    for this in entries {
        write_entry(alloc, out, deck, this)?;
    }
    Ok(())
}

/// Writes the line of an entry, where it is a request of the deck.
fn write_entry(
    alloc: Global,
    out: &mut Bytes,
    deck: &KeptDeck,
    this: &NumberedEntry<'_>,
) -> Result<(), OutOfMemory>
    ensures { OnOk result (out.new
        ≡ out.old ++ listed.entry_line deck.now (numbered_of this.now)) }
{
    if this.entry.unit.deck == deck.number {
        if let What::Asked { request, reply } = &this.entry.what {
            write_asked(alloc, out, &deck.files, this, request.get(), reply)?;
        }
    }
    Ok(())
}

/// Writes the line of a request with its reply.
fn write_asked(
    alloc: Global,
    out: &mut Bytes,
    names: &FileNames,
    this: &NumberedEntry<'_>,
    request: &Request,
    reply: &Reply,
) -> Result<(), OutOfMemory>
    ensures { OnOk result (out.new ≡ out.old
        ++ listed.asked_line names.now (numbered_of this.now) request.now reply.now) }
{
    write_place(alloc, out, this)?;
    out.extend(verb(request))?;
    write_file(out, names, request)?;
    write_result(alloc, out, reply)?;
    write_values(alloc, out, request, reply)?;
    out.push(NEW_LINE)
}

/// Writes where a request was asked: its deck, its line and its volume.
fn write_place(alloc: Global, out: &mut Bytes, this: &NumberedEntry<'_>) -> Result<(), OutOfMemory>
    ensures { OnOk result (out.new ≡ out.old ++ listed.place_text (numbered_of this.now)) }
{
    write_field(alloc, out, b"DECK ", u64::from(this.entry.unit.deck))?;
    write_field(alloc, out, b" LINE ", u64::from(this.entry.line))?;
    write_field(alloc, out, b" VOL ", this.volume as u64)?;
    out.extend(b" ")
}
