//! What the listing shows of a job's text.
ghost use Rattle.std.specs.Prelude.{◌≡◌, ◌++◌, IfOk, OnOk, map};
ghost use Rattle.vr_job_ends.specs.Names as names;

use std::alloc::Global;
use vr_deck_text::DeckFile;
use vr_job_text::{Deck, JobStep, Step};
use vr_trace::{FileNames, KeptDeck, KeptDeckStep, KeptDecks, KeptStep, KeptSteps};
use vr_types::OutOfMemory;

/// Adds the names that a deck has for its files.
fn add_files(alloc: Global, kept: &mut FileNames, files: &[DeckFile]) -> Result<(), OutOfMemory>
    ensures { OnOk result (kept.new ≡ kept.old ++ names.names_in files.now) }
{
    for file in files {
        kept.push(file.name.copy(alloc)?)?;
    }
    Ok(())
}

/// What is shown of a deck.
fn kept_deck(alloc: Global, deck: &Deck) -> Result<KeptDeck, OutOfMemory>
    ensures { IfOk result (λ kept. kept ≡ names.kept_deck deck.now) }
{
    let mut files = FileNames::new(alloc);
    add_files(alloc, &mut files, deck.text.files.as_slice())?;
    Ok(KeptDeck {
        number: deck.number,
        files,
    })
}

/// Adds what is shown of decks.
fn add_decks(alloc: Global, kept: &mut KeptDecks, decks: &[Deck]) -> Result<(), OutOfMemory>
    ensures { OnOk result (kept.new ≡ kept.old ++ map names.kept_deck decks.now) }
{
    for deck in decks {
        kept.push(kept_deck(alloc, deck)?)?;
    }
    Ok(())
}

/// What is shown of a step of decks.
fn kept_deck_step(alloc: Global, step: &Step) -> Result<KeptDeckStep, OutOfMemory>
    ensures { IfOk result (λ kept. kept ≡ names.kept_deck_step step.now) }
{
    let name = step.name.copy(alloc)?;
    let mut decks = KeptDecks::new(alloc);
    add_decks(alloc, &mut decks, step.decks.as_slice())?;
    Ok(KeptDeckStep { name, decks })
}

/// What is shown of a step.
fn kept_step(alloc: Global, step: &JobStep) -> Result<KeptStep, OutOfMemory>
    ensures { IfOk result (λ kept. kept ≡ names.kept_step step.now) }
{
    match step {
        JobStep::Decks(step) => Ok(KeptStep::Decks(kept_deck_step(alloc, step)?)),
        JobStep::Utilities(step) => Ok(KeptStep::Utilities(step.name.copy(alloc)?)),
    }
}

/// Adds what is shown of steps.
fn add_steps(alloc: Global, kept: &mut KeptSteps, steps: &[JobStep]) -> Result<(), OutOfMemory>
    ensures { OnOk result (kept.new ≡ kept.old ++ names.names_of steps.now) }
{
    for step in steps {
        kept.push(kept_step(alloc, step)?)?;
    }
    Ok(())
}

/// What the listing shows of the steps of a job. Out of memory is its one error.
pub(crate) fn names_of(alloc: Global, steps: &[JobStep]) -> Result<KeptSteps, OutOfMemory>
    ensures { IfOk result (λ kept. kept ≡ names.names_of steps.now) }
{
    let mut kept = KeptSteps::new(alloc);
    add_steps(alloc, &mut kept, steps)?;
    Ok(kept)
}
