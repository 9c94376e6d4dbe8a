//! The lines that declare files.
ghost use Rattle.std.specs.Prelude.{◌≡◌, ◌<◌, length, Ok, IfOk, IfErr, IfNone};
ghost use Rattle.vr_deck_text.specs.Words.{words};
ghost use Rattle.vr_deck_text.specs.Operands.{StopsBy};
ghost use Rattle.vr_deck_text.specs.Deck.{name_fault, integrity_in, file_on, file_of, file_in};

use crate::fault::{DeckCause, Stop};
use crate::given::operands_in;
use crate::order::file_named;
use crate::tables::{FILE_ROWS, NOTHING};
use crate::text::{DeckFile, FILE_LIMIT, Files};
use crate::word::next_word;
use std::alloc::Global;
use vr_text::{is_file_name, name_in};
use vr_types::{Integrity, Name, bytes};

/// What is wrong with declaring a file of this name.
fn name_fault(files: &Files, name: &[u8]) -> Option<DeckCause>
    ensures fault { result ≡ name_fault files.now name.now }
    ensures room { IfNone result (length files.now < 64) }
{
    if !is_file_name(name) {
        return Some(DeckCause::BadFileName);
    }
    if files.as_slice().len() >= FILE_LIMIT || file_named(files, name).is_some() {
        Some(DeckCause::DeclaredTwice)
    } else {
        None
    }
}

/// The integrity that a text gives a file.
fn integrity_in(alloc: Global, text: &[u8]) -> Result<Integrity, Stop>
    ensures ok { IfOk result (λ integrity. integrity_in (words text.now) ≡ Ok integrity) }
    ensures stop { IfErr result (StopsBy (integrity_in (words text.now))) }
{
    match operands_in(alloc, &FILE_ROWS, NOTHING, text) {
        Ok(given) => Ok(given.integrity.unwrap_or(Integrity::Nri)),
        Err(stop) => Err(stop),
    }
}

/// A file of this name on this data set, with the integrity that a text gives it.
fn file_on(alloc: Global, name: &[u8], data_set: Name, text: &[u8]) -> Result<DeckFile, Stop>
    ensures ok { IfOk result (λ file. file_on name.now data_set (words text.now) ≡ Ok file) }
    ensures stop { IfErr result (StopsBy (file_on name.now data_set (words text.now))) }
{
    let integrity = integrity_in(alloc, text)?;
    let name = bytes(alloc, name)?;
    Ok(DeckFile {
        name,
        data_set,
        integrity,
    })
}

/// A file of this name by a text, which begins with the name of its data set.
fn file_of(alloc: Global, name: &[u8], text: &[u8]) -> Result<DeckFile, Stop>
    ensures ok { IfOk result (λ file. file_of name.now (words text.now) ≡ Ok file) }
    ensures stop { IfErr result (StopsBy (file_of name.now (words text.now))) }
{
    let Some(cut) = next_word(text) else {
        return Err(Stop::Bad(DeckCause::Operands));
    };
    match name_in(alloc, cut.word)? {
        None => Err(Stop::Bad(DeckCause::BadDataSetName)),
        Some(data_set) => file_on(alloc, name, data_set, cut.rest),
    }
}

/// The file that a text declares after these.
pub(crate) fn file_in(alloc: Global, files: &Files, text: &[u8]) -> Result<DeckFile, Stop>
    ensures ok { IfOk result (λ file. file_in files.now (words text.now) ≡ Ok file) }
    ensures stop { IfErr result (StopsBy (file_in files.now (words text.now))) }
    ensures room { IfOk result (λ _. length files.now < 64) }
{
    let Some(cut) = next_word(text) else {
        return Err(Stop::Bad(DeckCause::Operands));
    };
    match name_fault(files, cut.word) {
        None => file_of(alloc, cut.word, cut.rest),
        Some(cause) => Err(Stop::Bad(cause)),
    }
}
