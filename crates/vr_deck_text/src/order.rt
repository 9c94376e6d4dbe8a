//! The orders on a file.
ghost use Rattle.std.specs.Prelude.{◌≡◌, Ok, IfOk, IfErr};
ghost use Rattle.vr_deck_text.specs.Words.{words};
ghost use Rattle.vr_deck_text.specs.Operands.{StopsBy};
ghost use Rattle.vr_deck_text.specs.Deck.{file_named, file_at, seek_of, asked, order_on, order_in};

use crate::fault::{DeckCause, Stop};
use crate::given::{Given, operands_in};
use crate::row::{FileVerb, needs_of, rows_of};
use crate::text::{Ask, At, Files, Seek};
use crate::word::next_word;
use std::alloc::Global;
use vr_text::is_file_name;
use vr_types::Integrity;

/// A file that was declared: its number, and the integrity of its reads.
#[derive(Clone, Copy)]
pub(crate) struct Declared {
    pub slot: u32,
    pub integrity: Integrity,
}

/// The file of this name.
pub(crate) fn file_named(files: &Files, name: &[u8]) -> Option<Declared>
    ensures { result ≡ file_named files.now name.now }
{
    let files = files.as_slice();
    for at in 0..files.len() {
        if files[at].name.as_slice() == name {
            return Some(Declared {
                slot: at as u32,
                integrity: files[at].integrity,
            });
        }
    }
    None
}

/// The file that a word names.
fn file_at(files: &Files, word: &[u8]) -> Result<Declared, DeckCause>
    ensures { result ≡ file_at files.now word.now }
{
    if !is_file_name(word) {
        return Err(DeckCause::BadFileName);
    }
    match file_named(files, word) {
        None => Err(DeckCause::NotDeclared),
        Some(declared) => Ok(declared),
    }
}

/// Which record is asked for, where `least` says that it may be one past the place.
fn seek_of(at: Option<At>, least: bool) -> Seek
    ensures { result ≡ seek_of at least }
{
    match at {
        None => Seek::Next,
        Some(at) => {
            if least {
                Seek::AtLeast(at)
            } else {
                Seek::Equal(at)
            }
        }
    }
}

/// What a verb asks of a file by these operands.
fn asked(verb: FileVerb, file: Declared, given: Given) -> Ask
    ensures { result ≡ asked verb file given }
{
    let Given {
        settles,
        at,
        integrity,
        bytes,
    } = given;
    match verb {
        FileVerb::Get => Ask::Get {
            file: file.slot,
            seek: seek_of(at, settles.least),
            update: settles.update,
            integrity: integrity.unwrap_or(file.integrity),
        },
        FileVerb::Point => Ask::Point {
            file: file.slot,
            seek: seek_of(at, settles.least),
        },
        FileVerb::Put => {
            if settles.update {
                Ask::Update {
                    file: file.slot,
                    bytes,
                }
            } else {
                Ask::Add {
                    file: file.slot,
                    at,
                    bytes,
                }
            }
        }
        FileVerb::Erase => Ask::Erase { file: file.slot },
        FileVerb::EndReq => Ask::EndReq { file: file.slot },
    }
}

/// What a verb asks of a file by the operands of a text.
fn order_on(alloc: Global, verb: FileVerb, file: Declared, text: &[u8]) -> Result<Ask, Stop>
    ensures ok { IfOk result (λ ask. order_on verb file (words text.now) ≡ Ok ask) }
    ensures stop { IfErr result (StopsBy (order_on verb file (words text.now))) }
{
    match operands_in(alloc, rows_of(verb), needs_of(verb), text) {
        Ok(given) => Ok(asked(verb, file, given)),
        Err(stop) => Err(stop),
    }
}

/// What a verb asks by a text, which begins with the name of a file.
pub(crate) fn order_in(
    alloc: Global,
    files: &Files,
    verb: FileVerb,
    text: &[u8],
) -> Result<Ask, Stop>
    ensures ok { IfOk result (λ ask. order_in files.now verb (words text.now) ≡ Ok ask) }
    ensures stop { IfErr result (StopsBy (order_in files.now verb (words text.now))) }
{
    let Some(cut) = next_word(text) else {
        return Err(Stop::Bad(DeckCause::Operands));
    };
    match file_at(files, cut.word) {
        Ok(file) => order_on(alloc, verb, file, cut.rest),
        Err(cause) => Err(Stop::Bad(cause)),
    }
}
