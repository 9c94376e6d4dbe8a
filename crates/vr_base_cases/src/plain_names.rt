//! The rule of data set names, plainly and slowly: one qualifier after another.

use crate::judge::{Judged, push_letters};
use std::alloc::{AllocError, Global};
use vr_types::{NameFault, dataset_name};

/// What a qualifier may begin with.
const LETTERS: &str = "ABCDEFGHIJKLMNOPQRSTUVWXYZabcdefghijklmnopqrstuvwxyz@#$";

/// What else it may go on with.
const OTHERS: &str = "0123456789-";

/// One letter for each thing that may be at fault.
const ALPHABET: [&str; 8] = ["", "A", "z", "9", "-", ".", "$", " "];

/// How texts begin: near the limits of a qualifier, of a name, or far from both.
const BEGINS: [&str; 8] = [
    "",
    "ABCDEF",
    "ABCDEFGH",
    "A.BCDEFG",
    "A.BCDEFGHI",
    "AAAAAAAA.AAAAAAAA.AAAAAAAA.AAAAAAAA.AAAAA",
    "AAAAAAAA.AAAAAAAA.AAAAAAAA.AAAAAAAA.AAAA.A",
    "AAAAAAAA.AAAAAAAA.AAAAAAAA.AAAAAAAA.AAAAAAAA",
];

/// The first byte of a qualifier that may not stand there.
fn bad_byte(qualifier: &str) -> Option<usize> {
    if qualifier.is_empty() {
        return Some(0);
    }
    for (at, letter) in qualifier.char_indices() {
        let may_stand = LETTERS.contains(letter) || (at > 0 && OTHERS.contains(letter));
        if at == 8 || !may_stand {
            return Some(at);
        }
    }
    None
}

/// What is at fault with a text as a name.
fn fault_of(text: &str) -> Option<NameFault> {
    if text.is_empty() {
        return Some(NameFault::Empty);
    }
    if text.len() > 44 {
        return Some(NameFault::TooLong { length: text.len() });
    }
    let mut begin = 0usize;
    for qualifier in text.split('.') {
        if let Some(at) = bad_byte(qualifier) {
            return Some(NameFault::Qualifier {
                at: begin.saturating_add(at),
            });
        }
        begin = begin.saturating_add(qualifier.len()).saturating_add(1);
    }
    None
}

/// Whether the crate takes a text for a name, or finds a fault, as the rule says.
fn is_same(alloc: Global, text: &str) -> bool {
    match dataset_name(alloc, text) {
        Ok(name) => {
            fault_of(text).is_none()
                && text.as_bytes().eq_ignore_ascii_case(name.as_slice())
                && !name.as_slice().iter().any(|byte| byte.is_ascii_lowercase())
        }
        Err(fault) => fault_of(text) == Some(fault),
    }
}

/// Judges each beginning with up to five letters after it, and names of many lengths.
pub fn judge(alloc: Global) -> Result<Judged, AllocError> {
    let mut judged = Judged::new(alloc);
    for number in 0..262_144usize {
        let mut text = String::new(alloc);
        push_letters(&mut text, &BEGINS, 1, number % 8)?;
        push_letters(&mut text, &ALPHABET, 5, number / 8)?;
        judged.count(is_same(alloc, text.as_str()), text.as_str())?;
    }
    judge_lengths(alloc, &mut judged)?;
    Ok(judged)
}

fn judge_lengths(alloc: Global, judged: &mut Judged) -> Result<(), AllocError> {
    for number in 0..2_500usize {
        let text = dotted(alloc, number / 50, number % 50)?;
        judged.count(is_same(alloc, text.as_str()), text.as_str())?;
    }
    Ok(())
}

/// A text of that length, with a dot at the place and at each ninth.
fn dotted(alloc: Global, length: usize, place: usize) -> Result<String, AllocError> {
    let mut text = String::new(alloc);
    for at in 0..length {
        text.push(if at == place || at % 9 == 8 { '.' } else { 'Q' })?;
    }
    Ok(text)
}
