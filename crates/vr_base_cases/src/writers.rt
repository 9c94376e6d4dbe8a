//! Questions to the writers of `vr_ci`, which write into the block.

use crate::intervals;
use std::alloc::Global;
use vr_case_table::{Answer, Answers, Stop, digits_of, parted, size_of, small_of};
use vr_ci::{CiWriter, Form, NoRoom, Piece, slots, write_segment};

fn say_no_room(room: NoRoom, out: &mut Answers) -> Answer {
    out.say_number("need ", room.need as u64);
    out.say_number(" free ", room.free as u64);
    Ok(())
}

/// Writes plain records: `BUSY RECORD..`, each `+HEX`, or `-HEX` if it is withdrawn. One that has
/// no room ends it.
pub fn records(alloc: Global, block: &mut [u8], rest: &str, out: &mut Answers) -> Answer {
    let (busy, items) = parted(rest);
    if !vr_types::is_block_size(block.len()) {
        return Err(Stop::Line);
    }
    let mut writer = CiWriter::begin(Form::Plain, block);
    for word in items.split_whitespace() {
        let bytes = digits_of(alloc, word.get(1..).unwrap_or(""))?;
        if bytes.is_empty() {
            return Err(Stop::Line);
        }
        if let Err(room) = writer.add(bytes.as_slice(), word.starts_with("+")) {
            return say_no_room(room, out);
        }
    }
    writer.end(busy == "busy");
    out.ok()
}

/// Writes plain records of one byte, the last byte of each one's number from 0 on: `COUNT`. One
/// that has no room ends it.
pub fn single_bytes(block: &mut [u8], rest: &str, out: &mut Answers) -> Answer {
    let count = small_of(rest)?;
    if !vr_types::is_block_size(block.len()) {
        return Err(Stop::Line);
    }
    let mut writer = CiWriter::begin(Form::Plain, block);
    for number in 0..count {
        if let Err(room) = writer.add(&[(number % 256) as u8], true) {
            return say_no_room(room, out);
        }
    }
    writer.end(false);
    out.ok()
}

/// Writes slots of `5A` bytes: `LENGTH BUSY SIGN..`, where `-` is an empty slot. One that has no
/// room ends it. A block that is not complete is not a question.
pub fn slots_of(alloc: Global, block: &mut [u8], rest: &str, out: &mut Answers) -> Answer {
    let (length, rest) = parted(rest);
    let (busy, signs) = parted(rest);
    let length = small_of(length)?;
    let signs = signs.as_bytes();
    let size = block.len();
    if !vr_types::is_block_size(size) || length == 0 {
        return Err(Stop::Line);
    }
    let slot = vec![in alloc; 0x5A; usize::from(length)]?;
    let mut writer = CiWriter::begin(Form::Slots { length }, block);
    for at in 0..signs.len() {
        if let Err(room) = writer.add(slot.as_slice(), signs[at] == b'+') {
            return say_no_room(room, out);
        }
    }
    if signs.len() != slots(size, length) {
        return Err(Stop::Line);
    }
    writer.end(busy == "busy");
    out.ok()
}

/// Writes a segment of `5A` bytes: `PIECE SIGN BUSY NUMBER LENGTH`, where `-` is a withdrawn
/// record.
pub fn segment(alloc: Global, block: &mut [u8], rest: &str, out: &mut Answers) -> Answer {
    let (piece, rest) = parted(rest);
    let (sign, rest) = parted(rest);
    let (busy, rest) = parted(rest);
    let (number, length) = parted(rest);
    let number = small_of(number)?;
    let length = usize::from(small_of(length)?);
    let size = block.len();
    let piece = match piece {
        "first" => Piece::First,
        "inner" => Piece::Inner,
        _ => Piece::Last,
    };
    let fills = piece == Piece::Last || length + 10 >= size;
    if !vr_types::is_block_size(size) || number == 0 || !fills {
        return Err(Stop::Line);
    }
    let bytes = vec![in alloc; 0x5A; length]?;
    match write_segment(
        piece,
        number,
        sign == "+",
        bytes.as_slice(),
        busy == "busy",
        block,
    ) {
        Ok(()) => out.ok(),
        Err(room) => say_no_room(room, out),
    }
}

/// How many slots of a length a block of a size has: `SIZE LENGTH`.
pub fn slot_count(rest: &str, out: &mut Answers) -> Answer {
    let (size, length) = parted(rest);
    let size = size_of(size)?;
    let length = small_of(length)?;
    out.say_number("", slots(size, length) as u64);
    Ok(())
}

/// A record in a block of a size that held other bytes, written and read again: `SIZE RECORD`.
pub fn sized(alloc: Global, rest: &str, out: &mut Answers) -> Answer {
    let (size, record) = parted(rest);
    let size = small_of(size)?;
    let mut block = vec![in alloc; 0xEE; usize::from(size)]?;
    records(alloc, block.as_mut_slice(), record, out)?;
    out.say(" ");
    intervals::plain(alloc, block.as_slice(), "", out)
}
