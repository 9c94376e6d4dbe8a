//! The operands of orders of decks, plainly and slowly: each beside all before it.

use crate::simple::{is_literal, number_of, part, say_literal};
use vr_case_table::Answers;

const OF_GET: [&str; 9] = [
    "KEY=", "RBA=", "RRN=", "SEQ", "GE", "UPD", "NRI", "CR", "CRE",
];

const OF_POINT: [&str; 4] = ["KEY=", "RBA=", "RRN=", "GE"];

const OF_PUT: [&str; 3] = ["RRN=", "UPD", "DATA="];

const OF_OTHERS: [&str; 0] = [];

/// Whether a word is among some.
pub fn is_among(list: &[&str], word: &[u8]) -> bool {
    for one in list {
        if one.as_bytes() == word {
            return true;
        }
    }
    false
}

/// The integrity that operands give.
pub fn integrity_of(words: &[&[u8]], other: &'static str) -> &'static str {
    for word in words {
        if *word == b"NRI".as_slice() {
            return "NRI";
        }
        if *word == b"CR".as_slice() {
            return "CR";
        }
        if *word == b"CRE".as_slice() {
            return "CRE";
        }
    }
    other
}

/// A word up to its first `=`.
fn head_of(word: &[u8]) -> &[u8] {
    for (at, byte) in word.iter().enumerate() {
        if *byte == b'=' {
            return part(word, 0, at.saturating_add(1));
        }
    }
    word
}

/// What follows that.
fn tail_of(word: &[u8]) -> &[u8] {
    part(word, head_of(word).len(), word.len())
}

/// Whether two operands exclude each other.
fn clash(one: &[u8], other: &[u8], put: bool) -> bool {
    one == other
        || both_among(&["KEY=", "RBA=", "RRN=", "SEQ"], one, other)
        || both_among(&["NRI", "CR", "CRE"], one, other)
        || both_among(&["SEQ", "GE"], one, other)
        || (put && both_among(&["UPD", "RRN="], one, other))
}

/// Whether two words are among some.
fn both_among(list: &[&str], one: &[u8], other: &[u8]) -> bool {
    is_among(list, one) && is_among(list, other)
}

/// The first fault of operands of which these are known, but for what is missing.
pub fn operands_fault(known: &[&str], words: &[&[u8]]) -> u8 {
    for (at, word) in words.iter().enumerate() {
        let cause = operand_fault(known, words, at, word);
        if cause != 0 {
            return cause;
        }
    }
    0
}

/// The fault of an operand at a place.
fn operand_fault(known: &[&str], words: &[&[u8]], at: usize, word: &[u8]) -> u8 {
    let head = head_of(word);
    let tail = tail_of(word);
    if !is_among(known, head) {
        return 9;
    }
    if clashes(words, at, head, is_among(known, b"DATA=")) {
        return 6;
    }
    if is_among(&["KEY=", "DATA="], head) && !is_literal(tail) {
        return 7;
    }
    if is_among(&["RBA=", "RRN="], head) && number_of(tail).is_none() {
        return 8;
    }
    0
}

/// Whether one of the operands before a place excludes this.
fn clashes(words: &[&[u8]], at: usize, head: &[u8], put: bool) -> bool {
    for (place, before) in words.iter().enumerate() {
        if place < at && clash(head_of(before), head, put) {
            return true;
        }
    }
    false
}

/// The operands that a verb has.
pub fn known_of(verb: &[u8]) -> &'static [&'static str] {
    if verb == b"GET".as_slice() {
        &OF_GET
    } else if verb == b"POINT".as_slice() {
        &OF_POINT
    } else if verb == b"PUT".as_slice() {
        &OF_PUT
    } else {
        &OF_OTHERS
    }
}

/// Whether what a verb has to have is missing.
pub fn is_short(verb: &[u8], words: &[&[u8]]) -> bool {
    if verb == b"PUT".as_slice() {
        return !has_one(words, &["DATA="]);
    }
    is_among(&["GET", "POINT"], verb) && !has_one(words, &["KEY=", "RBA=", "RRN=", "SEQ"])
}

/// Whether an operand is among some.
pub fn has_one(words: &[&[u8]], list: &[&str]) -> bool {
    for word in words {
        if is_among(list, head_of(word)) {
            return true;
        }
    }
    false
}

/// Writes the operands of an order on a file of an integrity.
pub fn say_operands(verb: &[u8], words: &[&[u8]], integrity: &'static str, out: &mut Answers) {
    for word in words {
        say_place(word, out);
    }
    out.say(if has_one(words, &["GE"]) { ",GE" } else { "" });
    if verb == b"GET".as_slice() {
        out.say(if has_one(words, &["UPD"]) {
            ",UPD,"
        } else {
            ","
        });
        out.say(integrity_of(words, integrity));
    }
    for word in words {
        say_data(word, out);
    }
}

/// Writes an operand that gives a place.
fn say_place(word: &[u8], out: &mut Answers) {
    let head = head_of(word);
    if head == b"SEQ".as_slice() {
        out.say(",SEQ");
    } else if head == b"KEY=".as_slice() {
        out.say(",KEY");
        say_literal(tail_of(word), out);
    } else if head == b"RBA=".as_slice() {
        out.say_number(",RBA", number_of(tail_of(word)).unwrap_or(0));
    } else if head == b"RRN=".as_slice() {
        out.say_number(",RRN", number_of(tail_of(word)).unwrap_or(0));
    }
}

/// Writes an operand that gives a record.
fn say_data(word: &[u8], out: &mut Answers) {
    if head_of(word) == b"DATA=".as_slice() {
        out.say(",");
        say_literal(tail_of(word), out);
    }
}
