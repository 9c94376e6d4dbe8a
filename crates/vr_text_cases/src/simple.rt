//! Names, numbers and literals, byte by byte.

use vr_case_table::Answers;

/// The bytes of a text from one place up to another.
pub fn part(text: &[u8], from: usize, to: usize) -> &[u8] {
    match text.get(from..to) {
        Some(part) => part,
        None => b"",
    }
}

/// Whether a byte counts as a letter.
fn is_letter(byte: u8) -> bool {
    byte.is_ascii_alphabetic() || byte == b'@' || byte == b'#' || byte == b'$'
}

/// Whether a word is a name of at most eight characters.
pub fn is_name(word: &[u8]) -> bool {
    let mut first = true;
    for byte in word {
        if !is_letter(*byte) && (first || !byte.is_ascii_digit()) {
            return false;
        }
        first = false;
    }
    !first && word.len() < 9
}

/// Whether a word is the name of a data set.
pub fn is_data_set(word: &[u8]) -> bool {
    let mut column = 0u64;
    for byte in word {
        let more = is_letter(*byte) || byte.is_ascii_digit() || *byte == b'-';
        if column == 0 && !is_letter(*byte) {
            return false;
        }
        if *byte == b'.' {
            column = 0;
        } else if more && column < 8 {
            column = column.saturating_add(1);
        } else {
            return false;
        }
    }
    column > 0 && word.len() < 45
}

/// The number that a word writes.
pub fn number_of(word: &[u8]) -> Option<u64> {
    let mut value = 0u64;
    for byte in word {
        if !byte.is_ascii_digit() {
            return None;
        }
        value = value
            .saturating_mul(10)
            .saturating_add(u64::from(byte.saturating_sub(b'0')));
    }
    if word.is_empty() || word.len() > 19 || value > 4_294_967_295 {
        None
    } else {
        Some(value)
    }
}

/// What stands between the quotes of a word, if it ends with one and has one at its second place.
fn inner_of(word: &[u8]) -> Option<&[u8]> {
    let last = word.len().saturating_sub(1);
    if last >= 2 && word.get(1) == Some(&b'\'') && word.get(last) == Some(&b'\'') {
        Some(part(word, 2, last))
    } else {
        None
    }
}

/// Whether a word is a literal.
pub fn is_literal(word: &[u8]) -> bool {
    match inner_of(word) {
        Some(inner) => {
            if word.starts_with(b"C") {
                are_characters(inner)
            } else {
                word.starts_with(b"X") && are_digits(inner)
            }
        }
        None => false,
    }
}

/// Whether each run of quotes has an even length.
fn are_characters(inner: &[u8]) -> bool {
    let mut odd = false;
    for byte in inner {
        if *byte == b'\'' {
            odd = !odd;
        } else if odd {
            return false;
        }
    }
    !odd
}

/// Whether these are hexadecimal digits, two for each byte.
fn are_digits(inner: &[u8]) -> bool {
    for byte in inner {
        if !byte.is_ascii_hexdigit() {
            return false;
        }
    }
    inner.len() % 2 == 0
}

/// Writes the bytes of a literal as digits.
pub fn say_literal(word: &[u8], out: &mut Answers) {
    let inner = inner_of(word).unwrap_or(b"");
    if word.starts_with(b"C") {
        say_characters(inner, out);
    } else {
        say_upper(inner, out);
    }
}

/// Writes the bytes between the quotes of `C'..'`: every second quote of a run is dropped.
fn say_characters(inner: &[u8], out: &mut Answers) {
    let mut odd = false;
    for byte in inner {
        if *byte == b'\'' {
            odd = !odd;
        }
        if !odd {
            out.say_digits(&[*byte]);
        }
    }
}

/// Writes bytes as text in capitals.
pub fn say_upper(text: &[u8], out: &mut Answers) {
    for byte in text {
        out.say_char(char::from(byte.to_ascii_uppercase()));
    }
}
