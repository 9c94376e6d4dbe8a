//! The rule of catalog records, plainly and slowly, byte by byte.

/// What a qualifier may begin with, and what else it may go on with.
const LETTERS: &str = "ABCDEFGHIJKLMNOPQRSTUVWXYZ@#$";

const OTHERS: &str = "0123456789-";

/// The byte there, 0 past the end.
fn at(record: &[u8], place: usize) -> u8 {
    match record.get(place) {
        Some(byte) => *byte,
        None => 0,
    }
}

/// Whether all bytes of a part are the same.
fn all_are(record: &[u8], from: usize, to: usize, wanted: u8) -> bool {
    for place in from..to {
        if at(record, place) != wanted {
            return false;
        }
    }
    true
}

/// Whether the part is a name with blanks after it, with dots in it or without.
fn is_name(record: &[u8], from: usize, to: usize, dots: bool) -> bool {
    let mut column = 0u8;
    for place in from..to {
        let byte = at(record, place);
        if byte == 32 {
            return column > 0 && all_are(record, place, to, 32);
        }
        let letter = byte as char;
        if byte == b'.' && dots && column > 0 {
            column = 0;
        } else if LETTERS.contains(letter) || (column > 0 && OTHERS.contains(letter)) {
            column = column.saturating_add(1);
        } else {
            return false;
        }
        if column > 8 {
            return false;
        }
    }
    column > 0
}

/// Whether the part is a name or blank.
fn is_name_or_blank(record: &[u8], from: usize, to: usize, dots: bool) -> bool {
    all_are(record, from, to, 32) || is_name(record, from, to, dots)
}

/// Whether the keys are those of a data set that has keys.
fn has_keys(record: &[u8]) -> bool {
    let length = at(record, 57);
    let offset = at(record, 58) as u32 * 256 + at(record, 59) as u32;
    at(record, 56) == 0 && length > 0 && offset <= 32_759
}

/// Whether the fields from 72 on are those of a cluster or an alternate index.
fn has_data(record: &[u8]) -> bool {
    let share = at(record, 74);
    let other = at(record, 75);
    let unit = at(record, 76);
    at(record, 72) <= 100
        && at(record, 73) <= 100
        && (share == 1 || share == 2 || share == 3 || share == 4)
        && (other == 3 || other == 4)
        && unit <= 3
        && (unit > 0 || all_are(record, 80, 88, 0))
        && is_name_or_blank(record, 92, 136, true)
        && is_name_or_blank(record, 136, 180, true)
        && is_name_or_blank(record, 180, 188, false)
        && is_name_or_blank(record, 188, 196, false)
        && is_name_or_blank(record, 196, 204, false)
}

/// Whether bytes spell a cluster.
fn is_cluster(record: &[u8]) -> bool {
    let kind = at(record, 45);
    let keys = if kind == b'K' {
        has_keys(record)
    } else {
        (kind == b'E' || kind == b'R') && all_are(record, 56, 60, 0)
    };
    at(record, 44) == b'C' && keys && at(record, 46) <= 1 && all_are(record, 52, 56, 0)
}

/// Whether bytes spell an alternate index.
fn is_alternate(record: &[u8]) -> bool {
    let flags = at(record, 46);
    let built = flags == 4 || flags == 6;
    at(record, 44) == b'A'
        && at(record, 45) == b'K'
        && (flags == 0 || flags == 2 || built)
        && has_keys(record)
        && !all_are(record, 52, 56, 0)
        && built != all_are(record, 68, 72, 0)
}

/// Whether bytes spell a path.
fn is_path(record: &[u8]) -> bool {
    at(record, 44) == b'P'
        && at(record, 45) == 0
        && at(record, 46) == 0
        && !all_are(record, 52, 56, 0)
        && all_are(record, 56, 92, 0)
        && all_are(record, 92, 204, 32)
}

/// Whether bytes are a catalog record.
pub fn is_record(record: &[u8]) -> bool {
    record.len() == 204
        && is_name(record, 0, 44, true)
        && at(record, 47) == 0
        && !all_are(record, 48, 52, 0)
        && all_are(record, 77, 80, 0)
        && (is_path(record) || ((is_cluster(record) || is_alternate(record)) && has_data(record)))
}
