//! The tables of verbs and of their operands, with the rows that the definitions spell out. The
//! requests are those of Using Data Sets; how they are written is this project's own.

use crate::row::{FileVerb, Operand, Row, Settles, Value, Verb, VerbRow};
use vr_types::Integrity;

/// What is settled: the place, that it is the least, update, integrity, the data.
macro_rules! settles {
    ($place:literal, $least:literal, $update:literal, $integrity:literal, $bytes:literal) => {
        Settles {
            place: $place,
            least: $least,
            update: $update,
            integrity: $integrity,
            bytes: $bytes,
        }
    };
}

pub const NOTHING: Settles = settles!(false, false, false, false, false);

pub const PLACE: Settles = settles!(true, false, false, false, false);

pub const LEAST: Settles = settles!(false, true, false, false, false);

/// The next record has a place, and none past it.
pub const NEXT: Settles = settles!(true, true, false, false, false);

pub const UPDATE: Settles = settles!(false, false, true, false, false);

/// An update has the place of the record that is held.
pub const REPLACE: Settles = settles!(true, false, true, false, false);

pub const INTEGRITY: Settles = settles!(false, false, false, true, false);

pub const DATA: Settles = settles!(false, false, false, false, true);

/// A row.
macro_rules! row {
    ($keyword:literal, $settles:ident, $value:expr) => {
        Row {
            keyword: *$keyword,
            operand: Operand {
                settles: $settles,
                value: $value,
            },
        }
    };
}

#[rattlefmt::skip]
pub const FILE_ROWS: [Row; 3] = [
    row!(b"NRI  ", INTEGRITY, Value::Integrity(Integrity::Nri)),
    row!(b"CR   ", INTEGRITY, Value::Integrity(Integrity::Cr)),
    row!(b"CRE  ", INTEGRITY, Value::Integrity(Integrity::Cre)),
];

#[rattlefmt::skip]
pub const GET_ROWS: [Row; 9] = [
    row!(b"KEY= ", PLACE, Value::Key),
    row!(b"RBA= ", PLACE, Value::Rba),
    row!(b"RRN= ", PLACE, Value::Rrn),
    row!(b"SEQ  ", NEXT, Value::Nothing),
    row!(b"GE   ", LEAST, Value::Nothing),
    row!(b"UPD  ", UPDATE, Value::Nothing),
    row!(b"NRI  ", INTEGRITY, Value::Integrity(Integrity::Nri)),
    row!(b"CR   ", INTEGRITY, Value::Integrity(Integrity::Cr)),
    row!(b"CRE  ", INTEGRITY, Value::Integrity(Integrity::Cre)),
];

#[rattlefmt::skip]
pub const POINT_ROWS: [Row; 4] = [
    row!(b"KEY= ", PLACE, Value::Key),
    row!(b"RBA= ", PLACE, Value::Rba),
    row!(b"RRN= ", PLACE, Value::Rrn),
    row!(b"GE   ", LEAST, Value::Nothing),
];

#[rattlefmt::skip]
pub const PUT_ROWS: [Row; 3] = [
    row!(b"RRN= ", PLACE, Value::Rrn),
    row!(b"UPD  ", REPLACE, Value::Nothing),
    row!(b"DATA=", DATA, Value::Data),
];

pub const NO_ROWS: [Row; 0] = [];

/// All verbs.
#[rattlefmt::skip]
pub const VERBS: [VerbRow; 8] = [
    VerbRow { word: *b"FILE   ", verb: Verb::File },
    VerbRow { word: *b"GET    ", verb: Verb::On(FileVerb::Get) },
    VerbRow { word: *b"POINT  ", verb: Verb::On(FileVerb::Point) },
    VerbRow { word: *b"PUT    ", verb: Verb::On(FileVerb::Put) },
    VerbRow { word: *b"ERASE  ", verb: Verb::On(FileVerb::Erase) },
    VerbRow { word: *b"ENDREQ ", verb: Verb::On(FileVerb::EndReq) },
    VerbRow { word: *b"COMMIT ", verb: Verb::Commit },
    VerbRow { word: *b"BACKOUT", verb: Verb::Backout },
];
