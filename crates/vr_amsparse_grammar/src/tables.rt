//! The tables of parameters: one row for each word, with its long form, its short form if it has
//! one, what it states, which of the words that exclude each other it is, and what it takes. They have
//! the rows that the definitions spell out, and follow Access Method Services Commands.

use crate::row::{Choice, Parameter, Range, Row, Slot, Takes, Value, Values};
use crate::section::Section;

/// The greatest number where nothing says another.
const GREATEST: u64 = 4_294_967_295;

/// Any number.
const ANY: Range = Range {
    least: 0,
    most: GREATEST,
};

/// The rows of a list without parameters.
pub(crate) const NO_ROWS: [Row; 0] = [];

/// A row.
macro_rules! row {
    ($long:literal, $short:literal, $slot:ident, $choice:ident, $takes:expr) => {
        Row {
            long: *$long,
            short: *$short,
            parameter: Parameter {
                slot: Slot::$slot,
                choice: Choice::$choice,
                takes: $takes,
            },
        }
    };
}

/// Between `$least` and `$most` values.
macro_rules! values {
    ($value:expr, $least:literal, $most:literal) => {
        Takes::Values(Values {
            value: $value,
            least: $least,
            most: $most,
        })
    };
}

/// Numbers with these ranges in the first and in the second place.
macro_rules! numbers {
    ($first:expr, $second:expr) => {
        Value::Number {
            first: $first,
            second: $second,
        }
    };
}

const ONE_NAME: Takes = values!(Value::Name, 1, 1);

const SOME_NAMES: Takes = values!(Value::Name, 1, 18_446_744_073_709_551_615);

const DATA_NAME: Takes = values!(Value::Data, 1, 1);

const CLASS: Takes = values!(Value::Class, 1, 1);

const SERIAL: Takes = values!(Value::Serial, 1, 1);

const LOG_VALUE: Takes = values!(Value::Log, 1, 1);

const ONE_TEXT: Takes = values!(Value::Text, 1, 1);

const ONE_KEY: Takes = values!(Value::Key, 1, 1);

const ONE_COUNT: Takes = values!(numbers!(ANY, ANY), 1, 1);

const TWO_COUNTS: Takes = values!(numbers!(ANY, ANY), 2, 2);

const SPACE: Takes = values!(numbers!(ANY, ANY), 1, 2);

const PARTS: Range = Range {
    least: 0,
    most: 100,
};

const FREE_SPACE: Takes = values!(numbers!(PARTS, PARTS), 1, 2);

const KEYS: Takes = values!(
    numbers!(
        Range {
            least: 1,
            most: 255
        },
        Range {
            least: 0,
            most: 32_759
        }
    ),
    2,
    2
);

const SHARE_OPTIONS: Takes = values!(
    numbers!(Range { least: 1, most: 4 }, Range { least: 3, most: 4 }),
    1,
    2
);

/// What is defined.
#[rattlefmt::skip]
pub(crate) const NAME_ROWS: [Row; 1] = [
    row!(b"NAME               ", b"      ", Name, First, ONE_NAME),
];

/// DATA's own.
#[rattlefmt::skip]
pub(crate) const DATA_ROWS: [Row; 1] = [
    row!(b"NAME               ", b"      ", DataName, First, ONE_NAME),
];

/// INDEX's own. Its interval size is dropped.
#[rattlefmt::skip]
pub(crate) const INDEX_ROWS: [Row; 2] = [
    row!(b"NAME               ", b"      ", IndexName, First, ONE_NAME),
    row!(b"CONTROLINTERVALSIZE", b"CISZ  ", IndexIntervalSize, First, ONE_COUNT),
];

/// What may follow the parentheses of a cluster.
#[rattlefmt::skip]
pub(crate) const CLUSTER_PART_ROWS: [Row; 2] = [
    row!(b"DATA               ", b"      ", DataPart, First, Takes::Section(Section::ClusterData)),
    row!(b"INDEX              ", b"IX    ", IndexPart, First, Takes::Section(Section::ClusterIndex)),
];

/// What may follow the parentheses of an alternate index.
#[rattlefmt::skip]
pub(crate) const ALTERNATE_PART_ROWS: [Row; 2] = [
    row!(b"DATA               ", b"      ", DataPart, First, Takes::Section(Section::AlternateData)),
    row!(b"INDEX              ", b"IX    ", IndexPart, First, Takes::Section(Section::AlternateIndex)),
];

/// What clusters have and alternate indexes haven't.
#[rattlefmt::skip]
pub(crate) const CLUSTER_ROWS: [Row; 7] = [
    row!(b"INDEXED            ", b"IXD   ", Kind, First, Takes::Nothing),
    row!(b"NONINDEXED         ", b"NIXD  ", Kind, Second, Takes::Nothing),
    row!(b"NUMBERED           ", b"NUMD  ", Kind, Third, Takes::Nothing),
    row!(b"LINEAR             ", b"      ", Nothing, First, Takes::LeftOut),
    row!(b"SPANNED            ", b"SPND  ", Spanned, First, Takes::Nothing),
    row!(b"NONSPANNED         ", b"NSPND ", Spanned, Second, Takes::Nothing),
    row!(b"LOG                ", b"      ", Log, First, LOG_VALUE),
];

/// What alternate indexes have and clusters haven't.
#[rattlefmt::skip]
pub(crate) const ALTERNATE_ROWS: [Row; 5] = [
    row!(b"RELATE             ", b"REL   ", Related, First, ONE_NAME),
    row!(b"UNIQUEKEY          ", b"UNQK  ", Unique, First, Takes::Nothing),
    row!(b"NONUNIQUEKEY       ", b"NUNQK ", Unique, Second, Takes::Nothing),
    row!(b"UPGRADE            ", b"UPG   ", Upgrade, First, Takes::Nothing),
    row!(b"NOUPGRADE          ", b"      ", Nothing, First, Takes::LeftOut),
];

/// What both have.
#[rattlefmt::skip]
pub(crate) const SPACE_ROWS: [Row; 19] = [
    row!(b"KEYS               ", b"      ", Keys, First, KEYS),
    row!(b"RECORDSIZE         ", b"RECSZ ", RecordSize, First, TWO_COUNTS),
    row!(b"FREESPACE          ", b"FSPC  ", FreeSpace, First, FREE_SPACE),
    row!(b"SHAREOPTIONS       ", b"SHR   ", ShareOptions, First, SHARE_OPTIONS),
    row!(b"CYLINDERS          ", b"CYL   ", Space, First, SPACE),
    row!(b"TRACKS             ", b"TRK   ", Space, Second, SPACE),
    row!(b"RECORDS            ", b"REC   ", Space, Third, SPACE),
    row!(b"VOLUMES            ", b"VOL   ", Volumes, First, SERIAL),
    row!(b"CONTROLINTERVALSIZE", b"CISZ  ", IntervalSize, First, ONE_COUNT),
    row!(b"STORAGECLASS       ", b"      ", StorageClass, First, CLASS),
    row!(b"DATACLASS          ", b"      ", DataClass, First, CLASS),
    row!(b"MANAGEMENTCLASS    ", b"      ", ManagementClass, First, CLASS),
    row!(b"SPEED              ", b"      ", Speed, First, Takes::Nothing),
    row!(b"RECOVERY           ", b"      ", Speed, Second, Takes::Nothing),
    row!(b"ERASE              ", b"      ", Erase, First, Takes::Nothing),
    row!(b"NOERASE            ", b"      ", Erase, Second, Takes::Nothing),
    row!(b"NOREUSE            ", b"      ", Reuse, First, Takes::Nothing),
    row!(b"REUSE              ", b"      ", Nothing, First, Takes::LeftOut),
    row!(b"OWNER              ", b"      ", Owner, First, ONE_TEXT),
];

/// DEFINE PATH.
#[rattlefmt::skip]
pub(crate) const PATH_ROWS: [Row; 3] = [
    row!(b"NAME               ", b"      ", Name, First, ONE_NAME),
    row!(b"PATHENTRY          ", b"PENT  ", Related, First, ONE_NAME),
    row!(b"UPDATE             ", b"      ", Update, First, Takes::Nothing),
];

/// ALTER, after the name.
#[rattlefmt::skip]
pub(crate) const ALTER_ROWS: [Row; 3] = [
    row!(b"NEWNAME            ", b"      ", NewName, First, ONE_NAME),
    row!(b"FREESPACE          ", b"FSPC  ", FreeSpace, First, FREE_SPACE),
    row!(b"SHAREOPTIONS       ", b"SHR   ", ShareOptions, First, SHARE_OPTIONS),
];

/// DELETE, after the name or the names.
#[rattlefmt::skip]
pub(crate) const DELETE_ROWS: [Row; 7] = [
    row!(b"CLUSTER            ", b"CL    ", EntryKind, First, Takes::Nothing),
    row!(b"ALTERNATEINDEX     ", b"AIX   ", EntryKind, Second, Takes::Nothing),
    row!(b"PATH               ", b"      ", EntryKind, Third, Takes::Nothing),
    row!(b"PURGE              ", b"      ", Purge, First, Takes::Nothing),
    row!(b"NOPURGE            ", b"      ", Purge, Second, Takes::Nothing),
    row!(b"ERASE              ", b"      ", Erase, First, Takes::Nothing),
    row!(b"NOERASE            ", b"      ", Erase, Second, Takes::Nothing),
];

/// REPRO.
#[rattlefmt::skip]
pub(crate) const REPRO_ROWS: [Row; 12] = [
    row!(b"INFILE             ", b"      ", Source, First, DATA_NAME),
    row!(b"INDATASET          ", b"IDS   ", Source, Second, ONE_NAME),
    row!(b"OUTDATASET         ", b"ODS   ", Target, First, ONE_NAME),
    row!(b"FROMKEY            ", b"      ", From, First, ONE_KEY),
    row!(b"SKIP               ", b"      ", From, Second, ONE_COUNT),
    row!(b"TOKEY              ", b"      ", To, First, ONE_KEY),
    row!(b"COUNT              ", b"      ", To, Second, ONE_COUNT),
    row!(b"REPLACE            ", b"REP   ", Replace, First, Takes::Nothing),
    row!(b"NOREPLACE          ", b"      ", Replace, Second, Takes::Nothing),
    row!(b"OUTFILE            ", b"      ", Nothing, First, Takes::LeftOut),
    row!(b"FROMADDRESS        ", b"      ", Nothing, First, Takes::LeftOut),
    row!(b"FROMNUMBER         ", b"      ", Nothing, First, Takes::LeftOut),
];

/// BLDINDEX.
#[rattlefmt::skip]
pub(crate) const BUILD_ROWS: [Row; 3] = [
    row!(b"INDATASET          ", b"IDS   ", Source, Second, ONE_NAME),
    row!(b"OUTDATASET         ", b"ODS   ", Target, First, ONE_NAME),
    row!(b"OUTFILE            ", b"      ", Nothing, First, Takes::LeftOut),
];

/// PRINT.
#[rattlefmt::skip]
pub(crate) const PRINT_ROWS: [Row; 11] = [
    row!(b"INDATASET          ", b"IDS   ", Source, Second, ONE_NAME),
    row!(b"CHARACTER          ", b"CHAR  ", Form, First, Takes::Nothing),
    row!(b"HEX                ", b"      ", Form, Second, Takes::Nothing),
    row!(b"DUMP               ", b"      ", Form, Third, Takes::Nothing),
    row!(b"FROMKEY            ", b"      ", From, First, ONE_KEY),
    row!(b"SKIP               ", b"      ", From, Second, ONE_COUNT),
    row!(b"TOKEY              ", b"      ", To, First, ONE_KEY),
    row!(b"COUNT              ", b"      ", To, Second, ONE_COUNT),
    row!(b"OUTFILE            ", b"      ", Nothing, First, Takes::LeftOut),
    row!(b"FROMADDRESS        ", b"      ", Nothing, First, Takes::LeftOut),
    row!(b"FROMNUMBER         ", b"      ", Nothing, First, Takes::LeftOut),
];

/// LISTCAT.
#[rattlefmt::skip]
pub(crate) const LIST_ROWS: [Row; 4] = [
    row!(b"ENTRIES            ", b"ENT   ", Entries, First, SOME_NAMES),
    row!(b"NAME               ", b"      ", Detail, First, Takes::Nothing),
    row!(b"ALL                ", b"      ", Detail, Second, Takes::Nothing),
    row!(b"OUTFILE            ", b"      ", Nothing, First, Takes::LeftOut),
];

/// VERIFY.
#[rattlefmt::skip]
pub(crate) const VERIFY_ROWS: [Row; 1] = [
    row!(b"DATASET            ", b"DS    ", Name, First, ONE_NAME),
];

/// EXAMINE.
#[rattlefmt::skip]
pub(crate) const EXAMINE_ROWS: [Row; 1] = [
    row!(b"NAME               ", b"      ", Name, First, ONE_NAME),
];
