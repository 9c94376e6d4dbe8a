//! The calls that sequences are made of: three units ask for either of two names, for both in
//! either order or for one twice, in either mode, and end.

use crate::plain_locks::PlainLock;
use std::alloc::Global;
use vr_case_table::{Answer, Stop};
use vr_locks::LockNo;
use vr_types::{LockName, LockNames, Mode, PartNo, Unit, place};

/// The units: two of one deck, and one of another.
const UNITS: [Unit; 3] = [
    Unit { deck: 1, number: 1 },
    Unit { deck: 1, number: 2 },
    Unit { deck: 2, number: 1 },
];

/// How many names and modes a unit may ask for.
const REQUESTS: u32 = 10;

/// How many calls there are: each unit's requests, and its end.
pub const CALLS: u32 = 33;

/// A call on a table.
#[derive(Clone, Copy, PartialEq, Eq)]
pub enum Call {
    /// A unit asks for names, of which 0 to 4 says which.
    Ask {
        unit: u8,
        names: u32,
        exclusive: bool,
    },
    /// A unit ends.
    End {
        unit: u8,
    },
}

/// The call with a number below `CALLS`.
pub fn call_of(number: u32) -> Call {
    let unit = (number % 3) as u8;
    let request = number / 3 % 11;
    if request == REQUESTS {
        return Call::End { unit };
    }
    Call::Ask {
        unit,
        names: request % 5,
        exclusive: request >= 5,
    }
}

/// The names of a request, as the plain program has them.
pub fn plain_names(names: u32) -> &'static [u8] {
    match names {
        0 => &[0],
        1 => &[1],
        2 => &[0, 1],
        3 => &[1, 0],
        _ => &[0, 0],
    }
}

/// A unit by its number.
pub fn unit_of(unit: u8) -> Unit {
    UNITS[unit as usize % 3]
}

/// A mode.
pub fn mode_of(exclusive: bool) -> Mode {
    if exclusive {
        Mode::Exclusive
    } else {
        Mode::Shared
    }
}

/// A name by its number: 0 is a record, and 1 a unique key with the same part and place.
pub fn name_of(alloc: Global, name: u8) -> Result<LockName, Stop> {
    let part = PartNo(1);
    let place = place(alloc, b"A")?;
    Ok(if name == 0 {
        LockName::Record { part, place }
    } else {
        LockName::Unique { part, key: place }
    })
}

/// The names of a request.
pub fn names_of(alloc: Global, names: u32) -> Result<LockNames, Stop> {
    let mut list = LockNames::new(alloc);
    match add_names(alloc, &mut list, names) {
        Ok(()) => Ok(list),
        Err(stop) => Err(stop),
    }
}

fn add_names(alloc: Global, list: &mut LockNames, names: u32) -> Answer {
    for name in plain_names(names) {
        list.push(name_of(alloc, *name)?)?;
    }
    Ok(())
}

/// Whether a table's answer to a request is the plain program's.
pub fn is_same(answer: &Result<(), LockNo>, wanted: Option<PlainLock>) -> bool {
    match (answer, wanted) {
        (Ok(()), None) => true,
        (Err(LockNo::Held { holder, name, mode }), Some(lock)) => {
            *holder == unit_of(lock.unit)
                && matches!(name, LockName::Record { .. }) == (lock.name == 0)
                && *mode == mode_of(lock.exclusive)
        }
        _ => false,
    }
}
