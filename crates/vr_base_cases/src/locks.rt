//! Which call of the lock table a question asks.

use crate::lock_judge::judge;
use crate::spelling::{mode_of, name_of, names_of, say_mode, say_name, say_unit, unit_of};
use std::alloc::Global;
use vr_case_table::{Answer, Answers, Stop, parted, word_of};
use vr_locks::{LockNo, LockTable, lock_table};

/// Writes the answer to a line. `table` is the table that the lines before it left.
pub fn answer(table: &mut LockTable, line: &str, out: &mut Answers) -> Answer {
    let alloc = out.alloc();
    let (verb, rest) = parted(line);
    match verb {
        "new" => *table = lock_table(alloc),
        "ask" => return ask(alloc, table, rest, out),
        "test" => return test(alloc, table, rest, out),
        "end" => table.end(unit_of(rest)?),
        "judge" => return judge(alloc, word_of(rest)?, out),
        _ => return Err(Stop::Line),
    }
    out.ok()
}

/// `ask UNIT NAMES MODE`.
fn ask(alloc: Global, table: &mut LockTable, rest: &str, out: &mut Answers) -> Answer {
    let (unit, rest) = parted(rest);
    let (names, mode) = parted(rest);
    let unit = unit_of(unit)?;
    let mode = mode_of(mode)?;
    let names = names_of(alloc, names)?;
    match table.ask(unit, &names, mode) {
        Ok(()) => out.ok(),
        Err(no) => say_no(&no, out),
    }
}

/// Writes why a request was not granted.
fn say_no(no: &LockNo, out: &mut Answers) -> Answer {
    match no {
        LockNo::Held { holder, name, mode } => {
            out.say("held ");
            say_unit(*holder, out);
            out.say(" ");
            say_name(name, out);
            out.say(" ");
            say_mode(*mode, out);
            Ok(())
        }
        LockNo::Memory => Err(Stop::Memory),
    }
}

/// `test UNIT NAME MODE`.
fn test(alloc: Global, table: &LockTable, rest: &str, out: &mut Answers) -> Answer {
    let (unit, rest) = parted(rest);
    let (name, mode) = parted(rest);
    let unit = unit_of(unit)?;
    let mode = mode_of(mode)?;
    let name = name_of(alloc, name)?;
    match table.test(unit, &name, mode) {
        Some((holder, mode)) => {
            say_unit(holder, out);
            out.say(" ");
            say_mode(mode, out);
        }
        None => out.say("none"),
    }
    Ok(())
}
