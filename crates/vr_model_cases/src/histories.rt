//! What the entries that were taken are as a history.

use std::alloc::Global;
use vr_case_table::{Answer, Answers, Stop};
use vr_history::{Entry, History};
use vr_merge::{NumberedEntry, is_stamped, merge};
use vr_model::{FileState, are_steps, is_legal};

/// `legal`, `steps` or `stamped`: whether the entries are that; `merged`: the volumes of the
/// entries of two volumes that each have them, in the order of the one history.
pub fn judge(
    alloc: Global,
    opening: &FileState,
    entries: &[Entry],
    asked: &str,
    out: &mut Answers,
) -> Answer {
    match asked {
        "legal" => say_whether(out, is_legal(alloc, opening, entries)?),
        "steps" => say_whether(out, are_steps(alloc, opening, entries)?),
        "stamped" => say_whether(out, is_stamped(0, entries)),
        "merged" => merged_twice(alloc, entries, out)?,
        _ => return Err(Stop::Line),
    }
    Ok(())
}

fn say_whether(out: &mut Answers, is: bool) {
    out.say(if is { "yes" } else { "no" });
}

/// The history of the entries, as far as their stamps rise.
fn history_of(alloc: Global, entries: &[Entry]) -> Result<History, Stop> {
    let mut history = History::new(alloc);
    match add_entries(alloc, &mut history, entries) {
        Ok(()) => Ok(history),
        Err(stop) => Err(stop),
    }
}

fn add_entries(alloc: Global, history: &mut History, entries: &[Entry]) -> Answer {
    for entry in entries {
        if history.last() < entry.stamp {
            history.reserve(1)?;
            history.push(entry.copy(alloc)?);
        }
    }
    Ok(())
}

fn merged_twice(alloc: Global, entries: &[Entry], out: &mut Answers) -> Answer {
    let first = history_of(alloc, entries)?;
    let second = history_of(alloc, entries)?;
    let histories = Vec::from_array(alloc, [first, second])?;
    let merged = merge(alloc, &histories)?;
    say_volumes(&merged, out);
    Ok(())
}

fn say_volumes(merged: &[NumberedEntry], out: &mut Answers) {
    for entry in merged {
        out.say_number("/", entry.volume());
    }
}
