//! All small histories, beside the plain program.

use crate::history_desk::{add_entry, bytes_of, deck_of};
use crate::lines::say_lines;
use crate::plain_histories::{SPELLED, Small, line_at, say_listing, say_trace, text_at};
use std::alloc::Global;
use vr_case_table::{Answer, Answers, Beside, Both, Stop, judge, parted, word_of};
use vr_case_words::entry_of;
use vr_history::History;
use vr_trace::{Histories, KeptDeckStep, KeptDecks, KeptStep, KeptSteps, listing, trace_lines};

/// How many things a volume may have at a stamp, for each place of the largest histories.
const SIZES: [u8; 6] = [6; 6];

/// Histories of a number of volumes and stamps, over which a job has these steps.
#[derive(Drop)]
struct SmallHistories {
    volumes: u32,
    stamps: u32,
    steps: KeptSteps,
}

impl Beside for SmallHistories {
    fn answer_both(&self, digits: &[u8], both: &mut Both) -> Answer {
        let small = Small {
            volumes: self.volumes,
            stamps: self.stamps,
            digits,
        };
        both.question.say_digits(digits);
        say_listing(&small, &mut both.plain);
        say_trace(&small, &mut both.plain);
        let histories = histories_of(both.got.alloc(), &small)?;
        say_both(&self.steps, &histories, &mut both.got)
    }
}

/// `histories VOLUMES STAMPS`: how many of all histories of that many volumes and stamps the two
/// programs print otherwise.
pub fn judge_histories(text: &str, out: &mut Answers) -> Answer {
    let (volumes, stamps) = parted(text);
    let volumes = word_of(volumes)?;
    let stamps = word_of(stamps)?;
    let places = volumes.saturating_mul(stamps) as usize;
    let sizes = SIZES.get(..places).ok_or(Stop::Line)?;
    let steps = steps_of(out.alloc())?;
    let all = SmallHistories {
        volumes,
        stamps,
        steps,
    };
    judge(&all, sizes, out)
}

/// Writes the listing, and then the trace.
fn say_both(steps: &KeptSteps, histories: &Histories, out: &mut Answers) -> Answer {
    let alloc = out.alloc();
    say_lines(listing(alloc, steps, &[], histories)?.as_slice(), out);
    say_lines(trace_lines(alloc, histories)?.as_slice(), out);
    Ok(())
}

/// A step with decks 2 and 1, and one with deck 3.
fn steps_of(alloc: Global) -> Result<KeptSteps, Stop> {
    let mut steps = KeptSteps::new(alloc);
    match add_steps(alloc, &mut steps) {
        Ok(()) => Ok(steps),
        Err(stop) => Err(stop),
    }
}

fn add_steps(alloc: Global, steps: &mut KeptSteps) -> Answer {
    add_step(alloc, steps, "ONE", &[(2, "A B"), (1, "X")])?;
    add_step(alloc, steps, "TWO", &[(3, "")])
}

/// Adds a step with decks of these numbers and files.
fn add_step(alloc: Global, steps: &mut KeptSteps, name: &str, decks: &[(u32, &str)]) -> Answer {
    let mut kept = KeptDecks::new(alloc);
    add_decks(alloc, &mut kept, decks)?;
    let name = bytes_of(alloc, name)?;
    steps.push(KeptStep::Decks(KeptDeckStep { name, decks: kept }))?;
    Ok(())
}

fn add_decks(alloc: Global, kept: &mut KeptDecks, decks: &[(u32, &str)]) -> Answer {
    for (number, names) in decks {
        kept.push(deck_of(alloc, *number, names)?)?;
    }
    Ok(())
}

/// The histories, the entries of which are made in the order of their volumes.
fn histories_of(alloc: Global, small: &Small) -> Result<Histories, Stop> {
    let mut histories = Histories::new(alloc);
    match add_histories(alloc, &mut histories, small) {
        Ok(()) => Ok(histories),
        Err(stop) => Err(stop),
    }
}

fn add_histories(alloc: Global, histories: &mut Histories, small: &Small) -> Answer {
    for volume in 0..small.volumes {
        histories.push(history_of(alloc, small, volume)?)?;
    }
    Ok(())
}

fn history_of(alloc: Global, small: &Small, volume: u32) -> Result<History, Stop> {
    let mut history = History::new(alloc);
    match add_entries(alloc, &mut history, small, volume) {
        Ok(()) => Ok(history),
        Err(stop) => Err(stop),
    }
}

fn add_entries(alloc: Global, history: &mut History, small: &Small, volume: u32) -> Answer {
    for stamp in 0..small.stamps {
        let stamp = stamp.saturating_add(1);
        let digit = small.digit(volume, stamp);
        if digit > 0 {
            let spelled = text_at(&SPELLED, digit);
            let entry = entry_of(alloc, u64::from(stamp), line_at(stamp), spelled)?;
            add_entry(history, entry)?;
        }
    }
    Ok(())
}
