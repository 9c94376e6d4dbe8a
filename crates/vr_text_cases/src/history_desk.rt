//! What the lines before a question have left: the histories, the steps with their decks, and the
//! reports.

use crate::escapes;
use crate::lines::say_lines;
use std::alloc::Global;
use std::mem::replace;
use vr_case_table::{Answer, Answers, Stop, long_of, parted, word_of};
use vr_case_words::entry_of;
use vr_history::{Entry, History};
use vr_trace::{
    FileNames, Histories, KeptDeck, KeptDeckStep, KeptDecks, KeptStep, KeptSteps, Merged,
    StepReport, StepReports, job_code, listing, merge, step_code, trace_lines,
};
use vr_types::{Bytes, OutOfMemory};

/// The histories of the volumes, the steps, the decks of the next step, and the reports.
#[derive(Drop)]
pub struct HistoryDesk {
    histories: Vec<History>,
    steps: KeptSteps,
    decks: KeptDecks,
    reports: StepReports,
}

impl HistoryDesk {
    /// No volume and no step.
    pub fn new(alloc: Global) -> HistoryDesk {
        HistoryDesk {
            histories: Vec::new(alloc),
            steps: KeptSteps::new(alloc),
            decks: KeptDecks::new(alloc),
            reports: StepReports::new(alloc),
        }
    }

    /// Writes the answer to a line.
    pub fn answer(&mut self, line: &str, out: &mut Answers) -> Answer {
        let alloc = out.alloc();
        let (verb, rest) = parted(line);
        match verb {
            "clear" => self.clear(alloc),
            "volume" => self.histories.push(History::new(alloc))?,
            "entry" => self.entry(alloc, rest)?,
            "deck" => self.deck(alloc, rest)?,
            "step" => self.step(alloc, rest)?,
            "utilities" => self.utilities(alloc, rest)?,
            "report" => self.report(alloc, rest)?,
            _ => return self.show(alloc, verb, out),
        }
        out.ok()
    }

    /// Leaves no volume and no step.
    fn clear(&mut self, alloc: Global) {
        self.histories = Vec::new(alloc);
        self.steps = KeptSteps::new(alloc);
        self.decks = KeptDecks::new(alloc);
        self.reports = StepReports::new(alloc);
    }

    /// `entry VOLUME STAMP LINE UNIT WHAT`: the next entry of a volume.
    fn entry(&mut self, alloc: Global, text: &str) -> Answer {
        let (volume, rest) = parted(text);
        let (stamp, rest) = parted(rest);
        let (line, rest) = parted(rest);
        let volume = word_of(volume)? as usize;
        let entry = entry_of(alloc, long_of(stamp)?, word_of(line)?, rest)?;
        if volume >= self.histories.len() {
            return Err(Stop::Line);
        }
        add_entry(&mut self.histories[volume], entry)
    }

    /// `deck NUMBER FILE ..`: a deck of the next step, with its names for its files.
    fn deck(&mut self, alloc: Global, text: &str) -> Answer {
        let (number, names) = parted(text);
        let deck = deck_of(alloc, word_of(number)?, names)?;
        self.decks.push(deck)?;
        Ok(())
    }

    /// `step NAME`: a step that has the decks since the last.
    fn step(&mut self, alloc: Global, text: &str) -> Answer {
        let name = bytes_of(alloc, text)?;
        let decks = replace(&mut self.decks, KeptDecks::new(alloc));
        self.steps
            .push(KeptStep::Decks(KeptDeckStep { name, decks }))?;
        Ok(())
    }

    /// `utilities NAME`: a step of IDCAMS.
    fn utilities(&mut self, alloc: Global, text: &str) -> Answer {
        self.steps
            .push(KeptStep::Utilities(bytes_of(alloc, text)?))?;
        Ok(())
    }

    /// `report CODE LINES`: the report of the next step of IDCAMS.
    fn report(&mut self, alloc: Global, text: &str) -> Answer {
        let (code, lines) = parted(text);
        let code = (word_of(code)? % 256) as u8;
        let lines = Bytes::from_vec(escapes::bytes_of(alloc, lines)?);
        self.reports.push(StepReport { lines, code })?;
        Ok(())
    }

    /// Writes what was asked for.
    fn show(&mut self, alloc: Global, verb: &str, out: &mut Answers) -> Answer {
        let histories = Histories::from_vec(replace(&mut self.histories, Vec::new(alloc)));
        let reports = self.reports.as_slice();
        let shown = show(alloc, &self.steps, reports, &histories, verb, out);
        self.histories = histories.into_vec();
        shown
    }
}

/// Adds an entry, which has to have a later stamp.
pub fn add_entry(history: &mut History, entry: Entry) -> Answer {
    if history.last() >= entry.stamp {
        return Err(Stop::Line);
    }
    history.reserve(1)?;
    history.push(entry);
    Ok(())
}

/// A deck with its names for its files.
pub fn deck_of(alloc: Global, number: u32, names: &str) -> Result<KeptDeck, Stop> {
    let mut files = FileNames::new(alloc);
    match add_names(alloc, &mut files, names) {
        Ok(()) => Ok(KeptDeck { number, files }),
        Err(stop) => Err(stop),
    }
}

fn add_names(alloc: Global, files: &mut FileNames, names: &str) -> Answer {
    for name in names.split(" ") {
        files.push(bytes_of(alloc, name)?)?;
    }
    Ok(())
}

/// The bytes of a text.
pub fn bytes_of(alloc: Global, text: &str) -> Result<Bytes, OutOfMemory> {
    let bytes = Vec::from_slice(alloc, text.as_bytes())?;
    Ok(Bytes::from_vec(bytes))
}

/// `listing`, `trace`, `codes` or `merged`.
fn show(
    alloc: Global,
    steps: &KeptSteps,
    reports: &[StepReport],
    histories: &Histories,
    verb: &str,
    out: &mut Answers,
) -> Answer {
    match verb {
        "listing" => say_lines(listing(alloc, steps, reports, histories)?.as_slice(), out),
        "trace" => say_lines(trace_lines(alloc, histories)?.as_slice(), out),
        "codes" => say_codes(steps, reports, histories, out),
        "merged" => say_merged(&merge(alloc, histories)?, out),
        _ => return Err(Stop::Line),
    }
    Ok(())
}

/// Writes the codes of the steps of decks and that of the job.
fn say_codes(steps: &KeptSteps, reports: &[StepReport], histories: &Histories, out: &mut Answers) {
    for step in steps.as_slice() {
        if let KeptStep::Decks(step) = step {
            out.say_number("", u64::from(step_code(&step.decks, histories)));
            out.say(" ");
        }
    }
    out.say_number("job ", u64::from(job_code(steps, reports, histories)));
}

/// Writes the volume and the stamp of each entry, and whether an entry stands after the last.
fn say_merged(merged: &Merged<'_>, out: &mut Answers) {
    for at in 0..merged.len() {
        if let Some((volume, entry)) = merged.get(at) {
            out.say_number("", volume as u64);
            out.say_number(":", entry.stamp);
            out.say(" ");
        }
    }
    let more = merged.get(merged.len()).is_some();
    out.say(if more { "and more" } else { "end" });
}
