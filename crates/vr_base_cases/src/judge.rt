//! The crates beside plain, slow programs, over all small inputs.

use crate::{plain_intervals, plain_literals, plain_names, plain_records, plain_rosters};
use std::alloc::{AllocError, Global};
use vr_case_table::{Answer, Answers, Stop, parted, small_of};
use vr_ci::Form;

/// How many inputs were judged, how many of them the crate judges otherwise than the plain program,
/// and the first of these.
#[derive(Drop)]
pub struct Judged {
    inputs: u64,
    differ: u64,
    first: String,
}

impl Judged {
    /// Nothing judged yet.
    pub fn new(alloc: Global) -> Judged {
        Judged {
            inputs: 0,
            differ: 0,
            first: String::new(alloc),
        }
    }

    /// Counts a text that was judged.
    pub fn count(&mut self, same: bool, text: &str) -> Result<(), AllocError> {
        self.inputs = self.inputs.saturating_add(1);
        if !same {
            if self.differ == 0 {
                self.first.push_str(text)?;
            }
            self.differ = self.differ.saturating_add(1);
        }
        Ok(())
    }

    /// Counts bytes that were judged.
    pub fn count_bytes(
        &mut self,
        alloc: Global,
        same: bool,
        bytes: &[u8],
    ) -> Result<(), AllocError> {
        if same {
            return self.count(true, "");
        }
        let digits = hex::encode_upper(alloc, bytes)?;
        self.count(false, digits.as_str())
    }

    /// Writes the two counts, and the first input that differs.
    fn say(&self, out: &mut Answers) {
        out.say_number("", self.differ);
        out.say_number(" differ of ", self.inputs);
        if self.differ > 0 {
            out.say(", first ");
            out.say(self.first.as_str());
        }
    }
}

/// Judges all small inputs of a kind, or all blocks close to the block: `names`, `literals`,
/// `spellings`, `numbers`, `sizes`, `record INTERVALS`, `roster INTERVALS`, `plain` or
/// `slots LENGTH`.
pub fn judge(block: &[u8], rest: &str, out: &mut Answers) -> Answer {
    let alloc = out.alloc();
    let (kind, number) = parted(rest);
    let judged = match kind {
        "record" | "roster" | "plain" | "slots" => judge_blocks(alloc, block, kind, number),
        _ => judge_inputs(alloc, kind),
    };
    match judged {
        Ok(judged) => judged.say(out),
        Err(stop) => return Err(stop),
    }
    Ok(())
}

/// Judges the blocks close to the block.
fn judge_blocks(alloc: Global, block: &[u8], kind: &str, number: &str) -> Result<Judged, Stop> {
    let judged = match kind {
        "record" => plain_records::judge(alloc, block, small_of(number)?),
        "roster" => plain_rosters::judge(alloc, block, small_of(number)?),
        "plain" => plain_intervals::judge(alloc, Form::Plain, block),
        _ => plain_intervals::judge(alloc, slots_of(number)?, block),
    };
    match judged {
        Ok(judged) => Ok(judged),
        Err(AllocError) => Err(Stop::Memory),
    }
}

/// Judges all small inputs of a kind.
fn judge_inputs(alloc: Global, kind: &str) -> Result<Judged, Stop> {
    let judged = match kind {
        "names" => plain_names::judge(alloc),
        "literals" => plain_literals::judge_literals(alloc),
        "spellings" => plain_literals::judge_spellings(alloc),
        "numbers" => plain_literals::judge_numbers(alloc),
        "sizes" => plain_records::judge_sizes(alloc),
        _ => return Err(Stop::Line),
    };
    match judged {
        Ok(judged) => Ok(judged),
        Err(AllocError) => Err(Stop::Memory),
    }
}

fn slots_of(number: &str) -> Result<Form, Stop> {
    let length = small_of(number)?;
    Ok(Form::Slots { length })
}

/// Adds the digits of a number in base 8, the lowest first, each as the letter of its value.
pub fn push_letters(
    text: &mut String,
    letters: &[&str; 8],
    digits: u32,
    number: usize,
) -> Result<(), AllocError> {
    let mut rest = number;
    for _ in 0..digits {
        text.push_str(letters[rest % 8])?;
        rest /= 8;
    }
    Ok(())
}
