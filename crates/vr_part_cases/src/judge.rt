//! The part beside the plain program, over all lists of samples.

use crate::asked::say_asked;
use crate::listed::Listed;
use crate::plain_content::say_plain;
use std::alloc::Global;
use vr_case_table::{Answer, Answers, Stop};

/// How many lists were judged, how many of them stand for a content, and how many have two answers;
/// and those of the last one.
#[derive(Drop)]
struct Judged {
    lists: u64,
    stand: u64,
    differ: u64,
    got: Answers,
    plain: Answers,
}

/// Judges the lists of the first samples, as many as the question says, and writes how many
/// there are, how many stand for a content, and how many have two answers, after the first of
/// these.
pub fn judge(
    alloc: Global,
    listed: &mut Listed,
    relative: bool,
    rosters: u8,
    intervals: u8,
    out: &mut Answers,
) -> Answer {
    let mut judged = Box::new(
        alloc,
        Judged {
            lists: 0,
            stand: 0,
            differ: 0,
            got: Answers::new(alloc),
            plain: Answers::new(alloc),
        },
    )?;
    judge_lists(
        alloc,
        listed,
        relative,
        rosters,
        intervals,
        &mut judged,
        out,
    )?;
    out.say_number("", judged.lists);
    out.say_number(" lists, ", judged.stand);
    out.say_number(" stand, ", judged.differ);
    out.say(" differ");
    Ok(())
}

/// How many lists there are.
fn count_of(rosters: u8, intervals: u8) -> Option<u32> {
    let rosters = u32::from(rosters) * u32::from(rosters);
    let intervals = u32::from(intervals) * u32::from(intervals);
    rosters.checked_mul(intervals.checked_mul(intervals)?)
}

fn judge_lists(
    alloc: Global,
    listed: &mut Listed,
    relative: bool,
    rosters: u8,
    intervals: u8,
    judged: &mut Judged,
    out: &mut Answers,
) -> Answer {
    let count = count_of(rosters, intervals).ok_or(Stop::Line)?;
    for number in 0..count {
        listed.take(number, rosters, intervals);
        judge_one(alloc, listed, relative, judged, out)?;
    }
    Ok(())
}

/// Judges a list. The first that has two answers is written with them.
fn judge_one(
    alloc: Global,
    listed: &mut Listed,
    relative: bool,
    judged: &mut Judged,
    out: &mut Answers,
) -> Answer {
    answer_both(alloc, listed, relative, judged)?;
    judged.lists = judged.lists.saturating_add(1);
    if judged.plain.text().starts_with("stands") {
        judged.stand = judged.stand.saturating_add(1);
    }
    if judged.got.text() != judged.plain.text() {
        judged.differ = judged.differ.saturating_add(1);
        if judged.differ == 1 {
            say_both(listed, judged, out);
        }
    }
    Ok(())
}

fn answer_both(alloc: Global, listed: &mut Listed, relative: bool, judged: &mut Judged) -> Answer {
    judged.got.clear();
    judged.plain.clear();
    say_asked(alloc, listed, relative, &mut judged.got)?;
    say_plain(alloc, listed, relative, &mut judged.plain)?;
    if judged.got.lacks_memory() || judged.plain.lacks_memory() {
        return Err(Stop::Memory);
    }
    Ok(())
}

/// Writes a list with both answers.
fn say_both(listed: &Listed, judged: &Judged, out: &mut Answers) {
    out.say("list");
    listed.say(out);
    out.say(" gives ");
    out.say(judged.got.text());
    out.say(" and plainly ");
    out.say(judged.plain.text());
    out.say(", ");
}

/// Writes what one list stands for, and what the plain program says where that is something else.
pub fn show(alloc: Global, listed: &mut Listed, relative: bool, out: &mut Answers) -> Answer {
    let mut plain = Answers::new(alloc);
    say_asked(alloc, listed, relative, out)?;
    say_plain(alloc, listed, relative, &mut plain)?;
    out.say_plain(&plain);
    Ok(())
}
