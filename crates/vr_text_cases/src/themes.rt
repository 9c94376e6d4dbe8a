//! All small questions of a theme, beside its plain program.

use crate::decks::Decks;
use crate::groups::Groups;
use crate::histories::judge_histories;
use crate::jobs::Jobs;
use crate::parameters::Parameters;
use crate::ranges::Ranges;
use crate::tokens::Texts;
use crate::words::judge_words;
use crate::{groups, parameters, ranges};
use vr_case_table::{Answer, Answers, Stop, judge, judge_up_to, parted};

/// Judges a theme: how many of its questions the plain program answers otherwise, of how many.
pub fn judge_theme(text: &str, out: &mut Answers) -> Answer {
    let (theme, numbers) = parted(text);
    match theme {
        "decks" => judge(&Decks, &[16, 32, 32, 32], out),
        "tokens" => judge(&Texts, &[16, 16, 16, 16, 16], out),
        "jobs" => judge(&Jobs, &[2, 16, 16, 16, 16, 16], out),
        "words" => judge_words(numbers, out),
        "histories" => judge_histories(numbers, out),
        _ => judge_commands(theme, out),
    }
}

/// Judges a theme of commands.
fn judge_commands(theme: &str, out: &mut Answers) -> Answer {
    match theme {
        "groups" => judge_up_to(&Groups, groups::COUNT, 6, out),
        "parameters" => judge_up_to(&Parameters, parameters::COUNT, 3, out),
        "ranges" => judge_up_to(&Ranges, ranges::COUNT, 5, out),
        _ => Err(Stop::Line),
    }
}

/// Writes a text by its digits: a beginning, and then words, each between two texts.
pub fn spell(
    begins: &[&str],
    words: &[&str],
    around: (&str, &str),
    digits: &[u8],
    out: &mut Answers,
) {
    let Some((first, rest)) = digits.split_first() else {
        return;
    };
    out.say(word_at(begins, *first));
    for digit in rest {
        out.say(around.0);
        out.say(word_at(words, *digit));
        out.say(around.1);
    }
}

/// The word that a digit has in a list.
fn word_at<'a>(list: &[&'a str], digit: u8) -> &'a str {
    match list.get(usize::from(digit)) {
        Some(word) => *word,
        None => "",
    }
}
