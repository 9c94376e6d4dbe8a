//! Which desk a line asks.

use crate::history_desk::HistoryDesk;
use crate::themes::judge_theme;
use crate::{binding, commands, decks, ends, jobs, tokens, words};
use std::alloc::Global;
use vr_case_table::{Answer, Answers, Desk, parted};

/// The desks: that of histories has what the lines before left, and the others have nothing.
#[derive(Drop)]
pub struct TextDesk {
    histories: HistoryDesk,
}

impl TextDesk {
    /// Nothing is left yet.
    pub fn new(alloc: Global) -> TextDesk {
        TextDesk {
            histories: HistoryDesk::new(alloc),
        }
    }
}

impl Desk for TextDesk {
    fn answer(&mut self, line: &str, out: &mut Answers) -> Answer {
        let (verb, rest) = parted(line);
        match verb {
            "history" => self.histories.answer(rest, out),
            "judge" => judge_theme(rest, out),
            "end" => ends::end(rest, out),
            "plan" => words::plan_twice(rest, out),
            _ => answer_text(verb, rest, out),
        }
    }
}

/// What a text is read as.
fn answer_text(verb: &str, text: &str, out: &mut Answers) -> Answer {
    match verb {
        "deck" => decks::read_twice(text, out),
        "bind" => binding::bind_text(text, out),
        "scan" => tokens::read_twice(text, out),
        "commands" => commands::read(text, out),
        _ => jobs::answer(verb, text, out),
    }
}
