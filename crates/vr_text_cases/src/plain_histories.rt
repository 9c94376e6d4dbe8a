//! A plain, slow program that writes what is printed over small histories. Each volume has at each
//! stamp one of six things, which a digit tells: nothing, a request of deck 1 or 2 that is done,
//! one that is refused, or a split.

use vr_case_table::Answers;

/// How the table of cases spells them.
pub const SPELLED: [&str; 6] = [
    "",
    "1.1 commit = done 0 - -",
    "2.1 get 1:1 nri eq K = done 8 K R",
    "1.1 erase 0:1 = held 2.7 record 1 K shared",
    "2.1 update 0:1 R = writefault",
    "0.0 split 1",
];

const DECKS: [u8; 6] = [0, 1, 2, 1, 2, 0];

const CODES: [u8; 6] = [0, 0, 0, 4, 8, 0];

const LISTED: [&str; 6] = [
    "",
    "COMMIT RC=0 FB=0",
    "GET B RC=0 FB=8 AT=C'K' DATA=C'R'",
    "ERASE X RC=8 FB=901 HOLDER=2.7",
    "PUT A RC=12 FB=905",
    "",
];

const UNITS: [&str; 6] = ["", "1.1", "2.1", "1.1", "2.1", "0.0"];

const TRACED: [&str; 6] = [
    "",
    "COMMIT RC=0 FB=0",
    "GET RC=0 FB=8",
    "ERASE RC=8 FB=901",
    "PUT RC=12 FB=905",
    "SPLIT",
];

/// How many volumes and stamps there are, and what each volume has at each stamp.
#[derive(Clone, Copy)]
pub struct Small<'a> {
    pub volumes: u32,
    pub stamps: u32,
    pub digits: &'a [u8],
}

impl Small<'_> {
    /// What a volume has at a stamp, from 1.
    pub fn digit(&self, volume: u32, stamp: u32) -> usize {
        let place = volume.saturating_mul(self.stamps).saturating_add(stamp);
        match self.digits.get(place.saturating_sub(1) as usize) {
            Some(digit) => usize::from(*digit),
            None => 0,
        }
    }
}

/// The line of the text at which a request is asked.
pub fn line_at(stamp: u32) -> u32 {
    stamp.saturating_add(10)
}

/// Writes what the job prints.
pub fn say_listing(small: &Small, out: &mut Answers) {
    out.say("STEP ONE DECKS|");
    say_deck(small, 1, out);
    say_deck(small, 2, out);
    let code = u64::from(code_of(small));
    out.say_number("STEP ONE CODE ", code);
    out.say("|STEP TWO DECKS|STEP TWO CODE 0|");
    out.say_number("JOB CODE ", code);
    out.say("|");
}

/// The greatest of the codes.
fn code_of(small: &Small) -> u8 {
    let mut code = 0u8;
    for volume in 0..small.volumes {
        code = code.max(volume_code(small, volume));
    }
    code
}

fn volume_code(small: &Small, volume: u32) -> u8 {
    let mut code = 0u8;
    for stamp in 0..small.stamps {
        code = code.max(code_at(small.digit(volume, stamp.saturating_add(1))));
    }
    code
}

fn code_at(digit: usize) -> u8 {
    match CODES.get(digit) {
        Some(code) => *code,
        None => 0,
    }
}

fn deck_at(digit: usize) -> u8 {
    match DECKS.get(digit) {
        Some(deck) => *deck,
        None => 0,
    }
}

/// The text that a digit has in a table.
pub fn text_at(texts: &[&'static str; 6], digit: usize) -> &'static str {
    match texts.get(digit) {
        Some(text) => *text,
        None => "",
    }
}

fn say_deck(small: &Small, deck: u8, out: &mut Answers) {
    for stamp in 0..small.stamps {
        say_deck_at(small, deck, stamp.saturating_add(1), out);
    }
}

fn say_deck_at(small: &Small, deck: u8, stamp: u32, out: &mut Answers) {
    for volume in 0..small.volumes {
        let digit = small.digit(volume, stamp);
        if deck_at(digit) == deck {
            out.say_number("DECK ", u64::from(deck));
            out.say_number(" LINE ", u64::from(line_at(stamp)));
            out.say_number(" VOL ", u64::from(volume));
            out.say(" ");
            out.say(text_at(&LISTED, digit));
            out.say("|");
        }
    }
}

/// Writes the merged history.
pub fn say_trace(small: &Small, out: &mut Answers) {
    for stamp in 0..small.stamps {
        say_trace_at(small, stamp.saturating_add(1), out);
    }
}

fn say_trace_at(small: &Small, stamp: u32, out: &mut Answers) {
    for volume in 0..small.volumes {
        let digit = small.digit(volume, stamp);
        if digit > 0 {
            out.say_number("STAMP ", u64::from(stamp));
            out.say_number(" VOL ", u64::from(volume));
            out.say(" UNIT ");
            out.say(text_at(&UNITS, digit));
            out.say_number(" LINE ", u64::from(line_at(stamp)));
            out.say(" ");
            out.say(text_at(&TRACED, digit));
            out.say("|");
        }
    }
}
