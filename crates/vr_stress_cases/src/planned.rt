//! Jobs of eight decks that ask for a few records of three volumes, made by a row of numbers, with
//! the requests that each deck is to ask.

use crate::data_sets::{VOLUMES, add_place, kind_of, name_of};
use crate::dice::Dice;
use crate::turns::{Act, Find, Put, Then, Where, act_of, find_of, integrity_of, then_of};
use std::alloc::Global;
use std::fmt::Write;
use vr_case_volumes::{Answer, MAXIMUM, Stop, Verb, add_lines, say};
use vr_types::Kind;

/// How many decks there are, and how many turns each has.
const DECKS: u32 = 8;

/// The deck that is run before them.
pub const LOADER: u32 = DECKS + 1;

/// How many records it adds to each volume.
const LOADED: u32 = 4;

const TURNS: u32 = 18;

/// How many records the decks ask for on each volume.
const RECORDS: u32 = 8;

/// A request that a deck is to ask: its verb, its volume, and its line in the job's text.
#[derive(Clone, Copy)]
pub struct Planned {
    pub deck: u32,
    pub verb: Verb,
    pub volume: u32,
    pub line: u32,
}

/// A job's text, how many lines it has, and what its decks are to ask, deck by deck.
#[derive(Drop)]
pub struct Plan {
    pub text: String,
    pub asked: Vec<Planned>,
    lines: u32,
}

/// How many bytes of a record are its number, its deck and its turn.
const HEAD: u32 = 12;

/// How many letters follow them: in a key-sequenced data set up to 20 fewer than there is room for.
fn letters_of(volume: u32, turn: u32) -> u32 {
    match kind_of(volume) {
        Kind::Keyed => MAXIMUM - HEAD - turn % 21,
        Kind::Entry | Kind::Relative => MAXIMUM - HEAD,
    }
}

impl Plan {
    /// The job of this row of numbers.
    pub fn of(alloc: Global, dice: &mut Dice) -> Result<Plan, Stop> {
        let mut plan = Plan {
            text: String::new(alloc),
            asked: Vec::new(alloc),
            lines: 0,
        };
        match plan.add_decks(dice) {
            Ok(()) => Ok(plan),
            Err(stop) => Err(stop),
        }
    }

    fn add_decks(&mut self, dice: &mut Dice) -> Answer {
        self.add_line("//LOAD EXEC PGM=VRMDECK")?;
        self.add_loader()?;
        self.add_line("//STRESS EXEC PGM=VRMDECK")?;
        for deck in 1..DECKS + 1 {
            self.add_deck(deck, dice)?;
        }
        Ok(())
    }

    /// Adds the deck that is run before the others. At a deck's end a COMMIT is added on each volume.
    fn add_loader(&mut self) -> Answer {
        self.add_head(LOADER)?;
        for number in 0..LOADED {
            self.add_loaded(number)?;
        }
        self.plan_on_each(LOADER, Verb::Commit, 0)
    }

    /// Adds a record to each volume, every second one of those that are asked for.
    fn add_loaded(&mut self, number: u32) -> Answer {
        for volume in 0..VOLUMES {
            let at = Where {
                deck: LOADER,
                turn: number,
                volume,
                record: number.saturating_mul(2),
                find: Find::At,
            };
            self.add_put(at, Put::Add)?;
        }
        Ok(())
    }

    fn add_deck(&mut self, deck: u32, dice: &mut Dice) -> Answer {
        self.add_head(deck)?;
        self.add_turns(deck, dice)?;
        self.plan_on_each(deck, Verb::Commit, 0)
    }

    /// Adds the card of a deck, and its files.
    fn add_head(&mut self, deck: u32) -> Answer {
        write!(self.text, "//DECK{deck} DD *\n")?;
        self.count_line();
        add_files(&mut self.text)?;
        self.lines = self.lines.saturating_add(VOLUMES);
        Ok(())
    }

    fn add_turns(&mut self, deck: u32, dice: &mut Dice) -> Answer {
        for turn in 0..TURNS {
            let act = act_of(dice);
            let at = Where {
                deck,
                turn,
                volume: dice.roll(VOLUMES),
                record: dice.roll(RECORDS),
                find: find_of(dice.roll(3)),
            };
            let integrity = integrity_of(dice.roll(3));
            let then = then_of(kind_of(at.volume), dice.roll(3));
            self.add_turn(at, act, integrity, then)?;
        }
        Ok(())
    }

    /// Adds the lines of a deck's turn.
    fn add_turn(&mut self, at: Where, act: Act, integrity: &str, then: Then) -> Answer {
        match act {
            Act::Put(put) => self.add_put(at, put),
            Act::Read => self.add_get(at, integrity),
            Act::Point => self.add_point(at),
            Act::Hold => {
                self.add_get(at, " UPD")?;
                self.add_then(at, then)
            }
            Act::End(verb) => {
                self.add_line(verb.text())?;
                self.plan_on_each(at.deck, verb, self.lines)
            }
        }
    }

    /// Adds what a deck does with a record that it got for update.
    fn add_then(&mut self, at: Where, then: Then) -> Answer {
        match then {
            Then::Update => self.add_put(at, Put::Update),
            Then::Erase => self.add_simple(at, Verb::Erase),
            Then::LetGo => self.add_simple(at, Verb::EndReq),
        }
    }

    /// Adds a PUT of a record that no other turn puts.
    fn add_put(&mut self, at: Where, put: Put) -> Answer {
        let Where {
            deck,
            turn,
            volume,
            record,
            ..
        } = at;
        write!(self.text, "PUT F{volume}")?;
        add_put_place(&mut self.text, at, put)?;
        write!(self.text, " DATA=C'{record:08}{deck:02}{turn:02}")?;
        add_letters(&mut self.text, letters_of(volume, turn))?;
        self.text.push_str("'\n")?;
        self.plan_line(at, Verb::Put)
    }

    /// Adds a GET of the record that is asked for, with UPD or an integrity.
    fn add_get(&mut self, at: Where, how: &str) -> Answer {
        let Where { volume, find, .. } = at;
        write!(self.text, "GET F{volume}")?;
        add_find(&mut self.text, at, find)?;
        write!(self.text, "{how}\n")?;
        self.plan_line(at, Verb::Get)
    }

    /// Adds a POINT to the record that is asked for; the next one has to be named too.
    fn add_point(&mut self, at: Where) -> Answer {
        let volume = at.volume;
        write!(self.text, "POINT F{volume}")?;
        let find = match at.find {
            Find::Next => Find::AtLeast,
            find => find,
        };
        add_find(&mut self.text, at, find)?;
        self.text.push_str("\n")?;
        self.plan_line(at, Verb::Point)
    }

    fn add_simple(&mut self, at: Where, verb: Verb) -> Answer {
        let volume = at.volume;
        let text = verb.text();
        write!(self.text, "{text} F{volume}\n")?;
        self.plan_line(at, verb)
    }

    fn add_line(&mut self, line: &str) -> Answer {
        self.count_line();
        add_lines(&mut self.text, &[line])
    }

    fn count_line(&mut self) {
        self.lines = self.lines.saturating_add(1);
    }

    /// Plans the request of the line that was added.
    fn plan_line(&mut self, at: Where, verb: Verb) -> Answer {
        self.count_line();
        self.plan(at.deck, verb, at.volume, self.lines)
    }

    fn plan(&mut self, deck: u32, verb: Verb, volume: u32, line: u32) -> Answer {
        self.asked.push(Planned {
            deck,
            verb,
            volume,
            line,
        })?;
        Ok(())
    }

    fn plan_on_each(&mut self, deck: u32, verb: Verb, line: u32) -> Answer {
        for volume in 0..VOLUMES {
            self.plan(deck, verb, volume, line)?;
        }
        Ok(())
    }
}

/// Adds the files of a deck, one on each volume.
pub fn add_files(text: &mut String) -> Answer {
    for volume in 0..VOLUMES {
        let name = name_of(volume);
        write!(text, "FILE F{volume} {name}\n")?;
    }
    Ok(())
}

/// Adds the operands that say which record is asked for.
fn add_find(text: &mut String, at: Where, find: Find) -> Answer {
    match find {
        Find::At => add_place(text, at.volume, at.record),
        Find::AtLeast => {
            add_place(text, at.volume, at.record)?;
            say(text, " GE")
        }
        Find::Next => say(text, " SEQ"),
    }
}

/// Adds the operands of a PUT that precede its record.
fn add_put_place(text: &mut String, at: Where, put: Put) -> Answer {
    let has_slots = kind_of(at.volume) == Kind::Relative;
    match put {
        Put::Update => say(text, " UPD"),
        Put::Add if has_slots => add_place(text, at.volume, at.record),
        Put::Amiss if !has_slots => say(text, " RRN=1"),
        Put::Add | Put::Amiss => Ok(()),
    }
}

/// Adds letters to a text.
fn add_letters(text: &mut String, letters: u32) -> Answer {
    for _ in 0..letters {
        text.push('x')?;
    }
    Ok(())
}
