//! What a state has, as the table writes it.

use std::alloc::Global;
use vr_case_table::{Answer, Answers, Stop, word_of};
use vr_case_words::{parted, place_of};
use vr_model::{FileState, Stored};
use vr_types::{Place, Stand};

/// Writes what a state has.
pub fn show(alloc: Global, state: &FileState, text: &str, out: &mut Answers) -> Answer {
    let (verb, rest) = parted(text);
    match verb {
        "used" => out.say_number("", state.used),
        "locks" => out.say_number("", state.locks.len() as u64),
        "befores" => out.say_number("", state.befores.len() as u64),
        "logged" => out.say_number("", state.logged.len() as u64),
        "owned" => out.say_number("", state.owned.len() as u64),
        "number" => out.say_number("", state.number(word_of(rest)?)),
        "items" => out.say_number("", state.content(word_of(rest)?).len() as u64),
        "at" => item(alloc, state, rest, out)?,
        "stand" => stand(alloc, state, rest, out)?,
        "held" => held(alloc, state, rest, out)?,
        _ => return Err(Stop::Line),
    }
    Ok(())
}

/// `at PART PLACE`: what stands there.
fn item(alloc: Global, state: &FileState, text: &str, out: &mut Answers) -> Answer {
    let (part, place) = parted(text);
    let part = word_of(part)?;
    let place = place_of(alloc, place)?;
    match state.item_at(part, &place) {
        None => out.say("nothing"),
        Some(Stored::Withdrawn(length)) => out.say_number("withdrawn ", *length),
        Some(Stored::Standing(bytes)) => out.say_number("a record of ", bytes.len() as u64),
    }
    Ok(())
}

fn say_place(out: &mut Answers, text: &str, place: &Place) {
    out.say(text);
    out.say_bytes(place.as_slice());
}

/// `stand DECK SLOT`: where the file stands.
fn stand(alloc: Global, state: &FileState, text: &str, out: &mut Answers) -> Answer {
    let (deck, slot) = parted(text);
    let position = state.position(alloc, word_of(deck)?, word_of(slot)?)?;
    match &position.stand {
        Stand::Start => out.say("start"),
        Stand::At(place) => say_place(out, "at ", place),
        Stand::After(place) => say_place(out, "after ", place),
        Stand::End => out.say("end"),
        Stand::None => out.say("nowhere"),
    }
    Ok(())
}

/// `held DECK SLOT`: the place of the record that the file holds for update.
fn held(alloc: Global, state: &FileState, text: &str, out: &mut Answers) -> Answer {
    let (deck, slot) = parted(text);
    let position = state.position(alloc, word_of(deck)?, word_of(slot)?)?;
    match &position.held {
        None => out.say("nothing"),
        Some(place) => say_place(out, "", place),
    }
    Ok(())
}
