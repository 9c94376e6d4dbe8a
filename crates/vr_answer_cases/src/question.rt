//! What a line asks: `every STEP`, the crate beside the plain program; or a request with the state
//! that it meets, in words.

use crate::answers::{Answer, Stop};
use crate::desk::answer_of;
use crate::judge::judge;
use crate::small::{Ask, Keeps, Small, Sought, small_case};
use crate::spelling::{key_of, number_of, parted, say_reply, with_word};
use std::alloc::Global;
use vr_catalog::Catalog;

/// Writes the answer to a line.
pub fn answer(alloc: Global, catalog: &Catalog, line: &str, out: &mut String) -> Answer {
    let (verb, rest) = parted(line);
    if verb == "every" {
        return judge(alloc, catalog, number_of(rest)?, out);
    }
    let case = case_of(verb, rest)?;
    let reply = answer_of(alloc, catalog, &case)?;
    say_reply(out, case.data_set, &reply)
}

/// The request and its state: `get A`, `ge A`, `next`, `place LENGTH`, `point A`, `pointge A`,
/// `pointnext`, `pointplace LENGTH`, `add A`, `addat LENGTH`, `addbare`, `update A`, `erase`,
/// `endreq`, `commit` or `backout`, and then words that change it.
fn case_of(verb: &str, rest: &str) -> Result<Small, Stop> {
    let (first, words) = parted(rest);
    match verb {
        "get" => with_words(get_case(Sought::Equal(key_of(first)?)), words),
        "ge" => with_words(get_case(Sought::AtLeast(key_of(first)?)), words),
        "point" => with_words(point_case(Sought::Equal(key_of(first)?)), words),
        "pointge" => with_words(point_case(Sought::AtLeast(key_of(first)?)), words),
        "place" | "pointplace" | "addat" => {
            with_words(small_case(of_length(verb, number_of(first)?)), words)
        }
        "add" => with_words(
            small_case(Ask::Add {
                key: key_of(first)?,
                length: 2,
            }),
            words,
        ),
        "update" => with_words(
            small_case(Ask::Update {
                key: key_of(first)?,
                length: 2,
            }),
            words,
        ),
        other => bare_case(other, rest),
    }
}

/// A request that names a place of that many bytes.
fn of_length(verb: &str, length: u32) -> Ask {
    match verb {
        "place" => Ask::GetOf { length },
        "pointplace" => Ask::PointOf { length },
        _ => Ask::AddAt { length },
    }
}

fn get_case(sought: Sought) -> Small {
    small_case(Ask::Get {
        sought,
        update: false,
        keeps: Keeps::Nothing,
    })
}

fn point_case(sought: Sought) -> Small {
    small_case(Ask::Point { sought })
}

fn bare_case(verb: &str, words: &str) -> Result<Small, Stop> {
    match verb {
        "next" => with_words(get_case(Sought::Next), words),
        "pointnext" => with_words(point_case(Sought::Next), words),
        "addbare" => with_words(small_case(Ask::AddBare), words),
        "erase" => with_words(small_case(Ask::Erase), words),
        "endreq" => with_words(small_case(Ask::EndReq), words),
        "commit" => with_words(small_case(Ask::Commit), words),
        "backout" => with_words(small_case(Ask::Backout), words),
        _ => Err(Stop::Line),
    }
}

/// The state with what the words say of it.
fn with_words(case: Small, words: &str) -> Result<Small, Stop> {
    let mut case = case;
    for word in words.split(' ') {
        if !word.is_empty() {
            case = with_word(case, word)?;
        }
    }
    Ok(case)
}
