//! What the one-line ends of jobs print.

use crate::lines::say_lines;
use vr_case_table::{Answer, Answers, Stop, long_of, parted, word_of};
use vr_trace::{EndLine, TextKind, end_line, fixed_line};

/// `end WORD NUMBER ..`: what such a job prints, and after it what it prints without memory.
pub fn end(text: &str, out: &mut Answers) -> Answer {
    let end = end_of(text)?;
    say_lines(end_line(out.alloc(), &end)?.as_slice(), out);
    match fixed_line(&end) {
        Some(fixed) => {
            out.say(" fixed ");
            say_lines(fixed, out);
        }
        None => out.say(" made"),
    }
    Ok(())
}

/// The end that a text spells.
fn end_of(text: &str) -> Result<EndLine, Stop> {
    let (word, rest) = parted(text);
    match word {
        "command" => Ok(EndLine::NoCommand),
        "read" => Ok(EndLine::ReadFault),
        "long" => Ok(EndLine::InputTooLong),
        "stamps" => Ok(EndLine::StampsUsedUp),
        "memory" => Ok(EndLine::NoMemory),
        "shelf" => Ok(EndLine::Shelf {
            devices: long_of(rest)?,
        }),
        "formatted" => Ok(EndLine::Formatted {
            volumes: word_of(rest)?,
        }),
        "refused" => refused_of(rest),
        _ => volume_of(word, rest),
    }
}

/// `card N LINE COLUMN`, `scan N LINE COLUMN`, `ams N LINE COLUMN`, `deck N LINE COLUMN` or `form LINE
/// COLUMN`.
fn refused_of(text: &str) -> Result<EndLine, Stop> {
    let (word, rest) = parted(text);
    if word == "form" {
        return refused_at(TextKind::Form, rest);
    }
    let (number, rest) = parted(rest);
    let number = word_of(number)?;
    match word {
        "card" => refused_at(TextKind::Card { number }, rest),
        "scan" => refused_at(TextKind::Scan { number }, rest),
        "ams" => refused_at(TextKind::Ams { number }, rest),
        "deck" => refused_at(TextKind::Deck { number }, rest),
        _ => Err(Stop::Line),
    }
}

fn refused_at(kind: TextKind, text: &str) -> Result<EndLine, Stop> {
    let (line, column) = parted(text);
    Ok(EndLine::Refused {
        kind,
        line: word_of(line)?,
        column: word_of(column)?,
    })
}

/// What is reported of a volume, with its numbers.
fn volume_of(word: &str, text: &str) -> Result<EndLine, Stop> {
    let (volume, rest) = parted(text);
    let volume = word_of(volume)?;
    let (first, second) = parted(rest);
    match word {
        "device" => Ok(EndLine::DeviceFault { volume }),
        "geometry" => Ok(EndLine::Geometry { volume }),
        "version" => Ok(EndLine::Version {
            volume,
            version: word_of(first)?,
        }),
        "damaged" => Ok(EndLine::Damaged {
            volume,
            block: word_of(first)?,
            rule: word_of(second)?,
        }),
        _ => Err(Stop::Line),
    }
}
