//! The plan that words are.
ghost use Rattle.std.specs.Prelude.{◌≡◌};
ghost use Rattle.std.specs.Option.{option_map};
ghost use Rattle.vr_job_ends.specs.Asked.{asked_of};
ghost use Rattle.vr_job_ends.specs.Command.{plan_of, default_format, by_three, by_seven};

use crate::command::Plan;
use crate::word::{count, is_name, is_name_or_dash, number};
use vr_types::Words;

/// The bytes of a block, where a format doesn't say.
const DEFAULT_SIZE: u64 = 4096;

/// The blocks of a volume, likewise.
const DEFAULT_BLOCKS: u64 = 2048;

/// The blocks of its log, likewise.
const DEFAULT_LOG: u64 = 64;

/// The control intervals of an area, likewise.
const DEFAULT_AREA: u64 = 15;

/// The plan that words are. `None` comes exactly where they are no command. It takes no memory.
pub fn plan(words: &Words) -> Option<Plan<'_>>
    ensures { option_map asked_of result ≡ plan_of words.now }
{
    match words.len() {
        3 => by_three(words.word(0), words.word(1), words.word(2)),
        7 => by_seven(
            words.word(0),
            words.word(1),
            words.word(2),
            words.word(3),
            words.word(4),
            words.word(5),
            words.word(6),
        ),
        _ => None,
    }
}

/// The plan of three words.
fn by_three<'a>(verb: &str, first: &'a str, second: &'a str) -> Option<Plan<'a>>
    ensures { option_map asked_of result ≡ by_three verb.now first.now second.now }
{
    if verb == "format" {
        return default_format(first, second);
    }
    if !is_name_or_dash(first) || !is_name_or_dash(second) {
        return None;
    }
    if verb == "run" {
        return Some(Plan::Run {
            job: first,
            dir: second,
            trace: false,
        });
    }
    if verb == "trace" {
        return Some(Plan::Run {
            job: first,
            dir: second,
            trace: true,
        });
    }
    None
}

/// The plan of `format DIR COUNT`.
fn default_format<'a>(dir: &'a str, volumes: &str) -> Option<Plan<'a>>
    ensures { option_map asked_of result ≡ default_format dir.now volumes.now }
{
    if !is_name(dir) {
        return None;
    }
    let count = count(volumes)?;
    Some(Plan::Format {
        dir,
        count,
        size: DEFAULT_SIZE,
        blocks: DEFAULT_BLOCKS,
        log: DEFAULT_LOG,
        area: DEFAULT_AREA,
    })
}

/// The plan of seven words.
fn by_seven<'a>(
    verb: &str,
    dir: &'a str,
    volumes: &str,
    size: &str,
    blocks: &str,
    log: &str,
    area: &str,
) -> Option<Plan<'a>>
    ensures { option_map asked_of result
        ≡ by_seven verb.now dir.now volumes.now size.now blocks.now log.now area.now }
{
    if verb != "format" || !is_name(dir) {
        return None;
    }
    let count = count(volumes)?;
    let size = number(size)?;
    let blocks = number(blocks)?;
    let log = number(log)?;
    let area = number(area)?;
    Some(Plan::Format {
        dir,
        count,
        size,
        blocks,
        log,
        area,
    })
}
