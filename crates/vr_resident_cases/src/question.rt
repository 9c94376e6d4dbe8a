//! Which call a question asks.

use crate::answers::{Answer, Stop, say, say_bytes, say_fault, say_number};
use crate::calls::{Call, Reply};
use crate::held::{Held, close, make};
use crate::judge::judge;
use crate::left::say_left;
use crate::recorder::{DeviceCall, Log};
use crate::words::{number, numbers, pair, split};
use std::alloc::Global;

/// Writes the answer to a line, and which calls of the device it made. `held` is what the lines
/// before it left.
pub fn answer(alloc: Global, log: &Log, held: &mut Held, line: &str, out: &mut String) -> Answer {
    let done = ask(alloc, log, held, line, out);
    let said = say_log(alloc, log, out);
    done?;
    said
}

fn ask(alloc: Global, log: &Log, held: &mut Held, line: &str, out: &mut String) -> Answer {
    let (verb, rest) = split(line);
    match verb {
        "cache" => make(alloc, log, held, false, rest, out),
        "own" => make(alloc, log, held, true, rest, out),
        "close" => close(held, out),
        "left" => say_left(alloc, held.device()?, number(rest)?, out),
        "judge" => judge(alloc, rest, out),
        _ => call(alloc, held, verb, rest, out),
    }
}

fn call(alloc: Global, held: &mut Held, verb: &str, rest: &str, out: &mut String) -> Answer {
    match verb {
        "get" => say_call(alloc, held, Call::Get(number(rest)?), out),
        "put" => put(alloc, held, rest, out),
        "force" => force(alloc, held, rest, out),
        "flush" => say_call(alloc, held, Call::Flush(number(rest)?), out),
        "give" => say_call(alloc, held, Call::Give, out),
        _ => Err(Stop::Line),
    }
}

fn put(alloc: Global, held: &mut Held, rest: &str, out: &mut String) -> Answer {
    let (n, digits) = split(rest);
    let n = number(n)?;
    let bytes = pair(alloc, digits)?;
    say_call(alloc, held, Call::Put(n, bytes), out)
}

fn force(alloc: Global, held: &mut Held, rest: &str, out: &mut String) -> Answer {
    let list = numbers(alloc, rest)?;
    say_call(alloc, held, Call::Force(list.as_slice()), out)
}

/// Makes a call of the cache, and writes what it answers.
fn say_call(alloc: Global, held: &mut Held, call: Call<'_>, out: &mut String) -> Answer {
    match held.call(call)? {
        Reply::Bytes(bytes) => say_bytes(alloc, out, &bytes),
        Reply::Done => say(out, "ok"),
        Reply::Count(count) => say_number(out, u64::from(count)),
        Reply::Fault(fault) => say_fault(out, fault),
        Reply::Outside => Err(Stop::Line),
    }
}

/// Writes the calls of the log, which is empty then.
fn say_log(alloc: Global, log: &Log, out: &mut String) -> Answer {
    match log.try_borrow_mut() {
        Ok(mut calls) => {
            let said = say_calls(alloc, calls.as_slice(), out);
            calls.clear();
            said
        }
        Err(_) => Err(Stop::Line),
    }
}

fn say_calls(alloc: Global, calls: &[DeviceCall], out: &mut String) -> Answer {
    let mut first = true;
    for call in calls {
        say(out, if first { " by " } else { ", " })?;
        say_device_call(alloc, *call, out)?;
        first = false;
    }
    Ok(())
}

fn say_device_call(alloc: Global, call: DeviceCall, out: &mut String) -> Answer {
    match call {
        DeviceCall::Sync => say(out, "sync"),
        DeviceCall::Read(n) => {
            say(out, "read ")?;
            say_number(out, u64::from(n))
        }
        DeviceCall::Write(n, bytes) => {
            say(out, "write ")?;
            say_number(out, u64::from(n))?;
            say(out, " ")?;
            say_bytes(alloc, out, &bytes)
        }
    }
}
