//! Which source or sink a question asks.

use crate::stream_calls::{READ_LIMIT, TEXT, read_all, say_taken, write_all};
use crate::streams::{Reader, Writer};
use std::alloc::Global;
use std::fs::{File, Files};
use vr_case_table::{Answer, Answers, Stop, long_of, parted, size_of};
use vr_outside::{
    FileSource, MemorySink, MemorySource, StdSink, StdSource, SteadySink, SteadySource,
};

/// Writes the answer to a line.
pub fn answer<R: Files<File = File>>(rt: &R, line: &str, out: &mut Answers) -> Answer {
    let alloc = out.alloc();
    let (verb, rest) = parted(line);
    match verb {
        "source" => source(alloc, rest, out),
        "sink" => sink(alloc, rest, out),
        "steady" => steady(alloc, out),
        "reader" => reader(alloc, rest, out),
        "writer" => writer(alloc, rest, out),
        "file" => file(rt, rest, out),
        _ => Err(Stop::Line),
    }
}

/// A source in memory: `MOST FAILING`.
fn source(alloc: Global, rest: &str, out: &mut Answers) -> Answer {
    let (most, failing) = parted(rest);
    let most = size_of(most)?;
    if most == 0 {
        return Err(Stop::Line);
    }
    let bytes = Vec::from_slice(alloc, TEXT.as_bytes())?;
    let failing = calls_of(alloc, failing)?;
    let mut source = MemorySource::new(bytes, failing).in_pieces(most);
    read_all(&mut source, READ_LIMIT, out);
    out.say_number(" left ", source.left().len() as u64);
    out.say_number(" faults ", source.fault_count());
    Ok(())
}

/// A sink in memory: `MOST FAILING IDLE`.
fn sink(alloc: Global, rest: &str, out: &mut Answers) -> Answer {
    let (most, rest) = parted(rest);
    let (failing, idle) = parted(rest);
    let most = size_of(most)?;
    let failing = calls_of(alloc, failing)?;
    let idle = calls_of(alloc, idle)?;
    let mut sink = MemorySink::new(alloc, failing)
        .in_pieces(most)
        .taking_none_at(idle);
    write_all(&mut sink, out);
    say_taken(sink.taken(), out);
    out.say_number(" faults ", sink.fault_count());
    out.say_number(" refused ", sink.refused());
    Ok(())
}

/// The source and the sink that never fail.
fn steady(alloc: Global, out: &mut Answers) -> Answer {
    let mut source = SteadySource::new(Vec::from_slice(alloc, TEXT.as_bytes())?);
    read_all(&mut source, READ_LIMIT, out);
    out.say_number(" left ", source.left().len() as u64);
    out.say(" ");
    write_all(&mut SteadySink, out);
    Ok(())
}

/// A source over a std reader: `FAILING`.
fn reader(alloc: Global, rest: &str, out: &mut Answers) -> Answer {
    let failing = calls_of(alloc, rest)?;
    let mut source = StdSource::new(Reader::new(alloc, failing)?);
    read_all(&mut source, READ_LIMIT, out);
    out.say_number(" faults ", source.fault_count());
    out.say_number(" calls ", source.into_inner().calls());
    Ok(())
}

/// A sink over a std writer, to which the text is written twice: `MOST FAILING`.
fn writer(alloc: Global, rest: &str, out: &mut Answers) -> Answer {
    let (most, failing) = parted(rest);
    let most = size_of(most)?;
    let failing = calls_of(alloc, failing)?;
    let mut sink = StdSink::new(Writer::new(alloc, most, failing));
    write_all(&mut sink, out);
    out.say(" ");
    write_all(&mut sink, out);
    out.say_number(" faults ", sink.fault_count());
    let writer = sink.into_inner();
    out.say_number(" calls ", writer.calls());
    say_taken(writer.taken(), out);
    Ok(())
}

/// A source over a file of the host: `PATH MOST`, the most reads.
fn file<R: Files<File = File>>(rt: &R, rest: &str, out: &mut Answers) -> Answer {
    let (path, most) = parted(rest);
    let most = size_of(most)?;
    let mut source = FileSource::open(rt, path);
    read_all(&mut source, most, out);
    out.say_number(" faults ", source.fault_count());
    Ok(())
}

/// The numbers of calls: `-`, or numbers with commas between them.
fn calls_of(alloc: Global, word: &str) -> Result<Vec<u64>, Stop> {
    let mut calls = Vec::new(alloc);
    match add_calls(&mut calls, word) {
        Ok(()) => Ok(calls),
        Err(stop) => Err(stop),
    }
}

fn add_calls(calls: &mut Vec<u64>, word: &str) -> Answer {
    if word == "-" {
        return Ok(());
    }
    for part in word.split(',') {
        calls.push(long_of(part)?)?;
    }
    Ok(())
}
