//! The cache that lines speak of.

use crate::answers::{Answer, Stop, say, say_fault, say_number};
use crate::cache::{Cache, Closed, Refused};
use crate::calls::{Call, Reply};
use crate::making::{Recorded, Setup, new_cache};
use crate::recorder::Log;
use crate::words::{long_number, number, split};
use std::alloc::Global;
use std::mem;
use vr_device::MemoryDevice;
use vr_resident::ResidentWhy;

/// What the lines before left.
#[derive(Drop)]
pub enum Held {
    Nothing,
    Cache(Cache<Recorded>),
    /// The device of a cache that was closed.
    Device(Recorded),
}

impl Held {
    /// Makes this what is held.
    fn set(&mut self, new: Held) {
        *self = new;
    }

    /// The cache, taken out.
    fn take(&mut self) -> Result<Cache<Recorded>, Stop> {
        match mem::replace(self, Held::Nothing) {
            Held::Cache(cache) => Ok(cache),
            _ => Err(Stop::Line),
        }
    }

    /// Makes a call of the cache.
    pub fn call(&mut self, call: Call<'_>) -> Result<Reply, Stop> {
        match self {
            Held::Cache(cache) => Ok(cache.call(call)),
            _ => Err(Stop::Line),
        }
    }

    /// The device of the cache that was closed.
    pub fn device(&self) -> Result<&MemoryDevice, Stop> {
        match self {
            Held::Device(device) => Ok(device.device()),
            _ => Err(Stop::Line),
        }
    }
}

/// Makes a cache: `FRAMES FAILS`, how many frames the pool has, and which call of the device fails,
/// if one does.
pub fn make(
    alloc: Global,
    log: &Log,
    held: &mut Held,
    own: bool,
    rest: &str,
    out: &mut String,
) -> Answer {
    let (frames, fails) = split(rest);
    let frames = number(frames)?;
    let fails = long_number(fails)?;
    held.set(Held::Nothing);
    let setup = Setup {
        own,
        frames,
        fails,
        stop: u64::MAX,
    };
    hold(new_cache(alloc, setup, log)?, held, out)
}

/// Holds the cache, if one was made.
fn hold(made: Result<Cache<Recorded>, Refused>, held: &mut Held, out: &mut String) -> Answer {
    match made {
        Ok(cache) => {
            held.set(Held::Cache(cache));
            say(out, "ok")
        }
        Err(refused) => say_refused(refused, out),
    }
}

fn say_refused(refused: Refused, out: &mut String) -> Answer {
    match refused.why {
        ResidentWhy::Memory => Err(Stop::Memory),
        ResidentWhy::NoFrames { got } => {
            say(out, "no frames ")?;
            say_number(out, u64::from(got))?;
            say_home(refused.home, out)
        }
    }
}

/// Writes how many frames of the pool are home.
fn say_home(home: u32, out: &mut String) -> Answer {
    say(out, ", home ")?;
    say_number(out, u64::from(home))
}

/// Closes the cache, and writes its fault, and how many frames of the pool are home.
pub fn close(held: &mut Held, out: &mut String) -> Answer {
    let closed = held.take()?.close();
    let Closed {
        device,
        fault,
        home,
    } = closed;
    held.set(Held::Device(device));
    match fault {
        None => say(out, "ok")?,
        Some(fault) => say_fault(out, fault)?,
    }
    say_home(home, out)
}
