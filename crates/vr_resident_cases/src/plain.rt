//! A cache, plainly and slowly: a list of frames, the most recently used first.

use crate::calls::{BLOCKS, Call, Reply};
use crate::plain_disk::PlainDisk;
use std::alloc::{AllocError, Global};
use vr_types::DeviceFault;

/// A block that is held.
#[derive(Clone, Copy)]
struct Block {
    number: u32,
    bytes: [u8; 2],
    changed: bool,
}

/// A frame, and the block in it.
#[derive(Clone, Copy)]
struct Frame {
    own: bool,
    block: Option<Block>,
}

impl Frame {
    /// Whether it holds a block of that number.
    fn holds(&self, number: u32) -> bool {
        match self.block {
            Some(block) => block.number == number,
            None => false,
        }
    }

    /// The block, if it is changed.
    fn changed(&self) -> Option<Block> {
        match self.block {
            Some(block) if block.changed => Some(block),
            _ => None,
        }
    }
}

/// Frames with the most recently used block first and those without a block last, how many frames
/// of the pool are home, and the device.
#[derive(Drop)]
pub struct Plain {
    frames: Vec<Frame>,
    home: u32,
    disk: PlainDisk,
}

impl Plain {
    /// A cache of 16 frames without a block.
    pub fn new(alloc: Global, own: bool, home: u32, disk: PlainDisk) -> Result<Plain, AllocError> {
        let frames = vec![in alloc; Frame { own, block: None }; 16]?;
        Ok(Plain { frames, home, disk })
    }

    /// The device.
    pub fn disk(&self) -> &PlainDisk {
        &self.disk
    }

    /// How many frames of the pool are home.
    pub fn home(&self) -> u32 {
        self.home
    }

    /// Makes a call.
    pub fn call(&mut self, call: Call<'_>) -> Result<Reply, AllocError> {
        match call {
            Call::Get(n) => self.get(n),
            Call::Put(n, bytes) => self.put(n, bytes),
            Call::Force(list) => self.force(list),
            Call::Flush(most) => self.flush(most),
            Call::Give => Ok(Reply::Count(self.give_back())),
        }
    }

    fn get(&mut self, number: u32) -> Result<Reply, AllocError> {
        if number >= BLOCKS {
            return Ok(Reply::Outside);
        }
        if let Some(at) = self.place_of(number) {
            return Ok(self.reply_first(at));
        }
        let Some(at) = self.room()? else {
            return Ok(Reply::Fault(DeviceFault::Write));
        };
        let Some(bytes) = self.disk.read(number)? else {
            return Ok(Reply::Fault(DeviceFault::Read));
        };
        self.fill(at, number, bytes, false);
        Ok(Reply::Bytes(bytes))
    }

    /// Makes the frame at that place the first, and answers the bytes of its block.
    fn reply_first(&mut self, at: usize) -> Reply {
        self.use_frame(at);
        match self.frames.first() {
            Some(
                Frame {
                    own: _,
                    block: Some(block),
                },
            ) => Reply::Bytes(block.bytes),
            _ => Reply::Outside,
        }
    }

    fn put(&mut self, number: u32, bytes: [u8; 2]) -> Result<Reply, AllocError> {
        if number >= BLOCKS {
            return Ok(Reply::Outside);
        }
        let at = match self.place_of(number) {
            Some(at) => Some(at),
            None => self.room()?,
        };
        match at {
            Some(at) => {
                self.fill(at, number, bytes, true);
                Ok(Reply::Done)
            }
            None => Ok(Reply::Fault(DeviceFault::Write)),
        }
    }

    /// The place of the frame that holds a block.
    fn place_of(&self, number: u32) -> Option<usize> {
        self.frames.iter().position(|frame| frame.holds(number))
    }

    /// Makes the frame at that place the first.
    fn use_frame(&mut self, at: usize) {
        if at < self.frames.len() {
            self.frames[..at + 1].rotate_right(1);
        }
    }

    /// Puts a block into the frame at that place, which is the first then.
    fn fill(&mut self, at: usize, number: u32, bytes: [u8; 2], changed: bool) {
        self.set_block(
            at,
            Some(Block {
                number,
                bytes,
                changed,
            }),
        );
        self.use_frame(at);
    }

    fn set_block(&mut self, at: usize, block: Option<Block>) {
        if let Some(frame) = self.frames.get_mut(at) {
            frame.block = block;
        }
    }

    /// The place of a frame without a block, which is the last: one that is there, or a further one
    /// of the pool, or that of the last block, which leaves. `None` where its write failed.
    fn room(&mut self) -> Result<Option<usize>, AllocError> {
        let count = self.frames.len();
        if count == 0 {
            return Ok(None);
        }
        let last = self.frames[count - 1];
        if last.block.is_none() {
            return Ok(Some(count - 1));
        }
        if self.home > 0 && count < 64 {
            self.home -= 1;
            self.frames.push(Frame {
                own: false,
                block: None,
            })?;
            return Ok(Some(count));
        }
        self.evict(count - 1, last)
    }

    /// Writes the block of the frame at that place, if it is changed, and empties the frame.
    fn evict(&mut self, at: usize, last: Frame) -> Result<Option<usize>, AllocError> {
        if let Some(block) = last.changed() {
            if !self.disk.write(block.number, block.bytes)? {
                return Ok(None);
            }
        }
        self.set_block(at, None);
        Ok(Some(at))
    }

    /// Writes the block of the frame at that place, if it is changed, which isn't changed then.
    fn write_out(&mut self, at: usize) -> Result<bool, AllocError> {
        let Some(frame) = self.frames.get(at).copied() else {
            return Ok(true);
        };
        let Some(block) = frame.changed() else {
            return Ok(true);
        };
        if !self.disk.write(block.number, block.bytes)? {
            return Ok(false);
        }
        self.set_block(
            at,
            Some(Block {
                changed: false,
                ..block
            }),
        );
        Ok(true)
    }

    fn force(&mut self, list: &[u32]) -> Result<Reply, AllocError> {
        if !list.iter().all(|n| *n < BLOCKS) {
            return Ok(Reply::Outside);
        }
        if self.write_each(list)? && self.disk.sync()? {
            return Ok(Reply::Done);
        }
        Ok(Reply::Fault(DeviceFault::Write))
    }

    fn write_each(&mut self, list: &[u32]) -> Result<bool, AllocError> {
        for number in list {
            if let Some(at) = self.place_of(*number) {
                if !self.write_out(at)? {
                    return Ok(false);
                }
            }
        }
        Ok(true)
    }

    /// The place of the last changed block.
    fn last_changed(&self) -> Option<usize> {
        let mut last = None;
        for (at, frame) in self.frames.iter().enumerate() {
            if frame.changed().is_some() {
                last = Some(at);
            }
        }
        last
    }

    fn flush(&mut self, most: u32) -> Result<Reply, AllocError> {
        for count in 0..most {
            let Some(at) = self.last_changed() else {
                return Ok(Reply::Count(count));
            };
            if !self.write_out(at)? {
                return Ok(Reply::Fault(DeviceFault::Write));
            }
        }
        Ok(Reply::Count(most))
    }

    /// The place of the last frame of the pool with no changed block.
    fn last_free(&self) -> Option<usize> {
        let mut last = None;
        for (at, frame) in self.frames.iter().enumerate() {
            if !frame.own && frame.changed().is_none() {
                last = Some(at);
            }
        }
        last
    }

    fn give_back(&mut self) -> u32 {
        let spare = self.frames.len().saturating_sub(16).min(64) as u32;
        for count in 0..spare {
            match self.last_free() {
                Some(at) => self.give(at),
                None => return count,
            }
        }
        spare
    }

    fn give(&mut self, at: usize) {
        if at < self.frames.len() {
            let _ = self.frames.remove(at);
            self.home = self.home.saturating_add(1);
        }
    }

    /// Writes every changed block and syncs, up to the first that fails, and gives every frame of
    /// the pool back.
    pub fn close(&mut self) -> Result<Option<DeviceFault>, AllocError> {
        let flushed = self.flush(64)?;
        self.give_all();
        if matches!(flushed, Reply::Count(_)) && self.disk.sync()? {
            return Ok(None);
        }
        Ok(Some(DeviceFault::Write))
    }

    fn give_all(&mut self) {
        for frame in &self.frames {
            if !frame.own {
                self.home = self.home.saturating_add(1);
            }
        }
    }
}
