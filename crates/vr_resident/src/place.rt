//! A place for a frame, and what it holds.
ghost use Rattle.std.specs.Prelude.{◌≡◌, ◌≤◌, ◌<◌, IsTrue, OnOk, length, take};
ghost use Rattle.vr_types.specs.Image.{block_at};
ghost use Rattle.vr_types.specs.Blocks.{Keeps};
ghost use Rattle.vr_types.specs.Faults.{CountsRead};

use vr_device::BlockDevice;
use vr_frames::Frame;
use vr_types::Failed;

/// A buffer for a block: one of the cache's own, or a frame of the pool.
#[derive(Drop)]
pub enum Buffer {
    Own(Vec<u8>),
    Shared(Frame),
}

/// What a place of the table holds: no frame, a frame without a block, or a block, which is changed
/// where it was put since it was last written.
#[derive(Drop)]
pub enum Place {
    Bare,
    Empty(Buffer),
    Taken(u32, bool, Buffer),
}

/// What a search of the places looks for.
#[derive(Clone, Copy)]
pub enum Sought {
    /// The place of a block.
    Block(u32),
    /// The place of a block, where that is changed.
    ChangedBlock(u32),
    /// A block that is changed.
    Changed,
    /// A block.
    Held,
    /// A frame without a block.
    Empty,
    /// A place without a frame.
    Bare,
    /// A frame of the pool.
    Shared,
    /// A frame of the pool whose block, if it holds one, isn't changed.
    Free,
}

/// Writes a block to the first bytes.
fn write_start(bytes: &mut [u8], block: &[u8])
    requires { length block.now ≤ length bytes.old }
    ensures block { take (length block.now) bytes.new ≡ block.now }
    ensures long { length bytes.new ≡ length bytes.old }
{
    bytes[..block.len()].copy_from_slice(block);
}

/// Reads a block of a device into the first bytes.
fn read_start<D: BlockDevice>(
    device: &mut D,
    n: u32,
    size: u32,
    bytes: &mut [u8],
) -> Result<(), Failed>
    requires block { n < (D.seen device.old).count }
    requires size { size ≡ (D.seen device.old).size }
    requires room { size ≤ length bytes.old }
    ensures bytes { IsTrue D.tells → OnOk result
        (take size bytes.new ≡ block_at (D.seen device.old).cur n) }
    ensures long { length bytes.new ≡ length bytes.old }
    ensures after { Keeps D.tells (D.seen device.old) (D.seen device.new) }
    ensures fault { CountsRead (D.faults device.old) (D.faults device.new) result }
{
    device.read(n, &mut bytes[..size as usize])
}

impl Buffer {
    ghost use Rattle.vr_resident.specs.Places.{bytes_in, block_in, is_shared};
    ghost use Rattle.vr_resident.specs.Refill.{IsSameBuffer};

    /// Whether it is a frame of the pool.
    pub(crate) fn is_shared(&self) -> bool
        ensures { result ≡ is_shared self.now }
    {
        match self {
            Buffer::Own(_) => false,
            Buffer::Shared(_) => true,
        }
    }

    /// The block in it.
    pub(crate) fn block(&self, size: u32) -> &[u8]
        requires { size ≤ length (bytes_in self.now) }
        ensures { result.now ≡ block_in size self.now }
    {
        match self {
            Buffer::Own(bytes) => &bytes[..size as usize],
            Buffer::Shared(frame) => &frame.bytes()[..size as usize],
        }
    }

    /// Writes a block to it.
    pub(crate) fn fill(&mut self, block: &[u8])
        requires { length block.now ≤ length (bytes_in self.old) }
        ensures block { block_in (length block.now) self.new ≡ block.now }
        ensures same { IsSameBuffer self.old self.new }
    {
        match self {
            Buffer::Own(bytes) => write_start(bytes, block),
            Buffer::Shared(frame) => write_start(frame.bytes_mut(), block),
        }
    }

    /// Reads a block of a device into it.
    pub(crate) fn read<D: BlockDevice>(
        &mut self,
        device: &mut D,
        n: u32,
        size: u32,
    ) -> Result<(), Failed>
        requires block { n < (D.seen device.old).count }
        requires size { size ≡ (D.seen device.old).size }
        requires room { size ≤ length (bytes_in self.old) }
        ensures same { IsSameBuffer self.old self.new }
        ensures bytes { IsTrue D.tells → OnOk result
            (block_in size self.new ≡ block_at (D.seen device.old).cur n) }
        ensures after { Keeps D.tells (D.seen device.old) (D.seen device.new) }
        ensures fault { CountsRead (D.faults device.old) (D.faults device.new) result }
    {
        match self {
            Buffer::Own(bytes) => read_start(device, n, size, bytes),
            Buffer::Shared(frame) => read_start(device, n, size, frame.bytes_mut()),
        }
    }
}

impl Place {
    ghost use Rattle.std.specs.Prelude.{length};
    ghost use Rattle.vr_resident.specs.Places.{fits, buffers_at};

    /// How many buffers it has.
    pub(crate) fn buffers(&self) -> u32
        ensures { result ≡ length (buffers_at self.now) }
    {
        match self {
            Place::Bare => 0,
            _ => 1,
        }
    }

    /// Whether the place is one that is looked for.
    pub(crate) fn fits(&self, sought: Sought) -> bool
        ensures { result ≡ fits sought self.now }
    {
        match (sought, self) {
            (Sought::Block(n), Place::Taken(block, _, _)) => *block == n,
            (Sought::ChangedBlock(n), Place::Taken(block, changed, _)) => *changed && *block == n,
            (Sought::Changed, Place::Taken(_, changed, _)) => *changed,
            (Sought::Held, Place::Taken(_, _, _)) => true,
            (Sought::Empty, Place::Empty(_)) => true,
            (Sought::Bare, Place::Bare) => true,
            (Sought::Shared, Place::Empty(buffer)) => buffer.is_shared(),
            (Sought::Shared, Place::Taken(_, _, buffer)) => buffer.is_shared(),
            (Sought::Free, Place::Empty(buffer)) => buffer.is_shared(),
            (Sought::Free, Place::Taken(_, changed, buffer)) => !*changed && buffer.is_shared(),
            _ => false,
        }
    }
}
