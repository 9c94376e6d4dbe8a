//! The order of buffers: the one that was used last is the first.
ghost use Rattle.std.specs.Prelude.{◌≡◌, ◌<◌, map, length};
ghost use Rattle.vr_recent.specs.Buffers.{forgot, fronted, place_of, place_for};

use crate::buffer::Buffer;

/// The place of the buffer that holds block `n`.
pub(crate) fn place_of(buffers: &[Buffer], n: u32) -> Option<usize>
    ensures { result ≡ place_of n buffers.now }
{
    buffers.iter().position(|buffer| buffer.holds(n))
}

/// The place of the buffer that holds block `n`, or where none does, of the one that was used least
/// recently.
pub(crate) fn place_for(buffers: &[Buffer], n: u32) -> usize
    requires { 0 < length buffers.now }
    ensures is { result ≡ place_for n buffers.now }
    ensures below { result < length buffers.now }
{
    match place_of(buffers, n) {
        Some(place) => place,
        None => buffers.len() - 1,
    }
}

/// Makes the buffer at this place the first.
pub(crate) fn to_front(buffers: &mut [Buffer], place: usize)
    requires { place < length buffers.old }
    ensures { buffers.new ≡ fronted place buffers.old }
{
    buffers[..place + 1].rotate_right(1);
}

/// No buffer holds block `n` any longer.
pub(crate) fn forget(buffers: &mut [Buffer], n: u32)
    ensures { buffers.new ≡ map (forgot n) buffers.old }
{
    for buffer in buffers.iter_mut() {
        buffer.forget(n);
    }
}
