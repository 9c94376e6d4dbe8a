//! What is left of a pool's table, once no thread shares it.
ghost use Rattle.std.specs.Prelude.{◌≡◌, ◌≤◌, ◌==◌, count_by, take};
ghost use Rattle.std.specs.Mem.Slots.{slots_len, slots_items, IsFull};

use crate::view::Buffer;
use atomic_table::Closed;
use std::alloc::Global;

/// How many of the first words say home.
pub(crate) fn count_home(closed: &Closed<Option<Buffer>, Global>, frames: u32) -> u32
    requires full { IsFull closed.now.words }
    requires long { frames ≤ slots_len closed.now.words }
    ensures { result ≡ count_by (λ word. word == 0) (take frames (slots_items closed.now.words)) }
{
    let mut home = 0;
    for number in 0..frames {
        if closed.word(number as usize) == 0 {
            home += 1;
        }
    }
    home
}

/// Drops each buffer, and gives the memory back.
pub(crate) fn empty(mut closed: Closed<Option<Buffer>, Global>)
    requires { IsFull closed.slots }
{
    let mut next = 0;
    while next < closed.slot_count() {
        drop(closed.take(next));
        next += 1;
    }
    closed.free();
}
