//! What the holder of a seat knows, and the rule and the steps of the table that the seats are of.
//! All of it is for the proofs.
use atomic_table::{Join, Play, Split, TableRule};
use std::collections::LinkedList;

/// The buffer of a frame.
pub type Buffer = Vec<u8>;

/// What the holder of a seat knows. No value of it is made.
pub struct View {
    /// The size of the pool's frames in bytes.
    pub size: u32,
    /// The seat's parts of the right to know the whole pool.
    pub parts: u32,
    /// The frames that the seat holds.
    pub frames: LinkedList<usize>,
    /// The frame that the seat is bringing out or back, if there is one.
    pub moving: LinkedList<usize>,
    /// The frame of each claim of the seat that found it out.
    pub failed: LinkedList<usize>,
}

/// The rule: a frame is home, or in one holder's hands.
pub struct HomeOrHeld;

impl TableRule<Option<Buffer>, View, u32> for HomeOrHeld {
    ghost use Rattle.vr_frames.specs.Views.{first_view};
    ghost use Rattle.vr_frames.specs.Rule.{IsPoolState};

    ghost holds = { IsPoolState };

    ghost first = { first_view };
}

/// A claim on a frame, which is a compare-exchange on its word.
pub struct Claim;

impl Play<Option<Buffer>, View> for Claim {
    ghost use Rattle.std.specs.Prelude.{◌≡◌, vec_len};
    ghost use Rattle.vr_frames.specs.Plays.{claimed};

    ghost then = { claimed (λ view buffer. vec_len buffer ≡ view.size) };
}

/// The end of a take: the slot goes back empty.
pub struct SlotIn;

impl Play<Option<Buffer>, View> for SlotIn {
    ghost use Rattle.vr_frames.specs.Plays.{brought};

    ghost then = { brought };
}

/// The start of a give: the empty slot is fetched.
pub struct SlotOut;

impl Play<Option<Buffer>, View> for SlotOut {
    ghost use Rattle.vr_frames.specs.Plays.{fetched};

    ghost then = { fetched };
}

/// The end of a give: the slot goes back with the buffer, and the word says home.
pub struct Release;

impl Play<Option<Buffer>, View> for Release {
    ghost use Rattle.vr_frames.specs.Plays.{released};

    ghost then = { released };
}

/// One part goes to a new seat.
pub struct OnePart;

impl Split<View> for OnePart {
    ghost use Rattle.vr_frames.specs.Views.{one_less, newcomer};

    ghost left = { one_less };

    ghost right = { newcomer };
}

/// All that two seats have goes to one of them.
pub struct Together;

impl Join<View> for Together {
    ghost use Rattle.vr_frames.specs.Views.{joined, nobody};

    ghost both = { joined };

    ghost spent = { nobody };
}
