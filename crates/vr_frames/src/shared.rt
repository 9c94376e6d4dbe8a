//! The pool as threads share it.
ghost use Rattle.std.specs.Prelude.{◌≡◌, ◌+◌};

use crate::closing::{count_home, empty};
use crate::frame::Frame;
use crate::seat::FrameSeat;
use crate::view::{Buffer, Claim, HomeOrHeld, OnePart, Release, SlotIn, SlotOut, Together, View};
use atomic_table::{Seat, Table};
use std::alloc::Global;
use std::snapshot::Snapshot;

type Place = Seat<Option<Buffer>, View>;

/// Buffer frames of one size, which all volumes share. Threads call it through a `&`, each with a
/// seat of its own.
#[derive(Drop)]
pub struct Pool {
    pub(crate) table: Table<Option<Buffer>, View, u32, HomeOrHeld, Global>,
    pub(crate) frames: u32,
    ghost counts: { (table.shared.table_id.slots ≡ frames)
        × (table.shared.table_id.words ≡ frames + 1) },
}

impl Pool {
    ghost use Rattle.std.specs.Prelude.{◌<◌, ◌≤◌, IfSome, IfNone, MatchBool, vec_len, length};
    ghost use Rattle.vr_frames.specs.Frames.{frame_count, frame_size, number_of, frames_of};
    ghost use Rattle.vr_frames.specs.Frames.{parts_of, Holds, IsSeatOf, IsFrameOf, IsSameSeat};
    ghost use Rattle.vr_frames.specs.Frames.{Gets, FindsAllOut, Returns, GivesPart, IsNewSeat};
    ghost use Rattle.vr_frames.specs.Frames.{HasBoth};
    ghost use Rattle.vr_frames.specs.Search.{IsIdle, Carries, Missed, MissedSome, Tried, Won};
    ghost use Rattle.vr_frames.specs.Search.{Brought};

    /// Takes a frame that is home. `None` comes only where each frame of the pool, at a step of
    /// this call on its own word, was out. The seat is of this pool.
    pub fn take(&self, seat: &mut FrameSeat) -> Option<Frame>
        requires { IsSeatOf self.now seat.old }
        ensures same { IsSameSeat seat.old seat.new }
        ensures of_pool { IsSeatOf self.now seat.new }
        ensures parts { parts_of seat.new ≡ parts_of seat.old }
        ensures frame { IfSome result (IsFrameOf self.now) }
        ensures some { IfSome result (λ frame. Gets seat.old frame seat.new) }
        ensures none { IfNone result (FindsAllOut self.now seat.old seat.new) }
    {
        let number = self.claim_first(&mut seat.place, seat.next)?;
        let buffer = self.bring_out(&mut seat.place, number);
        seat.next = number + 1;
        Some(Frame {
            number,
            buffer,
            origin: Snapshot::of(self),
        })
    }

    /// Gives back a frame that was taken from this pool with this seat, or with one that was joined
    /// into it. From then on any thread may take it.
    pub fn give(&self, seat: &mut FrameSeat, frame: Frame)
        requires seat { IsSeatOf self.now seat.old }
        requires frame { IsFrameOf self.now frame }
        requires held { Holds seat.old (number_of frame) }
        ensures same { IsSameSeat seat.old seat.new }
        ensures of_pool { IsSeatOf self.now seat.new }
        ensures parts { parts_of seat.new ≡ parts_of seat.old }
        ensures given { Returns seat.old frame seat.new }
    {
        let Frame {
            number,
            buffer,
            origin: _,
        } = frame;
        let shared = &self.table.shared;
        shared.load::<SlotOut>(&mut seat.place, number);
        drop(shared.exchange(&mut seat.place, number, Some(buffer)));
        shared.store::<Release>(&mut seat.place, number, 0);
    }

    /// A new seat, which takes one part of this one. It has no frame.
    pub fn split(&self, seat: &mut FrameSeat) -> FrameSeat
        requires seat { IsSeatOf self.now seat.old }
        requires parts { 1 < parts_of seat.old }
        ensures same { IsSameSeat seat.old seat.new }
        ensures of_pool { IsSeatOf self.now seat.new }
        ensures left { GivesPart seat.old seat.new }
        ensures new_of_pool { IsSeatOf self.now result }
        ensures new_seat { IsNewSeat result }
    {
        let next = seat.next;
        let place = self.table.shared.split_seat::<OnePart>(&mut seat.place);
        FrameSeat { place, next }
    }

    /// Gives one seat all that another has: its parts and its frames. Both seats are of this pool.
    pub fn join(&self, seat: &mut FrameSeat, other: FrameSeat)
        requires seat { IsSeatOf self.now seat.old }
        requires other { IsSeatOf self.now other }
        ensures same { IsSameSeat seat.old seat.new }
        ensures of_pool { IsSeatOf self.now seat.new }
        ensures both { HasBoth seat.old other seat.new }
    {
        let FrameSeat { place, next: _ } = other;
        self.table
            .shared
            .join_seat::<Together>(&mut seat.place, place);
    }

    /// Ends the pool, and answers how many frames were home: at most those that the seat doesn't
    /// hold, and exactly those where the seat has all 1,024 parts, so that no other seat is left.
    /// Of a seat with fewer parts the pool can't know more: frames that other seats hold count as
    /// out.
    pub fn close(self, seat: FrameSeat) -> u32
        requires { IsSeatOf self seat }
        ensures most { result + length (frames_of seat) ≤ frame_count self }
        ensures last { parts_of seat ≡ 1024 → result + length (frames_of seat) ≡ frame_count self }
    {
        let FrameSeat { place, next: _ } = seat;
        let frames = self.frames;
        let Pool { table, frames: _ } = self;
        let closed = table.close_with(place);
        let home = count_home(&closed, frames);
        empty(closed);
        home
    }

    /// Claims a frame whose word says home: the first from `start` on, or else the first before it.
    fn claim_first(&self, place: &mut Place, start: usize) -> Option<usize>
        requires idle { IsIdle self.now place.old }
        requires start { start ≤ frame_count self.now }
        ensures none { IfNone result (Tried place.old place.new 0 (frame_count self.now)) }
        ensures some { IfSome result (λ number.
            Won place.old place.new number
            × MissedSome place.old place.new
            × (number < frame_count self.now)) }
    {
        match self.claim_within(place, start, self.frames as usize) {
            Some(number) => Some(number),
            None => self.claim_within(place, 0, start),
        }
    }

    /// Claims the first frame from `from` up to `to` whose word says home.
    fn claim_within(&self, place: &mut Place, from: usize, to: usize) -> Option<usize>
        requires idle { IsIdle self.now place.old }
        requires range { (from ≤ to) × (to ≤ frame_count self.now) }
        ensures none { IfNone result (Tried place.old place.new from to) }
        ensures some { IfSome result (λ number.
            Won place.old place.new number
            × Missed place.old place.new from number
            × (from ≤ number)
            × (number < to)) }
    {
        for number in from..to {
            if self.claim(place, number) {
                return Some(number);
            }
        }
        None
    }

    /// One claim. It fails where the frame is out.
    fn claim(&self, place: &mut Place, number: usize) -> bool
        requires idle { IsIdle self.now place.old }
        requires number { number < frame_count self.now }
        ensures { MatchBool result
            (Won place.old place.new number × Missed place.old place.new number number)
            (Tried place.old place.new number (number + 1)) }
    {
        let found = self
            .table
            .shared
            .compare_exchange::<Claim>(place, number, 0, 1);
        found == 0
    }

    /// The buffer of a claimed frame. Its slot goes back empty.
    fn bring_out(&self, place: &mut Place, number: usize) -> Buffer
        requires { Carries self.now place.old number }
        ensures whole { vec_len result ≡ frame_size self.now }
        ensures brought { Brought place.old place.new number }
    {
        let shared = &self.table.shared;
        let buffer = shared.exchange(place, number, None).unwrap();
        shared.load::<SlotIn>(place, number);
        buffer
    }
}
