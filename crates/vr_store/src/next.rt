//! The next record of a part of a store.
ghost use Rattle.std.specs.Prelude.{◌≡◌, IfOk, IsTrue};
ghost use Rattle.vr_types.specs.Blocks.{Keeps};
ghost use Rattle.vr_types.specs.Faults.{HasCause};
ghost use Rattle.vr_store.specs.Next.{HoldsPlaces, IsNextAt};
ghost use Rattle.vr_store.specs.Store.{IsSet, Stands};

use crate::parts::index_of;
use crate::store::Store;
use vr_space::{Part, Whence};
use vr_types::{Blocks, DeviceFault, PartNo, PlaceBuffer};

impl<P: Part> Store<P> {
    /// Gives the least place of a part with a record that `from` allows; false where there is none,
    /// or no such part. A fault is the device's.
    pub fn next<B: Blocks>(
        &mut self,
        blocks: &mut B,
        number: PartNo,
        from: Whence<'_>,
        into: &mut PlaceBuffer,
    ) -> Result<bool, DeviceFault>
        requires set { IsSet self.old (B.seen blocks.old) }
        requires room { HoldsPlaces self.old.parts number.0 into.old.room }
        requires stands { IsTrue B.tells → Stands self.old (B.seen blocks.old) }
        ensures next { IsTrue B.tells → IfOk result (λ found.
            IsNextAt self.old (B.seen blocks.old).cur number.0 from.entry found into.new.place) }
        ensures same { self.new ≡ self.old }
        ensures keeps { Keeps B.tells (B.seen blocks.old) (B.seen blocks.new) }
        ensures cause { HasCause (B.faults blocks.old) (B.faults blocks.new) result }
    {
        match index_of(&self.parts, number) {
            Some(at) => self.parts[at].part.next(blocks, from, into),
            None => Ok(false),
        }
    }
}
