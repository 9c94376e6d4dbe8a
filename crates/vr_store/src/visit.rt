//! Records of a store, handed to a visitor.
ghost use Rattle.std.specs.Prelude.{◌≡◌, ℕ, List, Option, IfSome, IsErrOf, IsTrue, OnOk};
ghost use Rattle.vr_types.specs.Blocks.{Keeps};
ghost use Rattle.vr_types.specs.Content.{record_at};
ghost use Rattle.vr_types.specs.declared.fault.DeviceFault as faults;
ghost use Rattle.vr_space.specs.Part.{IsOn, IsPlaceOf, Knows, Stands as StandFor, record_read};
ghost use Rattle.vr_history.specs.State.{State};
ghost use Rattle.vr_store.specs.Cause.{HasLookCause};
ghost use Rattle.vr_store.specs.Store.{IsSet, IsStored, Stands, shape_among};
ghost use Rattle.vr_store.specs.Visiting.{after_found};
ghost use Rattle.vr_store.specs.declared.no.LookNo.TheVariants as looks;

use crate::no::LookNo;
use crate::parts::index_of;
use crate::store::Store;
use vr_space::Part;
use vr_trace::RecordVisitor;
use vr_types::{Blocks, PartNo, Place};

impl<P: Part> Store<P> {
    /// Lends the record at a place of a part to a visitor; where there is none, or no such part,
    /// nothing is handed over. `Fault` is the device's, and then nothing is, either; `Memory` says
    /// that the visitor ran out of memory.
    pub fn visit<B: Blocks, R: RecordVisitor>(
        &mut self,
        blocks: &mut B,
        number: PartNo,
        place: &Place,
        visitor: &mut R,
    ) -> Result<(), LookNo>
        requires set { IsSet self.old (B.seen blocks.old) }
        requires place { IfSome (shape_among self.old.parts number.0)
            (λ shape. IsPlaceOf shape place.now) }
        requires stands { IsTrue B.tells → Stands self.old (B.seen blocks.old) }
        ensures found { IsTrue B.tells → OnOk result ((volume : ℕ) (state : State)
            → IsStored volume self.old state (B.seen blocks.old) → visitor.new ≡ after_found R.after
            place.now (record_at (state.contents number.0) place.now) visitor.old) }
        ensures one { OnOk result ((found : Option (List ℕ))
            × (visitor.new ≡ after_found R.after place.now found visitor.old)) }
        ensures none { (fault : faults.DeviceFault) → IsErrOf result (looks.Fault fault)
            → visitor.new ≡ visitor.old }
        ensures same { self.new ≡ self.old }
        ensures keeps { Keeps B.tells (B.seen blocks.old) (B.seen blocks.new) }
        ensures cause { HasLookCause (B.faults blocks.old) (B.faults blocks.new) result }
    {
        match index_of(&self.parts, number) {
            Some(at) => visit_at(blocks, &mut self.parts[at].part, place, visitor),
            None => Ok(()),
        }
    }
}

/// Lends the record at a place of a part to a visitor.
fn visit_at<B: Blocks, P: Part, R: RecordVisitor>(
    blocks: &mut B,
    part: &mut P,
    place: &Place,
    visitor: &mut R,
) -> Result<(), LookNo>
    requires on { IsOn (P.shape part.old) (B.seen blocks.old) }
    requires place { IsPlaceOf (P.shape part.old) place.now }
    requires stands { IsTrue B.tells → StandFor (P.shape part.old) (B.seen blocks.old).cur }
    requires knows { IsTrue B.tells → Knows (P.shape part.old) (P.known part.old)
        (B.seen blocks.old) }
    ensures found { IsTrue B.tells → OnOk result (visitor.new ≡ after_found R.after place.now
        (record_read (P.shape part.old) (B.seen blocks.old).cur place.now) visitor.old) }
    ensures one { OnOk result ((found : Option (List ℕ))
        × (visitor.new ≡ after_found R.after place.now found visitor.old)) }
    ensures none { (fault : faults.DeviceFault) → IsErrOf result (looks.Fault fault)
        → visitor.new ≡ visitor.old }
    ensures shape { P.shape part.new ≡ P.shape part.old }
    ensures known { P.known part.new ≡ P.known part.old }
    ensures keeps { Keeps B.tells (B.seen blocks.old) (B.seen blocks.new) }
    ensures cause { HasLookCause (B.faults blocks.old) (B.faults blocks.new) result }
{
    match P::look(blocks, part, place)? {
        Some(record) => Ok(visitor.visit(place.as_slice(), record)?),
        None => Ok(()),
    }
}
