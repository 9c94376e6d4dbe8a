//! An entry-sequenced or relative part.
ghost use Rattle.std.specs.Prelude.{◌≡◌, ◌≤◌, ◌↔◌, ℕ, List, [], Some, None, IfOk, IfErr, IfSome};
ghost use Rattle.std.specs.Prelude.{IsTrue, OnOk, All, Contains, length, slice_index_or};
ghost use Rattle.std.specs.Prelude.{vec_capacity};
ghost use Rattle.vr_space.specs.Part.{HasRoom, IsOn, IsPlaceOf, IsRecordOf, NumberedShape, Stands};
ghost use Rattle.vr_space.specs.Part.{given, owned_count, part_no};
ghost use Rattle.vr_types.specs.Blocks.{Keeps};
ghost use Rattle.vr_types.specs.Geometry.{area_count};
ghost use Rattle.vr_types.specs.Image.{Image};
ghost use Rattle.vr_space.specs.Numbered.{IsIntervalMet, IsNumberPlace, IsNumberedLength};
ghost use Rattle.vr_space.specs.Numbered.{IsNumberedOn, KnowsTail, numbered_fits};
ghost use Rattle.vr_types.specs.Faults.{HasCause};
ghost use Rattle.vr_chained.specs.Met.{HasMetPlace, mets_in};
ghost use Rattle.vr_attach.specs.Attached.{HasPartCause};
ghost use Rattle.vr_attach.specs.Marked.{IsTakenIn};
ghost use Rattle.std.specs.Option.{option_map};
ghost use Rattle.vr_chained.specs.Chain.{IsChainOf, IsTailIn};
ghost use Rattle.vr_chained.specs.Setting.{put_of};
ghost use Rattle.vr_chained.specs.Tail.{tail_of};
ghost use Rattle.vr_chained.specs.Walked.{AreChainMarked, IsChainNo};

use crate::chain::{Chain, first_chain};
use crate::extend::extend;
use crate::look::{at_of, look_in};
use crate::meet::{forget, keep, meet, no_mets};
use crate::met::Mets;
use crate::next::next_in;
use crate::number::{number_at, number_in};
use crate::rooms::{have_entries, have_slots};
use crate::set::set_in;
use crate::tail::{Tail, address_of, find_tail, is_next, tail_after};
use crate::walk::walk;
use std::alloc::Global;
use std::marker::Model;
use vr_attach::PartNo2;
use vr_entries::takes_record;
use vr_space::{ChainLayout, Kept, Part, Room, Whence};
use vr_types::{Blocks, DeviceFault, OutOfMemory, PartNo, Place, PlaceBuffer, Space, StageKind};

/// An entry-sequenced or relative part on blocks (DFSMS Using Data Sets): its areas are chained by
/// rosters. The records of a relative one stand in slots of one length, which are numbered from 1;
/// those of an entry-sequenced one follow one another, each at its address in bytes, and one that
/// is taken away is withdrawn. It keeps the areas of its chain, so that no call reads a roster, and
/// where its last item ends; and it has the buffers that its calls need, so that none of them takes
/// memory.
#[derive(Drop)]
pub struct Chained {
    chain: Chain,
    tail: Option<Tail>,
    mets: Mets,
    out: Vec<u8>,
    put: Vec<u32>,
}

impl Model for Chained {
    ghost use Rattle.std.specs.Prelude.{◌≡◌, ◌≤◌, IfSome, vec_len, vec_capacity};
    ghost use Rattle.vr_chained.specs.Met.{AreMetsOf, mets_in};
    ghost use Rattle.vr_chained.specs.Owned.{OwnedChain};
    ghost use Rattle.vr_chained.specs.Chain.{IsTailIn};
    ghost use Rattle.vr_chained.specs.Tail.{tail_of};
    ghost use Rattle.std.specs.Option.{option_map};

    ghost Value = { OwnedChain };

    ghost view = { λ part. record {
      chain = part.chain;
      tail = option_map tail_of part.tail;
      met = mets_in part.mets;
      most = vec_len part.mets.slots;
      put = part.put.items;
    } };

    ghost invariant = { λ part. AreMetsOf part.chain.part part.mets
        × IfSome (option_map tail_of part.tail) (IsTailIn part.chain)
        × (vec_len part.out ≡ part.chain.part.geometry.size)
        × (1 ≤ vec_capacity part.put) };
}

/// Notes the block that was put.
fn note_put(noted: &mut Vec<u32>, put: Option<u32>)
    requires { 1 ≤ vec_capacity noted.old }
    ensures put { noted.new.items ≡ put_of put }
    ensures room { 1 ≤ vec_capacity noted.new }
{
    noted.clear();
    if let Some(number) = put
        && noted.push(number).is_err()
    {
        unreachable!("there is room")
    }
}

/// Whether a record of the part may have this length.
fn is_length(layout: &ChainLayout, length: usize) -> bool
    ensures { IsTrue result ↔ IsNumberedLength layout.now.relative layout.now.most length }
{
    let most = usize::from(layout.most);
    if layout.relative {
        length == most
    } else {
        0 < length && length <= most
    }
}

/// Whether a record of this length fits at a place that was met.
fn fits(chain: &Chain, mets: &Mets, tail: Option<Tail>, place: &[u8], length: u32) -> bool
    requires place { IsNumberPlace chain.now.part place.now }
    requires met { HasMetPlace (mets_in mets.now) place.now }
    requires tail { IfSome (option_map tail_of tail) (IsTailIn chain.now) }
    ensures { (image : Image) → Stands (NumberedShape chain.now.part) image
        → IsChainOf chain.now image → All (IsIntervalMet chain.now.part image) (mets_in mets.now)
        → result ≡ numbered_fits chain.now.part (option_map tail_of tail) image place.now length }
{
    if chain.block_at(place).is_none() {
        return false;
    }
    let layout = chain.layout();
    if layout.relative {
        return true;
    }
    let block = mets.met_at(place).bytes.as_slice();
    let next = is_next(chain, tail, place, length);
    takes_record(layout, block, at_of(chain, place), length, next)
}

/// The part of a chain, with no item and nothing met. It fails only if memory runs out, and takes
/// all that the part needs.
pub fn chained_part(alloc: Global, chain: Chain) -> Result<Chained, OutOfMemory>
    ensures { IfOk result (λ part. part
        ≡ record { chain = chain; tail = None; met = []; most = 2; put = [] }) }
{
    let mets = no_mets(alloc, &chain.layout)?;
    let out = vec![in alloc; 0; chain.layout.geometry.size as usize]?;
    let put = Vec::with_capacity(alloc, 1)?;
    Ok(Chained {
        chain,
        tail: None,
        mets,
        out,
        put,
    })
}

impl Chained {
    /// The number of the part.
    pub fn number(&self) -> PartNo
        ensures { result ≡ part_no (NumberedShape self.now.chain.part) }
    {
        self.chain.layout.part
    }

    /// Whether this may stand at the place: the place has a number of the part, and what is given
    /// is a record of a length that the part's records may have, or none.
    pub fn may_stand(&self, place: &Place, bytes: Option<&[u8]>) -> bool
        ensures { IsTrue result ↔ (IsPlaceOf (NumberedShape self.now.chain.part) place.now
            × IfSome (given bytes.entry)
            (IsRecordOf (NumberedShape self.now.chain.part) place.now)) }
    {
        let layout = &self.chain.layout;
        if number_at(layout, place.as_slice()).is_none() {
            return false;
        }
        match bytes {
            Some(bytes) => is_length(layout, bytes.len()),
            None => true,
        }
    }

    /// The part of a layout, as its blocks stand: with nothing met. It reads each roster of the
    /// chain once, and each interval that is used (the last ones of an entry-sequenced part twice);
    /// and marks the areas of the chain as the part's in `taken`, where its first one is already,
    /// and those of other parts are. `Damaged`: the blocks stand for no content in areas that no
    /// other part has; which block and which rule are shown `vr_attach` says, and areas that were
    /// reached before it stay marked. `Fault` is the device's; `Memory`: there is none for the
    /// part's buffers.
    pub fn attach<B: Blocks>(
        alloc: Global,
        blocks: &mut B,
        layout: ChainLayout,
        taken: &mut Space,
    ) -> Result<Chained, PartNo2>
        requires on { IsOn (NumberedShape layout) (B.seen blocks.old) }
        requires areas { length taken.old ≡ area_count layout.geometry }
        requires first { slice_index_or taken.old layout.first None
            ≡ Some (part_no (NumberedShape layout)) }
        requires alone { owned_count (part_no (NumberedShape layout)) taken.old ≡ 1 }
        ensures part { IfOk result (λ part. part.chain.part ≡ layout) }
        ensures met { IfOk result (λ part. part.met ≡ []) }
        ensures put { IfOk result (λ part. part.put ≡ []) }
        ensures first { IfOk result (λ part. Contains part.chain.areas layout.first) }
        ensures chain { IsTrue B.tells
            → IfOk result (λ part. IsChainOf part.chain (B.seen blocks.old).cur) }
        ensures stands { IsTrue B.tells
            → OnOk result (Stands (NumberedShape layout) (B.seen blocks.old).cur) }
        ensures tail { IsTrue B.tells → IfOk result (λ part. KnowsTail layout.relative layout
            (B.seen blocks.old).cur part.tail) }
        ensures marked { IfOk result (λ part.
            AreChainMarked layout part.chain.areas taken.old taken.new) }
        ensures count { length taken.new ≡ length taken.old }
        ensures damaged { IsTrue B.tells → IfErr result
            (IsChainNo layout (IsTakenIn taken.old) (B.seen blocks.old).cur) }
        ensures keeps { Keeps B.tells (B.seen blocks.old) (B.seen blocks.new) }
        ensures cause { HasPartCause (B.faults blocks.old) (B.faults blocks.new) result }
    {
        let chain = first_chain(alloc, layout)?;
        let mut part = chained_part(alloc, chain)?;
        let out = part.out.as_mut_slice();
        if let Some(damage) = walk(blocks, &mut part.chain, taken, out)? {
            return Err(PartNo2::Damaged {
                block: damage.block,
                rule: damage.rule.number(),
            });
        }
        part.tail = find_tail(&part.chain, blocks)?;
        Ok(part)
    }

    /// Whether each place for which a record is kept has its interval in the chain, and in an
    /// entry-sequenced part an item as long as that record. Of a relative part it reads nothing.
    pub fn has_rooms<B: Blocks, K: Kept>(
        &self,
        blocks: &mut B,
        kept: &K,
    ) -> Result<bool, DeviceFault>
        requires on { IsNumberedOn self.now.chain.part (B.seen blocks.old) }
        requires places { All (λ (entry : List ℕ × ℕ). IsNumberPlace self.now.chain.part entry.0)
            (K.kept kept.now (part_no (NumberedShape self.now.chain.part))) }
        requires stands { IsTrue B.tells
            → Stands (NumberedShape self.now.chain.part) (B.seen blocks.old).cur }
        requires chain { IsTrue B.tells → IsChainOf self.now.chain (B.seen blocks.old).cur }
        ensures rooms { IsTrue B.tells → IfOk result (λ is. IsTrue is
            ↔ HasRoom (NumberedShape self.now.chain.part)
            (K.kept kept.now (part_no (NumberedShape self.now.chain.part)))
            (B.seen blocks.old).cur) }
        ensures keeps { Keeps B.tells (B.seen blocks.old) (B.seen blocks.new) }
        ensures cause { HasCause (B.faults blocks.old) (B.faults blocks.new) result }
    {
        if self.chain.layout.relative {
            Ok(have_slots(&self.chain, kept))
        } else {
            have_entries(&self.chain, blocks, kept)
        }
    }
}

impl Part for Chained {
    ghost use Rattle.vr_space.specs.Part.{NumberedShape};
    ghost use Rattle.vr_chained.specs.Owned.{known_of};

    ghost shape = { λ part. NumberedShape part.chain.part };

    ghost known = { known_of };

    ghost put = { λ part. part.put };

    fn look<'a, B: Blocks>(
        blocks: &'a mut B,
        part: &mut Self,
        place: &Place,
    ) -> Result<Option<&'a [u8]>, DeviceFault> {
        look_in(blocks, &part.chain, place.as_slice())
    }

    fn next<B: Blocks>(
        &mut self,
        blocks: &mut B,
        from: Whence<'_>,
        into: &mut PlaceBuffer,
    ) -> Result<bool, DeviceFault> {
        next_in(&self.chain, blocks, from, into)
    }

    fn keep_places(&mut self, alloc: Global, count: usize) -> Result<(), OutOfMemory> {
        keep(&mut self.mets, alloc, &self.chain.layout, count)
    }

    fn room<B: Blocks, K: Kept>(
        &mut self,
        blocks: &mut B,
        space: &Space,
        _kept: &K,
        place: &Place,
        length: u32,
    ) -> Result<Room, DeviceFault> {
        meet(&mut self.mets, &self.chain, blocks, place.as_slice())?;
        let fits = fits(&self.chain, &self.mets, self.tail, place.as_slice(), length);
        let number = number_in(self.chain.layout(), place.as_slice());
        let interval = self.chain.interval_of(number);
        Ok(self.chain.room(fits, interval, space.free()))
    }

    fn advance<B: Blocks, K: Kept>(
        &mut self,
        blocks: &mut B,
        space: &mut Space,
        _kept: &K,
        _place: &Place,
        _length: u32,
    ) -> Result<StageKind, DeviceFault> {
        let sample = self.mets.sample();
        extend(
            &mut self.chain,
            blocks,
            space,
            sample,
            self.out.as_mut_slice(),
        )?;
        forget(&mut self.mets);
        Ok(StageKind::Extend)
    }

    fn set<B: Blocks, K: Kept>(
        &mut self,
        blocks: &mut B,
        _kept: &K,
        place: &Place,
        bytes: Option<&[u8]>,
    ) -> Result<(), DeviceFault> {
        let put = set_in(
            &mut self.mets,
            &self.chain,
            blocks,
            self.out.as_mut_slice(),
            place.as_slice(),
            bytes,
        )?;
        self.tail = tail_after(&self.chain, self.tail, place.as_slice(), bytes, put);
        note_put(&mut self.put, put);
        Ok(())
    }

    fn address(&self, length: u32) -> Option<u32> {
        if self.chain.layout.relative {
            return None;
        }
        Some(address_of(&self.chain, self.tail, length))
    }

    fn areas(&self) -> u32 {
        self.chain.count()
    }

    fn put_blocks(&self) -> &[u32] {
        self.put.as_slice()
    }
}
