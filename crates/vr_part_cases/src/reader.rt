//! The part of a list of blocks, attached.
ghost use Rattle.std.specs.Prelude.{◌≡◌, ◌+◌, ◌<◌, ◌≤◌, IfOk, IfSome};
ghost use Rattle.vr_types.specs.Space.{all_free};
ghost use Rattle.vr_part_cases.specs.TheParts.{AreOwners, IsListed, the_geometry};

use crate::listed::Listed;
use crate::saying::say_record;
use crate::scope::{OTHER_PART, PART, most_of};
use std::alloc::Global;
use vr_attach::PartNo2;
use vr_case_table::Answers;
use vr_chained::Chained;
use vr_space::{ChainLayout, Part, Whence};
use vr_types::{
    AreaNo, DeviceFault, Geometry, OutOfMemory, PartNo, Place, PlaceBuffer, Space, empty_place,
    space,
};

/// The part, and a place that it gives.
#[derive(Drop)]
pub struct Reader {
    part: Box<Chained>,
    place: PlaceBuffer,
    ghost listed: { IsListed (⟦<Chained as Part>⟧.shape part.value) },
    ghost room: { 4 ≤ place.room },
}

impl Reader {
    /// How many areas it has.
    pub fn areas(&self) -> u32 {
        self.part.areas()
    }

    /// The address of the next record of this length.
    pub fn address(&self, length: u32) -> Option<u32> {
        self.part.address(length)
    }

    /// The number of the least place with a record that is past the last one.
    pub fn next_past(
        &mut self,
        listed: &mut Listed,
        last: Option<u32>,
    ) -> Result<Option<u32>, DeviceFault> {
        let found = match last {
            None => self.part.next(listed, Whence::Start, &mut self.place)?,
            Some(number) => {
                let low = number.to_be_bytes();
                self.part
                    .next(listed, Whence::Above(&low), &mut self.place)?
            }
        };
        Ok(if found {
            number_in(self.place.as_slice())
        } else {
            None
        })
    }

    /// Writes the record at a place, where there is one.
    pub fn say_look(&mut self, listed: &mut Listed, number: u32, place: &Place, out: &mut Answers) {
        if !self.part.may_stand(place, None) {
            return;
        }
        match Chained::look(listed, &mut *self.part, place) {
            Ok(None) => {}
            Ok(Some(record)) => {
                out.say_number(", ", u64::from(number));
                say_record(record, out);
            }
            Err(_) => out.say(", fault"),
        }
    }
}

/// The number of a place of four bytes.
fn number_in(place: &[u8]) -> Option<u32> {
    match place {
        [a, b, c, d] => Some(u32::from_be_bytes([*a, *b, *c, *d])),
        _ => None,
    }
}

/// Where the part is: from this area on. None where that isn't there.
fn layout(first: u32, relative: bool) -> Option<ChainLayout>
    ensures part { IfSome result (λ layout. layout.part ≡ 7) }
    ensures first { IfSome result (λ layout. layout.first ≡ first) }
    ensures geometry { IfSome result (λ layout. layout.geometry ≡ the_geometry) }
{
    let geometry = Geometry {
        size: 512,
        blocks: 8,
        log: 1,
        area: 2,
    };
    if !geometry.is_allowed() || first >= geometry.areas() {
        return None;
    }
    Some(ChainLayout {
        part: PartNo(PART),
        first,
        geometry,
        most: most_of(relative),
        relative,
    })
}

/// Who owns the areas: this one is the part's, and the other one nobody's or another part's.
pub fn owners(alloc: Global, first: u32, taken: bool) -> Result<Space, OutOfMemory>
    requires { first < 2 }
    ensures { IfOk result (λ owners. AreOwners first owners) }
{
    let mut owners = space(alloc, 2)?;
    mark(&mut owners, first, 1 - first, taken);
    Ok(owners)
}

#[tactic(auto, using(crate::proofs::Placing::are_alone, crate::proofs::Placing::are_beside))]
fn mark(owners: &mut Space, first: u32, second: u32, taken: bool)
    requires free { owners.old ≡ all_free 2 }
    requires areas { first + second ≡ 1 }
    ensures { AreOwners first owners.new }
{
    if taken {
        owners.mark(AreaNo(second), PartNo(OTHER_PART));
    }
    owners.mark(AreaNo(first), PartNo(PART));
}

/// The part of a list of blocks.
pub fn attached(
    alloc: Global,
    listed: &mut Listed,
    first: u32,
    relative: bool,
    owners: &mut Space,
) -> Result<Box<Reader>, PartNo2>
    requires { AreOwners first owners.old }
{
    let part = boxed_part(alloc, listed, first, relative, owners)?;
    read_from(alloc, part)
}

/// The part, in a box.
fn boxed_part(
    alloc: Global,
    listed: &mut Listed,
    first: u32,
    relative: bool,
    owners: &mut Space,
) -> Result<Box<Chained>, PartNo2>
    requires { AreOwners first owners.old }
    ensures { IfOk result (λ part. IsListed (⟦<Chained as Part>⟧.shape part.value)) }
{
    match layout(first, relative) {
        Some(layout) => part_in(alloc, listed, layout, owners),
        None => Err(PartNo2::Memory),
    }
}

/// The part of a layout, in a box.
#[tactic(auto, using(crate::proofs::Placing::on_list))]
fn part_in(
    alloc: Global,
    listed: &mut Listed,
    layout: ChainLayout,
    owners: &mut Space,
) -> Result<Box<Chained>, PartNo2>
    requires part { layout.part ≡ 7 }
    requires geometry { layout.geometry ≡ the_geometry }
    requires owners { AreOwners layout.first owners.old }
    ensures { IfOk result (λ part. IsListed (⟦<Chained as Part>⟧.shape part.value)) }
{
    let part = Chained::attach(alloc, listed, layout, owners)?;
    match Box::new(alloc, part) {
        Ok(part) => Ok(part),
        Err(_) => Err(PartNo2::Memory),
    }
}

fn read_from(alloc: Global, part: Box<Chained>) -> Result<Box<Reader>, PartNo2>
    requires { IsListed (⟦<Chained as Part>⟧.shape part.value) }
{
    let place = empty_place(alloc, 4)?;
    match Box::new(alloc, Reader { part, place }) {
        Ok(reader) => Ok(reader),
        Err(_) => Err(PartNo2::Memory),
    }
}
