//! Which part owns each area of a volume.
ghost use Rattle.std.specs.Prelude.{
  ◌≡◌,
  ◌<◌,
  ℕ,
  List,
  length,
  Option,
  Some,
  None,
  IfOk,
  IfSome,
  set,
  option_map,
};
ghost use Rattle.vr_types.specs.Space.{all_free, least_free, free_count, freed, released};

use crate::memory::OutOfMemory;
use crate::unit::{AreaNo, PartNo};
use std::alloc::Global;
use std::marker::Model;

/// The owner of each area of a volume, which is a part or none. An area without an owner is free.
#[derive(Drop)]
pub struct Space {
    owners: Vec<Option<PartNo>>,
}

impl Model for Space {
    ghost use Rattle.std.specs.Prelude.{◌<◌, List, Option, length};
    ghost use Rattle.vr_types.specs.declared.unit.PartNo.{PartNo};

    ghost Value = { List (Option PartNo) };

    ghost view = { λ space. space.owners.items };

    ghost invariant = { λ space. length space.owners.items < 4294967296 };
}

impl Space {
    /// That many areas, each of them free. Fails only if memory runs out.
    pub(crate) fn of(alloc: Global, areas: u32) -> Result<Space, OutOfMemory>
        ensures { IfOk result (λ space. space ≡ all_free areas) }
    {
        let mut owners = Vec::new(alloc);
        owners.resize(areas as usize, None)?;
        Ok(Space { owners })
    }

    /// Gives the part the least free area, and answers it: `None` exactly where no area is free.
    pub fn claim(&mut self, part: PartNo) -> Option<AreaNo>
        ensures least { option_map (λ area. area.0) result ≡ least_free self.old }
        ensures some { IfSome result (λ area. self.new ≡ set self.old area.0 (Some part)) }
        ensures none { result ≡ None → self.new ≡ self.old }
    {
        let area = self.least_free()?;
        self.mark(area, part);
        Some(area)
    }

    /// The least free area, where one is free.
    pub fn least_free(&self) -> Option<AreaNo>
        ensures least { option_map (λ area. area.0) result ≡ least_free self.now }
        ensures below { IfSome result (λ area. area.0 < length self.now) }
    {
        let area = self.first_free()?;
        if area >= self.owners.len() {
            unreachable!("it is one of them")
        }
        Some(AreaNo(area as u32))
    }

    fn first_free(&self) -> Option<usize>
        ensures least { result ≡ least_free self.now }
        ensures below { IfSome result (λ area. area < length self.now) }
    {
        self.owners.iter().position(|owner| owner.is_none())
    }

    /// Makes the part the owner of an area.
    pub fn mark(&mut self, area: AreaNo, part: PartNo)
        requires { area.0 < length self.old }
        ensures { self.new ≡ set self.old area.0 (Some part) }
    {
        self.owners[area.0 as usize] = Some(part);
    }

    /// Makes all areas of the part free.
    pub fn release(&mut self, part: PartNo)
        ensures { self.new ≡ released part self.old }
    {
        free_each(self.owners.as_mut_slice(), part);
    }

    /// How many areas are free.
    pub fn free(&self) -> u32
        ensures { result ≡ free_count self.now }
    {
        self.owners.iter().filter(|owner| owner.is_none()).count() as u32
    }
}

/// The owner of an area, once all areas of the part are free.
fn freed(part: PartNo, owner: Option<PartNo>) -> Option<PartNo>
    ensures { result ≡ freed part owner }
{
    match owner {
        Some(other) if other == part => None,
        kept => kept,
    }
}

/// Makes all areas of the part free.
fn free_each(owners: &mut [Option<PartNo>], part: PartNo)
    ensures { owners.new ≡ released part owners.old }
{
    for owner in owners.iter_mut() {
        *owner = freed(part, *owner);
    }
}
