//! The content of a part, as a list.
ghost use Rattle.std.specs.Prelude.{◌≡◌, ◌++◌, ◌∷◌, [], IfOk, OnOk, OnErr, Some, None};
ghost use Rattle.std.specs.Option.{option_copied, option_map};
ghost use Rattle.vr_types.specs.Content.{
  record_of,
  record_at as record_in,
  item_at as item_in,
  with_item as with_item_in,
  without_item as without_item_in,
};
ghost use Rattle.vr_model_state.specs.Items.{item_of};

use std::alloc::Global;
use std::cmp::Ordering;
use std::marker::Model;
use vr_types::{Bytes, OutOfMemory, Place};

/// What is at a place: a record, or the length of an added entry-sequenced record that was backed
/// out.
#[derive(Drop)]
pub enum Stored {
    Standing(Bytes),
    Withdrawn(u64),
}

impl Stored {
    /// An equal value; fails only if memory runs out.
    pub fn copy(&self, alloc: Global) -> Result<Stored, OutOfMemory>
        ensures { IfOk result (λ copy. copy ≡ self.now) }
    {
        match self {
            Stored::Standing(bytes) => Ok(Stored::Standing(bytes.copy(alloc)?)),
            Stored::Withdrawn(length) => Ok(Stored::Withdrawn(*length)),
        }
    }

    /// The record that it is, if it is one.
    pub fn record(&self) -> Option<&[u8]>
        ensures { option_copied result ≡ record_of (item_of self.now) }
    {
        match self {
            Stored::Standing(bytes) => Some(bytes.as_slice()),
            Stored::Withdrawn(_) => None,
        }
    }
}

/// A place, and what is there.
#[derive(Drop)]
pub struct PlacedItem {
    place: Place,
    item: Stored,
}

impl Model for PlacedItem {
    ghost use Rattle.vr_types.specs.Content.{Placed};

    ghost Value = { Placed };

    ghost use Rattle.vr_model_state.specs.Items.{item_of};

    ghost view = { λ placed. (placed.place, item_of placed.item) };
}

impl PlacedItem {
    /// An item at a place.
    pub fn new(place: Place, item: Stored) -> PlacedItem
        ensures { result ≡ (place, item_of item) }
    {
        PlacedItem { place, item }
    }

    /// The place.
    pub fn place(&self) -> &Place
        ensures { result.now ≡ self.now.0 }
    {
        &self.place
    }

    /// What is there.
    pub fn item(&self) -> &Stored
        ensures { item_of result.now ≡ self.now.1 }
    {
        &self.item
    }

    /// An equal value; fails only if memory runs out.
    pub fn copy(&self, alloc: Global) -> Result<PlacedItem, OutOfMemory>
        ensures { IfOk result (λ copy. copy ≡ self.now) }
    {
        Ok(PlacedItem {
            place: self.place.copy(alloc)?,
            item: self.item.copy(alloc)?,
        })
    }
}

/// The content of a part: its items with their places, in order.
#[derive(Drop)]
pub struct PartContent {
    placed: Vec<PlacedItem>,
}

impl Model for PartContent {
    ghost use Rattle.vr_types.specs.Content.{Content};

    ghost Value = { Content };

    ghost view = { λ content. content.placed.items };
}

impl PartContent {
    /// No item, which takes no memory.
    pub fn new(alloc: Global) -> PartContent
        ensures { result ≡ [] }
    {
        PartContent {
            placed: Vec::new(alloc),
        }
    }

    /// The content of these items.
    pub fn from_vec(placed: Vec<PlacedItem>) -> PartContent
        ensures { result ≡ placed.items }
    {
        PartContent { placed }
    }

    /// Adds an item at the end. If memory runs out, nothing changes.
    pub fn push(&mut self, placed: PlacedItem) -> Result<(), OutOfMemory>
        ensures ok { OnOk result (self.new ≡ self.old ++ placed ∷ []) }
        ensures err { OnErr result (self.new ≡ self.old) }
    {
        self.placed.push(placed)?;
        Ok(())
    }

    /// The items with their places.
    pub fn as_slice(&self) -> &[PlacedItem]
        ensures { result.now ≡ self.now }
    {
        self.placed.as_slice()
    }

    /// An equal value; fails only if memory runs out.
    pub fn copy(&self, alloc: Global) -> Result<PartContent, OutOfMemory>
        ensures { IfOk result (λ copy. copy ≡ self.now) }
    {
        Ok(PartContent {
            placed: copy_of_items(alloc, &self.placed)?,
        })
    }
}

/// The record at a place.
pub fn record_in_slice<'a>(placed: &'a [PlacedItem], place: &Place) -> Option<&'a [u8]>
    ensures { option_copied result ≡ record_in placed.now place.now }
{
    match placed {
        [] => None,
        [first, rest @ ..] => match place.cmp(&first.place) {
            Ordering::Equal => first.item.record(),
            _ => record_in_slice(rest, place),
        },
    }
}

/// What stands at a place.
pub fn item_in_slice<'a>(placed: &'a [PlacedItem], place: &Place) -> Option<&'a Stored>
    ensures { option_map item_of (option_copied result) ≡ item_in placed.now place.now }
{
    match placed {
        [] => None,
        [first, rest @ ..] => match place.cmp(&first.place) {
            Ordering::Equal => Some(&first.item),
            _ => item_in_slice(rest, place),
        },
    }
}

/// A list with an element before it.
pub fn prepended<T: Drop>(first: T, rest: Vec<T>) -> Result<Vec<T>, OutOfMemory>
    ensures { IfOk result (λ all. all.items ≡ first ∷ rest.items) }
{
    let mut all = rest;
    all.insert(0, first)?;
    Ok(all)
}

/// A copy of the items.
pub(crate) fn copy_of_items(
    alloc: Global,
    placed: &[PlacedItem],
) -> Result<Vec<PlacedItem>, OutOfMemory>
    ensures { IfOk result (λ copy. copy.items ≡ placed.now) }
{
    let mut copy = Vec::new(alloc);
    for entry in placed {
        copy.push(entry.copy(alloc)?)?;
    }
    Ok(copy)
}

/// The items with one at a place.
pub fn with_item_in_slice(
    alloc: Global,
    placed: &[PlacedItem],
    place: &Place,
    item: Stored,
) -> Result<Vec<PlacedItem>, OutOfMemory>
    ensures { IfOk result (λ new. new.items ≡ with_item_in placed.now place.now (item_of item)) }
{
    let new = PlacedItem::new(place.copy(alloc)?, item);
    match placed {
        [] => prepended(new, Vec::new(alloc)),
        [first, rest @ ..] => match place.cmp(&first.place) {
            Ordering::Less => prepended(new, copy_of_items(alloc, placed)?),
            Ordering::Equal => prepended(new, copy_of_items(alloc, rest)?),
            Ordering::Greater => prepended(
                first.copy(alloc)?,
                with_item_in_slice(alloc, rest, place, new.item)?,
            ),
        },
    }
}

/// The items but the one at a place.
pub fn without_item_in_slice(
    alloc: Global,
    placed: &[PlacedItem],
    place: &Place,
) -> Result<Vec<PlacedItem>, OutOfMemory>
    ensures { IfOk result (λ new. new.items ≡ without_item_in placed.now place.now) }
{
    match placed {
        [] => Ok(Vec::new(alloc)),
        [first, rest @ ..] => {
            let others = without_item_in_slice(alloc, rest, place)?;
            if *place == first.place {
                Ok(others)
            } else {
                prepended(first.copy(alloc)?, others)
            }
        }
    }
}
