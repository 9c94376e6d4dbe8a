//! A control interval whose records are borrowed from its block.

ghost use Rattle.std.specs.Prelude.{◌≡◌, ◌≤◌, ◌<◌, length, map, slice_get, IfOk, IfErr, ℕ};

use crate::records::Records;
use crate::walk::records_found;
use std::marker::Model;
use vr_ci_match::{CiFault, Form, Found, Shape, match_block};
use vr_types::is_block_size;

/// A block that is a control interval. Contracts see its value: shape, items and busy flag. A
/// segment is one item, and an end of file has none.
#[derive(Drop)]
pub struct CiView<'a> {
    bytes: &'a [u8],
    shape: Shape,
    busy: bool,
    count: usize,
    low: usize,
}

impl<'a> Model for CiView<'a> {
    ghost use Rattle.vr_ci.specs.Interval.{Interval};

    ghost Value = { Interval };

    ghost use Rattle.vr_ci.specs.Reading.{value_in, IsView};

    ghost view = { λ v. value_in v.bytes.now v.low v.shape v.busy };

    ghost invariant = { λ v. IsView v.bytes.now v.low v.shape v.count };
}

impl<'a> CiView<'a> {
    ghost use Rattle.vr_ci.specs.Interval.{Interval, IsInterval, bytes_of, live_of};
    ghost use Rattle.vr_ci.specs.FirstFault.{IsFirstFault};
    ghost use Rattle.vr_ci.specs.Reading.{CountFits, IsView, value_in};

    /// Reads a block in one pass. It answers Ok exactly for the control intervals of the form, and
    /// otherwise the first fault. The form says how records are spelled; segments and an end of
    /// file are the same in both.
    pub fn read(form: Form, bytes: &'a [u8]) -> Result<CiView<'a>, CiFault>
        // What is read is the block's value.
        ensures ok { IfOk result (IsInterval form bytes.now) }
        // A block that is refused has none.
        ensures only { IfErr result
            (λ fault. (value : Interval) → IsInterval form bytes.now value → ⊥) }
        // Which fault it is, and where.
        ensures fault { IfErr result (IsFirstFault form bytes.now) }
    {
        if !is_block_size(bytes.len()) {
            return Err(CiFault::Size { at: 0 });
        }
        if let Some(found) = records_found(form, bytes) {
            return Ok(CiView::of(bytes, found));
        }
        let found = match_block(form, bytes)?;
        Ok(CiView::of(bytes, found))
    }

    /// The view of a block that was found to hold this.
    fn of(bytes: &'a [u8], found: Found) -> CiView<'a>
        requires { IsView bytes.now found.low found.shape found.count }
        ensures { result ≡ value_in bytes.now found.low found.shape found.busy }
    {
        CiView {
            bytes,
            shape: found.shape,
            busy: found.busy,
            count: found.count,
            low: found.low,
        }
    }

    /// What the block holds.
    pub fn shape(&self) -> Shape
        ensures { result ≡ self.now.shape }
    {
        self.shape
    }

    /// The busy flag.
    pub fn busy(&self) -> bool
        ensures { result ≡ self.now.busy }
    {
        self.busy
    }

    /// How many items the block has: its records or slots, 1 for a segment, 0 for an end of file.
    pub fn count(&self) -> usize
        ensures count { result ≡ length self.now.items }
        ensures whole { CountFits self.now.shape result }
    {
        self.count
    }

    /// The bytes of item `i`, borrowed from the block. It walks over the items before it; `iter`
    /// visits over all.
    pub fn item(&self, i: usize) -> &'a [u8]
        requires { i < length self.now.items }
        ensures { slice_get (map bytes_of self.now.items) i ≡ Some result.now }
    {
        match self.iter().nth(i) {
            Some((bytes, _)) => bytes,
            None => unreachable!(),
        }
    }

    /// Whether item `i` is live: a withdrawn record and an empty slot are not.
    pub fn live(&self, i: usize) -> bool
        requires { i < length self.now.items }
        ensures { slice_get (map live_of self.now.items) i ≡ Some result }
    {
        match self.iter().nth(i) {
            Some((_, live)) => live,
            None => unreachable!(),
        }
    }

    /// The items with their live marks, in order, at a constant cost for each: those that `item`
    /// and `live` give.
    pub fn iter(&self) -> Records<'a>
        ensures { result ≡ self.now.items }
    {
        Records::of(self.bytes, self.low)
    }
}
