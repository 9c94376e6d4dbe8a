//! The roster of an area.
ghost use Rattle.std.specs.Prelude.{◌≡◌, ◌≤◌, ◌↔◌, length, drop, IfOk, IfErr, IsOkAnd, IsTrue};
ghost use Rattle.vr_seqset.specs.Roster.{Roster, IsRoster, KeepsRosterRules, block_of_roster};
ghost use Rattle.vr_seqset.specs.Faults.{KeepsRoster, RosterFits, RosterHasZeros, IsFirstBroken};

use crate::checks::begins_with;
use crate::fault::SeqFault;
use std::marker::Model;
use vr_types::{are_zeros, area_field, area_of, four_at, is_block_size, two_at};

/// The roster of an area of an entry-sequenced or relative data set (DFSMS Using Data Sets). A
/// clause sees what it says.
#[derive(Drop)]
pub struct RosterView<'a> {
    block: &'a [u8],
}

impl<'a> Model for RosterView<'a> {
    ghost use Rattle.std.specs.Prelude.{◌≤◌, length};
    ghost use Rattle.vr_seqset.specs.Roster.{Roster};
    ghost use Rattle.vr_seqset.specs.Reading.{roster_in};

    ghost Value = { Roster };

    ghost view = { λ v. roster_in v.block.now };

    ghost invariant = { λ v. 16 ≤ length v.block.now };
}

#[tactic(auto, unfolding(crate::specs::Reading::roster_in))]
impl<'a> RosterView<'a> {
    /// Reads the head block of an area that has `cis` intervals. It answers `Ok` exactly for the
    /// block of a roster that keeps the rules, and else the first rule that the block breaks.
    #[tactic(auto)]
    pub fn read(bytes: &'a [u8], cis: u16) -> Result<RosterView<'a>, SeqFault>
        // What is read is what the block spells.
        ensures found { IfOk result (λ view. IsRoster cis bytes.now view) }
        // What a block spells is read.
        ensures only { (r : Roster) → IsRoster cis bytes.now r → IsOkAnd result (λ view. view ≡ r) }
        // A fault names the first rule that is broken.
        ensures fault { IfErr result (IsFirstBroken (KeepsRoster cis bytes.now)) }
    {
        if !begins_with(bytes, b'R') {
            return Err(SeqFault::Kind);
        }
        if !fits(bytes, cis) {
            return Err(SeqFault::Lengths);
        }
        let (_, rest) = bytes.split_at(16);
        if !has_zeros(bytes, rest) {
            return Err(SeqFault::Zeros);
        }
        Ok(RosterView { block: bytes })
    }

    /// How many intervals of the area are used.
    pub fn used(&self) -> u16
        ensures { result ≡ self.now.used }
    {
        two_at(self.block, 2)
    }

    /// The number of the part.
    pub fn part(&self) -> u32
        ensures { result ≡ self.now.part }
    {
        four_at(self.block, 8)
    }

    /// The number of the part's next area.
    pub fn next(&self) -> Option<u32>
        ensures { result ≡ self.now.next }
    {
        area_of(four_at(self.block, 12))
    }
}

/// Whether the block has an allowed size, and no more intervals are used than there are.
#[tactic(auto, unfolding(crate::specs::Reading::roster_in), using(vr_types::proofs::CallerLemmas::block_size_least))]
fn fits(block: &[u8], cis: u16) -> bool
    ensures { IsTrue result ↔ RosterFits cis block.now }
{
    is_block_size(block.len()) && two_at(block, 2) <= cis
}

/// Whether each byte without a name is zero, where `rest` is what comes after the fields.
fn has_zeros(block: &[u8], rest: &[u8]) -> bool
    requires size { 16 ≤ length block.now }
    requires rest { rest.now ≡ drop 16 block.now }
    ensures { IsTrue result ↔ RosterHasZeros block.now }
{
    block[1] == 0 && are_zeros(&block[4..8]) && are_zeros(rest)
}

/// Makes the block the roster of an area that has `cis` intervals, whatever it held.
pub fn write_roster(used: u16, part: u32, next: Option<u32>, cis: u16, out: &mut [u8])
    requires { KeepsRosterRules cis (length out.old)
        (record { used = used; part = part; next = next }) }
    ensures { IsRoster cis out.new (record { used = used; part = part; next = next }) }
{
    let u = used.to_be_bytes();
    let p = part.to_be_bytes();
    let n = area_field(next).to_be_bytes();
    let head = [
        b'R', 0, u[0], u[1], 0, 0, 0, 0, p[0], p[1], p[2], p[3], n[0], n[1], n[2], n[3],
    ];
    let (fields, rest) = out.split_at_mut(16);
    fields.copy_from_slice(&head);
    rest.fill(0);
}
