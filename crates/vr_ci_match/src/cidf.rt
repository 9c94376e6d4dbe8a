//! The CIDF: where the free space of a block is, and whether it is busy.

ghost use Rattle.std.specs.Prelude.{◌≡◌, ◌+◌, ◌-◌, ◌*◌, ◌^◌, ◌<◌, ◌≤◌, ◌↔◌, Bool, IsTrue};
ghost use Rattle.std.specs.Prelude.{MatchOption, length, drop, take, replicate};
ghost use Rattle.vr_ci_match.specs.Compare.{Compares};
ghost use Rattle.vr_ci_match.specs.Laid.{cidf};
ghost use Rattle.vr_ci_match.specs.Fault.{displacement, free_length, free_field, is_busy, cidf_at};
ghost use Rattle.vr_ci_match.specs.Fault.{HasZeroCidf};

use crate::compare::number_apart;

/// The control interval definition field.
#[derive(Clone, Copy)]
pub struct Cidf {
    /// Where the free space begins.
    pub displacement: usize,
    /// How long it is.
    pub free: usize,
    pub busy: bool,
}

impl Cidf {
    /// The CIDF of a block.
    pub fn of(bytes: &[u8]) -> Cidf
        requires { 4 ≤ length bytes.now }
        ensures displacement { result.displacement ≡ displacement bytes.now }
        ensures free { result.free ≡ free_length bytes.now }
        ensures busy { result.busy ≡ is_busy bytes.now }
    {
        let at = bytes.len() - 4;
        let field = u16::from_be_bytes([bytes[at + 2], bytes[at + 3]]);
        Cidf {
            displacement: usize::from(u16::from_be_bytes([bytes[at], bytes[at + 1]])),
            free: usize::from(field % 32_768),
            busy: field >= 32_768,
        }
    }

    /// Whether it is four zero bytes.
    pub(crate) fn is_zero(self) -> bool
        ensures { IsTrue result ↔
            ((self.displacement ≡ 0) × (self.free ≡ 0) × (IsTrue self.busy → ⊥)) }
    {
        self.displacement == 0 && self.free == 0 && !self.busy
    }

    /// The first byte in which it differs from the CIDF of this free space with its own busy flag,
    /// where it stands at `at`.
    pub(crate) fn difference(self, at: usize, displacement: usize, free: usize) -> Option<usize>
        requires place { at + 3 < 2 ^ 64 }
        requires own { self.free < 2 ^ 32 }
        requires small { free < 2 ^ 32 }
        ensures { Compares at (cidf self.displacement self.free self.busy)
            (cidf displacement free self.busy) result }
    {
        if let Some(at) = number_apart(at, self.displacement, displacement) {
            return Some(at);
        }
        let busy = if self.busy { 32_768 } else { 0 };
        number_apart(at + 2, self.free + busy, free + busy)
    }
}
