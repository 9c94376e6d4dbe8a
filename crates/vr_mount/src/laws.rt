//! Laws of headers.
ghost use Rattle.std.specs.Prelude.{◌≡◌, ◌≤◌, ℕ, Some};
ghost use Rattle.vr_types.specs.Geometry.{IsAllowed};
ghost use Rattle.vr_types.specs.declared.geometry.Geometry.{Geometry};
ghost use Rattle.vr_attach.specs.Header.{header_block};
ghost use Rattle.vr_mount.specs.Header.{version_in};

/// A block is the header of one shape and number at most.
pub fn one_header()
    ensures shape { (one other : Geometry) (number to : ℕ) → IsAllowed one → IsAllowed other
        → header_block one number ≡ header_block other to → one ≡ other }
    ensures number { (one other : Geometry) (number to : ℕ) → number ≤ 99 → to ≤ 99
        → header_block one number ≡ header_block other to → number ≡ to }
{}

/// A header states version 1, so that no block both is a header and states another version.
pub fn header_version()
    ensures { (geometry : Geometry) (number : ℕ)
        → version_in (header_block geometry number) ≡ Some 1 }
{}
