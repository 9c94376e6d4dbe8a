//! Comparing parts of a block with what they should be.

ghost use Rattle.std.specs.Prelude.{◌≡◌, ◌+◌, ◌-◌, ◌*◌, ◌^◌, ◌<◌, ◌≤◌, false, length, drop, take};
ghost use Rattle.std.specs.Prelude.{replicate, IsTrue, IsSome, IsNone};
ghost use Rattle.vr_ci_match.specs.declared.rdf.Rdf.TheVariants.{Single};
ghost use Rattle.vr_ci_match.specs.Compare.{Compares};
ghost use Rattle.vr_ci_match.specs.Rdf.{two_bytes, rdf_bytes, control};

/// The first byte between the two places that is not zero.
pub(crate) fn first_nonzero(bytes: &[u8], from: usize, to: usize) -> Option<usize>
    requires order { from ≤ to }
    requires within { to ≤ length bytes.now }
    ensures { Compares from (take (to - from) (drop from bytes.now))
        (replicate (to - from) 0) result }
{
    for i in from..to {
        if bytes[i] != 0 {
            return Some(i);
        }
    }
    None
}

/// The first byte that is wrong so far, with one item more: where it is not live its bytes are to
/// be zero.
pub(crate) fn wrong_byte(
    bytes: &[u8],
    wrong: Option<usize>,
    live: bool,
    from: usize,
    to: usize,
) -> Option<usize>
    requires order { from ≤ to }
    requires within { to ≤ length bytes.now }
    ensures kept { IsSome wrong → result ≡ wrong }
    ensures live { IsTrue live → result ≡ wrong }
    ensures zeros { IsNone wrong → (IsTrue live → ⊥)
        → Compares from (take (to - from) (drop from bytes.now)) (replicate (to - from) 0) result }
{
    if wrong.is_some() || live {
        return wrong;
    }
    first_nonzero(bytes, from, to)
}

/// The first of the two bytes from `at` on in which two numbers differ, high byte first.
pub(crate) fn number_apart(at: usize, found: usize, wanted: usize) -> Option<usize>
    requires { at + 1 < 2 ^ 64 }
    ensures { Compares at (two_bytes found) (two_bytes wanted) result }
{
    if found / 256 != wanted / 256 {
        return Some(at);
    }
    if found % 256 != wanted % 256 {
        return Some(at + 1);
    }
    None
}

/// The first of the two bytes from `at` on that differs from the number.
fn number_difference(bytes: &[u8], at: usize, number: usize) -> Option<usize>
    requires { at + 2 ≤ length bytes.now }
    ensures { Compares at (take 2 (drop at bytes.now)) (two_bytes number) result }
{
    let found = u16::from_be_bytes([bytes[at], bytes[at + 1]]);
    number_apart(at, usize::from(found), number)
}

/// The first byte from `from` on that differs from the RDFs of that many empty slots of this
/// length.
pub(crate) fn empty_difference(
    bytes: &[u8],
    from: usize,
    count: usize,
    slot_length: usize,
) -> Option<usize>
    requires { from + 3 * count ≤ length bytes.now }
    ensures { Compares from (take (3 * count) (drop from bytes.now))
        (control (replicate count (Single false slot_length))) result }
{
    for slot in 0..count {
        if let Some(at) = empty_slot_difference(bytes, from + 3 * slot, slot_length) {
            return Some(at);
        }
    }
    None
}

/// The first of the three bytes at `at` that differs from the RDF of an empty slot of this length.
fn empty_slot_difference(bytes: &[u8], at: usize, slot_length: usize) -> Option<usize>
    requires { at + 3 ≤ length bytes.now }
    ensures { Compares at (take 3 (drop at bytes.now))
        (rdf_bytes (Single false slot_length)) result }
{
    if bytes[at] != 4 {
        return Some(at);
    }
    number_difference(bytes, at + 1, slot_length)
}
