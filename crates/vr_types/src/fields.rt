//! Numbers as they stand in the bytes of a block, high byte first.
ghost use Rattle.std.specs.Prelude.{◌≡◌, ◌+◌, ◌≤◌, ◌↔◌, length, IsTrue};
ghost use Rattle.vr_types.specs.Fields.{two, four, eight, two_at as two_in, four_at as four_in};
ghost use Rattle.vr_types.specs.Fields.{eight_at as eight_in, with_bytes, area_of as area_named};
ghost use Rattle.vr_types.specs.Fields.{area_field as field_of, IsArea, AreZeros};

/// The number in the two bytes at `at`.
#[tactic(auto, unfolding(crate::specs::Fields::two_at))]
pub fn two_at(bytes: &[u8], at: usize) -> u16
    requires { at + 2 ≤ length bytes.now }
    ensures { result ≡ two_in at bytes.now }
{
    u16::from_be_bytes([bytes[at], bytes[at + 1]])
}

/// The number in the four bytes at `at`.
#[tactic(auto, unfolding(crate::specs::Fields::four_at))]
pub fn four_at(bytes: &[u8], at: usize) -> u32
    requires { at + 4 ≤ length bytes.now }
    ensures { result ≡ four_in at bytes.now }
{
    u32::from_be_bytes([bytes[at], bytes[at + 1], bytes[at + 2], bytes[at + 3]])
}

/// The number in the eight bytes at `at`.
#[tactic(auto, unfolding(crate::specs::Fields::eight_at))]
pub fn eight_at(bytes: &[u8], at: usize) -> u64
    requires { at + 8 ≤ length bytes.now }
    ensures { result ≡ eight_in at bytes.now }
{
    u64::from_be_bytes([
        bytes[at],
        bytes[at + 1],
        bytes[at + 2],
        bytes[at + 3],
        bytes[at + 4],
        bytes[at + 5],
        bytes[at + 6],
        bytes[at + 7],
    ])
}

/// Writes a number into the two bytes at `at`.
#[tactic(auto, unfolding(crate::specs::Fields::two))]
pub fn put_two(out: &mut [u8], at: usize, number: u16)
    requires { at + 2 ≤ length out.old }
    ensures { out.new ≡ with_bytes out.old at (two number) }
{
    out[at..at + 2].copy_from_slice(&number.to_be_bytes());
}

/// Writes a number into the four bytes at `at`.
#[tactic(auto, unfolding(crate::specs::Fields::four))]
pub fn put_four(out: &mut [u8], at: usize, number: u32)
    requires { at + 4 ≤ length out.old }
    ensures { out.new ≡ with_bytes out.old at (four number) }
{
    out[at..at + 4].copy_from_slice(&number.to_be_bytes());
}

/// Writes a number into the eight bytes at `at`.
#[tactic(auto, unfolding(crate::specs::Fields::eight))]
pub fn put_eight(out: &mut [u8], at: usize, number: u64)
    requires { at + 8 ≤ length out.old }
    ensures { out.new ≡ with_bytes out.old at (eight number) }
{
    out[at..at + 8].copy_from_slice(&number.to_be_bytes());
}

/// The area that a field names: none at 0, else the one before its number.
pub fn area_of(field: u32) -> Option<u32>
    ensures { result ≡ area_named field }
{
    field.checked_sub(1)
}

/// The field that names an area.
pub fn area_field(area: Option<u32>) -> u32
    requires { IsArea area }
    ensures { result ≡ field_of area }
{
    match area {
        None => 0,
        Some(number) => number + 1,
    }
}

/// Whether each of the bytes is zero.
pub fn are_zeros(bytes: &[u8]) -> bool
    ensures { IsTrue result ↔ AreZeros bytes.now }
{
    // The greatest byte, and no way out before the end: so the compiler takes many bytes at a time.
    let mut most = 0;
    for byte in bytes {
        most = (*byte).max(most);
    }
    most == 0
}
