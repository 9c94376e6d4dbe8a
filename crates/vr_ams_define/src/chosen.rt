//! The volume on which a cluster is defined.
ghost use Rattle.std.specs.Prelude.{◌≡◌, ◌<◌, IfSome};
ghost use Rattle.vr_ams_define.specs.Chosen as stated;

use vr_types::Bytes;

/// The serial of a volume of this number, without the blank that fills it.
fn short_serial(number: usize) -> [u8; 5]
    ensures { result ≡ stated.short_serial number }
{
    let tens = (number / 10 % 10) as u8;
    let ones = (number % 10) as u8;
    [b'V', b'O', b'L', b'0' + tens, b'0' + ones]
}

/// Whether a cluster may be defined on the volume of this number.
pub(crate) fn may_define_on(volume: &Option<Bytes>, number: usize) -> bool
    ensures { result ≡ stated.may_define_on volume.now number }
{
    match volume {
        None => number == 0,
        Some(text) => {
            text.as_slice() == b"*".as_slice() || text.as_slice() == short_serial(number).as_slice()
        }
    }
}

/// The lowest of this many volumes on which it may.
pub(crate) fn chosen(count: usize, volume: &Option<Bytes>) -> Option<usize>
    ensures lowest { result ≡ stated.chosen count volume.now }
    ensures within { IfSome result (λ number. number < count) }
{
    for number in 0..count {
        if may_define_on(volume, number) {
            return Some(number);
        }
    }
    None
}
