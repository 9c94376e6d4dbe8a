//! The address that an added record gets in an entry-sequenced data set.
ghost use Rattle.std.specs.Prelude.{◌≡◌};
ghost use Rattle.std.specs.Option.{option_copied};
ghost use Rattle.vr_event.specs.Numbers as numbers;

use vr_space::Part;
use vr_store::Store;
use vr_types::{PartNo, Request};

/// The address of the next record of this length in a part, as the four bytes of a place; None of a
/// part that isn't entry-sequenced. It reads nothing.
fn address_at<P: Part>(store: &Store<P>, part: PartNo, bytes: &[u8]) -> Option<[u8; 4]>
    ensures { result ≡ numbers.address_at store.now.parts part.0 bytes.now }
{
    // No interval has room beside an item for a length that a u32 can't hold, nor for the greatest
    // that it can.
    let length = bytes.len().min(u32::MAX as usize) as u32;
    match store.address(part, length) {
        None => None,
        Some(address) => Some(address.to_be_bytes()),
    }
}

/// The address of the record that a request adds, as the four bytes of a place; None of a request
/// that adds none, and of a part that isn't entry-sequenced. It reads nothing.
pub(crate) fn address_for<P: Part>(
    store: &Store<P>,
    part: PartNo,
    request: &Request,
) -> Option<[u8; 4]>
    ensures { result ≡ numbers.address_for store.now.parts part.0 request.now }
{
    match request {
        Request::Add { bytes, .. } => address_at(store, part, bytes.as_slice()),
        Request::Get { .. } | Request::Point { .. } | Request::Update { .. } => None,
        Request::Erase { .. } | Request::EndReq { .. } => None,
        Request::Commit | Request::Backout => None,
    }
}

/// The bytes of an address, where there is one.
pub(crate) fn place_of(address: &Option<[u8; 4]>) -> Option<&[u8]>
    ensures { option_copied result ≡ address.now }
{
    match address {
        None => None,
        Some(bytes) => Some(bytes.as_slice()),
    }
}
