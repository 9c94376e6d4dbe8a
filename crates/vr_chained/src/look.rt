//! Looking at the record at a place.
ghost use Rattle.std.specs.Prelude.{◌≡◌, ◌<◌, Some, None, IsTrue, IfOk, MatchOption};
ghost use Rattle.std.specs.Borrow.{sem};
ghost use Rattle.std.specs.Io.BufRead.{Rests};
ghost use Rattle.vr_types.specs.Blocks.{Keeps};
ghost use Rattle.vr_types.specs.Faults.{HasCause};
ghost use Rattle.vr_space.specs.Part.{NumberedShape, Stands, record_read};
ghost use Rattle.vr_space.specs.Numbered.{IsNumberPlace, IsNumberedOn, at_in, span_of};
ghost use Rattle.vr_chained.specs.Chain.{IsChainOf};

use crate::chain::Chain;
use crate::filled::record_of;
use crate::number::number_in;
use vr_types::{Blocks, DeviceFault};

/// Where in its interval a place is.
pub(crate) fn at_of(chain: &Chain, place: &[u8]) -> u32
    requires { IsNumberPlace chain.now.part place.now }
    ensures place { result ≡ at_in chain.now.part place.now }
    ensures below { result < span_of chain.now.part }
{
    chain.at_in(number_in(chain.layout(), place))
}

/// Lends the record at a place, by reading one interval. The blocks come first, since
/// they lend it.
pub(crate) fn look_in<'a, B: Blocks>(
    blocks: &'a mut B,
    chain: &Chain,
    place: &[u8],
) -> Result<Option<&'a [u8]>, DeviceFault>
    requires on { IsNumberedOn chain.now.part (B.seen blocks.old) }
    requires place { IsNumberPlace chain.now.part place.now }
    requires stands { IsTrue B.tells
        → Stands (NumberedShape chain.now.part) (B.seen blocks.old).cur }
    requires chain { IsTrue B.tells → IsChainOf chain.now (B.seen blocks.old).cur }
    ensures item { IsTrue B.tells → IfOk result (λ found. MatchOption found
        (record_read (NumberedShape chain.now.part) (B.seen blocks.old).cur place.now ≡ None)
        (λ s. record_read (NumberedShape chain.now.part) (B.seen blocks.old).cur place.now
        ≡ Some s.now)) }
    ensures* after { sem 𝓛 (Rests B.row blocks.entry (λ new.
        Keeps B.tells (B.seen blocks.old) (B.seen new)
        × HasCause (B.faults blocks.old) (B.faults new) result)) }
{
    let Some(block) = chain.block_at(place) else {
        return Ok(None);
    };
    let interval = blocks.get(block)?;
    Ok(record_of(chain.layout(), interval, at_of(chain, place)))
}
