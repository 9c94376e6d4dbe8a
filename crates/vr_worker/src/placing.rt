//! The volumes that latches guarded, each at the place of its number. What a lock guards is known
//! by its type alone, so no type says at which place of a list the latch of a volume is: the volumes
//! are put at their places by their numbers, and no two have one number, since no ledger has a twin.
ghost use Rattle.std.specs.Prelude.{◌≡◌, ◌+◌, IfOk, length};
ghost use Rattle.vr_worker.specs.Placing.{ArePut, AreWhole, taken};

use crate::latched::{Latched, Names};
use crate::served::Served;
use std::alloc::Global;
use std::sync::Mutex;
use vr_types::OutOfMemory;

/// Places for this many volumes, with none in them.
pub(crate) fn no_places<V: Served, N: Names<V>>(
    alloc: Global,
    count: usize,
) -> Result<Vec<Option<Latched<V, N>>>, OutOfMemory>
    ensures places { IfOk result (λ places. ArePut V.number count places.items) }
    ensures none { IfOk result (λ places. taken places.items ≡ 0) }
{
    let mut places = Vec::new(alloc);
    for _ in 0..count {
        places.push(None)?;
    }
    Ok(places)
}

/// Puts a volume at its place, which is free.
fn put<V: Served, N: Names<V>>(places: &mut [Option<Latched<V, N>>], mut latched: Latched<V, N>)
    requires places { ArePut V.number N.count places.old }
    ensures places { ArePut V.number N.count places.new }
    ensures taken { taken places.new ≡ taken places.old + 1 }
{
    let place = latched.number() as usize;
    match places[place].take() {
        Some(twin) => latched.refute_twin(twin),
        None => places[place] = Some(latched),
    }
}

/// Puts the volumes that the latches guarded at their places: each place has one then.
pub(crate) fn put_all<V: Served + Send, N: Names<V>>(
    latches: Vec<Mutex<Latched<V, N>>>,
    places: &mut [Option<Latched<V, N>>],
)
    requires places { ArePut V.number N.count places.old }
    requires none { taken places.old ≡ 0 }
    requires count { length latches.items ≡ N.count }
    ensures whole { AreWhole V.number 0 places.new }
    ensures count { length places.new ≡ N.count }
{
    for latch in latches {
        put(places, latch.into_inner());
    }
}
