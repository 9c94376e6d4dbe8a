//! The threads of a step of decks, from the making of the latches to the volumes that come back.
ghost use Rattle.std.specs.Prelude.{◌≡◌, ◌<◌, ◌≤◌, [], All, IfOk, IfSome, length};
ghost use Rattle.std.specs.List.{AllZip};
ghost use Rattle.std.specs.Prelude.{vec_capacity};
ghost use Rattle.vr_worker.specs.Latched.{IsLatched, IsSince};
ghost use Rattle.vr_worker.specs.Placing.{ArePut, AreWhole, taken};
ghost use Rattle.vr_worker.specs.Ready.{AreLater, AreSameSeats, AreTold, HasTurnAt, HasTurns};
ghost use Rattle.vr_worker.specs.Ready.{HaveRun, IsReady, IsSameSeat, IsToldAt, IsUnrun};

use crate::deck::{Seat, run_deck};
use crate::latched::{Latched, Names};
use crate::placing::{no_places, put_all};
use crate::served::Served;
use std::alloc::Global;
use std::sync::{Mutex, Wait};
use std::thread;
use std::thread::Threads;
use vr_ledger::Ledger;
use vr_outside::Gate;
use vr_types::OutOfMemory;

/// Room for the latches of volumes, places for what they guard, and room for the volumes that come
/// back.
#[derive(Drop)]
struct Room<V: Served, N: Names<V>> {
    latches: Vec<Mutex<Latched<V, N>>>,
    places: Vec<Option<Latched<V, N>>>,
    back: Vec<V>,
}

/// Room for this many volumes.
fn make_room<V: Served, N: Names<V>>(alloc: Global, count: usize) -> Result<Room<V, N>, OutOfMemory>
    ensures latches { IfOk result (λ room. (room.latches.items ≡ [])
        × (count ≤ vec_capacity room.latches)) }
    ensures places { IfOk result (λ room. ArePut V.number count room.places.items) }
    ensures none { IfOk result (λ room. taken room.places.items ≡ 0) }
    ensures back { IfOk result (λ room. (room.back.items ≡ [])
        × (count ≤ vec_capacity room.back)) }
{
    let latches = Vec::with_capacity(alloc, count)?;
    let places = no_places(alloc, count)?;
    let back = Vec::with_capacity(alloc, count)?;
    Ok(Room {
        latches,
        places,
        back,
    })
}

/// Puts each volume behind a latch, with its ledger, in room that was made.
fn latch_all<V: Served, N: Names<V>>(
    latches: &mut Vec<Mutex<Latched<V, N>>>,
    volumes: Vec<V>,
    ledgers: Vec<Ledger>,
)
    requires none { latches.old.items ≡ [] }
    requires room { length volumes.items ≤ vec_capacity latches.old }
    requires latched { AllZip (IsLatched V.number V.entries V.follows N.count N.start N.ledgers
        N.decks) volumes.items ledgers.items }
    ensures { length latches.new.items ≡ length volumes.items }
{
    let mut ledgers = ledgers.into_iter();
    for volume in volumes {
        if let Some(ledger) = ledgers.next() {
            latches.push_reserved(Mutex::new(Latched::new(volume, ledger)));
        }
    }
}

/// Runs each deck, on a thread of its own where one can be made.
fn run_each<R: Threads + Wait + Sync, V: Served + Send, N: Names<V> + Send + Sync, G: Gate + Sync>(
    rt: &R,
    latches: &[Mutex<Latched<V, N>>],
    seats: &mut [Seat],
    gate: &G,
)
    requires { All (IsReady N.ledgers N.decks (length latches.now)) seats.old }
    ensures { HaveRun seats.old seats.new }
{
    let most = seats.len();
    if most > 0 {
        thread::for_each_mut(
            rt,
            seats,
            most,
            &|_, seat: &mut Seat|
                requires { IsReady N.ledgers N.decks (length latches.now) seat.now }
            { run_deck(rt, latches, seat, gate) },
        );
    }
}

/// A deck learns that what it knows of a volume is all that the volume's history has of it.
fn tell_one<V: Served, N: Names<V>>(latched: &mut Latched<V, N>, place: usize, seat: &mut Seat)
    requires place { V.number latched.old.volume ≡ place }
    requires turn { HasTurnAt N.ledgers place seat.old }
    ensures told { IsToldAt place (V.entries latched.old.volume) seat.new }
    ensures seat { IsSameSeat seat.old seat.new }
    ensures volume { latched.new.volume ≡ latched.old.volume }
{
    latched.tell(&mut seat.turns[place]);
}

/// Each deck learns it.
fn tell_all<V: Served, N: Names<V>>(latched: &mut Latched<V, N>, place: usize, seats: &mut [Seat])
    requires place { V.number latched.old.volume ≡ place }
    requires turns { All (HasTurnAt N.ledgers place) seats.old }
    ensures told { All (IsToldAt place (V.entries latched.old.volume)) seats.new }
    ensures seats { AreSameSeats seats.old seats.new }
    ensures volume { latched.new.volume ≡ latched.old.volume }
{
    for at in 0..seats.len() {
        tell_one(latched, place, &mut seats[at]);
    }
}

/// The volume at a place alone, once the threads have ended.
fn take_out<V: Served, N: Names<V>>(
    mut latched: Latched<V, N>,
    place: usize,
    seats: &mut [Seat],
) -> V
    requires place { V.number latched.volume ≡ place }
    requires turns { All (HasTurnAt N.ledgers place) seats.old }
    ensures place { V.number result ≡ place }
    ensures since { IfSome (N.start place)
        (λ (first : V). IsSince V.entries V.follows N.decks first result) }
    ensures told { All (IsToldAt place (V.entries result)) seats.new }
    ensures seats { AreSameSeats seats.old seats.new }
{
    tell_all(&mut latched, place, seats);
    latched.into_volume()
}

/// The volumes that are at their places, in their order, in room that was made.
fn take_all<V: Served, N: Names<V>>(
    places: Vec<Option<Latched<V, N>>>,
    seats: &mut [Seat],
    mut back: Vec<V>,
) -> Vec<V>
    requires none { back.items ≡ [] }
    requires room { length places.items ≤ vec_capacity back }
    requires whole { AreWhole V.number 0 places.items }
    requires many { length places.items ≡ N.count }
    requires turns { All (HasTurns N.ledgers N.count) seats.old }
    ensures count { length result.items ≡ length places.items }
    ensures later { AreLater V.number V.entries V.follows N.start N.decks result.items }
    ensures told { All (AreTold V.entries result.items) seats.new }
    ensures seats { AreSameSeats seats.old seats.new }
{
    for one in places {
        let Some(latched) = one else {
            unreachable!();
        };
        let place = back.len();
        let volume = take_out(latched, place, seats);
        back.push_reserved(volume);
    }
    back
}

/// Runs the decks over the volumes, in room that was made.
fn run_in<R: Threads + Wait + Sync, V: Served + Send, N: Names<V> + Send + Sync, G: Gate + Sync>(
    rt: &R,
    room: Room<V, N>,
    volumes: Vec<V>,
    ledgers: Vec<Ledger>,
    seats: &mut [Seat],
    gate: &G,
) -> Vec<V>
    requires latches { (room.latches.items ≡ [])
        × (length volumes.items ≤ vec_capacity room.latches) }
    requires places { ArePut V.number (length volumes.items) room.places.items }
    requires none { taken room.places.items ≡ 0 }
    requires back { (room.back.items ≡ []) × (length volumes.items ≤ vec_capacity room.back) }
    requires many { length volumes.items ≡ N.count }
    requires latched { AllZip (IsLatched V.number V.entries V.follows N.count N.start N.ledgers
        N.decks) volumes.items ledgers.items }
    requires ready { All (IsReady N.ledgers N.decks (length volumes.items)) seats.old }
    ensures count { length result.items ≡ length volumes.items }
    ensures later { AreLater V.number V.entries V.follows N.start N.decks result.items }
    ensures ran { HaveRun seats.old seats.new }
    ensures told { All (AreTold V.entries result.items) seats.new }
{
    let Room {
        mut latches,
        mut places,
        back,
    } = room;
    latch_all(&mut latches, volumes, ledgers);
    run_each(rt, latches.as_slice(), seats, gate);
    put_all(latches, places.as_mut_slice());
    take_all(places, seats, back)
}

/// Runs the decks over the volumes. Where memory is refused no thread starts, and the volumes are
/// as they were.
pub(crate) fn run_named<
    R: Threads + Wait + Sync,
    V: Served + Send,
    N: Names<V> + Send + Sync,
    G: Gate + Sync,
>(
    rt: &R,
    alloc: Global,
    volumes: Vec<V>,
    ledgers: Vec<Ledger>,
    seats: &mut [Seat],
    gate: &G,
) -> Vec<V>
    requires many { length volumes.items ≡ N.count }
    requires latched { AllZip (IsLatched V.number V.entries V.follows N.count N.start N.ledgers
        N.decks) volumes.items ledgers.items }
    requires first { AreLater V.number V.entries V.follows N.start N.decks volumes.items }
    requires ready { All (IsReady N.ledgers N.decks (length volumes.items)) seats.old }
    requires told { All (AreTold V.entries volumes.items) seats.old }
    requires unrun { All IsUnrun seats.old }
    ensures count { length result.items ≡ length volumes.items }
    ensures later { AreLater V.number V.entries V.follows N.start N.decks result.items }
    ensures ran { HaveRun seats.old seats.new }
    ensures told { All (AreTold V.entries result.items) seats.new }
{
    match make_room::<V, N>(alloc, volumes.len()) {
        Ok(room) => run_in(rt, room, volumes, ledgers, seats, gate),
        Err(OutOfMemory) => volumes,
    }
}
