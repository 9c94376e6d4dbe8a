//! The requests that the text of a deck stands for.
ghost use Rattle.std.specs.Prelude.{◌≡◌, ◌++◌, ◌<◌, ◌^◌, flat_map, length, map, All, IfOk, OnOk};
ghost use Rattle.vr_types.specs.declared.request.Request.TheVariants.{Commit};
ghost use Rattle.vr_bind.specs.Bound.{is_named, volumes_of, on_each, bound_order, bound_by};
ghost use Rattle.vr_bind.specs.Bound.{bound_on, bound_requests};
ghost use Rattle.vr_bind.specs.Placed.{IsPlaced, AreAllowed, IsBased};

use crate::bound::DeckRequests;
use crate::named::{file_at, files_of};
use crate::request::{file_asked, request_of};
use std::alloc::Global;
use vr_catalog::Catalog;
use vr_deck_text::{DeckText, Order};
use vr_types::{Bound, FileRef, OutOfMemory, Request, SharedRequest};

/// The requests of a deck, in order: one for each order on a file, on the volume of the file; for
/// each COMMIT and BACKOUT one on each volume that the files of the deck are on, ascending; and at
/// the end a COMMIT at line 0 on each of these.
///
/// `catalogs` has the catalog of each volume, from volume 0 on. A name is looked up on the lowest
/// volume that has it; one that none has counts as one of volume 0. Out of memory is the one error.
pub fn bind(
    alloc: Global,
    deck: &DeckText,
    catalogs: &[&Catalog],
) -> Result<DeckRequests, OutOfMemory>
    requires few { length catalogs.now < 2 ^ 32 }
    ensures value { IfOk result (λ requests. requests
        ≡ bound_requests deck.now (map (λ c. c.now) catalogs.now)) }
    ensures placed { IfOk result (λ requests. All (IsPlaced (length catalogs.now)) requests) }
    ensures based { AreAllowed (map (λ c. c.now) catalogs.now)
        → IfOk result (λ requests. All IsBased requests) }
{
    let files = files_of(alloc, catalogs, &deck.files)?;
    bind_on(
        alloc,
        files.as_slice(),
        catalogs.len(),
        deck.orders.as_slice(),
    )
}

/// The requests of some orders on these files, which are on some of `count` volumes.
fn bind_on(
    alloc: Global,
    files: &[FileRef],
    count: usize,
    orders: &[Order],
) -> Result<DeckRequests, OutOfMemory>
    requires { count < 2 ^ 32 }
    ensures { IfOk result (λ requests. requests ≡ bound_on files.now count orders.now) }
{
    let volumes = volumes_of(alloc, count, files)?;
    let mut requests = DeckRequests::new(alloc);
    match add_all(alloc, files, volumes.as_slice(), orders, &mut requests) {
        Ok(()) => Ok(requests),
        Err(fault) => Err(fault),
    }
}

/// Whether a file is on this volume.
fn is_named(files: &[FileRef], volume: u32) -> bool
    ensures { result ≡ is_named files.now volume }
{
    files.iter().any(|file| file.volume == volume)
}

/// The volumes that the files of a deck are on, ascending.
fn volumes_of(alloc: Global, count: usize, files: &[FileRef]) -> Result<Vec<u32>, OutOfMemory>
    requires { count < 2 ^ 32 }
    ensures { IfOk result (λ volumes. volumes.items ≡ volumes_of count files.now) }
{
    let mut volumes = Vec::new(alloc);
    for volume in 0..count + 1 {
        let volume = volume as u32;
        if is_named(files, volume) {
            volumes.push(volume)?;
        }
    }
    Ok(volumes)
}

/// Adds the requests of some orders, and the COMMIT that ends a deck, to an empty list.
fn add_all(
    alloc: Global,
    files: &[FileRef],
    volumes: &[u32],
    orders: &[Order],
    requests: &mut DeckRequests,
) -> Result<(), OutOfMemory>
    requires { length requests.old ≡ 0 }
    ensures { OnOk result (requests.new ≡ bound_by files.now volumes.now orders.now) }
{
    add_orders(alloc, files, volumes, orders, requests)?;
    let commit = SharedRequest::new(alloc, Request::Commit)?;
    add_on_each(volumes, 0, &commit, requests)
}

/// Adds the requests of some orders.
fn add_orders(
    alloc: Global,
    files: &[FileRef],
    volumes: &[u32],
    orders: &[Order],
    requests: &mut DeckRequests,
) -> Result<(), OutOfMemory>
    ensures { OnOk result
        (requests.new ≡ requests.old ++ flat_map (bound_order files.now volumes.now) orders.now) }
{
    for order in orders {
        add_order(alloc, files, volumes, order, requests)?;
    }
    Ok(())
}

/// Adds the requests of an order.
fn add_order(
    alloc: Global,
    files: &[FileRef],
    volumes: &[u32],
    order: &Order,
    requests: &mut DeckRequests,
) -> Result<(), OutOfMemory>
    ensures { OnOk result
        (requests.new ≡ requests.old ++ bound_order files.now volumes.now order.now) }
{
    let request = SharedRequest::new(alloc, request_of(alloc, files, &order.ask)?)?;
    match file_asked(&order.ask) {
        None => add_on_each(volumes, order.line, &request, requests),
        Some(slot) => {
            let volume = file_at(files, slot).volume;
            add_on_each(&[volume], order.line, &request, requests)
        }
    }
}

/// Adds a request on each of some volumes.
fn add_on_each(
    volumes: &[u32],
    line: u32,
    request: &SharedRequest,
    requests: &mut DeckRequests,
) -> Result<(), OutOfMemory>
    ensures { OnOk result (requests.new ≡ requests.old ++ on_each volumes.now line request.now) }
{
    for volume in volumes {
        requests.push(Bound {
            volume: *volume,
            line,
            request: request.share()?,
        })?;
    }
    Ok(())
}
