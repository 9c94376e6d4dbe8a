//! A volume, made of what its opening found.
ghost use Rattle.std.specs.Prelude.{◌≡◌, ℕ, [], IsTrue, None, false, map, true};
ghost use Rattle.std.specs.List.{AllByRecursion};
ghost use Rattle.std.specs.Prelude.{length};
ghost use Rattle.vr_types.specs.Content.{Content};
ghost use Rattle.vr_types.specs.Geometry.{area_count};
ghost use Rattle.vr_catalog.specs.Catalog.{entries_in};
ghost use Rattle.vr_attach.specs.Owning.{owner_of};
ghost use Rattle.vr_history.specs.Effects.{has_part, parts_laid};
ghost use Rattle.vr_history.specs.State.{opening_state};
ghost use Rattle.vr_volume.specs.Laid.{shape_in};
ghost use Rattle.vr_event.specs.Opening.{IsOpened, opened_store, owned_in};
ghost use Rattle.vr_store.specs.Store.{IsSet, part_now, shape_among};
ghost use Rattle.vr_event.specs.Volume.{AreServed, IsHeld, IsWhole, OwnLaid};

use crate::volume::Volume;
use std::alloc::Global;
use vr_catalog::Catalog;
use vr_log::UndoLog;
use vr_record_file::RecordFile;
use vr_space::Part;
use vr_store::{Laid, Store};
use vr_types::{Blocks, Geometry, Space};

impl<B: Blocks, P: Part> Volume<B, P> {
    /// The volume of these blocks, whose log has no record: its history has no entry, and no deck
    /// was entered. It takes no memory. Where it was opened with some contents, of clusters
    /// that are served alone, it is held from the opening with these contents (`held`).
    pub fn new(
        alloc: Global,
        blocks: B,
        number: u32,
        geometry: Geometry,
        catalog: Catalog,
        parts: Vec<Laid<P>>,
        log: UndoLog,
        space: Space,
    ) -> Volume<B, P>
        ensures whole { AreServed geometry catalog
            → IsSet (opened_store log (map (part_now P.shape P.known) parts.items)
            space) (B.seen blocks) → log.geometry ≡ geometry
            → ((part : ℕ) → shape_among (map (part_now P.shape P.known) parts.items) part
            ≡ shape_in geometry catalog part) → IsWhole B.seen result }
        ensures held { IsTrue B.tells → (contents : ℕ → Content)
            → catalog ≡ entries_in (contents 0)
            → AreServed geometry catalog → log.geometry ≡ geometry → log.records ≡ []
            → log.broken ≡ false → length space ≡ area_count geometry
            → AllByRecursion (λ area. has_part (parts_laid catalog) area.part ≡ true)
            (owned_in space)
            → OwnLaid geometry catalog space
            → IsOpened number (owner_of log.geometry space) log
            (map (part_now P.shape P.known) parts.items) contents (B.seen blocks)
            → IsHeld B.seen (opening_state contents (owned_in space)) result }
        ensures store { result.store
            ≡ opened_store log (map (part_now P.shape P.known) parts.items) space }
        ensures blocks { result.blocks ≡ blocks }
        ensures number { result.number ≡ number }
        ensures geometry { result.file.geometry ≡ geometry }
        ensures catalog { result.file.catalog ≡ catalog }
        ensures entries { result.file.entries ≡ [] }
        ensures stopped { result.file.stopped ≡ None }
    {
        Volume {
            blocks,
            number,
            store: Store::new(alloc, parts, log, space),
            file: RecordFile::new(alloc, geometry, catalog),
        }
    }
}
