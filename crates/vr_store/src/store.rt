//! What a volume has in memory beside its blocks, seen as the parts, log and before-images that it
//! has.
ghost use Rattle.std.specs.Prelude.{◌≡◌};

use crate::changed::UnitBlocks;
use crate::parts::Laid;
use std::alloc::Global;
use std::marker::Model;
use vr_log::UndoLog;
use vr_space::Part;
use vr_types::Space;
use vr_undo::Undo;

/// The parts of a volume, its log, its before-images, the blocks that its units of recovery
/// changed, and the owners of its areas.
#[derive(Drop)]
pub struct Store<P: Part> {
    pub(crate) parts: Vec<Laid<P>>,
    pub(crate) log: UndoLog,
    pub(crate) undo: Undo,
    pub(crate) changed: Vec<UnitBlocks>,
    pub(crate) space: Space,
}

impl<P: Part> Model for Store<P> {
    ghost use Rattle.std.specs.Prelude.{map};
    ghost use Rattle.vr_store.specs.Store.{StoreNow, changed_by, part_now};

    ghost Value = { StoreNow };

    ghost view = { λ store. record {
      log = store.log;
      undo = store.undo;
      parts = map (part_now P.shape P.known) store.parts.items;
      changed = map changed_by store.changed.items;
      space = store.space;
    } };
}

impl<P: Part> Store<P> {
    ghost use Rattle.std.specs.Prelude.{[], map};
    ghost use Rattle.vr_store.specs.Store.{part_now};

    /// A store of these parts and this log, in which no unit of recovery has changed anything. It
    /// takes no memory.
    pub fn new(alloc: Global, parts: Vec<Laid<P>>, log: UndoLog, space: Space) -> Store<P>
        ensures { result ≡ record {
          log = log;
          undo = [];
          parts = map (part_now P.shape P.known) parts.items;
          changed = [];
          space = space;
        } }
    {
        Store {
            parts,
            log,
            undo: Undo::new(alloc),
            changed: Vec::new(alloc),
            space,
        }
    }
}
