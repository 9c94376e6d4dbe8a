//! The list of the requests of a deck.
ghost use Rattle.std.specs.Prelude.{◌≡◌, List, [], ◌∷◌, ◌++◌, OnOk, OnErr};

use std::alloc::Global;
use std::marker::Model;
use vr_types::{Bound, OutOfMemory};

/// The requests of a deck, in order.
#[derive(Drop)]
pub struct DeckRequests {
    requests: Vec<Bound>,
}

impl Model for DeckRequests {
    ghost use Rattle.std.specs.Prelude.{List};
    ghost use Rattle.vr_types.specs.declared.bound.Bound.{Bound};

    ghost Value = { List Bound };

    ghost view = { λ requests. requests.requests.items };
}

impl DeckRequests {
    /// No request, which takes no memory.
    pub fn new(alloc: Global) -> DeckRequests
        ensures { result ≡ [] }
    {
        DeckRequests {
            requests: Vec::new(alloc),
        }
    }

    /// The requests, first to last.
    pub fn as_slice(&self) -> &[Bound]
        ensures { result.now ≡ self.now }
    {
        self.requests.as_slice()
    }

    /// The requests themselves, first to last.
    pub fn into_vec(self) -> Vec<Bound>
        ensures { result.items ≡ self }
    {
        self.requests
    }

    /// Adds a request at the end. Where memory runs out, nothing changes.
    pub fn push(&mut self, request: Bound) -> Result<(), OutOfMemory>
        ensures ok { OnOk result (self.new ≡ self.old ++ request ∷ []) }
        ensures err { OnErr result (self.new ≡ self.old) }
    {
        self.requests.push(request)?;
        Ok(())
    }
}
