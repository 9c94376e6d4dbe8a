//! A request that its deck and the entry of the history share.
ghost use Rattle.std.specs.Prelude.{◌≡◌, IfOk};

use crate::memory::OutOfMemory;
use crate::request::Request;
use std::alloc::Global;
use std::marker::Model;
use std::sync::Arc;

/// A request that several owners share. It stands in memory once, and clauses see the request.
#[derive(Drop)]
pub struct SharedRequest {
    request: Arc<Request, Global>,
}

impl Model for SharedRequest {
    ghost use Rattle.std.specs.Arc.{arc_value};
    ghost use Rattle.vr_types.specs.declared.request.Request.{Request};

    ghost Value = { Request };

    ghost view = { λ shared. arc_value shared.request };
}

impl SharedRequest {
    /// A request with one owner. Out of memory is its one error.
    pub fn new(alloc: Global, request: Request) -> Result<SharedRequest, OutOfMemory>
        ensures { IfOk result (λ shared. shared ≡ request) }
    {
        match Arc::new(alloc, request) {
            Ok(request) => Ok(SharedRequest { request }),
            Err(_) => Err(OutOfMemory),
        }
    }

    /// The request.
    pub fn get(&self) -> &Request
        ensures { result.now ≡ self.now }
    {
        &self.request
    }

    /// The same request with one owner more. It takes no memory; an error stands for 2^63 owners.
    pub fn share(&self) -> Result<SharedRequest, OutOfMemory>
        ensures { IfOk result (λ shared. shared ≡ self.now) }
    {
        match Arc::try_clone(&self.request) {
            Ok(request) => Ok(SharedRequest { request }),
            Err(_) => Err(OutOfMemory),
        }
    }
}
