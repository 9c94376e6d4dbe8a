//! A request of a deck, with where it stands there.
ghost use Rattle.std.specs.Prelude.{◌≡◌, IfOk};

use crate::memory::OutOfMemory;
use crate::shared_request::SharedRequest;

/// A request of a deck with its volume and its line. The COMMIT that is added at a deck's end has
/// line 0.
#[derive(Drop)]
pub struct Bound {
    pub volume: u32,
    pub line: u32,
    pub request: SharedRequest,
}

impl Bound {
    /// The same value, which shares the request. It takes no memory; an error stands for 2^63
    /// owners.
    pub fn share(&self) -> Result<Bound, OutOfMemory>
        ensures { IfOk result (λ shared. shared ≡ self.now) }
    {
        Ok(Bound {
            volume: self.volume,
            line: self.line,
            request: self.request.share()?,
        })
    }
}
