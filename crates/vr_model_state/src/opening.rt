//! The state of a volume as it is opened.
ghost use Rattle.std.specs.Prelude.{◌≡◌};
ghost use Rattle.vr_types.specs.Geometry.{IsAllowed};
ghost use Rattle.vr_history.specs.State.{opening_state};
ghost use Rattle.vr_model_state.specs.Contents.{content_in};
ghost use Rattle.vr_model_state.specs.Seen.{seen};

use crate::contents::Contents;
use crate::shape::Shape;
use crate::state::{FileState, OwnedArea};
use std::alloc::Global;
use vr_types::Geometry;

impl FileState {
    /// A volume as it is opened: contents of its parts, and the areas that they own. It takes no
    /// memory.
    pub fn opening(
        alloc: Global,
        geometry: Geometry,
        contents: Contents,
        owned: Vec<OwnedArea>,
    ) -> FileState
        requires { IsAllowed geometry }
        ensures shape { result.shape ≡ geometry }
        ensures state { seen result ≡ opening_state (content_in contents) owned.items }
    {
        FileState {
            shape: Shape::new(geometry),
            contents,
            locks: Vec::new(alloc),
            befores: Vec::new(alloc),
            logged: Vec::new(alloc),
            used: 0,
            positions: Vec::new(alloc),
            numbers: Vec::new(alloc),
            owned,
            stopped: None,
        }
    }
}
