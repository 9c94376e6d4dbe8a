//! The shape of a volume that may be formatted so.
ghost use Rattle.std.specs.Prelude.{◌≡◌, ◌≤◌};

use std::marker::Model;
use vr_types::Geometry;

/// A geometry that a volume may have.
#[derive(Drop)]
pub struct Shape {
    geometry: Geometry,
}

impl Model for Shape {
    ghost use Rattle.vr_types.specs.declared.geometry.Geometry.{Geometry};
    ghost use Rattle.vr_types.specs.Geometry.{IsAllowed};

    ghost Value = { Geometry };

    ghost view = { λ shape. shape.geometry };

    ghost invariant = { λ shape. IsAllowed shape.geometry };
}

impl Shape {
    ghost use Rattle.vr_types.specs.Geometry.{IsAllowed};

    /// The shape of this geometry.
    pub fn new(geometry: Geometry) -> Shape
        requires { IsAllowed geometry }
        ensures { result ≡ geometry }
    {
        Shape { geometry }
    }

    /// The geometry.
    pub fn geometry(&self) -> Geometry
        ensures value { result ≡ self.now }
        ensures allowed { IsAllowed result }
    {
        self.geometry
    }

    /// The bytes of a block.
    pub fn size(&self) -> u64
        ensures value { result ≡ self.now.size }
        ensures least { 512 ≤ result }
    {
        self.geometry.size as u64
    }

    /// The intervals of an area.
    pub fn intervals(&self) -> u64
        ensures value { result ≡ self.now.area }
        ensures least { 2 ≤ result }
    {
        self.geometry.area as u64
    }

    /// An equal value.
    pub fn copy(&self) -> Shape
        ensures { result ≡ self.now }
    {
        Shape {
            geometry: self.geometry,
        }
    }
}
