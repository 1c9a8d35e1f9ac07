//! What is asked for: a region of an image.

ghost use Rattle.std.specs.Prelude.{◌≤◌, ◌^◌};

use crate::pixel::Pixel;
use crate::plane::Plane;
use std::alloc::AllocError;

/// A region of an image.
#[derive(PartialEq, Eq, Drop)]
pub struct Query {
    /// The pixel type of its tiles.
    pub pixel: Pixel,
    /// How many logical pixels a stored pixel stands for, across and down: 1 to 65,536.
    pub layer: u32,
    /// The logical column of its first pixel.
    pub x: i32,
    /// The logical row of its first pixel.
    pub y: i32,
    /// How many pixels a row has, at least 1.
    pub w: u32,
    /// How many rows it has, at least 1.
    pub h: u32,
    /// The scene of its tiles, where only one is asked for.
    pub scene: Option<i32>,
    /// The plane of its tiles.
    pub plane: Plane,
    pub ghost layer_some: { 1 ≤ layer },
    pub ghost layer_few: { layer ≤ 2 ^ 16 },
    pub ghost columns: { 1 ≤ w },
    pub ghost rows: { 1 ≤ h },
}

impl Query {
    ghost use Rattle.std.specs.Prelude.{◌≡◌, IfOk};
    ghost use Rattle.czi_doc.specs.QueryView.{query_of};

    /// The same query once more, or want of memory.
    pub fn try_copy(&self) -> Result<Query, AllocError>
        ensures { IfOk result (λ q. query_of q ≡ query_of self.now) }
    {
        let plane = self.plane.try_copy()?;
        Ok(Query {
            pixel: self.pixel,
            layer: self.layer,
            x: self.x,
            y: self.y,
            w: self.w,
            h: self.h,
            scene: self.scene,
            plane,
        })
    }
}
