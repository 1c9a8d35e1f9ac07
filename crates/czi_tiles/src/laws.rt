//! Laws of painting, of the definitions alone.

ghost use Rattle.std.specs.Prelude.{◌≡◌, ℕ, ◌<◌, List, replicate};
ghost use Rattle.czi_format.specs.Document.{Subblock};
ghost use Rattle.czi_format.specs.Painting.{Query, point, shown_by, last_given, chosen, dims_of_subblock, pixel_at};

/// A pixel of the region is that of the last chosen subblock that shows one there.
pub fn pixels_of_chosen()
    ensures { (q : Query) (subblocks : List Subblock) (i j : ℕ) → i < q.w → j < q.h → last_given (λ t. shown_by q (point q.x q.layer i) (point q.y q.layer j) t.1) (chosen dims_of_subblock q subblocks) (replicate q.pixel.size 0) ≡ pixel_at q subblocks (point q.x q.layer i) (point q.y q.layer j) }
{}
