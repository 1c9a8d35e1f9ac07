//! Laws of painting an image that an index tells.

ghost use Rattle.std.specs.Prelude.{◌≡◌, ℕ, List, length, map};
ghost use Rattle.czi_format.specs.Live.{Live, document};
ghost use Rattle.czi_format.specs.Painting.{Query};
ghost use Rattle.czi_format.specs.PaintRefusals.{region_refusal};
ghost use Rattle.czi_image.specs.Holds.{Holds};
ghost use Rattle.czi_image.specs.declared.index.Index.{Index};
ghost use Rattle.czi_paint.specs.declared.painter.Painter.{Painter};
ghost use Rattle.czi_paint.specs.Painted.{LiesIn, Paints};
ghost use Rattle.czi_paint.specs.Patched.{subblock_in};
ghost use Rattle.czi_paint.specs.Refusing.{tiles_refusal};

/// What is painted over the tiles of an index is painted over the document that the image holds: its subblocks are what the
/// tiles stand for, a region is refused over both for the same cause, and what a painter reads lies in the image.
pub fn document_painted()
    ensures subblocks { (image : List ℕ) (live : Live) (x : Index) → Holds live x → map (subblock_in image) x.tiles.items ≡ (document image live).subblocks }
    ensures refusal { (image : List ℕ) (live : Live) (x : Index) (q : Query) → Holds live x → x.length ≡ length image
        → tiles_refusal q x.tiles.items ≡ region_refusal q (document image live).subblocks }
    ensures lies { (image : List ℕ) (x : Index) (q : Query) (j : ℕ) (p : Painter) → x.length ≡ length image → Paints q x.tiles.items j p → LiesIn (length image) p }
{}
