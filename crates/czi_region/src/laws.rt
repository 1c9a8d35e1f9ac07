//! What writing through a piece leaves, and pieces that are taken as one.

ghost use Rattle.std.specs.Prelude.{◌≡◌, ◌+◌, ◌++◌, ℕ, List, length, take, drop};
ghost use Rattle.czi_region.specs.declared.block.Region.{Region};
ghost use Rattle.czi_region.specs.declared.block.Piece.{Piece};
ghost use Rattle.czi_region.specs.Pieces.{PutsPiece, bytes_put, room, IsPiece, with_piece};

/// Where as many bytes as a piece has were written through `get_mut`, they stand in the piece, and every
/// other byte and the room are as they were.
pub fn written_piece()
    ensures bytes { (r : Region) (p : Piece) (bytes : List ℕ) → IsPiece r p → length bytes ≡ p.len → bytes_put (with_piece r p bytes) ≡ take p.at (bytes_put r) ++ (bytes ++ drop (p.at + p.len) (bytes_put r)) }
    ensures room { (r : Region) (p : Piece) (bytes : List ℕ) → room (with_piece r p bytes) ≡ room r }
{}

/// Bytes that were put one behind another are one piece: it begins where the first of them does, and reads
/// back as all of them.
pub fn whole_piece()
    ensures { (old new : Region) (piece : Piece) (bytes : List ℕ) → bytes_put new ≡ bytes_put old ++ bytes → room new + length bytes ≡ room old → piece.at ≡ length (bytes_put old) → piece.len ≡ length bytes → PutsPiece old new piece bytes }
{}
