//! The region and its pieces.

ghost use Rattle.std.specs.Prelude.{◌≤◌, vec_len, vec_capacity};

use std::alloc::{AllocError, Global};

/// A range of the bytes that were put since the last reset.
#[derive(Clone, Copy, PartialEq, Eq)]
pub struct Piece {
    /// Its first byte, counted from the region's front.
    pub at: usize,
    /// How many bytes it has.
    pub len: usize,
}

/// One block of bytes with a moving end. Pieces are put one behind another and stay where they are until the
/// region is reset. Only `ensure` takes memory.
#[derive(Drop)]
pub struct Region {
    bytes: Vec<u8>,
    limit: usize,
    ghost reserved: { limit ≤ vec_capacity bytes },
    ghost within: { vec_len bytes ≤ limit },
}

impl Region {
    ghost use Rattle.std.specs.Prelude.{◌≡◌, ◌+◌, ◌++◌, [], length, replicate, OnOk, OnErr};
    ghost use Rattle.std.specs.Borrow.{sem};
    ghost use Rattle.czi_region.specs.Pieces.{bytes_put, room, IsPiece, bytes_of, KeepsPieces, LendsPiece};

    /// A region without room. It takes no memory.
    pub fn new(alloc: Global) -> Region
        ensures empty { bytes_put result ≡ [] }
        ensures room { room result ≡ 0 }
    {
        Region {
            bytes: Vec::new(alloc),
            limit: 0,
        }
    }

    /// Makes sure of room for `n` bytes, while no piece is out. The room never falls, and where memory runs
    /// out it stays as it was.
    pub fn ensure(&mut self, n: usize) -> Result<(), AllocError>
        requires { bytes_put self.old ≡ [] }
        ensures empty { bytes_put self.new ≡ [] }
        ensures ok { OnOk result (n ≤ room self.new) }
        ensures kept { room self.old ≤ room self.new }
        ensures err { OnErr result (room self.new ≡ room self.old) }
    {
        if n > self.limit {
            self.bytes.reserve_exact(n)?;
            self.limit = n;
        }
        Ok(())
    }

    /// Puts a copy of these bytes behind all that was put.
    pub fn put(&mut self, bytes: &[u8]) -> Piece
        requires { length bytes.now ≤ room self.old }
        ensures bytes { bytes_put self.new ≡ bytes_put self.old ++ bytes.now }
        ensures room { room self.new + length bytes.now ≡ room self.old }
        ensures behind { result.at ≡ length (bytes_put self.old) }
        ensures long { result.len ≡ length bytes.now }
        ensures reads { bytes_of self.new result ≡ bytes.now }
        ensures others { KeepsPieces self.old self.new result }
    {
        let at = self.bytes.len();
        let _ = self.bytes.extend_from_slice(bytes);
        Piece {
            at,
            len: bytes.len(),
        }
    }

    /// Puts `n` zero bytes behind all that was put.
    pub fn zeros(&mut self, n: usize) -> Piece
        requires { n ≤ room self.old }
        ensures bytes { bytes_put self.new ≡ bytes_put self.old ++ replicate n 0 }
        ensures room { room self.new + n ≡ room self.old }
        ensures behind { result.at ≡ length (bytes_put self.old) }
        ensures long { result.len ≡ n }
        ensures reads { bytes_of self.new result ≡ replicate n 0 }
        ensures others { KeepsPieces self.old self.new result }
    {
        let at = self.bytes.len();
        let _ = self.bytes.resize(at + n, 0);
        Piece { at, len: n }
    }

    /// The bytes of a piece.
    pub fn get(&self, piece: &Piece) -> &[u8]
        requires { IsPiece self.now piece.now }
        ensures { result.now ≡ bytes_of self.now piece.now }
    {
        &self.bytes[piece.at..piece.at + piece.len]
    }

    /// The bytes of a piece, to be written over. Every other byte stays.
    pub fn get_mut(&mut self, piece: &Piece) -> &mut [u8]
        requires { IsPiece self.old piece.now }
        ensures* writes_back { sem 𝓛 (LendsPiece self.entry piece.now result) }
        ensures value { result.now ≡ bytes_of self.old piece.now }
    {
        self.bytes.slice_mut(piece.at..piece.at + piece.len)
    }

    /// How many bytes can still be put.
    pub fn room(&self) -> usize
        ensures { result ≡ room self.now }
    {
        self.limit - self.bytes.len()
    }

    /// Forgets all pieces. Their room comes back.
    pub fn reset(&mut self)
        ensures empty { bytes_put self.new ≡ [] }
        ensures room { room self.new ≡ room self.old + length (bytes_put self.old) }
    {
        self.bytes.clear();
    }
}
