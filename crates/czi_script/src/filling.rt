//! A buffer that is filled from its front to its end.

ghost use Rattle.std.specs.Prelude.{◌≡◌, ◌+◌, ◌-◌, ◌<◌, ◌≤◌, ◌++◌, [], length, is_err, is_some, IfOk, OnErr};
ghost use Rattle.czi_rig.specs.Faults.{Counted};
ghost use Rattle.czi_doc.specs.View.{bytes_of};
ghost use Rattle.czi_script.specs.Pieces.{Added};

use czi_doc::Bytes;
use czi_rig::{Failed, Source};
use std::alloc::{AllocError, Global};
use std::marker::Model;

/// The bytes that a buffer was filled with so far, and how many it has in the end.
#[derive(Drop)]
pub(crate) struct Filling {
    buffer: Vec<u8>,
    count: usize,
}

impl Model for Filling {
    ghost use Rattle.std.specs.Prelude.{◌≤◌, length, take};
    ghost use Rattle.czi_script.specs.Filled.{Filled};

    ghost Value = { Filled };

    ghost view = { λ f. record { bytes = take f.count f.buffer.items; size = length f.buffer.items } };

    ghost invariant = { λ f. f.count ≤ length f.buffer.items };
}

impl Filling {
    /// A buffer for so many bytes, none of which it has.
    pub(crate) fn new(alloc: Global, size: usize) -> Result<Filling, AllocError>
        ensures { IfOk result (λ f. f ≡ record { bytes = []; size = size }) }
    {
        Ok(Filling {
            buffer: vec![in alloc; 0; size]?,
            count: 0,
        })
    }

    /// How many bytes are wanting.
    pub(crate) fn room(&self) -> usize
        ensures { result ≡ self.now.size - length self.now.bytes }
    {
        self.buffer.len() - self.count
    }

    /// Puts bytes behind.
    pub(crate) fn add(&mut self, bytes: &[u8])
        requires { length self.old.bytes + length bytes.now ≤ self.old.size }
        ensures { self.new ≡ record self.old { bytes = self.old.bytes ++ bytes.now } }
    {
        let end = self.count + bytes.len();
        self.buffer[self.count..end].copy_from_slice(bytes);
        self.count = end;
    }

    /// Takes bytes of the input and puts them behind, as many as are wanting, but not more than `most`. Answers how
    /// many. 0 is the end of the input.
    pub(crate) fn fill<S: Source>(&mut self, input: &mut S, most: u64) -> Result<usize, Failed>
        requires room { length self.old.bytes < self.old.size }
        requires some { 0 < most }
        ensures bound { IfOk result (λ n. n ≤ most) }
        ensures added { IfOk result (λ n. Added self.old.bytes self.new.bytes n (S.input input.old).left (S.input input.new).left) }
        ensures size { self.new.size ≡ self.old.size }
        ensures err { OnErr result (self.new ≡ self.old) }
        ensures kept { OnErr result ((S.input input.new).left ≡ (S.input input.old).left) }
        ensures told { is_some (S.input input.new).left ≡ is_some (S.input input.old).left }
        ensures later { (S.input input.old).faults ≤ (S.input input.new).faults }
        ensures cause { Counted (is_err result) (S.input input.old).faults (S.input input.new).faults }
    {
        let count = self.count;
        let end = count + most.min((self.buffer.len() - count) as u64) as usize;
        match input.take(&mut self.buffer[count..end]) {
            Ok(more) => {
                self.count += more;
                Ok(more)
            }
            Err(failed) => Err(failed),
        }
    }

    /// The bytes, where none is wanting.
    pub(crate) fn finish(self) -> Bytes
        requires { length self.bytes ≡ self.size }
        ensures { bytes_of result ≡ self.bytes }
    {
        Bytes::new(self.buffer)
    }
}
