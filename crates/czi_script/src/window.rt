//! Bytes that were taken of an input and are not used yet.

ghost use Rattle.std.specs.Prelude.{◌≡◌, ◌-◌, ◌<◌, ◌≤◌, [], length, drop, slice_range, is_err, is_some, IfOk, OnErr};
ghost use Rattle.czi_rig.specs.Faults.{Counted};
ghost use Rattle.czi_script.specs.Pieces.{Added};

use crate::lines::LINE;
use czi_rig::{Failed, Source};
use std::alloc::{AllocError, Global};
use std::marker::Model;

/// How many bytes are taken at once at most.
pub(crate) const SIZE: usize = 65_536;

/// The bytes that were taken of an input and are not used yet: a piece of a buffer.
#[derive(Drop)]
pub(crate) struct Window {
    buffer: Vec<u8>,
    from: usize,
    to: usize,
}

impl Model for Window {
    ghost use Rattle.std.specs.Prelude.{◌≡◌, ◌≤◌, ℕ, List, length, slice_range};

    ghost Value = { List ℕ };

    ghost view = { λ w. slice_range w.buffer.items w.from w.to };

    ghost invariant = { λ w. (w.from ≤ w.to) × (w.to ≤ length w.buffer.items) × (length w.buffer.items ≡ 65536) };
}

/// Moves the bytes of a piece to the front, where none is free behind them. Answers where they begin and end.
fn make_room(buffer: &mut [u8], from: usize, to: usize) -> (usize, usize)
    requires order { from ≤ to }
    requires inside { to ≤ length buffer.old }
    requires few { to - from < 4096 }
    requires size { length buffer.old ≡ 65536 }
    ensures order { result.0 ≤ result.1 }
    ensures room { result.1 < length buffer.new }
    ensures held { slice_range buffer.new result.0 result.1 ≡ slice_range buffer.old from to }
{
    if to < buffer.len() {
        return (from, to);
    }
    let held = to - from;
    let mut line = [0u8; LINE];
    line[..held].copy_from_slice(&buffer[from..to]);
    buffer[..held].copy_from_slice(&line[..held]);
    (0, held)
}

impl Window {
    /// No byte.
    pub(crate) fn new(alloc: Global) -> Result<Window, AllocError>
        ensures { IfOk result (λ w. w ≡ []) }
    {
        Ok(Window {
            buffer: vec![in alloc; 0; SIZE]?,
            from: 0,
            to: 0,
        })
    }

    /// The bytes.
    pub(crate) fn held(&self) -> &[u8]
        ensures { result.now ≡ self.now }
    {
        &self.buffer[self.from..self.to]
    }

    /// Uses up bytes at the front.
    pub(crate) fn use_front(&mut self, count: usize)
        requires { count ≤ length self.old }
        ensures { self.new ≡ drop count self.old }
    {
        self.from += count;
    }

    /// Takes bytes of the input and puts them behind, as many as there is room for, but not more than `most`.
    /// Answers how many. 0 is the end of the input.
    pub(crate) fn fill<S: Source>(&mut self, input: &mut S, most: usize) -> Result<usize, Failed>
        requires few { length self.old < 4096 }
        requires some { 0 < most }
        ensures bound { IfOk result (λ n. n ≤ most) }
        ensures added { IfOk result (λ n. Added self.old self.new n (S.input input.old).left (S.input input.new).left) }
        ensures err { OnErr result (self.new ≡ self.old) }
        ensures kept { OnErr result ((S.input input.new).left ≡ (S.input input.old).left) }
        ensures told { is_some (S.input input.new).left ≡ is_some (S.input input.old).left }
        ensures later { (S.input input.old).faults ≤ (S.input input.new).faults }
        ensures cause { Counted (is_err result) (S.input input.old).faults (S.input input.new).faults }
    {
        let (from, to) = make_room(&mut self.buffer, self.from, self.to);
        self.from = from;
        self.to = to;
        let end = to + most.min(SIZE - to);
        match input.take(&mut self.buffer[to..end]) {
            Ok(count) => {
                self.to += count;
                Ok(count)
            }
            Err(failed) => Err(failed),
        }
    }
}
