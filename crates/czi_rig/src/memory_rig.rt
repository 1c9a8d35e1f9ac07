ghost use Rattle.std.specs.Prelude.{◌≡◌, ◌<◌, Some, length, IfOk, OnOk, OnErr, slice_index_or};
ghost use Rattle.std.proofs.Props.{props};
ghost use Rattle.czi_rig.specs.Replay.{IsKept};
ghost use Rattle.czi_rig.specs.Memory.{history};

use crate::content::{Content, begun_with};
use crate::log::Log;
use crate::replay::Replayed;
use crate::{Call, File, Pick};
use std::alloc::{AllocError, Global};
use std::collections::BTreeSet;

/// Two files and an output in memory, which fail where a test wants it, and tell what a crash inside each call might have
/// left.
///
/// A call takes time in proportion to the bytes that it touches, whatever was called before; `crash` takes time in
/// proportion to all that was touched before.
///
/// A call that is told to fail tears: a write puts, and a `say` says, the first half of its bytes (rounded up), and a cut
/// comes half way; a sync makes nothing durable. A call that finds no memory does nothing at all.
#[derive(Drop)]
pub struct MemRig {
    pub(crate) alloc: Global,
    pub(crate) image: Content,
    pub(crate) journal: Content,
    pub(crate) said: Vec<u8>,
    pub(crate) output_faults: u64,
    pub(crate) log: Log,
    ghost kept: { IsKept (history image journal log) image.bytes.items journal.bytes.items said.items } by { Prim.hlevel props },
}

impl MemRig {
    ghost use Rattle.std.specs.Ordering.{nat_cmp};
    ghost use Rattle.std.specs.BTreeSet.{insert_key};
    ghost use Rattle.czi_rig.specs.State.{seen_of};
    ghost use Rattle.czi_rig.specs.Told.{fresh, untouched};
    ghost use Rattle.czi_rig.specs.MemRig.{history_of, state_in, told_in};
    ghost use Rattle.czi_rig.specs.Crash.{IsCrash};

    /// A rig whose files have these contents, both of them synced. Nothing was said, and no call is to fail.
    ///
    /// A content of more than 2^62 bytes is answered as want of memory.
    pub fn new(alloc: Global, image: &[u8], journal: &[u8]) -> Result<MemRig, AllocError>
        ensures state { IfOk result (λ r. state_in r ≡ fresh image.now journal.now) }
        ensures told { IfOk result (λ r. told_in r ≡ untouched) }
    {
        Ok(MemRig {
            alloc,
            image: begun_with(alloc, image)?,
            journal: begun_with(alloc, journal)?,
            said: Vec::new(alloc),
            output_faults: 0,
            log: Log {
                calls: Vec::new(alloc),
                to_fail: BTreeSet::new(alloc),
                starved: 0,
            },
        })
    }

    /// The call with this number, counted from 0 over all calls of `Rig`, is to fail.
    pub fn fail_call(&mut self, number: u64) -> Result<(), AllocError>
        ensures state { state_in self.new ≡ state_in self.old }
        ensures history { history_of self.new ≡ history_of self.old }
        ensures ok { OnOk result (told_in self.new ≡ record (told_in self.old) { to_fail = insert_key nat_cmp (told_in self.old).to_fail number }) }
        ensures err { OnErr result (told_in self.new ≡ told_in self.old) }
    {
        match self.log.to_fail.insert(number) {
            Ok(_) => Ok(()),
            Err(_) => Err(AllocError),
        }
    }

    /// The content of a file, as reads give it.
    pub fn content(&self, f: File) -> &[u8]
        ensures { seen_of (state_in self.now) f ≡ Some result.now }
    {
        match f {
            File::Image => &self.image.bytes,
            File::Journal => &self.journal.bytes,
        }
    }

    /// All that was said.
    pub fn said(&self) -> &[u8]
        ensures { (state_in self.now).said ≡ Some result.now }
    {
        &self.said
    }

    /// How many calls of `Rig` were made, without those that found no memory.
    pub fn calls(&self) -> u64
        ensures { result ≡ length (told_in self.now).calls }
    {
        self.log.calls.len() as u64
    }

    /// What the call with this number was.
    pub fn call(&self, number: u64) -> Call
        requires { number < length (told_in self.now).calls }
        ensures { result ≡ slice_index_or (told_in self.now).calls number result }
    {
        self.log.calls[number as usize].call
    }

    /// How many calls of `Rig` found no memory.
    pub fn starved(&self) -> u64
        ensures { result ≡ (told_in self.now).starved }
    {
        self.log.starved
    }

    /// An image and a journal that a crash inside the call with this number may leave, by the pick.
    pub fn crash(&self, number: u64, pick: Pick) -> Result<(Vec<u8>, Vec<u8>), AllocError>
        requires { number < length (told_in self.now).calls }
        ensures { IfOk result (λ left. IsCrash (history_of self.now) number pick left.0.items left.1.items) }
    {
        let number = number as usize;
        let calls = self.log.calls.as_slice();
        let image = Replayed::crash(
            self.alloc,
            File::Image,
            &self.image.first,
            calls,
            number,
            pick,
        )?;
        let journal = Replayed::crash(
            self.alloc,
            File::Journal,
            &self.journal.first,
            calls,
            number,
            pick,
        )?;
        Ok((image, journal))
    }
}
