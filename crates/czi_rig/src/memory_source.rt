ghost use Rattle.std.specs.Prelude.{◌≡◌, ◌<◌, ◌≤◌, vec_len, IfOk, OnOk, OnErr};

use crate::schedule::is_to_fail;
use crate::{Failed, Source};
use std::alloc::{AllocError, Global};
use std::collections::BTreeSet;

/// An input in memory, which fails where a test wants it to.
#[derive(Drop)]
pub struct MemSource {
    pub(crate) bytes: Vec<u8>,
    pub(crate) at: usize,
    pub(crate) to_fail: BTreeSet<u64>,
    pub(crate) calls: u64,
    pub(crate) faults: u64,
    ghost within: { at ≤ vec_len bytes },
}

impl MemSource {
    ghost use Rattle.std.specs.Ordering.{nat_cmp};
    ghost use Rattle.std.specs.BTreeSet.{insert_key};
    ghost use Rattle.czi_rig.specs.MemSource.{input_in, orders_in};
    ghost use Rattle.czi_rig.specs.Source.{unread, no_orders};

    /// An input with these bytes, none of them taken yet. No call is to fail.
    pub fn new(alloc: Global, bytes: &[u8]) -> Result<MemSource, AllocError>
        ensures input { IfOk result (λ s. input_in s ≡ unread bytes.now) }
        ensures orders { IfOk result (λ s. orders_in s ≡ no_orders) }
    {
        Ok(MemSource {
            bytes: Vec::from_slice(alloc, bytes)?,
            at: 0,
            to_fail: BTreeSet::new(alloc),
            calls: 0,
            faults: 0,
        })
    }

    /// The call of `take` with this number, counted from 0, is to fail.
    pub fn fail_call(&mut self, number: u64) -> Result<(), AllocError>
        ensures input { input_in self.new ≡ input_in self.old }
        ensures ok { OnOk result (orders_in self.new ≡ record (orders_in self.old) { to_fail = insert_key nat_cmp (orders_in self.old).to_fail number }) }
        ensures err { OnErr result (orders_in self.new ≡ orders_in self.old) }
    {
        match self.to_fail.insert(number) {
            Ok(_) => Ok(()),
            Err(_) => Err(AllocError),
        }
    }
}

impl Source for MemSource {
    ghost use Rattle.std.specs.Prelude.{length, is_some, is_err};
    ghost use Rattle.std.specs.Option.{ForSome};
    ghost use Rattle.czi_rig.specs.MemSource.{input_in, orders_in};
    ghost use Rattle.czi_rig.specs.Source.{TakesBytes, Obeys};
    ghost use Rattle.czi_rig.specs.Faults.{Counted};

    ghost input = { input_in };

    fn take(&mut self, into: &mut [u8]) -> Result<usize, Failed>
        requires { 0 < length into.old }
        ensures bound { IfOk result (λ n. n ≤ length into.old) }
        ensures taken { IfOk result (λ n. ForSome (input_in self.old).left (λ left. TakesBytes n into.new left (input_in self.new).left)) }
        ensures kept { OnErr result ((input_in self.new).left ≡ (input_in self.old).left) }
        ensures told { is_some (input_in self.new).left ≡ is_some (input_in self.old).left }
        ensures later { (input_in self.old).faults ≤ (input_in self.new).faults }
        ensures cause { Counted (is_err result) (input_in self.old).faults (input_in self.new).faults }
        ensures obeys { Obeys (is_err result) (orders_in self.old) (orders_in self.new) (input_in self.old).faults (input_in self.new).faults }
    {
        let number = self.calls;
        self.calls = number.saturating_add(1);
        if is_to_fail(&self.to_fail, number) {
            self.faults = self.faults.saturating_add(1);
            return Err(Failed);
        }
        let n = into.len().min(self.bytes.len() - self.at);
        into[..n].copy_from_slice(&self.bytes[self.at..self.at + n]);
        self.at += n;
        Ok(n)
    }
}
