// A file as its calls left it, made again from the log.
ghost use Rattle.std.specs.Prelude.{◌≡◌, ◌+◌, ◌<◌, ◌≤◌, ◌^◌, ℕ, length, take, min, slice_index, IfOk, OnOk};
ghost use Rattle.czi_rig.specs.Disk.{Left, at_rest, overwritten};
ghost use Rattle.czi_rig.specs.Replay.{IsSoundDisk, after_event, replay, same_file, synced, was_cut, put};
ghost use Rattle.czi_rig.specs.Crash.{disk_in, disk_within, inside_event, Filled, IsPainted, Picked};

use crate::content::{length_cut, overwrite};
use crate::log::{Event, part_done};
use crate::{Call, File, Pick};
use std::alloc::{AllocError, Global};

/// The content of a file as a read gives it, the one that was synced last, the ranges that were written since by place and
/// number of bytes, and the least and the greatest length since.
#[derive(Drop)]
pub(crate) struct Replayed {
    pub(crate) seen: Vec<u8>,
    pub(crate) synced: Vec<u8>,
    pub(crate) written: Vec<(u64, u64)>,
    pub(crate) least: u64,
    pub(crate) greatest: u64,
}

fn is_same(f: File, g: File) -> bool
    ensures { result ≡ same_file f g }
{
    match (f, g) {
        (File::Image, File::Image) => true,
        (File::Journal, File::Journal) => true,
        _ => false,
    }
}

/// Puts bytes over what is there and past the end, from the end on where the place is past it.
fn put_at(content: &mut Vec<u8>, at: u64, bytes: &[u8]) -> Result<(), AllocError>
    ensures { OnOk result (content.new.items ≡ overwritten at bytes.now content.old.items) }
{
    let from = (at as usize).min(content.len());
    content.try_reserve(bytes.len())?;
    overwrite(content, from, bytes);
    Ok(())
}

/// Puts one byte at each place of a range, as far as it lies in the content.
fn paint(content: &mut [u8], at: u64, n: u64, byte: u8)
    ensures { IsPainted at n byte content.old content.new }
{
    let from = (at as usize).min(content.len());
    let to = (at.saturating_add(n) as usize).min(content.len());
    content[from..to].fill(byte);
}

impl Replayed {
    fn at_rest(alloc: Global, bytes: &[u8]) -> Result<Replayed, AllocError>
        ensures { IfOk result (λ r. disk_in r ≡ at_rest bytes.now) }
    {
        Ok(Replayed {
            seen: Vec::from_slice(alloc, bytes)?,
            synced: Vec::from_slice(alloc, bytes)?,
            written: Vec::new(alloc),
            least: bytes.len() as u64,
            greatest: bytes.len() as u64,
        })
    }

    fn write(&mut self, at: u64, bytes: &[u8], failed: bool) -> Result<(), AllocError>
        requires { at + length bytes.now ≤ 2 ^ 62 }
        ensures { OnOk result (disk_in self.new ≡ put at bytes.now failed (disk_in self.old)) }
    {
        let n = bytes.len() as u64;
        self.written.push((at, n))?;
        self.greatest = self.greatest.max(at + n);
        put_at(&mut self.seen, at, part_done(bytes, failed))
    }

    fn cut(&mut self, len: u64, failed: bool)
        ensures { disk_in self.new ≡ was_cut len failed (disk_in self.old) }
    {
        self.least = self.least.min(len);
        let to = length_cut(len as usize, failed, self.seen.len());
        self.seen.truncate(to);
    }

    fn sync(&mut self, failed: bool) -> Result<(), AllocError>
        ensures { OnOk result (disk_in self.new ≡ synced failed (disk_in self.old)) }
    {
        if failed {
            return Ok(());
        }
        self.synced.clear();
        self.synced.extend_from_slice(&self.seen)?;
        self.written.clear();
        self.least = self.seen.len() as u64;
        self.greatest = self.seen.len() as u64;
        Ok(())
    }

    /// Comes inside a call.
    fn enter(&mut self, f: File, event: &Event) -> Result<(), AllocError>
        requires { (inside_event f event.now (disk_in self.old)).durable.greatest ≤ 2 ^ 62 }
        ensures { OnOk result (disk_in self.new ≡ inside_event f event.now (disk_in self.old)) }
    {
        match event.call {
            Call::Write(g, at, _) => {
                if is_same(f, g) {
                    self.write(at, &event.bytes, event.failed)
                } else {
                    Ok(())
                }
            }
            Call::Cut(g, len) => {
                if is_same(f, g) {
                    self.cut(len, event.failed);
                }
                Ok(())
            }
            _ => Ok(()),
        }
    }

    /// Comes behind a call.
    fn pass(&mut self, f: File, event: &Event) -> Result<(), AllocError>
        requires { (inside_event f event.now (disk_in self.old)).durable.greatest ≤ 2 ^ 62 }
        ensures { OnOk result (disk_in self.new ≡ after_event f event.now (disk_in self.old)) }
    {
        match event.call {
            Call::Sync(g) => {
                if is_same(f, g) {
                    self.sync(event.failed)
                } else {
                    Ok(())
                }
            }
            _ => self.enter(f, event),
        }
    }

    /// The synced bytes up to the least length, and this byte at each place that a crash leaves open, in the greatest
    /// length or the least.
    fn fill(&self, alloc: Global, byte: u8, long: bool) -> Result<Vec<u8>, AllocError>
        requires { IsSoundDisk (disk_in self.now) }
        ensures left { IfOk result (λ left. Left (disk_in self.now).durable left.items) }
        ensures filled { IfOk result (λ left. Filled byte long (disk_in self.now).durable left.items) }
    {
        let len = if long { self.greatest } else { self.least };
        let mut left = Vec::from_slice(alloc, &self.synced[..self.least as usize])?;
        left.resize(len as usize, byte)?;
        for (at, n) in &self.written {
            paint(&mut left, *at, *n, byte);
        }
        Ok(left)
    }

    fn pick(self, alloc: Global, pick: Pick) -> Result<Vec<u8>, AllocError>
        requires { IsSoundDisk (disk_in self) }
        ensures left { IfOk result (λ left. Left (disk_in self).durable left.items) }
        ensures picked { IfOk result (λ left. Picked pick (disk_in self) left.items) }
    {
        match pick {
            Pick::Old => Ok(self.synced),
            Pick::New => Ok(self.seen),
            Pick::Fill(byte, long) => self.fill(alloc, byte, long),
        }
    }

    /// A file that had these bytes at first, after the calls with a lower number.
    fn before(
        alloc: Global,
        f: File,
        bytes: &[u8],
        calls: &[Event],
        number: usize,
    ) -> Result<Replayed, AllocError>
        requires in_calls { number ≤ length calls.now }
        requires sound { (k : ℕ) → IsSoundDisk (replay f (at_rest bytes.now) (take k calls.now)) }
        ensures { IfOk result (λ r. disk_in r ≡ replay f (at_rest bytes.now) (take number calls.now)) }
    {
        let mut disk = Replayed::at_rest(alloc, bytes)?;
        for i in 0..number {
            disk.pass(f, &calls[i])?;
        }
        Ok(disk)
    }

    /// What a crash inside the call with this number may leave of a file.
    pub(crate) fn crash(
        alloc: Global,
        f: File,
        bytes: &[u8],
        calls: &[Event],
        number: usize,
        pick: Pick,
    ) -> Result<Vec<u8>, AllocError>
        requires in_calls { number < length calls.now }
        requires sound { (k : ℕ) → IsSoundDisk (replay f (at_rest bytes.now) (take k calls.now)) }
        ensures left { IfOk result (λ left. Left (disk_within f bytes.now calls.now number).durable left.items) }
        ensures picked { IfOk result (λ left. Picked pick (disk_within f bytes.now calls.now number) left.items) }
    {
        let mut disk = Replayed::before(alloc, f, bytes, calls, number)?;
        disk.enter(f, &calls[number])?;
        disk.pick(alloc, pick)
    }
}
