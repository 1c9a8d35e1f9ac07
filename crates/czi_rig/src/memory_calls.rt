// The calls of `Rig` on a rig in memory.
ghost use Rattle.std.specs.Prelude.{◌≡◌, ◌+◌, ◌^◌, ◌<◌, ◌≤◌, List, ℕ, length, take, drop, IfOk, OnOk, OnErr, option_map, is_err};
ghost use Rattle.std.specs.Option.{ForSome};
ghost use Rattle.czi_rig.specs.declared.file.File.{File};
ghost use Rattle.czi_rig.specs.Disk.{Torn, TornCut, overwritten, begun_write, begun_cut, settled};
ghost use Rattle.czi_rig.specs.State.{known, seen_of, durable_of, MayLeave, MayLeaveSaying, SameAll, SameFiles, LeavesOther, Becomes, MayHaveBegun, SaysSome};
ghost use Rattle.czi_rig.specs.Passes.{Passes};
ghost use Rattle.czi_rig.specs.Faults.{Faults, device_of, failed_at, output};
ghost use Rattle.czi_rig.specs.MemRig.{history_of, faults_in, state_in, left_in, FailsAsTold};
ghost use Rattle.czi_rig.specs.Laws.{counts_now_of, only_now_of, reads_now_of};

use crate::content::{cut, measure, read, speak, touch, write};
use crate::{Call, Failed, File, MemRig, Rig};

impl Rig for MemRig {
    ghost state = { state_in };

    ghost left_since = { left_in };

    ghost counts_now = { λ r t image journal said le m. counts_now_of (history_of r) (faults_in r) t image journal said le m };

    ghost only_now = { λ r image journal said honest l. only_now_of (history_of r) (faults_in r) image journal said l };

    ghost reads_now = { λ r f. reads_now_of (history_of r) (faults_in r) f r.kept };

    fn len(&mut self, f: File) -> Result<u64, Failed>
        ensures bound { IfOk result (λ n. n ≤ 2 ^ 62) }
        ensures length { IfOk result (λ n. ForSome (seen_of (state_in self.old) f) (λ seen. n ≡ length seen)) }
        ensures same { SameAll (state_in self.old) (state_in self.new) }
        ensures cause { Faults (failed_at result (device_of f)) (state_in self.old) (state_in self.new) }
        ensures time { Passes (state_in self.old) (state_in self.new) (left_in self.old) (left_in self.new) (MayLeave (state_in self.old)) }
        ensures told { FailsAsTold (Call.Len f) (is_err result) self.old self.new }
    {
        let call = Call::Len(f);
        match f {
            File::Image => measure(self.alloc, &mut self.image, &mut self.log, call),
            File::Journal => measure(self.alloc, &mut self.journal, &mut self.log, call),
        }
    }

    fn read_at(&mut self, f: File, at: u64, into: &mut [u8]) -> Result<(), Failed>
        requires fits { at + length into.old ≤ 2 ^ 62 }
        requires in_file { ForSome (seen_of (state_in self.old) f) (λ seen. at + length into.old ≤ length seen) }
        ensures bytes { OnOk result (ForSome (seen_of (state_in self.old) f) (λ seen. into.new ≡ take (length into.old) (drop at seen))) }
        ensures same { SameAll (state_in self.old) (state_in self.new) }
        ensures cause { Faults (failed_at result (device_of f)) (state_in self.old) (state_in self.new) }
        ensures time { Passes (state_in self.old) (state_in self.new) (left_in self.old) (left_in self.new) (MayLeave (state_in self.old)) }
        ensures told { FailsAsTold (Call.Read f at (length into.old)) (is_err result) self.old self.new }
    {
        let call = Call::Read(f, at, into.len() as u64);
        let (from, log) = (at as usize, &mut self.log);
        match f {
            File::Image => read(self.alloc, &mut self.image, log, call, from, into),
            File::Journal => read(self.alloc, &mut self.journal, log, call, from, into),
        }
    }

    fn write_at(&mut self, f: File, at: u64, bytes: &[u8]) -> Result<(), Failed>
        requires fits { at + length bytes.now ≤ 2 ^ 62 }
        requires in_file { ForSome (seen_of (state_in self.old) f) (λ seen. at ≤ length seen) }
        ensures written { OnOk result (seen_of (state_in self.new) f ≡ option_map (overwritten at bytes.now) (seen_of (state_in self.old) f)) }
        ensures torn { OnErr result (Becomes (Torn at (length bytes.now)) (seen_of (state_in self.old) f) (seen_of (state_in self.new) f)) }
        ensures begun { OnOk result (durable_of (state_in self.new) f ≡ option_map (begun_write at (length bytes.now)) (durable_of (state_in self.old) f)) }
        ensures failed { OnErr result (MayHaveBegun (begun_write at (length bytes.now)) (known (state_in self.old) f) (known (state_in self.new) f)) }
        ensures other { LeavesOther f (state_in self.old) (state_in self.new) }
        ensures cause { Faults (failed_at result (device_of f)) (state_in self.old) (state_in self.new) }
        ensures time { Passes (state_in self.old) (state_in self.new) (left_in self.old) (left_in self.new) (MayLeave (state_in self.new)) }
        ensures told { FailsAsTold (Call.Write f at (length bytes.now)) (is_err result) self.old self.new }
    {
        let call = Call::Write(f, at, bytes.len() as u64);
        let (from, log) = (at as usize, &mut self.log);
        match f {
            File::Image => write(self.alloc, &mut self.image, log, call, from, bytes),
            File::Journal => write(self.alloc, &mut self.journal, log, call, from, bytes),
        }
    }

    fn cut(&mut self, f: File, len: u64) -> Result<(), Failed>
        requires fits { len ≤ 2 ^ 62 }
        requires in_file { ForSome (seen_of (state_in self.old) f) (λ seen. len ≤ length seen) }
        ensures cut { OnOk result (seen_of (state_in self.new) f ≡ option_map (take len) (seen_of (state_in self.old) f)) }
        ensures torn { OnErr result (Becomes (TornCut len) (seen_of (state_in self.old) f) (seen_of (state_in self.new) f)) }
        ensures begun { OnOk result (durable_of (state_in self.new) f ≡ option_map (begun_cut len) (durable_of (state_in self.old) f)) }
        ensures failed { OnErr result (MayHaveBegun (begun_cut len) (known (state_in self.old) f) (known (state_in self.new) f)) }
        ensures other { LeavesOther f (state_in self.old) (state_in self.new) }
        ensures cause { Faults (failed_at result (device_of f)) (state_in self.old) (state_in self.new) }
        ensures time { Passes (state_in self.old) (state_in self.new) (left_in self.old) (left_in self.new) (MayLeave (state_in self.new)) }
        ensures told { FailsAsTold (Call.Cut f len) (is_err result) self.old self.new }
    {
        let call = Call::Cut(f, len);
        let (to, log) = (len as usize, &mut self.log);
        match f {
            File::Image => cut(self.alloc, &mut self.image, log, call, to),
            File::Journal => cut(self.alloc, &mut self.journal, log, call, to),
        }
    }

    fn sync(&mut self, f: File) -> Result<(), Failed>
        ensures same { seen_of (state_in self.new) f ≡ seen_of (state_in self.old) f }
        ensures synced { OnOk result (durable_of (state_in self.new) f ≡ option_map settled (seen_of (state_in self.old) f)) }
        ensures failed { OnErr result (durable_of (state_in self.new) f ≡ durable_of (state_in self.old) f) }
        ensures other { LeavesOther f (state_in self.old) (state_in self.new) }
        ensures cause { Faults (failed_at result (device_of f)) (state_in self.old) (state_in self.new) }
        ensures time { Passes (state_in self.old) (state_in self.new) (left_in self.old) (left_in self.new) (MayLeave (state_in self.old)) }
        ensures told { FailsAsTold (Call.Sync f) (is_err result) self.old self.new }
    {
        let call = Call::Sync(f);
        match f {
            File::Image => touch(self.alloc, &mut self.image, &mut self.log, call),
            File::Journal => touch(self.alloc, &mut self.journal, &mut self.log, call),
        }
    }

    fn say(&mut self, bytes: &[u8]) -> Result<(), Failed>
        ensures said { SaysSome (state_in self.old) (state_in self.new) bytes.now result }
        ensures files { SameFiles (state_in self.old) (state_in self.new) }
        ensures cause { Faults (failed_at result output) (state_in self.old) (state_in self.new) }
        ensures time { Passes (state_in self.old) (state_in self.new) (left_in self.old) (left_in self.new) (MayLeaveSaying (state_in self.old) bytes.now) }
        ensures told { FailsAsTold Call.Say (is_err result) self.old self.new }
    {
        speak(
            self.alloc,
            &mut self.said,
            &mut self.log,
            &mut self.output_faults,
            bytes,
        )
    }
}
