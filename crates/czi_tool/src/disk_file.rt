// One file of the system, by its path.
ghost use Rattle.std.specs.Prelude.{◌≡◌, ◌≤◌, ◌^◌, OnOk, IfOk, IsOk, is_err};
ghost use Rattle.czi_rig.specs.Faults.{Counted};

use czi_rig::Failed;
use std::fs::{File, OpenOptions};
use std::io::ErrorKind;
use std::os::unix::fs::FileExt;
use std::path::Path;
use std::{fs, io};

/// The longest file that the editor works on, in bytes.
const MAX_LEN: u64 = 1 << 62;

/// What a file is open for. One that wasn't opened yet, or isn't there, is open for nothing.
#[derive(Drop)]
pub(crate) enum Handle {
    Closed,
    Read(File),
    Write(File),
}

/// A file, and how often a call on it has failed.
#[derive(Drop)]
pub(crate) struct DiskFile {
    pub(crate) path: String,
    pub(crate) handle: Handle,
    /// The file was made, and its folder wasn't synced since.
    pub(crate) folder_due: bool,
    pub(crate) faults: u64,
}

/// Counts a fault, and forgets what it was.
pub(crate) fn counted<T: Drop>(faults: &mut u64, answer: io::Result<T>) -> Result<T, Failed>
    ensures value { IfOk result (λ value. answer ≡ Ok value) }
    ensures failed { IsOk answer → IsOk result }
    ensures grows { faults.old ≤ faults.new }
    ensures cause { Counted (is_err result) faults.old faults.new }
{
    match answer {
        Ok(value) => Ok(value),
        Err(_) => {
            *faults = faults.saturating_add(1);
            Err(Failed)
        }
    }
}

fn open_to_read(rt: &HostRuntime, path: &str) -> io::Result<Handle> {
    match File::open(rt, path) {
        Ok(file) => Ok(Handle::Read(file)),
        Err(error) if error.kind() == ErrorKind::NotFound => Ok(Handle::Closed),
        Err(error) => Err(error),
    }
}

fn open_to_write(rt: &HostRuntime, path: &str, make: bool) -> io::Result<File> {
    OpenOptions::new()
        .read(true)
        .write(true)
        .create(make)
        .open(rt, path)
}

/// Makes the entry of a file in its folder durable.
fn sync_folder(rt: &HostRuntime, path: &str) -> io::Result<()> {
    let folder = match Path::new(path).parent() {
        Some(folder) => folder.as_str(),
        None => "",
    };
    let folder = if folder.is_empty() { "." } else { folder };
    File::open(rt, folder)?.sync_all()
}

fn length(file: &File) -> io::Result<u64>
    ensures { IfOk result (λ n. n ≤ 2 ^ 62) }
{
    let len = file.metadata()?.len();
    if len > MAX_LEN {
        return Err(ErrorKind::InvalidData.into());
    }
    Ok(len)
}

impl DiskFile {
    ghost use Rattle.czi_tool.specs.Handle.{IsWritable};

    /// A file that wasn't looked for yet.
    pub(crate) fn new(path: String) -> DiskFile
        ensures { result.faults ≡ 0 }
    {
        DiskFile {
            path,
            handle: Handle::Closed,
            folder_due: false,
            faults: 0,
        }
    }

    /// Opens the file for reading where it is there and not open.
    fn find(&mut self, rt: &HostRuntime) -> io::Result<()>
        ensures { self.new.faults ≡ self.old.faults }
    {
        if let Handle::Closed = &self.handle {
            self.handle = open_to_read(rt, self.path.as_str())?;
        }
        Ok(())
    }

    /// Syncs the folder of a file that was made, once.
    fn settle_folder(&mut self, rt: &HostRuntime) -> io::Result<()>
        ensures faults { self.new.faults ≡ self.old.faults }
        ensures handle { self.new.handle ≡ self.old.handle }
    {
        if self.folder_due {
            sync_folder(rt, self.path.as_str())?;
            self.folder_due = false;
        }
        Ok(())
    }

    /// Opens the file for writing, and makes one that is missing.
    fn take_up(&mut self, rt: &HostRuntime) -> io::Result<()>
        ensures faults { self.new.faults ≡ self.old.faults }
        ensures writable { OnOk result (IsWritable self.new.handle) }
    {
        if let Handle::Write(_) = &self.handle {
            return Ok(());
        }
        let file = match open_to_write(rt, self.path.as_str(), false) {
            Ok(file) => file,
            Err(error) if error.kind() == ErrorKind::NotFound => {
                let made = open_to_write(rt, self.path.as_str(), true)?;
                self.folder_due = true;
                made
            }
            Err(error) => return Err(error),
        };
        self.settle_folder(rt)?;
        self.handle = Handle::Write(file);
        Ok(())
    }

    fn measure(&mut self, rt: &HostRuntime) -> io::Result<u64>
        ensures faults { self.new.faults ≡ self.old.faults }
        ensures bound { IfOk result (λ n. n ≤ 2 ^ 62) }
    {
        self.find(rt)?;
        match &self.handle {
            Handle::Closed => Ok(0),
            Handle::Read(file) | Handle::Write(file) => length(file),
        }
    }

    fn fetch(&mut self, rt: &HostRuntime, at: u64, into: &mut [u8]) -> io::Result<()>
        ensures { self.new.faults ≡ self.old.faults }
    {
        self.find(rt)?;
        match &self.handle {
            Handle::Closed if into.is_empty() => Ok(()),
            Handle::Closed => Err(ErrorKind::UnexpectedEof.into()),
            Handle::Read(file) | Handle::Write(file) => file.read_exact_at(into, at),
        }
    }

    fn put(&mut self, rt: &HostRuntime, at: u64, bytes: &[u8]) -> io::Result<()>
        ensures { self.new.faults ≡ self.old.faults }
    {
        self.take_up(rt)?;
        match &self.handle {
            Handle::Write(file) => file.write_all_at(bytes, at),
            _ => unreachable!(),
        }
    }

    fn shorten(&mut self, rt: &HostRuntime, len: u64) -> io::Result<()>
        ensures { self.new.faults ≡ self.old.faults }
    {
        self.take_up(rt)?;
        match &self.handle {
            Handle::Write(file) => file.set_len(len),
            _ => unreachable!(),
        }
    }

    fn settle(&mut self, rt: &HostRuntime) -> io::Result<()>
        ensures { self.new.faults ≡ self.old.faults }
    {
        self.find(rt)?;
        self.settle_folder(rt)?;
        match &self.handle {
            Handle::Closed => Ok(()),
            Handle::Read(file) | Handle::Write(file) => file.sync_all(),
        }
    }

    /// The length in bytes, 0 of a missing file. A longer one than 2^62 is a fault.
    pub(crate) fn len(&mut self, rt: &HostRuntime) -> Result<u64, Failed>
        ensures bound { IfOk result (λ n. n ≤ 2 ^ 62) }
        ensures grows { self.old.faults ≤ self.new.faults }
        ensures cause { Counted (is_err result) self.old.faults self.new.faults }
    {
        let answer = self.measure(rt);
        counted(&mut self.faults, answer)
    }

    /// Fills `into`. Where the file ends before it is full, that is a fault.
    pub(crate) fn read_at(
        &mut self,
        rt: &HostRuntime,
        at: u64,
        into: &mut [u8],
    ) -> Result<(), Failed>
        ensures grows { self.old.faults ≤ self.new.faults }
        ensures cause { Counted (is_err result) self.old.faults self.new.faults }
    {
        let answer = self.fetch(rt, at, into);
        counted(&mut self.faults, answer)
    }

    /// Writes all of the bytes, into a file that is made where it is missing.
    pub(crate) fn write_at(&mut self, rt: &HostRuntime, at: u64, bytes: &[u8]) -> Result<(), Failed>
        ensures grows { self.old.faults ≤ self.new.faults }
        ensures cause { Counted (is_err result) self.old.faults self.new.faults }
    {
        let answer = self.put(rt, at, bytes);
        counted(&mut self.faults, answer)
    }

    /// Sets the length, of a file that is made where it is missing.
    pub(crate) fn cut(&mut self, rt: &HostRuntime, len: u64) -> Result<(), Failed>
        ensures grows { self.old.faults ≤ self.new.faults }
        ensures cause { Counted (is_err result) self.old.faults self.new.faults }
    {
        let answer = self.shorten(rt, len);
        counted(&mut self.faults, answer)
    }

    /// Syncs the file with its length, and the folder where it was made and that failed. A missing file needs none.
    pub(crate) fn sync(&mut self, rt: &HostRuntime) -> Result<(), Failed>
        ensures grows { self.old.faults ≤ self.new.faults }
        ensures cause { Counted (is_err result) self.old.faults self.new.faults }
    {
        let answer = self.settle(rt);
        counted(&mut self.faults, answer)
    }
}
