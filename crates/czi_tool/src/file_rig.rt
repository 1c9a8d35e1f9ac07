ghost use Rattle.std.specs.Prelude.{◌≡◌, ◌+◌, ◌-◌, ◌^◌, ◌≤◌, min, false, None};

use crate::disk_file::{DiskFile, counted};
use czi_rig::{Failed, File, Rig};
use std::io;
use std::io::Write;

/// The image and the journal as two files of the system, and standard output.
///
/// It tells nothing of their contents, since no contract can say what a file of the system gives. Each refusal of the
/// system is a fault of its file, and is counted there. A missing file is empty; the first write or cut makes it, and
/// syncs the folder that it is made in. A file is opened for reading until then.
#[derive(Drop)]
pub struct FileRig {
    rt: HostRuntime,
    pub(crate) image: DiskFile,
    pub(crate) journal: DiskFile,
    pub(crate) output_faults: u64,
}

impl FileRig {
    /// The rig over the files at these two paths. It opens none of them yet.
    pub fn new(rt: HostRuntime, path: String, journal_path: String) -> FileRig
        ensures image { result.image.faults ≡ 0 }
        ensures journal { result.journal.faults ≡ 0 }
        ensures output { result.output_faults ≡ 0 }
    {
        FileRig {
            rt,
            image: DiskFile::new(path),
            journal: DiskFile::new(journal_path),
            output_faults: 0,
        }
    }
}

/// Writes to standard output.
fn write_out(rt: &HostRuntime, bytes: &[u8]) -> io::Result<()> {
    let mut out = rt.stdout();
    out.write_all(bytes)?;
    out.flush()
}

impl Rig for FileRig {
    ghost state = { λ r. record { honest = false; image = None; journal = None; said = None; image_faults = r.image.faults; journal_faults = r.journal.faults; output_faults = r.output_faults; moment = 0 } };

    ghost left_since = { λ r t image journal said. Unit {0} };

    ghost counts_now = { λ r t image journal said le now. tt };

    ghost only_now = { λ r image journal said honest. Prim.cc };

    ghost reads_now = { λ r f disk is. Prim.cc };

    fn len(&mut self, f: File) -> Result<u64, Failed> {
        match f {
            File::Image => self.image.len(&self.rt),
            File::Journal => self.journal.len(&self.rt),
        }
    }

    fn read_at(&mut self, f: File, at: u64, into: &mut [u8]) -> Result<(), Failed> {
        match f {
            File::Image => self.image.read_at(&self.rt, at, into),
            File::Journal => self.journal.read_at(&self.rt, at, into),
        }
    }

    fn write_at(&mut self, f: File, at: u64, bytes: &[u8]) -> Result<(), Failed> {
        match f {
            File::Image => self.image.write_at(&self.rt, at, bytes),
            File::Journal => self.journal.write_at(&self.rt, at, bytes),
        }
    }

    fn cut(&mut self, f: File, len: u64) -> Result<(), Failed> {
        match f {
            File::Image => self.image.cut(&self.rt, len),
            File::Journal => self.journal.cut(&self.rt, len),
        }
    }

    fn sync(&mut self, f: File) -> Result<(), Failed> {
        match f {
            File::Image => self.image.sync(&self.rt),
            File::Journal => self.journal.sync(&self.rt),
        }
    }

    fn say(&mut self, bytes: &[u8]) -> Result<(), Failed> {
        let answer = write_out(&self.rt, bytes);
        counted(&mut self.output_faults, answer)
    }
}
