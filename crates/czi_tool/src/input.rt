ghost use Rattle.std.specs.Prelude.{◌≡◌, ◌≤◌, None, length, IfOk};

use crate::disk_file::counted;
use czi_rig::{Failed, Source};
use std::io;
use std::io::{ErrorKind, Read};

/// Standard input. It doesn't tell what is left, since no contract can say what the system gives.
#[derive(Drop)]
pub struct InputSource {
    rt: HostRuntime,
    pub(crate) faults: u64,
}

impl InputSource {
    /// The source over standard input, no byte of which it has read yet.
    pub fn new(rt: HostRuntime) -> InputSource
        ensures { result.faults ≡ 0 }
    {
        InputSource { rt, faults: 0 }
    }
}

/// One read of standard input, tried again where a signal interrupts it.
fn read_some(rt: &HostRuntime, into: &mut [u8]) -> io::Result<usize>
    ensures { IfOk result (λ n. n ≤ length into.new) }
{
    let mut input = rt.stdin();
    for _ in 0..u64::MAX {
        match input.read(into) {
            Err(error) if error.kind() == ErrorKind::Interrupted => {}
            answer => return answer,
        }
    }
    Err(ErrorKind::Interrupted.into())
}

impl Source for InputSource {
    ghost input = { λ s. record { left = None; faults = s.faults } };

    fn take(&mut self, into: &mut [u8]) -> Result<usize, Failed> {
        let answer = read_some(&self.rt, into);
        counted(&mut self.faults, answer)
    }
}
