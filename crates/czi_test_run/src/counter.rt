//! An editor for tests.

ghost use Rattle.std.specs.Prelude.{◌≡◌, ◌++◌, [], OnOk, ⊤};
ghost use Rattle.czi_test_run.specs.Counting.{begins_counts, counting, Counts, ok_line, refused_once, rests_counts, says_ok};

use czi_rig::{Failed, File, Rig, write_synced};
use czi_script::Command;
use czi_session::{Editor, EditorStop, OpenStop};
use std::alloc::{AllocError, Global};

/// The length of the longest image that a device takes, in bytes.
const MOST: u64 = 1 << 62;

/// An editor that counts: each command makes the image longer by a byte, as far as a device takes it.
#[derive(Drop)]
pub(crate) struct Counter {
    reply: Vec<u8>,
}

/// Appends the reply of a counter.
fn push_ok(reply: &mut Vec<u8>) -> Result<(), AllocError>
    ensures { OnOk result (reply.new.items ≡ reply.old.items ++ ok_line) }
{
    reply.extend_from_slice(b"ok\n")
}

impl Editor for Counter {
    ghost model = { counting };

    ghost stands = { λ editor image journal s. Counts image journal s };

    ghost ready = { λ editor state. ⊤ };

    ghost says = { λ editor. editor.reply.items };

    ghost owes = { λ editor s rest. rest ≡ [] };

    ghost pieces_left = { λ editor. 0 };

    ghost stays_ready = { λ editor old new ready same on. ready };

    ghost rests_now = { λ editor image journal s stands. rests_counts image journal s stands };

    ghost begins_unsealed = { λ image journal s begins. begins_counts image journal s begins };

    ghost says_something = { λ s c. says_ok s c };

    ghost refused_once = { λ image journal text other so also. refused_once image journal text other so also };

    fn open<R: Rig>(alloc: Global, rig: &mut R) -> Result<Counter, OpenStop> {
        match rig.sync(File::Image) {
            Ok(()) => match rig.sync(File::Journal) {
                Ok(()) => Ok(Counter {
                    reply: Vec::new(alloc),
                }),
                Err(_) => Err(OpenStop::Stopped(EditorStop::Journal)),
            },
            Err(_) => Err(OpenStop::Stopped(EditorStop::Image)),
        }
    }

    fn perform<R: Rig>(&mut self, rig: &mut R, _command: &Command) -> Result<(), EditorStop> {
        self.reply.clear();
        let Ok(()) = push_ok(&mut self.reply) else {
            return Err(EditorStop::Memory);
        };
        let Ok(at) = rig.len(File::Image) else {
            return Err(EditorStop::Image);
        };
        if at >= MOST {
            return Ok(());
        }
        match write_synced(rig, File::Image, at, &[0]) {
            Ok(()) => Ok(()),
            Err(_) => Err(EditorStop::Image),
        }
    }

    fn piece(&self) -> &[u8] {
        &self.reply
    }

    fn next_piece<R: Rig>(&mut self, _rig: &mut R) -> Result<bool, Failed> {
        Ok(false)
    }

    fn seal<R: Rig>(self, _rig: &mut R) -> Result<(), Failed> {
        Ok(())
    }
}
